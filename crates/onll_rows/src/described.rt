//! The trait of an object that says from which state its logs begin.

ghost use Rattle.std.specs.Prelude.{◌≡◌, ℕ, List, IfOk};

use crate::plain::{Plain, PlainState};
use onll_model::Object;
use onll_words::NoMemory;
use std::alloc::Global;

/// An object that says from which state its logs begin. What it says is what the digest in each log's head is of, so that the logs of
/// another object, or of one that began in another state, are not taken for these.
pub trait Described: Object {
    ghost description: { Self → List ℕ };

    /// The object's name, and its state in words. A user's own object begins with a name that no other has.
    fn describe(&self, alloc: Global) -> Result<Vec<u8>, NoMemory>
        ensures { IfOk result (λ bytes. bytes.items ≡ description self.now) };
}

impl<S: PlainState> Described for Plain<S> {
    ghost description = { S.sketch.text };

    fn describe(&self, alloc: Global) -> Result<Vec<u8>, NoMemory> {
        let text = self.state.describe(alloc)?;
        Ok(text.into_bytes())
    }
}
