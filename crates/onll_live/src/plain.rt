//! Saving a state of a few words.

ghost use Rattle.std.specs.Prelude.{◌≡◌, ℕ, List, Option, Some};
ghost use Rattle.onll_live.specs.Plain.{plain_of};

use crate::saved::Saved;
use onll_rows::{Plain, PlainState};
use onll_words::{Line, NoMemory, line_bytes, line_of_bytes};
use std::alloc::Global;

/// A state that is saved as eight words.
pub trait PlainSaved: PlainState {
    ghost state_of: { List ℕ → Option Self };

    /// Words from which the state is read back.
    fn words(object: &Plain<Self>) -> [u64; 8]
        ensures { state_of result ≡ Some object.now };

    /// The object in the state that was saved as these words.
    fn of_words(words: [u64; 8]) -> Option<Plain<Self>>
        ensures { result ≡ state_of words };
}

impl<S: PlainSaved> Saved for Plain<S> {
    ghost read_of = { plain_of S.state_of };

    fn save(&self, alloc: Global) -> Result<Vec<u8>, NoMemory> {
        let line = Line { w: S::words(self) };
        let mut bytes = Vec::new(alloc);
        bytes.extend_from_slice(&line_bytes(line))?;
        Ok(bytes)
    }

    fn load(_alloc: Global, bytes: &[u8]) -> Result<Option<Plain<S>>, NoMemory> {
        let Some(line) = bytes.as_array::<64>() else {
            return Ok(None);
        };
        let Line { w } = line_of_bytes(*line);
        Ok(S::of_words(w))
    }
}
