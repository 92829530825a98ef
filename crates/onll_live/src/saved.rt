//! The trait of an object whose state is saved as bytes.

ghost use Rattle.std.specs.Prelude.{◌≡◌, ◌≤◌, ℕ, List, Option, Some, IfOk, length};
ghost use Rattle.onll_checkpoint.specs.Checkpoint.{longest_saved};

use onll_rows::Described;
use onll_words::NoMemory;
use std::alloc::Global;

/// An object whose state is saved as bytes, of which there is a bound, and read back from them.
pub trait Saved: Described {
    ghost read_of: { List ℕ → Option Self };

    /// Bytes from which the state is read back.
    fn save(&self, alloc: Global) -> Result<Vec<u8>, NoMemory>
        ensures reads_back { IfOk result (λ bytes. read_of bytes.items ≡ Some self.now) }
        ensures few { IfOk result (λ bytes. length bytes.items ≤ longest_saved) };

    /// The state that was saved as these bytes.
    fn load(alloc: Global, bytes: &[u8]) -> Result<Option<Self>, NoMemory>
        ensures { IfOk result (λ state. state ≡ read_of bytes.now) };
}
