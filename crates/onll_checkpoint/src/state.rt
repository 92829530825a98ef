//! What a checkpoint holds.

ghost use Rattle.std.specs.Prelude.{◌≡◌, ◌≤◌, length};
ghost use Rattle.onll_checkpoint.specs.Checkpoint.{longest_saved};

use std::marker::Model;

/// How many bytes a checkpoint's text has at most.
pub const LONGEST_SAVED: usize = 1_048_576;

/// A checkpoint: the text of an object's state, the place after which it was made, and the number of the checkpoint.
#[derive(Drop)]
pub struct Checkpoint {
    number: u64,
    place: u64,
    text: Vec<u8>,
}

impl Model for Checkpoint {
    ghost use Rattle.onll_checkpoint.specs.Checkpoint.{CheckpointState, FitsCheckpoint};

    ghost Value = { CheckpointState };

    ghost view = { λ c. record { number = c.number; place = c.place; text = c.text.items } };

    ghost invariant = { λ c. FitsCheckpoint (record { number = c.number; place = c.place; text = c.text.items }) };
}

impl Checkpoint {
    ghost use Rattle.onll_checkpoint.specs.Checkpoint.{FitsCheckpoint};

    /// The checkpoint of this number, made after this place, with the text of the state there.
    pub fn of(number: u64, place: u64, text: Vec<u8>) -> Checkpoint
        requires number { 1 ≤ number }
        requires text { length text.items ≤ longest_saved }
        ensures { result ≡ record { number = number; place = place; text = text.items } }
    {
        Checkpoint {
            number,
            place,
            text,
        }
    }

    /// Its number, at least 1.
    pub fn number(&self) -> u64
        ensures { result ≡ self.now.number }
    {
        self.number
    }

    /// The place after which it was made.
    pub fn place(&self) -> u64
        ensures { result ≡ self.now.place }
    {
        self.place
    }

    /// The text of the state. That a checkpoint fits its format is said here.
    pub fn text(&self) -> &[u8]
        ensures text { result.now ≡ self.now.text }
        ensures fits { FitsCheckpoint self.now }
    {
        self.text.as_slice()
    }
}
