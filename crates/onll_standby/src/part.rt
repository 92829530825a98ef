//! A line of which some bytes have come.

ghost use Rattle.std.specs.Prelude.{◌≡◌, ◌+◌, ◌-◌, ◌<◌, ◌≤◌, [], ◌++◌, length};
ghost use Rattle.onll_words.specs.Lines.{words_of_bytes};

use onll_words::{Line, line_of_bytes};
use std::marker::Model;

/// How many bytes a line has.
pub const LINE: usize = 64;

/// The first bytes of a line, seen as their list.
#[derive(Drop)]
pub struct PartLine {
    bytes: [u8; LINE],
    filled: usize,
}

impl Model for PartLine {
    ghost use Rattle.std.specs.Prelude.{ℕ, List, ◌<◌, take};

    ghost Value = { List ℕ };

    ghost view = { λ s. take s.filled s.bytes };

    ghost invariant = { λ s. s.filled < 64 };
}

impl PartLine {
    /// No byte of a line.
    pub fn new() -> PartLine
        ensures { result ≡ [] }
    {
        PartLine {
            bytes: [0; LINE],
            filled: 0,
        }
    }

    /// How many bytes of the line are to come.
    pub fn missing(&self) -> usize
        ensures count { result + length self.now ≡ 64 }
        ensures some { 1 ≤ result }
    {
        LINE - self.filled
    }

    /// The line that these bytes complete.
    pub fn completed(&self, bytes: &[u8]) -> Line
        requires { length bytes.now + length self.now ≡ 64 }
        ensures { result.w ≡ words_of_bytes (self.now ++ bytes.now) }
    {
        let mut all = self.bytes;
        all[self.filled..].copy_from_slice(bytes);
        line_of_bytes(all)
    }

    /// Adds bytes that do not complete the line.
    pub fn add(&mut self, bytes: &[u8])
        requires { length bytes.now + length self.old < 64 }
        ensures { self.new ≡ self.old ++ bytes.now }
    {
        let end = self.filled + bytes.len();
        self.bytes[self.filled..end].copy_from_slice(bytes);
        self.filled = end;
    }

    /// Begins the next line.
    pub fn clear(&mut self)
        ensures { self.new ≡ [] }
    {
        self.filled = 0;
    }
}
