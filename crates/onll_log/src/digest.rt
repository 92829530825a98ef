//! A message that is digested, and the words of its digest.

ghost use Rattle.std.specs.Prelude.{◌≡◌, List, ℕ, ◌++◌, []};
ghost use Rattle.onll_words.specs.Lines.{bytes_of_words};
ghost use Rattle.onll_log.specs.Head.{digest_words};
ghost use Rattle.onll_log.specs.Digest.{IsMessage};
ghost use Rattle.std.specs.List.{flat_map};
ghost use Rattle.onll_pmem.specs.Pmem.{words_of};

use byteorder::{ByteOrder, LittleEndian};
use onll_words::{Line, line_bytes};
use sha2::{Digest, Sha256};

/// A message that is fed piece by piece.
#[derive(Drop)]
pub struct Message {
    hasher: Sha256,
}

impl Message {
    /// A message of no bytes.
    pub fn new() -> Message
        ensures { IsMessage result [] }
    {
        Message {
            hasher: Sha256::new(),
        }
    }

    /// Adds bytes at the end.
    pub fn add_bytes(&mut self, bytes: &[u8])
        ensures { (m : List ℕ) → IsMessage self.old m → IsMessage self.new (m ++ bytes.now) }
    {
        self.hasher.update(bytes);
    }

    /// Adds the bytes of words at the end, the lowest byte of each first.
    pub fn add_words(&mut self, words: &[u64])
        ensures { (m : List ℕ) → IsMessage self.old m → IsMessage self.new (m ++ bytes_of_words words.now) }
    {
        for word in words {
            self.add_bytes(&word.to_le_bytes());
        }
    }

    /// Adds the bytes of lines at the end.
    pub fn add_lines(&mut self, lines: &[Line])
        ensures { (m : List ℕ) → IsMessage self.old m → IsMessage self.new (m ++ flat_map bytes_of_words (words_of lines.now)) }
    {
        for line in lines {
            self.add_bytes(&line_bytes(*line));
        }
    }

    /// The first three words of the message's SHA-256.
    pub fn digest(self) -> [u64; 3]
        ensures { (m : List ℕ) → IsMessage self m → result ≡ digest_words m }
    {
        let bytes = self.hasher.finalize();
        let mut words = [0; 3];
        LittleEndian::read_u64_into(&bytes[..24], &mut words);
        words
    }
}
