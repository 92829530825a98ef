//! The line of a log and the row of an operation, and their bytes.

ghost use Rattle.std.specs.Prelude.{◌≡◌};
ghost use Rattle.onll_words.specs.Lines.{bytes_of_words, words_of_bytes};

use byteorder::{ByteOrder, LittleEndian};

/// A line of a log: eight words of 64 bits.
#[derive(Clone, Copy, Debug, PartialEq, Eq)]
pub struct Line {
    pub w: [u64; 8],
}

/// The row of an operation: its code and six arguments.
#[derive(Clone, Copy, Debug, PartialEq, Eq)]
pub struct OpRow {
    pub w: [u64; 7],
}

/// The bytes of a line, as a log's file has them: each word with its lowest byte first.
pub fn line_bytes(line: Line) -> [u8; 64]
    ensures bytes { result ≡ bytes_of_words line.w }
    ensures words { words_of_bytes result ≡ line.w }
{
    let mut bytes = [0; 64];
    LittleEndian::write_u64_into(&line.w, &mut bytes);
    bytes
}

/// The line of which these are the bytes.
pub fn line_of_bytes(bytes: [u8; 64]) -> Line
    ensures words { result.w ≡ words_of_bytes bytes }
    ensures bytes { bytes_of_words result.w ≡ bytes }
{
    let mut w = [0; 8];
    LittleEndian::read_u64_into(&bytes, &mut w);
    Line { w }
}
