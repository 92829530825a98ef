//! The bytes of a report, which are appended word by word.

ghost use Rattle.std.specs.Prelude.{◌≡◌, ◌≤◌, ℕ, ◌++◌, ◌∷◌, [], true, decimal, length, map, OnOk, OnErr};
ghost use Rattle.onll_words.specs.Texts.{AreWords, line_text};
ghost use Rattle.onll_text.specs.Bytes.{begins_line, with_word, with_words, IsFront};
ghost use Rattle.onll_text.specs.Pieces.{piece_word};

use itoa::Buffer;
use onll_words::{NoMemory, Short};
use std::alloc::Global;
use std::marker::Model;

/// A word of a report.
#[derive(Clone, Copy, Debug)]
pub enum Piece<'a> {
    Text(&'a [u8]),
    Short(Short),
    /// A number, in the shortest decimal form.
    Number(u64),
}

/// The greatest length of a short text.
const LONGEST_SHORT: usize = 23;

/// The bytes of a short text, written into the buffer.
fn short_bytes(text: Short, buffer: &mut [u8; LONGEST_SHORT]) -> &[u8]
    ensures { result.now ≡ text.bytes }
{
    let length = text.length() as usize;
    for i in 0..length {
        buffer[i] = text.byte(i as u64);
    }
    &buffer[..length]
}

/// The bytes of a report, seen as that list. After want of memory the bytes before stay, and behind them stands a front of what
/// was to be appended, if anything.
#[derive(Drop)]
pub struct Report {
    bytes: Vec<u8>,
}

impl Model for Report {
    ghost use Rattle.std.specs.Prelude.{List, ℕ};

    ghost Value = { List ℕ };

    ghost view = { λ r. r.bytes.items };
}

impl Report {
    /// An empty report.
    pub fn new(alloc: Global) -> Report
        ensures { result ≡ [] }
    {
        Report {
            bytes: Vec::new(alloc),
        }
    }

    /// An empty report again, with the room that it has.
    pub fn clear(&mut self)
        ensures { self.new ≡ [] }
    {
        self.bytes.clear();
    }

    pub fn bytes(&self) -> &[u8]
        ensures { result.now ≡ self.now }
    {
        &self.bytes
    }

    /// The bytes, without a copy.
    pub fn into_bytes(self) -> Vec<u8>
        ensures { result.items ≡ self }
    {
        self.bytes
    }

    /// Whether nothing stands in the last line yet.
    #[inline(always)]
    fn begins_line(&self) -> bool
        ensures { result ≡ begins_line self.now }
    {
        match self.bytes.last() {
            Some(last) => *last == b'\n',
            None => true,
        }
    }

    /// A text as it is.
    #[tactic(auto, using(crate::proofs::Keeping::keeping))]
    #[inline(always)]
    fn put(&mut self, text: &[u8]) -> Result<(), NoMemory>
        ensures ok { OnOk result (self.new ≡ self.old ++ text.now) }
        ensures keeps { IsFront self.old self.new }
        ensures within { IsFront self.new (self.old ++ text.now) }
        ensures err { OnErr result (self.new ≡ self.old) }
    {
        self.bytes.extend_from_slice(text)?;
        Ok(())
    }

    /// One byte more.
    #[tactic(auto, using(crate::proofs::Keeping::keeping))]
    fn put_byte(&mut self, byte: u8) -> Result<(), NoMemory>
        ensures ok { OnOk result (self.new ≡ self.old ++ byte ∷ []) }
        ensures keeps { IsFront self.old self.new }
        ensures within { IsFront self.new (self.old ++ byte ∷ []) }
        ensures err { OnErr result (self.new ≡ self.old) }
    {
        self.bytes.push(byte)?;
        Ok(())
    }

    /// A word, after one space unless it begins a line.
    #[inline(always)]
    pub fn word(&mut self, text: &[u8]) -> Result<(), NoMemory>
        ensures ok { OnOk result (self.new ≡ with_word self.old text.now) }
        ensures keeps { IsFront self.old self.new }
        ensures within { IsFront self.new (with_word self.old text.now) }
    {
        self.bytes.reserve(text.len() + 1)?;
        if self.begins_line() {
            return self.put(text);
        }
        self.bytes.push_reserved(b' ');
        self.put(text)
    }

    /// A number in the shortest decimal form, as a word.
    #[tactic(auto, using(std::proofs::lemmas::Fmt::decimal_digit))]
    pub fn number(&mut self, n: u64) -> Result<(), NoMemory>
        ensures ok { OnOk result (self.new ≡ with_word self.old (decimal n)) }
        ensures keeps { IsFront self.old self.new }
        ensures within { IsFront self.new (with_word self.old (decimal n)) }
    {
        if n < 10 {
            return self.word(&[b'0' + n as u8]);
        }
        let mut buffer = Buffer::new();
        self.word(buffer.format(n).as_bytes())
    }

    /// A short text, as a word.
    fn short(&mut self, text: Short) -> Result<(), NoMemory>
        ensures ok { OnOk result (self.new ≡ with_word self.old text.bytes) }
        ensures keeps { IsFront self.old self.new }
        ensures within { IsFront self.new (with_word self.old text.bytes) }
    {
        let mut buffer = [0; LONGEST_SHORT];
        self.word(short_bytes(text, &mut buffer))
    }

    /// The end of a line.
    pub fn end_line(&mut self) -> Result<(), NoMemory>
        ensures ok { OnOk result (self.new ≡ self.old ++ 10 ∷ []) }
        ensures keeps { IsFront self.old self.new }
        ensures within { IsFront self.new (self.old ++ 10 ∷ []) }
        ensures err { OnErr result (self.new ≡ self.old) }
    {
        self.put_byte(b'\n')
    }

    #[inline(always)]
    fn piece(&mut self, piece: &Piece<'_>) -> Result<(), NoMemory>
        ensures ok { OnOk result (self.new ≡ with_word self.old (piece_word piece.now)) }
        ensures keeps { IsFront self.old self.new }
        ensures within { IsFront self.new (with_word self.old (piece_word piece.now)) }
    {
        match piece {
            Piece::Text(text) => self.word(text),
            Piece::Short(text) => self.short(*text),
            Piece::Number(n) => self.number(*n),
        }
    }

    /// Words, in order.
    #[inline]
    pub fn words(&mut self, pieces: &[Piece<'_>]) -> Result<(), NoMemory>
        ensures ok { OnOk result (self.new ≡ with_words self.old (map piece_word pieces.now)) }
        ensures keeps { IsFront self.old self.new }
        ensures within { IsFront self.new (with_words self.old (map piece_word pieces.now)) }
    {
        for piece in pieces {
            self.piece(piece)?;
        }
        Ok(())
    }

    /// A whole line of these words, each of which is one word.
    pub fn line(&mut self, pieces: &[Piece<'_>]) -> Result<(), NoMemory>
        requires begins { begins_line self.old ≡ true }
        requires some { 1 ≤ length pieces.now }
        requires words { AreWords (map piece_word pieces.now) }
        ensures ok { OnOk result (self.new ≡ self.old ++ line_text (map piece_word pieces.now)) }
        ensures keeps { IsFront self.old self.new }
        ensures within { IsFront self.new (self.old ++ line_text (map piece_word pieces.now)) }
    {
        self.words(pieces)?;
        self.end_line()
    }
}
