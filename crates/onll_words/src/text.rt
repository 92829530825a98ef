//! Lines of a text, and words of a line.

ghost use Rattle.std.specs.Prelude.{◌≡◌, ◌+◌, ◌<◌, ◌≤◌, ◌^◌, ◌∷◌, [], List, length, drop, not, IfSome, IfNone, MatchOption, true, false, position, slice_index, filter};
ghost use Rattle.onll_words.specs.Texts.{is_blank, is_line_end, words_of, lines_of, meaningful_lines, says_something};

use std::marker::Model;

/// A word of a line, and what stands after the blank that ends it.
#[derive(Clone, Copy, Debug)]
pub struct Cut<'a> {
    pub word: &'a [u8],
    pub rest: &'a [u8],
}

fn is_blank(byte: u8) -> bool
    ensures { result ≡ is_blank byte }
{
    matches!(byte, b' ' | b'\t' | b'\r')
}

/// Where the first word begins.
fn first_mark(line: &[u8]) -> Option<usize>
    ensures { result ≡ position (λ b. not (is_blank b)) line.now }
{
    line.iter().position(|byte| !is_blank(*byte))
}

/// Where the first blank stands.
fn first_blank(line: &[u8]) -> Option<usize>
    ensures { result ≡ position is_blank line.now }
{
    line.iter().position(|byte| is_blank(*byte))
}

/// Where the first line ends.
fn first_end(text: &[u8]) -> Option<usize>
    ensures { result ≡ position is_line_end text.now }
{
    text.iter().position(|byte| *byte == b'\n')
}

/// The text from a place on.
fn tail(text: &[u8], from: usize) -> &[u8]
    requires { from ≤ length text.now }
    ensures { result.now ≡ drop from text.now }
{
    &text[from..]
}

/// The first word of a line that begins with it.
#[tactic(auto, using(crate::proofs::Cuts::cutting))]
fn cut_word(line: &[u8]) -> Cut<'_>
    requires some { 0 < length line.now }
    requires first { is_blank (slice_index line.now 0) ≡ false }
    ensures word { words_of line.now ≡ result.word.now ∷ words_of result.rest.now }
    ensures shorter { length result.rest.now < length line.now }
{
    match first_blank(line) {
        Some(end) => Cut {
            word: &line[..end],
            rest: tail(line, end + 1),
        },
        None => Cut {
            word: line,
            rest: &[],
        },
    }
}

/// The first word of a line, and what follows it; nothing where the line has no word.
#[tactic(auto, using(crate::proofs::Cuts::cutting))]
pub fn split_word(line: &[u8]) -> Option<Cut<'_>>
    ensures word { MatchOption result (words_of line.now ≡ []) (λ cut. words_of line.now ≡ cut.word.now ∷ words_of cut.rest.now) }
    ensures shorter { IfSome result (λ cut. length cut.rest.now < length line.now) }
{
    let start = first_mark(line)?;
    Some(cut_word(tail(line, start)))
}

/// Whether the line has a word, and the first doesn't begin with `#`.
#[tactic(auto, using(crate::proofs::Cuts::marking))]
fn is_meaningful(line: &[u8]) -> bool
    ensures { result ≡ says_something (words_of line.now) }
{
    match first_mark(line) {
        Some(start) => line[start] != b'#',
        None => false,
    }
}

/// The first line of a text, without its end, and the text after it.
struct FirstLine<'a> {
    line: &'a [u8],
    rest: &'a [u8],
}

/// The first line of a text that has one.
#[tactic(auto, using(crate::proofs::Cuts::cutting))]
fn cut_line(text: &[u8]) -> FirstLine<'_>
    requires { 0 < length text.now }
    ensures line { lines_of text.now ≡ result.line.now ∷ lines_of result.rest.now }
    ensures shorter { length result.rest.now < length text.now }
{
    match first_end(text) {
        Some(end) => FirstLine {
            line: &text[..end],
            rest: tail(text, end + 1),
        },
        None => FirstLine {
            line: text,
            rest: &[],
        },
    }
}

/// A line of a text and its number, from 1.
#[derive(Clone, Copy, Debug)]
pub struct NumberedLine<'a> {
    pub number: u64,
    pub line: &'a [u8],
}

/// The meaningful lines of a text that are left.
#[derive(Drop)]
pub struct Lines<'a> {
    rest: &'a [u8],
    gone: u64,
}

impl<'a> Model for Lines<'a> {
    ghost use Rattle.std.specs.Prelude.{List, ◌+◌, ◌<◌, ◌^◌, length, filter};
    ghost use Rattle.onll_words.specs.Texts.{Numbered, numbered, lines_of, is_meaningful};

    ghost Value = { List Numbered };

    ghost view = { λ s. filter is_meaningful (numbered (s.gone + 1) (lines_of s.rest.now)) };

    ghost invariant = { λ s. s.gone + length s.rest.now < 2 ^ 64 };
}

impl<'a> Lines<'a> {
    /// All meaningful lines of a text.
    pub fn of(text: &'a [u8]) -> Lines<'a>
        ensures { result ≡ meaningful_lines text.now }
    {
        Lines {
            rest: text,
            gone: 0,
        }
    }

    /// The next meaningful line, with its number in the text.
    pub fn next_line(&mut self) -> Option<NumberedLine<'a>>
        ensures line { MatchOption result (self.old ≡ []) (λ l. self.old ≡ record { number = l.number; line = l.line.now } ∷ self.new) }
        ensures end { IfNone result (self.new ≡ []) }
        ensures words { IfSome result (λ l. says_something (words_of l.line.now) ≡ true) }
    {
        while !self.rest.is_empty() {
            let FirstLine { line, rest } = cut_line(self.rest);
            self.rest = rest;
            self.gone += 1;
            if is_meaningful(line) {
                return Some(NumberedLine {
                    number: self.gone,
                    line,
                });
            }
        }
        None
    }
}
