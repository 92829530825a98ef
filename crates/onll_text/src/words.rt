//! The arguments of a line, read one word after the other.

ghost use Rattle.std.specs.Prelude.{◌≡◌, ◌∷◌, [], MatchResult, Ok, Err, decimal};
ghost use Rattle.std.specs.Str.{bytes_eq};
ghost use Rattle.onll_words.specs.Texts.{words_of};
ghost use Rattle.onll_text.specs.Words.{word_as_number, word_as_short, no_word, one_number, two_numbers, three_numbers, four_numbers, one_short, two_shorts};

use crate::reason::Reason;
use onll_words::{Cut, Short, split_word, whole_number};

/// Whether a word is this text. Its bytes are compared up to the first other one, since words are short.
#[tactic(auto, using(crate::proofs::SameBytes::comparing))]
pub(crate) fn is_text(word: &[u8], text: &[u8]) -> bool
    ensures { result ≡ bytes_eq word.now text.now }
{
    if word.len() != text.len() {
        return false;
    }
    for i in 0..text.len() {
        if word[i] != text[i] {
            return false;
        }
    }
    true
}

pub(crate) fn number(word: &[u8]) -> Result<u64, Reason>
    ensures { result ≡ word_as_number word.now }
{
    whole_number(word).ok_or(Reason::BadNumber)
}

/// A law: a number reads as that number where it is printed. It does nothing when called.
#[tactic(auto, using(crate::specs::WordsAgain::decimal_reads))]
pub(crate) fn number_reads_back(n: u64)
    ensures { word_as_number (decimal n) ≡ Ok n }
{
    let _ = n;
}

/// A law: a short text reads as that text where it is printed. It does nothing when called.
#[tactic(auto, using(crate::specs::WordsAgain::short_reads))]
pub(crate) fn short_reads_back(word: Short)
    ensures { word_as_short word.bytes ≡ Ok word }
{
    let _ = word;
}

/// The next word of a line, where one is wanted.
fn next_word(rest: &[u8]) -> Result<Cut<'_>, Reason>
    ensures { MatchResult result (λ cut. words_of rest.now ≡ cut.word.now ∷ words_of cut.rest.now)
        (λ e. (e ≡ Reason.WrongCount) × (words_of rest.now ≡ [])) }
{
    split_word(rest).ok_or(Reason::WrongCount)
}

/// The end of a line, where no word more is wanted.
pub(crate) fn no_word(args: &[u8]) -> Result<(), Reason>
    ensures { result ≡ no_word (words_of args.now) }
{
    match split_word(args) {
        Some(_) => Err(Reason::WrongCount),
        None => Ok(()),
    }
}

/// The one word of a line's arguments.
fn one_word(args: &[u8]) -> Result<&[u8], Reason>
    ensures { MatchResult result (λ a. words_of args.now ≡ a.now ∷ []) (λ e. one_number (words_of args.now) ≡ Err e) }
{
    let Cut { word, rest } = next_word(args)?;
    no_word(rest)?;
    Ok(word)
}

/// The one number of a line's arguments.
pub(crate) fn one_number(args: &[u8]) -> Result<u64, Reason>
    ensures { result ≡ one_number (words_of args.now) }
{
    number(one_word(args)?)
}

/// The two numbers of a line's arguments.
pub(crate) fn two_numbers(args: &[u8]) -> Result<(u64, u64), Reason>
    ensures { result ≡ two_numbers (words_of args.now) }
{
    let a = next_word(args)?;
    let b = next_word(a.rest)?;
    no_word(b.rest)?;
    let x = number(a.word)?;
    let y = number(b.word)?;
    Ok((x, y))
}

/// Three words.
struct Three<'a> {
    a: &'a [u8],
    b: &'a [u8],
    c: &'a [u8],
}

/// The three words of a line's arguments.
fn three_words(args: &[u8]) -> Result<Three<'_>, Reason>
    ensures { MatchResult result (λ w. words_of args.now ≡ w.a.now ∷ w.b.now ∷ w.c.now ∷ [])
        (λ e. three_numbers (words_of args.now) ≡ Err e) }
{
    let a = next_word(args)?;
    let b = next_word(a.rest)?;
    let c = next_word(b.rest)?;
    match split_word(c.rest) {
        Some(_) => Err(Reason::WrongCount),
        None => Ok(Three {
            a: a.word,
            b: b.word,
            c: c.word,
        }),
    }
}

/// The three numbers of a line's arguments.
pub(crate) fn three_numbers(args: &[u8]) -> Result<(u64, u64, u64), Reason>
    ensures { result ≡ three_numbers (words_of args.now) }
{
    let Three { a, b, c } = three_words(args)?;
    let x = number(a)?;
    let y = number(b)?;
    let z = number(c)?;
    Ok((x, y, z))
}

/// Four words.
struct Four<'a> {
    a: &'a [u8],
    b: &'a [u8],
    c: &'a [u8],
    d: &'a [u8],
}

/// The four words of a line's arguments.
fn four_words(args: &[u8]) -> Result<Four<'_>, Reason>
    ensures { MatchResult result (λ w. words_of args.now ≡ w.a.now ∷ w.b.now ∷ w.c.now ∷ w.d.now ∷ [])
        (λ e. four_numbers (words_of args.now) ≡ Err e) }
{
    let a = next_word(args)?;
    let b = next_word(a.rest)?;
    let c = next_word(b.rest)?;
    let d = next_word(c.rest)?;
    match split_word(d.rest) {
        Some(_) => Err(Reason::WrongCount),
        None => Ok(Four {
            a: a.word,
            b: b.word,
            c: c.word,
            d: d.word,
        }),
    }
}

/// The four numbers of a line's arguments.
pub(crate) fn four_numbers(args: &[u8]) -> Result<(u64, u64, u64, u64), Reason>
    ensures { result ≡ four_numbers (words_of args.now) }
{
    let Four { a, b, c, d } = four_words(args)?;
    let x = number(a)?;
    let y = number(b)?;
    let z = number(c)?;
    let u = number(d)?;
    Ok((x, y, z, u))
}

fn short(word: &[u8]) -> Result<Short, Reason>
    ensures { result ≡ word_as_short word.now }
{
    Short::read(word).ok_or(Reason::BadWord)
}

/// The one short text of a line's arguments.
pub(crate) fn one_short(args: &[u8]) -> Result<Short, Reason>
    ensures { result ≡ one_short (words_of args.now) }
{
    let a = next_word(args)?;
    no_word(a.rest)?;
    short(a.word)
}

/// The two short texts of a line's arguments.
pub(crate) fn two_shorts(args: &[u8]) -> Result<(Short, Short), Reason>
    ensures { result ≡ two_shorts (words_of args.now) }
{
    let a = next_word(args)?;
    let b = next_word(a.rest)?;
    no_word(b.rest)?;
    let k = short(a.word)?;
    let v = short(b.word)?;
    Ok((k, v))
}
