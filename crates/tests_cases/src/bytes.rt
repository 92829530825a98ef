//! Bytes, numbers and lines of logs as a case writes them.

use onll_words::whole_number;
use std::alloc::Global;
use std::io;

/// A line of a case that is of no form.
pub(crate) fn no_form() -> io::Error {
    io::Error::from(io::ErrorKind::InvalidData)
}

/// What the next byte of a text is.
#[derive(Clone, Copy)]
enum Next {
    Itself,
    Escaped,
    HighDigit,
    LowDigit { high: u8 },
}

/// The value of a digit to the base 16.
fn digit(byte: u8) -> io::Result<u8> {
    match byte {
        b'0'..=b'9' => Ok(byte - b'0'),
        b'a'..=b'f' => Ok(byte - b'a' + 10),
        _ => Err(no_form()),
    }
}

/// The byte behind a backslash, but for those that digits follow.
fn escaped(byte: u8) -> io::Result<u8> {
    match byte {
        b'n' => Ok(b'\n'),
        b'r' => Ok(b'\r'),
        b'\\' => Ok(b'\\'),
        _ => Err(no_form()),
    }
}

/// Takes one byte of a text.
fn take(bytes: &mut Vec<u8>, next: Next, byte: u8) -> io::Result<Next> {
    match (next, byte) {
        (Next::Itself, b'\\') => return Ok(Next::Escaped),
        (Next::Escaped, b'x') => return Ok(Next::HighDigit),
        (Next::HighDigit, _) => return Ok(Next::LowDigit { high: digit(byte)? }),
        (Next::Itself, _) => bytes.push(byte)?,
        (Next::Escaped, _) => bytes.push(escaped(byte)?)?,
        (Next::LowDigit { high }, _) => bytes.push(high.wrapping_mul(16) | digit(byte)?)?,
    }
    Ok(Next::Itself)
}

/// The bytes that a text stands for: `\n`, `\r`, `\\` and `\x` with two digits are one each.
pub(crate) fn unescaped(alloc: Global, text: &[u8]) -> io::Result<Vec<u8>> {
    let mut bytes = Vec::new(alloc);
    let mut next = Next::Itself;
    for byte in text {
        next = take(&mut bytes, next, *byte)?;
    }
    match next {
        Next::Itself => Ok(bytes),
        _ => Err(no_form()),
    }
}

/// The text that an escaped word stands for; `''` is none.
pub(crate) fn word(alloc: Global, text: &str) -> io::Result<String> {
    if text == "''" {
        return Ok(String::new(alloc));
    }
    String::from_utf8(unescaped(alloc, text.as_bytes())?).map_err(|_| no_form())
}

/// A number in decimal digits.
pub(crate) fn number(text: &str) -> io::Result<u64> {
    whole_number(text.as_bytes()).ok_or(no_form())
}

/// What a number is at a turn, from 0, where `A` grows by 1 at each, `A+B` by B, and `A-B` becomes less by B.
pub(crate) fn grown(text: &str, turn: u64) -> io::Result<u64> {
    if let Some((start, step)) = text.split_once('+') {
        return Ok(number(start)?.wrapping_add(turn.wrapping_mul(number(step)?)));
    }
    if let Some((start, step)) = text.split_once('-') {
        return Ok(number(start)?.wrapping_sub(turn.wrapping_mul(number(step)?)));
    }
    Ok(number(text)?.wrapping_add(turn))
}

/// All of these are numbers in decimal digits.
pub(crate) fn numbers(alloc: Global, texts: &[&str]) -> io::Result<Vec<u64>> {
    let mut numbers = Vec::new(alloc);
    for text in texts {
        numbers.push(number(text)?)?;
    }
    Ok(numbers)
}

/// The first word of a log's header line, that of an entry's, that of an area's, and the highest bit, which each mask has.
const HEAD: u64 = 0x3147_4f4c_4c4c_4e4f;

const ENTRY: u64 = 0x3154_4e45_4c4c_4e4f;

const AREA: u64 = 0x3150_4b43_4c4c_4e4f;

const MASK: u64 = 0x8000_0000_0000_0000;

/// A word of a log or an area: `L`, `E` and `C` are the first words of a log's header line, of an entry's and of an area's, `M` stands
/// before a mask without its highest bit, `0x` before a number to the base 16.
pub(crate) fn log_word(text: &str) -> io::Result<u64> {
    match text.as_bytes() {
        [b'L'] => Ok(HEAD),
        [b'E'] => Ok(ENTRY),
        [b'C'] => Ok(AREA),
        [b'M', mask @ ..] => Ok(MASK | whole_number(mask).ok_or(no_form())?),
        [b'0', b'x', digits @ ..] => from_digits(digits),
        word => whole_number(word).ok_or(no_form()),
    }
}

/// The number of these digits to the base 16.
fn from_digits(digits: &[u8]) -> io::Result<u64> {
    let mut value: u64 = 0;
    for byte in digits {
        value = value.wrapping_mul(16) | u64::from(digit(*byte)?);
    }
    Ok(value)
}
