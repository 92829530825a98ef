//! Tests of numbers, lines, words and short texts.

ghost use Rattle.std.specs.Prelude.{◌≤◌};

use onll_words::{
    Line, Lines, Short, line_bytes, line_of_bytes, number_at, split_word, whole_number,
};
use std::test::Fail;
use tests_found::Found;

const GREATEST: &[u8] = b"18446744073709551615";

#[test]
fn numbers_at_a_place() -> Result<(), Fail> {
    let mut found = Found::new();
    found.must(
        number_at(GREATEST, 0) == Some((u64::MAX, 20)),
        "the greatest number",
    );
    found.must(
        number_at(b"18446744073709551616", 0).is_none(),
        "one more than the greatest number",
    );
    found.must(
        number_at(b"00000000000000000001", 0) == Some((1, 20)),
        "20 digits",
    );
    found.must(
        number_at(b"000000000000000000001", 0).is_none(),
        "21 digits",
    );
    found.must(number_at(b"ab120 7", 2) == Some((120, 5)), "after letters");
    found.must(number_at(b"ab120 7", 3) == Some((20, 5)), "after a digit");
    found.must(number_at(b"ab120 7", 5).is_none(), "a blank");
    found.must(number_at(b"7", 1).is_none(), "the end");
    found.ended()
}

#[test]
fn whole_numbers() -> Result<(), Fail> {
    let mut found = Found::new();
    found.must(
        whole_number(GREATEST) == Some(u64::MAX),
        "the greatest number",
    );
    found.must(
        whole_number(b"18446744073709551616").is_none(),
        "one more than the greatest number",
    );
    found.must(whole_number(b"007") == Some(7), "zeros before a digit");
    found.must(
        whole_number(b"000000000000000000001").is_none(),
        "21 digits",
    );
    found.must(whole_number(b"").is_none(), "no digit");
    found.must(whole_number(b"12a").is_none(), "a letter");
    found.must(whole_number(b"+1").is_none(), "a sign");
    found.ended()
}

/// What stands after the first word of a line, where it is this one.
fn after_word<'a>(line: &'a [u8], word: &[u8]) -> Option<&'a [u8]> {
    let cut = split_word(line)?;
    if cut.word == word {
        Some(cut.rest)
    } else {
        None
    }
}

#[test]
fn words_of_a_line() -> Result<(), Fail> {
    let rest = after_word(b"\t deposit 3\x0b\r25 \r", b"deposit").ok_or("another first word")?;
    let rest = after_word(rest, b"3\x0b").ok_or("a vertical tab is no blank")?;
    let rest = after_word(rest, b"25").ok_or("another third word")?;
    let mut found = Found::new();
    found.must(split_word(rest).is_none(), "a fourth word");
    found.must(split_word(b"").is_none(), "a word of nothing");
    found.ended()
}

/// Whether the next line has this number and text.
fn is_next(lines: &mut Lines<'_>, number: u64, text: &[u8]) -> bool {
    match lines.next_line() {
        Some(line) => line.number == number && line.line == text,
        None => false,
    }
}

#[test]
fn lines_of_a_text() -> Result<(), Fail> {
    let mut lines = Lines::of(
        b"# bank\n\r\n\tpush 3 # no comment\r\n \t# comment\npop\n\n#\nfront",
    );
    let mut found = Found::new();
    found.must(
        is_next(&mut lines, 3, b"\tpush 3 # no comment\r"),
        "another first line",
    );
    found.must(is_next(&mut lines, 5, b"pop"), "another second line");
    found.must(is_next(&mut lines, 8, b"front"), "another last line");
    found.must(lines.next_line().is_none(), "no end");
    found.must(lines.next_line().is_none(), "a line after the end");
    found.ended()
}

/// Whether no line of a text says anything.
fn has_no_line(text: &[u8]) -> bool {
    Lines::of(text).next_line().is_none()
}

#[test]
fn texts_without_lines() -> Result<(), Fail> {
    let mut found = Found::new();
    found.must(has_no_line(b""), "a line of nothing");
    found.must(has_no_line(b"\n\n"), "an empty line");
    found.ended()
}

/// Whether a text of this length is packed in these words.
fn is_packed(text: &[u8], words: [u64; 3], length: u64) -> bool {
    match Short::read(text) {
        Some(short) => short.words() == words && short.length() == length,
        None => false,
    }
}

/// The packing of 23 bytes.
const LONGEST: [u64; 3] = [
    0x2132_3334_3536_3738,
    0x3930_3132_3334_3536,
    0x3738_3930_3132_3317,
];

#[test]
fn packed_texts() -> Result<(), Fail> {
    let mut found = Found::new();
    found.must(
        is_packed(b"abc", [0x6162_6300_0000_0000, 0, 3], 3),
        "three bytes",
    );
    found.must(
        is_packed(b"!2345678901234567890123", LONGEST, 23),
        "23 bytes",
    );
    found.must(Short::read(b"").is_none(), "no byte");
    found.must(
        Short::read(b"123456789012345678901234").is_none(),
        "24 bytes",
    );
    found.must(Short::read(b"a b").is_none(), "0x20");
    found.must(Short::read(b"!~").is_some(), "0x21 and 0x7E");
    found.must(Short::read(b"a\x7f").is_none(), "0x7F");
    found.ended()
}

/// Whether words are the packing of no text.
fn is_no_text(words: [u64; 3]) -> bool {
    Short::of_words(words).is_none()
}

#[test]
fn words_of_no_text() -> Result<(), Fail> {
    let a = 0x61 << 56;
    let mut found = Found::new();
    found.must(!is_no_text([a, 0, 1]), "a text of one byte");
    found.must(is_no_text([a, 0, 0]), "the length 0");
    found.must(is_no_text([u64::MAX, u64::MAX, 24]), "the length 24");
    found.must(is_no_text([a, 0, 255]), "the length 255");
    found.must(is_no_text([a, 1, 1]), "a byte after the text");
    found.must(is_no_text([a, 0, 0x101]), "a byte before the length");
    found.must(is_no_text([0x20 << 56, 0, 1]), "a blank");
    found.must(is_no_text([a, 0, 2]), "a zero in the text");
    found.ended()
}

/// Whether each of these texts is before the ones that follow.
fn rise(first: Short, second: Short, third: Short) -> bool {
    first < second && second < third && first < third
}

/// Whether a text is the same as itself, and not as the other.
fn differ(text: Short, other: Short) -> bool {
    text == text && text != other
}

/// Whether the words of a text are those of no other.
fn is_unpacked(text: Short) -> bool {
    Short::of_words(text.words()) == Some(text)
}

#[test]
fn order_of_texts() -> Result<(), Fail> {
    let a = Short::read(b"a").ok_or("no a")?;
    let ab = Short::read(b"ab").ok_or("no ab")?;
    let b = Short::read(b"b").ok_or("no b")?;
    let mut found = Found::new();
    found.must(rise(a, ab, b), "another order");
    found.must(differ(a, ab), "other texts are equal");
    found.must(is_unpacked(ab), "another text");
    found.ended()
}

/// Whether these eight bytes of a line begin at this place.
fn has_bytes(bytes: &[u8; 64], from: usize, wanted: &[u8]) -> bool
    requires { from ≤ 56 }
{
    &bytes[from..from + 8] == wanted
}

const FIRST_BYTES: &[u8] = &[1, 0x10, 0, 0, 0, 0, 0, 0];

const LAST_BYTES: &[u8] = &[0xFE, 0xFF, 0xFF, 0xFF, 0xFF, 0xFF, 0xFF, 0xFF];

#[test]
fn bytes_of_a_line() -> Result<(), Fail> {
    let line = Line {
        w: [4097, 0, 0, 0, 0, 0, 0, u64::MAX - 1],
    };
    let bytes = line_bytes(line);
    let mut found = Found::new();
    found.must(has_bytes(&bytes, 0, FIRST_BYTES), "other first bytes");
    found.must(has_bytes(&bytes, 56, LAST_BYTES), "other last bytes");
    found.must(line_of_bytes(bytes) == line, "another line");
    found.ended()
}
