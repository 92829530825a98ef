//! Decimal numbers in texts.

ghost use Rattle.std.specs.Prelude.{◌≡◌, ◌+◌, ◌*◌, ◌≤◌, ◌^◌, length, IfSome, MatchOption};
ghost use Rattle.onll_words.specs.Numbers.{run_len, value_after, number_of, number_from};

/// The greatest number of digits of a number.
const MOST_DIGITS: usize = 20;

/// How many digits stand at the front.
fn digit_count(text: &[u8]) -> usize
    ensures count { result ≡ run_len text.now }
    ensures within { result ≤ length text.now }
{
    for (i, byte) in text.iter().enumerate() {
        if !byte.is_ascii_digit() {
            return i;
        }
    }
    text.len()
}

/// The value with one digit more, where it fits.
fn with_digit(value: u64, digit: u64) -> Option<u64>
    ensures { MatchOption result (2 ^ 64 ≤ value * 10 + digit) (λ v. v ≡ value * 10 + digit) }
{
    value.checked_mul(10)?.checked_add(digit)
}

/// The value of digits, where it fits.
#[tactic(auto, using(crate::proofs::Values::value_grows, crate::proofs::Values::run_digit))]
fn value_of(digits: &[u8]) -> Option<u64>
    requires { run_len digits.now ≡ length digits.now }
    ensures { MatchOption result (2 ^ 64 ≤ value_after 0 digits.now) (λ v. v ≡ value_after 0 digits.now) }
{
    let mut value = 0u64;
    for digit in digits {
        match with_digit(value, u64::from(*digit - b'0')) {
            Some(more) => value = more,
            None => return None,
        }
    }
    Some(value)
}

/// The number at the front, and its length.
#[tactic(auto, using(crate::proofs::Values::run_of_front))]
fn number_front(rest: &[u8]) -> Option<(u64, usize)>
    ensures number { result ≡ number_from rest.now 0 }
    ensures within { IfSome result (λ found. found.1 ≤ length rest.now) }
{
    let count = digit_count(rest);
    if count == 0 || count > MOST_DIGITS {
        return None;
    }
    let value = value_of(&rest[..count])?;
    Some((value, count))
}

/// The number in the longest run of decimal digits at a place of a text, and the place after it.
/// It's refused where there is no digit, where there are more than 20, and above `u64::MAX`.
pub fn number_at(text: &[u8], from: usize) -> Option<(u64, usize)>
    requires { from ≤ length text.now }
    ensures { result ≡ number_from text.now from }
{
    let (value, count) = number_front(&text[from..])?;
    Some((value, from + count))
}

/// A whole word as a number, under the same rules.
pub fn whole_number(word: &[u8]) -> Option<u64>
    ensures { result ≡ number_of word.now }
{
    if word.is_empty() || word.len() > MOST_DIGITS || digit_count(word) < word.len() {
        return None;
    }
    value_of(word)
}
