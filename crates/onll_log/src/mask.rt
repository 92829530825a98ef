//! The masks that guard an entry: which words of its node lines are not zero.

ghost use Rattle.std.specs.Prelude.{◌≡◌, ℕ, ◌+◌, ◌*◌, ◌<◌, ◌≤◌, ◌^◌, length, take, drop};
ghost use Rattle.onll_model.specs.Limits.{most_threads};
ghost use Rattle.onll_pmem.specs.Pmem.{words_of};
ghost use Rattle.onll_log.specs.Masks.{marks_in, mask_of, masks, bits_on};

use onll_words::Line;

/// How many lines a mask word is for.
const LINES: usize = 7;

/// The bits of a line's words, below those of a number.
fn marks_below(line: &Line, above: u64) -> u64
    requires { above < 2 ^ 48 }
    ensures bits { result ≡ bits_on (marks_in line.now.w) above }
    ensures low { (k : ℕ) → above < 2 ^ k → result < 2 ^ (8 + k) }
{
    let mut mask = above;
    for word in 0..8 {
        mask = mask * 2 + u64::from(line.w[7 - word] != 0);
    }
    mask
}

/// The mask word of up to seven lines.
fn mask_word(lines: &[Line]) -> u64
    requires { length lines.now ≤ 7 }
    ensures { result ≡ mask_of (words_of lines.now) }
{
    let mut mask = 0;
    let mut line = lines.len();
    while line > 0 {
        line -= 1;
        mask = marks_below(&lines[line], mask);
    }
    mask + (1 << 63)
}

/// The lines of a mask word, of which there are up to seven.
fn front(lines: &[Line]) -> &[Line]
    ensures { result.now ≡ take 7 lines.now }
{
    &lines[..lines.len().min(LINES)]
}

/// The lines of the next mask words.
fn rest(lines: &[Line]) -> &[Line]
    ensures { result.now ≡ drop 7 lines.now }
{
    &lines[lines.len().min(LINES)..]
}

/// The masks of up to sixteen lines: which of their words are not zero.
pub fn masks(lines: &[Line]) -> [u64; 3]
    requires { length lines.now ≤ most_threads }
    ensures { result ≡ masks (words_of lines.now) }
{
    let second = rest(lines);
    [
        mask_word(front(lines)),
        mask_word(front(second)),
        mask_word(rest(second)),
    ]
}
