//! The first line of a checkpoint.

ghost use Rattle.std.specs.Prelude.{◌≡◌, length};
ghost use Rattle.onll_checkpoint.specs.Grammar.{first_words, guard_of, first_line, is_first_line};

use crate::state::{Checkpoint, LONGEST_SAVED};
use onll_words::Line;

/// The first word of a checkpoint: the bytes `ONLLCKP1`.
const MAGIC: u64 = 0x3150_4b43_4c4c_4e4f;

/// The last word: a bit for each word before it that isn't zero, and the highest bit.
fn guard(number: u64, place: u64, length: u64) -> u64
    ensures { result ≡ guard_of (first_words number place length) }
{
    (1 << 63)
        + 1
        + 2 * u64::from(number != 0)
        + 4 * u64::from(place != 0)
        + 8 * u64::from(length != 0)
}

/// The first line of a checkpoint.
pub fn first_line(checkpoint: &Checkpoint) -> Line
    ensures { result.w ≡ first_line checkpoint.now }
{
    let number = checkpoint.number();
    let place = checkpoint.place();
    let bytes = checkpoint.text().len() as u64;
    Line {
        w: [
            MAGIC,
            number,
            place,
            bytes,
            0,
            0,
            0,
            guard(number, place, bytes),
        ],
    }
}

/// Whether a checkpoint begins with this line.
pub fn is_first(line: &Line) -> bool
    ensures { result ≡ is_first_line line.now.w }
{
    let [magic, number, place, bytes, a, b, c, last] = line.w;
    magic == MAGIC
        && number >= 1
        && bytes <= LONGEST_SAVED as u64
        && a == 0
        && b == 0
        && c == 0
        && last == guard(number, place, bytes)
}
