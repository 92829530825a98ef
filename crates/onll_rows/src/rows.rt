//! The operation of a row, by a guess.

ghost use Rattle.std.specs.Prelude.{◌≡◌};
ghost use Rattle.onll_rows.specs.Sketch.{checked};

use onll_words::OpRow;

/// The operation whose own row this is, where a row is that one, and otherwise none.
pub fn checked<Op: Drop>(op: Op, own: OpRow, row: OpRow) -> Option<Op>
    ensures { result ≡ checked op own row }
{
    if own == row { Some(op) } else { None }
}
