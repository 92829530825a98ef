//! What is said of a workload that was run.

ghost use Rattle.std.specs.Prelude.{◌≡◌, ◌++◌, ◌<◌, true, OnOk};
ghost use Rattle.onll_words.specs.Texts.{IsWord, line_text};
ghost use Rattle.onll_text.specs.Bytes.{begins_line, with_lines};
ghost use Rattle.onll_workload.specs.Made.{made_line, counted_line, summary_lines, SummaryReads};

use onll_text::{Piece, Report};
use onll_words::NoMemory;

/// What a run of a workload made: its threads, its updates and its reads, the fences after those of the headers, the nodes that
/// its logs recover to, and the total of the bank after them.
#[derive(Clone, Copy, Debug, PartialEq, Eq)]
pub struct Summary {
    pub threads: u64,
    pub updates: u64,
    pub reads: u64,
    pub fences: u64,
    pub recovered: u64,
    pub total: u64,
}

/// Appends the line of the scripts that were made.
fn put_made(threads: u64, updates: u64, reads: u64, out: &mut Report) -> Result<(), NoMemory>
    requires begins { begins_line out.old ≡ true }
    ensures line { OnOk result (out.new ≡ out.old ++ line_text (made_line threads updates reads)) }
{
    out.line(&[
        Piece::Text(b"made"),
        Piece::Text(b"threads"),
        Piece::Number(threads),
        Piece::Text(b"updates"),
        Piece::Number(updates),
        Piece::Text(b"reads"),
        Piece::Number(reads),
    ])
}

/// Appends the line of a number with a name.
fn put_counted(name: &[u8], number: u64, out: &mut Report) -> Result<(), NoMemory>
    requires begins { begins_line out.old ≡ true }
    requires word { IsWord name.now }
    ensures line { OnOk result (out.new ≡ out.old ++ line_text (counted_line name.now number)) }
{
    out.line(&[Piece::Text(name), Piece::Number(number)])
}

impl Summary {
    /// Appends its four lines.
    pub(crate) fn put(self, out: &mut Report) -> Result<(), NoMemory>
        requires begins { begins_line out.old ≡ true }
        ensures lines { OnOk result (out.new ≡ with_lines out.old (summary_lines self)) }
        ensures reads { SummaryReads self }
    {
        put_made(self.threads, self.updates, self.reads, out)?;
        put_counted(b"fences", self.fences, out)?;
        put_counted(b"recovered", self.recovered, out)?;
        put_counted(b"total", self.total, out)
    }
}
