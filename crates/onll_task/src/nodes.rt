//! The lines of what logs give: how many nodes are gone on from, what each log holds, how many nodes there are, and each node.

ghost use Rattle.std.specs.Prelude.{◌≡◌, ◌++◌, ◌<◌, ◌^◌, map, true, IsSome, IfSome, OnOk, All};
ghost use Rattle.std.specs.List.{AllByRecursion};
ghost use Rattle.onll_words.specs.Texts.{line_text};
ghost use Rattle.onll_text.specs.Bytes.{begins_line, with_lines};
ghost use Rattle.onll_text.specs.Lines.{node_lines, recovered_line};
ghost use Rattle.onll_text.specs.Reports.{NodeReads};
ghost use Rattle.onll_task.specs.RecoverySaid.{HeldReads, held_of, content_line, log_lines};
ghost use Rattle.onll_task.specs.RunSaid.{resumed_lines};

use onll_merge::LogCounts;
use onll_model::Node;
use onll_text::{Piece, Report, Texted};
use onll_words::NoMemory;

/// The line of how many nodes are gone on from; none where a run begins anew.
pub fn put_resumed(resumed: Option<u64>, out: &mut Report) -> Result<(), NoMemory>
    requires { begins_line out.old ≡ true }
    ensures lines { OnOk result (out.new ≡ with_lines out.old (resumed_lines resumed)) }
    ensures begins { OnOk result (begins_line out.new ≡ true) }
    ensures reads { OnOk result (IfSome resumed (λ nodes. nodes < 2 ^ 64)) }
{
    match resumed {
        Some(nodes) => out.line(&[Piece::Text(b"resumed"), Piece::Number(nodes)]),
        None => Ok(()),
    }
}

/// The line of what a thread's log holds.
fn put_log(thread: u64, log: LogCounts, out: &mut Report) -> Result<(), NoMemory>
    requires { begins_line out.old ≡ true }
    ensures line { OnOk result (out.new ≡ out.old ++ line_text (content_line thread log.head log.entries log.lines)) }
    ensures reads { OnOk result ((log.entries < 2 ^ 64) × (log.lines < 2 ^ 64)) }
{
    if log.head {
        out.log_line(thread, log.entries, log.lines, None)
    } else {
        out.line(&[
            Piece::Text(b"log"),
            Piece::Number(thread),
            Piece::Text(b"empty"),
        ])
    }
}

/// The line of each log.
pub fn put_logs(logs: &[LogCounts], out: &mut Report) -> Result<(), NoMemory>
    requires { begins_line out.old ≡ true }
    ensures lines { OnOk result (out.new ≡ with_lines out.old (log_lines 0 logs.now)) }
    ensures begins { OnOk result (begins_line out.new ≡ true) }
    ensures reads { OnOk result (All HeldReads (map held_of logs.now)) }
{
    let mut thread = 0;
    for log in logs {
        put_log(thread, *log, out)?;
        thread += 1;
    }
    Ok(())
}

/// How many nodes the trace has.
pub fn put_count(nodes: u64, out: &mut Report) -> Result<(), NoMemory>
    requires { begins_line out.old ≡ true }
    ensures lines { OnOk result (out.new ≡ out.old ++ line_text (recovered_line nodes)) }
    ensures begins { OnOk result (begins_line out.new ≡ true) }
{
    out.line(&[Piece::Text(b"recovered"), Piece::Number(nodes)])
}

/// Appends the line of each node.
pub fn put_nodes<O: Texted>(trace: &[Node], out: &mut Report) -> Result<(), NoMemory>
    requires operations { AllByRecursion (λ n. IsSome (O.means.op_at n.row)) trace.now }
    requires begins { begins_line out.old ≡ true }
    ensures lines { OnOk result (out.new ≡ with_lines out.old (node_lines O.means O.wording 0 trace.now)) }
    ensures reads { OnOk result (All (NodeReads O.means O.wording) trace.now) }
{
    let mut place = 0;
    for node in trace {
        place += 1;
        out.node_line::<O>(place, *node, None)?;
    }
    Ok(())
}
