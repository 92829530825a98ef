//! What a report says is determined by its bytes, for every object.

ghost use Rattle.std.specs.Prelude.{◌<◌, ◌^◌, IsSome};
ghost use Rattle.onll_words.specs.Texts.{TextDeterminedLaw};
ghost use Rattle.onll_text.specs.Reports.{EndReads, NodeReads, CallsDeterminedLaw, NodesDeterminedLaw, StateDeterminedLaw, FoldDeterminedLaw};

use crate::texted::Texted;
use onll_model::{CallEnd, Node};

/// A law: a number is one of 64 bits. It does nothing when called.
fn is_number(n: u64)
    ensures { n < 2 ^ 64 }
{
    let _ = n;
}

/// A law: each outcome that a program has reads back. It does nothing when called.
pub fn end_reads_back<O: Texted>(end: &CallEnd<O>)
    ensures { EndReads O.wording end.now }
{
    match end {
        CallEnd::Answered { reply, place } => {
            O::reply_reads_back(*reply);
            is_number(*place);
        }
        CallEnd::Running => {}
        CallEnd::Ordered { place } => is_number(*place),
        CallEnd::FenceFailed { place } => is_number(*place),
        CallEnd::Broken { place } => is_number(*place),
    }
}

/// A law: each node of an operation reads back. It does nothing when called.
pub fn node_reads_back<O: Texted>(node: Node)
    requires { IsSome (O.means.op_at node.row) }
    ensures { NodeReads O.means O.wording node }
{
    if let Some(op) = O::op_of_row(node.row) {
        O::op_reads_back(op);
    }
}

/// The parts of a report are one to one: lines of words and their text, the outcomes of a script's calls and their lines,
/// nodes and theirs, a state and its.
pub fn parts_determined_law<O: Texted>()
    ensures texts { TextDeterminedLaw }
    ensures calls { CallsDeterminedLaw O.wording }
    ensures nodes { NodesDeterminedLaw O.means O.wording }
    ensures state { StateDeterminedLaw O.wording }
{}

/// The bytes of a report of one thread, as `fold` prints it, determine the outcomes of its script's calls, the trace and the
/// state. Each outcome and each node that a program has reads back (`end_reads_back`, `node_reads_back`), and each state
/// (`state_reads_back` of `Texted`).
pub fn fold_determined_law<O: Texted>()
    ensures { FoldDeterminedLaw O.means O.wording }
{}
