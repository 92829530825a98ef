//! Whether the lines of a thread's calls are right.

ghost use Rattle.std.specs.Prelude.{◌≡◌, ◌<◌, ◌≤◌, ◌+◌, ◌^◌, ◌++◌, ◌∷◌, Some, length, take, drop, map, slice_get, IfOk, OnOk};
ghost use Rattle.onll_words.specs.Texts.{joined};
ghost use Rattle.onll_model.specs.Trace.{state_after};
ghost use Rattle.onll_text.specs.Lines.{at_words};
ghost use Rattle.onll_audit.specs.Values.{as_end, as_judged, AreReadWith};
ghost use Rattle.onll_audit.specs.Verdict.{no_past, reply_right, judge_end, thread_wrong, row_said, rows_said};

use crate::fields::is_text;
use crate::groups::{CallLine, EndText};
use crate::past::{Past, outcome_right, place_right};
use crate::replica::{Evidence, Replica};
use crate::said::Said;
use crate::verdict::Why;
use onll_model::Call;
use onll_text::{Piece, Report, Texted};
use onll_words::{NoMemory, OpRow};
use std::alloc::Global;

/// A reply and its place, as they are printed.
#[tactic(auto, using(crate::proofs::Printing::replies))]
fn print_reply<O: Texted>(room: &mut Report, reply: O::Reply, place: u64) -> Result<(), NoMemory>
    ensures { OnOk result (room.new ≡ joined (O.wording.reply_words reply ++ at_words place)) }
{
    room.clear();
    O::put_reply(reply, room)?;
    room.words(&[Piece::Text(b"at"), Piece::Number(place)])
}

/// Whether the text after the arrow is that of the object's reply, where the call is answered.
fn check_reply<O: Texted + Drop>(
    alloc: Global,
    evidence: &Evidence<'_, O>,
    replica: &mut Replica<O>,
    call: &Call<O>,
    end: EndText<'_>,
) -> Result<bool, NoMemory>
    requires at { replica.old.at ≤ length evidence.now.nodes.now }
    requires object { replica.old.object ≡ state_after O.means evidence.now.first.now (take replica.old.at evidence.now.nodes.now) }
    ensures right { IfOk result (λ right. right
        ≡ reply_right O.means O.wording evidence.now.first.now evidence.now.nodes.now call.now end.entry.said end.entry.text.now) }
    ensures at { OnOk result (replica.new.at ≤ length evidence.now.nodes.now) }
    ensures object { OnOk result (replica.new.object
        ≡ state_after O.means evidence.now.first.now (take replica.new.at evidence.now.nodes.now)) }
{
    match end.said {
        Said::Answered { place } => {
            let reply = replica.ask(alloc, evidence, call, place)?;
            print_reply::<O>(&mut replica.room, reply, place)?;
            Ok(is_text(replica.room.bytes(), end.text))
        }
        _ => Ok(true),
    }
}

/// What became of a call by its line, or the first reason why the line is wrong.
fn judge<O: Texted + Drop>(
    alloc: Global,
    evidence: &Evidence<'_, O>,
    replica: &mut Replica<O>,
    past: Past,
    call: &Call<O>,
    end: Option<EndText<'_>>,
) -> Result<Result<Said, Why>, NoMemory>
    requires at { replica.old.at ≤ length evidence.now.nodes.now }
    requires object { replica.old.object ≡ state_after O.means evidence.now.first.now (take replica.old.at evidence.now.nodes.now) }
    ensures said { let e = evidence.now in IfOk result (λ said. said
        ≡ judge_end O.means O.wording e.first.now e.nodes.now e.places.now past call.now (as_end end.entry)) }
    ensures at { OnOk result (replica.new.at ≤ length evidence.now.nodes.now) }
    ensures object { OnOk result (replica.new.object
        ≡ state_after O.means evidence.now.first.now (take replica.new.at evidence.now.nodes.now)) }
{
    let Some(end) = end else {
        return Ok(Err(Why::Script));
    };
    if !outcome_right(past, call, end.said) {
        return Ok(Err(Why::Outcome));
    }
    let count = evidence.nodes.len() as u64;
    if !place_right(evidence.places, count, past, call, end.said) {
        return Ok(Err(Why::Place));
    }
    if check_reply(alloc, evidence, replica, call, end)? {
        Ok(Ok(end.said))
    } else {
        Ok(Err(Why::Reply))
    }
}

/// A wrong line, and the first reason why it is wrong.
#[derive(Clone, Copy, Debug, PartialEq, Eq)]
pub(crate) struct Wrong {
    pub line: u64,
    pub why: Why,
}

/// The line at an index.
fn line_at<'b, 'a>(lines: &'b [CallLine<'a>], i: usize) -> &'b CallLine<'a>
    requires { i < length lines.now }
    ensures rest { drop i (map (λ l. l.line.now) lines.now) ≡ result.now.line.now ∷ drop (i + 1) (map (λ l. l.line.now) lines.now) }
    ensures there { slice_get lines.now i ≡ Some result.now }
{
    &lines[i]
}

/// Appends the row of an update with a place, by what its line says of it.
fn push_row<O: Texted>(call: &Call<O>, said: Said, rows: &mut Vec<OpRow>) -> Result<(), NoMemory>
    ensures { OnOk result (rows.new.items ≡ rows.old.items ++ row_said O.means call.now (Some said)) }
{
    if let Call::Update(op) = call {
        match said {
            Said::Answered { .. } => rows.push(O::op_row(*op))?,
            Said::FenceFailed { .. } => rows.push(O::op_row(*op))?,
            Said::Broken { .. } => {}
        }
    }
    Ok(())
}

/// The rows of a thread's updates with a place, or its least wrong line. Its first line is line `number` of the report.
pub(crate) fn thread_wrong<O: Texted + Drop>(
    alloc: Global,
    evidence: &Evidence<'_, O>,
    number: u64,
    script: &[Call<O>],
    lines: &[CallLine<'_>],
) -> Result<Result<Vec<OpRow>, Wrong>, NoMemory>
    requires few { number + length lines.now < 2 ^ 64 }
    requires read { AreReadWith O.wording evidence.now.thread script.now lines.now }
    ensures wrong { let e = evidence.now in IfOk result (λ judged. as_judged judged
        ≡ thread_wrong O.means O.wording e.first.now e.nodes.now e.thread e.places.now number no_past script.now
        (map (λ l. l.line.now) lines.now)) }
    ensures rows { IfOk result (λ judged. IfOk judged (λ rows. rows.items
        ≡ rows_said O.means O.wording evidence.now.thread 0 script.now (map (λ l. l.line.now) lines.now))) }
{
    let mut rows = Vec::new(alloc);
    let mut past = Past::none();
    let mut replica = Replica {
        object: evidence.first.copy(alloc)?,
        at: 0,
        room: Report::new(alloc),
    };
    for i in 0..lines.len() {
        let line = number + i as u64;
        if i >= script.len() {
            let why = Why::Script;
            return Ok(Err(Wrong { line, why }));
        }
        let call = &script[i];
        let read = line_at(lines, i);
        match judge(alloc, evidence, &mut replica, past, call, read.end)? {
            Ok(said) => {
                push_row(call, said, &mut rows)?;
                past = past.with(call, said);
            }
            Err(why) => return Ok(Err(Wrong { line, why })),
        }
    }
    Ok(Ok(rows))
}
