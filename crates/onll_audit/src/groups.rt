//! The lines of calls of a report, thread by thread, each read beside the call of the script that it is to be.

ghost use Rattle.std.specs.Prelude.{◌≡◌, ◌<◌, ◌≤◌, ◌+◌, ◌^◌, true, Some, None, length, map, slice_get, IfOk, OnOk, IfSome, MatchOption};
ghost use Rattle.onll_text.specs.Reports.{CallReads};
ghost use Rattle.onll_audit.specs.Form.{is_call_line, lines_while};
ghost use Rattle.onll_audit.specs.Values.{as_left, as_end, AreReadWith};
ghost use Rattle.onll_audit.specs.Verdict.{call_front, end_after, end_of_call};

use crate::fields::after_text;
use crate::form::{is_call_line, put_call};
use crate::lines::LinesLeft;
use crate::said::{Said, said_of};
use onll_model::Call;
use onll_text::{Piece, Report, Texted};
use onll_words::NoMemory;
use std::alloc::Global;

/// The text after the arrow of a call's line, and the outcome that it says.
#[derive(Clone, Copy, Debug)]
pub(crate) struct EndText<'a> {
    pub text: &'a [u8],
    pub said: Said,
}

/// The line of a call.
#[derive(Debug, Drop)]
pub(crate) struct CallLine<'a> {
    pub line: &'a [u8],
    /// What it says of the script's call of its place, if it is the line of that call.
    pub end: Option<EndText<'a>>,
}

/// What the line of a call begins with, up to its arrow.
fn print_front<O: Texted>(
    room: &mut Report,
    thread: u64,
    number: u64,
    call: &Call<O>,
) -> Result<(), NoMemory>
    ensures { OnOk result (room.new ≡ call_front O.wording thread number call.now) }
{
    room.clear();
    room.words(&[
        Piece::Text(b"call"),
        Piece::Number(thread),
        Piece::Number(number),
    ])?;
    put_call(call, room)?;
    room.word(b"->")
}

/// What follows the front of a line and one space, and the outcome that it says.
fn end_after<'a>(line: &'a [u8], front: &[u8]) -> Option<EndText<'a>>
    ensures { MatchOption result (end_after front.now line.now ≡ None) (λ e. end_after front.now line.now ≡ Some (e.text.now, e.said)) }
{
    let rest = after_text(line, front)?;
    let text = after_text(rest, b" ")?;
    let said = said_of(text)?;
    Some(EndText { text, said })
}

/// A law: what is printed of a call reads as that call. It does nothing when called.
fn call_reads_back<O: Texted>(call: &Call<O>)
    ensures { CallReads O.wording call.now }
{
    match call {
        Call::Update(op) => O::op_reads_back(*op),
        Call::Ask(query) => O::query_reads_back(*query),
    }
}

/// What the line says of this call of the thread, if it is the line of that call.
#[tactic(auto, using(crate::proofs::PrintedLines::expecting))]
fn end_of_call<'a, O: Texted>(
    room: &mut Report,
    thread: u64,
    number: u64,
    call: &Call<O>,
    line: &'a [u8],
) -> Result<Option<EndText<'a>>, NoMemory>
    ensures end { IfOk result (λ end. as_end end ≡ end_of_call O.wording thread number call.now line.now) }
    ensures read { IfOk result (λ end. IfSome end (λ _. is_call_line O.wording thread line.now ≡ true)) }
{
    call_reads_back(call);
    print_front(room, thread, number, call)?;
    Ok(end_after(line, room.bytes()))
}

/// The same of the call after so many of the script, if there is one.
fn end_in_script<'a, O: Texted>(
    room: &mut Report,
    thread: u64,
    script: &[Call<O>],
    calls: usize,
    line: &'a [u8],
) -> Result<Option<EndText<'a>>, NoMemory>
    ensures end { IfOk result (λ end. IfSome (slice_get script.now calls)
        (λ call. as_end end ≡ end_of_call O.wording thread (calls + 1) call line.now)) }
    ensures read { IfOk result (λ end. IfSome end (λ _. is_call_line O.wording thread line.now ≡ true)) }
{
    match script.get(calls) {
        Some(call) => end_of_call(room, thread, calls as u64 + 1, call, line),
        None => Ok(None),
    }
}

/// Whether it is the line of a call of this thread. One that says something of the call that it is to be is known to be.
fn is_read_line<O: Texted>(
    room: &mut Report,
    thread: u64,
    line: &[u8],
    end: Option<EndText<'_>>,
) -> Result<bool, NoMemory>
    requires { IfSome end (λ _. is_call_line O.wording thread line.now ≡ true) }
    ensures { IfOk result (λ yes. yes ≡ is_call_line O.wording thread line.now) }
{
    match end {
        Some(_) => Ok(true),
        None => is_call_line::<O>(room, thread, line),
    }
}

/// The lines of the calls of a thread, and those after them.
#[derive(Drop)]
pub(crate) struct Group<'a> {
    pub lines: Vec<CallLine<'a>>,
    pub after: LinesLeft<'a>,
}

/// The lines of the calls of a thread that come next, beside its script.
#[tactic(auto, using(crate::proofs::Running::running))]
pub(crate) fn read_group<'a, O: Texted>(
    alloc: Global,
    room: &mut Report,
    thread: u64,
    script: &[Call<O>],
    lines: LinesLeft<'a>,
) -> Result<Group<'a>, NoMemory>
    requires { lines.number + length lines.rest.now < 2 ^ 64 }
    ensures group { let all = as_left lines.entry in
        IfOk result (λ g. lines_while (is_call_line O.wording thread) all.number all.parts
        ≡ (map (λ l. l.line.now) g.lines.items, as_left g.after)) }
    ensures read { IfOk result (λ g. AreReadWith O.wording thread script.now g.lines.items) }
    ensures within { IfOk result (λ g. g.after.number + length g.after.rest.now ≤ lines.entry.number + length lines.entry.rest.now) }
{
    let mut left = lines;
    let mut group = Vec::new(alloc);
    while let Some(next) = left.next() {
        let end = end_in_script(room, thread, script, group.len(), next.line)?;
        if !is_read_line::<O>(room, thread, next.line, end)? {
            break;
        }
        group.push(CallLine {
            line: next.line,
            end,
        })?;
        left = next.after;
    }
    Ok(Group {
        lines: group,
        after: left,
    })
}
