//! The lines that a report of `run` has.

ghost use Rattle.std.specs.Prelude.{◌≡◌, ◌<◌, ◌≤◌, Some, None, length, IfOk, IfSome, OnOk, MatchOption};
ghost use Rattle.std.specs.Option.{option_copied};
ghost use Rattle.onll_words.specs.Texts.{joined};
ghost use Rattle.onll_text.specs.Bytes.{with_words};
ghost use Rattle.onll_text.specs.Lines.{call_words};
ghost use Rattle.onll_audit.specs.Form.{is_call, is_arrow, has_arrow, after_number, is_call_line, op_said, node_front, trace_said, past_flag, node_said, log_said, recovered_said, fault_said};

use crate::fields::{after_word, begins, is_text, next_field, number_field, number_word, tail};
use crate::said::said_of;
use itoa::Buffer;
use onll_model::{Call, Node};
use onll_text::{Report, Texted};
use onll_words::NoMemory;

/// Appends the words of a call.
pub(crate) fn put_call<O: Texted>(call: &Call<O>, out: &mut Report) -> Result<(), NoMemory>
    ensures { OnOk result (out.new ≡ with_words out.old (call_words O.wording call.now)) }
{
    match call {
        Call::Update(op) => O::put_op(*op, out),
        Call::Ask(query) => O::put_query(*query, out),
    }
}

/// A call as it is printed, and nothing else in the room.
#[tactic(auto, using(crate::proofs::Printing::calls))]
fn print_call<O: Texted>(room: &mut Report, call: &Call<O>) -> Result<(), NoMemory>
    ensures { OnOk result (room.new ≡ joined (call_words O.wording call.now)) }
{
    room.clear();
    put_call(call, room)
}

/// Whether the text is a call of the object, as it is printed.
fn is_call<O: Texted>(room: &mut Report, text: &[u8]) -> Result<bool, NoMemory>
    ensures { IfOk result (λ yes. yes ≡ is_call O.wording text.now) }
{
    match O::read_call(text) {
        Ok(call) => {
            print_call(room, &call)?;
            Ok(is_text(room.bytes(), text))
        }
        Err(_) => Ok(false),
    }
}

/// Whether the arrow after a call stands there, and after it what became of the call.
fn is_arrow<O: Texted>(room: &mut Report, text: &[u8], i: usize) -> Result<bool, NoMemory>
    requires { i ≤ length text.now }
    ensures { IfOk result (λ yes. yes ≡ is_arrow O.wording text.now i) }
{
    let rest = tail(text, i);
    if !begins(rest, b" -> ") {
        return Ok(false);
    }
    Ok(is_call::<O>(room, &text[..i])? && said_of(tail(text, i + 4)).is_some())
}

/// The greatest place of an arrow: a call is printed in at most so many bytes.
const LAST_ARROW: usize = 128;

/// Whether it does anywhere. No arrow beyond the longest call stands after one.
#[tactic(auto, using(crate::proofs::Printing::arrows))]
fn has_arrow<O: Texted>(room: &mut Report, text: &[u8]) -> Result<bool, NoMemory>
    ensures { IfOk result (λ yes. yes ≡ has_arrow O.wording text.now (length text.now)) }
{
    for i in 0..text.len().min(LAST_ARROW + 1) {
        if is_arrow::<O>(room, text, i)? {
            return Ok(true);
        }
    }
    Ok(false)
}

/// What follows the front of the line of a call of this thread, up to its number.
fn after_number(thread: u64, line: &[u8]) -> Option<&[u8]>
    ensures { option_copied result ≡ after_number thread line.now }
{
    let mut buffer = Buffer::new();
    let rest = after_word(line, b"call")?;
    let more = after_word(rest, buffer.format(thread).as_bytes())?;
    let number = number_field(more)?;
    Some(number.rest)
}

/// Whether it is the line of a call of this thread.
pub(crate) fn is_call_line<O: Texted>(
    room: &mut Report,
    thread: u64,
    line: &[u8],
) -> Result<bool, NoMemory>
    ensures { IfOk result (λ yes. yes ≡ is_call_line O.wording thread line.now) }
{
    match after_number(thread, line) {
        Some(text) => has_arrow::<O>(room, text),
        None => Ok(false),
    }
}

/// The operation of an update, as it is printed.
#[tactic(auto, using(crate::proofs::Printing::printing))]
fn op_said<O: Texted>(room: &mut Report, text: &[u8]) -> Result<Option<O::Op>, NoMemory>
    ensures { IfOk result (λ op. op ≡ op_said O.wording text.now) }
{
    match O::read_call(text) {
        Ok(Call::Update(op)) => {
            room.clear();
            O::put_op(op, room)?;
            if is_text(room.bytes(), text) {
                Ok(Some(op))
            } else {
                Ok(None)
            }
        }
        _ => Ok(None),
    }
}

pub(crate) fn trace_said(line: &[u8]) -> Option<u64>
    ensures { result ≡ trace_said line.now }
{
    let rest = after_word(line, b"trace")?;
    number_word(rest)
}

/// What follows a flag.
fn past_flag(line: &[u8]) -> Option<&[u8]>
    ensures { option_copied result ≡ past_flag line.now }
{
    let field = next_field(line)?;
    if is_text(field.word, b"set") || is_text(field.word, b"unset") {
        Some(field.rest)
    } else {
        None
    }
}

/// What the line of a node says before its operation.
#[derive(Clone, Copy, Debug)]
struct NodeFront<'a> {
    thread: u64,
    number: u64,
    text: &'a [u8],
}

fn node_front(place: u64, line: &[u8]) -> Option<NodeFront<'_>>
    ensures { MatchOption result (node_front place line.now ≡ None)
        (λ f. node_front place line.now ≡ Some (f.thread, f.number, f.text.now)) }
{
    let mut buffer = Buffer::new();
    let rest = after_word(line, b"node")?;
    let rest = after_word(rest, buffer.format(place).as_bytes())?;
    let thread = number_field(rest)?;
    let number = number_field(thread.rest)?;
    let text = past_flag(number.rest)?;
    Some(NodeFront {
        thread: thread.number,
        number: number.number,
        text,
    })
}

/// The node of a line at this place.
pub(crate) fn node_said<O: Texted>(
    room: &mut Report,
    place: u64,
    line: &[u8],
) -> Result<Option<Node>, NoMemory>
    ensures { IfOk result (λ node. node ≡ node_said O.means O.wording place line.now) }
{
    let Some(front) = node_front(place, line) else {
        return Ok(None);
    };
    match op_said::<O>(room, front.text)? {
        Some(op) => Ok(Some(Node {
            thread: front.thread,
            number: front.number,
            row: O::op_row(op),
        })),
        None => Ok(None),
    }
}

/// The fences of a thread's log, by its line.
pub(crate) fn log_said(thread: u64, line: &[u8]) -> Option<u64>
    ensures { result ≡ log_said thread line.now }
{
    let mut buffer = Buffer::new();
    let rest = after_word(line, b"log")?;
    let rest = after_word(rest, buffer.format(thread).as_bytes())?;
    let rest = after_word(rest, b"entries")?;
    let entries = number_field(rest)?;
    let rest = after_word(entries.rest, b"lines")?;
    let lines = number_field(rest)?;
    let rest = after_word(lines.rest, b"fences")?;
    number_word(rest)
}

pub(crate) fn recovered_said(line: &[u8]) -> Option<u64>
    ensures { result ≡ recovered_said line.now }
{
    let rest = after_word(line, b"recovered")?;
    number_word(rest)
}

/// The thread of a fault line, from this one on and below that count.
pub(crate) fn fault_said(least: u64, threads: u64, line: &[u8]) -> Option<u64>
    ensures thread { result ≡ fault_said least threads line.now }
    ensures below { IfSome result (λ thread. thread < threads) }
{
    let rest = after_word(line, b"fault")?;
    let rest = after_word(rest, b"thread")?;
    let thread = number_field(rest)?;
    let rest = after_word(thread.rest, b"place")?;
    let _place = number_word(rest)?;
    if least <= thread.number && thread.number < threads {
        Some(thread.number)
    } else {
        None
    }
}
