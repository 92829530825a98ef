//! The reader of scripts.

ghost use Rattle.std.specs.Prelude.{◌≡◌, ◌≤◌, MatchResult, IfOk, Ok};
ghost use Rattle.onll_words.specs.Texts.{words_of};
ghost use Rattle.onll_model.specs.Calls.{updates_in, reads_in};
ghost use Rattle.onll_text.specs.Refusal.{Fails};
ghost use Rattle.onll_text.specs.Script.{most_calls, script_of, is_too_long, counted, call_after, calls_in, no_calls};

use crate::reason::{Reason, TextFault};
use crate::texted::Texted;
use onll_model::{Call, MOST_UPDATES};
use onll_words::{Lines, NumberedLine};
use std::alloc::Global;

/// The greatest length of a text, in bytes.
pub const LONGEST_TEXT: usize = 1_048_576;

/// A script has at most so many updates, and at most so many reads.
const MOST_CALLS: u64 = MOST_UPDATES;

/// How many calls a script has so far.
#[derive(Clone, Copy)]
struct Counts {
    updates: u64,
    reads: u64,
}

/// Whether the text has more bytes than a text may have.
pub(crate) fn is_too_long(text: &[u8]) -> bool
    ensures { result ≡ is_too_long text.now }
{
    text.len() > LONGEST_TEXT
}

/// Counts one call more.
fn counted<O: Texted>(counts: Counts, call: &Call<O>) -> Result<Counts, Reason>
    ensures { result ≡ counted counts call.now }
{
    match call {
        Call::Update(_) if counts.updates < MOST_CALLS => Ok(Counts {
            updates: counts.updates + 1,
            reads: counts.reads,
        }),
        Call::Ask(_) if counts.reads < MOST_CALLS => Ok(Counts {
            updates: counts.updates,
            reads: counts.reads + 1,
        }),
        _ => Err(Reason::TooMany),
    }
}

/// The call of a line, and how many calls there are with it.
fn read_line<O: Texted>(line: &[u8], counts: Counts) -> Result<(Call<O>, Counts), Reason>
    ensures { result ≡ call_after O.wording counts (words_of line.now) }
{
    let call = O::read_call(line)?;
    let counts = counted(counts, &call)?;
    Ok((call, counts))
}

/// The calls of the lines that are left.
fn read_lines<O: Texted>(alloc: Global, lines: &mut Lines<'_>) -> Result<Vec<Call<O>>, TextFault>
    ensures { MatchResult result (λ calls. calls_in O.wording no_calls lines.old ≡ Ok calls.items)
        (λ fault. Fails fault (calls_in O.wording no_calls lines.old)) }
{
    let mut calls = Vec::new(alloc);
    let mut counts = Counts {
        updates: 0,
        reads: 0,
    };
    while let Some(NumberedLine { number, line }) = lines.next_line() {
        match read_line(line, counts) {
            Ok((call, more)) => {
                counts = more;
                calls.push(call)?;
            }
            Err(reason) => return Err(TextFault::Refused {
                line: number,
                reason,
            }),
        }
    }
    Ok(calls)
}

/// The calls of a script, or the first line that is none with the first reason.
pub fn read_script<O: Texted>(alloc: Global, text: &[u8]) -> Result<Vec<Call<O>>, TextFault>
    ensures calls { MatchResult result (λ calls. script_of O.wording text.now ≡ Ok calls.items)
        (λ fault. Fails fault (script_of O.wording text.now)) }
    ensures updates { IfOk result (λ calls. updates_in calls.items ≤ most_calls) }
    ensures reads { IfOk result (λ calls. reads_in calls.items ≤ most_calls) }
{
    if is_too_long(text) {
        return Err(TextFault::Refused {
            line: 0,
            reason: Reason::TooLong,
        });
    }
    let mut lines = Lines::of(text);
    read_lines(alloc, &mut lines)
}
