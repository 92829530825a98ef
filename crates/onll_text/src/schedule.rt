//! The reader of schedules.

ghost use Rattle.std.specs.Prelude.{◌≡◌, ◌≢◌, ◌≤◌, ◌+◌, ◌∷◌, MatchResult, IfOk, IfErr, Ok};
ghost use Rattle.onll_words.specs.Texts.{words_of};
ghost use Rattle.onll_text.specs.declared.reason.TextFault.{TextFault};
ghost use Rattle.onll_text.specs.Refusal.{Fails};
ghost use Rattle.onll_text.specs.Schedule.{most_steps, turn_of, turn_after, line_after, FitsBehind, ended_by, after_turns, schedule_in, schedule_of, IsPlayable};

use crate::reason::{Reason, TextFault};
use crate::script::is_too_long;
use crate::words::{is_text, no_word, number, one_number};
use onll_model::Turn;
use onll_words::{Cut, Lines, NumberedLine, split_word};
use std::alloc::Global;
use std::marker::Model;

/// A turn has at most so many steps, and so have all turns of a schedule together.
pub const MOST_STEPS: u64 = 8_000_000;

/// Turns in order, seen as their list.
#[derive(Drop)]
pub struct Turns {
    turns: Vec<Turn>,
}

impl Model for Turns {
    ghost use Rattle.std.specs.Prelude.{List};
    ghost use Rattle.onll_model.specs.declared.turn.Turn.{Turn};

    ghost Value = { List Turn };

    ghost view = { λ s. s.turns.items };
}

impl Turns {
    pub fn of_vec(turns: Vec<Turn>) -> Turns
        ensures { result ≡ turns.items }
    {
        Turns { turns }
    }

    pub fn as_slice(&self) -> &[Turn]
        ensures { result.now ≡ self.now }
    {
        &self.turns
    }

    pub fn into_vec(self) -> Vec<Turn>
        ensures { result.items ≡ self }
    {
        self.turns
    }
}

/// The turns that are played, and then a crash, after which the pending words that `keep` says are kept.
#[derive(Drop)]
pub struct Schedule {
    pub turns: Turns,
    pub keep: u64,
}

/// What a line of a schedule says.
#[derive(Clone, Copy)]
enum ScheduleLine {
    Steps(Turn),
    Crash { keep: u64 },
}

/// The turn of a line's words: one step, where no count is given.
fn read_turn(first: &[u8], args: &[u8]) -> Result<Turn, Reason>
    ensures { result ≡ turn_of (first.now ∷ words_of args.now) }
{
    match split_word(args) {
        None => {
            let thread = number(first)?;
            Ok(Turn { thread, count: 1 })
        }
        Some(Cut { word, rest }) => {
            no_word(rest)?;
            let thread = number(first)?;
            let count = number(word)?;
            Ok(Turn { thread, count })
        }
    }
}

/// The turn of a line's words, among so many threads and after so many steps.
fn next_turn(first: &[u8], args: &[u8], threads: u64, steps: u64) -> Result<Turn, Reason>
    requires { steps ≤ most_steps }
    ensures turn { result ≡ turn_after threads steps (first.now ∷ words_of args.now) }
    ensures room { IfOk result (λ turn. steps + turn.count ≤ most_steps) }
{
    let turn = read_turn(first, args)?;
    if turn.thread >= threads || turn.count < 1 || turn.count > MOST_STEPS {
        return Err(Reason::OutOfRange);
    }
    if turn.count > MOST_STEPS - steps {
        return Err(Reason::TooMany);
    }
    Ok(turn)
}

/// What a line says, among so many threads and after so many steps.
fn read_line(line: &[u8], threads: u64, steps: u64) -> Result<ScheduleLine, Reason>
    requires { steps ≤ most_steps }
    ensures said { result ≡ line_after threads steps (words_of line.now) }
    ensures room { IfOk result (λ line. FitsBehind steps line) }
{
    let Some(Cut { word, rest }) = split_word(line) else {
        return Err(Reason::WrongCount);
    };
    if is_text(word, b"crash") {
        let keep = one_number(rest)?;
        Ok(ScheduleLine::Crash { keep })
    } else {
        let turn = next_turn(word, rest, threads, steps)?;
        Ok(ScheduleLine::Steps(turn))
    }
}

/// The schedule of these turns and this crash, where no line is left.
fn crashed(turns: Vec<Turn>, keep: u64, lines: &mut Lines<'_>) -> Result<Schedule, TextFault>
    ensures schedule { MatchResult result (λ schedule. after_turns turns.items (ended_by keep lines.old) ≡ Ok schedule)
        (λ fault. Fails fault (after_turns turns.items (ended_by keep lines.old))) }
    ensures memory { IfErr result (λ fault. fault ≢ TextFault.NoMemory) }
{
    match lines.next_line() {
        None => Ok(Schedule {
            turns: Turns::of_vec(turns),
            keep,
        }),
        Some(NumberedLine { number, .. }) => Err(TextFault::Refused {
            line: number,
            reason: Reason::AfterCrash,
        }),
    }
}

/// The schedule of the lines that are left.
#[tactic(auto, using(crate::proofs::Playable::turns_before))]
fn read_lines(alloc: Global, lines: &mut Lines<'_>, threads: u64) -> Result<Schedule, TextFault>
    ensures { MatchResult result (λ schedule. schedule_in threads 0 lines.old ≡ Ok schedule)
        (λ fault. Fails fault (schedule_in threads 0 lines.old)) }
{
    let mut turns = Vec::new(alloc);
    let mut steps = 0;
    while let Some(NumberedLine { number, line }) = lines.next_line() {
        match read_line(line, threads, steps) {
            Ok(ScheduleLine::Steps(turn)) => {
                steps += turn.count;
                turns.push(turn)?;
            }
            Ok(ScheduleLine::Crash { keep }) => return crashed(turns, keep, lines),
            Err(reason) => return Err(TextFault::Refused {
                line: number,
                reason,
            }),
        }
    }
    Err(TextFault::Refused {
        line: 0,
        reason: Reason::Missing,
    })
}

/// The schedule of a text for so many threads, or the first line that is refused with the first reason. Every turn is of a
/// thread below their number.
pub fn read_schedule(alloc: Global, text: &[u8], threads: u64) -> Result<Schedule, TextFault>
    ensures schedule { MatchResult result (λ schedule. schedule_of threads text.now ≡ Ok schedule)
        (λ fault. Fails fault (schedule_of threads text.now)) }
    ensures playable { IfOk result (λ schedule. IsPlayable threads schedule) }
{
    if is_too_long(text) {
        return Err(TextFault::Refused {
            line: 0,
            reason: Reason::TooLong,
        });
    }
    let mut lines = Lines::of(text);
    read_lines(alloc, &mut lines, threads)
}
