//! The reader of initial states.

ghost use Rattle.std.specs.Prelude.{◌≡◌, ◌≤◌, ℕ, List, Result, MatchResult, IfOk, OnErr};
ghost use Rattle.onll_model.specs.Limits.{most_elements};
ghost use Rattle.onll_text.specs.declared.reason.Reason.{Reason};
ghost use Rattle.onll_words.specs.Texts.{words_of};
ghost use Rattle.onll_text.specs.Refusal.{Fails};
ghost use Rattle.onll_text.specs.Init.{capacity_of, head_of, init_of};
ghost use Rattle.onll_text.specs.Making.{after_lines};

use crate::any_object::{AnyObject, Kind, read_kind, read_object};
use crate::reason::{Reason, TextFault};
use crate::script::is_too_long;
use crate::words::one_number;
use onll_model::MOST_ELEMENTS;
use onll_words::{Cut, Lines, NumberedLine, split_word};
use std::alloc::Global;

/// An initial state in the making, which grows line by line.
pub(crate) trait Initial: Sized {
    /// What it is with one line more, by the line's words.
    ghost with_line: { Self → List (List ℕ) → Result Self Reason };

    /// Takes one line more; a refused one changes nothing.
    fn add_line(&mut self, line: &[u8]) -> Result<(), Reason>
        ensures added { MatchResult result (λ _. with_line self.old (words_of line.now) ≡ Ok self.new)
            (λ e. with_line self.old (words_of line.now) ≡ Err e) }
        ensures refused { OnErr result (self.new ≡ self.old) };
}

/// Takes all lines that are left.
pub(crate) fn add_lines<I: Initial>(made: &mut I, lines: &mut Lines<'_>) -> Result<(), TextFault>
    ensures { MatchResult result (λ _. after_lines I.with_line made.old lines.old ≡ Ok made.new)
        (λ fault. Fails fault (after_lines I.with_line made.old lines.old)) }
{
    while let Some(NumberedLine { number, line }) = lines.next_line() {
        match made.add_line(line) {
            Ok(()) => {}
            Err(reason) => return Err(TextFault::Refused {
                line: number,
                reason,
            }),
        }
    }
    Ok(())
}

/// The first line of an initial state: the kind of object and its capacity.
#[derive(Clone, Copy)]
pub(crate) struct Head {
    kind: Kind,
    capacity: u64,
}

fn read_capacity(args: &[u8]) -> Result<u64, Reason>
    ensures capacity { result ≡ capacity_of (words_of args.now) }
    ensures range { IfOk result (λ n. (1 ≤ n) × (n ≤ most_elements)) }
{
    let n = one_number(args)?;
    if n < 1 || n > MOST_ELEMENTS {
        return Err(Reason::OutOfRange);
    }
    Ok(n)
}

fn read_head(line: &[u8]) -> Result<Head, Reason>
    ensures head { result ≡ head_of (words_of line.now) }
    ensures range { IfOk result (λ head. (1 ≤ head.capacity) × (head.capacity ≤ most_elements)) }
{
    let Some(Cut { word, rest }) = split_word(line) else {
        return Err(Reason::UnknownObject);
    };
    let kind = read_kind(word)?;
    let capacity = read_capacity(rest)?;
    Ok(Head { kind, capacity })
}

/// The initial state of a text, or the first line that is refused with the first reason.
pub fn read_init(alloc: Global, text: &[u8]) -> Result<AnyObject, TextFault>
    ensures { MatchResult result (λ object. init_of text.now ≡ Ok object) (λ fault. Fails fault (init_of text.now)) }
{
    if is_too_long(text) {
        return Err(TextFault::Refused {
            line: 0,
            reason: Reason::TooLong,
        });
    }
    let mut lines = Lines::of(text);
    let Some(NumberedLine { number, line }) = lines.next_line() else {
        return Err(TextFault::Refused {
            line: 0,
            reason: Reason::Missing,
        });
    };
    match read_head(line) {
        Ok(head) => read_object(alloc, head.kind, head.capacity, &mut lines),
        Err(reason) => Err(TextFault::Refused {
            line: number,
            reason,
        }),
    }
}
