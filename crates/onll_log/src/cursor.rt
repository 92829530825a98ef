//! A cursor over an image: what a log holds, entry by entry, without a copy of it.

ghost use Rattle.std.specs.Prelude.{◌≡◌, ◌+◌, ◌-◌, ◌<◌, ◌≤◌, ◌^◌, length, drop, Some, None, MatchOption, slice_get};
ghost use Rattle.onll_model.specs.Limits.{most_threads};
ghost use Rattle.onll_pmem.specs.Pmem.{words_of};
ghost use Rattle.onll_log.specs.Grammar.{content_of, entries_from};
ghost use Rattle.onll_log.specs.Head.{FitsHead};
ghost use Rattle.onll_log.specs.Survey.{Surveys, survey_of, entries_known};
ghost use Rattle.onll_log.specs.Cursor.{entries_left, lines_passed, first_view, first_nodes, one_further, before_all};

use crate::entry::is_entry;
use crate::head::LogHead;
use crate::image::{are_zero, node_of};
use crate::survey::{LogSurvey, entries_known, go_over};
use onll_model::Node;
use onll_words::Line;
use std::marker::Model;

/// An accepted entry of an image: the line at which it begins, the place of its last node, and how many nodes it has.
#[derive(Clone, Copy, Debug, PartialEq, Eq)]
pub struct EntryView {
    pub line: u64,
    pub place: u64,
    pub count: u64,
}

/// Goes over the accepted entries of an image, one after the other. It tests an entry when it first reaches it, and not again
/// when it goes over the image once more; it takes no memory.
#[derive(Drop)]
pub struct LogCursor<'a> {
    lines: &'a [Line],
    head: Option<LogHead>,
    /// How many entries were gone past, now or before: these are accepted.
    known: u64,
    /// What the entries are as a whole, where that is known.
    survey: Option<LogSurvey>,
    passed: u64,
    at: usize,
    next: Option<EntryView>,
}

impl<'a> Model for LogCursor<'a> {
    ghost use Rattle.onll_pmem.specs.Pmem.{words_of};
    ghost use Rattle.onll_log.specs.Cursor.{CursorState, StandsOver, entries_under};

    ghost Value = { CursorState };

    ghost view = { λ s. record {
      content = record
          { head = s.head; entries = entries_under s.head (words_of s.lines.now) };
      passed = s.passed;
    } };

    ghost invariant = { λ s. StandsOver s.head (words_of s.lines.now) s.known s.survey s.passed s.at s.next };
}

/// The entry that begins at this line, after this many entries of the log, None where none is accepted there. The first `known`
/// entries of the log are accepted, and not tested.
fn entry_at(head: &LogHead, known: u64, before: u64, at: usize, lines: &[Line]) -> Option<EntryView>
    requires threads { head.now.threads ≤ most_threads }
    requires before { before < 2 ^ 64 - 1 }
    requires within { at ≤ length lines.now }
    requires known { before < known → 1 ≤ length (entries_from head.now before 0 (drop at (words_of lines.now))) }
    ensures { result ≡ first_view at (entries_from head.now before 0 (drop at (words_of lines.now))) }
{
    let (_, left) = lines.split_at(at);
    let (line, rest) = left.split_first()?;
    if before < known || is_entry(head, before, line, rest) {
        Some(EntryView {
            line: at as u64,
            place: line.w[3],
            count: line.w[4],
        })
    } else {
        None
    }
}

impl<'a> LogCursor<'a> {
    /// A cursor before the first entry of an image, None where the image is no log.
    pub fn open(lines: &'a [Line]) -> Option<LogCursor<'a>>
        ensures { let content = content_of (words_of lines.now) in
            MatchOption result (content ≡ None) (λ c. (content ≡ Some c.content) × (c.passed ≡ 0)) }
    {
        LogCursor::over(lines, None)
    }

    /// A cursor before the first entry of an image with this head, where this is known of all entries.
    fn under(head: LogHead, lines: &'a [Line], survey: Option<LogSurvey>) -> LogCursor<'a>
        requires head { FitsHead head }
        requires some { 1 ≤ length lines.now }
        requires content { content_of (words_of lines.now)
            ≡ Some (record { head = Some head; entries = entries_from head 0 0 (drop 1 (words_of lines.now)) }) }
        requires survey { Surveys (words_of lines.now) survey }
        ensures content { content_of (words_of lines.now) ≡ Some result.content }
        ensures first { result.passed ≡ 0 }
    {
        let known = entries_known(survey);
        let next = entry_at(&head, known, 0, 1, lines);
        LogCursor {
            lines,
            head: Some(head),
            known,
            survey,
            passed: 0,
            at: 1,
            next,
        }
    }

    /// A cursor before the first entry of an image, where this is known of all entries; None where the image is no log.
    pub(crate) fn over(lines: &'a [Line], survey: Option<LogSurvey>) -> Option<LogCursor<'a>>
        requires survey { Surveys (words_of lines.now) survey }
        ensures { let content = content_of (words_of lines.now) in
            MatchOption result (content ≡ None) (λ c. (content ≡ Some c.content) × (c.passed ≡ 0)) }
    {
        let first = lines.first()?;
        if let Some(head) = LogHead::of_line(first) {
            return Some(LogCursor::under(head, lines, survey));
        }
        if !are_zero(lines) {
            return None;
        }
        Some(LogCursor {
            lines,
            head: None,
            known: 0,
            survey: None,
            passed: 0,
            at: 0,
            next: None,
        })
    }

    /// The image's head, None where the image is all zero.
    pub fn head(&self) -> Option<LogHead>
        ensures { result ≡ self.now.content.head }
    {
        self.head
    }

    /// The next accepted entry, None where there is no further one.
    pub fn peek(&self) -> Option<EntryView>
        ensures { result ≡ first_view (lines_passed self.now) (entries_left self.now) }
    {
        self.next
    }

    /// A node of the next entry, by its number from 0.
    pub fn node(&self, i: u64) -> Node
        requires { i < length (first_nodes (entries_left self.now)) }
        ensures { slice_get (first_nodes (entries_left self.now)) i ≡ Some result }
    {
        node_of(&self.lines[self.at + 1 + i as usize])
    }

    /// Goes past the next entry.
    pub fn advance(&mut self)
        requires { self.old.passed < length self.old.content.entries }
        ensures { self.new ≡ one_further self.old }
    {
        if let Some(head) = self.head {
            if let Some(entry) = self.next {
                self.passed += 1;
                self.known = self.known.max(self.passed);
                self.at += 1 + entry.count as usize;
                self.next = entry_at(&head, self.known, self.passed, self.at, self.lines);
            }
        }
    }

    /// Goes back before the first entry.
    pub fn rewind(&mut self)
        ensures { self.new ≡ before_all self.old }
    {
        if let Some(head) = self.head {
            self.passed = 0;
            self.at = 1;
            self.next = entry_at(&head, self.known, 0, 1, self.lines);
        }
    }

    /// What the entries are as a whole. Where that isn't known it goes past all of them, and back before the first.
    pub fn survey(&mut self) -> LogSurvey
        requires { self.old.passed ≡ 0 }
        ensures survey { result ≡ survey_of self.old.content }
        ensures again { self.new ≡ before_all self.old }
    {
        if let Some(survey) = self.survey {
            return survey;
        }
        let survey = go_over(self);
        self.rewind();
        survey
    }

    /// How many entries were gone past.
    pub fn passed(&self) -> u64
        ensures count { result ≡ self.now.passed }
        ensures few { result < 2 ^ 64 - 1 }
    {
        self.passed
    }

    /// How many lines the head and the entries that were gone past take.
    pub fn used(&self) -> u64
        ensures { result ≡ lines_passed self.now }
    {
        self.at as u64
    }
}
