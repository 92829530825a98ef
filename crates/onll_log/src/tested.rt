//! Images as recovery takes them: lines, and what is known of them beforehand.

ghost use Rattle.std.specs.Prelude.{◌≡◌, ℕ, List, Option, None, Some, max, take, IfOk, MatchOption};
ghost use Rattle.std.specs.Option.{option_map};
ghost use Rattle.onll_pmem.specs.Pmem.{words_of};
ghost use Rattle.onll_log.specs.Grammar.{Content, content_of, format_in};
ghost use Rattle.std.specs.Cow.{cow_slice_items};
ghost use Rattle.onll_log.specs.Survey.{Surveys, survey_of};
ghost use Rattle.onll_log.specs.Tested.{used_in};

use crate::cursor::LogCursor;
use crate::head::format_of;
use crate::survey::LogSurvey;
use onll_words::Line;
use std::alloc::{AllocError, Global};
use std::borrow::CowSlice;
use std::marker::Model;

/// The image of a log.
pub trait LogImage {
    ghost lines_of: { Self → List (List ℕ) };

    /// A cursor before the first entry, None where the image is no log.
    fn open(&self) -> Option<LogCursor<'_>>
        ensures { let content = content_of (lines_of self.now) in
            MatchOption result (content ≡ None) (λ c. (content ≡ Some c.content) × (c.passed ≡ 0)) };

    /// The format by which it is read.
    fn format(&self) -> u64
        ensures { result ≡ format_in (lines_of self.now) };
}

impl LogImage for Vec<Line> {
    ghost lines_of = { λ v. words_of v.items };

    fn open(&self) -> Option<LogCursor<'_>> {
        LogCursor::open(self.as_slice())
    }

    fn format(&self) -> u64 {
        format_of(self.as_slice())
    }
}

/// What the entries of an image are as a whole, None where it is no log.
fn surveyed(lines: &[Line]) -> Option<LogSurvey>
    ensures { result ≡ option_map survey_of (content_of (words_of lines.now)) }
{
    match LogCursor::open(lines) {
        Some(mut cursor) => Some(cursor.survey()),
        None => None,
    }
}

/// How many lines decide what an image holds of whose entries this is known, None where it is no log.
fn lines_used(survey: Option<LogSurvey>) -> u64
    ensures { (content : Option Content) → survey ≡ option_map survey_of content → result ≡ used_in content }
{
    match survey {
        Some(survey) => survey.lines.max(1),
        None => 0,
    }
}

/// The first of these lines, this many.
fn first_lines<'a>(lines: CowSlice<'a, Line, Global>, count: usize) -> CowSlice<'a, Line, Global>
    ensures { words_of (cow_slice_items result) ≡ take count (words_of (cow_slice_items lines.entry)) }
{
    match lines {
        CowSlice::Borrowed(lines) => {
            let (first, _) = lines.split_at(count.min(lines.len()));
            CowSlice::Borrowed(first)
        }
        CowSlice::Owned(mut lines) => {
            lines.truncate(count);
            lines.shrink_to_fit();
            CowSlice::Owned(lines)
        }
    }
}

/// The lines of an image that is known as a log, so that no cursor over it tests its entries again.
#[derive(Drop)]
pub struct TestedImage<'a> {
    lines: CowSlice<'a, Line, Global>,
    /// What the entries are as a whole, None where the image is no log.
    survey: Option<LogSurvey>,
}

impl<'a> Model for TestedImage<'a> {
    ghost use Rattle.std.specs.Prelude.{List, ℕ};
    ghost use Rattle.std.specs.Cow.{cow_slice_items};
    ghost use Rattle.onll_pmem.specs.Pmem.{words_of};
    ghost use Rattle.onll_log.specs.Survey.{Surveys};

    ghost Value = { List (List ℕ) };

    ghost view = { λ i. words_of (cow_slice_items i.lines) };

    ghost invariant = { λ i. Surveys (words_of (cow_slice_items i.lines)) i.survey };
}

impl<'a> TestedImage<'a> {
    /// The lines that decide what an image holds as a log. Each of its entries is tested once.
    pub fn of_lines(lines: CowSlice<'a, Line, Global>) -> TestedImage<'a>
        ensures { let words = words_of (cow_slice_items lines.entry) in result ≡ take (used_in (content_of words)) words }
    {
        let survey = surveyed(lines.as_slice());
        TestedImage {
            lines: first_lines(lines, lines_used(survey) as usize),
            survey,
        }
    }

    /// These lines, where this is known of all entries.
    pub(crate) fn known(lines: CowSlice<'a, Line, Global>, survey: LogSurvey) -> TestedImage<'a>
        requires { Surveys (words_of (cow_slice_items lines)) (Some survey) }
        ensures { result ≡ words_of (cow_slice_items lines.entry) }
    {
        TestedImage {
            lines,
            survey: Some(survey),
        }
    }

    /// The lines.
    pub fn as_slice(&self) -> &[Line]
        ensures { words_of result.now ≡ self.now }
    {
        self.lines.as_slice()
    }

    /// The lines, of which no more is known then.
    pub fn into_lines(self, alloc: Global) -> Result<Vec<Line>, AllocError>
        ensures { IfOk result (λ lines. words_of lines.items ≡ self.entry) }
    {
        self.lines.into_owned(alloc)
    }
}

impl<'a> LogImage for TestedImage<'a> {
    ghost lines_of = { λ i. i };

    fn open(&self) -> Option<LogCursor<'_>> {
        LogCursor::over(self.lines.as_slice(), self.survey)
    }

    fn format(&self) -> u64 {
        format_of(self.lines.as_slice())
    }
}
