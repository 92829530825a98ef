//! A log's entries seen as a whole.

ghost use Rattle.std.specs.Prelude.{◌≡◌, ◌+◌, ◌-◌, ◌<◌, ◌^◌, ◌∷◌, suc, List, length};
ghost use Rattle.std.specs.Option.{option_or};
ghost use Rattle.onll_model.specs.Segment.{Segment};
ghost use Rattle.onll_log.specs.Survey.{disorder_from, survey_of, with_entry, entries_known};

use crate::cursor::LogCursor;

/// What going over all entries of a log tells of them.
#[derive(Clone, Copy, Debug, PartialEq, Eq)]
pub struct LogSurvey {
    /// How many there are.
    pub entries: u64,
    /// How many lines they take with the head.
    pub lines: u64,
    /// The greatest last place of an entry, 0 where there is none.
    pub top: u64,
    /// The first entry, numbered from 1, that does not begin above the last place of the one before it.
    pub disorder: Option<u64>,
}

impl LogSurvey {
    /// The same with one entry more, of so many nodes, the last of them at this place, which begins above the last one.
    pub(crate) fn with_entry(self, place: u64, count: u64) -> LogSurvey
        requires { (self.entries + 1 < 2 ^ 64) × (self.lines + (1 + count) < 2 ^ 64) }
        ensures { result ≡ with_entry self place count }
    {
        LogSurvey {
            entries: self.entries + 1,
            lines: self.lines + (1 + count),
            top: self.top.max(place),
            disorder: self.disorder,
        }
    }
}

/// How many entries are known to be accepted where this is known of all of them.
pub(crate) fn entries_known(survey: Option<LogSurvey>) -> u64
    ensures { result ≡ entries_known survey }
{
    match survey {
        Some(survey) => survey.entries,
        None => 0,
    }
}

/// The first entry that is out of order among those before and this one, of so many nodes, the last of them at this place, where
/// `before` are before it and the last place of the last of them is `last`.
pub(crate) fn disorder_with(
    disorder: Option<u64>,
    before: u64,
    last: u64,
    place: u64,
    count: u64,
) -> Option<u64>
    requires { before < 2 ^ 64 - 1 }
    ensures { (s : Segment) (more : List Segment) → place ≡ s.place → count ≡ length s.nodes →
        option_or disorder (disorder_from before last (s ∷ more)) ≡ option_or result (disorder_from (suc before) s.place more) }
{
    match disorder {
        Some(_) => disorder,
        None if place < last || place - last < count => Some(before + 1),
        None => None,
    }
}

/// What the entries of a log are as a whole. The cursor goes past all of them.
pub fn go_over(cursor: &mut LogCursor<'_>) -> LogSurvey
    requires { cursor.old.passed ≡ 0 }
    ensures survey { result ≡ survey_of cursor.old.content }
    ensures same { cursor.new.content ≡ cursor.old.content }
{
    let mut last = 0;
    let mut top = 0;
    let mut disorder = None;
    while let Some(entry) = cursor.peek() {
        disorder = disorder_with(disorder, cursor.passed(), last, entry.place, entry.count);
        cursor.advance();
        last = entry.place;
        top = entry.place.max(top);
    }
    LogSurvey {
        entries: cursor.passed(),
        lines: cursor.used(),
        top,
        disorder,
    }
}
