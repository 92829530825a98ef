//! The first pass over images: whether each is a log of this run whose entries rise, and how much it holds.

ghost use Rattle.std.specs.Prelude.{◌≡◌, ◌⊎◌, length, map, Ok, Err, Some, None, IfOk, OnOk, MatchResult};
ghost use Rattle.std.specs.Option.{option_or};
ghost use Rattle.std.specs.List.{AllByRecursion};
ghost use Rattle.onll_model.specs.Segment.{Rises};
ghost use Rattle.onll_log.specs.Cursor.{before_all};
ghost use Rattle.onll_log.specs.Survey.{top_in_log};
ghost use Rattle.onll_merge.specs.Merge.{AllRise, foreign, disorder_in, disorder, top_of};
ghost use Rattle.onll_merge.specs.Recovered.{contents_from, log_counts};
ghost use Rattle.onll_merge.specs.Standing.{contents_under};
ghost use Rattle.onll_merge.specs.declared.fault.RecoverFault.TheVariants.{NoMemory as OutOfMemory};
ghost use Rattle.onll_merge.specs.declared.fault.ImagesFault.TheVariants.{Recover};

use crate::counts::LogCounts;
use crate::fault::{ImagesFault, RecoverFault};
use crate::logs::fits;
use onll_log::{LogCursor, LogHead, LogImage};
use std::alloc::Global;

/// What one log holds, and its greatest last place, 0 where there is no entry.
#[derive(Clone, Copy)]
struct Measured {
    counts: LogCounts,
    top: u64,
}

/// How much each log holds, and the greatest last place of all entries, 0 where there is none.
#[derive(Drop)]
pub struct Survey {
    pub logs: Vec<LogCounts>,
    pub top: u64,
}

/// A cursor over each image, in order. It refuses the first that is no log.
pub fn open_all<I: LogImage>(alloc: Global, images: &[I]) -> Result<Vec<LogCursor<'_>>, ImagesFault>
    ensures logs { let held = contents_from 0 (map I.lines_of images.now) in
        MatchResult result (λ cursors. held ≡ Ok (contents_under cursors.items)) (λ e. (e ≡ Recover OutOfMemory) ⊎ (held ≡ Err e)) }
    ensures first { IfOk result (λ cursors. AllByRecursion (λ c. c.passed ≡ 0) cursors.items) }
    ensures count { IfOk result (λ cursors. length cursors.items ≡ length images.now) }
{
    let mut cursors = Vec::new(alloc);
    for (log, image) in images.iter().enumerate() {
        match image.open() {
            Some(cursor) => cursors.push(cursor)?,
            None => return Err(ImagesFault::NotLog { log: log as u64 }),
        }
    }
    Ok(cursors)
}

/// Whether each head that a log has is its expected one.
fn check_heads(cursors: &[LogCursor<'_>], heads: &[LogHead]) -> Result<(), RecoverFault>
    requires { length heads.now ≡ length cursors.now }
    ensures { let logs = contents_under cursors.now in
        MatchResult result (λ _. foreign 0 logs heads.now ≡ None) (λ e. foreign 0 logs heads.now ≡ Some e) }
{
    for (log, cursor) in cursors.iter().enumerate() {
        if !fits(cursor.head(), heads[log]) {
            return Err(RecoverFault::NotThisRun { log: log as u64 });
        }
    }
    Ok(())
}

/// What a log holds whose entries rise. It refuses the first entry that does not begin above the one before it. The cursor ends
/// where it began, before the first entry.
fn measure(log: u64, cursor: &mut LogCursor<'_>) -> Result<Measured, RecoverFault>
    requires { cursor.old.passed ≡ 0 }
    ensures order { let found = disorder_in log cursor.old.content.entries in
        MatchResult result (λ _. found ≡ None) (λ e. found ≡ Some e) }
    ensures rises { OnOk result (Rises 0 cursor.old.content.entries) }
    ensures counts { IfOk result (λ m. m.counts ≡ log_counts cursor.old.content) }
    ensures top { IfOk result (λ m. m.top ≡ top_in_log cursor.old.content.entries) }
    ensures again { OnOk result (cursor.new ≡ before_all cursor.old) }
{
    let survey = cursor.survey();
    if let Some(entry) = survey.disorder {
        return Err(RecoverFault::Disorder { log, entry });
    }
    let counts = LogCounts {
        head: cursor.head().is_some(),
        entries: survey.entries,
        lines: survey.lines,
    };
    Ok(Measured {
        counts,
        top: survey.top,
    })
}

/// What logs hold whose entries rise. It refuses the first entry of the first log that is out of order. The cursors end where they
/// began.
fn measure_all(alloc: Global, cursors: &mut [LogCursor<'_>]) -> Result<Survey, RecoverFault>
    requires { AllByRecursion (λ c. c.passed ≡ 0) cursors.old }
    ensures order { let found = disorder 0 (contents_under cursors.old) in
        MatchResult result (λ _. found ≡ None) (λ e. (e ≡ OutOfMemory) ⊎ (found ≡ Some e)) }
    ensures rise { OnOk result (AllRise (contents_under cursors.old)) }
    ensures counts { IfOk result (λ s. s.logs.items ≡ map log_counts (contents_under cursors.old)) }
    ensures top { IfOk result (λ s. s.top ≡ top_of (contents_under cursors.old)) }
    ensures same { OnOk result (contents_under cursors.new ≡ contents_under cursors.old) }
    ensures first { OnOk result (AllByRecursion (λ c. c.passed ≡ 0) cursors.new) }
{
    let mut logs = Vec::new(alloc);
    let mut top = 0;
    for log in 0..cursors.len() {
        let found = measure(log as u64, &mut cursors[log])?;
        top = found.top.max(top);
        logs.push(found.counts)?;
    }
    Ok(Survey { logs, top })
}

/// What logs of one run with these heads hold. It refuses a head that is not the expected one, and then entries out of order. The
/// cursors end where they began.
pub fn survey_logs(
    alloc: Global,
    cursors: &mut [LogCursor<'_>],
    heads: &[LogHead],
) -> Result<Survey, RecoverFault>
    requires heads { length heads.now ≡ length cursors.old }
    requires first { AllByRecursion (λ c. c.passed ≡ 0) cursors.old }
    ensures refused { let logs = contents_under cursors.old in let found = option_or (foreign 0 logs heads.now) (disorder 0 logs) in
        MatchResult result (λ _. found ≡ None) (λ e. (e ≡ OutOfMemory) ⊎ (found ≡ Some e)) }
    ensures rise { OnOk result (AllRise (contents_under cursors.old)) }
    ensures counts { IfOk result (λ s. s.logs.items ≡ map log_counts (contents_under cursors.old)) }
    ensures top { IfOk result (λ s. s.top ≡ top_of (contents_under cursors.old)) }
    ensures same { OnOk result (contents_under cursors.new ≡ contents_under cursors.old) }
    ensures first { OnOk result (AllByRecursion (λ c. c.passed ≡ 0) cursors.new) }
{
    check_heads(cursors, heads)?;
    measure_all(alloc, cursors)
}
