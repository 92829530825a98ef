//! The command `audit`: a printed report of a run is judged, and nothing is run.

ghost use Rattle.std.specs.Prelude.{◌≡◌, [], ◌∷◌, codes, decimal, map, string_bytes, IfOk, MatchResult, Ok};
ghost use Rattle.onll_words.specs.Texts.{line_text, IsWord};
ghost use Rattle.onll_outside.specs.Views.{StoreView};
ghost use Rattle.onll_text.specs.Kinds.{kind_by};
ghost use Rattle.onll_audit.specs.Values.{IsFault};
ghost use Rattle.onll_task.specs.Doing.{Fulfils, DoesStage, text_stage};
ghost use Rattle.onll_task.specs.Stop.{StopSays};
ghost use Rattle.onll_jobs.specs.AuditJob.{verdict_within, judged_of, wrong_line, verdict_task, report_judged_task, audit_task};

use onll_audit::{AuditFault, Verdict, Why, audit};
use onll_model::Call;
use onll_outside::Store;
use onll_task::{Ending, Stop, read_bytes, script_files};
use onll_text::{Piece, Reason, Report, Texted};
use onll_words::NoMemory;
use std::alloc::Global;

/// The greatest length of a report, in bytes.
const LONGEST_REPORT: usize = 67_108_864;

/// The verdict on a text; one that is too long is refused with line 0.
fn judge<O: Texted + Drop>(
    alloc: Global,
    object: O,
    scripts: &[Vec<Call<O>>],
    text: &[u8],
) -> Result<Verdict, AuditFault>
    ensures { let k = kind_by O.means O.wording O.CODE in
        let read = verdict_within k object (map (λ script. script.items) scripts.now) text.now in
        MatchResult result (λ verdict. read ≡ Ok verdict) (λ fault. IsFault fault read) }
{
    if text.len() > LONGEST_REPORT {
        return Err(AuditFault::Refused { line: 0 });
    }
    audit(alloc, object, scripts, text)
}

/// The verdict on the report that a file holds. It stops where the file can't be read, and with the first line that is of no form.
fn judge_file<O: Texted + Drop, S: Store>(
    alloc: Global,
    object: O,
    scripts: &[Vec<Call<O>>],
    report: &str,
    store: &mut S,
) -> Result<Verdict, Stop>
    ensures { let k = kind_by O.means O.wording O.CODE in
        let stage = text_stage report.now (judged_of k object (map (λ script. script.items) scripts.now)) in
        DoesStage [] (S.seen store.old) (S.seen store.new) stage (λ verdict. verdict) result }
{
    let text = match read_bytes(alloc, report, LONGEST_REPORT as u64 + 1, store) {
        Ok(text) => text,
        Err(stop) => return Err(stop),
    };
    match judge(alloc, object, scripts, &text) {
        Ok(verdict) => Ok(verdict),
        Err(AuditFault::Refused { line }) => {
            Err(Stop::refused(alloc, report, line, Reason::BadLine))
        }
        Err(AuditFault::NoMemory) => Err(Stop::NoMemory),
    }
}

/// What is said where this is wrong in a line.
fn wrong_part(alloc: Global, line: u64, what: &[u8]) -> Stop
    requires { IsWord what.now }
    ensures { StopSays result (λ end said. (end ≡ Ending.Judged)
        × (said ≡ line_text (codes "line" ∷ decimal line ∷ codes "wrong" ∷ what.now ∷ []))) }
{
    let said = [
        Piece::Text(b"line"),
        Piece::Number(line),
        Piece::Text(b"wrong"),
        Piece::Text(what),
    ];
    Stop::says_line(alloc, Ending::Judged, &said)
}

/// What is said where a line is not the script.
fn not_the_script(alloc: Global, line: u64) -> Stop
    ensures { StopSays result (λ end said. (end ≡ Ending.Judged)
        × (said ≡ line_text (codes "line" ∷ decimal line ∷ codes "not" ∷ codes "the" ∷ codes "script" ∷ []))) }
{
    let said = [
        Piece::Text(b"line"),
        Piece::Number(line),
        Piece::Text(b"not"),
        Piece::Text(b"the"),
        Piece::Text(b"script"),
    ];
    Stop::says_line(alloc, Ending::Judged, &said)
}

/// What is said of a wrong report.
fn wrong(alloc: Global, line: u64, why: Why) -> Stop
    ensures { StopSays result (λ end said. (end ≡ Ending.Judged) × (said ≡ line_text (wrong_line line why))) }
{
    match why {
        Why::Script => not_the_script(alloc, line),
        Why::Outcome => wrong_part(alloc, line, b"outcome"),
        Why::Place => wrong_part(alloc, line, b"place"),
        Why::Reply => wrong_part(alloc, line, b"reply"),
        Why::Node => wrong_part(alloc, line, b"node"),
        Why::State => wrong_part(alloc, line, b"state"),
    }
}

/// What is said of a legal report.
fn legal(alloc: Global) -> Result<Vec<u8>, NoMemory>
    ensures { IfOk result (λ text. text.items ≡ line_text (codes "legal" ∷ [])) }
{
    let mut out = Report::new(alloc);
    out.line(&[Piece::Text(b"legal")])?;
    Ok(out.into_bytes())
}

/// What is said of a verdict.
fn said(alloc: Global, verdict: Verdict) -> Result<Vec<u8>, Stop>
    ensures { (store : StoreView) → Fulfils [] store store (verdict_task verdict) result }
{
    match verdict {
        Verdict::Legal => Ok(legal(alloc)?),
        Verdict::Wrong { line, why } => Err(wrong(alloc, line, why)),
    }
}

/// Judges the report that a file holds, and says what it is.
fn audit_file<O: Texted + Drop, S: Store>(
    alloc: Global,
    object: O,
    scripts: &[Vec<Call<O>>],
    report: &str,
    store: &mut S,
) -> Result<Vec<u8>, Stop>
    ensures { let k = kind_by O.means O.wording O.CODE in
        let task = report_judged_task k object report.now (map (λ script. script.items) scripts.now) in
        Fulfils [] (S.seen store.old) (S.seen store.new) task result }
{
    match judge_file(alloc, object, scripts, report, store) {
        Ok(verdict) => said(alloc, verdict),
        Err(stop) => Err(stop),
    }
}

/// Judges the report that a file holds, of a run of these scripts over an object.
pub(crate) fn audit_on<O: Texted + Drop, S: Store>(
    alloc: Global,
    object: O,
    report: &str,
    scripts: &[String],
    store: &mut S,
) -> Result<Vec<u8>, Stop>
    ensures { let task = audit_task (kind_by O.means O.wording O.CODE) report.now (map string_bytes scripts.now) object in
        Fulfils [] (S.seen store.old) (S.seen store.new) task result }
{
    match script_files::<O, S>(alloc, scripts, store) {
        Ok(calls) => audit_file(alloc, object, &calls, report, store),
        Err(stop) => Err(stop),
    }
}
