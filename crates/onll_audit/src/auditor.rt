//! The audit of a report.

ghost use Rattle.std.specs.Prelude.{◌≡◌, ◌<◌, ◌≤◌, ◌+◌, ◌^◌, ◌↔◌, Ok, length, map, IfOk, MatchResult};
ghost use Rattle.std.specs.List.{flat_map};
ghost use Rattle.std.specs.Str.{bytes_eq};
ghost use Rattle.onll_words.specs.Texts.{line_text};
ghost use Rattle.onll_model.specs.Trace.{state_after};
ghost use Rattle.onll_audit.specs.declared.verdict.Verdict.TheVariants.{Legal};
ghost use Rattle.onll_audit.specs.Values.{as_groups, as_form, as_judged, as_wrong, IsFault, EachReadWith};
ghost use Rattle.onll_audit.specs.Verdict.{total_lines, calls_wrong, all_rows, wrong_in, verdict_of};
ghost use Rattle.onll_audit.specs.Legality.{IsLegalReport};

use crate::fields::is_text;
use crate::groups::CallLine;
use crate::judge::{Wrong, thread_wrong};
use crate::read::{ReportForm, read_form};
use crate::replica::{Evidence, apply_all};
use crate::trace::{group_at, nodes_wrong, script_at, thread_places};
use crate::verdict::{AuditFault, Verdict, Why};
use onll_model::Call;
use onll_text::{Report, Texted};
use onll_words::{NoMemory, OpRow};
use std::alloc::Global;

/// The rows of each thread's updates with a place, or the least wrong line of calls.
#[tactic(auto, using(crate::proofs::Calling::calling, crate::proofs::Rows::all_saying))]
fn calls_wrong<O: Texted + Drop>(
    alloc: Global,
    first: &O,
    scripts: &[Vec<Call<O>>],
    form: &ReportForm<'_>,
) -> Result<Result<Vec<Vec<OpRow>>, Wrong>, NoMemory>
    requires few { total_lines (as_groups form.now.calls.items) + 1 < 2 ^ 64 }
    requires read { EachReadWith O.wording (map (λ s. s.items) scripts.now) (map (λ own. own.items) form.now.calls.items) }
    ensures wrong { IfOk result (λ judged. as_judged judged ≡ calls_wrong O.means O.wording first.now form.now.nodes.items 0 1
        (map (λ s. s.items) scripts.now) (as_groups form.now.calls.items)) }
    ensures rows { IfOk result (λ judged. IfOk judged (λ rows. map (λ own. own.items) rows.items
        ≡ all_rows O.means O.wording 0 (map (λ s. s.items) scripts.now) (as_groups form.now.calls.items))) }
{
    let mut rows = Vec::new(alloc);
    let mut number = 1u64;
    for i in 0..scripts.len().min(form.calls.len()) {
        let thread = i as u64;
        let lines = group_at(&form.calls, i);
        let places = thread_places(alloc, thread, &form.nodes)?;
        let evidence = Evidence {
            first,
            nodes: &form.nodes,
            thread,
            places: &places,
        };
        match thread_wrong(alloc, &evidence, number, script_at(scripts, i), lines)? {
            Ok(own) => rows.push(own)?,
            Err(wrong) => return Ok(Err(wrong)),
        }
        number += lines.len() as u64;
    }
    Ok(Ok(rows))
}

/// How many lines there are in all groups.
#[tactic(auto, using(crate::proofs::Calling::calling))]
fn count_lines(groups: &[Vec<CallLine<'_>>]) -> u64
    requires { total_lines (as_groups groups.now) < 2 ^ 64 }
    ensures { result ≡ total_lines (as_groups groups.now) }
{
    let mut count = 0u64;
    for i in 0..groups.len() {
        count += group_at(groups, i).len() as u64;
    }
    count
}

/// The state after the trace, as it is printed.
fn state_text<O: Texted + Drop>(
    alloc: Global,
    mut object: O,
    form: &ReportForm<'_>,
) -> Result<Report, NoMemory>
    ensures { IfOk result (λ text. text
        ≡ flat_map line_text (O.wording.state_lines (state_after O.means object form.now.nodes.items))) }
{
    apply_all(&mut object, &form.nodes);
    let mut out = Report::new(alloc);
    object.put_state(&mut out)?;
    Ok(out)
}

/// Whether the text after the line `state` is that of the state after the trace.
fn state_right<O: Texted + Drop>(
    alloc: Global,
    object: O,
    form: &ReportForm<'_>,
) -> Result<bool, NoMemory>
    ensures { IfOk result (λ right. right
        ≡ bytes_eq form.now.state.now (flat_map line_text (O.wording.state_lines (state_after O.means object form.now.nodes.items)))) }
{
    let state = state_text(alloc, object, form)?;
    Ok(is_text(form.state, state.bytes()))
}

/// The least wrong line of a report of the form.
fn wrong_line<O: Texted + Drop>(
    alloc: Global,
    object: O,
    scripts: &[Vec<Call<O>>],
    form: ReportForm<'_>,
) -> Result<Option<Wrong>, NoMemory>
    requires few { total_lines (as_groups form.calls.items) + length form.nodes.items + 2 ≤ form.state_line }
    requires read { EachReadWith O.wording (map (λ s. s.items) scripts.now) (map (λ own. own.items) form.calls.items) }
    ensures { IfOk result (λ wrong. as_wrong wrong
        ≡ wrong_in O.means O.wording object (map (λ s. s.items) scripts.now) (as_form form.entry)) }
{
    let rows = match calls_wrong(alloc, &object, scripts, &form)? {
        Ok(rows) => rows,
        Err(wrong) => return Ok(Some(wrong)),
    };
    let number = count_lines(&form.calls) + 2;
    if let Some(wrong) = nodes_wrong(alloc, number, &rows, &form.nodes)? {
        return Ok(Some(wrong));
    }
    if state_right(alloc, object, &form)? {
        return Ok(None);
    }
    Ok(Some(Wrong {
        line: form.state_line,
        why: Why::State,
    }))
}

/// The verdict on a report.
#[tactic(auto, using(crate::proofs::Judged::judged))]
fn verdict<O: Texted + Drop>(
    alloc: Global,
    object: O,
    scripts: &[Vec<Call<O>>],
    report: &[u8],
) -> Result<Verdict, AuditFault>
    ensures { let read = verdict_of O.means O.wording object (map (λ s. s.items) scripts.now) report.now in
        MatchResult result (λ verdict. read ≡ Ok verdict) (λ fault. IsFault fault read) }
{
    let form = match read_form(alloc, scripts, report) {
        Ok(form) => form,
        Err(fault) => return Err(fault),
    };
    match wrong_line(alloc, object, scripts, form)? {
        Some(Wrong { line, why }) => Ok(Verdict::Wrong { line, why }),
        None => Ok(Verdict::Legal),
    }
}

/// Judges a report of `run` of these scripts on this object, one script a thread, the object as it was before. It is legal exactly
/// where all that it says is one history of the object; else its least wrong line is named, with the first reason. Refused is what
/// is no such report, by its first line that is none.
#[tactic(auto, using(crate::proofs::Judged::legality))]
pub fn audit<O: Texted + Drop>(
    alloc: Global,
    object: O,
    scripts: &[Vec<Call<O>>],
    report: &[u8],
) -> Result<Verdict, AuditFault>
    ensures verdict { let read = verdict_of O.means O.wording object (map (λ s. s.items) scripts.now) report.now in
        MatchResult result (λ verdict. read ≡ Ok verdict) (λ fault. IsFault fault read) }
    ensures legal { IfOk result (λ verdict. (verdict ≡ Legal)
        ↔ IsLegalReport O.means O.wording object (map (λ s. s.items) scripts.now) report.now) }
{
    verdict(alloc, object, scripts, report)
}
