//! The reading of a whole report.

ghost use Rattle.std.specs.Prelude.{◌≡◌, ◌<◌, ◌≤◌, ◌+◌, ◌^◌, Ok, Err, length, map, IfOk, IfSome, MatchOption, MatchResult};
ghost use Rattle.onll_audit.specs.Form.{one_line, line_that, trace_said, node_said, node_run, is_log_line, log_run, is_recovered_line, fault_run, is_state_line, call_groups, rest_of, report_form};
ghost use Rattle.onll_audit.specs.Values.{as_left, as_groups, as_form, IsFault, EachReadWith};

use crate::fields::is_text;
use crate::form::{fault_said, log_said, node_said, recovered_said, trace_said};
use crate::groups::{CallLine, read_group};
use crate::lines::LinesLeft;
use crate::trace::script_at;
use crate::verdict::AuditFault;
use onll_model::{Call, Node};
use onll_text::{Report, Texted};
use onll_words::NoMemory;
use std::alloc::Global;

/// A number that a line says, and the lines after it.
#[derive(Clone, Copy, Debug)]
struct Counted<'a> {
    count: u64,
    after: LinesLeft<'a>,
}

/// The number of nodes.
#[tactic(auto, using(crate::proofs::Running::single))]
fn read_trace<'a>(left: LinesLeft<'a>) -> Option<Counted<'a>>
    requires { left.number + length left.rest.now < 2 ^ 64 }
    ensures line { let all = as_left left.entry in
        MatchOption result (one_line trace_said all ≡ Err all.number) (λ c. one_line trace_said all ≡ Ok (c.count, as_left c.after)) }
    ensures within { IfSome result (λ c. c.after.number + length c.after.rest.now ≤ left.entry.number + length left.entry.rest.now) }
{
    let next = left.next()?;
    let count = trace_said(next.line)?;
    Some(Counted {
        count,
        after: next.after,
    })
}

/// The lines after that of the number of recovered nodes.
#[tactic(auto, using(crate::proofs::Running::single))]
fn read_recovered<'a>(left: LinesLeft<'a>) -> Option<LinesLeft<'a>>
    requires { left.number + length left.rest.now < 2 ^ 64 }
    ensures line { let read = line_that is_recovered_line (as_left left.entry) in
        MatchOption result (read ≡ Err left.entry.number) (λ after. read ≡ Ok (as_left after)) }
    ensures within { IfSome result (λ after. after.number + length after.rest.now ≤ left.entry.number + length left.entry.rest.now) }
{
    let next = left.next()?;
    recovered_said(next.line)?;
    Some(next.after)
}

/// The lines after the line `state`.
#[tactic(auto, using(crate::proofs::Running::single))]
fn read_state<'a>(left: LinesLeft<'a>) -> Option<LinesLeft<'a>>
    requires { left.number + length left.rest.now < 2 ^ 64 }
    ensures { let read = line_that is_state_line (as_left left.entry) in
        MatchOption result (read ≡ Err left.entry.number) (λ after. read ≡ Ok (as_left after)) }
{
    let next = left.next()?;
    if is_text(next.line, b"state") {
        Some(next.after)
    } else {
        None
    }
}

/// The nodes of a report, and the lines after them.
#[derive(Drop)]
struct NodesRead<'a> {
    nodes: Vec<Node>,
    after: LinesLeft<'a>,
}

/// What the line of a node says, and the lines after it.
#[derive(Clone, Copy, Debug)]
struct NodeRead<'a> {
    node: Node,
    after: LinesLeft<'a>,
}

/// The node of the next line, at this place.
#[tactic(auto, using(crate::proofs::Running::single))]
fn read_node<'a, O: Texted>(
    room: &mut Report,
    place: u64,
    left: LinesLeft<'a>,
) -> Result<NodeRead<'a>, AuditFault>
    requires { left.number + length left.rest.now < 2 ^ 64 }
    ensures line { let read = one_line (node_said O.means O.wording place) (as_left left.entry) in
        MatchResult result (λ n. read ≡ Ok (n.node, as_left n.after)) (λ fault. IsFault fault read) }
    ensures within { IfOk result (λ n. n.after.number + length n.after.rest.now ≤ left.entry.number + length left.entry.rest.now) }
{
    let Some(next) = left.next() else {
        return Err(AuditFault::Refused { line: left.number });
    };
    match node_said::<O>(room, place, next.line)? {
        Some(node) => Ok(NodeRead {
            node,
            after: next.after,
        }),
        None => Err(AuditFault::Refused { line: left.number }),
    }
}

/// The nodes of so many lines.
#[tactic(auto, using(crate::proofs::Running::nodes_running))]
fn read_nodes<'a, O: Texted>(
    alloc: Global,
    room: &mut Report,
    count: u64,
    lines: LinesLeft<'a>,
) -> Result<NodesRead<'a>, AuditFault>
    requires { lines.number + length lines.rest.now < 2 ^ 64 }
    ensures nodes { let read = node_run O.means O.wording 0 count (as_left lines.entry) in
        MatchResult result (λ n. read ≡ Ok (n.nodes.items, as_left n.after)) (λ fault. IsFault fault read) }
    ensures within { IfOk result (λ n. n.after.number + length n.after.rest.now ≤ lines.entry.number + length lines.entry.rest.now) }
{
    let mut left = lines;
    let mut nodes = Vec::new(alloc);
    for place in 0..count {
        match read_node::<O>(room, place + 1, left) {
            Ok(read) => {
                nodes.push(read.node)?;
                left = read.after;
            }
            Err(fault) => return Err(fault),
        }
    }
    Ok(NodesRead { nodes, after: left })
}

/// The lines after that of a thread's log.
#[tactic(auto, using(crate::proofs::Running::single))]
fn read_log<'a>(thread: u64, left: LinesLeft<'a>) -> Option<LinesLeft<'a>>
    requires { left.number + length left.rest.now < 2 ^ 64 }
    ensures line { let read = line_that (is_log_line thread) (as_left left.entry) in
        MatchOption result (read ≡ Err left.entry.number) (λ after. read ≡ Ok (as_left after)) }
    ensures within { IfSome result (λ after. after.number + length after.rest.now ≤ left.entry.number + length left.entry.rest.now) }
{
    let next = left.next()?;
    log_said(thread, next.line)?;
    Some(next.after)
}

/// The lines after those of the logs of so many threads.
#[tactic(auto, using(crate::proofs::Running::logs_running))]
fn read_logs<'a>(threads: u64, lines: LinesLeft<'a>) -> Result<LinesLeft<'a>, AuditFault>
    requires { lines.number + length lines.rest.now < 2 ^ 64 }
    ensures logs { let read = log_run 0 threads (as_left lines.entry) in
        MatchResult result (λ after. read ≡ Ok (as_left after)) (λ fault. IsFault fault read) }
    ensures within { IfOk result (λ after. after.number + length after.rest.now ≤ lines.entry.number + length lines.entry.rest.now) }
{
    let mut left = lines;
    for thread in 0..threads {
        match read_log(thread, left) {
            Some(after) => left = after,
            None => return Err(AuditFault::Refused { line: left.number }),
        }
    }
    Ok(left)
}

/// The lines after the lines of faults.
#[tactic(auto, using(crate::proofs::Running::faults_running))]
fn read_faults<'a>(threads: u64, lines: LinesLeft<'a>) -> LinesLeft<'a>
    requires { lines.number + length lines.rest.now < 2 ^ 64 }
    ensures faults { as_left result ≡ fault_run threads 0 lines.entry.number (as_left lines.entry).parts }
    ensures within { result.number + length result.rest.now ≤ lines.entry.number + length lines.entry.rest.now }
{
    let mut left = lines;
    let mut least = 0;
    while let Some(next) = left.next() {
        match fault_said(least, threads, next.line) {
            Some(thread) => {
                least = thread + 1;
                left = next.after;
            }
            None => break,
        }
    }
    left
}

/// What a report of the form says that is judged.
#[derive(Drop)]
pub(crate) struct ReportForm<'a> {
    /// The lines of the calls of each thread.
    pub calls: Vec<Vec<CallLine<'a>>>,
    pub nodes: Vec<Node>,
    /// The number of the line `state`.
    pub state_line: u64,
    /// The text after it.
    pub state: &'a [u8],
}

/// The lines after those of calls.
#[tactic(auto, using(crate::proofs::Splitting::joining))]
fn read_rest<'a, O: Texted>(
    alloc: Global,
    room: &mut Report,
    threads: u64,
    calls: Vec<Vec<CallLine<'a>>>,
    lines: LinesLeft<'a>,
) -> Result<ReportForm<'a>, AuditFault>
    requires { lines.number + length lines.rest.now < 2 ^ 64 }
    ensures calls { IfOk result (λ f. f.calls.items ≡ calls.entry.items) }
    ensures form { let read = rest_of O.means O.wording threads (as_groups calls.entry.items) (as_left lines.entry) in
        MatchResult result (λ f. read ≡ Ok (as_form f)) (λ fault. IsFault fault read) }
{
    let Some(count) = read_trace(lines) else {
        return Err(AuditFault::Refused { line: lines.number });
    };
    let nodes = match read_nodes::<O>(alloc, room, count.count, count.after) {
        Ok(nodes) => nodes,
        Err(fault) => return Err(fault),
    };
    let logs = match read_logs(threads, nodes.after) {
        Ok(logs) => logs,
        Err(fault) => return Err(fault),
    };
    let Some(recovered) = read_recovered(logs) else {
        return Err(AuditFault::Refused { line: logs.number });
    };
    let faults = read_faults(threads, recovered);
    let Some(after) = read_state(faults) else {
        return Err(AuditFault::Refused {
            line: faults.number,
        });
    };
    Ok(ReportForm {
        calls,
        nodes: nodes.nodes,
        state_line: faults.number,
        state: after.rest,
    })
}

/// The lines of the calls of all threads, and those after them.
#[derive(Drop)]
struct Groups<'a> {
    calls: Vec<Vec<CallLine<'a>>>,
    after: LinesLeft<'a>,
}

/// The lines of the calls of each thread, beside its script.
#[tactic(auto, using(crate::proofs::Running::groups_running))]
fn read_groups<'a, O: Texted>(
    alloc: Global,
    room: &mut Report,
    scripts: &[Vec<Call<O>>],
    lines: LinesLeft<'a>,
) -> Result<Groups<'a>, NoMemory>
    requires { lines.number + length lines.rest.now < 2 ^ 64 }
    ensures groups { IfOk result (λ g. call_groups O.wording 0 (length scripts.now) (as_left lines.entry)
        ≡ (as_groups g.calls.items, as_left g.after)) }
    ensures read { IfOk result (λ g. EachReadWith O.wording (map (λ s. s.items) scripts.now) (map (λ own. own.items) g.calls.items)) }
    ensures within { IfOk result (λ g. g.after.number + length g.after.rest.now ≤ lines.entry.number + length lines.entry.rest.now) }
{
    let mut left = lines;
    let mut calls = Vec::new(alloc);
    for i in 0..scripts.len() {
        let group = read_group(alloc, room, i as u64, script_at(scripts, i), left)?;
        calls.push(group.lines)?;
        left = group.after;
    }
    Ok(Groups { calls, after: left })
}

/// What a report says that is judged, for so many threads, or its first line that is none of the form. The lines of calls are read
/// beside the scripts.
pub(crate) fn read_form<'a, O: Texted>(
    alloc: Global,
    scripts: &[Vec<Call<O>>],
    text: &'a [u8],
) -> Result<ReportForm<'a>, AuditFault>
    ensures form { let read = report_form O.means O.wording (length scripts.now) text.now in
        MatchResult result (λ f. read ≡ Ok (as_form f)) (λ fault. IsFault fault read) }
    ensures read { IfOk result (λ f. EachReadWith O.wording (map (λ s. s.items) scripts.now) (map (λ own. own.items) f.calls.items)) }
{
    let mut room = Report::new(alloc);
    let threads = scripts.len() as u64;
    let groups = read_groups(alloc, &mut room, scripts, LinesLeft::of(text))?;
    read_rest::<O>(alloc, &mut room, threads, groups.calls, groups.after)
}
