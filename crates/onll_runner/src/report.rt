//! The report of a run: how many nodes it went on from, what became of each call, the trace, the logs, failed fences, and the last state.

ghost use Rattle.std.specs.Prelude.{◌≡◌, ◌≤◌, ◌<◌, ◌^◌, ◌++◌, ◌∷◌, true, length, map, IfOk, IfSome, OnOk, All, IsSome, Some};
ghost use Rattle.std.specs.List.{AllByRecursion};
ghost use Rattle.onll_model.specs.Trace.{state_after};
ghost use Rattle.onll_merge.specs.Recovered.{log_counts};
ghost use Rattle.onll_run.specs.Outcomes.{failed_in};
ghost use Rattle.onll_run.specs.Left.{AllOver, content_in};
ghost use Rattle.onll_run.specs.Ended.{log_left};
ghost use Rattle.onll_run.specs.Ran.{left_in, script_in, ends_in, node_in, flag_in};
ghost use Rattle.onll_text.specs.Bytes.{begins_line, with_lines};
ghost use Rattle.onll_text.specs.Lines.{call_lines, trace_line, state_lines, thread_lines, flagged_lines, counted_lines, recovered_line};
ghost use Rattle.onll_text.specs.Reports.{EndsRead, NodeReads, StateReads, LogReads, EachReads};
ghost use Rattle.onll_task.specs.RunSaid.{resumed_lines, RunReads, log_data, run_data};
ghost use Rattle.onll_outside.specs.LineFiles.{IsWholeLine};
ghost use Rattle.onll_runner.specs.RunReport.{faults_at, fault_lines, run_report};
ghost use Rattle.onll_task.specs.RunLogs.{RanOver};

use onll_log::{LogHead, ThreadLog};
use onll_merge::{AppliedLogs, LogCounts};
use onll_model::{Call, CallEnd, Object};
use onll_pmem::Pmem;
use onll_run::{DoneScript, RunOutcome};
use onll_task::{put_count, put_resumed, recover_logs};
use onll_text::{Piece, Report, Texted};
use onll_trace::Ended;
use onll_words::NoMemory;
use std::alloc::Global;

/// Appends the line of each call of a thread.
fn put_ends<O: Texted>(
    thread: u64,
    script: &[Call<O>],
    ends: &[CallEnd<O>],
    out: &mut Report,
) -> Result<(), NoMemory>
    requires begins { begins_line out.old ≡ true }
    requires over { length ends.now ≡ length script.now }
    ensures lines { OnOk result (out.new ≡ with_lines out.old (call_lines O.wording thread 0 script.now ends.now)) }
    ensures begins { OnOk result (begins_line out.new ≡ true) }
    ensures reads { OnOk result (EndsRead O.wording script.now ends.now) }
{
    for (index, call) in script.iter().enumerate() {
        out.call_line(thread, index as u64 + 1, call, &ends[index])?;
    }
    Ok(())
}

/// Appends the lines of the calls of each thread.
fn put_threads<O: Texted>(threads: &[DoneScript<O>], out: &mut Report) -> Result<(), NoMemory>
    requires begins { begins_line out.old ≡ true }
    requires over { AllOver (map script_in threads.now) (map ends_in threads.now) }
    ensures lines { OnOk result (out.new
        ≡ with_lines out.old (thread_lines O.wording 0 (map script_in threads.now) (map ends_in threads.now))) }
    ensures begins { OnOk result (begins_line out.new ≡ true) }
    ensures reads { OnOk result (EachReads O.wording (map script_in threads.now) (map ends_in threads.now)) }
    ensures few { OnOk result (length threads.now ≤ 2 ^ 64) }
{
    for (thread, done) in threads.iter().enumerate() {
        put_ends(thread as u64, &done.script, &done.ends, out)?;
    }
    Ok(())
}

/// Appends the line of each node, with its flag.
fn put_nodes<O: Texted>(trace: &[Ended], out: &mut Report) -> Result<(), NoMemory>
    requires begins { begins_line out.old ≡ true }
    requires operations { AllByRecursion (λ n. IsSome (O.means.op_at n.row)) (map node_in trace.now) }
    ensures lines { OnOk result (out.new
        ≡ with_lines out.old (flagged_lines O.means O.wording 0 (map node_in trace.now) (map flag_in trace.now))) }
    ensures begins { OnOk result (begins_line out.new ≡ true) }
    ensures reads { OnOk result (All (NodeReads O.means O.wording) (map node_in trace.now)) }
{
    for (index, end) in trace.iter().enumerate() {
        out.node_line::<O>(index as u64 + 1, end.node, Some(end.flag))?;
    }
    Ok(())
}

/// Appends the line of each thread's log: what its device holds, and its fences after the header's.
fn put_logs<P: Pmem>(
    counts: &[LogCounts],
    logs: &[ThreadLog<P>],
    out: &mut Report,
) -> Result<(), NoMemory>
    requires begins { begins_line out.old ≡ true }
    requires counts { counts.now ≡ map log_counts (map content_in (map (log_left P.means) logs.now)) }
    ensures lines { OnOk result (out.new ≡ with_lines out.old (counted_lines 0 (map log_data (map (log_left P.means) logs.now)))) }
    ensures begins { OnOk result (begins_line out.new ≡ true) }
    ensures reads { OnOk result (All LogReads (map log_data (map (log_left P.means) logs.now))) }
{
    for (thread, log) in logs.iter().enumerate() {
        let held = counts[thread];
        out.log_line(thread as u64, held.entries, held.lines, Some(log.fences()))?;
    }
    Ok(())
}

/// The place of a thread's update whose fence failed.
fn failed_place<O: Object>(ends: &[CallEnd<O>]) -> Option<u64>
    ensures { result ≡ failed_in ends.now }
{
    for end in ends {
        if let CallEnd::FenceFailed { place } = end {
            return Some(*place);
        }
    }
    None
}

/// Appends the line of a thread's fence that failed, if one did.
fn put_fault(thread: u64, place: Option<u64>, out: &mut Report) -> Result<(), NoMemory>
    requires { begins_line out.old ≡ true }
    ensures lines { OnOk result (out.new ≡ with_lines out.old (faults_at thread place)) }
    ensures begins { OnOk result (begins_line out.new ≡ true) }
{
    match place {
        Some(place) => out.line(&[
            Piece::Text(b"fault"),
            Piece::Text(b"thread"),
            Piece::Number(thread),
            Piece::Text(b"place"),
            Piece::Number(place),
        ]),
        None => Ok(()),
    }
}

/// Appends the line of each thread's fence that failed.
fn put_faults<O: Object>(threads: &[DoneScript<O>], out: &mut Report) -> Result<(), NoMemory>
    requires { begins_line out.old ≡ true }
    ensures lines { OnOk result (out.new ≡ with_lines out.old (fault_lines 0 (map ends_in threads.now))) }
    ensures begins { OnOk result (begins_line out.new ≡ true) }
{
    for (thread, done) in threads.iter().enumerate() {
        put_fault(thread as u64, failed_place(&done.ends), out)?;
    }
    Ok(())
}

/// Recovers the object from the lines of the devices as read, of a run whose trace was listed.
fn recover_run<O: Object, P: Pmem>(
    alloc: Global,
    object: &mut O,
    heads: &[LogHead],
    ran: &RunOutcome<O, P>,
) -> Result<AppliedLogs, NoMemory>
    requires { RanOver O.means object.old heads.now (map script_in ran.now.threads.items) (left_in P.means ran.now) }
    ensures logs { IfOk result (λ a. a.logs.items
        ≡ map log_counts (map content_in (map (log_left P.means) ran.now.logs.items))) }
    ensures nodes { IfOk result (λ a. a.nodes ≡ length (map node_in ran.now.trace.items)) }
    ensures state { IfOk result (λ _. object.new ≡ state_after O.means object.old (map node_in ran.now.trace.items)) }
    ensures whole { OnOk result (All (λ log. AllByRecursion IsWholeLine (P.means log.device).read) ran.now.logs.items) }
{
    recover_logs(alloc, object, heads, &ran.logs)
}

/// Appends the lines of how many nodes are gone on from, of the calls of a run, and of its trace.
fn put_run<O: Texted, P: Pmem>(
    resumed: Option<u64>,
    ran: &RunOutcome<O, P>,
    out: &mut Report,
) -> Result<(), NoMemory>
    requires begins { begins_line out.old ≡ true }
    requires over { AllOver (map script_in ran.now.threads.items) (map ends_in ran.now.threads.items) }
    requires operations { AllByRecursion (λ n. IsSome (O.means.op_at n.row)) (map node_in ran.now.trace.items) }
    ensures lines { let left = left_in P.means ran.now in OnOk result (out.new ≡ with_lines (with_lines out.old (resumed_lines resumed))
        (thread_lines O.wording 0 (map script_in ran.now.threads.items) left.ends
        ++ (trace_line (length left.nodes) ∷ flagged_lines O.means O.wording 0 left.nodes left.flags))) }
    ensures begins { OnOk result (begins_line out.new ≡ true) }
    ensures resumed { OnOk result (IfSome resumed (λ nodes. nodes < 2 ^ 64)) }
    ensures threads { OnOk result (length (map script_in ran.now.threads.items) ≤ 2 ^ 64) }
    ensures ends { OnOk result (EachReads O.wording (map script_in ran.now.threads.items) (map ends_in ran.now.threads.items)) }
    ensures nodes { OnOk result (All (NodeReads O.means O.wording) (map node_in ran.now.trace.items)) }
{
    put_resumed(resumed, out)?;
    put_threads(&ran.threads, out)?;
    out.trace_line(ran.trace.len() as u64)?;
    put_nodes::<O>(&ran.trace, out)
}

/// Appends the lines of the logs of a run, of the fences that failed, and of the object, which is recovered.
fn put_end<O: Texted, P: Pmem>(
    recovered: &AppliedLogs,
    ran: &RunOutcome<O, P>,
    object: &O,
    out: &mut Report,
) -> Result<(), NoMemory>
    requires begins { begins_line out.old ≡ true }
    requires logs { recovered.now.logs.items ≡ map log_counts (map content_in (map (log_left P.means) ran.now.logs.items)) }
    ensures lines { let left = left_in P.means ran.now in OnOk result (out.new ≡ with_lines out.old
        (counted_lines 0 (map log_data left.logs)
        ++ (recovered_line recovered.now.nodes ∷ (fault_lines 0 left.ends ++ state_lines O.wording object.now)))) }
    ensures logs { OnOk result (All LogReads (map log_data (map (log_left P.means) ran.now.logs.items))) }
    ensures few { OnOk result (recovered.now.nodes < 2 ^ 64) }
    ensures state { OnOk result (StateReads O.wording object.now) }
{
    put_logs(&recovered.logs, &ran.logs, out)?;
    put_count(recovered.nodes, out)?;
    put_faults(&ran.threads, out)?;
    out.state_lines(object)
}

/// The report of scripts that were run on an object in this state, which is after the trace then, and of how many nodes it went on
/// from, where it did. All that it says reads back. What
/// it says of the logs, and how many nodes are recovered, comes from the recovery of the devices' lines as read, which are whole.
pub(crate) fn run_report<O: Texted, P: Pmem>(
    alloc: Global,
    object: &mut O,
    heads: &[LogHead],
    resumed: Option<u64>,
    ran: &RunOutcome<O, P>,
) -> Result<Vec<u8>, NoMemory>
    requires { RanOver O.means object.old heads.now (map script_in ran.now.threads.items) (left_in P.means ran.now) }
    ensures report { IfOk result (λ bytes. bytes.items
        ≡ run_report O.means O.wording resumed object.old (map script_in ran.now.threads.items) (left_in P.means ran.now)) }
    ensures reads { OnOk result (RunReads O.means O.wording (map script_in ran.now.threads.items)
        (run_data O.means resumed object.old (left_in P.means ran.now))) }
    ensures whole { OnOk result (All (λ log. AllByRecursion IsWholeLine (P.means log.device).read) ran.now.logs.items) }
{
    let recovered = recover_run(alloc, object, heads, ran)?;
    let mut out = Report::new(alloc);
    put_run(resumed, ran, &mut out)?;
    put_end(&recovered, ran, object, &mut out)?;
    Ok(out.into_bytes())
}
