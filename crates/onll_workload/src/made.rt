//! A workload that is run on threads, over devices in memory.

ghost use Rattle.std.specs.Prelude.{◌≡◌, ◌≤◌, ◌<◌, ◌*◌, ◌^◌, List, length, map, replicate, sum, sum_by, IfOk};
ghost use Rattle.std.specs.List.{All};
ghost use Rattle.onll_model.specs.Limits.{most_updates};
ghost use Rattle.onll_model.specs.Calls.{updates_in, reads_in};
ghost use Rattle.onll_model.specs.Trace.{state_after};
ghost use Rattle.onll_bank.specs.Object.{bank};
ghost use Rattle.onll_pmem.specs.Device.{new_device};
ghost use Rattle.onll_trace.specs.declared.trace.Ended.{Ended as SomeEnded};
ghost use Rattle.onll_run.specs.Left.{HasRun};
ghost use Rattle.onll_run.specs.Ran.{anew, left_by, script_in, node_in};
ghost use Rattle.onll_text.specs.Reports.{SaysOnly};
ghost use Rattle.onll_workload.specs.Faultless.{faultless_view};
ghost use Rattle.onll_workload.specs.Workload.{IsWorkload, device_lines};
ghost use Rattle.onll_workload.specs.Made.{made_summary, made_text, summary_lines, SummaryReads};

use crate::bank::{first_bank, text_of};
use crate::device::FaultlessMem;
use crate::script::scripts_of;
use crate::summary::Summary;
use crate::workload::Workload;
use onll_bank::{Bank, BankQuery, BankReply};
use onll_log::{LogHead, ThreadLog, new_heads};
use onll_model::{Call, Object, count_updates};
use onll_outside::Gate;
use onll_run::{DoneScript, RunFault, RunLogs, Surroundings, run_for_logs};
use onll_task::recover_logs;
use onll_text::Report;
use onll_words::NoMemory;
use std::alloc::Global;
use std::sync::Wait;
use std::thread::Threads;

/// A device for each thread's log, with lines for the longest entry for each update.
fn devices_for(alloc: Global, workload: Workload) -> Result<Vec<FaultlessMem>, NoMemory>
    requires { IsWorkload workload }
    ensures { IfOk result (λ devices. devices.items ≡ replicate workload.threads (new_device (device_lines workload))) }
{
    let lines = 1 + (workload.threads + 1) * workload.updates;
    let mut devices = Vec::with_capacity(alloc, workload.threads as usize)?;
    while (devices.len() as u64) < workload.threads {
        devices.push(FaultlessMem::new(alloc, lines)?)?;
    }
    Ok(devices)
}

/// How many of these calls are updates, and how many are reads.
fn count_calls(calls: &[Call<Bank>]) -> (u64, u64)
    requires { updates_in calls.now ≤ most_updates }
    ensures updates { result.0 ≡ updates_in calls.now }
    ensures reads { result.1 ≡ reads_in calls.now }
{
    let updates = count_updates(calls);
    (updates, calls.len() as u64 - updates)
}

/// How many updates and how many reads the scripts have.
fn total_calls(threads: &[DoneScript<Bank>]) -> (u64, u64)
    requires each { All (λ done. updates_in done.script.items ≤ most_updates) threads.now }
    requires few_updates { sum_by (λ done. updates_in done.script.items) threads.now < 2 ^ 64 }
    requires few_reads { sum_by (λ done. reads_in done.script.items) threads.now < 2 ^ 64 }
    ensures updates { result.0 ≡ sum_by (λ done. updates_in done.script.items) threads.now }
    ensures reads { result.1 ≡ sum_by (λ done. reads_in done.script.items) threads.now }
{
    let mut updates = 0;
    let mut reads = 0;
    for done in threads {
        let (own_updates, own_reads) = count_calls(&done.script);
        updates += own_updates;
        reads += own_reads;
    }
    (updates, reads)
}

/// How many fences the logs made after those of their headers.
fn total_fences(logs: &[ThreadLog<FaultlessMem>]) -> u64
    requires { sum_by (λ log. log.fences) logs.now < 2 ^ 64 }
    ensures { result ≡ sum_by (λ log. log.fences) logs.now }
{
    let mut fences = 0;
    for log in logs {
        fences += log.fences();
    }
    fences
}

/// The sum of all balances.
fn total_of(object: &Bank) -> u64
    ensures { result ≡ sum object.now }
{
    match object.ask(BankQuery::Total) {
        BankReply::Amount(total) => total,
        _ => unreachable!(),
    }
}

/// What a run on this bank made. The bank is recovered from the lines of all devices as read.
fn summarize(
    alloc: Global,
    mut object: Bank,
    heads: &[LogHead],
    ran: &RunLogs<Bank, FaultlessMem>,
) -> Result<Summary, NoMemory>
    requires each { All (λ done. updates_in done.script.items ≤ most_updates) ran.now.threads.items }
    requires updates { sum_by (λ done. updates_in done.script.items) ran.now.threads.items < 2 ^ 64 }
    requires reads { sum_by (λ done. reads_in done.script.items) ran.now.threads.items < 2 ^ 64 }
    requires fences { sum_by (λ log. log.fences) ran.now.logs.items < 2 ^ 64 }
    requires run { (trace : List SomeEnded) × HasRun bank (anew object heads.now (map script_in ran.now.threads.items))
        (left_by faultless_view ran.now.threads.items trace ran.now.logs.items) }
    ensures { IfOk result (λ summary. (trace : List SomeEnded)
        → HasRun bank (anew object heads.now (map script_in ran.now.threads.items))
        (left_by faultless_view ran.now.threads.items trace ran.now.logs.items)
        → summary ≡ record {
          threads = length ran.now.threads.items;
          updates = sum_by (λ done. updates_in done.script.items) ran.now.threads.items;
          reads = sum_by (λ done. reads_in done.script.items) ran.now.threads.items;
          fences = sum_by (λ log. log.fences) ran.now.logs.items;
          recovered = length (map node_in trace);
          total = sum (state_after bank object (map node_in trace));
        }) }
{
    let applied = recover_logs(alloc, &mut object, heads, &ran.logs)?;
    let (updates, reads) = total_calls(&ran.threads);
    Ok(Summary {
        threads: ran.threads.len() as u64,
        updates,
        reads,
        fences: total_fences(&ran.logs),
        recovered: applied.nodes,
        total: total_of(&object),
    })
}

/// Makes the scripts of a workload and runs them on threads, over devices in memory whose fences never fail.
fn run_made<R: Threads + Wait + Sync, G: Gate + Sync>(
    rt: &R,
    alloc: Global,
    workload: Workload,
    gate: &G,
) -> Result<Summary, NoMemory>
    requires { IsWorkload workload }
    ensures { IfOk result (λ summary. summary ≡ made_summary workload) }
{
    let bank = first_bank(alloc)?;
    let heads = new_heads(alloc, Bank::CODE, &text_of(alloc, &bank)?, workload.threads)?;
    let first = bank.copy(alloc)?;
    let scripts = scripts_of(alloc, workload)?;
    let devices = devices_for(alloc, workload)?;
    let around = Surroundings { rt, alloc, gate };
    match run_for_logs(&around, bank, &heads, scripts, devices) {
        Ok(ran) => summarize(alloc, first, &heads, &ran),
        Err(RunFault::NoMemory) => Err(NoMemory),
        Err(RunFault::HeaderFailed { .. }) => unreachable!(),
    }
}

/// Runs a workload on a bank of 64 accounts with 1,000 each, and says in four lines what it made: its threads, updates and reads,
/// the fences, how many updates the logs recover to, and the total after them. The gate is called at the points of each update.
pub fn make_report<R: Threads + Wait + Sync, G: Gate + Sync>(
    rt: &R,
    alloc: Global,
    workload: Workload,
    gate: &G,
) -> Result<Vec<u8>, NoMemory>
    requires { IsWorkload workload }
    ensures report { IfOk result (λ text. text.items ≡ made_text workload) }
    ensures says { IfOk result (λ text. SaysOnly summary_lines SummaryReads text.items (made_summary workload)) }
{
    let summary = run_made(rt, alloc, workload, gate)?;
    let mut out = Report::new(alloc);
    summary.put(&mut out)?;
    Ok(out.into_bytes())
}
