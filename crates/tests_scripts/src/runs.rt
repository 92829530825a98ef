//! Runs of one script and of two, and what they left, to be compared.
ghost use Rattle.std.specs.Prelude.{◌≡◌, ◌≤◌, ◌+◌, length, IfOk};
ghost use Rattle.std.specs.List.{AllByRecursion};
ghost use Rattle.onll_pmem.specs.Device.{zero_lines};
ghost use Rattle.onll_pmem.specs.Memory.{memory_view};
ghost use Rattle.onll_outside.specs.Views.{IsFresh};

use crate::{new_device, run_bank};
use onll_bank::{Bank, BankOp, BankReply};
use onll_model::{Call, CallEnd};
use onll_outside::{FreeGate, Gate};
use onll_pmem::MemPmem;
use onll_run::RunOutcome;
use onll_words::NoMemory;
use std::alloc::{AllocError, Global};
use std::sync::Wait;
use std::thread::Threads;
use tests_found::Found;

/// A script of one deposit.
pub(crate) fn deposit(alloc: Global, a: u64, x: u64) -> Result<Vec<Call<Bank>>, AllocError>
    ensures { IfOk result (λ script. length script.items ≡ 1) }
{
    Ok(vec![in alloc; Call::Update(BankOp::Deposit { a, x })]?)
}

/// A new device on which these fences fail.
fn device_of(alloc: Global, failing: &[u64]) -> Result<MemPmem, NoMemory>
    ensures { IfOk result (λ device. IsFresh (zero_lines 41) (memory_view device)) }
{
    let failing = Vec::from_slice(alloc, failing)?;
    new_device(alloc, failing)
}

#[tactic(auto, using(onll_merge::proofs::Standings::all_and))]
/// Adds a new device on which these fences fail.
pub(crate) fn add_device(
    devices: &mut Vec<MemPmem>,
    alloc: Global,
    failing: &[u64],
) -> Result<(), NoMemory>
    requires { AllByRecursion (λ device. IsFresh (zero_lines 41) (memory_view device)) devices.old.items }
    ensures many { IfOk result (λ _. length devices.new.items ≡ length devices.old.items + 1) }
    ensures fresh { IfOk result (λ _. AllByRecursion (λ device. IsFresh (zero_lines 41) (memory_view device)) devices.new.items) }
{
    let device = device_of(alloc, failing)?;
    devices.push(device)?;
    Ok(())
}

/// A device of one thread, on which these fences fail.
fn one_device(alloc: Global, failing: &[u64]) -> Result<Vec<MemPmem>, NoMemory>
    ensures many { IfOk result (λ devices. length devices.items ≡ 1) }
    ensures fresh { IfOk result (λ devices. AllByRecursion (λ device. IsFresh (zero_lines 41) (memory_view device)) devices.items) }
{
    let mut devices = Vec::new(alloc);
    add_device(&mut devices, alloc, failing)?;
    Ok(devices)
}

/// Devices of two threads; on that of thread 0 the fences of `zero` fail, and on that of thread 1 those of `one`.
pub(crate) fn two_devices(
    alloc: Global,
    zero: &[u64],
    one: &[u64],
) -> Result<Vec<MemPmem>, NoMemory>
    ensures many { IfOk result (λ devices. length devices.items ≡ 2) }
    ensures fresh { IfOk result (λ devices. AllByRecursion (λ device. IsFresh (zero_lines 41) (memory_view device)) devices.items) }
{
    let mut devices = one_device(alloc, zero)?;
    add_device(&mut devices, alloc, one)?;
    Ok(devices)
}

/// Runs one script over a device on which these fences fail.
pub(crate) fn run_one<R: Threads + Wait + Sync>(
    rt: &R,
    alloc: Global,
    script: Vec<Call<Bank>>,
    failing: &[u64],
) -> Option<RunOutcome<Bank, MemPmem>>
    requires { length script.items ≤ 8 }
{
    let scripts = vec![in alloc; script].ok()?;
    let devices = one_device(alloc, failing).ok()?;
    run_bank(rt, alloc, scripts, devices, &FreeGate).ok()
}

/// Runs two scripts; on the device of thread 0 these fences fail.
pub(crate) fn run_two<R: Threads + Wait + Sync, G: Gate + Sync>(
    rt: &R,
    alloc: Global,
    first: Vec<Call<Bank>>,
    second: Vec<Call<Bank>>,
    failing: &[u64],
    gate: &G,
) -> Option<RunOutcome<Bank, MemPmem>>
    requires first { length first.items ≤ 8 }
    requires second { length second.items ≤ 8 }
{
    let scripts = vec![in alloc; first, second].ok()?;
    let devices = two_devices(alloc, failing, &[]).ok()?;
    run_bank(rt, alloc, scripts, devices, gate).ok()
}

/// What a call ended with, to be compared.
#[derive(Clone, Copy, Debug, PartialEq, Eq)]
pub(crate) enum End {
    Answered(u64, BankReply),
    FenceFailed(u64),
    Broken(u64),
    Other,
}

fn end_of(end: &CallEnd<Bank>) -> End {
    match end {
        CallEnd::Answered { place, reply } => End::Answered(*place, *reply),
        CallEnd::FenceFailed { place } => End::FenceFailed(*place),
        CallEnd::Broken { place } => End::Broken(*place),
        _ => End::Other,
    }
}

/// Whether these calls ended so.
fn are(ends: &[CallEnd<Bank>], wanted: &[End]) -> bool {
    if ends.len() != wanted.len() {
        return false;
    }
    for index in 0..ends.len() {
        if end_of(&ends[index]) != wanted[index] {
            return false;
        }
    }
    true
}

/// Whether the calls of this thread ended so.
pub(crate) fn ends_are(ran: &RunOutcome<Bank, MemPmem>, thread: usize, wanted: &[End]) -> bool {
    match ran.threads.get(thread) {
        Some(script) => are(&script.ends, wanted),
        None => false,
    }
}

/// How many threads, nodes and logs a run left.
pub(crate) fn counts(ran: &RunOutcome<Bank, MemPmem>) -> (usize, usize, usize) {
    (ran.threads.len(), ran.trace.len(), ran.logs.len())
}

/// A run left so many threads, nodes and logs, the calls of thread 0 ended so, and the trace has these flags.
pub(crate) fn left(
    found: &mut Found,
    ran: &RunOutcome<Bank, MemPmem>,
    many: (usize, usize, usize),
    ends: &[End],
    flags: &[bool],
) {
    found.must(counts(ran) == many, "other counts");
    found.must(ends_are(ran, 0, ends), "other ends of thread 0");
    found.must(flags_are(ran, flags), "other flags");
}

/// Whether the nodes of the trace are of these threads.
pub(crate) fn threads_are(ran: &RunOutcome<Bank, MemPmem>, wanted: &[u64]) -> bool {
    if ran.trace.len() != wanted.len() {
        return false;
    }
    for index in 0..wanted.len() {
        if ran.trace[index].node.thread != wanted[index] {
            return false;
        }
    }
    true
}

/// Whether the flags of the trace are these.
pub(crate) fn flags_are(ran: &RunOutcome<Bank, MemPmem>, wanted: &[bool]) -> bool {
    if ran.trace.len() != wanted.len() {
        return false;
    }
    for index in 0..wanted.len() {
        if ran.trace[index].flag != wanted[index] {
            return false;
        }
    }
    true
}
