//! A bank of two accounts, and scripts that are run on it over devices in memory.

ghost use Rattle.std.specs.Prelude.{◌≡◌, ◌≤◌, length, map, IfOk};
ghost use Rattle.std.specs.List.{AllByRecursion};
ghost use Rattle.onll_pmem.specs.Device.{zero_lines};
ghost use Rattle.onll_pmem.specs.Memory.{memory_view};
ghost use Rattle.onll_outside.specs.Views.{IsFresh};
ghost use Rattle.onll_log.specs.Head.{AreHeads};

use onll_bank::Bank;
use onll_log::LogHead;
use onll_model::{Call, Object};
use onll_outside::Gate;
use onll_pmem::MemPmem;
use onll_run::{RunFault, RunOutcome, Surroundings, run_scripts};
use onll_words::NoMemory;
use std::alloc::Global;
use std::sync::Wait;
use std::thread::Threads;

/// The text that the heads digest.
const INIT: &[u8] = b"bank 2\n";

/// How many lines each device has: a header's, and those of eight entries of four nodes each.
const LINES: u64 = 41;

/// The heads of new logs of a bank, for so many threads.
pub fn bank_heads(alloc: Global, threads: u64) -> Result<Vec<LogHead>, NoMemory>
    requires { threads ≤ 4 }
    ensures many { IfOk result (λ heads. length heads.items ≡ threads) }
    ensures heads { IfOk result (λ heads. AreHeads threads 0 heads.items) }
{
    let mut heads = Vec::new(alloc);
    for thread in 0..threads {
        heads.push(LogHead::new(thread, threads, Bank::CODE, INIT))?;
    }
    Ok(heads)
}

#[tactic(auto, using(crate::proofs::Conditions::fresh_new))]
/// A new device, on which the fences fail that have these numbers, from 1; fence 1 is the header's.
pub fn new_device(alloc: Global, failing: Vec<u64>) -> Result<MemPmem, NoMemory>
    ensures { IfOk result (λ device. IsFresh (zero_lines 41) (memory_view device)) }
{
    MemPmem::new(alloc, LINES, failing)
}

/// Runs scripts on a bank of two empty accounts, each over the device at its place.
pub fn run_bank<R: Threads + Wait + Sync, G: Gate + Sync>(
    rt: &R,
    alloc: Global,
    scripts: Vec<Vec<Call<Bank>>>,
    devices: Vec<MemPmem>,
    gate: &G,
) -> Result<RunOutcome<Bank, MemPmem>, RunFault<MemPmem>>
    requires some_thread { 1 ≤ length scripts.items }
    requires few { length scripts.items ≤ 4 }
    requires short { AllByRecursion (λ script. length script ≤ 8) (map (λ script. script.items) scripts.items) }
    requires many { length devices.items ≡ length scripts.items }
    requires fresh { AllByRecursion (λ device. IsFresh (zero_lines 41) (memory_view device)) devices.items }
{
    let heads = bank_heads(alloc, scripts.len() as u64)?;
    let bank = Bank::make(alloc, 2)?;
    let around = Surroundings { rt, alloc, gate };
    run_scripts(&around, bank, &heads, scripts, devices)
}
