//! Runs in which a fence fails.
ghost use Rattle.std.specs.Prelude.{◌≡◌, ◌≤◌, length, map, IfOk};
ghost use Rattle.std.specs.List.{AllByRecursion};
ghost use Rattle.onll_pmem.specs.Device.{zero_lines};
ghost use Rattle.onll_pmem.specs.Memory.{memory_view};
ghost use Rattle.onll_outside.specs.Views.{IsFresh};

use crate::run_bank;
use crate::runs::{End, add_device, deposit, flags_are, left, run_one, two_devices};
use onll_bank::{Bank, BankOp, BankQuery, BankReply};
use onll_model::Call;
use onll_outside::FreeGate;
use onll_pmem::{MemPmem, Pmem};
use onll_run::{RunFault, RunOutcome};
use onll_words::NoMemory;
use std::alloc::{AllocError, Global};
use std::test::Fail;
use tests_found::Found;

/// Two deposits, and a question.
fn two_and_a_question(alloc: Global) -> Result<Vec<Call<Bank>>, AllocError>
    ensures { IfOk result (λ script. length script.items ≡ 3) }
{
    Ok(vec![in alloc;
        Call::Update(BankOp::Deposit { a: 0, x: 5 }),
        Call::Update(BankOp::Deposit { a: 0, x: 7 }),
        Call::Ask(BankQuery::Balance { a: 0 }),
    ]?)
}

/// What each call ends with where the first update's fence fails.
const ENDS: &[End] = &[
    End::FenceFailed(1),
    End::Broken(1),
    End::Answered(0, BankReply::Amount(0)),
];

/// The one log is broken at its one entry.
fn is_broken(found: &mut Found, ran: &RunOutcome<Bank, MemPmem>) {
    let [log] = ran.logs.as_slice() else {
        return found.must(false, "other logs");
    };
    found.must(
        log.broken() && log.entries() == 1 && log.fences() == 1,
        "another log",
    );
    let device = log.device();
    found.must(
        device.fences() == 2 && device.faults() == 1,
        "another device",
    );
}

#[test]
fn a_failed_fence_breaks_later_updates_alone(rt: HostRuntime) -> Result<(), Fail> {
    let script = two_and_a_question(rt.alloc())?;
    let Some(ran) = run_one(&rt, rt.alloc(), script, &[2]) else {
        return Err("not run".into());
    };
    let mut found = Found::new();
    left(&mut found, &ran, (1, 1, 1), ENDS, &[false]);
    is_broken(&mut found, &ran);
    found.ended()
}

#[test]
fn a_third_fence_that_never_comes(rt: HostRuntime) -> Result<(), Fail> {
    let script = deposit(rt.alloc(), 0, 5)?;
    let Some(ran) = run_one(&rt, rt.alloc(), script, &[3]) else {
        return Err("not run".into());
    };
    let mut found = Found::new();
    found.must(ran.threads.len() == 1, "other threads");
    found.must(flags_are(&ran, &[true]), "another flag");
    found.ended()
}

/// Three scripts, of which the second one has an update.
fn three_scripts(alloc: Global) -> Result<Vec<Vec<Call<Bank>>>, AllocError>
    ensures many { IfOk result (λ scripts. length scripts.items ≡ 3) }
    ensures short { IfOk result (λ scripts. AllByRecursion (λ script. length script ≤ 8) (map (λ script. script.items) scripts.items)) }
{
    let script = deposit(alloc, 0, 5)?;
    Ok(vec![in alloc; Vec::new(alloc), script, Vec::new(alloc)]?)
}

/// Devices of three threads, of which the second one's header fails, and the third one's would.
fn three_devices(alloc: Global) -> Result<Vec<MemPmem>, NoMemory>
    ensures many { IfOk result (λ devices. length devices.items ≡ 3) }
    ensures fresh { IfOk result (λ devices. AllByRecursion (λ device. IsFresh (zero_lines 41) (memory_view device)) devices.items) }
{
    let mut devices = two_devices(alloc, &[], &[1])?;
    add_device(&mut devices, alloc, &[1])?;
    Ok(devices)
}

/// The devices that a header's fault hands back: the first one's header was made, the second one's failed.
fn are_back(found: &mut Found, devices: &[MemPmem]) {
    let [first, second, third] = devices else {
        return found.must(false, "not three devices");
    };
    found.must(first.fences() == 1 && first.faults() == 0, "the first");
    found.must(second.fences() == 1 && second.faults() == 1, "the second");
    found.must(third.fences() == 0 && third.faults() == 0, "the third");
}

#[test]
fn a_failed_header_hands_all_devices_back(rt: HostRuntime) -> Result<(), Fail> {
    let scripts = three_scripts(rt.alloc())?;
    let devices = three_devices(rt.alloc())?;
    let Err(RunFault::HeaderFailed { thread, devices }) = run_bank(
        &rt,
        rt.alloc(),
        scripts,
        devices,
        &FreeGate,
    ) else {
        return Err("run".into());
    };
    let mut found = Found::new();
    found.must(thread == 1, "another thread");
    are_back(&mut found, &devices);
    found.ended()
}
