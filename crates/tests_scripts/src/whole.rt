//! Runs in which no fence fails.
ghost use Rattle.std.specs.Prelude.{◌≡◌, length, IfOk};

use crate::runs::{End, counts, flags_are, left, run_one, run_two};
use onll_bank::{Bank, BankOp, BankQuery, BankReply};
use onll_log::ThreadLog;
use onll_model::Call;
use onll_outside::FreeGate;
use onll_pmem::{MemPmem, Pmem};
use onll_run::RunOutcome;
use std::alloc::{AllocError, Global};
use std::sync::Wait;
use std::test::Fail;
use std::thread::Threads;
use tests_found::Found;

/// A deposit, a transfer, and a question.
fn transfers_and_asks(alloc: Global) -> Result<Vec<Call<Bank>>, AllocError>
    ensures { IfOk result (λ script. length script.items ≡ 3) }
{
    Ok(vec![in alloc;
        Call::Update(BankOp::Deposit { a: 0, x: 100 }),
        Call::Update(BankOp::Transfer { a: 0, b: 1, x: 30 }),
        Call::Ask(BankQuery::Balance { a: 1 }),
    ]?)
}

const ENDS: &[End] = &[
    End::Answered(1, BankReply::Done),
    End::Answered(2, BankReply::Done),
    End::Answered(2, BankReply::Amount(30)),
];

/// The one log has two entries, made with a fence each.
fn has_two_entries(found: &mut Found, ran: &RunOutcome<Bank, MemPmem>) {
    let [log] = ran.logs.as_slice() else {
        return found.must(false, "other logs");
    };
    found.must(log.entries() == 2 && log.fences() == 2, "other entries");
    found.must(log.lines() - log.free_lines() == 5, "other lines");
    let device = log.device();
    found.must(
        device.fences() == 3 && device.faults() == 0,
        "another device",
    );
}

#[test]
fn one_thread_transfers_and_asks(rt: HostRuntime) -> Result<(), Fail> {
    let script = transfers_and_asks(rt.alloc())?;
    let Some(ran) = run_one(&rt, rt.alloc(), script, &[]) else {
        return Err("not run".into());
    };
    let mut found = Found::new();
    left(&mut found, &ran, (1, 2, 1), ENDS, &[true, true]);
    has_two_entries(&mut found, &ran);
    found.ended()
}

/// A deposit, and two transfers to the second account.
fn transfers_there(alloc: Global) -> Result<Vec<Call<Bank>>, AllocError>
    ensures { IfOk result (λ script. length script.items ≡ 3) }
{
    Ok(vec![in alloc;
        Call::Update(BankOp::Deposit { a: 0, x: 100 }),
        Call::Update(BankOp::Transfer { a: 0, b: 1, x: 30 }),
        Call::Update(BankOp::Transfer { a: 0, b: 1, x: 30 }),
    ]?)
}

/// Three transfers to the first account, and a question for the sum.
fn transfers_back(alloc: Global) -> Result<Vec<Call<Bank>>, AllocError>
    ensures { IfOk result (λ script. length script.items ≡ 4) }
{
    Ok(vec![in alloc;
        Call::Update(BankOp::Transfer { a: 1, b: 0, x: 10 }),
        Call::Update(BankOp::Transfer { a: 1, b: 0, x: 10 }),
        Call::Update(BankOp::Transfer { a: 1, b: 0, x: 10 }),
        Call::Ask(BankQuery::Total),
    ]?)
}

/// Two threads that transfer there and back.
fn there_and_back<R: Threads + Wait + Sync>(
    rt: &R,
    alloc: Global,
) -> Option<RunOutcome<Bank, MemPmem>> {
    let first = transfers_there(alloc).ok()?;
    let second = transfers_back(alloc).ok()?;
    run_two(rt, alloc, first, second, &[], &FreeGate)
}

/// Whether each log has three entries, made with a fence each.
fn have_three(logs: &[ThreadLog<MemPmem>]) -> bool {
    for log in logs {
        if log.entries() != 3 || log.fences() != 3 {
            return false;
        }
    }
    true
}

#[test]
fn two_threads_keep_the_sum(rt: HostRuntime) -> Result<(), Fail> {
    let Some(ran) = there_and_back(&rt, rt.alloc()) else {
        return Err("not run".into());
    };
    let mut found = Found::new();
    found.must(counts(&ran) == (2, 6, 2), "other counts");
    found.must(flags_are(&ran, &[true; 6]), "other flags");
    found.must(have_three(&ran.logs), "other entries or fences");
    found.ended()
}
