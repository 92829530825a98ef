//! Two threads that a gate holds so that they overlap. Run one after the other, a hold would run out of turns.
ghost use Rattle.std.specs.Prelude.{◌≡◌, length, IfOk};

use crate::runs::{End, deposit, ends_are, left, run_two, threads_are};
use onll_bank::{Bank, BankOp, BankQuery, BankReply};
use onll_model::Call;
use onll_outside::{Hold, HoldGate, Point};
use onll_pmem::MemPmem;
use onll_run::RunOutcome;
use std::alloc::{AllocError, Global};
use std::sync::Wait;
use std::test::Fail;
use std::thread::Threads;
use tests_found::Found;

/// One update, at the first place and at the second.
const DONE_FIRST: &[End] = &[End::Answered(1, BankReply::Done)];

const DONE_SECOND: &[End] = &[End::Answered(2, BankReply::Done)];

/// How often a held thread loads the mark that it awaits.
const TURNS: u64 = 1000000000;

/// A gate with two holds.
fn two_holds(alloc: Global, first: Hold, second: Hold) -> Result<HoldGate, Fail> {
    let holds = vec![in alloc; first, second]?;
    Ok(HoldGate::new(alloc, holds, TURNS)?)
}

/// Thread 1 begins once thread 0 is ordered, which is held until thread 1 is answered.
fn first_ordered_last_fenced(alloc: Global, held: Point) -> Result<HoldGate, Fail> {
    two_holds(
        alloc,
        Hold {
            thread: 1,
            point: Point::Begin,
            until_thread: 0,
            until_point: Point::Ordered,
        },
        Hold {
            thread: 0,
            point: held,
            until_thread: 1,
            until_point: Point::Answered,
        },
    )
}

/// Thread 0 deposits 5, and thread 1 deposits 7 into the other account.
fn run_deposits<R: Threads + Wait + Sync>(
    rt: &R,
    alloc: Global,
    failing: &[u64],
    gate: &HoldGate,
) -> Option<RunOutcome<Bank, MemPmem>> {
    let first = deposit(alloc, 0, 5).ok()?;
    let second = deposit(alloc, 1, 7).ok()?;
    run_two(rt, alloc, first, second, failing, gate)
}

/// The window of the second thread's entry has the node of the first one too.
fn has_window(found: &mut Found, ran: &RunOutcome<Bank, MemPmem>) {
    let [first, second] = ran.logs.as_slice() else {
        return found.must(false, "other logs");
    };
    found.must(first.entries() == 1 && first.free_lines() == 38, "log 0");
    found.must(second.entries() == 1 && second.free_lines() == 37, "log 1");
}

#[test]
fn a_window_helps_a_held_update(rt: HostRuntime) -> Result<(), Fail> {
    let gate = first_ordered_last_fenced(rt.alloc(), Point::Ordered)?;
    let Some(ran) = run_deposits(&rt, rt.alloc(), &[], &gate) else {
        return Err("not run".into());
    };
    let mut found = Found::new();
    found.must(!gate.expired(), "a hold ran out of turns");
    left(&mut found, &ran, (2, 2, 2), DONE_FIRST, &[true, true]);
    found.must(ends_are(&ran, 1, DONE_SECOND), "other ends of thread 1");
    found.must(threads_are(&ran, &[0, 1]), "another order");
    has_window(&mut found, &ran);
    found.ended()
}

const FENCE_FAILED: &[End] = &[End::FenceFailed(1)];

/// The log of the held thread is broken, and the other one's entry has the nodes of both.
fn has_broken_log(found: &mut Found, ran: &RunOutcome<Bank, MemPmem>) {
    let [first, second] = ran.logs.as_slice() else {
        return found.must(false, "other logs");
    };
    found.must(
        first.entries() == 1 && first.fences() == 1 && first.broken(),
        "log 0",
    );
    found.must(
        second.entries() == 1 && second.lines() - second.free_lines() == 4,
        "log 1",
    );
}

#[test]
fn a_held_update_whose_fence_fails(rt: HostRuntime) -> Result<(), Fail> {
    let gate = first_ordered_last_fenced(rt.alloc(), Point::Walked)?;
    let Some(ran) = run_deposits(&rt, rt.alloc(), &[2], &gate) else {
        return Err("not run".into());
    };
    let mut found = Found::new();
    found.must(!gate.expired(), "a hold ran out of turns");
    left(&mut found, &ran, (2, 2, 2), FENCE_FAILED, &[false, true]);
    found.must(ends_are(&ran, 1, DONE_SECOND), "other ends of thread 1");
    has_broken_log(&mut found, &ran);
    found.ended()
}

/// A deposit into the second account, and a question for the first one's balance.
fn deposits_and_asks(alloc: Global) -> Result<Vec<Call<Bank>>, AllocError>
    ensures { IfOk result (λ script. length script.items ≡ 2) }
{
    Ok(vec![in alloc;
        Call::Update(BankOp::Deposit { a: 1, x: 7 }),
        Call::Ask(BankQuery::Balance { a: 0 }),
    ]?)
}

/// Thread 0 begins once thread 1 is answered, which is then held until thread 0 is.
fn second_first(alloc: Global) -> Result<HoldGate, Fail> {
    two_holds(
        alloc,
        Hold {
            thread: 0,
            point: Point::Begin,
            until_thread: 1,
            until_point: Point::Answered,
        },
        Hold {
            thread: 1,
            point: Point::Answered,
            until_thread: 0,
            until_point: Point::Answered,
        },
    )
}

/// Thread 0 deposits, and thread 1 deposits and asks.
fn run_asking<R: Threads + Wait + Sync>(
    rt: &R,
    alloc: Global,
    gate: &HoldGate,
) -> Option<RunOutcome<Bank, MemPmem>> {
    let first = deposit(alloc, 0, 5).ok()?;
    let second = deposits_and_asks(alloc).ok()?;
    run_two(rt, alloc, first, second, &[], gate)
}

const ASKED: &[End] = &[
    End::Answered(1, BankReply::Done),
    End::Answered(2, BankReply::Amount(5)),
];

#[test]
fn a_read_that_has_to_look(rt: HostRuntime) -> Result<(), Fail> {
    let gate = second_first(rt.alloc())?;
    let Some(ran) = run_asking(&rt, rt.alloc(), &gate) else {
        return Err("not run".into());
    };
    let mut found = Found::new();
    found.must(!gate.expired(), "a hold ran out of turns");
    found.must(ran.threads.len() == 2, "other threads");
    found.must(ends_are(&ran, 0, DONE_SECOND), "other ends of thread 0");
    found.must(ends_are(&ran, 1, ASKED), "other ends of thread 1");
    found.must(threads_are(&ran, &[1, 0]), "another order");
    found.ended()
}
