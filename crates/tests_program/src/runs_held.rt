//! Runs of two threads that a gate holds so that they overlap: were one thread run after the other, a hold would run out of turns.

use crate::calls::{Outcome, Program};
use crate::watch_gate::WatchGate;
use onll_outside::{FenceAt, Hold, MemStore, Point};
use std::alloc::Global;
use std::process::Abort;
use std::sync::Wait;
use std::test::Fail;
use std::thread::Threads;

const FILES: &[(&str, &[u8])] = &[
    ("b2", b"bank 2\n"),
    ("s0", b"deposit 0 5\n"),
    ("s1", b"deposit 1 7\n"),
    ("reads", b"deposit 1 7\nbalance 0\n"),
];

const TWO: &[&str] = &["run", "b2", "out", "s0", "s1"];

/// Thread 1 begins its update once thread 0's is ordered.
const SECOND_BEGINS: Hold = Hold {
    thread: 1,
    point: Point::Begin,
    until_thread: 0,
    until_point: Point::Ordered,
};

/// Runs the program over this store, with threads that are held so. No hold runs out of turns.
fn run_held<R: Abort + Threads + Wait + Sync>(
    rt: &R,
    alloc: Global,
    words: &[&str],
    store: &mut MemStore,
    holds: &[Hold],
) -> Result<Outcome, Fail> {
    let gate = WatchGate::new(alloc, holds)?;
    let outcome = Program::new(words, &[]).run_at(rt, alloc, store, &gate)?;
    assert!(rt; !gate.expired(), "a hold ran out of turns");
    Ok(outcome)
}

/// A run whose threads are held: its words, the holds, and how it ends.
#[derive(Clone, Copy)]
struct Held<'a> {
    words: &'a [&'a str],
    holds: &'a [Hold],
    status: u8,
    report: &'a str,
}

/// Makes this run over this store. It ends so, and what it says is legal.
fn expect_held<R: Abort + Threads + Wait + Sync>(
    rt: &R,
    alloc: Global,
    store: &mut MemStore,
    held: &Held<'_>,
) -> Result<(), Fail> {
    run_held(rt, alloc, held.words, store, held.holds)?.expect(
        "a held run",
        held.status,
        held.report,
    )?;
    Program::new(held.words, FILES).expect_legal(rt, alloc, held.report)
}

/// Thread 0's update is ordered, and held until thread 1's update has come behind it, made both durable, and was answered.
const HELPED: &[Hold] = &[
    SECOND_BEGINS,
    Hold {
        thread: 0,
        point: Point::Ordered,
        until_thread: 1,
        until_point: Point::Answered,
    },
];

const HELPED_REPORT: &str = "call 0 1 deposit 0 5 -> ok at 1\n\
     call 1 1 deposit 1 7 -> ok at 2\n\
     trace 2\n\
     node 1 0 1 set deposit 0 5\n\
     node 2 1 1 set deposit 1 7\n\
     log 0 entries 1 lines 3 fences 1\n\
     log 1 entries 1 lines 4 fences 1\n\
     recovered 2\n\
     state\n\
     bank 2\n\
     account 0 5\n\
     account 1 7\n";

#[test]
fn threads_overlap(rt: HostRuntime) -> Result<(), Fail> {
    let alloc = rt.alloc();
    let mut store = Program::new(TWO, FILES).store(alloc)?;
    let held = Held {
        words: TWO,
        holds: HELPED,
        status: 0,
        report: HELPED_REPORT,
    };
    expect_held(&rt, alloc, &mut store, &held)
}

/// Thread 0 begins its update once thread 1's is answered, and thread 1 goes on once thread 0's is answered.
const LOOKING: &[Hold] = &[
    Hold {
        thread: 0,
        point: Point::Begin,
        until_thread: 1,
        until_point: Point::Answered,
    },
    Hold {
        thread: 1,
        point: Point::Answered,
        until_thread: 0,
        until_point: Point::Answered,
    },
];

const LOOKING_REPORT: &str = "call 0 1 deposit 0 5 -> ok at 2\n\
     call 1 1 deposit 1 7 -> ok at 1\n\
     call 1 2 balance 0 -> 5 at 2\n\
     trace 2\n\
     node 1 1 1 set deposit 1 7\n\
     node 2 0 1 set deposit 0 5\n\
     log 0 entries 1 lines 3 fences 1\n\
     log 1 entries 1 lines 3 fences 1\n\
     recovered 2\n\
     state\n\
     bank 2\n\
     account 0 5\n\
     account 1 7\n";

#[test]
fn a_read_that_has_to_look(rt: HostRuntime) -> Result<(), Fail> {
    let alloc = rt.alloc();
    let words = &["run", "b2", "out", "s0", "reads"];
    let mut store = Program::new(words, FILES).store(alloc)?;
    let held = Held {
        words,
        holds: LOOKING,
        status: 0,
        report: LOOKING_REPORT,
    };
    expect_held(&rt, alloc, &mut store, &held)
}

/// The same as the first, but that thread 0 is held when it has walked, so that its own fence, which fails, comes last.
const WALKED: &[Hold] = &[
    SECOND_BEGINS,
    Hold {
        thread: 0,
        point: Point::Walked,
        until_thread: 1,
        until_point: Point::Answered,
    },
];

const BROKEN_REPORT: &str = "call 0 1 deposit 0 5 -> fence failed at 1\n\
     call 1 1 deposit 1 7 -> ok at 2\n\
     trace 2\n\
     node 1 0 1 unset deposit 0 5\n\
     node 2 1 1 set deposit 1 7\n\
     log 0 entries 1 lines 3 fences 1\n\
     log 1 entries 1 lines 4 fences 1\n\
     recovered 2\n\
     fault thread 0 place 1\n\
     state\n\
     bank 2\n\
     account 0 5\n\
     account 1 7\n";

const BROKEN_RECOVERED: &str = "log 0 entries 0 lines 1\n\
     log 1 entries 1 lines 4\n\
     recovered 2\n\
     node 1 0 1 deposit 0 5\n\
     node 2 1 1 deposit 1 7\n\
     state\n\
     bank 2\n\
     account 0 5\n\
     account 1 7\n";

/// What the broken run kept in this store is recovered.
fn expect_recovered<R: Threads + Wait + Sync>(
    rt: &R,
    alloc: Global,
    store: &mut MemStore,
) -> Result<(), Fail> {
    let outcome = Program::new(&["recover", "b2", "out", "2"], &[]).run_over(rt, alloc, store)?;
    outcome.expect("what was kept", 0, BROKEN_RECOVERED)
}

#[test]
fn a_window_keeps_what_a_failed_fence_lost(rt: HostRuntime) -> Result<(), Fail> {
    let alloc = rt.alloc();
    let fence = FenceAt {
        device: 0,
        fence: 2,
    };
    let mut store = Program::new(TWO, FILES).store_with(alloc, &[fence])?;
    let held = Held {
        words: TWO,
        holds: WALKED,
        status: 7,
        report: BROKEN_REPORT,
    };
    expect_held(&rt, alloc, &mut store, &held)?;
    expect_recovered(&rt, alloc, &mut store)
}
