//! Runs of two threads that no gate puts into an order: each order in which their updates may come is legal, and is told.

use crate::calls::{Outcome, Program};
use crate::watch_gate::WatchGate;
use onll_outside::{Hold, MemStore, Point};
use std::alloc::Global;
use std::process::Abort;
use std::sync::Wait;
use std::test::Fail;
use std::thread::Threads;

const INIT: &[u8] = b"bank 2\naccount 0 100\n";

const FILES: &[(&str, &[u8])] = &[
    ("i", INIT),
    ("s0", b"transfer 0 1 60\ntransfer 0 1 60\ntransfer 1 0 20\n"),
    ("s1", b"transfer 1 0 30\ntransfer 0 1 10\ntransfer 1 0 70\n"),
];

const RUN: &[&str] = &["run", "i", "out", "s0", "s1"];

/// Neither thread begins before the other. They are held nowhere else.
const TOGETHER: &[Hold] = &[
    Hold {
        thread: 0,
        point: Point::Begin,
        until_thread: 1,
        until_point: Point::Begin,
    },
    Hold {
        thread: 1,
        point: Point::Begin,
        until_thread: 0,
        until_point: Point::Begin,
    },
];

/// What a report says of the state.
fn state_of(report: &str) -> &str {
    report
        .split_once("\nstate\n")
        .map_or("no state", |(_, state)| state)
}

/// What follows two texts in a line that begins with them.
fn after<'a>(line: &'a str, first: &str, second: &str) -> Option<&'a str> {
    line.strip_prefix(first)?.strip_prefix(second)
}

/// Whether a recovery has the node that these words name, with this call.
fn has_recovered(recovered: &str, name: &str, call: &str) -> bool {
    for line in recovered.lines() {
        if after(line, name, " ") == Some(call) {
            return true;
        }
    }
    false
}

/// A recovery found the nodes of a run, and its state.
fn expect_recovered<R: Abort>(rt: &R, report: &str, recovered: &str) {
    assert_eq!(rt; state_of(report), state_of(recovered));
    for line in report.lines() {
        if let Some((name, call)) = line.split_once(" set ") {
            assert!(rt;
                has_recovered(recovered, name, call),
                "{name}: not recovered"
            );
        }
    }
}

/// Runs both scripts over this store. No hold runs out of turns, and each update is answered once.
fn run_together<R: Abort + Threads + Wait + Sync>(
    rt: &R,
    alloc: Global,
    store: &mut MemStore,
) -> Result<Outcome, Fail> {
    let gate = WatchGate::new(alloc, TOGETHER)?;
    let run = Program::new(RUN, FILES).run_at(rt, alloc, store, &gate)?;
    assert!(rt; !gate.expired() && gate.each_once());
    Ok(run)
}

/// A run over this store that made six updates, in a legal order.
fn legal_run<R: Abort + Threads + Wait + Sync>(
    rt: &R,
    alloc: Global,
    store: &mut MemStore,
) -> Result<Outcome, Fail> {
    let run = run_together(rt, alloc, store)?;
    run.expect_line("the run", 0, "trace 6")?;
    Program::new(RUN, FILES).expect_legal(rt, alloc, run.text())?;
    Ok(run)
}

/// Recovers what a run left in this store.
fn recovered_of<R: Threads + Wait + Sync>(
    rt: &R,
    alloc: Global,
    store: &mut MemStore,
) -> Result<Outcome, Fail> {
    let recovered = Program::new(&["recover", "i", "out", "2"], &[]).run_over(rt, alloc, store)?;
    recovered.expect_line("the logs", 0, "recovered 6")?;
    Ok(recovered)
}

#[test]
fn any_legal_order(rt: HostRuntime) -> Result<(), Fail> {
    let alloc = rt.alloc();
    let mut store = Program::new(RUN, FILES).store(alloc)?;
    let run = legal_run(&rt, alloc, &mut store)?;
    let recovered = recovered_of(&rt, alloc, &mut store)?;
    expect_recovered(&rt, run.text(), recovered.text());
    Ok(())
}
