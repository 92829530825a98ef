//! A run over the files of the system: it says and keeps what the same run over files in memory does, and what it kept is recovered.

use crate::calls::Program;
use crate::system_files::{expect_logs, make_files, remove_files};
use crate::watch_gate::WatchGate;
use onll_outside::{FileStore, Hold, MemStore, Point, Store};
use std::alloc::Global;
use std::process::Abort;
use std::sync::Wait;
use std::test::Fail;
use std::thread::Threads;

const FOLDER: &str = "onll_tests_run";

const FILES: &[(&str, &[u8])] = &[
    ("onll_tests_run/bank", b"bank 2\naccount 0 100\n"),
    ("onll_tests_run/first", b"transfer 0 1 30\n"),
    ("onll_tests_run/second", b"deposit 1 5\nbalance 1\n"),
];

const LOGS: &[&str] = &["onll_tests_run/log.0", "onll_tests_run/log.1"];

const RUN: &[&str] = &[
    "run",
    "onll_tests_run/bank",
    "onll_tests_run/log",
    "onll_tests_run/first",
    "onll_tests_run/second",
];

const RECOVER: &[&str] = &["recover", "onll_tests_run/bank", "onll_tests_run/log", "2"];

/// Thread 0 orders its update, and goes on when thread 1 has come behind it and was answered.
const HOLDS: &[Hold] = &[
    Hold {
        thread: 1,
        point: Point::Begin,
        until_thread: 0,
        until_point: Point::Ordered,
    },
    Hold {
        thread: 0,
        point: Point::Ordered,
        until_thread: 1,
        until_point: Point::Answered,
    },
];

const REPORT: &str = "call 0 1 transfer 0 1 30 -> ok at 1\n\
     call 1 1 deposit 1 5 -> ok at 2\n\
     call 1 2 balance 1 -> 35 at 2\n\
     trace 2\n\
     node 1 0 1 set transfer 0 1 30\n\
     node 2 1 1 set deposit 1 5\n\
     log 0 entries 1 lines 3 fences 1\n\
     log 1 entries 1 lines 4 fences 1\n\
     recovered 2\n\
     state\n\
     bank 2\n\
     account 0 70\n\
     account 1 35\n";

const RECOVERED: &str = "log 0 entries 1 lines 3\n\
     log 1 entries 1 lines 4\n\
     recovered 2\n\
     node 1 0 1 transfer 0 1 30\n\
     node 2 1 1 deposit 1 5\n\
     state\n\
     bank 2\n\
     account 0 70\n\
     account 1 35\n";

/// Runs the scripts over this store, with threads that this gate holds.
fn expect_held<R: Threads + Wait + Sync, S: Store>(
    rt: &R,
    alloc: Global,
    store: &mut S,
    gate: &WatchGate,
) -> Result<(), Fail> {
    Program::new(RUN, &[])
        .call(rt, alloc, store, gate)?
        .expect("the run", 0, REPORT)
}

/// Runs the scripts over this store, and then recovers what it kept.
fn expect_run<R: Abort + Threads + Wait + Sync, S: Store>(
    rt: &R,
    alloc: Global,
    store: &mut S,
) -> Result<(), Fail> {
    let gate = WatchGate::new(alloc, HOLDS)?;
    expect_held(rt, alloc, store, &gate)?;
    assert!(rt; !gate.expired());
    Program::new(RECOVER, &[]).expect_over(rt, alloc, store, "its logs", RECOVERED)
}

/// The store in memory over which the same was run.
fn memory_after<R: Abort + Threads + Wait + Sync>(rt: &R, alloc: Global) -> Result<MemStore, Fail> {
    let mut memory = Program::new(RUN, FILES).store(alloc)?;
    expect_run(rt, alloc, &mut memory)?;
    Ok(memory)
}

#[test]
fn files_hold_what_memory_holds(rt: HostRuntime) -> Result<(), Fail> {
    let alloc = rt.alloc();
    make_files(&rt, FOLDER, FILES)?;
    expect_run(&rt, alloc, &mut FileStore::new(&rt))?;
    let memory = memory_after(&rt, alloc)?;
    expect_logs(&rt, &memory, LOGS)?;
    remove_files(&rt, FOLDER, FILES, LOGS)
}
