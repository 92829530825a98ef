//! A run over the files of the system, and one that goes on from it: they say and keep what the same do over files in memory.

use crate::calls::Program;
use crate::system_files::{expect_logs, make_files, remove_files};
use onll_outside::{FileStore, FreeGate, MemStore, Store};
use std::alloc::Global;
use std::process::Abort;
use std::sync::Wait;
use std::test::Fail;
use std::thread::Threads;

const FOLDER: &str = "onll_tests_resume";

const FILES: &[(&str, &[u8])] = &[
    ("onll_tests_resume/bank", b"bank 2\naccount 0 100\n"),
    ("onll_tests_resume/first", b"transfer 0 1 30\n"),
    ("onll_tests_resume/second", b"deposit 1 5\nbalance 1\n"),
    ("onll_tests_resume/none", b""),
];

const LOGS: &[&str] = &["onll_tests_resume/log.0", "onll_tests_resume/log.1"];

const RUN: &[&str] = &[
    "run",
    "onll_tests_resume/bank",
    "onll_tests_resume/log",
    "onll_tests_resume/first",
    "onll_tests_resume/none",
];

const RESUME: &[&str] = &[
    "resume",
    "onll_tests_resume/bank",
    "onll_tests_resume/log",
    "onll_tests_resume/none",
    "onll_tests_resume/second",
];

const WENT_ON: &str = "resumed 1\n\
     call 1 1 deposit 1 5 -> ok at 2\n\
     call 1 2 balance 1 -> 35 at 2\n\
     trace 2\n\
     node 1 0 1 set transfer 0 1 30\n\
     node 2 1 1 set deposit 1 5\n\
     log 0 entries 1 lines 3 fences 0\n\
     log 1 entries 1 lines 3 fences 1\n\
     recovered 2\n\
     state\n\
     bank 2\n\
     account 0 70\n\
     account 1 35\n";

/// Runs the first thread's script over this store, and then goes on with the second's.
fn expect_both<R: Abort + Threads + Wait + Sync, S: Store>(
    rt: &R,
    alloc: Global,
    store: &mut S,
) -> Result<(), Fail> {
    Program::new(RUN, &[])
        .call(rt, alloc, store, &FreeGate)?
        .expect_line("the run", 0, "recovered 1")?;
    Program::new(RESUME, &[]).expect_over(rt, alloc, store, "the next generation", WENT_ON)
}

/// The store in memory over which the same was run.
fn memory_after<R: Abort + Threads + Wait + Sync>(rt: &R, alloc: Global) -> Result<MemStore, Fail> {
    let mut memory = Program::new(&[], FILES).store(alloc)?;
    expect_both(rt, alloc, &mut memory)?;
    Ok(memory)
}

#[test]
fn files_hold_what_memory_holds(rt: HostRuntime) -> Result<(), Fail> {
    let alloc = rt.alloc();
    make_files(&rt, FOLDER, FILES)?;
    expect_both(&rt, alloc, &mut FileStore::new(&rt))?;
    let memory = memory_after(&rt, alloc)?;
    expect_logs(&rt, &memory, LOGS)?;
    remove_files(&rt, FOLDER, FILES, LOGS)
}
