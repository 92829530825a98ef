//! Runs of scripts on threads in which a call of the store fails: how often threads came to the gate, and which logs are kept.

use crate::calls::Program;
use crate::watch_gate::WatchGate;
use onll_outside::{Hold, MemStore, Point};
use std::alloc::Global;
use std::process::Abort;
use std::sync::Wait;
use std::test::Fail;
use std::thread::Threads;

const FILES: &[(&str, &[u8])] = &[
    ("b2", b"bank 2\n"),
    ("s0", b"deposit 0 5\n"),
    ("s1", b"deposit 1 7\n"),
    ("out.0", b"first"),
    ("out.1", b"second"),
];

const TWO: &[&str] = &["run", "b2", "out", "s0", "s1"];

/// One thread after the other.
const IN_TURN: &[Hold] = &[Hold {
    thread: 1,
    point: Point::Begin,
    until_thread: 0,
    until_point: Point::Answered,
}];

/// A run of which a call of the store fails: its number, how the run ends, how often threads have come to the gate, and how many
/// logs are kept.
struct CallCase<'a> {
    call: u64,
    status: u8,
    output: &'a str,
    arrivals: u64,
    kept: usize,
}

/// The initial state and the scripts are read, all devices are made before the first update, and the logs are kept after the last.
const CALLS: &[CallCase<'static>] = &[
    CallCase {
        call: 1,
        status: 5,
        output: "read fault b2\n",
        arrivals: 0,
        kept: 0,
    },
    CallCase {
        call: 2,
        status: 5,
        output: "read fault s0\n",
        arrivals: 0,
        kept: 0,
    },
    CallCase {
        call: 3,
        status: 5,
        output: "read fault s1\n",
        arrivals: 0,
        kept: 0,
    },
    CallCase {
        call: 4,
        status: 6,
        output: "write fault out.0\n",
        arrivals: 0,
        kept: 0,
    },
    CallCase {
        call: 5,
        status: 6,
        output: "write fault out.1\n",
        arrivals: 0,
        kept: 0,
    },
    CallCase {
        call: 6,
        status: 6,
        output: "write fault out.0\n",
        arrivals: 10,
        kept: 0,
    },
    CallCase {
        call: 7,
        status: 6,
        output: "write fault out.1\n",
        arrivals: 10,
        kept: 1,
    },
    CallCase {
        call: 8,
        status: 0,
        output: "call 0 1 deposit 0 5 -> ok at 1\n\
             call 1 1 deposit 1 7 -> ok at 2\n\
             trace 2\n\
             node 1 0 1 set deposit 0 5\n\
             node 2 1 1 set deposit 1 7\n\
             log 0 entries 1 lines 3 fences 1\n\
             log 1 entries 1 lines 3 fences 1\n\
             recovered 2\n\
             state\n\
             bank 2\n\
             account 0 5\n\
             account 1 7\n",
        arrivals: 10,
        kept: 2,
    },
];

/// What the files of the logs hold before a run, each another text.
const BEFORE: &[(&str, &[u8])] = &[("out.0", b"first"), ("out.1", b"second")];

/// What `show` prints of the logs that are kept.
const SHOWN: &[&str] = &[
    "log thread 0 threads 2 object bank\n\
     entry 1 place 1 count 1\n\
     row 1 0 1 1 0 5 0 0 0 0\n\
     entries 1 lines 3\n",
    "log thread 1 threads 2 object bank\n\
     entry 1 place 2 count 1\n\
     row 2 1 1 1 1 7 0 0 0 0\n\
     entries 1 lines 3\n",
];

/// The file of a log that is not kept is as it was.
fn expect_before<R: Abort>(rt: &R, store: &MemStore, name: &str, before: &[u8]) {
    let held = store.file(name).unwrap_or(b"");
    assert!(rt; held == before, "{name} is not as it was");
}

/// What `show` prints of the file of a log that is kept.
fn expect_shown<R: Threads + Wait + Sync>(
    rt: &R,
    alloc: Global,
    store: &MemStore,
    name: &str,
    shown: &str,
) -> Result<(), Fail> {
    let held = store.file(name).unwrap_or(b"");
    let outcome = Program::new(&["show", name], &[(name, held)]).run(rt, alloc)?;
    outcome.expect(name, 0, shown)
}

/// So many of the logs are kept, and the files of the others are as they were.
fn expect_logs<R: Abort + Threads + Wait + Sync>(
    rt: &R,
    alloc: Global,
    store: &MemStore,
    kept: usize,
) -> Result<(), Fail> {
    for (index, (name, before)) in BEFORE.iter().enumerate() {
        if index < kept {
            let shown = SHOWN.get(index).unwrap_or(&"");
            expect_shown(rt, alloc, store, name, shown)?;
        } else {
            expect_before(rt, store, name, before);
        }
    }
    Ok(())
}

/// Makes a run over this store, whose threads come to the gate so often.
fn expect_call<R: Abort + Threads + Wait + Sync>(
    rt: &R,
    alloc: Global,
    store: &mut MemStore,
    case: &CallCase<'_>,
) -> Result<(), Fail> {
    let gate = WatchGate::new(alloc, IN_TURN)?;
    let run = Program::new(TWO, &[]).run_at(rt, alloc, store, &gate)?;
    run.expect(case.output, case.status, case.output)?;
    assert_eq!(rt; gate.arrivals(), case.arrivals, "call {}", case.call);
    assert!(rt; !gate.expired());
    Ok(())
}

/// Makes a run of which this call of the store fails, and looks at the logs.
fn fail_call<R: Abort + Threads + Wait + Sync>(
    rt: &R,
    alloc: Global,
    case: &CallCase<'_>,
) -> Result<(), Fail> {
    let program = Program {
        words: TWO,
        files: FILES,
        failing_calls: &[case.call],
        failing_puts: &[],
    };
    let mut store = program.store(alloc)?;
    expect_call(rt, alloc, &mut store, case)?;
    expect_logs(rt, alloc, &store, case.kept)
}

#[test]
fn calls_that_fail_in_turn(rt: HostRuntime) -> Result<(), Fail> {
    for case in CALLS {
        fail_call(&rt, rt.alloc(), case)?;
    }
    Ok(())
}
