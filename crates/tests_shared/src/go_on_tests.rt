//! Objects that go on from logs, and logs from which none goes on.
use crate::go_on::{are_logs, last_goes_on};
use crate::resumed::log_with;
use crate::steps::{ALL, Call, NO_NODE, NONE, Said, Step, take_steps};
use onll_bank::{Bank, BankOp, BankQuery};
use onll_log::ThreadLog;
use onll_merge::RecoverFault;
use onll_model::{Node, Object};
use onll_outside::FreeGate;
use onll_pmem::MemPmem;
use onll_shared::{GoOnFault, find_base};
use onll_trace::Ended;
use std::alloc::Global;
use std::sync::Wait;
use std::test::Fail;
use std::thread::Threads;
use tests_shared_calls::{ObjectEnd, Work, four_threads, must};

const DEPOSIT: BankOp = BankOp::Deposit { a: 0, x: 5 };

const BALANCE: BankQuery = BankQuery::Balance { a: 0 };

/// What four threads leave of a bank to which each deposited 5 a thousand times.
fn left<R: Threads + Wait + Sync>(rt: &R, alloc: Global) -> Result<ObjectEnd<Bank>, Fail> {
    let work = Work {
        even: DEPOSIT,
        odd: DEPOSIT,
        query: BALANCE,
    };
    let bank = Bank::make(alloc, 1)?;
    match four_threads(rt, alloc, bank, &FreeGate, &work) {
        Some(left) => Ok(left),
        None => Err("no memory".into()),
    }
}

/// Whether these are the trace's nodes.
fn are_nodes_of(nodes: &[Node], trace: &[Ended]) -> bool {
    nodes.len() == trace.len()
        && nodes
            .iter()
            .zip(trace.iter())
            .all(|(node, end)| *node == end.node)
}

/// Asserts that the logs hold the trace, with a mark for each entry.
fn check_base(alloc: Global, logs: &[ThreadLog<MemPmem>], trace: &[Ended]) -> Result<(), Fail> {
    if logs.is_empty() || logs.len() > 16 || !are_logs(logs) {
        return Err("no logs".into());
    }
    let Ok(base) = find_base(alloc, logs) else {
        return Err("no base".into());
    };
    must(are_nodes_of(&base.nodes, trace), "other nodes")?;
    must(base.marks.len() == 4000, "other marks")
}

/// What the last thread of four is told that goes on with room for one update.
const STEPS: &[Step] = &[
    (Call::Balance, Said::Balance(4000, 4000, 20000), NONE),
    (Call::Deposit, Said::Done(4001), ALL),
    NO_NODE,
];

/// Goes on from logs of four threads, with room for one update of each.
fn check_last(alloc: Global, logs: Vec<ThreadLog<MemPmem>>) -> Result<(), Fail> {
    let bank = Bank::make(alloc, 1)?;
    let Ok((onll, mut pass)) = last_goes_on(alloc, bank, logs, &[1, 1, 1, 1]) else {
        return Err("it doesn't go on".into());
    };
    take_steps(&onll, &mut pass, STEPS)
}

#[test]
fn an_object_goes_on_from_what_four_threads_left(rt: HostRuntime) -> Result<(), Fail> {
    let ObjectEnd { closed, .. } = left(&rt, rt.alloc())?;
    check_base(rt.alloc(), &closed.logs, &closed.trace)?;
    check_last(rt.alloc(), closed.logs)
}

/// Why a bank doesn't go on from logs.
fn fault_of(
    alloc: Global,
    logs: Vec<ThreadLog<MemPmem>>,
    rooms: &[u64],
) -> Result<Option<GoOnFault>, Fail> {
    let bank = Bank::make(alloc, 1)?;
    match last_goes_on(alloc, bank, logs, rooms) {
        Ok(_) => Err("it goes on".into()),
        Err(fault) => Ok(fault),
    }
}

#[test]
fn a_thread_has_no_numbers_left(rt: HostRuntime) -> Result<(), Fail> {
    let ObjectEnd { closed, .. } = left(&rt, rt.alloc())?;
    let fault = fault_of(rt.alloc(), closed.logs, &[3096, 3096, 3097, 3098])?;
    must(
        fault == Some(GoOnFault::NoRoom { thread: 2 }),
        "another fault",
    )
}

#[test]
fn a_log_begins_above_the_first_place(rt: HostRuntime) -> Result<(), Fail> {
    let node = Node {
        thread: 0,
        number: 1,
        row: Bank::op_row(DEPOSIT),
    };
    let log = log_with::<Bank>(rt.alloc(), 2, node).ok_or("no log")?;
    let fault = fault_of(rt.alloc(), vec![in rt.alloc(); log]?, &[1])?;
    must(
        fault == Some(GoOnFault::NotOneRun(RecoverFault::Gap { place: 1 })),
        "another fault",
    )
}
