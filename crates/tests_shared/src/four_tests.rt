//! Four threads at once on each kind of object.
use crate::recovery::recovered;
use onll_bank::{Bank, BankOp, BankQuery, BankReply};
use onll_lease::{Lease, LeaseOp, LeaseQuery};
use onll_log::ThreadLog;
use onll_map::{Map, MapOp, MapQuery};
use onll_model::{Node, Object, fold_nodes};
use onll_outside::{FreeGate, Gate};
use onll_pmem::MemPmem;
use onll_queue::{Queue, QueueOp, QueueQuery, QueueReply};
use onll_shared::Closed;
use onll_trace::Ended;
use onll_words::Short;
use std::alloc::Global;
use std::sync::Wait;
use std::test::Fail;
use std::thread::Threads;
use tests_shared_calls::{CountGate, ObjectEnd, Work, four_threads, must};

/// How many updates four threads make.
const ALL: usize = 4000;

/// Whether the nodes are the trace's, with all flags set.
fn are_all(nodes: &[Node], trace: &[Ended]) -> bool {
    nodes.len() == ALL
        && trace.len() == ALL
        && nodes
            .iter()
            .zip(trace.iter())
            .all(|(node, end)| *node == end.node && end.flag)
}

/// Asserts that each log has one entry, made with one fence, for each update of its thread.
fn check_logs(logs: &[ThreadLog<MemPmem>]) -> Result<(), Fail> {
    for log in logs {
        must(
            log.fences() == 1000 && log.entries() == 1000,
            "other entries or fences",
        )?;
    }
    Ok(())
}

/// What the fold of the nodes that the logs recover to answers; they are the trace's.
fn folded<O: Object + Drop>(
    alloc: Global,
    mut object: O,
    closed: &Closed<MemPmem>,
    query: O::Query,
) -> Result<O::Reply, Fail> {
    let nodes = recovered(alloc, closed, 0).ok_or("no nodes")?;
    must(are_all(&nodes, &closed.trace), "not the trace")?;
    must(fold_nodes(&mut object, &nodes).is_ok(), "no fold")?;
    Ok(object.ask(query))
}

/// What four threads leave of an object: each update has one fence, and the logs recover the trace. Gives what the object
/// answered at last, and what the fold of the recovered nodes answers.
fn left_by_four<R: Threads + Wait + Sync, O: Object + Drop + Send + Sync, G: Gate + Sync>(
    rt: &R,
    alloc: Global,
    object: O,
    gate: &G,
    work: &Work<O>,
) -> Result<(O::Reply, O::Reply), Fail> {
    let fold = object.copy(alloc)?;
    let Some(ObjectEnd { answer, closed }) = four_threads(rt, alloc, object, gate, work) else {
        return Err("no memory".into());
    };
    must(answer.place == 4000, "another place")?;
    check_logs(&closed.logs)?;
    let folded = folded(alloc, fold, &closed, work.query)?;
    Ok((answer.reply, folded))
}

#[test]
fn four_threads_on_a_bank(rt: HostRuntime) -> Result<(), Fail> {
    let work = Work {
        even: BankOp::Deposit { a: 0, x: 3 },
        odd: BankOp::Transfer { a: 0, b: 1, x: 2 },
        query: BankQuery::Balance { a: 0 },
    };
    let bank = Bank::make(rt.alloc(), 2)?;
    let (answer, folded) = left_by_four(&rt, rt.alloc(), bank, &FreeGate, &work)?;
    let amount = BankReply::Amount(2000);
    must(answer == amount && folded == amount, "another amount")
}

#[test]
fn four_threads_on_a_map(rt: HostRuntime) -> Result<(), Fail> {
    let key = Short::read(b"key").ok_or("no text")?;
    let work = Work {
        even: MapOp::Put { k: key, v: key },
        odd: MapOp::Del { k: key },
        query: MapQuery::Get { k: key },
    };
    let map = Map::make(rt.alloc(), 2)?;
    let (answer, folded) = left_by_four(&rt, rt.alloc(), map, &FreeGate, &work)?;
    must(answer == folded, "another answer")
}

#[test]
fn four_threads_on_a_queue(rt: HostRuntime) -> Result<(), Fail> {
    let work = Work {
        even: QueueOp::Push { x: 7 },
        odd: QueueOp::Pop,
        query: QueueQuery::Length,
    };
    let queue = Queue::make(rt.alloc(), 4)?;
    let (answer, folded) = left_by_four(&rt, rt.alloc(), queue, &FreeGate, &work)?;
    let empty = QueueReply::Length(0);
    must(answer == empty && folded == empty, "another length")
}

#[test]
fn four_threads_on_leases(rt: HostRuntime) -> Result<(), Fail> {
    let work = Work {
        even: LeaseOp::Grant {
            r: 0,
            h: 1,
            now: 1,
            ttl: 0,
        },
        odd: LeaseOp::Grant {
            r: 1,
            h: 2,
            now: 1,
            ttl: 5,
        },
        query: LeaseQuery::Holder { r: 1, now: 2 },
    };
    let leases = Lease::make(rt.alloc(), 2)?;
    let (answer, folded) = left_by_four(&rt, rt.alloc(), leases, &FreeGate, &work)?;
    must(answer == folded, "another answer")
}

/// Each point that an update passes after it is ordered was reached once by each, and the first at least once by each.
#[test]
fn arrivals_of_four_threads(rt: HostRuntime) -> Result<(), Fail> {
    let work = Work {
        even: BankOp::Deposit { a: 0, x: 1 },
        odd: BankOp::Withdraw { a: 0, x: 1 },
        query: BankQuery::Total,
    };
    let gate = CountGate::new();
    let bank = Bank::make(rt.alloc(), 2)?;
    let (answer, folded) = left_by_four(&rt, rt.alloc(), bank, &gate, &work)?;
    must(answer == folded, "another answer")?;
    let [begin, ordered, walked, fenced, answered] = gate.all();
    must(
        [ordered, walked, fenced, answered] == [4000; 4] && begin >= 4000,
        "other points",
    )
}
