//! A shared object that goes on from what the logs of all threads hold.

ghost use Rattle.std.specs.Prelude.{◌≡◌, ◌+◌, ◌≤◌, ◌↔◌, true, length, map, Ok, IfOk, IfErr, MatchOption, MatchResult, count_by};
ghost use Rattle.onll_model.specs.Limits.{most_threads, most_updates};
ghost use Rattle.onll_model.specs.Trace.{is_of_thread};
ghost use Rattle.onll_merge.specs.Merge.{merge};
ghost use Rattle.onll_trace.specs.Plans.{HasRooms};
ghost use Rattle.onll_shared.specs.Starts.{AreLogs, HasBegun};
ghost use Rattle.onll_shared.specs.Found.{HoldBase, content_held, head_held};
ghost use Rattle.onll_shared.specs.GoesOn.{CannotGoOn, IsFull};

use crate::found::{Base, find_base, mark_logs};
use crate::onll::Onll;
use crate::pass::Pass;
use onll_log::ThreadLog;
use onll_merge::RecoverFault;
use onll_model::{MOST_UPDATES, Node, Object};
use onll_pmem::Pmem;
use onll_words::NoMemory;
use std::alloc::Global;
use thiserror::Error;

/// Why no object goes on from logs. The first of these that stands is answered, in this order, but for want of memory.
#[derive(Clone, Copy, Debug, PartialEq, Eq, Error)]
pub enum GoOnFault {
    /// The logs are not those of one run.
    #[error("{0}")]
    NotOneRun(RecoverFault),
    /// The first thread whose nodes and room are more than the numbers that a thread has.
    #[error("thread {thread} has too few numbers left for its room")]
    NoRoom { thread: u64 },
    /// Memory ran out.
    #[error("out of memory")]
    NoMemory,
}

/// Whether a thread has numbers left for so many nodes more.
fn has_room(base: &[Node], thread: u64, room: u64) -> bool
    ensures { (result ≡ true) ↔ (count_by (is_of_thread thread) base.now + room ≤ most_updates) }
{
    let count = base.iter().filter(|node| node.thread == thread).count() as u64;
    count <= MOST_UPDATES && room <= MOST_UPDATES - count
}

/// The first thread whose nodes and room are more than the numbers that a thread has.
fn first_full(base: &[Node], rooms: &[u64]) -> Option<u64>
    ensures { MatchOption result (HasRooms base.now rooms.now most_updates) (λ t. IsFull base.now rooms.now t) }
{
    for thread in 0..rooms.len() {
        if !has_room(base, thread as u64, rooms[thread]) {
            return Some(thread as u64);
        }
    }
    None
}

/// The nodes that the logs hold, with their marks.
fn base_of<P: Pmem>(alloc: Global, logs: &[ThreadLog<P>], rooms: &[u64]) -> Result<Base, GoOnFault>
    requires many { (1 ≤ length logs.now) × (length logs.now ≤ most_threads) }
    requires logs { AreLogs logs.now }
    ensures { MatchResult result (λ base. HoldBase logs.now base.nodes.items base.marks.items) (CannotGoOn logs.now rooms.now) }
{
    match find_base(alloc, logs) {
        Ok(base) => Ok(base),
        Err(RecoverFault::NoMemory) => Err(GoOnFault::NoMemory),
        Err(fault) => Err(GoOnFault::NotOneRun(fault)),
    }
}

impl<O: Object + Drop> Onll<O> {
    /// A shared object that goes on from the nodes that the logs merge to, over its initial state, and a pass for each log, which may
    /// order as many updates as its room.
    pub fn resume<P: Pmem + Drop>(
        alloc: Global,
        object: O,
        base: &[Node],
        logs: Vec<ThreadLog<P>>,
        rooms: &[u64],
    ) -> Result<(Onll<O>, Vec<Pass<O, P>>), NoMemory>
        requires many { (1 ≤ length logs.items) × (length logs.items ≤ most_threads) }
        requires logs { AreLogs logs.items }
        requires merged { merge (map head_held logs.items) (map content_held logs.items) ≡ Ok base.now }
        requires count { length rooms.now ≡ length logs.items }
        requires rooms { HasRooms base.now rooms.now most_updates }
        ensures object { IfOk result (λ r. (r.0.first ≡ object) × (r.0.trace.plan.base ≡ base.now)) }
        ensures passes { IfOk result (λ r. HasBegun O.means P.means r.0 logs.items rooms.now r.1.items) }
    {
        let marks = mark_logs(alloc, &logs)?;
        Onll::resume_marked(alloc, object, base, &marks, logs, rooms)
    }

    /// A shared object that goes on from what the logs of all threads hold, and a pass for each log, which may order as many
    /// updates as its room.
    pub fn go_on<P: Pmem + Drop>(
        alloc: Global,
        object: O,
        logs: Vec<ThreadLog<P>>,
        rooms: &[u64],
    ) -> Result<(Onll<O>, Vec<Pass<O, P>>), GoOnFault>
        requires many { (1 ≤ length logs.items) × (length logs.items ≤ most_threads) }
        requires logs { AreLogs logs.items }
        requires rooms { length rooms.now ≡ length logs.items }
        ensures object { IfOk result (λ r. r.0.first ≡ object) }
        ensures base { IfOk result (λ r. merge (map head_held logs.items) (map content_held logs.items) ≡ Ok r.0.trace.plan.base) }
        ensures passes { IfOk result (λ r. HasBegun O.means P.means r.0 logs.items rooms.now r.1.items) }
        ensures refused { IfErr result (CannotGoOn logs.items rooms.now) }
    {
        let base = base_of(alloc, &logs, rooms)?;
        if let Some(thread) = first_full(&base.nodes, rooms) {
            return Err(GoOnFault::NoRoom { thread });
        }
        match Onll::resume_marked(alloc, object, &base.nodes, &base.marks, logs, rooms) {
            Ok(begun) => Ok(begun),
            Err(_) => Err(GoOnFault::NoMemory),
        }
    }
}
