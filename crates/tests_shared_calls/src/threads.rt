//! Threads that work on one object at once, each with a pass of its own.
ghost use Rattle.std.specs.Prelude.{◌≡◌, ◌≤◌, ◌<◌, IfOk};
ghost use Rattle.onll_pmem.specs.Memory.{memory_view};
ghost use Rattle.onll_shared.specs.Passes.{IsTied};
ghost use Rattle.tests_shared_calls.specs.Tied.{AreTied};

use crate::fixture::make_logs;
use onll_model::Object;
use onll_outside::Gate;
use onll_pmem::MemPmem;
use onll_shared::{Answered, Closed, Onll, Pass};
use onll_words::NoMemory;
use std::alloc::Global;
use std::sync::Wait;
use std::thread;
use std::thread::Threads;

/// How many updates each thread makes. Every fourth is followed by a read.
pub const UPDATES: u64 = 1000;

/// How many lines each log has: enough for windows of four nodes.
const LINES: u64 = 20000;

/// What each thread does: two operations in turn, and a query.
#[derive(Drop)]
pub struct Work<O: Object> {
    pub even: O::Op,
    pub odd: O::Op,
    pub query: O::Query,
}

impl<O: Object> Work<O> {
    /// The operation of this turn.
    fn op(&self, turn: u64) -> O::Op {
        if turn % 2 == 0 { self.even } else { self.odd }
    }
}

/// An object with a pass for each of so many threads.
pub fn open_all<O: Object + Drop>(
    alloc: Global,
    object: O,
    threads: u64,
) -> Result<(Onll<O>, Vec<Pass<O, MemPmem>>), NoMemory>
    requires threads { (1 ≤ threads) × (threads ≤ 16) }
    ensures tied { IfOk result (λ r. AreTied O.means memory_view r.0 r.1.items) }
{
    let logs = make_logs::<O>(alloc, threads, LINES, 0)?;
    Onll::create(alloc, object, logs, UPDATES)
}

/// The update of one turn, and a read after every fourth.
fn turn<R: Wait, O: Object, G: Gate>(
    rt: &R,
    onll: &Onll<O>,
    gate: &G,
    pass: &mut Pass<O, MemPmem>,
    work: &Work<O>,
    turn: u64,
)
    requires tied { IsTied O.means memory_view onll.now pass.old }
    ensures tied { IsTied O.means memory_view onll.now pass.new }
    ensures thread { pass.new.spot.me.thread ≡ pass.old.spot.me.thread }
{
    let _ = onll.update(rt, pass, work.op(turn), gate);
    if turn % 4 == 3 {
        let _ = onll.read(pass, work.query);
    }
}

/// All turns of one thread. It gives its pass back.
fn all_turns<R: Wait, O: Object, G: Gate>(
    rt: &R,
    onll: &Onll<O>,
    gate: &G,
    mut pass: Pass<O, MemPmem>,
    work: &Work<O>,
) -> Pass<O, MemPmem>
    requires tied { IsTied O.means memory_view onll.now pass }
    ensures tied { IsTied O.means memory_view onll.now result }
    ensures thread { result.spot.me.thread ≡ pass.spot.me.thread }
{
    for i in 0..UPDATES {
        turn(rt, onll, gate, &mut pass, work, i);
    }
    pass
}

/// A thread for each pass, which works on the object with it. The passes come back in their order.
pub fn work_all<R: Threads + Wait + Sync, O: Object + Drop + Send + Sync, G: Gate + Sync>(
    rt: &R,
    onll: &Onll<O>,
    gate: &G,
    passes: Vec<Pass<O, MemPmem>>,
    work: &Work<O>,
) -> Result<Vec<Pass<O, MemPmem>>, NoMemory>
    requires tied { AreTied O.means memory_view onll.now passes.items }
    ensures tied { IfOk result (λ all. AreTied O.means memory_view onll.now all.items) }
{
    let all = thread::map_vec(
        rt,
        passes,
        &|pass: Pass<O, MemPmem>| -> Pass<O, MemPmem>
            requires tied { IsTied O.means memory_view onll.now pass }
            ensures tied { IsTied O.means memory_view onll.entry.now result }
            ensures thread { result.spot.me.thread ≡ pass.spot.me.thread }
        { all_turns(rt, onll, gate, pass, work) },
    )?;
    Ok(all)
}

/// What the last pass reads.
pub fn read_last<O: Object + Drop>(
    onll: &Onll<O>,
    passes: &mut Vec<Pass<O, MemPmem>>,
    query: O::Query,
) -> Option<Answered<O>>
    requires tied { AreTied O.means memory_view onll.now passes.old.items }
    ensures tied { AreTied O.means memory_view onll.now passes.new.items }
{
    let Some(mut pass) = passes.pop() else {
        return None;
    };
    let answer = onll.read(&mut pass, query);
    passes.push_reserved(pass);
    Some(answer)
}

/// What threads leave of an object: the answer of a read after all of them, and the object's end.
#[derive(Drop)]
pub struct ObjectEnd<O: Object> {
    pub answer: Answered<O>,
    pub closed: Closed<MemPmem>,
}

/// Four threads work on an object, and it is closed. None where memory runs out.
pub fn four_threads<R: Threads + Wait + Sync, O: Object + Drop + Send + Sync, G: Gate + Sync>(
    rt: &R,
    alloc: Global,
    object: O,
    gate: &G,
    work: &Work<O>,
) -> Option<ObjectEnd<O>> {
    let Ok((onll, passes)) = open_all(alloc, object, 4) else {
        return None;
    };
    let Ok(mut passes) = work_all(rt, &onll, gate, passes, work) else {
        return None;
    };
    let answer = read_last(&onll, &mut passes, work.query)?;
    let Ok(closed) = onll.close(alloc, passes) else {
        return None;
    };
    Some(ObjectEnd { answer, closed })
}
