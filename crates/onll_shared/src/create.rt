//! A shared object at its beginning.

ghost use Rattle.std.specs.Prelude.{◌≡◌, ◌≤◌, ◌<◌, ◌*◌, [], length, map, replicate, IfOk, None};
ghost use Rattle.onll_model.specs.Limits.{most_threads, most_updates};
ghost use Rattle.std.specs.List.{AllByRecursion};
ghost use Rattle.onll_model.specs.Trace.{state_after};
ghost use Rattle.onll_model.specs.Marks.{marked};
ghost use Rattle.onll_trace.specs.Plans.{CanResume, base_place, new_plan};
ghost use Rattle.onll_shared.specs.Starts.{AreLogs, AreMade, HasBegun, entries_of, AreOfPlan};

use crate::onll::Onll;
use crate::pass::{Pass, log_facts};
use crate::walk::apply_row;
use arrayvec::ArrayVec;
use onll_log::ThreadLog;
use onll_model::{Mark, Node, Object};
use onll_pmem::Pmem;
use onll_trace::{Spot, Trace};
use onll_words::NoMemory;
use std::alloc::{AllocError, Global};

// A pass of the trace's spot and a log, which begins at the base with this replica.
fn make_pass<O: Object + Drop, P: Pmem + Drop>(
    alloc: Global,
    trace: &Trace,
    replica: &O,
    spot: Spot,
    log: ThreadLog<P>,
    room: u64,
) -> Result<Pass<O, P>, NoMemory>
    requires plan { spot.plan ≡ trace.now.plan }
    requires seen { spot.me.part.seen ≡ base_place trace.now.plan }
    ensures { let at = base_place trace.now.plan in IfOk result (λ pass.
        pass ≡ record { spot = spot; log = log; replica = replica.now; at = at; room = room; broken = None }) }
{
    let at = trace.base();
    let nodes = trace.nodes() * trace.threads();
    Ok(Pass {
        spot,
        log,
        replica: replica.copy(alloc)?,
        at,
        room,
        seen: at,
        broken: None,
        list: Vec::with_capacity(alloc, nodes as usize)?,
        window: ArrayVec::new(),
    })
}

// A pass of each spot and log, which begins at the base with this replica.
fn make_passes<O: Object + Drop, P: Pmem + Drop>(
    alloc: Global,
    trace: &Trace,
    replica: &O,
    mut spots: Vec<Spot>,
    mut logs: Vec<ThreadLog<P>>,
    rooms: &[u64],
) -> Result<Vec<Pass<O, P>>, NoMemory>
    requires spots { length spots.items ≡ length rooms.now }
    requires logs { length logs.items ≡ length rooms.now }
    requires plan { AreOfPlan trace.now.plan spots.items }
    ensures { IfOk result (λ passes. AreMade P.means replica.now
        (base_place trace.now.plan) spots.items logs.items rooms.now passes.items) }
{
    let mut passes = Vec::with_capacity(alloc, rooms.len())?;
    while let Some(spot) = spots.pop() {
        let Some(log) = logs.pop() else {
            unreachable!()
        };
        spot.facts();
        log_facts(&log);
        let room = rooms[spots.len()];
        let pass = make_pass(alloc, trace, replica, spot, log, room)?;
        passes.push(pass)?;
    }
    passes.reverse();
    Ok(passes)
}

// The same room for each of so many threads.
fn equal_rooms(alloc: Global, count: usize, room: u64) -> Result<Vec<u64>, AllocError>
    ensures { IfOk result (λ rooms. rooms.items ≡ replicate count room) }
{
    vec![in alloc; room; count]
}

// Applies the rows of nodes.
fn fold_base<O: Object>(object: &mut O, base: &[Node])
    ensures { object.new ≡ state_after O.means object.old base.now }
{
    for node in base {
        apply_row(object, node.row);
    }
}

impl<O: Object + Drop> Onll<O> {
    /// A shared object, and a pass for each log. The logs have no entry, and heads of the newest format.
    pub fn create<P: Pmem + Drop>(
        alloc: Global,
        object: O,
        logs: Vec<ThreadLog<P>>,
        nodes: u64,
    ) -> Result<(Onll<O>, Vec<Pass<O, P>>), NoMemory>
        requires many { (1 ≤ length logs.items) × (length logs.items ≤ most_threads) }
        requires nodes { (1 ≤ nodes) × (nodes ≤ most_updates) }
        requires logs { AreLogs logs.items }
        requires none { AllByRecursion (λ log. log.entries ≡ []) logs.items }
        ensures object { IfOk result (λ r. (r.0.first ≡ object) × (r.0.trace.plan ≡ new_plan (length logs.items) nodes)) }
        ensures passes { IfOk result (λ r. HasBegun O.means P.means r.0 logs.items (replicate (length logs.items) nodes) r.1.items) }
    {
        let count = logs.len();
        let rooms = equal_rooms(alloc, count, nodes)?;
        let (trace, spots) = Trace::create(alloc, count as u64, nodes)?;
        let passes = make_passes(alloc, &trace, &object, spots, logs, &rooms)?;
        Ok((
            Onll {
                trace,
                first: object,
            },
            passes,
        ))
    }

    #[tactic(auto, using(crate::proofs::Starting::begun_on))]
    /// A shared object that goes on from recovered nodes, of which each log's entries hold those that its marks name. Each pass
    /// may order as many updates as its room.
    pub fn resume_marked<P: Pmem + Drop>(
        alloc: Global,
        object: O,
        base: &[Node],
        marks: &[Mark],
        logs: Vec<ThreadLog<P>>,
        rooms: &[u64],
    ) -> Result<(Onll<O>, Vec<Pass<O, P>>), NoMemory>
        requires resume { CanResume base.now marks.now rooms.now }
        requires logs { AreLogs logs.items }
        requires entries { map entries_of logs.items ≡ marked (length rooms.now) base.now marks.now }
        ensures object { IfOk result (λ r. (r.0.first ≡ object) × (r.0.trace.plan.base ≡ base.now)) }
        ensures passes { IfOk result (λ r. HasBegun O.means P.means r.0 logs.items rooms.now r.1.items) }
    {
        let (trace, spots) = Trace::resume(alloc, base, marks, rooms)?;
        let mut replica = object.copy(alloc)?;
        fold_base(&mut replica, base);
        let passes = make_passes(alloc, &trace, &replica, spots, logs, rooms)?;
        Ok((
            Onll {
                trace,
                first: object,
            },
            passes,
        ))
    }
}
