//! A shared object that goes on from one node.
ghost use Rattle.std.specs.Prelude.{◌≡◌, ◌≤◌, [], ◌∷◌, IfSome};
ghost use Rattle.onll_pmem.specs.Memory.{memory_view};
ghost use Rattle.onll_shared.specs.Passes.{IsTied};
ghost use Rattle.onll_shared.specs.Starts.{IsWholeLogOf};

use onll_log::{LogHead, ThreadLog};
use onll_model::{Node, Object};
use onll_pmem::MemPmem;
use onll_shared::{Onll, Pass, find_base};
use std::alloc::Global;
use tests_shared_calls::INIT;

/// A log of one thread that holds its first node alone, in one entry at this place.
pub fn log_with<O: Object>(alloc: Global, place: u64, node: Node) -> Option<ThreadLog<MemPmem>>
    requires place { (1 ≤ place) × (place ≤ 2) }
    requires node { (node.thread ≡ 0) × (node.number ≡ 1) }
    ensures log { IfSome result (λ log. IsWholeLogOf 1 0 log) }
    ensures entries { IfSome result (λ log. log.entries ≡ record { place = place; nodes = node ∷ [] } ∷ []) }
{
    let device = MemPmem::new(alloc, 100, Vec::new(alloc)).ok()?;
    let Ok(mut log) = ThreadLog::make(device, LogHead::new(0, 1, O::CODE, INIT)) else {
        return None;
    };
    let Ok(()) = log.append(place, &[node]) else {
        return None;
    };
    Some(log)
}

#[tactic(auto, using(crate::proofs::Rooms::one_room))]
/// An object that goes on from one update of its one thread, and the pass of that, which may order so many more.
pub fn resume_one<O: Object + Drop>(
    alloc: Global,
    object: O,
    op: O::Op,
    room: u64,
) -> Option<(Onll<O>, Pass<O, MemPmem>)>
    requires room { room ≤ 4095 }
    ensures { IfSome result (λ r. IsTied O.means memory_view r.0 r.1) }
{
    let node = Node {
        thread: 0,
        number: 1,
        row: O::op_row(op),
    };
    let log = log_with::<O>(alloc, 1, node)?;
    let Ok(logs) = vec![in alloc; log] else {
        return None;
    };
    let Ok(base) = find_base(alloc, &logs) else {
        return None;
    };
    if base.nodes.len() != 1 {
        return None;
    }
    let Ok((onll, mut passes)) = Onll::resume(alloc, object, &base.nodes, logs, &[room]) else {
        return None;
    };
    let pass = passes.pop()?;
    Some((onll, pass))
}
