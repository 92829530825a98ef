//! Shared objects of one thread and of two, over devices in memory.
ghost use Rattle.std.specs.Prelude.{◌≡◌, ◌≤◌, [], length, IfOk, IfSome};
ghost use Rattle.std.specs.List.{AllByRecursion};
ghost use Rattle.onll_shared.specs.Starts.{AreLogs};
ghost use Rattle.onll_pmem.specs.Memory.{memory_view};
ghost use Rattle.onll_shared.specs.Passes.{IsTied};

use onll_log::{LogHead, ThreadLog};
use onll_model::Object;
use onll_pmem::MemPmem;
use onll_shared::{Onll, Pass};
use onll_words::NoMemory;
use std::alloc::Global;

/// The text that the logs' heads digest.
pub const INIT: &[u8] = b"initial\n";

#[tactic(auto, using(crate::proofs::Made::made_more))]
/// Logs over devices in memory, one for each thread. The fence of this number, from 1, fails on each device; fence 1 is the head's.
pub fn make_logs<O: Object>(
    alloc: Global,
    threads: u64,
    lines: u64,
    failing: u64,
) -> Result<Vec<ThreadLog<MemPmem>>, NoMemory>
    requires threads { threads ≤ 16 }
    requires lines { lines ≤ 1000000 }
    ensures many { IfOk result (λ logs. length logs.items ≡ threads) }
    ensures logs { IfOk result (λ logs. AreLogs logs.items) }
    ensures none { IfOk result (λ logs. AllByRecursion (λ log. log.entries ≡ []) logs.items) }
{
    let mut logs = Vec::new(alloc);
    for t in 0..threads {
        let device = MemPmem::new(alloc, lines, vec![in alloc; failing]?)?;
        let head = LogHead::new(t, threads, O::CODE, INIT);
        let Ok(log) = ThreadLog::make(device, head) else {
            return Err(NoMemory);
        };
        logs.push(log)?;
    }
    Ok(logs)
}

#[tactic(auto, using(crate::proofs::Made::tied_last))]
/// An object with the pass of its one thread.
pub fn open_one<O: Object + Drop>(
    alloc: Global,
    object: O,
    lines: u64,
    nodes: u64,
    failing: u64,
) -> Option<(Onll<O>, Pass<O, MemPmem>)>
    requires lines { lines ≤ 1000000 }
    requires nodes { (1 ≤ nodes) × (nodes ≤ 4096) }
    ensures { IfSome result (λ r. IsTied O.means memory_view r.0 r.1) }
{
    let Ok(logs) = make_logs::<O>(alloc, 1, lines, failing) else {
        return None;
    };
    let Ok((onll, mut passes)) = Onll::create(alloc, object, logs, nodes) else {
        return None;
    };
    let Some(pass) = passes.pop() else {
        return None;
    };
    Some((onll, pass))
}

#[tactic(auto, using(crate::proofs::Made::tied_last, crate::proofs::Made::tied_front))]
/// An object with the passes of its two threads, in their order.
pub fn open_two<O: Object + Drop>(
    alloc: Global,
    object: O,
    lines: u64,
    nodes: u64,
    failing: u64,
) -> Option<(Onll<O>, Pass<O, MemPmem>, Pass<O, MemPmem>)>
    requires lines { lines ≤ 1000000 }
    requires nodes { (1 ≤ nodes) × (nodes ≤ 4096) }
    ensures { IfSome result (λ r. IsTied O.means memory_view r.0 r.1 × IsTied O.means memory_view r.0 r.2) }
{
    let Ok(logs) = make_logs::<O>(alloc, 2, lines, failing) else {
        return None;
    };
    let Ok((onll, mut passes)) = Onll::create(alloc, object, logs, nodes) else {
        return None;
    };
    let Some(second) = passes.pop() else {
        return None;
    };
    let Some(first) = passes.pop() else {
        return None;
    };
    Some((onll, first, second))
}
