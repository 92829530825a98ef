//! A shared object that goes on from the logs that a run left.
ghost use Rattle.std.specs.Prelude.{◌≡◌, true, IfOk};
ghost use Rattle.onll_pmem.specs.Memory.{memory_view};
ghost use Rattle.onll_shared.specs.Passes.{IsTied};
ghost use Rattle.onll_shared.specs.Starts.{AreLogs, IsWholeLogOf};

use onll_log::ThreadLog;
use onll_model::Object;
use onll_pmem::{MemPmem, Pmem};
use onll_shared::{GoOnFault, Onll, Pass};
use std::alloc::Global;

/// Whether the log is that of this thread among so many, and takes more.
fn is_log_of<P: Pmem>(log: &ThreadLog<P>, threads: u64, thread: u64) -> bool
    ensures { result ≡ true → IsWholeLogOf threads thread log.now }
{
    let head = log.head();
    head.thread == thread && head.threads == threads && head.format == 2 && !log.broken()
}

#[tactic(auto, using(tests_shared_calls::proofs::Made::all_logs))]
/// Whether these are the logs of all threads, in their order, which take more.
pub fn are_logs<P: Pmem>(logs: &[ThreadLog<P>]) -> bool
    ensures { result ≡ true → AreLogs logs.now }
{
    let threads = logs.len() as u64;
    for thread in 0..logs.len() {
        if !is_log_of(&logs[thread], threads, thread as u64) {
            return false;
        }
    }
    true
}

#[tactic(auto, using(tests_shared_calls::proofs::Made::tied_last))]
/// An object that goes on from logs, with the pass of its last thread. None where these are no logs of all threads.
pub fn last_goes_on<O: Object + Drop>(
    alloc: Global,
    object: O,
    logs: Vec<ThreadLog<MemPmem>>,
    rooms: &[u64],
) -> Result<(Onll<O>, Pass<O, MemPmem>), Option<GoOnFault>>
    ensures { IfOk result (λ r. IsTied O.means memory_view r.0 r.1) }
{
    if logs.is_empty() || logs.len() > 16 || rooms.len() != logs.len() || !are_logs(&logs) {
        return Err(None);
    }
    let (onll, mut passes) = match Onll::go_on(alloc, object, logs, rooms) {
        Ok(begun) => begun,
        Err(fault) => return Err(Some(fault)),
    };
    match passes.pop() {
        Some(pass) => Ok((onll, pass)),
        None => Err(None),
    }
}
