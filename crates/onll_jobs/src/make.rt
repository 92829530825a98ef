//! The command `make`: a large workload, run on threads over devices in memory.

ghost use Rattle.onll_outside.specs.Views.{StoreView};
ghost use Rattle.onll_task.specs.Doing.{Fulfils};
ghost use Rattle.onll_workload.specs.Workload.{IsWorkload};
ghost use Rattle.onll_jobs.specs.MakeJob.{make_work};

use onll_outside::Gate;
use onll_task::Stop;
use onll_workload::{Workload, make_report};
use std::alloc::Global;
use std::sync::Wait;
use std::thread::Threads;

/// Runs a workload, and says what it made.
pub(crate) fn answer<R: Threads + Wait + Sync, G: Gate + Sync>(
    rt: &R,
    alloc: Global,
    workload: Workload,
    gate: &G,
) -> Result<Vec<u8>, Stop>
    requires { IsWorkload workload }
    ensures { (store : StoreView) → let work = make_work workload in Fulfils work.writes store store work.task result }
{
    Ok(make_report(rt, alloc, workload, gate)?)
}
