//! Scripts run on the passes of one object.

ghost use Rattle.std.specs.Prelude.{◌≡◌, length, map, IfOk};
ghost use Rattle.onll_run.specs.Crew.{AreReadyPasses, AreDone, AreWorkers};

use crate::worker::{Worker, WorkerEnd, run_all};
use onll_model::{Call, Object};
use onll_outside::Gate;
use onll_pmem::Pmem;
use onll_shared::{Onll, Pass};
use std::alloc::{AllocError, Global};
use std::sync::Wait;
use std::thread::Threads;

/// A worker for each script and pass.
fn make_workers<'a, R, O: Object + Drop, P: Pmem + Drop, G>(
    alloc: Global,
    rt: &'a R,
    onll: &'a Onll<O>,
    gate: &'a G,
    mut scripts: Vec<Vec<Call<O>>>,
    mut passes: Vec<Pass<O, P>>,
) -> Result<Vec<Worker<'a, R, O, P, G>>, AllocError>
    requires { length scripts.items ≡ length passes.items }
    ensures { IfOk result (λ workers. AreWorkers onll.now (map (λ script. script.items) scripts.items) passes.items workers.items) }
{
    let mut workers = Vec::with_capacity(alloc, passes.len())?;
    while let Some(pass) = passes.pop() {
        let Some(script) = scripts.pop() else {
            unreachable!()
        };
        let ends = Vec::with_capacity(alloc, script.len())?;
        workers.push(Worker {
            rt,
            onll,
            gate,
            script,
            pass,
            ends,
        })?;
    }
    workers.reverse();
    Ok(workers)
}

/// Does each script on the pass at its place, in a thread of its own where one can be started, else in this one.
pub fn run_passes<
    R: Threads + Wait + Sync,
    O: Object + Drop + Send + Sync,
    P: Pmem + Drop + Send,
    G: Gate + Sync,
>(
    rt: &R,
    alloc: Global,
    onll: &Onll<O>,
    gate: &G,
    scripts: Vec<Vec<Call<O>>>,
    passes: Vec<Pass<O, P>>,
) -> Result<Vec<WorkerEnd<O, P>>, AllocError>
    requires many { length scripts.items ≡ length passes.items }
    requires ready { AreReadyPasses O.means P.means onll.now (map (λ script. script.items) scripts.items) passes.items }
    ensures { IfOk result (λ all. AreDone O.means P.means onll.now (map (λ script. script.items) scripts.items) passes.items all.items) }
{
    let workers = make_workers(alloc, rt, onll, gate, scripts, passes)?;
    run_all(rt, workers)
}
