//! The workers of a run, one for each thread.

ghost use Rattle.std.specs.Prelude.{◌≡◌, ◌<◌, ◌≤◌, ℕ, [], ◌∷◌, length, vec_len, vec_capacity, IfOk, slice_index_or};
ghost use Rattle.onll_model.specs.Calls.{updates_in};
ghost use Rattle.onll_shared.specs.Passes.{IsTied};
ghost use Rattle.onll_run.specs.Outcomes.{CallDone, HasRoomFor};
ghost use Rattle.onll_run.specs.Workers.{IsReadyPass, HasWorked, CanWork};

use onll_model::{Call, CallEnd, Object};
use onll_outside::Gate;
use onll_pmem::Pmem;
use onll_shared::{Answered, Onll, Pass, Receipt, UpdateFault};
use std::alloc::AllocError;
use std::sync::Wait;
use std::thread;
use std::thread::Threads;

/// One thread of a run: its script, and its pass of the object.
#[derive(Drop)]
pub struct Worker<'a, R, O: Object, P: Pmem, G> {
    pub rt: &'a R,
    pub onll: &'a Onll<O>,
    pub gate: &'a G,
    pub script: Vec<Call<O>>,
    pub pass: Pass<O, P>,
    /// Empty, with room for an outcome of each call.
    pub ends: Vec<CallEnd<O>>,
}

/// A script that was done, the pass, and an outcome for each call.
#[derive(Drop)]
pub struct WorkerEnd<O: Object, P: Pmem> {
    pub script: Vec<Call<O>>,
    pub pass: Pass<O, P>,
    pub ends: Vec<CallEnd<O>>,
}

/// Makes one call. After a failed fence an update is broken, and a read is answered.
fn do_call<R: Wait, O: Object, P: Pmem, G: Gate>(
    rt: &R,
    onll: &Onll<O>,
    gate: &G,
    pass: &mut Pass<O, P>,
    call: &Call<O>,
) -> CallEnd<O>
    requires tied { IsTied O.means P.means onll.now pass.old }
    requires room { HasRoomFor P.means onll.now (updates_in (call.now ∷ [])) pass.old }
    ensures tied { IsTied O.means P.means onll.now pass.new }
    ensures done { CallDone O.means P.means onll.now call.now pass.old pass.new result }
{
    match *call {
        Call::Update(op) => match onll.update(rt, pass, op, gate) {
            Ok(Receipt { place, reply }) => CallEnd::Answered { reply, place },
            Err(UpdateFault::Broken { place }) => CallEnd::Broken { place },
            Err(UpdateFault::FenceFailed { place }) => CallEnd::FenceFailed { place },
            Err(UpdateFault::NodesFull) => unreachable!(),
            Err(UpdateFault::LogFull { .. }) => unreachable!(),
        },
        Call::Ask(query) => {
            let Answered { place, reply, .. } = onll.read(pass, query);
            CallEnd::Answered { reply, place }
        }
    }
}

/// Makes the calls of a script in order, and keeps what became of them.
fn do_calls<R: Wait, O: Object, P: Pmem, G: Gate>(
    rt: &R,
    onll: &Onll<O>,
    gate: &G,
    pass: &mut Pass<O, P>,
    script: &[Call<O>],
    ends: &mut Vec<CallEnd<O>>,
)
    requires ready { IsReadyPass O.means P.means onll.now script.now pass.old }
    requires empty { ends.old.items ≡ [] }
    requires room { length script.now ≤ vec_capacity ends.old }
    ensures { HasWorked O.means P.means onll.now script.now ends.new.items pass.old pass.new }
{
    for call in script {
        let end = do_call(rt, onll, gate, pass, call);
        ends.push_reserved(end);
    }
}

/// Does a worker's script.
fn work<R: Wait, O: Object, P: Pmem, G: Gate>(worker: Worker<'_, R, O, P, G>) -> WorkerEnd<O, P>
    requires { CanWork O.means P.means worker.onll.now worker.script.items worker.pass worker.ends.items (vec_capacity worker.ends) }
    ensures script { result.script ≡ worker.entry.script }
    ensures worked { HasWorked O.means P.means worker.entry.onll.now worker.entry.script.items
        result.ends.items worker.entry.pass result.pass }
{
    let Worker {
        rt,
        onll,
        gate,
        script,
        mut pass,
        mut ends,
    } = worker;
    do_calls(rt, onll, gate, &mut pass, &script, &mut ends);
    WorkerEnd { script, pass, ends }
}

/// Does the script of each worker in a thread of its own, where one can be started, else in this one. What they did comes in
/// their order.
pub fn run_all<
    R: Threads + Wait + Sync,
    O: Object + Drop + Send + Sync,
    P: Pmem + Drop + Send,
    G: Gate + Sync,
>(rt: &R, workers: Vec<Worker<'_, R, O, P, G>>) -> Result<Vec<WorkerEnd<O, P>>, AllocError>
    requires { (t : ℕ) (d : _) → t < length workers.items → let w = slice_index_or workers.items t d in
        CanWork O.means P.means w.onll.now w.script.items w.pass w.ends.items (vec_capacity w.ends) }
    ensures many { IfOk result (λ all. vec_len all ≡ vec_len workers.entry) }
    ensures scripts { IfOk result (λ all. (t : ℕ) (d : _) (e : _) → t < length workers.entry.items →
        (slice_index_or all.items t d).script ≡ (slice_index_or workers.entry.items t e).script) }
    ensures worked { IfOk result (λ all. (t : ℕ) (d : _) (e : _) → t < length workers.entry.items →
        let w = slice_index_or workers.entry.items t e in let done = slice_index_or all.items t d in
        HasWorked O.means P.means w.onll.now w.script.items done.ends.items w.pass done.pass) }
{
    thread::map_vec(
        rt,
        workers,
        &|worker: Worker<'_, R, O, P, G>| -> WorkerEnd<O, P>
            requires { CanWork O.means P.means worker.onll.now worker.script.items worker.pass
                worker.ends.items (vec_capacity worker.ends) }
            ensures script { result.script ≡ worker.entry.script }
            ensures worked { HasWorked O.means P.means worker.entry.onll.now worker.entry.script.items
                result.ends.items worker.entry.pass result.pass }
        { work(worker) },
    )
}
