//! Scripts run on threads, over logs that are opened or begun anew.

ghost use Rattle.std.specs.Prelude.{◌≡◌, ◌≤◌, ◌++◌, List, length, map, All, IfOk, IfErr, Ok, Err};
ghost use Rattle.std.specs.List.{AllByRecursion};
ghost use Rattle.onll_model.specs.Limits.{most_updates};
ghost use Rattle.onll_model.specs.Calls.{updates_in};
ghost use Rattle.onll_merge.specs.Merge.{contents_in, merge};
ghost use Rattle.onll_trace.specs.Closing.{AreAll};
ghost use Rattle.onll_trace.specs.declared.trace.Ended.{Ended as SomeEnded};
ghost use Rattle.onll_shared.specs.Passes.{IsTied, spot_of, log_of};
ghost use Rattle.onll_shared.specs.Ends.{HasClosed};
ghost use Rattle.onll_run.specs.Crew.{pass_done, script_done, ends_done};
ghost use Rattle.onll_run.specs.Left.{HasRun, no_base};
ghost use Rattle.onll_run.specs.Making.{RunFails};
ghost use Rattle.onll_run.specs.Ran.{CanRun, AreKeptLogs, available, going_on, anew, left_by, left_in, script_in, ends_in};
ghost use Rattle.onll_run.specs.Done.{HaveDone};

use crate::crew::run_passes;
use crate::logs::{RunFault, new_logs, open_logs};
use crate::worker::WorkerEnd;
use onll_log::{Decoded, LogHead, ThreadLog};
use onll_model::{Call, CallEnd, Node, Object, count_updates};
use onll_outside::Gate;
use onll_pmem::Pmem;
use onll_shared::{Closed, Onll, Pass};
use onll_trace::Ended;
use onll_words::NoMemory;
use std::alloc::{AllocError, Global};
use std::sync::Wait;
use std::thread::Threads;

/// What a run stands in: the system's threads, its memory, and the gate that each update passes.
#[derive(Drop)]
pub struct Surroundings<'a, R, G> {
    pub rt: &'a R,
    pub alloc: Global,
    pub gate: &'a G,
}

/// What scripts go on from.
#[derive(Drop)]
pub struct Start<'a> {
    /// The heads that the logs have or are to have.
    pub heads: &'a [LogHead],
    /// What the logs hold.
    pub held: &'a [Decoded],
    /// The nodes of the one trace that they hold.
    pub nodes: &'a [Node],
}

/// A script that was done, and an outcome for each of its calls.
#[derive(Drop)]
pub struct DoneScript<O: Object> {
    pub script: Vec<Call<O>>,
    pub ends: Vec<CallEnd<O>>,
}

/// What a run left: what became of the calls of each thread, the trace with its flags, and each thread's log.
#[derive(Drop)]
pub struct RunOutcome<O: Object, P: Pmem> {
    pub threads: Vec<DoneScript<O>>,
    pub trace: Vec<Ended>,
    pub logs: Vec<ThreadLog<P>>,
}

/// What a run left but for its trace: what became of the calls of each thread, and each thread's log.
#[derive(Drop)]
pub struct RunLogs<O: Object, P: Pmem> {
    pub threads: Vec<DoneScript<O>>,
    pub logs: Vec<ThreadLog<P>>,
}

/// Scripts that were done on the passes of an object.
#[derive(Drop)]
struct Done<O: Object, P: Pmem> {
    onll: Onll<O>,
    all: Vec<WorkerEnd<O, P>>,
}

/// The scripts that were done, and the passes.
fn take_apart<O: Object + Drop, P: Pmem + Drop>(
    alloc: Global,
    mut all: Vec<WorkerEnd<O, P>>,
) -> Result<(Vec<DoneScript<O>>, Vec<Pass<O, P>>), AllocError>
    ensures scripts { IfOk result (λ r. map script_in r.0.items ≡ map script_done all.items) }
    ensures ends { IfOk result (λ r. map ends_in r.0.items ≡ map ends_done all.items) }
    ensures passes { IfOk result (λ r. r.1.items ≡ map pass_done all.items) }
{
    let mut threads = Vec::with_capacity(alloc, all.len())?;
    let mut passes = Vec::with_capacity(alloc, all.len())?;
    while let Some(worked) = all.pop() {
        let WorkerEnd { script, pass, ends } = worked;
        threads.push(DoneScript { script, ends })?;
        passes.push(pass)?;
    }
    threads.reverse();
    passes.reverse();
    Ok((threads, passes))
}

/// The end of an object that went on from these nodes, after these scripts were done on its passes.
fn finish<O: Object + Drop, P: Pmem + Drop>(
    alloc: Global,
    base: &[Node],
    onll: Onll<O>,
    all: Vec<WorkerEnd<O, P>>,
) -> Result<RunOutcome<O, P>, NoMemory>
    requires all { AreAll onll.trace (map spot_of (map pass_done all.items)) }
    requires tied { AllByRecursion (IsTied O.means P.means onll) (map pass_done all.items) }
    ensures scripts { IfOk result (λ ran. map script_in ran.threads.items ≡ map script_done all.items) }
    ensures ends { IfOk result (λ ran. map ends_in ran.threads.items ≡ map ends_done all.items) }
    ensures closed { IfOk result (λ ran. (above : _) × (ran.trace.items ≡ available base.now ++ above)
        × HasClosed onll.trace (map pass_done all.items) above) }
    ensures logs { IfOk result (λ ran. ran.logs.items ≡ map log_of (map pass_done all.items)) }
{
    let (threads, passes) = take_apart(alloc, all)?;
    match onll.close(alloc, passes) {
        Ok(Closed { trace, logs }) => Ok(RunOutcome {
            threads,
            trace: whole_trace(alloc, base, trace)?,
            logs,
        }),
        Err(_) => Err(NoMemory),
    }
}

/// The end of an object after these scripts were done on its passes, without a list of its trace.
fn finish_logs<O: Object + Drop, P: Pmem + Drop>(
    alloc: Global,
    onll: Onll<O>,
    all: Vec<WorkerEnd<O, P>>,
) -> Result<RunLogs<O, P>, NoMemory>
    requires all { AreAll onll.trace (map spot_of (map pass_done all.items)) }
    requires tied { AllByRecursion (IsTied O.means P.means onll) (map pass_done all.items) }
    ensures scripts { IfOk result (λ ran. map script_in ran.threads.items ≡ map script_done all.items) }
    ensures ends { IfOk result (λ ran. map ends_in ran.threads.items ≡ map ends_done all.items) }
    ensures closed { IfOk result (λ _. (above : List SomeEnded) × HasClosed onll.trace (map pass_done all.items) above) }
    ensures logs { IfOk result (λ ran. ran.logs.items ≡ map log_of (map pass_done all.items)) }
{
    let (threads, passes) = take_apart(alloc, all)?;
    match onll.end(alloc, passes) {
        Ok(logs) => Ok(RunLogs { threads, logs }),
        Err(_) => Err(NoMemory),
    }
}

/// How many updates each script has.
fn rooms_for<O: Object>(alloc: Global, scripts: &[Vec<Call<O>>]) -> Result<Vec<u64>, AllocError>
    requires { All (λ script. updates_in script.items ≤ most_updates) scripts.now }
    ensures { IfOk result (λ rooms. rooms.items ≡ map updates_in (map (λ script. script.items) scripts.now)) }
{
    let mut rooms = Vec::with_capacity(alloc, scripts.len())?;
    for script in scripts {
        rooms.push_reserved(count_updates(script));
    }
    Ok(rooms)
}

/// The whole trace: the nodes from which it went on, all of them available, and what was made above them.
fn whole_trace(alloc: Global, base: &[Node], above: Vec<Ended>) -> Result<Vec<Ended>, AllocError>
    ensures { IfOk result (λ trace. trace.items ≡ available base.now ++ above.items) }
{
    if base.is_empty() {
        return Ok(above);
    }
    let mut trace = Vec::with_capacity(alloc, base.len())?;
    for node in base {
        trace.push_reserved(Ended {
            node: *node,
            flag: true,
        });
    }
    trace.extend_from_slice(&above)?;
    Ok(trace)
}

/// Does each script in a thread of its own, where one can be started, on its own pass of an object that began in this state, over the
/// log of the head at its place. Each log is opened on the device at its place, or begun on it where it holds no head. No thread begins
/// before all headers are fenced.
fn do_scripts<
    R: Threads + Wait + Sync,
    O: Object + Drop + Send + Sync,
    P: Pmem + Drop + Send,
    G: Gate + Sync,
>(
    around: &Surroundings<'_, R, G>,
    object: O,
    start: &Start<'_>,
    scripts: Vec<Vec<Call<O>>>,
    devices: Vec<P>,
) -> Result<Done<O, P>, RunFault<P>>
    requires can { CanRun P.means start.now.heads.now (contents_in start.now.held.now) (map (λ script. script.items) scripts.items)
        devices.items }
    requires merged { merge start.now.heads.now (contents_in start.now.held.now) ≡ Ok start.now.nodes.now }
    ensures done { IfOk result (λ done. HaveDone O.means P.means object start.now.heads.now (contents_in start.now.held.now)
        (map (λ script. script.items) scripts.items) devices.items start.now.nodes.now done.onll done.all.items) }
    ensures refused { IfErr result (λ fault. RunFails P.means start.now.heads.now (contents_in start.now.held.now) devices.items fault) }
{
    let alloc = around.alloc;
    let rooms = rooms_for(alloc, &scripts)?;
    let logs = open_logs(alloc, start.heads, start.held, devices)?;
    let (onll, passes) = Onll::resume(alloc, object, start.nodes, logs, &rooms)?;
    let all = run_passes(around.rt, alloc, &onll, around.gate, scripts, passes)?;
    Ok(Done { onll, all })
}

/// Runs each script in a thread of its own, where one can be started, on its own pass of an object that began in this state, over the
/// log of the head at its place. Each log is opened on the device at its place, or begun on it where it holds no head. No thread begins
/// before all headers are fenced.
pub fn resume_scripts<
    R: Threads + Wait + Sync,
    O: Object + Drop + Send + Sync,
    P: Pmem + Drop + Send,
    G: Gate + Sync,
>(
    around: &Surroundings<'_, R, G>,
    object: O,
    start: &Start<'_>,
    scripts: Vec<Vec<Call<O>>>,
    devices: Vec<P>,
) -> Result<RunOutcome<O, P>, RunFault<P>>
    requires can { CanRun P.means start.now.heads.now (contents_in start.now.held.now) (map (λ script. script.items) scripts.items)
        devices.items }
    requires merged { merge start.now.heads.now (contents_in start.now.held.now) ≡ Ok start.now.nodes.now }
    ensures scripts { IfOk result (λ ran. map script_in ran.threads.items ≡ map (λ script. script.items) scripts.items) }
    ensures run { IfOk result (λ ran. HasRun O.means (going_on object start.now.heads.now start.now.nodes.now
        (contents_in start.now.held.now) (map (λ script. script.items) scripts.items)) (left_in P.means ran)) }
    ensures kept { IfOk result (λ ran. AreKeptLogs P.means (contents_in start.now.held.now) (map ends_in ran.threads.items)
        devices.items ran.logs.items) }
    ensures refused { IfErr result (λ fault. RunFails P.means start.now.heads.now (contents_in start.now.held.now) devices.items fault) }
{
    let done = do_scripts(around, object, start, scripts, devices)?;
    let Done { onll, all } = done;
    Ok(finish(around.alloc, start.nodes, onll, all)?)
}

/// The same over logs that are begun anew.
pub fn run_scripts<
    R: Threads + Wait + Sync,
    O: Object + Drop + Send + Sync,
    P: Pmem + Drop + Send,
    G: Gate + Sync,
>(
    around: &Surroundings<'_, R, G>,
    object: O,
    heads: &[LogHead],
    scripts: Vec<Vec<Call<O>>>,
    devices: Vec<P>,
) -> Result<RunOutcome<O, P>, RunFault<P>>
    requires { CanRun P.means heads.now (no_base (length heads.now)).logs (map (λ script. script.items) scripts.items) devices.items }
    ensures scripts { IfOk result (λ ran. map script_in ran.threads.items ≡ map (λ script. script.items) scripts.items) }
    ensures run { IfOk result (λ ran. HasRun O.means (anew object heads.now (map (λ script. script.items) scripts.items))
        (left_in P.means ran)) }
    ensures kept { IfOk result (λ ran. AreKeptLogs P.means (no_base (length heads.now)).logs (map ends_in ran.threads.items)
        devices.items ran.logs.items) }
    ensures refused { IfErr result (λ fault. RunFails P.means heads.now (no_base (length heads.now)).logs devices.items fault) }
{
    let held = new_logs(around.alloc, heads.len())?;
    let start = Start {
        heads,
        held: &held,
        nodes: &[],
    };
    resume_scripts(around, object, &start, scripts, devices)
}

/// The same over logs that are begun anew, for who wants no list of the trace. It takes no memory for one.
pub fn run_for_logs<
    R: Threads + Wait + Sync,
    O: Object + Drop + Send + Sync,
    P: Pmem + Drop + Send,
    G: Gate + Sync,
>(
    around: &Surroundings<'_, R, G>,
    object: O,
    heads: &[LogHead],
    scripts: Vec<Vec<Call<O>>>,
    devices: Vec<P>,
) -> Result<RunLogs<O, P>, RunFault<P>>
    requires { CanRun P.means heads.now (no_base (length heads.now)).logs (map (λ script. script.items) scripts.items) devices.items }
    ensures scripts { IfOk result (λ ran. map script_in ran.threads.items ≡ map (λ script. script.items) scripts.items) }
    ensures run { IfOk result (λ ran. (trace : List SomeEnded) × HasRun O.means
        (anew object heads.now (map (λ script. script.items) scripts.items))
        (left_by P.means ran.threads.items trace ran.logs.items)) }
    ensures kept { IfOk result (λ ran. AreKeptLogs P.means (no_base (length heads.now)).logs (map ends_in ran.threads.items)
        devices.items ran.logs.items) }
    ensures refused { IfErr result (λ fault. RunFails P.means heads.now (no_base (length heads.now)).logs devices.items fault) }
{
    let held = new_logs(around.alloc, heads.len())?;
    let start = Start {
        heads,
        held: &held,
        nodes: &[],
    };
    let done = do_scripts(around, object, &start, scripts, devices)?;
    let Done { onll, all } = done;
    Ok(finish_logs(around.alloc, onll, all)?)
}
