//! Scripts that are run over the logs of a name, whose devices a store makes or reopens, and then keeps.

ghost use Rattle.std.specs.Prelude.{◌≡◌, ◌≤◌, ◌*◌, ◌+◌, max, List, length, map, IfOk, All, IsSome, Ok, is_some};
ghost use Rattle.std.specs.List.{AllByRecursion, list_any};
ghost use Rattle.onll_model.specs.Limits.{most_threads, most_updates};
ghost use Rattle.onll_model.specs.Calls.{updates_in};
ghost use Rattle.onll_log.specs.Grammar.{Content, content_of};
ghost use Rattle.onll_log.specs.ImageFile.{longest_image};
ghost use Rattle.onll_merge.specs.Merge.{contents_in};
ghost use Rattle.onll_merge.specs.Recovered.{recovered_in};
ghost use Rattle.onll_run.specs.Making.{device_of};
ghost use Rattle.onll_run.specs.Left.{LogLeft, HasRun};
ghost use Rattle.onll_run.specs.Ran.{AreKeptLogs, going_on, left_in, script_in, ends_in};
ghost use Rattle.onll_open.specs.Names.{log_names};
ghost use Rattle.onll_text.specs.Kinds.{kind_by};
ghost use Rattle.onll_task.specs.Doing.{Fulfils};
ghost use Rattle.onll_task.specs.RunSaid.{resumed_by};
ghost use Rattle.onll_task.specs.Running.{RunPlan, AreSized};
ghost use Rattle.onll_task.specs.Standing.{StandsForRuns};
ghost use Rattle.onll_runner.specs.Ground.{IsGround, lines_over, AreFitting, FitsIn};
ghost use Rattle.onll_runner.specs.RunEnds.{RunHasEnded, lines_left};
ghost use Rattle.onll_runner.specs.RunJob.{calls_task};

use crate::report::run_report;
use crate::stops::{not_kept, not_opened};
use onll_log::{Decoded, ThreadLog};
use onll_merge::LogCounts;
use onll_model::{Call, Node, count_updates};
use onll_open::{FoundLogs, decode_logs, give_up_all, keep_devices, open_devices};
use onll_outside::{Gate, Store};
use onll_pmem::{Pmem, image_laws};
use onll_run::{RunFault, RunOutcome, Start, Surroundings, resume_scripts};
use onll_task::{Ending, Stop};
use onll_text::Texted;
use std::alloc::{AllocError, Global};
use std::sync::Wait;
use std::thread::Threads;

/// What scripts are run over.
#[derive(Drop)]
pub(crate) struct Ground<'a> {
    /// The name of the logs' files.
    pub logs: &'a str,
    /// Whether an earlier generation is gone on from, which the report says.
    pub reopens: bool,
    /// What the logs hold.
    pub found: FoundLogs,
    /// How many lines each log's image has.
    pub counts: Vec<u64>,
}

/// How many lines the device of a log has: those that it uses, or one for the header, and those of the longest entry for each update;
/// and no fewer than its image has.
fn lines_of(entry: u64, used: u64, count: u64, updates: u64) -> u64
    requires { FitsIn entry used updates }
    ensures { result ≡ max (max 1 used + entry * updates) count }
{
    (used.max(1) + entry * updates).max(count)
}

/// How many lines the device of each thread's log has.
fn lines_over<O: Texted>(
    alloc: Global,
    logs: &[LogCounts],
    counts: &[u64],
    scripts: &[Vec<Call<O>>],
) -> Result<Vec<u64>, AllocError>
    requires few { length scripts.now ≤ most_threads }
    requires updates { All (λ script. updates_in script.items ≤ most_updates) scripts.now }
    requires logs { length logs.now ≡ length scripts.now }
    requires counts { length counts.now ≡ length scripts.now }
    requires room { AreFitting (length scripts.now + 1) logs.now (map (λ script. script.items) scripts.now) }
    ensures { IfOk result (λ lines. lines.items
        ≡ lines_over (length scripts.now) logs.now counts.now (map (λ script. script.items) scripts.now)) }
{
    let entry = scripts.len() as u64 + 1;
    let mut lines = Vec::with_capacity(alloc, scripts.len())?;
    for (thread, script) in scripts.iter().enumerate() {
        let updates = count_updates(script);
        lines.push_reserved(lines_of(entry, logs[thread].lines, counts[thread], updates));
    }
    Ok(lines)
}

/// The devices under logs, in their order.
fn devices_of<P: Pmem + Drop>(
    alloc: Global,
    mut logs: Vec<ThreadLog<P>>,
) -> Result<Vec<P>, AllocError>
    ensures { IfOk result (λ devices. devices.items ≡ map device_of logs.items) }
{
    let mut devices = Vec::with_capacity(alloc, logs.len())?;
    logs.reverse();
    while let Some(log) = logs.pop() {
        devices.push_reserved(log.into_device());
    }
    Ok(devices)
}

/// Whether a fence of one of these logs failed.
fn is_broken<P: Pmem>(logs: &[ThreadLog<P>]) -> bool
    ensures { result ≡ list_any (λ log. log.broken) logs.now }
{
    logs.iter().any(ThreadLog::broken)
}

/// A device tells its fenced words by its type.
fn told_law<P: Pmem>()
    ensures { (device : P) → is_some (P.means device).told ≡ P.tells }
{}

/// How many nodes are said to be gone on from.
fn resumed_by(reopens: bool, nodes: &[Node]) -> Option<u64>
    ensures { result ≡ resumed_by reopens (length nodes.now) }
{
    if reopens {
        Some(nodes.len() as u64)
    } else {
        None
    }
}

/// Keeps what a run left, and says its report.
fn end_run<O: Texted + Drop, S: Store>(
    alloc: Global,
    mut object: O,
    ground: &Ground<'_>,
    base: &[Decoded],
    ran: RunOutcome<O, S::Dev>,
    store: &mut S,
) -> Result<Vec<u8>, Stop>
    requires some { 1 ≤ length ran.threads.items }
    requires few { length ran.threads.items ≤ most_threads }
    requires operations { AllByRecursion (λ n. IsSome (O.means.op_at n.row)) ground.now.found.recovery.nodes.items }
    requires run { HasRun O.means (going_on object ground.now.found.heads.items ground.now.found.recovery.nodes.items
        (contents_in base.now) (map script_in ran.threads.items)) (left_in S.Dev.means ran) }
    requires kept { (devices : List S.Dev) × AreKeptLogs S.Dev.means (contents_in base.now) (map ends_in ran.threads.items)
        devices ran.logs.items }
    requires small { All (λ log. 64 * length (S.Dev.means log.device).read ≤ longest_image) ran.logs.items }
    ensures { let k = kind_by O.means O.wording O.CODE in
        let run = going_on object ground.now.found.heads.items ground.now.found.recovery.nodes.items (contents_in base.now)
        (map script_in ran.threads.items) in
        let plan : RunPlan k = record { logs = ground.now.logs.now; reopens = ground.now.reopens; run = run } in
        RunHasEnded plan (left_in S.Dev.means ran) (S.seen store.old) (S.seen store.new) result }
{
    image_laws();
    told_law::<S::Dev>();
    let nodes = &ground.found.recovery.nodes;
    let resumed = resumed_by(ground.reopens, nodes);
    let report = run_report(alloc, &mut object, &ground.found.heads, resumed, &ran)?;
    let broken = is_broken(&ran.logs);
    let devices = devices_of(alloc, ran.logs)?;
    match keep_devices(alloc, store, ground.logs, devices) {
        Ok(()) if broken => Err(Stop::Says {
            ending: Ending::Faulty,
            text: report,
        }),
        Ok(()) => Ok(report),
        Err(fault) => Err(not_kept(alloc, ground.logs, fault)),
    }
}

/// Runs scripts over devices that the store makes for the logs, or reopens from what they hold, and keeps and says what they left.
pub(crate) fn run_over<
    R: Threads + Wait + Sync,
    O: Texted + Drop + Send + Sync,
    S: Store,
    G: Gate + Sync,
>(
    around: &Surroundings<'_, R, G>,
    object: O,
    ground: &Ground<'_>,
    scripts: Vec<Vec<Call<O>>>,
    store: &mut S,
) -> Result<Vec<u8>, Stop>
    requires few { (1 ≤ length scripts.items) × (length scripts.items ≤ most_threads) }
    requires updates { All (λ script. updates_in script.items ≤ most_updates) scripts.items }
    requires ground { IsGround O.means ground.now.logs.now ground.now.found.heads.items (recovered_in ground.now.found.recovery)
        ground.now.found.images.items ground.now.counts.items (map (λ script. script.items) scripts.items) (S.seen store.old) }
    ensures { let k = kind_by O.means O.wording O.CODE in
        let calls = map (λ script. script.items) scripts.items in
        let r = recovered_in ground.now.found.recovery in
        (threads : _) → StandsForRuns k threads
        → (held : List Content) → map content_of ground.now.found.images.items ≡ map Some held
        → let plan : RunPlan k = record {
          logs = ground.now.logs.now;
          reopens = ground.now.reopens;
          run = going_on object ground.now.found.heads.items r.nodes held calls;
        } in
        ((left : List LogLeft) → map lines_left left ≡ lines_over (length calls) r.logs ground.now.counts.items calls
        → AreSized plan left (S.seen store.old))
        → Fulfils (log_names ground.now.logs.now 0 (length scripts.items)) (S.seen store.old) (S.seen store.new)
        (calls_task k threads plan) result }
{
    let alloc = around.alloc;
    let logs = &ground.found.recovery.logs;
    let initial = object.copy(alloc)?;
    let base = decode_logs(alloc, &ground.found.images)?;
    let lines = lines_over(alloc, logs, &ground.counts, &scripts)?;
    let devices = match open_devices(
        alloc,
        store,
        ground.logs,
        logs,
        &ground.found.images,
        &lines,
    ) {
        Ok(devices) => devices,
        Err(fault) => return Err(not_opened(alloc, ground.logs, fault)),
    };
    let start = Start {
        heads: &ground.found.heads,
        held: &base,
        nodes: &ground.found.recovery.nodes,
    };
    match resume_scripts(around, object, &start, scripts, devices) {
        Ok(ran) => end_run(alloc, initial, ground, &base, ran, store),
        Err(RunFault::NoMemory) => Err(Stop::NoMemory),
        Err(RunFault::HeaderFailed { thread, devices }) => {
            give_up_all(devices, store);
            Err(Stop::fence_failed(alloc, thread, 0))
        }
    }
}
