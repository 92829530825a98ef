//! A core that crashes: its images are written, and its run and what they give are said.

ghost use Rattle.std.specs.Prelude.{[], IfOk, ◌≡◌, ◌++◌, ◌<◌, ◌≤◌, ◌^◌, length, slice_get, true, IsSome, IfErr, OnOk, All, map, get_or};
ghost use Rattle.onll_model.specs.Limits.{most_threads};
ghost use Rattle.std.specs.List.{AllByRecursion};
ghost use Rattle.onll_words.specs.Texts.{line_text};
ghost use Rattle.onll_model.specs.Trace.{state_after};
ghost use Rattle.onll_text.specs.Bytes.{begins_line, with_lines};
ghost use Rattle.onll_text.specs.Lines.{call_lines, flagged_lines};
ghost use Rattle.onll_text.specs.Reports.{EndsRead, NodeReads, StateReads, EachReads, LogReads};
ghost use Rattle.onll_core.specs.Crash.{heads_of, images_of};
ghost use Rattle.onll_core.specs.Outcomes.{returned_end, current_ends, ends_of, script_of};
ghost use Rattle.onll_merge.specs.Recovered.{recovered_in, state_recovered};
ghost use Rattle.onll_pmem.specs.Pmem.{words_of};
ghost use Rattle.std.specs.Cow.{cow_slice_items};
ghost use Rattle.onll_open.specs.Names.{log_name, log_names};
ghost use Rattle.onll_task.specs.Images.{Decides, AllDecide, writing_stage};
ghost use Rattle.onll_task.specs.Stop.{StopSays};
ghost use Rattle.onll_task.specs.Writing.{HasWritten, CannotWrite, WriteStops};
ghost use Rattle.onll_recovery.specs.ReplayJob.{begun_lines, crash_line, fenced_lines, run_lines, crash_lines, replay_report, CrashedRunReads, counts_of, replay_data, run_task, crash_task};
ghost use Rattle.onll_task.specs.Doing.{Fulfils, DoesStage};
ghost use Rattle.onll_outside.specs.Views.{StoreView, SameOthers, with_zeros, image_bytes};

use onll_core::{Core, Current, Returned, report_law};
use onll_log::{LogHead, TestedImage};
use onll_merge::{LogCounts, Recovery, StateFault};
use onll_model::{Call, CallEnd, Node};
use onll_outside::Store;
use onll_pmem::Pmem;
use onll_task::{Stop, bad_logs, put_count, put_resumed, recover_tested, write_image};
use onll_text::{Piece, Report, Texted};
use onll_words::{Line, NoMemory};
use std::alloc::Global;
use std::borrow::CowSlice;

/// What became of the call of this number, from 0, of a thread: nothing, where it has taken no step.
fn end_at<O: Texted>(returned: &[Returned<O>], current: Current, index: usize) -> Option<CallEnd<O>>
    ensures { result ≡ slice_get (map returned_end returned.now ++ current_ends current) index }
{
    match returned.get(index) {
        Some(call) => Some(CallEnd::Answered {
            reply: call.reply,
            place: call.place,
        }),
        None if index == returned.len() => match current {
            Current::Idle => None,
            Current::Running => Some(CallEnd::Running),
            Current::Ordered { place } => Some(CallEnd::Ordered { place }),
        },
        None => None,
    }
}

/// Appends the line of each call of a thread that has begun.
fn put_thread<O: Texted>(
    thread: u64,
    script: &[Call<O>],
    returned: &[Returned<O>],
    current: Current,
    out: &mut Report,
) -> Result<(), NoMemory>
    requires begins { begins_line out.old ≡ true }
    requires few { length (map returned_end returned.now ++ current_ends current) ≤ length script.now }
    ensures lines { OnOk result (out.new ≡ with_lines out.old
        (call_lines O.wording thread 0 script.now (map returned_end returned.now ++ current_ends current))) }
    ensures begins { OnOk result (begins_line out.new ≡ true) }
    ensures reads { OnOk result (EndsRead O.wording script.now (map returned_end returned.now ++ current_ends current)) }
{
    for (index, call) in script.iter().enumerate() {
        let Some(end) = end_at(returned, current, index) else {
            return Ok(());
        };
        out.call_line(thread, index as u64 + 1, call, &end)?;
    }
    Ok(())
}

/// Appends the lines of the calls of each thread that have begun.
fn put_calls<O: Texted + Drop>(core: &Core<O>, out: &mut Report) -> Result<(), NoMemory>
    requires { begins_line out.old ≡ true }
    ensures lines { OnOk result (out.new ≡ with_lines out.old (begun_lines O.wording 0 core.now.threads)) }
    ensures begins { OnOk result (begins_line out.new ≡ true) }
    ensures reads { OnOk result (EachReads O.wording (map script_of core.now.threads) (map ends_of core.now.threads)) }
{
    report_law::<O>();
    core.reached();
    for thread in 0..core.threads() {
        put_thread(
            thread,
            core.script(thread),
            core.returned(thread),
            core.current(thread),
            out,
        )?;
    }
    Ok(())
}

/// Appends the line of each node, with its flag.
fn put_flagged<O: Texted>(trace: &[Node], flags: &[bool], out: &mut Report) -> Result<(), NoMemory>
    requires operations { AllByRecursion (λ n. IsSome (O.means.op_at n.row)) trace.now }
    requires flags { length flags.now ≡ length trace.now }
    requires begins { begins_line out.old ≡ true }
    ensures lines { OnOk result (out.new ≡ with_lines out.old (flagged_lines O.means O.wording 0 trace.now flags.now)) }
    ensures begins { OnOk result (begins_line out.new ≡ true) }
    ensures reads { OnOk result (All (NodeReads O.means O.wording) trace.now) }
{
    for (index, node) in trace.iter().enumerate() {
        out.node_line::<O>(index as u64 + 1, *node, Some(flags[index]))?;
    }
    Ok(())
}

/// Appends the lines of the core's calls and of its trace.
fn put_run<O: Texted + Drop>(core: &Core<O>, out: &mut Report) -> Result<(), NoMemory>
    requires operations { AllByRecursion (λ n. IsSome (O.means.op_at n.row)) core.now.trace }
    requires begins { begins_line out.old ≡ true }
    ensures lines { OnOk result (out.new ≡ with_lines out.old (run_lines O.means O.wording core.now)) }
    ensures begins { OnOk result (begins_line out.new ≡ true) }
    ensures ends { OnOk result (EachReads O.wording (map script_of core.now.threads) (map ends_of core.now.threads)) }
    ensures nodes { OnOk result (All (NodeReads O.means O.wording) core.now.trace) }
{
    core.consistent();
    put_calls(core, out)?;
    let trace = core.trace();
    out.trace_line(trace.len() as u64)?;
    put_flagged::<O>(trace, core.flags(), out)
}

/// The line of the schedule's crash.
fn put_crash(keep: u64, out: &mut Report) -> Result<(), NoMemory>
    requires { begins_line out.old ≡ true }
    ensures lines { OnOk result (out.new ≡ out.old ++ line_text (crash_line keep)) }
    ensures begins { OnOk result (begins_line out.new ≡ true) }
{
    out.line(&[Piece::Text(b"crash"), Piece::Number(keep)])
}

/// Appends the line of each thread's log: what its image holds, and the fences of this generation.
fn put_fenced<O: Texted + Drop>(
    core: &Core<O>,
    logs: &[LogCounts],
    out: &mut Report,
) -> Result<(), NoMemory>
    requires threads { length logs.now ≡ length core.now.threads }
    requires begins { begins_line out.old ≡ true }
    ensures lines { OnOk result (out.new ≡ with_lines out.old (fenced_lines 0 logs.now core.now.threads)) }
    ensures begins { OnOk result (begins_line out.new ≡ true) }
    ensures reads { OnOk result (All LogReads (counts_of logs.now core.now.threads)) }
{
    let mut thread = 0;
    for log in logs {
        out.log_line(thread, log.entries, log.lines, Some(core.fences(thread)))?;
        thread += 1;
    }
    Ok(())
}

/// Appends the lines of the crash, of the logs, and of the object, which is recovered.
fn put_crashed<O: Texted + Drop>(
    core: &Core<O>,
    keep: u64,
    recovery: &Recovery,
    object: &O,
    out: &mut Report,
) -> Result<(), NoMemory>
    requires threads { length recovery.now.logs.items ≡ length core.now.threads }
    requires begins { begins_line out.old ≡ true }
    ensures lines { let lines = crash_lines O.wording core.now keep (recovered_in recovery.now) object.now in
        OnOk result (out.new ≡ with_lines out.old lines) }
    ensures logs { OnOk result (All LogReads (counts_of recovery.now.logs.items core.now.threads)) }
    ensures recovered { OnOk result (length recovery.now.nodes.items < 2 ^ 64) }
    ensures state { OnOk result (StateReads O.wording object.now) }
{
    put_crash(keep, out)?;
    put_fenced(core, &recovery.logs, out)?;
    put_count(recovery.nodes.len() as u64, out)?;
    out.state_lines(object)
}

/// The report of a core that crashed, of how many nodes it went on from, where it did, of what was recovered then, and of the object
/// after the nodes that were recovered. All that it says reads back.
#[tactic(auto, using(onll_text::proofs::Appending::beginning))]
fn report<O: Texted + Drop>(
    alloc: Global,
    core: &Core<O>,
    resumed: Option<u64>,
    keep: u64,
    recovery: &Recovery,
    object: &O,
) -> Result<Vec<u8>, NoMemory>
    requires operations { AllByRecursion (λ n. IsSome (O.means.op_at n.row)) core.now.trace }
    requires threads { length recovery.now.logs.items ≡ length core.now.threads }
    requires state { object.now ≡ state_after O.means core.now.initial recovery.now.nodes.items }
    ensures report { let report = replay_report O.means O.wording resumed core.now keep (recovered_in recovery.now) in
        IfOk result (λ bytes. bytes.items ≡ report) }
    ensures reads { let said = replay_data O.means resumed core.now keep (recovered_in recovery.now) in
        OnOk result (CrashedRunReads O.means O.wording (map script_of core.now.threads) said) }
{
    core.consistent();
    let mut out = Report::new(alloc);
    put_resumed(resumed, &mut out)?;
    put_run(core, &mut out)?;
    put_crashed(core, keep, recovery, object, &mut out)?;
    Ok(out.into_bytes())
}

/// What is said of a core that crashed, from these images as logs with these heads.
fn answer_from<O: Texted + Drop>(
    alloc: Global,
    core: &Core<O>,
    resumed: Option<u64>,
    keep: u64,
    heads: &[LogHead],
    images: &[TestedImage<'_>],
) -> Result<Vec<u8>, Stop>
    requires operations { AllByRecursion (λ n. IsSome (O.means.op_at n.row)) core.now.trace }
    requires heads { length heads.now ≡ length images.now }
    requires images { length images.now ≡ length core.now.threads }
    ensures { let recovered = state_recovered O.means heads.now images.now in
        let task = run_task O.means O.wording resumed (map script_of core.now.threads) core.now keep recovered in
        (store : StoreView) → Fulfils [] store store task result }
{
    let mut object = core.initial().copy(alloc)?;
    match recover_tested(alloc, &mut object, heads, images) {
        Ok(recovery) => Ok(report(alloc, core, resumed, keep, &recovery, &object)?),
        Err(StateFault::NoMemory) => Err(Stop::NoMemory),
        Err(fault) => Err(bad_logs(alloc, fault)),
    }
}

/// What is said of a core that crashed, from these images.
fn crash_answer<O: Texted + Drop>(
    alloc: Global,
    core: &Core<O>,
    resumed: Option<u64>,
    keep: u64,
    images: &[TestedImage<'_>],
) -> Result<Vec<u8>, Stop>
    requires operations { AllByRecursion (λ n. IsSome (O.means.op_at n.row)) core.now.trace }
    requires images { length images.now ≡ length core.now.threads }
    ensures { let recovered = state_recovered O.means (heads_of core.now.threads) images.now in
        let task = run_task O.means O.wording resumed (map script_of core.now.threads) core.now keep recovered in
        (store : StoreView) → Fulfils [] store store task result }
{
    let heads = core.heads(alloc)?;
    answer_from(alloc, core, resumed, keep, &heads, images)
}

/// An image: these lines, and then lines of zeros, `count` in all.
#[derive(Drop)]
struct ImageFront<'a> {
    lines: CowSlice<'a, Line, Global>,
    count: u64,
}

/// The image of a thread's device that this number picks.
fn image_at<O: Texted + Drop>(
    alloc: Global,
    core: &Core<O>,
    keep: u64,
    thread: u64,
) -> Result<ImageFront<'_>, NoMemory>
    requires { thread < length core.now.threads }
    ensures within { IfOk result (λ front. length (cow_slice_items front.lines) ≤ front.count) }
    ensures image { IfOk result (λ front. with_zeros (words_of (cow_slice_items front.lines)) front.count
        ≡ get_or (images_of keep core.now.threads) thread []) }
{
    let device = core.device(thread);
    let lines = device.image_front(alloc, keep)?;
    let count = device.lines();
    Ok(ImageFront { lines, count })
}

/// Writes the image of a thread's device that this number picks, and gives the lines that decide what it holds.
fn write_at<'a, O: Texted + Drop, S: Store>(
    alloc: Global,
    core: &'a Core<O>,
    keep: u64,
    thread: u64,
    logs: &str,
    store: &mut S,
) -> Result<TestedImage<'a>, Stop>
    requires { thread < length core.now.threads }
    ensures written { let image = get_or (images_of keep core.now.threads) thread [] in
        OnOk result (HasWritten (S.seen store.old) (S.seen store.new) (log_name logs.now thread) (image_bytes image)) }
    ensures stands { let image = get_or (images_of keep core.now.threads) thread [] in
        IfOk result (λ lines. Decides lines image) }
    ensures stop { IfErr result (λ stop. StopSays stop
        (CannotWrite (S.seen store.old) (S.seen store.new) (log_name logs.now thread))) }
    ensures cut { IfErr result (λ stop. WriteStops (S.seen store.old) (S.seen store.new) (log_name logs.now thread)) }
    ensures others { SameOthers (log_name logs.now thread) (S.seen store.old) (S.seen store.new) }
{
    let image = image_at(alloc, core, keep, thread)?;
    write_image(alloc, logs, thread, image.lines, image.count, store)
}

/// Writes the images that this number picks, one after the other, and gives of each the lines that decide what it holds.
fn write_all<'a, O: Texted + Drop, S: Store>(
    alloc: Global,
    core: &'a Core<O>,
    keep: u64,
    logs: &str,
    store: &mut S,
) -> Result<Vec<TestedImage<'a>>, Stop>
    ensures begins { let images = images_of keep core.now.threads in
        let names = log_names logs.now 0 (length images) in
        DoesStage names (S.seen store.old) (S.seen store.new) (writing_stage logs.now images) (λ _. tt) result }
    ensures stand { IfOk result (λ kept. AllDecide kept.items (images_of keep core.now.threads)) }
{
    let mut kept = Vec::new(alloc);
    for thread in 0..core.threads() {
        match write_at(alloc, core, keep, thread, logs, store) {
            Ok(lines) => kept.push(lines)?,
            Err(stop) => return Err(stop),
        }
    }
    Ok(kept)
}

/// Crashes a core: writes the images that this number picks, and says the run and what they give.
pub(crate) fn crash<O: Texted + Drop, S: Store>(
    alloc: Global,
    core: &Core<O>,
    resumed: Option<u64>,
    keep: u64,
    logs: &str,
    store: &mut S,
) -> Result<Vec<u8>, Stop>
    requires operations { AllByRecursion (λ n. IsSome (O.means.op_at n.row)) core.now.trace }
    requires threads { (1 ≤ length core.now.threads) × (length core.now.threads ≤ most_threads) }
    ensures { let scripts = map script_of core.now.threads in
        let task = crash_task O.means O.wording logs.now resumed scripts core.now keep in
        Fulfils (log_names logs.now 0 (length core.now.threads)) (S.seen store.old) (S.seen store.new) task result }
{
    match write_all(alloc, core, keep, logs, store) {
        Ok(images) => crash_answer(alloc, core, resumed, keep, &images),
        Err(stop) => Err(stop),
    }
}
