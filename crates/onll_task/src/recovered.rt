//! Logs recovered, from the images that were read, or from what a run left.

ghost use Rattle.std.specs.Prelude.{[], ◌≡◌, ◌≤◌, ◌⊎◌, length, map, IfOk, OnOk, MatchResult, Ok, Err, All, Some, List};
ghost use Rattle.std.specs.List.{AllByRecursion};
ghost use Rattle.onll_model.specs.declared.node.Node.{Node as SomeNode};
ghost use Rattle.onll_model.specs.Limits.{most_threads};
ghost use Rattle.onll_model.specs.Recovered.{operations_front};
ghost use Rattle.onll_model.specs.Trace.{IsNumbered, state_after};
ghost use Rattle.onll_log.specs.Grammar.{content_of};
ghost use Rattle.onll_merge.specs.declared.fault.StateFault.TheVariants.{NoMemory as OutOfMemory};
ghost use Rattle.onll_merge.specs.Recovered.{log_counts, recovered_in, state_recovered};
ghost use Rattle.onll_run.specs.Left.{content_in};
ghost use Rattle.onll_run.specs.Ended.{log_left};
ghost use Rattle.onll_outside.specs.LineFiles.{IsWholeLine};
ghost use Rattle.onll_outside.specs.Views.{StoreView};
ghost use Rattle.onll_text.specs.Kinds.{kind_by};
ghost use Rattle.onll_task.specs.Doing.{DoesStage};
ghost use Rattle.onll_task.specs.Recovering.{recovery_of, given_stage, recovery_stage};
ghost use Rattle.onll_task.specs.RunLogs.{LogsOfRun};

use crate::answer::Stop;
use crate::faults::bad_logs;
use crate::images::read_images;
use onll_log::{LogHead, TestedImage, ThreadLog};
use onll_merge::{AppliedLogs, Recovery, StateFault, apply_images, expected_heads, recover_state};
use onll_model::Object;
use onll_outside::Store;
use onll_pmem::Pmem;
use onll_text::Texted;
use onll_words::{Line, NoMemory};
use std::alloc::Global;

/// What images give over an object as the logs of one run with these heads: each row is applied to the object.
pub fn recover_tested<O: Object>(
    alloc: Global,
    object: &mut O,
    heads: &[LogHead],
    images: &[TestedImage<'_>],
) -> Result<Recovery, StateFault>
    requires { length heads.now ≡ length images.now }
    ensures recovered { let recovered = state_recovered O.means heads.now images.now in
        MatchResult result (λ r. recovered ≡ Ok (recovered_in r)) (λ e. (e ≡ OutOfMemory) ⊎ (recovered ≡ Err e)) }
    ensures count { IfOk result (λ r. length r.logs.items ≡ length images.now) }
    ensures rows { IfOk result (λ r. operations_front O.means r.nodes.items ≡ r.nodes.items) }
    ensures state { IfOk result (λ r. object.new ≡ state_after O.means object.old r.nodes.items) }
{
    recover_state(alloc, object, heads, images)
}

/// What these images give over an object, whose initial state these bytes say.
fn recover_kept<O: Texted>(
    alloc: Global,
    object: &mut O,
    init: &[u8],
    images: &[TestedImage<'_>],
) -> Result<Recovery, Stop>
    requires { length images.now ≤ most_threads }
    ensures given { let given = recovery_of (kind_by O.means O.wording O.CODE) init.now images.now in
        (store : StoreView) → DoesStage [] store store (given_stage given) (λ r. recovered_in r) result }
    ensures numbered { IfOk result (λ r. IsNumbered r.nodes.items) }
    ensures rows { IfOk result (λ r. operations_front O.means r.nodes.items ≡ r.nodes.items) }
    ensures state { IfOk result (λ r. object.new ≡ state_after O.means object.old r.nodes.items) }
{
    let heads = expected_heads(alloc, O::CODE, init, images)?;
    match recover_tested(alloc, object, &heads, images) {
        Ok(recovery) => Ok(recovery),
        Err(StateFault::NoMemory) => Err(Stop::NoMemory),
        Err(fault) => Err(bad_logs(alloc, fault)),
    }
}

/// Recovers an object, whose initial state these bytes say, from the files of the logs of so many threads of one run: the object is after
/// the trace. It stops at the first file that can't be read, and where the logs give no trace.
pub fn recover_files<O: Texted, S: Store>(
    alloc: Global,
    object: &mut O,
    init: &[u8],
    logs: &str,
    threads: u64,
    store: &mut S,
) -> Result<Recovery, Stop>
    requires { threads ≤ most_threads }
    ensures stage { let stage = recovery_stage (kind_by O.means O.wording O.CODE) init.now logs.now threads in
        DoesStage [] (S.seen store.old) (S.seen store.new) stage (λ r. recovered_in r) result }
    ensures numbered { IfOk result (λ r. IsNumbered r.nodes.items) }
    ensures rows { IfOk result (λ r. operations_front O.means r.nodes.items ≡ r.nodes.items) }
    ensures state { IfOk result (λ r. object.new ≡ state_after O.means object.old r.nodes.items) }
{
    match read_images(alloc, logs, threads, store) {
        Ok(kept) => recover_kept(alloc, object, init, &kept.images),
        Err(stop) => Err(stop),
    }
}

/// A line has eight words of 64 bits.
fn whole_line(line: Line)
    ensures { IsWholeLine line.w }
{}

/// Each line has eight words of 64 bits.
fn whole_lines(lines: &[Line])
    ensures { All (λ line. IsWholeLine line.w) lines.now }
{
    for line in lines {
        whole_line(*line);
    }
}

/// The lines that a log uses. They hold it as its device does, which has only zeros after them.
fn image_of<P: Pmem>(alloc: Global, log: &ThreadLog<P>) -> Result<TestedImage<'_>, NoMemory>
    ensures content { IfOk result (λ image. content_of image ≡ Some (content_in (log_left P.means log.now))) }
    ensures whole { OnOk result (AllByRecursion IsWholeLine (P.means log.now.device).read) }
{
    let _ = log.device();
    let image = log.image(alloc)?;
    whole_lines(image.as_slice());
    Ok(image)
}

/// The lines that each log uses.
fn images_of<P: Pmem>(
    alloc: Global,
    logs: &[ThreadLog<P>],
) -> Result<Vec<TestedImage<'_>>, NoMemory>
    ensures contents { IfOk result (λ images. map content_of images.items
        ≡ map (λ log. Some (content_in (log_left P.means log))) logs.now) }
    ensures count { IfOk result (λ images. length images.items ≡ length logs.now) }
    ensures whole { OnOk result (All (λ log. AllByRecursion IsWholeLine (P.means log.device).read) logs.now) }
{
    let mut images = Vec::new(alloc);
    for log in logs {
        images.push(image_of(alloc, log)?)?;
    }
    Ok(images)
}

/// Recovers the object from the lines of a run's devices as read. They give the trace, and the object is after it, without a list
/// of its nodes. The rows of the base, from which the run went on, are operations.
pub fn recover_logs<O: Object, P: Pmem>(
    alloc: Global,
    object: &mut O,
    heads: &[LogHead],
    logs: &[ThreadLog<P>],
) -> Result<AppliedLogs, NoMemory>
    requires { (nodes : List SomeNode) × LogsOfRun O.means P.means object.old heads.now nodes logs.now }
    ensures logs { IfOk result (λ a. a.logs.items ≡ map log_counts (map content_in (map (log_left P.means) logs.now))) }
    ensures nodes { IfOk result (λ a. (nodes : List SomeNode)
        → LogsOfRun O.means P.means object.old heads.now nodes logs.now → a.nodes ≡ length nodes) }
    ensures state { IfOk result (λ _. (nodes : List SomeNode)
        → LogsOfRun O.means P.means object.old heads.now nodes logs.now → object.new ≡ state_after O.means object.old nodes) }
    ensures whole { OnOk result (All (λ log. AllByRecursion IsWholeLine (P.means log.device).read) logs.now) }
{
    let images = images_of(alloc, logs)?;
    apply_images(alloc, object, heads, &images)
}
