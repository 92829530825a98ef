//! Logs that are known to be of one run, applied to an object without a list of their nodes.

ghost use Rattle.std.specs.Prelude.{◌≡◌, length, map, None, IfOk, IfErr, IsOk};
ghost use Rattle.onll_model.specs.Trace.{after_row, state_after};
ghost use Rattle.onll_merge.specs.Merge.{AllRise, unlike, nodes_to};
ghost use Rattle.onll_merge.specs.Recovered.{state_recovered};
ghost use Rattle.onll_merge.specs.Standing.{contents_under, StandBelow};

use crate::counts::LogCounts;
use crate::first_pass::{open_all, survey_logs};
use crate::second_pass::{Reader, node_of_place, readers_of};
use onll_log::{LogHead, LogImage};
use onll_model::{Node, Object};
use onll_words::NoMemory;
use std::alloc::Global;

/// How much images hold, each as a log, and how many nodes there are in all, which were applied to an object.
#[derive(Drop)]
pub struct AppliedLogs {
    pub logs: Vec<LogCounts>,
    pub nodes: u64,
}

/// Applies the row of a node, where it is an operation's.
fn apply_node<O: Object>(object: &mut O, node: Node)
    ensures { object.new ≡ after_row O.means object.old (O.means.op_at node.row) }
{
    if let Some(op) = O::op_of_row(node.row) {
        let _ = object.apply(op);
    }
}

/// Applies the nodes of the places up to `top`, each of which logs whose entries rise hold, and hold alike.
fn apply_places<O: Object>(object: &mut O, readers: &mut [Reader<'_>], top: u64)
    requires rise { AllRise (contents_under readers.old) }
    requires below { StandBelow 1 readers.old }
    requires alike { unlike (contents_under readers.old) top ≡ None }
    ensures { object.new ≡ state_after O.means object.old (nodes_to (contents_under readers.old) top) }
{
    for below in 0..top {
        match node_of_place(readers, below + 1) {
            Ok(Some(node)) => apply_node(object, node),
            Ok(None) => unreachable!(),
            Err(_) => unreachable!(),
        }
    }
}

/// Recovers an object as `recover_state` does, from images that are known to give its state, as those of a run's own logs do. It
/// keeps no list of the nodes. Want of memory leaves the object as it was.
pub fn apply_images<O: Object, I: LogImage>(
    alloc: Global,
    object: &mut O,
    heads: &[LogHead],
    images: &[I],
) -> Result<AppliedLogs, NoMemory>
    requires heads { length heads.now ≡ length images.now }
    requires known { IsOk (state_recovered O.means heads.now (map I.lines_of images.now)) }
    ensures logs { IfOk result (λ a. IfOk (state_recovered O.means heads.now (map I.lines_of images.now)) (λ r. a.logs.items ≡ r.logs)) }
    ensures nodes { IfOk result (λ a. IfOk (state_recovered O.means heads.now (map I.lines_of images.now)) (λ r. a.nodes ≡ length r.nodes)) }
    ensures state { IfOk result (λ _. IfOk (state_recovered O.means heads.now (map I.lines_of images.now))
        (λ r. object.new ≡ state_after O.means object.old r.nodes)) }
    ensures left { IfErr result (λ _. object.new ≡ object.old) }
{
    let Ok(mut cursors) = open_all(alloc, images) else {
        return Err(NoMemory);
    };
    let Ok(found) = survey_logs(alloc, &mut cursors, heads) else {
        return Err(NoMemory);
    };
    let Ok(mut readers) = readers_of(alloc, cursors) else {
        return Err(NoMemory);
    };
    apply_places(object, &mut readers, found.top);
    Ok(AppliedLogs {
        logs: found.logs,
        nodes: found.top,
    })
}
