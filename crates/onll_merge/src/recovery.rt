//! Recovery: what the images of one run give.

ghost use Rattle.std.specs.Prelude.{◌≡◌, ◌≤◌, ◌⊎◌, [], length, map, Ok, Err, Some, None, IfOk, IfErr, MatchResult};
ghost use Rattle.std.specs.Option.{option_or};
ghost use Rattle.std.specs.List.{AllByRecursion};
ghost use Rattle.onll_model.specs.Limits.{most_threads, greatest_code};
ghost use Rattle.onll_merge.specs.Merge.{AllRise, unlike, nodes_to, stray_above};
ghost use Rattle.onll_merge.specs.Recovered.{recovered_from, recovered_in, merge_images, expected_heads, state_recovered, state_left};
ghost use Rattle.onll_merge.specs.Standing.{contents_under};
ghost use Rattle.onll_merge.specs.declared.fault.RecoverFault.TheVariants.{NoMemory as OutOfMemory};
ghost use Rattle.onll_merge.specs.declared.fault.ImagesFault.TheVariants.{Recover};
ghost use Rattle.onll_merge.specs.declared.fault.StateFault.TheVariants.{NoMemory as StateOutOfMemory};
ghost use Rattle.onll_model.specs.Trace.{state_after};
ghost use Rattle.onll_model.specs.Recovered.{operations_front};

use crate::counts::LogCounts;
use crate::fault::{ImagesFault, RecoverFault, StateFault};
use crate::first_pass::{open_all, survey_logs};
use crate::numbers::check_numbers;
use crate::second_pass::{gather, readers_of};
use onll_log::{LogCursor, LogHead, LogImage};
use onll_model::{Node, Object, fold_nodes};
use onll_words::NoMemory;
use std::alloc::Global;

/// What the images of one run give: how much each holds as a log, and the nodes of their trace.
#[derive(Drop)]
pub struct Recovery {
    pub logs: Vec<LogCounts>,
    pub nodes: Vec<Node>,
}

/// The nodes of the places up to `top`, which logs whose entries rise hold alike, each with the next number of its thread.
fn merge_places(
    alloc: Global,
    cursors: Vec<LogCursor<'_>>,
    top: u64,
) -> Result<Vec<Node>, RecoverFault>
    requires rise { AllRise (contents_under cursors.items) }
    requires first { AllByRecursion (λ c. c.passed ≡ 0) cursors.items }
    ensures refused { let logs = contents_under cursors.entry.items in
        let found = option_or (unlike logs top) (stray_above [] (nodes_to logs top)) in
        MatchResult result (λ _. found ≡ None) (λ e. (e ≡ OutOfMemory) ⊎ (found ≡ Some e)) }
    ensures nodes { IfOk result (λ nodes. nodes.items ≡ nodes_to (contents_under cursors.entry.items) top) }
{
    let mut readers = readers_of(alloc, cursors)?;
    let nodes = gather(alloc, &mut readers, top)?;
    check_numbers(&nodes)?;
    Ok(nodes)
}

/// What images give as the logs of one run with these heads, or the first reason why they give nothing: an image that is no log
/// before all others.
pub fn recover_images<I: LogImage>(
    alloc: Global,
    images: &[I],
    heads: &[LogHead],
) -> Result<Recovery, ImagesFault>
    requires { length heads.now ≡ length images.now }
    ensures recovered { let recovered = recovered_from heads.now (map I.lines_of images.now) in
        MatchResult result (λ r. recovered ≡ Ok (recovered_in r)) (λ e. (e ≡ Recover OutOfMemory) ⊎ (recovered ≡ Err e)) }
    ensures count { IfOk result (λ r. length r.logs.items ≡ length images.now) }
{
    let mut cursors = open_all(alloc, images)?;
    let found = survey_logs(alloc, &mut cursors, heads)?;
    let nodes = merge_places(alloc, cursors, found.top)?;
    Ok(Recovery {
        logs: found.logs,
        nodes,
    })
}

/// The nodes that images give as the logs of one run with these heads.
pub fn merge_images<I: LogImage>(
    alloc: Global,
    images: &[I],
    heads: &[LogHead],
) -> Result<Vec<Node>, ImagesFault>
    requires { length heads.now ≡ length images.now }
    ensures { let merged = merge_images heads.now (map I.lines_of images.now) in
        MatchResult result (λ nodes. merged ≡ Ok nodes.items) (λ e. (e ≡ Recover OutOfMemory) ⊎ (merged ≡ Err e)) }
{
    match recover_images(alloc, images, heads) {
        Ok(Recovery { logs: _, nodes }) => Ok(nodes),
        Err(fault) => Err(fault),
    }
}

/// The heads that the logs of these images have where they are of a run of the object of this code from these bytes of an
/// initial state: each in the format of its image.
pub fn expected_heads<I: LogImage>(
    alloc: Global,
    object: u64,
    init: &[u8],
    images: &[I],
) -> Result<Vec<LogHead>, NoMemory>
    requires object { (1 ≤ object) × (object ≤ greatest_code) }
    requires images { length images.now ≤ most_threads }
    ensures heads { IfOk result (λ heads. heads.items
        ≡ expected_heads object init.now (map I.lines_of images.now)) }
    ensures count { IfOk result (λ heads. length heads.items ≡ length images.now) }
{
    let mut heads = Vec::new(alloc);
    for (thread, image) in images.iter().enumerate() {
        heads.push(LogHead::of_format(
            image.format(),
            thread as u64,
            images.len() as u64,
            object,
            init,
        ))?;
    }
    Ok(heads)
}

/// What images give over an object as the logs of one run with these heads: each row is applied to the object. It refuses the
/// first row that is no operation, after all else; the object then has the operations before it.
pub fn recover_state<O: Object, I: LogImage>(
    alloc: Global,
    object: &mut O,
    heads: &[LogHead],
    images: &[I],
) -> Result<Recovery, StateFault>
    requires { length heads.now ≡ length images.now }
    ensures recovered { let recovered = state_recovered O.means heads.now (map I.lines_of images.now) in
        MatchResult result (λ r. recovered ≡ Ok (recovered_in r)) (λ e. (e ≡ StateOutOfMemory) ⊎ (recovered ≡ Err e)) }
    ensures count { IfOk result (λ r. length r.logs.items ≡ length images.now) }
    ensures rows { IfOk result (λ r. operations_front O.means r.nodes.items ≡ r.nodes.items) }
    ensures state { IfOk result (λ r. object.new ≡ state_after O.means object.old r.nodes.items) }
    ensures left { IfErr result (λ e. object.new
        ≡ state_left O.means (recovered_from heads.now (map I.lines_of images.now)) object.old e) }
{
    let recovery = recover_images(alloc, images, heads)?;
    match fold_nodes(object, &recovery.nodes) {
        Ok(()) => Ok(recovery),
        Err(fault) => Err(StateFault::NotOperation { place: fault.place }),
    }
}
