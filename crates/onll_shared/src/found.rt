//! What the logs of all threads hold of a trace, from which an object goes on.

ghost use Rattle.std.specs.Prelude.{◌≡◌, ◌≤◌, ◌++◌, ◌⊎◌, List, length, map, Some, Ok, Err, IfOk, OnOk, MatchResult};
ghost use Rattle.std.specs.List.{AllByRecursion};
ghost use Rattle.onll_model.specs.Limits.{most_threads};
ghost use Rattle.onll_log.specs.Grammar.{content_of};
ghost use Rattle.onll_log.specs.Cursor.{entries_left};
ghost use Rattle.onll_log.specs.Encoding.{FitEntries};
ghost use Rattle.onll_merge.specs.Merge.{merge};
ghost use Rattle.onll_merge.specs.declared.fault.RecoverFault.TheVariants.{NoMemory as OutOfMemory};
ghost use Rattle.onll_shared.specs.Starts.{AreLogs};
ghost use Rattle.onll_shared.specs.Found.{HoldBase, content_held, head_held, image_entries, marks_of, marks_from};

use onll_log::{LogCursor, LogHead, LogImage, TestedImage, ThreadLog};
use onll_merge::{ImagesFault, RecoverFault, merge_images};
use onll_model::{Mark, Node};
use onll_pmem::Pmem;
use onll_words::NoMemory;
use std::alloc::Global;

/// The nodes from which an object goes on, and a mark for each segment of them that a log holds.
#[derive(Drop)]
pub struct Base {
    pub nodes: Vec<Node>,
    pub marks: Vec<Mark>,
}

// The lines of a log, which hold it.
fn image_of<P: Pmem>(alloc: Global, log: &ThreadLog<P>) -> Result<TestedImage<'_>, NoMemory>
    ensures content { IfOk result (λ image. content_of image ≡ Some (content_held log.now)) }
    ensures fit { FitEntries log.now.head.threads log.now.entries }
{
    let _ = log.device();
    log.image(alloc)
}

// The lines of each log.
fn images_of<P: Pmem>(
    alloc: Global,
    logs: &[ThreadLog<P>],
) -> Result<Vec<TestedImage<'_>>, NoMemory>
    ensures contents { IfOk result (λ images. map content_of images.items ≡ map Some (map content_held logs.now)) }
    ensures fit { IfOk result (λ images. AllByRecursion (λ log. FitEntries log.head.threads log.entries) logs.now) }
{
    let mut images = Vec::new(alloc);
    for log in logs {
        images.push(image_of(alloc, log)?)?;
    }
    Ok(images)
}

// The head of each log.
fn heads_of<P: Pmem>(alloc: Global, logs: &[ThreadLog<P>]) -> Result<Vec<LogHead>, NoMemory>
    ensures { IfOk result (λ heads. heads.items ≡ map head_held logs.now) }
{
    let mut heads = Vec::new(alloc);
    for log in logs {
        heads.push(log.head())?;
    }
    Ok(heads)
}

// The nodes that logs merge to, which these images hold.
fn merge_logs<P: Pmem>(
    alloc: Global,
    logs: &[ThreadLog<P>],
    images: &[TestedImage<'_>],
) -> Result<Vec<Node>, RecoverFault>
    requires held { map content_of images.now ≡ map Some (map content_held logs.now) }
    ensures { let merged = merge (map head_held logs.now) (map content_held logs.now) in
        MatchResult result (λ nodes. merged ≡ Ok nodes.items) (λ e. (e ≡ OutOfMemory) ⊎ (merged ≡ Err e)) }
{
    let Ok(heads) = heads_of(alloc, logs) else {
        return Err(RecoverFault::NoMemory);
    };
    match merge_images(alloc, images, &heads) {
        Ok(nodes) => Ok(nodes),
        Err(ImagesFault::Recover(fault)) => Err(fault),
        Err(ImagesFault::NotLog { .. }) => unreachable!(),
    }
}

// Marks each entry of a thread's log that a cursor has not gone past.
fn mark_left(marks: &mut Vec<Mark>, thread: u64, cursor: &mut LogCursor<'_>) -> Result<(), NoMemory>
    ensures { OnOk result (marks.new.items ≡ marks.old.items ++ marks_of thread (entries_left cursor.old)) }
{
    while let Some(entry) = cursor.peek() {
        marks.push(Mark {
            thread,
            place: entry.place,
            count: entry.count,
        })?;
        cursor.advance();
    }
    Ok(())
}

// Marks each entry of a thread's log that an image holds.
fn mark_image(marks: &mut Vec<Mark>, thread: u64, image: &TestedImage<'_>) -> Result<(), NoMemory>
    ensures { OnOk result (marks.new.items ≡ marks.old.items ++ marks_of thread (image_entries image.now)) }
{
    match image.open() {
        Some(mut cursor) => mark_left(marks, thread, &mut cursor),
        None => Ok(()),
    }
}

// A mark of each entry of each log that images hold.
fn mark_images(alloc: Global, images: &[TestedImage<'_>]) -> Result<Vec<Mark>, NoMemory>
    ensures { IfOk result (λ marks. marks.items ≡ marks_from 0 (map image_entries images.now)) }
{
    let mut marks = Vec::new(alloc);
    for (thread, image) in images.iter().enumerate() {
        mark_image(&mut marks, thread as u64, image)?;
    }
    Ok(marks)
}

// A mark of each entry of each log, which name what the logs hold of the nodes that they merge to.
pub(crate) fn mark_logs<P: Pmem>(
    alloc: Global,
    logs: &[ThreadLog<P>],
) -> Result<Vec<Mark>, NoMemory>
    requires many { (1 ≤ length logs.now) × (length logs.now ≤ most_threads) }
    requires logs { AreLogs logs.now }
    ensures { IfOk result (λ marks. (base : List Node) → merge (map head_held logs.now) (map content_held logs.now) ≡ Ok base
        → HoldBase logs.now base marks.items) }
{
    let images = images_of(alloc, logs)?;
    mark_images(alloc, &images)
}

/// The nodes that the logs of all threads hold, with their marks; or the first reason why these are not the logs of one run.
pub fn find_base<P: Pmem>(alloc: Global, logs: &[ThreadLog<P>]) -> Result<Base, RecoverFault>
    requires many { (1 ≤ length logs.now) × (length logs.now ≤ most_threads) }
    requires logs { AreLogs logs.now }
    ensures { MatchResult result (λ base. HoldBase logs.now base.nodes.items base.marks.items) (λ e.
        (e ≡ OutOfMemory) ⊎ (merge (map head_held logs.now) (map content_held logs.now) ≡ Err e)) }
{
    let Ok(images) = images_of(alloc, logs) else {
        return Err(RecoverFault::NoMemory);
    };
    let nodes = merge_logs(alloc, logs, &images)?;
    let Ok(marks) = mark_images(alloc, &images) else {
        return Err(RecoverFault::NoMemory);
    };
    Ok(Base { nodes, marks })
}
