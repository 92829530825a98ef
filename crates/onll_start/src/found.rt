//! What images of an earlier generation's logs give to scripts that go on, and why they may give nothing.

ghost use Rattle.std.specs.Prelude.{ℕ, ◌≡◌, ◌<◌, ◌≤◌, ◌⊎◌, length, map, count_by, Some, None, IfOk, IfErr, MatchResult};
ghost use Rattle.std.specs.List.{All, AllByRecursion};
ghost use Rattle.onll_model.specs.Limits.{most_threads, most_updates};
ghost use Rattle.onll_model.specs.Calls.{updates_in};
ghost use Rattle.onll_model.specs.Trace.{is_of_thread, state_after};
ghost use Rattle.onll_pmem.specs.Device.{line_at};
ghost use Rattle.onll_pmem.specs.Pmem.{words_of};
ghost use Rattle.onll_log.specs.Grammar.{content_of};
ghost use Rattle.onll_log.specs.Torn.{AreLines};
ghost use Rattle.onll_merge.specs.Recovered.{recovered_from, recovered_in, applied_nodes};
ghost use Rattle.onll_start.specs.Start.{base_in, found_in, is_too_many, too_many};
ghost use Rattle.onll_start.specs.Found.{is_old_log, first_old, answer_of, IsFound, object_left};
ghost use Rattle.onll_start.specs.declared.fault.ResumeFault.TheVariants.{NoMemory as OutOfMemory, TooMany};

use crate::fault::ResumeFault;
use onll_log::{LogHead, LogImage};
use onll_merge::{ImagesFault, LogCounts, Recovery, StateFault, recover_state};
use onll_model::{Call, MOST_THREADS, MOST_UPDATES, Node, Object, count_updates};
use onll_words::Line;
use std::alloc::Global;

/// The most lines of a log.
const MOST_LINES: u64 = 1 + MOST_UPDATES * (MOST_THREADS + 1);

/// The line of this number.
fn line_of(image: &[Line], i: usize) -> Line
    requires { i < length image.now }
    ensures { result.w ≡ line_at (words_of image.now) i }
{
    image[i]
}

/// Lines are of eight words.
fn eight_words(image: &[Line])
    ensures { AreLines (words_of image.now) }
{
    for i in 0..image.len() {
        line_of(image, i);
    }
}

/// The lines of images are of eight words.
pub fn told_lines(images: &[Vec<Line>])
    ensures { AllByRecursion AreLines (map (λ image. words_of image.items) images.now) }
{
    for image in images {
        eight_words(image);
    }
}

/// Whether an image is a log of format 1.
fn is_old<I: LogImage>(image: &I) -> bool
    ensures { result ≡ is_old_log (content_of (I.lines_of image.now)) }
{
    match image.open() {
        Some(cursor) => match cursor.head() {
            Some(head) => head.format == 1,
            None => false,
        },
        None => false,
    }
}

/// The first image that is a log of format 1.
fn first_old<I: LogImage>(images: &[I]) -> Option<u64>
    ensures { result ≡ first_old 0 (map I.lines_of images.now) }
{
    for (log, image) in images.iter().enumerate() {
        if is_old(image) {
            return Some(log as u64);
        }
    }
    None
}

/// What is answered where this was recovered, and this log is the first of an old format: an image that is no log before that, all
/// else after it.
fn answer_of(
    old: Option<u64>,
    recovered: Result<Recovery, StateFault>,
) -> Result<Recovery, ResumeFault>
    ensures { result ≡ answer_of old recovered }
{
    match recovered {
        Err(StateFault::NoMemory) => Err(ResumeFault::NoMemory),
        Err(StateFault::NotLog { log }) => Err(ResumeFault::Images(ImagesFault::NotLog { log })),
        Ok(recovery) => match old {
            Some(log) => Err(ResumeFault::OldFormat { log }),
            None => Ok(recovery),
        },
        Err(StateFault::NotMerged(fault)) => match old {
            Some(log) => Err(ResumeFault::OldFormat { log }),
            None => Err(ResumeFault::Images(ImagesFault::Recover(fault))),
        },
        Err(StateFault::NotOperation { place }) => match old {
            Some(log) => Err(ResumeFault::OldFormat { log }),
            None => Err(ResumeFault::NotOp { place }),
        },
    }
}

/// What images give as logs that a core with these heads can go on from, and the object after their nodes. A refusal leaves the
/// object after those of them that come before a row that is no operation.
pub fn find<O: Object, I: LogImage>(
    alloc: Global,
    object: &mut O,
    heads: &[LogHead],
    images: &[I],
) -> Result<Recovery, ResumeFault>
    requires { length heads.now ≡ length images.now }
    ensures found { let found = found_in O.means heads.now (map I.lines_of images.now) in
        MatchResult result (λ r. IsFound found (recovered_in r)) (λ e. (e ≡ OutOfMemory) ⊎ (found ≡ Err e)) }
    ensures state { IfOk result (λ r. object.new ≡ state_after O.means object.old r.nodes.items) }
    ensures left { let recovered = recovered_from heads.now (map I.lines_of images.now) in
        MatchResult result (λ r. applied_nodes O.means recovered ≡ r.nodes.items)
        (λ e. object.new ≡ object_left O.means recovered object.old e) }
{
    let recovered = recover_state(alloc, object, heads, images);
    answer_of(first_old(images), recovered)
}

/// How many of these nodes are a thread's.
pub fn count_nodes(nodes: &[Node], thread: u64) -> u64
    ensures { result ≡ count_by (is_of_thread thread) nodes.now }
{
    let mut count = 0;
    for node in nodes {
        if node.thread == thread {
            count += 1;
        }
    }
    count
}

/// Whether a thread has too many updates, or its log would be too long.
fn is_too_many(threads: u64, recovered: u64, lines: u64, updates: u64) -> bool
    requires threads { threads ≤ most_threads }
    requires updates { updates ≤ most_updates }
    ensures { result ≡ is_too_many threads recovered lines updates }
{
    recovered > MOST_UPDATES - updates || lines.max(1) > MOST_LINES - updates * (threads + 1)
}

/// Refuses the first thread that has too many updates, or whose log would be too long.
pub fn check_room<O: Object>(
    nodes: &[Node],
    logs: &[LogCounts],
    scripts: &[Vec<Call<O>>],
) -> Result<(), ResumeFault>
    requires few { length scripts.now ≤ most_threads }
    requires logs { length logs.now ≡ length scripts.now }
    requires updates { All (λ script. updates_in script.items ≤ most_updates) scripts.now }
    ensures room { let refused = too_many (length scripts.now) nodes.now 0 logs.now (map (λ script. script.items) scripts.now) in
        MatchResult result (λ _. refused ≡ None) (λ e. refused ≡ Some e) }
    ensures only { IfErr result (λ e. (t : ℕ) × (e ≡ TooMany t)) }
{
    let threads = scripts.len() as u64;
    for (thread, script) in scripts.iter().enumerate() {
        let thread_nodes = count_nodes(nodes, thread as u64);
        if is_too_many(
            threads,
            thread_nodes,
            logs[thread].lines,
            count_updates(script),
        ) {
            return Err(ResumeFault::TooMany {
                thread: thread as u64,
            });
        }
    }
    Ok(())
}

/// What images give as logs that scripts can go on from with these heads, and the object after their nodes; or the first reason why
/// they can't. A refusal leaves the object after those of the nodes that come before a row that is no operation, where the logs
/// merge to nodes, and as it was where they don't.
pub fn find_start<O: Object, I: LogImage>(
    alloc: Global,
    object: &mut O,
    heads: &[LogHead],
    images: &[I],
    scripts: &[Vec<Call<O>>],
) -> Result<Recovery, ResumeFault>
    requires few { length scripts.now ≤ most_threads }
    requires heads { length heads.now ≡ length scripts.now }
    requires images { length images.now ≡ length scripts.now }
    requires updates { All (λ script. updates_in script.items ≤ most_updates) scripts.now }
    ensures base { let base = base_in O.means heads.now (map (λ script. script.items) scripts.now)
        (map I.lines_of images.now) in
        MatchResult result (λ r. IsFound base (recovered_in r)) (λ e. (e ≡ OutOfMemory) ⊎ (base ≡ Err e)) }
    ensures state { IfOk result (λ r. object.new ≡ state_after O.means object.old r.nodes.items) }
    ensures left { IfErr result (λ e. object.new
        ≡ object_left O.means (recovered_from heads.now (map I.lines_of images.now)) object.old e) }
{
    let found = find(alloc, object, heads, images)?;
    match check_room(&found.nodes, &found.logs, scripts) {
        Ok(()) => Ok(found),
        Err(fault) => Err(fault),
    }
}
