//! The core that goes on from the images of an earlier generation's logs.

ghost use Rattle.std.specs.Prelude.{◌≡◌, ◌≤◌, ◌⊎◌, true, length, map, replicate, Ok, Err, IfOk, MatchResult};
ghost use Rattle.std.specs.List.{All};
ghost use Rattle.std.specs.Vec.{vec_capacity};
ghost use Rattle.onll_model.specs.Limits.{most_threads, most_updates};
ghost use Rattle.onll_model.specs.Calls.{updates_in};
ghost use Rattle.onll_pmem.specs.Pmem.{words_of};
ghost use Rattle.onll_start.specs.declared.fault.ResumeFault.TheVariants.{NoMemory as OutOfMemory};
ghost use Rattle.onll_core.specs.Resume.{resumed};
ghost use Rattle.onll_core.specs.Found.{found_threads, HaveLogRoom, locals_from};

use super::{Core, NAMES};
use crate::local::Local;
use crate::worker::{Worker, with_room};
use onll_log::{LogHead, new_heads};
use onll_merge::LogCounts;
use onll_model::{Call, Node, Object};
use onll_start::{ResumeFault, check_room, count_nodes, find, told_lines};
use onll_words::{Line, NoMemory};
use std::alloc::Global;

/// The threads of these scripts, each of which goes on in its log.
fn found_workers<O: Object>(
    alloc: Global,
    heads: &[LogHead],
    images: &[Vec<Line>],
    logs: &[LogCounts],
    scripts: Vec<Vec<Call<O>>>,
) -> Result<Vec<Worker<O>>, NoMemory>
    requires { HaveLogRoom heads.now (map (λ image. words_of image.items) images.now)
        logs.now (map (λ script. script.items) scripts.items) }
    ensures { IfOk result (λ workers. workers.items
        ≡ found_threads heads.now (map (λ image. words_of image.items) images.now)
        logs.now (map (λ script. script.items) scripts.items)) }
{
    let mut workers = with_room(alloc, scripts.len())?;
    let mut thread = 0;
    for script in scripts {
        let worker = Worker::resume(alloc, heads[thread], &images[thread], logs[thread], script)?;
        workers.push_reserved(worker);
        thread += 1;
    }
    Ok(workers)
}

/// As many replicas of the object after these nodes.
fn found_locals<O: Object + Drop>(
    alloc: Global,
    object: &O,
    nodes: &[Node],
    threads: usize,
) -> Result<Vec<Local<O>>, NoMemory>
    ensures { IfOk result (λ locals. locals.items ≡ locals_from object.now nodes.now 0 threads) }
{
    let mut locals = with_room(alloc, threads)?;
    for thread in 0..threads {
        locals.push_reserved(Local {
            object: object.copy(alloc)?,
            place: nodes.len() as u64,
            linked: count_nodes(nodes, thread as u64),
        });
    }
    Ok(locals)
}

/// These nodes, with room for as many as this.
fn with_nodes(alloc: Global, nodes: &[Node], room: usize) -> Result<Vec<Node>, NoMemory>
    ensures { IfOk result (λ v. (v.items ≡ nodes.now) × (room ≤ vec_capacity v)) }
{
    let mut trace = with_room(alloc, room)?;
    trace.extend_from_slice(nodes)?;
    Ok(trace)
}

/// So many flags, all set, with room for as many as this.
fn with_flags(alloc: Global, set: usize, room: usize) -> Result<Vec<bool>, NoMemory>
    ensures { IfOk result (λ v. (v.items ≡ replicate set true) × (room ≤ vec_capacity v)) }
{
    let mut flags = with_room(alloc, room)?;
    flags.resize(set, true)?;
    Ok(flags)
}

impl<O: Object + Drop> Core<O> {
    /// A core that goes on from the images of an earlier generation's logs, one image for each script, before any step. Of each
    /// image only the used lines are taken over, so what a torn append left is gone; an image of zeros begins a log.
    pub fn resume(
        alloc: Global,
        object: O,
        init: &[u8],
        images: &[Vec<Line>],
        scripts: Vec<Vec<Call<O>>>,
    ) -> Result<Core<O>, ResumeFault>
        requires few { length scripts.items ≤ most_threads }
        requires updates { All (λ script. updates_in script.items ≤ most_updates) scripts.items }
        requires images { length images.now ≡ length scripts.items }
        ensures { let resumed = resumed O.means O.CODE init.now object (map (λ image. words_of image.items) images.now)
            (map (λ script. script.items) scripts.items) in
            MatchResult result (λ c. resumed ≡ Ok c) (λ e. (e ≡ OutOfMemory) ⊎ (resumed ≡ Err e)) }
    {
        told_lines(images);
        let threads = scripts.len();
        let heads = new_heads(alloc, O::CODE, init, threads as u64)?;
        let mut after = object.copy(alloc)?;
        let found = find(alloc, &mut after, &heads, images)?;
        if let Err(fault) = check_room(&found.nodes, &found.logs, &scripts) {
            return Err(fault);
        }
        let base = found.nodes.len();
        let trace = with_nodes(alloc, &found.nodes, NAMES * threads)?;
        let flags = with_flags(alloc, base, NAMES * threads)?;
        let locals = found_locals(alloc, &after, &found.nodes, threads)?;
        let workers = found_workers(alloc, &heads, images, &found.logs, scripts)?;
        Ok(Core {
            initial: object,
            base: base as u64,
            trace,
            flags,
            clock: 0,
            workers,
            locals,
        })
    }
}
