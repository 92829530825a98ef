//! The crash of a core, and the recovery from its images.

ghost use Rattle.std.specs.Prelude.{◌≡◌, ◌⊎◌, length, map, Ok, Err, IfOk, MatchResult};
ghost use Rattle.onll_pmem.specs.Pmem.{words_of};
ghost use Rattle.onll_merge.specs.Recovered.{merge_images};
ghost use Rattle.onll_merge.specs.declared.fault.RecoverFault.TheVariants.{NoMemory as OutOfMemory};
ghost use Rattle.onll_merge.specs.declared.fault.ImagesFault.TheVariants.{Recover};
ghost use Rattle.onll_core.specs.Crash.{AreImages, images_of, heads_of, RecoversAll};

use crate::step_core::Core;
use crate::worker::Worker;
use onll_log::LogHead;
use onll_merge::{ImagesFault, RecoverFault, merge_images};
use onll_model::{Node, Object};
use onll_words::{Line, NoMemory};
use std::alloc::Global;

/// An image of each thread's device.
fn images_of<O: Object>(
    alloc: Global,
    workers: &[Worker<O>],
    keep: u64,
) -> Result<Vec<Vec<Line>>, NoMemory>
    ensures { IfOk result (λ images. map (λ image. words_of image.items) images.items ≡ images_of keep workers.now) }
{
    let mut images = Vec::new(alloc);
    for worker in workers {
        let image = worker.device().image(alloc, keep)?;
        images.push(image)?;
    }
    Ok(images)
}

/// The head of each thread's log.
fn heads_of<O: Object>(alloc: Global, workers: &[Worker<O>]) -> Result<Vec<LogHead>, NoMemory>
    ensures { IfOk result (λ heads. heads.items ≡ heads_of workers.now) }
{
    let mut heads = Vec::with_capacity(alloc, workers.len())?;
    for worker in workers {
        heads.push(worker.head())?;
    }
    Ok(heads)
}

impl<O: Object + Drop> Core<O> {
    /// What a crash leaves: one image for each thread's device, in each of which this number picks the pending words that
    /// are kept.
    pub fn crash(&self, alloc: Global, keep: u64) -> Result<Vec<Vec<Line>>, NoMemory>
        ensures exact { IfOk result (λ images. map (λ image. words_of image.items) images.items ≡ images_of keep self.now.threads) }
        ensures own { IfOk result (λ images. AreImages self.now.threads (map (λ image. words_of image.items) images.items)) }
    {
        self.consistent();
        images_of(alloc, self.workers(), keep)
    }

    /// The heads of the threads' logs, in the order of the threads.
    pub fn heads(&self, alloc: Global) -> Result<Vec<LogHead>, NoMemory>
        ensures { IfOk result (λ heads. heads.items ≡ heads_of self.now.threads) }
    {
        heads_of(alloc, self.workers())
    }

    /// The nodes that images hold as logs with this core's heads, one image for each thread. Images of this core's devices
    /// are refused only for want of memory, and what they hold is a prefix of the trace with every returned update and all
    /// that returned reads saw.
    pub fn recover_from(
        &self,
        alloc: Global,
        images: &[Vec<Line>],
    ) -> Result<Vec<Node>, ImagesFault>
        requires { length images.now ≡ length self.now.threads }
        ensures all { let merged = merge_images (heads_of self.now.threads) (map (λ image. words_of image.items) images.now) in
            MatchResult result (λ nodes. merged ≡ Ok nodes.items) (λ e. (e ≡ Recover OutOfMemory) ⊎ (merged ≡ Err e)) }
        ensures own { let lines = map (λ image. words_of image.items) images.now in
            AreImages self.now.threads lines →
            (all : RecoversAll O.means (heads_of self.now.threads) self.now lines)
            × MatchResult result (λ nodes. nodes.items ≡ all.recovers.nodes) (λ e. e ≡ Recover OutOfMemory) }
    {
        self.reached();
        match self.heads(alloc) {
            Ok(heads) => merge_images(alloc, images, &heads),
            Err(NoMemory) => Err(ImagesFault::Recover(RecoverFault::NoMemory)),
        }
    }
}
