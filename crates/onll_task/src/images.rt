//! The images of the logs of one run: a file for each thread.

ghost use Rattle.std.specs.Prelude.{◌≡◌, ◌≤◌, ◌*◌, [], length, All, IfOk, IfErr, OnOk};
ghost use Rattle.onll_outside.specs.Views.{SameOthers, with_zeros, image_bytes};
ghost use Rattle.onll_pmem.specs.Pmem.{words_of};
ghost use Rattle.std.specs.Cow.{cow_slice_items};
ghost use Rattle.onll_log.specs.ImageFile.{longest_image};
ghost use Rattle.onll_open.specs.Names.{log_name};
ghost use Rattle.onll_task.specs.Images.{Decides, KeepOf, AllBeginWith, images_in, images_stage};
ghost use Rattle.onll_task.specs.Writing.{HasWritten, CannotWrite, WriteStops};
ghost use Rattle.onll_task.specs.Stop.{StopSays};
ghost use Rattle.onll_task.specs.Doing.{BeginsBy};

use crate::answer::Stop;
use crate::texts::{KeptImage, kept_image, write_lines};
use onll_log::TestedImage;
use onll_open::log_name;
use onll_outside::Store;
use onll_words::Line;
use std::alloc::{AllocError, Global};
use std::borrow::CowSlice;

/// What is kept of the images of a run's logs, in their order.
#[derive(Drop)]
pub struct KeptImages {
    /// Of each the lines that decide what it holds as a log.
    pub images: Vec<TestedImage<'static>>,
    /// How many lines each has.
    pub counts: Vec<u64>,
}

/// What is kept of the images of the logs of so many threads, in their order. Each file begins with the lines that are kept of it, and no
/// more of an image stays when the next is read. It stops at the first file that can't be read.
pub fn read_images<S: Store>(
    alloc: Global,
    logs: &str,
    threads: u64,
    store: &mut S,
) -> Result<KeptImages, Stop>
    ensures begins { let stage = images_stage logs.now threads in
        BeginsBy [] (S.seen store.old) (S.seen store.new) stage (λ kept images. KeepOf kept.images.items kept.counts.items images) result }
    ensures fronts { IfOk result (λ kept. AllBeginWith logs.now 0 kept.images.items (S.seen store.new)) }
    ensures few { IfOk result (λ kept. All (λ count. 64 * count ≤ longest_image) kept.counts.items) }
    ensures count { IfOk result (λ kept. length kept.images.items ≡ threads) }
    ensures many { IfOk result (λ kept. length kept.counts.items ≡ threads) }
{
    let mut images = Vec::new(alloc);
    let mut counts = Vec::new(alloc);
    for thread in 0..threads {
        let name = log_name(alloc, logs, thread)?;
        match kept_image(alloc, &name, store) {
            Ok(KeptImage { image, count }) => {
                images.push(image)?;
                counts.push(count)?;
            }
            Err(stop) => return Err(stop),
        }
    }
    Ok(KeptImages { images, counts })
}

/// The lines of images.
pub fn into_lines(alloc: Global, images: Vec<TestedImage<'_>>) -> Result<Vec<Vec<Line>>, AllocError>
    ensures { IfOk result (λ lines. images_in lines.items ≡ images.entry.items) }
{
    let mut lines = Vec::new(alloc);
    for image in images {
        lines.push(image.into_lines(alloc)?)?;
    }
    Ok(lines)
}

/// Lines that have, before as many zeros as make up an image of so many lines, one at least where the image has one.
fn with_one<'a>(
    alloc: Global,
    front: CowSlice<'a, Line, Global>,
    count: u64,
) -> Result<CowSlice<'a, Line, Global>, AllocError>
    requires { length (cow_slice_items front) ≤ count }
    ensures within { IfOk result (λ lines. length (cow_slice_items lines) ≤ count) }
    ensures some { IfOk result (λ lines. words_of (cow_slice_items lines) ≡ [] → count ≡ 0) }
    ensures same { IfOk result (λ lines. with_zeros (words_of (cow_slice_items lines)) count
        ≡ with_zeros (words_of (cow_slice_items front.entry)) count) }
{
    if count == 0 || front.len() > 0 {
        return Ok(front);
    }
    let mut lines = Vec::new(alloc);
    lines.push(Line { w: [0; 8] })?;
    Ok(CowSlice::Owned(lines))
}

/// Writes these lines, and then lines of zeros, `count` in all, as the image of a thread's log, and gives the lines that decide what the
/// image holds. It stops where the file can't be written, and names it.
pub fn write_image<'a, S: Store>(
    alloc: Global,
    logs: &str,
    thread: u64,
    front: CowSlice<'a, Line, Global>,
    count: u64,
    store: &mut S,
) -> Result<TestedImage<'a>, Stop>
    requires { length (cow_slice_items front) ≤ count }
    ensures written { OnOk result (HasWritten (S.seen store.old) (S.seen store.new) (log_name logs.now thread)
        (image_bytes (with_zeros (words_of (cow_slice_items front.entry)) count))) }
    ensures stands { IfOk result (λ lines. Decides lines (with_zeros (words_of (cow_slice_items front.entry)) count)) }
    ensures stop { IfErr result (λ stop. StopSays stop
        (CannotWrite (S.seen store.old) (S.seen store.new) (log_name logs.now thread))) }
    ensures cut { IfErr result (λ stop. WriteStops (S.seen store.old) (S.seen store.new) (log_name logs.now thread)) }
    ensures others { SameOthers (log_name logs.now thread) (S.seen store.old) (S.seen store.new) }
{
    let name = log_name(alloc, logs, thread)?;
    let lines = with_one(alloc, front, count)?;
    match write_lines(alloc, &name, lines.as_slice(), count, store) {
        Ok(()) => Ok(TestedImage::of_lines(lines)),
        Err(stop) => Err(stop),
    }
}
