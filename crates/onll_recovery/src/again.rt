//! The command `again`: a core goes on from the images of an earlier generation, a schedule is played on it, and it crashes.

ghost use Rattle.std.specs.Prelude.{◌≡◌, ◌≤◌, length, All, map, string_bytes, Ok, Err};
ghost use Rattle.onll_model.specs.Limits.{most_threads, most_updates};
ghost use Rattle.onll_model.specs.Calls.{updates_in};
ghost use Rattle.onll_core.specs.Resume.{resumed};
ghost use Rattle.onll_text.specs.Kinds.{kind_by};
ghost use Rattle.onll_text.specs.Schedule.{IsPlayable};
ghost use Rattle.onll_task.specs.Doing.{Fulfils};
ghost use Rattle.onll_open.specs.Names.{log_names};
ghost use Rattle.onll_task.specs.Images.{images_in};
ghost use Rattle.onll_recovery.specs.AgainJob.{resumed_task, goes_on_task, planned_task, again_task};

use crate::crashed::crash;
use crate::playing::{Play, PlayTexts};
use onll_core::Core;
use onll_model::Call;
use onll_outside::Store;
use onll_start::ResumeFault;
use onll_task::{Stop, into_lines, not_resumed, read_images, schedule_file, script_files};
use onll_text::Texted;
use onll_words::Line;
use std::alloc::Global;

/// A core goes on from these images, plays the schedule and crashes; or it is said why none does.
fn resume_core<O: Texted + Drop, S: Store>(
    alloc: Global,
    object: O,
    texts: &PlayTexts<'_>,
    play: Play<O>,
    images: &[Vec<Line>],
    store: &mut S,
) -> Result<Vec<u8>, Stop>
    requires few { (1 ≤ length play.scripts.items) × (length play.scripts.items ≤ most_threads) }
    requires updates { All (λ script. updates_in script.items ≤ most_updates) play.scripts.items }
    requires images { length images.now ≡ length play.scripts.items }
    requires playable { IsPlayable (length play.scripts.items) play.plan }
    ensures { let calls = map (λ script. script.items) play.scripts.items in
        let core = resumed O.means O.CODE texts.now.init.now object (images_in images.now) calls in
        let task = resumed_task O.means O.wording texts.now.logs.now (map string_bytes texts.now.scripts.now) calls play.plan core in
        Fulfils (log_names texts.now.logs.now 0 (length play.scripts.items)) (S.seen store.old) (S.seen store.new) task result }
{
    let Play { scripts, plan } = play;
    match Core::resume(alloc, object, texts.init, images, scripts) {
        Ok(mut core) => {
            let base = core.base();
            core.play(plan.turns.as_slice());
            crash(alloc, &core, Some(base), plan.keep, texts.logs, store)
        }
        Err(ResumeFault::NoMemory) => Err(Stop::NoMemory),
        Err(fault) => Err(not_resumed(alloc, texts.scripts, fault)),
    }
}

/// Reads the images of the logs, and goes on from them.
fn read_on<O: Texted + Drop, S: Store>(
    alloc: Global,
    object: O,
    texts: &PlayTexts<'_>,
    play: Play<O>,
    store: &mut S,
) -> Result<Vec<u8>, Stop>
    requires few { (1 ≤ length play.scripts.items) × (length play.scripts.items ≤ most_threads) }
    requires updates { All (λ script. updates_in script.items ≤ most_updates) play.scripts.items }
    requires playable { IsPlayable (length play.scripts.items) play.plan }
    ensures { let calls = map (λ script. script.items) play.scripts.items in
        let k = kind_by O.means O.wording O.CODE in
        let names = map string_bytes texts.now.scripts.now in
        let task = goes_on_task k texts.now.init.now object texts.now.logs.now names calls play.plan in
        Fulfils (log_names texts.now.logs.now 0 (length play.scripts.items)) (S.seen store.old) (S.seen store.new) task result }
{
    match read_images(alloc, texts.logs, play.scripts.len() as u64, store) {
        Ok(kept) => {
            let images = into_lines(alloc, kept.images)?;
            resume_core(alloc, object, texts, play, &images, store)
        }
        Err(stop) => Err(stop),
    }
}

/// Reads the schedule of these scripts, then the images, and goes on from them.
fn play_again<O: Texted + Drop, S: Store>(
    alloc: Global,
    object: O,
    texts: &PlayTexts<'_>,
    scripts: Vec<Vec<Call<O>>>,
    store: &mut S,
) -> Result<Vec<u8>, Stop>
    requires few { (1 ≤ length scripts.items) × (length scripts.items ≤ most_threads) }
    requires updates { All (λ script. updates_in script.items ≤ most_updates) scripts.items }
    ensures { let calls = map (λ script. script.items) scripts.items in
        let k = kind_by O.means O.wording O.CODE in
        let names = map string_bytes texts.now.scripts.now in
        let task = planned_task k texts.now.init.now object texts.now.schedule.now texts.now.logs.now names calls in
        Fulfils (log_names texts.now.logs.now 0 (length scripts.items)) (S.seen store.old) (S.seen store.new) task result }
{
    match schedule_file(alloc, texts.schedule, scripts.len() as u64, store) {
        Ok(plan) => read_on(alloc, object, texts, Play { scripts, plan }, store),
        Err(stop) => Err(stop),
    }
}

/// Goes on from the images of the logs, by the schedule of a file, over an object, whose initial state the texts say.
pub fn again_on<O: Texted + Drop, S: Store>(
    alloc: Global,
    object: O,
    texts: &PlayTexts<'_>,
    store: &mut S,
) -> Result<Vec<u8>, Stop>
    requires { (1 ≤ length texts.now.scripts.now) × (length texts.now.scripts.now ≤ most_threads) }
    ensures { let names = map string_bytes texts.now.scripts.now in
        let k = kind_by O.means O.wording O.CODE in
        let task = again_task k texts.now.init.now texts.now.schedule.now texts.now.logs.now names object in
        Fulfils (log_names texts.now.logs.now 0 (length texts.now.scripts.now)) (S.seen store.old) (S.seen store.new) task result }
{
    match script_files::<O, S>(alloc, texts.scripts, store) {
        Ok(calls) => play_again(alloc, object, texts, calls, store),
        Err(stop) => Err(stop),
    }
}
