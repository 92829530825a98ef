//! The command `resume`: scripts go on, on threads, from the logs of an earlier generation.

ghost use Rattle.std.specs.Prelude.{◌≤◌, length, map, string_bytes, All};
ghost use Rattle.onll_model.specs.Limits.{most_threads, most_updates};
ghost use Rattle.onll_model.specs.Calls.{updates_in};
ghost use Rattle.onll_start.specs.Heads.{created_heads};
ghost use Rattle.onll_start.specs.Start.{base_in};
ghost use Rattle.onll_open.specs.Names.{log_names};
ghost use Rattle.onll_text.specs.Kinds.{kind_by};
ghost use Rattle.onll_task.specs.Doing.{Fulfils};
ghost use Rattle.onll_task.specs.Standing.{StandsForRuns};
ghost use Rattle.onll_runner.specs.ResumeJob.{AreKeptImages, based_task, reopened_task, resume_task};

use crate::over_logs::{Ground, run_over};
use onll_log::new_heads;
use onll_model::Call;
use onll_open::FoundLogs;
use onll_outside::{Gate, Store};
use onll_run::Surroundings;
use onll_start::{ResumeFault, find_start};
use onll_task::{KeptImages, Stop, not_resumed, read_images, script_files};
use onll_text::Texted;
use std::sync::Wait;
use std::thread::Threads;

/// What is gone on from.
#[derive(Drop)]
struct Resumed<'a> {
    /// The bytes that say the object's initial state.
    init: &'a [u8],
    /// The name of the logs' files.
    logs: &'a str,
    /// The names of the scripts' files.
    names: &'a [String],
}

/// Scripts go on from these images; or it is said why nothing does.
fn based_on<R: Threads + Wait + Sync, O: Texted + Drop + Send + Sync, S: Store, G: Gate + Sync>(
    around: &Surroundings<'_, R, G>,
    object: O,
    from: &Resumed<'_>,
    scripts: Vec<Vec<Call<O>>>,
    kept: KeptImages,
    store: &mut S,
) -> Result<Vec<u8>, Stop>
    requires few { (1 ≤ length scripts.items) × (length scripts.items ≤ most_threads) }
    requires updates { All (λ script. updates_in script.items ≤ most_updates) scripts.items }
    requires images { AreKeptImages from.now.logs.now (length scripts.items) kept.images.items kept.counts.items (S.seen store.old) }
    ensures { let k = kind_by O.means O.wording O.CODE in
        let calls = map (λ script. script.items) scripts.items in
        let base = base_in O.means (created_heads O.CODE from.now.init.now calls) calls kept.images.items in
        (threads : _) → StandsForRuns k threads
        → Fulfils (log_names from.now.logs.now 0 (length scripts.items)) (S.seen store.old) (S.seen store.new)
        (based_task k threads from.now.init.now from.now.logs.now (map string_bytes from.now.names.now) object calls base) result }
{
    let alloc = around.alloc;
    let KeptImages { images, counts } = kept;
    let heads = new_heads(alloc, O::CODE, from.init, scripts.len() as u64)?;
    let mut state = object.copy(alloc)?;
    match find_start(alloc, &mut state, &heads, &images, &scripts) {
        Ok(recovery) => {
            let ground = Ground {
                logs: from.logs,
                reopens: true,
                found: FoundLogs {
                    heads,
                    images,
                    recovery,
                },
                counts,
            };
            run_over(around, object, &ground, scripts, store)
        }
        Err(ResumeFault::NoMemory) => Err(Stop::NoMemory),
        Err(fault) => Err(not_resumed(alloc, from.names, fault)),
    }
}

/// Reads the images of the logs, and scripts go on from them.
fn read_on<R: Threads + Wait + Sync, O: Texted + Drop + Send + Sync, S: Store, G: Gate + Sync>(
    around: &Surroundings<'_, R, G>,
    object: O,
    from: &Resumed<'_>,
    scripts: Vec<Vec<Call<O>>>,
    store: &mut S,
) -> Result<Vec<u8>, Stop>
    requires few { (1 ≤ length scripts.items) × (length scripts.items ≤ most_threads) }
    requires updates { All (λ script. updates_in script.items ≤ most_updates) scripts.items }
    ensures { let k = kind_by O.means O.wording O.CODE in
        let calls = map (λ script. script.items) scripts.items in
        (threads : _) → StandsForRuns k threads
        → Fulfils (log_names from.now.logs.now 0 (length scripts.items)) (S.seen store.old) (S.seen store.new)
        (reopened_task k threads from.now.init.now from.now.logs.now (map string_bytes from.now.names.now) object calls) result }
{
    match read_images(around.alloc, from.logs, scripts.len() as u64, store) {
        Ok(kept) => based_on(around, object, from, scripts, kept, store),
        Err(stop) => Err(stop),
    }
}

/// Runs the scripts of files on threads, over the logs of this name of an earlier generation, which the store reopens and keeps, on an
/// object whose initial state these bytes say.
pub fn resume_on<
    R: Threads + Wait + Sync,
    O: Texted + Drop + Send + Sync,
    S: Store,
    G: Gate + Sync,
>(
    around: &Surroundings<'_, R, G>,
    object: O,
    init: &[u8],
    logs: &str,
    scripts: &[String],
    store: &mut S,
) -> Result<Vec<u8>, Stop>
    requires { (1 ≤ length scripts.now) × (length scripts.now ≤ most_threads) }
    ensures { let k = kind_by O.means O.wording O.CODE in
        (threads : _) → StandsForRuns k threads
        → Fulfils (log_names logs.now 0 (length scripts.now)) (S.seen store.old) (S.seen store.new)
        (resume_task k threads init.now logs.now (map string_bytes scripts.now) object) result }
{
    let from = Resumed {
        init,
        logs,
        names: scripts,
    };
    match script_files::<O, S>(around.alloc, scripts, store) {
        Ok(calls) => read_on(around, object, &from, calls, store),
        Err(stop) => Err(stop),
    }
}
