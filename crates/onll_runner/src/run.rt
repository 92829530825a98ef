//! The command `run`: a script on each thread, over devices that are kept as logs.

ghost use Rattle.std.specs.Prelude.{◌≡◌, ◌≤◌, length, map, replicate, string_bytes, IfOk, All};
ghost use Rattle.onll_model.specs.Limits.{most_threads, most_updates};
ghost use Rattle.onll_model.specs.Calls.{updates_in};
ghost use Rattle.onll_open.specs.Names.{log_names};
ghost use Rattle.onll_text.specs.Kinds.{kind_by};
ghost use Rattle.onll_task.specs.Doing.{Fulfils};
ghost use Rattle.onll_task.specs.Standing.{StandsForRuns};
ghost use Rattle.onll_runner.specs.RunJob.{run_plan, calls_task, run_task};

use crate::over_logs::{Ground, run_over};
use onll_log::new_heads;
use onll_model::Call;
use onll_open::new_found;
use onll_outside::{Gate, Store};
use onll_run::Surroundings;
use onll_task::{Stop, script_files};
use onll_text::Texted;
use std::alloc::{AllocError, Global};
use std::sync::Wait;
use std::thread::Threads;

/// So many zeros.
fn zeros(alloc: Global, count: usize) -> Result<Vec<u64>, AllocError>
    ensures { IfOk result (λ zeros. zeros.items ≡ replicate count 0) }
{
    vec![in alloc; 0; count]
}

/// Runs scripts over new devices of the store.
fn run_calls<R: Threads + Wait + Sync, O: Texted + Drop + Send + Sync, S: Store, G: Gate + Sync>(
    around: &Surroundings<'_, R, G>,
    object: O,
    init: &[u8],
    logs: &str,
    scripts: Vec<Vec<Call<O>>>,
    store: &mut S,
) -> Result<Vec<u8>, Stop>
    requires few { (1 ≤ length scripts.items) × (length scripts.items ≤ most_threads) }
    requires updates { All (λ script. updates_in script.items ≤ most_updates) scripts.items }
    ensures { let k = kind_by O.means O.wording O.CODE in
        let plan = run_plan k init.now logs.now object (map (λ script. script.items) scripts.items) in
        (threads : _) → StandsForRuns k threads
        → Fulfils (log_names logs.now 0 (length scripts.items)) (S.seen store.old) (S.seen store.new) (calls_task k threads plan) result }
{
    let alloc = around.alloc;
    let heads = new_heads(alloc, O::CODE, init, scripts.len() as u64)?;
    let found = new_found(alloc, heads)?;
    let counts = zeros(alloc, scripts.len())?;
    let ground = Ground {
        logs,
        reopens: false,
        found,
        counts,
    };
    run_over(around, object, &ground, scripts, store)
}

/// Runs the scripts of files on threads, over new devices that the store keeps as logs of this name, on an object whose initial
/// state these bytes say.
pub fn run_on<R: Threads + Wait + Sync, O: Texted + Drop + Send + Sync, S: Store, G: Gate + Sync>(
    around: &Surroundings<'_, R, G>,
    object: O,
    init: &[u8],
    logs: &str,
    scripts: &[String],
    store: &mut S,
) -> Result<Vec<u8>, Stop>
    requires { (1 ≤ length scripts.now) × (length scripts.now ≤ most_threads) }
    ensures { let k = kind_by O.means O.wording O.CODE in
        (threads : _) → StandsForRuns k threads
        → Fulfils (log_names logs.now 0 (length scripts.now)) (S.seen store.old) (S.seen store.new)
        (run_task k threads init.now logs.now (map string_bytes scripts.now) object) result }
{
    match script_files::<O, S>(around.alloc, scripts, store) {
        Ok(calls) => run_calls(around, object, init, logs, calls, store),
        Err(stop) => Err(stop),
    }
}
