//! The command `replay`: a schedule of scripts played on the step core, its crash, and what is recovered.

ghost use Rattle.std.specs.Prelude.{IfOk, ◌≡◌, ◌≤◌, length, IsSome, All, map, string_bytes};
ghost use Rattle.onll_model.specs.Limits.{most_threads, most_updates};
ghost use Rattle.std.specs.List.{AllByRecursion};
ghost use Rattle.onll_model.specs.Calls.{updates_in};
ghost use Rattle.onll_text.specs.Schedule.{IsPlayable};
ghost use Rattle.onll_open.specs.Names.{log_names};
ghost use Rattle.onll_text.specs.Kinds.{kind_by};
ghost use Rattle.onll_recovery.specs.ReplayJob.{played, schedule_task, scripts_task};
ghost use Rattle.onll_task.specs.Doing.{Fulfils};

use crate::crashed::crash;
use crate::playing::PlayTexts;
use onll_core::Core;
use onll_model::Call;
use onll_outside::Store;
use onll_task::{Stop, schedule_file, script_files};
use onll_text::{Schedule, Texted};
use onll_words::NoMemory;
use std::alloc::Global;

/// The core that is made of an object and scripts, after the turns of a schedule.
fn played<O: Texted + Drop>(
    alloc: Global,
    object: O,
    init: &[u8],
    scripts: Vec<Vec<Call<O>>>,
    schedule: &Schedule,
) -> Result<Core<O>, NoMemory>
    requires few { length scripts.items ≤ most_threads }
    requires updates { All (λ script. updates_in script.items ≤ most_updates) scripts.items }
    requires playable { IsPlayable (length scripts.items) schedule.now }
    ensures core { IfOk result (λ core. core
        ≡ played O.means O.CODE init.now object (map (λ script. script.items) scripts.items) schedule.now.turns) }
    ensures threads { IfOk result (λ core. length core.threads ≡ length scripts.items) }
    ensures operations { IfOk result (λ core. AllByRecursion (λ n. IsSome (O.means.op_at n.row)) core.trace) }
{
    let mut core = Core::create(alloc, object, init, scripts)?;
    core.play(schedule.turns.as_slice());
    Ok(core)
}

/// Reads the schedule of these scripts, plays it on the object, and crashes.
fn replay_scripts<O: Texted + Drop, S: Store>(
    alloc: Global,
    object: O,
    texts: &PlayTexts<'_>,
    scripts: Vec<Vec<Call<O>>>,
    store: &mut S,
) -> Result<Vec<u8>, Stop>
    requires few { (1 ≤ length scripts.items) × (length scripts.items ≤ most_threads) }
    requires updates { All (λ script. updates_in script.items ≤ most_updates) scripts.items }
    ensures { let calls = map (λ script. script.items) scripts.items in
        let k = kind_by O.means O.wording O.CODE in
        let task = schedule_task k texts.now.init.now object texts.now.schedule.now texts.now.logs.now calls in
        Fulfils (log_names texts.now.logs.now 0 (length scripts.items)) (S.seen store.old) (S.seen store.new) task result }
{
    match schedule_file(alloc, texts.schedule, scripts.len() as u64, store) {
        Ok(plan) => {
            let core = played(alloc, object, texts.init, scripts, &plan)?;
            crash(alloc, &core, None, plan.keep, texts.logs, store)
        }
        Err(stop) => Err(stop),
    }
}

/// Replays the schedule of a file on an object, whose initial state the texts say.
pub fn replay_on<O: Texted + Drop, S: Store>(
    alloc: Global,
    object: O,
    texts: &PlayTexts<'_>,
    store: &mut S,
) -> Result<Vec<u8>, Stop>
    requires { (1 ≤ length texts.now.scripts.now) × (length texts.now.scripts.now ≤ most_threads) }
    ensures { let names = map string_bytes texts.now.scripts.now in
        let k = kind_by O.means O.wording O.CODE in
        let task = scripts_task k texts.now.init.now texts.now.schedule.now texts.now.logs.now names object in
        Fulfils (log_names texts.now.logs.now 0 (length texts.now.scripts.now)) (S.seen store.old) (S.seen store.new) task result }
{
    match script_files::<O, S>(alloc, texts.scripts, store) {
        Ok(calls) => replay_scripts(alloc, object, texts, calls, store),
        Err(stop) => Err(stop),
    }
}
