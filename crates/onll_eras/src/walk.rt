//! What leads to the newest era: the initial state, both areas, the object of the era's text and its logs are read, in this order.

ghost use Rattle.std.specs.Prelude.{[], ◌≡◌, ◌≤◌};
ghost use Rattle.onll_model.specs.Limits.{most_threads};
ghost use Rattle.onll_model.specs.Recovered.{operations_front};
ghost use Rattle.onll_merge.specs.Recovered.{recovered_in};
ghost use Rattle.onll_text.specs.Init.{init_of};
ghost use Rattle.onll_text.specs.Kinds.{kind_by, on_object};
ghost use Rattle.onll_task.specs.Doing.{BeginsBy, Fulfils};
ghost use Rattle.onll_checkpoint.specs.Grammar.{checkpoint_in};
ghost use Rattle.onll_areas.specs.Newest.{area_lines, newest};
ghost use Rattle.onll_eras.specs.EraCall.{era_found, call_next, call_work, recovered_by, areas_task, found_task, DoesFound};
ghost use Rattle.onll_eras.specs.EraJob.{area_stage, areas_stage, era_task, on_started, restore_work, checkpoint_work};
ghost use Rattle.onll_eras.specs.Names.{area_name, names_of};

use crate::checkpointing::checkpointed;
use crate::era::{Asked, EraCall, NewestEra};
use crate::names::EraFiles;
use crate::restoring::restored;
use onll_areas::{newest, read_area};
use onll_checkpoint::Checkpoint;
use onll_merge::Recovery;
use onll_open::log_name;
use onll_outside::{OutsideFault, Store};
use onll_task::{InitText, Stop, init_file, recover_files};
use onll_text::{AnyObject, TextFault, Texted, read_init, with_object};
use std::alloc::Global;

/// What is asked of what the era's logs gave, with the object after it.
fn over_recovery<O: Texted, S: Store>(
    alloc: Global,
    object: &O,
    recovery: &Recovery,
    era: NewestEra<'_>,
    call: EraCall<'_>,
    store: &mut S,
) -> Result<Vec<u8>, Stop>
    requires rows { operations_front O.means recovery.now.nodes.items ≡ recovery.now.nodes.items }
    requires few { call.threads ≤ most_threads }
    ensures { let task = recovered_by call.entry era.entry (kind_by O.means O.wording O.CODE) object.now (recovered_in recovery.now) in
        Fulfils (call_work call.entry).writes (S.seen store.old) (S.seen store.new) task result }
{
    match call.asked {
        Asked::Restore => restored(alloc, object, recovery, era),
        Asked::Checkpoint => {
            checkpointed(alloc, object, recovery.nodes.len() as u64, era, call, store)
        }
    }
}

/// What is asked of the era's logs, over its object.
fn over_one<O: Texted + Drop, S: Store>(
    alloc: Global,
    mut object: O,
    era: NewestEra<'_>,
    call: EraCall<'_>,
    store: &mut S,
) -> Result<Vec<u8>, Stop>
    requires { (1 ≤ call.threads) × (call.threads ≤ most_threads) }
    ensures { let k = kind_by O.means O.wording O.CODE in
        DoesFound call.entry era.entry k object (S.seen store.old) (S.seen store.new) result }
{
    match recover_files(alloc, &mut object, era.text, era.logs, call.threads, store) {
        Ok(recovery) => over_recovery(alloc, &object, &recovery, era, call, store),
        Err(stop) => Err(stop),
    }
}

/// The same over an object of any kind.
fn over_any<S: Store>(
    alloc: Global,
    object: AnyObject,
    era: NewestEra<'_>,
    call: EraCall<'_>,
    store: &mut S,
) -> Result<Vec<u8>, Stop>
    requires { (1 ≤ call.threads) × (call.threads ≤ most_threads) }
    ensures { on_object (λ k s. DoesFound call.entry era.entry k s (S.seen store.old) (S.seen store.new) result) object }
{
    with_object!(object, one => over_one(alloc, one, era, call, store))
}

/// What is asked of the era of a checkpoint, whose object its text says; a text that is refused is said by its area's name.
fn over_text<S: Store>(
    alloc: Global,
    era: NewestEra<'_>,
    call: EraCall<'_>,
    store: &mut S,
) -> Result<Vec<u8>, Stop>
    requires { (1 ≤ call.threads) × (call.threads ≤ most_threads) }
    ensures { let task = on_started (era_found era.entry) (init_of era.entry.text.now) (found_task call.entry era.entry) in
        Fulfils (call_work call.entry).writes (S.seen store.old) (S.seen store.new) task result }
{
    match read_init(alloc, era.text) {
        Ok(object) => over_any(alloc, object, era, call, store),
        Err(TextFault::Refused { line, reason }) => {
            Err(Stop::refused(alloc, era.source, line, reason))
        }
        Err(TextFault::NoMemory) => Err(Stop::NoMemory),
    }
}

/// What is asked of the newest era, which is that of this checkpoint, or else era 0.
fn over_newest<S: Store>(
    alloc: Global,
    first: InitText,
    newest: Option<Checkpoint>,
    call: EraCall<'_>,
    store: &mut S,
) -> Result<Vec<u8>, Stop>
    requires { (1 ≤ call.threads) × (call.threads ≤ most_threads) }
    ensures { let task = era_task (names_of call.entry.files) first.text.items call.entry.threads first.object newest
        (call_next call.entry) in
        Fulfils (call_work call.entry).writes (S.seen store.old) (S.seen store.new) task result }
{
    let InitText { text, object } = first;
    match &newest {
        Some(checkpoint) => {
            let area = log_name(alloc, call.files.ckpt, checkpoint.number() % 2)?;
            let era = NewestEra {
                newest: &newest,
                text: checkpoint.text(),
                source: &area,
                logs: &area,
            };
            over_text(alloc, era, call, store)
        }
        None => {
            let era = NewestEra {
                newest: &newest,
                text: &text,
                source: call.files.init,
                logs: call.files.logs,
            };
            over_any(alloc, object, era, call, store)
        }
    }
}

/// The checkpoint that an area's file holds, if it holds one. It stops only where the file can't be read, and names it.
fn area_of<S: Store>(
    alloc: Global,
    ckpt: &str,
    area: u64,
    store: &mut S,
) -> Result<Option<Checkpoint>, Stop>
    ensures { BeginsBy [] (S.seen store.old) (S.seen store.new) (area_stage (area_name ckpt.now area))
        (λ found bytes. found ≡ checkpoint_in (area_lines bytes)) result }
{
    let name = log_name(alloc, ckpt, area)?;
    match read_area(alloc, &name, store) {
        Ok(found) => Ok(found),
        Err(OutsideFault::Failed) => Err(Stop::unread(alloc, &name)),
        Err(OutsideFault::NoMemory) => Err(Stop::NoMemory),
    }
}

/// The newest checkpoint of both areas, if there is one. It stops only where one of their files can't be read.
fn newest_area<S: Store>(
    alloc: Global,
    ckpt: &str,
    store: &mut S,
) -> Result<Option<Checkpoint>, Stop>
    ensures { BeginsBy [] (S.seen store.old) (S.seen store.new) (areas_stage ckpt.now)
        (λ found held. found ≡ newest held.even held.odd) result }
{
    let even = match area_of(alloc, ckpt, 0, store) {
        Ok(found) => found,
        Err(stop) => return Err(stop),
    };
    match area_of(alloc, ckpt, 1, store) {
        Ok(odd) => Ok(newest(even, odd)),
        Err(stop) => Err(stop),
    }
}

/// What is asked, once the initial state is read.
fn over_init<S: Store>(
    alloc: Global,
    first: InitText,
    call: EraCall<'_>,
    store: &mut S,
) -> Result<Vec<u8>, Stop>
    requires { (1 ≤ call.threads) × (call.threads ≤ most_threads) }
    ensures { let task = areas_task call.entry first.text.items first.object in
        Fulfils (call_work call.entry).writes (S.seen store.old) (S.seen store.new) task result }
{
    match newest_area(alloc, call.files.ckpt, store) {
        Ok(newest) => over_newest(alloc, first, newest, call, store),
        Err(stop) => Err(stop),
    }
}

/// Does what is asked of the newest era.
fn ask<S: Store>(alloc: Global, call: EraCall<'_>, store: &mut S) -> Result<Vec<u8>, Stop>
    requires { (1 ≤ call.threads) × (call.threads ≤ most_threads) }
    ensures { let work = call_work call.entry in
        Fulfils work.writes (S.seen store.old) (S.seen store.new) work.task result }
{
    match init_file(alloc, call.files.init, store) {
        Ok(first) => over_init(alloc, first, call, store),
        Err(stop) => Err(stop),
    }
}

/// Says what the newest era gives, by the logs of so many threads.
pub fn restore<S: Store>(
    alloc: Global,
    files: EraFiles<'_>,
    threads: u64,
    store: &mut S,
) -> Result<Vec<u8>, Stop>
    requires { (1 ≤ threads) × (threads ≤ most_threads) }
    ensures { let work = restore_work (names_of files.entry) threads in
        Fulfils work.writes (S.seen store.old) (S.seen store.new) work.task result }
{
    let call = EraCall {
        asked: Asked::Restore,
        files,
        threads,
    };
    ask(alloc, call, store)
}

/// Begins the next era with what the newest one gives, and says so.
pub fn checkpoint<S: Store>(
    alloc: Global,
    files: EraFiles<'_>,
    threads: u64,
    store: &mut S,
) -> Result<Vec<u8>, Stop>
    requires { (1 ≤ threads) × (threads ≤ most_threads) }
    ensures { let work = checkpoint_work (names_of files.entry) threads in
        Fulfils work.writes (S.seen store.old) (S.seen store.new) work.task result }
{
    let call = EraCall {
        asked: Asked::Checkpoint,
        files,
        threads,
    };
    ask(alloc, call, store)
}
