//! The next era of an object: its state is saved, and its logs begin anew.

ghost use Rattle.std.specs.Prelude.{◌≡◌, false, ◌+◌, ◌⊎◌, ◌%◌, ◌≤◌, ◌<◌, ◌^◌, length, IfOk, IfErr, OnOk};
ghost use Rattle.onll_model.specs.Limits.{most_threads};
ghost use Rattle.onll_outside.specs.Views.{SameDevices, SameFiles, SameOthers};
ghost use Rattle.onll_live.specs.Eras.{IsInEra, area_name, era_logs};
ghost use Rattle.onll_areas.specs.Keeping.{OthersStay};
ghost use Rattle.onll_open.specs.Files.{FileIsMade, SameBut, SameCounts};
ghost use Rattle.onll_open.specs.Names.{log_names};
ghost use Rattle.onll_live.specs.Refusals.{of_clear, of_keep};
ghost use Rattle.onll_live.specs.Beginning.{AreCleared, BeginFaults, BeginsEra, ClearFaults, ClearFileFaults, EndsBy, EntersEra};
ghost use Rattle.onll_live.specs.Beginning.{EraStands, IsNextEra, MissesEra, NoneSaved, OthersOfEra, SaveFaults, SavesEra, StaysInEra, StaysOrBegins, ToldBy};
ghost use Rattle.onll_live.specs.Causes.{NextCause, NextFaults, NextFences, NextLocks, changed_files, files_of_era};
ghost use Rattle.onll_live.specs.LiveCauses.{CannotFollow};

use crate::era::Era;
use crate::fault::NextFault;
use crate::names::{area_name, era_logs};
use crate::saved::Saved;
use onll_areas::{KeepFault, area_laws, keep_checkpoint};
use onll_checkpoint::Checkpoint;
use onll_merge::Recovery;
use onll_model::MOST_THREADS;
use onll_open::{FilesFault, RecoveredObject, find, first_empty, log_name, recover, rooms_left};
use onll_outside::{Directory, OutsideFault, Store};
use onll_words::NoMemory;
use std::alloc::Global;

/// Empties a file, where it is there. One that is empty is written once more: that it is so may not be durable.
fn clear_file<S: Directory>(alloc: Global, store: &mut S, file: &str) -> Result<(), OutsideFault>
    ensures cleared { OnOk result (FileIsMade (S.seen store.new) file.now false) }
    ensures faults { ClearFileFaults file.now (S.seen store.old) (S.seen store.new) result }
    ensures devices { SameDevices (S.seen store.old) (S.seen store.new) }
    ensures others { SameOthers file.now (S.seen store.old) (S.seen store.new) }
{
    let Some(_) = store.size(alloc, file)? else {
        return Ok(());
    };
    store.write(alloc, file, &[])
}

/// Why the next era wasn't begun where the file of this thread's log could not be emptied so.
fn not_cleared(thread: u64, fault: OutsideFault) -> NextFault
    ensures { result ≡ of_clear thread fault }
{
    match fault {
        OutsideFault::Failed => NextFault::NotCleared { thread },
        OutsideFault::NoMemory => NextFault::NoMemory,
    }
}

/// Empties the files of an era's logs, of however many threads they were, so that none is begun. It makes no file.
fn clear_logs<S: Directory>(alloc: Global, store: &mut S, logs: &str) -> Result<(), NextFault>
    ensures cleared { OnOk result (AreCleared (S.seen store.new) logs.now) }
    ensures faults { ClearFaults logs.now (S.seen store.old) (S.seen store.new) result }
    ensures devices { SameDevices (S.seen store.old) (S.seen store.new) }
    ensures others { SameBut (log_names logs.now 0 most_threads) (S.seen store.old) (S.seen store.new) }
{
    for thread in 0..MOST_THREADS {
        let file = log_name(alloc, logs, thread)?;
        if let Err(fault) = clear_file(alloc, store, &file) {
            return Err(not_cleared(thread, fault));
        }
    }
    Ok(())
}

/// Why the next era wasn't begun where its area could not be kept so.
fn not_kept(area: u64, fault: KeepFault) -> NextFault
    ensures { result ≡ of_keep area fault }
{
    match fault {
        KeepFault::FenceFailed => NextFault::FenceFailed { area },
        KeepFault::Outside(OutsideFault::Failed) => NextFault::NotKept { area },
        KeepFault::Outside(OutsideFault::NoMemory) => NextFault::NoMemory,
    }
}

/// Saves the state of an era in its area.
fn save_era<O: Saved + Drop, S: Store>(
    alloc: Global,
    store: &mut S,
    name: &str,
    era: &Era<O>,
) -> Result<(), NextFault>
    requires { 1 ≤ era.now.number }
    ensures saved { SavesEra O.read_of (S.seen store.old) (S.seen store.new) name.now era.now result }
    ensures unsaved { IfErr result (λ f. EraStands f → NoneSaved (S.seen store.old) (S.seen store.new) (era_logs name.now era.now.number)) }
    ensures faults { SaveFaults name.now (era.now.number % 2) (S.seen store.old) (S.seen store.new) result }
    ensures fences { NextFences (S.seen store.old).device_faults (S.seen store.new).device_faults result }
    ensures others { OthersStay (era_logs name.now era.now.number) (S.seen store.old) (S.seen store.new) }
    ensures alone { SameOthers (era_logs name.now era.now.number) (S.seen store.old) (S.seen store.new) }
{
    let text = era.state.save(alloc)?;
    let checkpoint = Checkpoint::of(era.number, era.place, text);
    let area = era.number % 2;
    let file = area_name(alloc, name, area)?;
    area_laws();
    match keep_checkpoint(alloc, &file, &checkpoint, store) {
        Ok(()) => Ok(()),
        Err(fault) => Err(not_kept(area, fault)),
    }
}

/// How many updates were recovered.
fn updates_in(recovery: &Recovery) -> u64
    ensures { result ≡ length recovery.now.nodes.items }
{
    recovery.nodes.len() as u64
}

/// The era after this one, with the state that so many updates have left.
fn next_era<O: Drop>(number: u64, place: u64, updates: u64, state: O) -> Result<Era<O>, NextFault>
    ensures next { IfOk result (λ e. e ≡ record { number = number + 1; place = place + updates; state = state }) }
    ensures fits { OnOk result ((number + 1 < 2 ^ 64) × (place + updates < 2 ^ 64)) }
    ensures refused { IfErr result (λ fault. (fault ≡ NextFault.AtItsEnd) × ((2 ^ 64 ≤ number + 1) ⊎ (2 ^ 64 ≤ place + updates))) }
{
    let (Some(number), Some(place)) = (number.checked_add(1), place.checked_add(updates)) else {
        return Err(NextFault::AtItsEnd);
    };
    Ok(Era {
        number,
        place,
        state,
    })
}

/// Empties the files of an era's logs, and then saves its state in its area: from there on it has begun.
fn begin<O: Saved + Drop, S: Directory>(
    alloc: Global,
    store: &mut S,
    name: &str,
    era: &Era<O>,
) -> Result<(), NextFault>
    requires { 1 ≤ era.now.number }
    ensures begun { BeginsEra O.read_of (S.seen store.old) (S.seen store.new) name.now era.now result }
    ensures unsaved { IfErr result (λ f. EraStands f → NoneSaved (S.seen store.old) (S.seen store.new) (era_logs name.now era.now.number)) }
    ensures faults { BeginFaults name.now era.now.number (S.seen store.old) (S.seen store.new) result }
    ensures fences { NextFences (S.seen store.old).device_faults (S.seen store.new).device_faults result }
    ensures others { OthersOfEra (era_logs name.now era.now.number) (S.seen store.old) (S.seen store.new) }
    ensures files { SameBut (files_of_era name.now era.now.number) (S.seen store.old) (S.seen store.new) }
{
    let logs = era_logs(alloc, name, era.number)?;
    if let Err(fault) = clear_logs(alloc, store, &logs) {
        return Err(fault);
    }
    match save_era(alloc, store, name, era) {
        Ok(()) => Ok(()),
        Err(fault) => Err(fault),
    }
}

/// Begins the next era of an object, whose logs are closed and are of so many threads: it empties the files of the next logs, and saves
/// the state that the logs of this one give. Until the state is saved the era is as it was. The next era may be of any number of threads.
pub fn begin_next<O: Saved + Drop, S: Directory>(
    alloc: Global,
    store: &mut S,
    name: &str,
    era: Era<O>,
    threads: u64,
) -> Result<Era<O>, NextFault>
    requires few { threads ≤ most_threads }
    ensures begun { IfOk result (λ next. (first : O) → IsInEra O.read_of first (S.seen store.old) name.now era
        → IsNextEra O.means O.CODE O.description O.read_of first name.now threads (S.seen store.old) (S.seen store.new) era next) }
    ensures refused { IfErr result (λ fault. (first : O) → IsInEra O.read_of first (S.seen store.old) name.now era
        → StaysOrBegins O.means O.CODE O.description O.read_of first name.now threads (S.seen store.old) (S.seen store.new) era) }
    ensures stands { IfErr result (λ fault. EraStands fault → (first : O) → IsInEra O.read_of first (S.seen store.old) name.now era
        → StaysInEra O.read_of first name.now (S.seen store.old) (S.seen store.new) era) }
    ensures cause { NextCause O.means O.CODE O.description name.now threads (S.seen store.old) era result }
    ensures faults { NextFaults name.now era.number threads (S.seen store.old) (S.seen store.new) result }
    ensures fences { NextFences (S.seen store.old).device_faults (S.seen store.new).device_faults result }
    ensures locks { NextLocks (S.seen store.old) (era_logs name.now era.number) (S.locked store.old) (S.locked store.new) result }
    ensures others { SameBut (changed_files name.now era.number result) (S.seen store.old) (S.seen store.new) }
{
    let Era {
        number,
        place,
        state,
    } = era;
    let logs = era_logs(alloc, name, number)?;
    let RecoveredObject { object, recovery } = recover(alloc, store, &logs, threads, state)?;
    let next = next_era(number, place, updates_in(&recovery), object)?;
    match begin(alloc, store, name, &next) {
        Ok(()) => Ok(next),
        Err(fault) => Err(fault),
    }
}

/// The number of threads that logs are of, where they are refused for it.
fn told_by(fault: FilesFault) -> Result<Option<u64>, NoMemory>
    ensures told { IfOk result (ToldBy fault) }
    ensures memory { IfErr result (λ e. fault ≡ FilesFault.NoMemory) }
{
    match fault {
        FilesFault::Threads { were } => Ok((were <= MOST_THREADS).then_some(were)),
        FilesFault::NoMemory => Err(NoMemory),
        _ => Ok(None),
    }
}

/// The number of threads that the logs of an era are of, where it is to end before so many threads work in it: one of its logs is full,
/// since a service was killed before the next era began, or they are of another number.
fn logs_that_end<O: Saved + Drop, S: Directory>(
    alloc: Global,
    store: &mut S,
    name: &str,
    era: &Era<O>,
    threads: u64,
) -> Result<Option<u64>, NoMemory>
    ensures ends { IfOk result (EndsBy O.means O.CODE O.description name.now threads (S.seen store.old) (S.seen store.new) era.now) }
    ensures counts { IfErr result (λ e. SameCounts (S.seen store.old) (S.seen store.new)) }
    ensures same { SameFiles (S.seen store.old) (S.seen store.new) }
{
    if MOST_THREADS < threads {
        return Ok(None);
    }
    let logs = era_logs(alloc, name, era.number)?;
    let found = match find(alloc, store, &logs, &era.state, threads) {
        Ok(found) => found,
        Err(fault) => return told_by(fault),
    };
    let Recovery { logs, nodes } = &found.recovery;
    let rooms = rooms_left(alloc, nodes, logs, threads)?;
    match first_empty(&rooms) {
        Some(_) => Ok(Some(threads)),
        None => Ok(None),
    }
}

/// The era, or the next one where it is to end before so many threads work in it.
pub(crate) fn roomy_era<O: Saved + Drop, S: Directory>(
    alloc: Global,
    store: &mut S,
    name: &str,
    era: Era<O>,
    threads: u64,
) -> Result<Era<O>, NextFault>
    ensures entered { IfOk result (λ next. (first : O) → IsInEra O.read_of first (S.seen store.old) name.now era
        → EntersEra O.means O.CODE O.description O.read_of first name.now threads (S.seen store.old) (S.seen store.new) era next) }
    ensures refused { IfErr result (λ fault. (first : O) → IsInEra O.read_of first (S.seen store.old) name.now era
        → MissesEra O.means O.CODE O.description O.read_of first name.now threads (S.seen store.old) (S.seen store.new) era) }
    ensures cause { IfErr result (CannotFollow O.means O.CODE O.description name.now threads (S.seen store.old) (S.seen store.new) era) }
{
    let Ok(ends) = logs_that_end(alloc, store, name, &era, threads) else {
        return Err(NextFault::NoMemory);
    };
    let Some(were) = ends else {
        return Ok(era);
    };
    match begin_next(alloc, store, name, era, were) {
        Ok(next) => Ok(next),
        Err(fault) => Err(fault),
    }
}
