//! The era in which an object over files is.

ghost use Rattle.std.specs.Prelude.{◌≡◌, ◌<◌, ◌⊎◌, Some, IfOk, IfErr};
ghost use Rattle.onll_outside.specs.Views.{FaultsOf, SameDevices, SameFiles};
ghost use Rattle.onll_outside.specs.declared.store.FaultKind.TheVariants as kinds;
ghost use Rattle.onll_live.specs.Eras.{AreaGives, AreasGive, IsInEra, area_name, era_of};
ghost use Rattle.onll_live.specs.Faults.{CannotFind, EraFaults, IsBadState, IsReadFault, not_read};

use crate::era::Era;
use crate::fault::EraFault;
use crate::names::area_name;
use crate::saved::Saved;
use onll_areas::{newest, read_area};
use onll_checkpoint::Checkpoint;
use onll_outside::{Directory, OutsideFault};
use std::alloc::Global;

/// Why nothing is known of an area, where a read of its file was refused so.
pub fn not_read(area: u64, fault: OutsideFault) -> EraFault
    ensures { result ≡ not_read area fault }
{
    match fault {
        OutsideFault::Failed => EraFault::NotRead { area },
        OutsideFault::NoMemory => EraFault::NoMemory,
    }
}

/// The checkpoint that a file holds. One that is not there, or is empty, holds none.
fn checkpoint_of<S: Directory>(
    alloc: Global,
    store: &mut S,
    name: &str,
) -> Result<Option<Checkpoint>, OutsideFault>
    ensures found { IfOk result (λ found. AreaGives (S.seen store.old) name.now found) }
    ensures faults { FaultsOf (record { kind = kinds.Read; name = name.now }) (S.seen store.old) (S.seen store.new) result }
    ensures same { SameFiles (S.seen store.old) (S.seen store.new) }
    ensures devices { SameDevices (S.seen store.old) (S.seen store.new) }
{
    let Some(size) = store.size(alloc, name)? else {
        return Ok(None);
    };
    if size == 0 {
        return Ok(None);
    }
    read_area(alloc, name, store)
}

/// The checkpoint that area 0 or 1 of an object holds.
pub fn checkpoint_in_area<S: Directory>(
    alloc: Global,
    store: &mut S,
    name: &str,
    area: u64,
) -> Result<Option<Checkpoint>, EraFault>
    requires { area < 2 }
    ensures found { IfOk result (λ found. AreaGives (S.seen store.old) (area_name name.now area) found) }
    ensures faults { EraFaults name.now (S.seen store.old) (S.seen store.new) result }
    ensures refused { IfErr result (λ fault. IsReadFault area fault) }
    ensures same { SameFiles (S.seen store.old) (S.seen store.new) }
    ensures devices { SameDevices (S.seen store.old) (S.seen store.new) }
{
    let file = area_name(alloc, name, area)?;
    match checkpoint_of(alloc, store, &file) {
        Ok(found) => Ok(found),
        Err(fault) => Err(not_read(area, fault)),
    }
}

/// The era that a checkpoint begins.
fn era_from<O: Saved + Drop>(
    alloc: Global,
    found: Option<Checkpoint>,
    object: O,
) -> Result<Era<O>, EraFault>
    ensures found { IfOk result (λ era. era_of O.read_of object found ≡ Some era) }
    ensures refused { IfErr result (IsBadState O.read_of found) }
{
    let Some(checkpoint) = found else {
        return Ok(Era {
            number: 0,
            place: 0,
            state: object,
        });
    };
    let (number, place) = (checkpoint.number(), checkpoint.place());
    match O::load(alloc, checkpoint.text())? {
        Some(state) => Ok(Era {
            number,
            place,
            state,
        }),
        None => Err(EraFault::BadState { area: number % 2 }),
    }
}

/// The newest checkpoint that the areas of this name hold.
fn newest_checkpoint<S: Directory>(
    alloc: Global,
    store: &mut S,
    name: &str,
) -> Result<Option<Checkpoint>, EraFault>
    ensures found { IfOk result (λ newest. AreasGive (S.seen store.old) name.now newest) }
    ensures refused { IfErr result (λ fault. IsReadFault 0 fault ⊎ IsReadFault 1 fault) }
    ensures faults { EraFaults name.now (S.seen store.old) (S.seen store.new) result }
    ensures same { SameFiles (S.seen store.old) (S.seen store.new) }
    ensures devices { SameDevices (S.seen store.old) (S.seen store.new) }
{
    let even = checkpoint_in_area(alloc, store, name, 0)?;
    match checkpoint_in_area(alloc, store, name, 1) {
        Ok(odd) => Ok(newest(even, odd)),
        Err(fault) => Err(fault),
    }
}

/// The era in which an object that began in this state is over the files of this name.
pub fn find_era<O: Saved + Drop, S: Directory>(
    alloc: Global,
    store: &mut S,
    name: &str,
    object: O,
) -> Result<Era<O>, EraFault>
    ensures found { IfOk result (λ era. IsInEra O.read_of object (S.seen store.old) name.now era) }
    ensures refused { IfErr result (CannotFind O.read_of (S.seen store.old) name.now) }
    ensures faults { EraFaults name.now (S.seen store.old) (S.seen store.new) result }
    ensures same { SameFiles (S.seen store.old) (S.seen store.new) }
    ensures devices { SameDevices (S.seen store.old) (S.seen store.new) }
{
    let found = newest_checkpoint(alloc, store, name)?;
    era_from(alloc, found, object)
}
