//! The newest area, made durable again before anybody goes on in its era.

ghost use Rattle.std.specs.Prelude.{◌≡◌, ◌∷◌, ◌≤◌, ◌<◌, [], true, false, length, is_some, Option, None, IfOk, IfErr, OnOk};
ghost use Rattle.onll_pmem.specs.Pmem.{words_of};
ghost use Rattle.onll_outside.specs.Views.{BeginsWith, FaultsOf, FileHolds, SameFiles, SameOthers, image_bytes, with_zeros};
ghost use Rattle.onll_outside.specs.declared.store.FaultKind.TheVariants as kinds;
ghost use Rattle.onll_areas.specs.Keeping.{StaysOrZeros};
ghost use Rattle.onll_open.specs.Files.{SameBut};
ghost use Rattle.onll_live.specs.Eras.{AreaGives, AreasGive, area_name, number_of};
ghost use Rattle.onll_live.specs.Faults.{AreaDeviceFaults, EraFaults, IsSettleFault, not_settled};
ghost use Rattle.onll_live.specs.Settled.{IsRewritten, AreasSettled, IsUntorn, KeepsArea, KeepsCheckpoint};

use crate::fault::EraFault;
use crate::finding::not_read;
use crate::names::area_name;
use onll_areas::{LONGEST_AREA, read_area};
use onll_outside::{Directory, FileLines, OutsideFault, Store};
use onll_pmem::Pmem;
use onll_words::{Line, NoMemory};
use std::alloc::Global;

/// A device tells its fenced words by its type.
pub(crate) fn told_law<P: Pmem>()
    ensures { (device : P) → is_some (P.means device).told ≡ P.tells }
{}

/// Why an area isn't settled, where a device of its file was refused so.
fn not_settled(area: u64, fault: OutsideFault) -> EraFault
    ensures { result ≡ not_settled area fault }
{
    match fault {
        OutsideFault::Failed => EraFault::NotSettled { area },
        OutsideFault::NoMemory => EraFault::NoMemory,
    }
}

/// All the lines that were read of a file, with those of zeros at their end.
fn all_lines(read: FileLines) -> Result<Vec<Line>, NoMemory>
    requires { length read.front.items ≤ read.count }
    ensures lines { IfOk result (λ lines. words_of lines.items ≡ with_zeros (words_of read.front.items) read.count) }
    ensures many { IfOk result (λ lines. length lines.items ≡ read.count) }
{
    let FileLines { front, count } = read;
    let mut lines = front;
    lines.resize(count as usize, Line { w: [0; 8] })?;
    Ok(lines)
}

/// Writes the first lines of a file once more, so that they are durable.
fn rewrite<S: Store>(
    alloc: Global,
    store: &mut S,
    file: &str,
    lines: &[Line],
) -> Result<(), OutsideFault>
    requires few { length lines.now ≤ 1000000 }
    requires begins { BeginsWith (S.seen store.old) file.now (image_bytes (words_of lines.now)) }
    ensures alone { OnOk result (FileHolds (S.seen store.new) file.now (image_bytes (words_of lines.now))) }
    ensures begins { BeginsWith (S.seen store.new) file.now (image_bytes (words_of lines.now)) }
    ensures faults { AreaDeviceFaults kinds.Reopen file.now (S.seen store.old) (S.seen store.new) result }
    ensures others { SameOthers file.now (S.seen store.old) (S.seen store.new) }
{
    told_law::<S::Dev>();
    let device = store.reopen(alloc, file, lines, lines.len() as u64)?;
    store.keep(alloc, file, device)
}

/// Makes a line of zeros the file of this name.
fn wipe<S: Store>(alloc: Global, store: &mut S, file: &str) -> Result<(), OutsideFault>
    ensures wiped { OnOk result (IsUntorn (S.seen store.new) file.now) }
    ensures zeros { StaysOrZeros (S.seen store.old) (S.seen store.new) file.now }
    ensures faults { AreaDeviceFaults kinds.Device file.now (S.seen store.old) (S.seen store.new) result }
    ensures others { SameOthers file.now (S.seen store.old) (S.seen store.new) }
{
    told_law::<S::Dev>();
    let device = store.device(alloc, file, 1)?;
    store.keep(alloc, file, device)
}

/// Whether a file has bytes and holds no checkpoint, since a save of it was cut off.
fn is_torn<S: Directory>(alloc: Global, store: &mut S, file: &str) -> Result<bool, OutsideFault>
    ensures torn { IfOk result (λ torn. torn ≡ true → AreaGives (S.seen store.old) file.now None) }
    ensures untorn { IfOk result (λ torn. torn ≡ false → IsUntorn (S.seen store.old) file.now) }
    ensures faults { FaultsOf (record { kind = kinds.Read; name = file.now }) (S.seen store.old) (S.seen store.new) result }
    ensures same { SameFiles (S.seen store.old) (S.seen store.new) }
{
    let Some(size) = store.size(alloc, file)? else {
        return Ok(false);
    };
    if size == 0 {
        return Ok(false);
    }
    match read_area(alloc, file, store) {
        Ok(found) => Ok(found.is_none()),
        Err(fault) => Err(fault),
    }
}

/// Makes the area of the newest checkpoint durable again.
fn settle_newest<S: Directory>(
    alloc: Global,
    store: &mut S,
    name: &str,
    area: u64,
) -> Result<(), EraFault>
    requires { area < 2 }
    ensures rewritten { OnOk result (IsRewritten (S.seen store.old) (S.seen store.new) (area_name name.now area)) }
    ensures kept { KeepsCheckpoint (S.seen store.old) (S.seen store.new) (area_name name.now area) }
    ensures faults { EraFaults name.now (S.seen store.old) (S.seen store.new) result }
    ensures refused { IfErr result IsSettleFault }
    ensures others { SameOthers (area_name name.now area) (S.seen store.old) (S.seen store.new) }
{
    let file = area_name(alloc, name, area)?;
    let read = match store.read_lines(alloc, &file, LONGEST_AREA) {
        Ok(read) => read,
        Err(fault) => return Err(not_read(area, fault)),
    };
    let lines = all_lines(read)?;
    match rewrite(alloc, store, &file, &lines) {
        Ok(()) => Ok(()),
        Err(fault) => Err(not_settled(area, fault)),
    }
}

/// Wipes the other area, where a save of it was cut off.
fn settle_other<S: Directory>(
    alloc: Global,
    store: &mut S,
    name: &str,
    area: u64,
) -> Result<(), EraFault>
    requires { area < 2 }
    ensures untorn { OnOk result (IsUntorn (S.seen store.new) (area_name name.now area)) }
    ensures kept { KeepsArea (S.seen store.old) (S.seen store.new) (area_name name.now area) }
    ensures faults { EraFaults name.now (S.seen store.old) (S.seen store.new) result }
    ensures refused { IfErr result IsSettleFault }
    ensures others { SameOthers (area_name name.now area) (S.seen store.old) (S.seen store.new) }
{
    let file = area_name(alloc, name, area)?;
    match is_torn(alloc, store, &file) {
        Ok(true) => {}
        Ok(false) => return Ok(()),
        Err(fault) => return Err(not_read(area, fault)),
    }
    match wipe(alloc, store, &file) {
        Ok(()) => Ok(()),
        Err(fault) => Err(not_settled(area, fault)),
    }
}

/// Makes the area of the era of this number durable again, and wipes the other where it holds no checkpoint: a fence that failed may have
/// left what reads as written and is lost with the power, or the reverse. The era stays what it is, whatever is answered.
pub fn settle<S: Directory>(
    alloc: Global,
    store: &mut S,
    name: &str,
    number: u64,
) -> Result<(), EraFault>
    ensures settled { OnOk result (AreasSettled (S.seen store.old) (S.seen store.new) name.now number) }
    ensures kept { (newest : Option _) → AreasGive (S.seen store.old) name.now newest → number_of newest ≡ number
        → AreasGive (S.seen store.new) name.now newest }
    ensures faults { EraFaults name.now (S.seen store.old) (S.seen store.new) result }
    ensures refused { IfErr result IsSettleFault }
    ensures others { SameBut (area_name name.now 0 ∷ area_name name.now 1 ∷ []) (S.seen store.old) (S.seen store.new) }
{
    if number == 0 {
        return settle_other(alloc, store, name, 1);
    }
    let area = number % 2;
    settle_newest(alloc, store, name, area)?;
    settle_other(alloc, store, name, 1 - area)
}
