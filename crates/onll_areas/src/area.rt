//! The checkpoint that an area's file holds, and the newest of two areas.

ghost use Rattle.std.specs.Prelude.{◌≡◌, ◌≤◌, length, IfOk};
ghost use Rattle.onll_pmem.specs.Pmem.{words_of};
ghost use Rattle.onll_outside.specs.Views.{SameFiles, SameDevices, FaultsOf, with_zeros};
ghost use Rattle.onll_outside.specs.declared.store.FaultKind.{FaultKind};
ghost use Rattle.onll_checkpoint.specs.Grammar.{checkpoint_in};
ghost use Rattle.onll_areas.specs.Newest.{AreaHolds, counting, newer, newest_of};

use onll_checkpoint::{Checkpoint, load};
use onll_outside::{FileLines, OutsideFault, Store};
use onll_words::{Line, NoMemory};
use std::alloc::Global;

/// How many bytes of an area's file are read at most.
pub const LONGEST_AREA: u64 = 1_048_640;

/// The checkpoint that the lines of a file hold, if they hold one. Those that `read_lines` left out are zeros.
fn found_in(alloc: Global, read: FileLines) -> Result<Option<Checkpoint>, NoMemory>
    requires { length read.front.items ≤ read.count }
    ensures { IfOk result (λ found. found ≡ checkpoint_in (with_zeros (words_of read.front.items) read.count)) }
{
    let FileLines { front, count } = read;
    let mut lines = front;
    lines.resize(count as usize, Line { w: [0; 8] })?;
    load(alloc, &lines)
}

/// The checkpoint that the file `name` holds, if it holds one. A file that is not there is a fault of the store.
pub fn read_area<S: Store>(
    alloc: Global,
    name: &str,
    store: &mut S,
) -> Result<Option<Checkpoint>, OutsideFault>
    ensures found { IfOk result (λ found. AreaHolds (S.seen store.old) name.now found) }
    ensures same { SameFiles (S.seen store.old) (S.seen store.new) }
    ensures faults { FaultsOf (record { kind = FaultKind.Read; name = name.now }) (S.seen store.old) (S.seen store.new) result }
    ensures devices { SameDevices (S.seen store.old) (S.seen store.new) }
{
    let read = match store.read_lines(alloc, name, LONGEST_AREA) {
        Ok(read) => read,
        Err(fault) => return Err(fault),
    };
    match found_in(alloc, read) {
        Ok(found) => Ok(found),
        Err(NoMemory) => Err(OutsideFault::NoMemory),
    }
}

/// The checkpoint of an area, where its number has the parity of this area, 0 or 1.
fn counting(area: u64, checkpoint: Option<Checkpoint>) -> Option<Checkpoint>
    ensures { result ≡ counting area checkpoint }
{
    match checkpoint {
        Some(checkpoint) if checkpoint.number() % 2 == area => Some(checkpoint),
        _ => None,
    }
}

/// The one with the greater number.
fn newer(one: Option<Checkpoint>, other: Option<Checkpoint>) -> Option<Checkpoint>
    ensures { result ≡ newer one other }
{
    let Some(first) = one else {
        return other;
    };
    let Some(second) = other else {
        return Some(first);
    };
    if first.number() < second.number() {
        Some(second)
    } else {
        Some(first)
    }
}

/// The newest of what two areas hold. A checkpoint of an even number counts in the one alone, of an odd number in the other alone.
pub fn newest(even: Option<Checkpoint>, odd: Option<Checkpoint>) -> Option<Checkpoint>
    ensures { result ≡ newest_of even odd }
{
    newer(counting(0, even), counting(1, odd))
}
