//! What the files of an object's logs hold.

ghost use Rattle.std.specs.Prelude.{◌≡◌, true, length, IfOk};
ghost use Rattle.onll_pmem.specs.Device.{zero_lines};
ghost use Rattle.onll_outside.specs.Views.{SameDevices, SameFiles, FaultsOf};
ghost use Rattle.onll_outside.specs.declared.store.FaultKind.TheVariants as kinds;
ghost use Rattle.onll_open.specs.Files.{AreRead, FileIsMade, IsRead, LogFaults};
ghost use Rattle.onll_open.specs.Names.{log_name};

use crate::fault::{FileFault, fault_at};
use crate::names::log_name;
use onll_log::{LONGEST_IMAGE, TestedImage};
use onll_outside::{Directory, FileLines, OutsideFault};
use onll_words::Line;
use std::alloc::{AllocError, Global};
use std::borrow::CowSlice;

/// Whether a file is there, and has a byte.
fn is_made<S: Directory>(alloc: Global, store: &mut S, name: &str) -> Result<bool, OutsideFault>
    ensures made { IfOk result (λ made. FileIsMade (S.seen store.old) name.now made) }
    ensures faults { FaultsOf (record { kind = kinds.Read; name = name.now }) (S.seen store.old) (S.seen store.new) result }
    ensures same { SameFiles (S.seen store.old) (S.seen store.new) }
    ensures devices { SameDevices (S.seen store.old) (S.seen store.new) }
{
    match store.size(alloc, name) {
        Ok(Some(size)) => Ok(size > 0),
        Ok(None) => Ok(false),
        Err(fault) => Err(fault),
    }
}

/// A log that is not begun.
pub(crate) fn empty_image(alloc: Global) -> Result<TestedImage<'static>, AllocError>
    ensures { IfOk result (λ lines. lines ≡ zero_lines 1) }
{
    let lines = vec![in alloc; Line { w: [0; 8] }; 1]?;
    Ok(TestedImage::of_lines(CowSlice::Owned(lines)))
}

/// The lines that decide what a file holds as a log.
fn read_lines<S: Directory>(
    alloc: Global,
    store: &mut S,
    name: &str,
) -> Result<TestedImage<'static>, OutsideFault>
    requires made { FileIsMade (S.seen store.old) name.now true }
    ensures read { IfOk result (λ lines. IsRead (S.seen store.old) name.now lines) }
    ensures faults { FaultsOf (record { kind = kinds.Read; name = name.now }) (S.seen store.old) (S.seen store.new) result }
    ensures same { SameFiles (S.seen store.old) (S.seen store.new) }
    ensures devices { SameDevices (S.seen store.old) (S.seen store.new) }
{
    match store.read_lines(alloc, name, LONGEST_IMAGE as u64) {
        Ok(read) => {
            let FileLines { front, .. } = read;
            Ok(TestedImage::of_lines(CowSlice::Owned(front)))
        }
        Err(fault) => Err(fault),
    }
}

/// The same, where a file that is not made is a log that is not begun.
fn read_image<S: Directory>(
    alloc: Global,
    store: &mut S,
    name: &str,
) -> Result<TestedImage<'static>, OutsideFault>
    ensures read { IfOk result (λ lines. IsRead (S.seen store.old) name.now lines) }
    ensures faults { FaultsOf (record { kind = kinds.Read; name = name.now }) (S.seen store.old) (S.seen store.new) result }
    ensures same { SameFiles (S.seen store.old) (S.seen store.new) }
    ensures devices { SameDevices (S.seen store.old) (S.seen store.new) }
{
    match is_made(alloc, store, name) {
        Ok(true) => read_lines(alloc, store, name),
        Ok(false) => match empty_image(alloc) {
            Ok(image) => Ok(image),
            Err(_) => Err(OutsideFault::NoMemory),
        },
        Err(fault) => Err(fault),
    }
}

/// The lines that decide what the files of the logs of so many threads hold. One that is not there, or has no byte, is a log that is
/// not begun.
pub fn read_images<S: Directory>(
    alloc: Global,
    store: &mut S,
    logs: &str,
    threads: u64,
) -> Result<Vec<TestedImage<'static>>, FileFault>
    ensures read { IfOk result (λ images. AreRead logs.now images.items (S.seen store.old)) }
    ensures many { IfOk result (λ images. length images.items ≡ threads) }
    ensures faults { LogFaults kinds.Read logs.now threads (S.seen store.old) (S.seen store.new) result }
    ensures same { SameFiles (S.seen store.old) (S.seen store.new) }
    ensures devices { SameDevices (S.seen store.old) (S.seen store.new) }
{
    let mut images = Vec::new(alloc);
    for thread in 0..threads {
        let Ok(name) = log_name(alloc, logs, thread) else {
            return Err(FileFault::NoMemory);
        };
        match read_image(alloc, store, &name) {
            Ok(image) => {
                let Ok(()) = images.push(image) else {
                    return Err(FileFault::NoMemory);
                };
            }
            Err(fault) => return Err(fault_at(thread, fault)),
        }
    }
    Ok(images)
}
