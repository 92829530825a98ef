//! The trait of a store of files and of devices that are kept in them.

ghost use Rattle.std.specs.Prelude.{◌≡◌, ◌≤◌, ◌*◌, true, length, IfOk, IfErr, OnOk};
ghost use Rattle.onll_pmem.specs.Device.{zero_lines};
ghost use Rattle.onll_pmem.specs.Pmem.{words_of};
ghost use Rattle.onll_outside.specs.Views.{StoreView, SameFiles, SameFaults, SameOthers, SameDevices, FileHolds, Gives, FaultsOf, HandsBack, IsFresh, KeptOrZeros, BeginsWith, MayWipe, KeepsDevice, MayKeep, with_zeros, image_bytes};
ghost use Rattle.onll_outside.specs.LineFiles.{IsFileFront, GivesLines};

use crate::OutsideFault;
use crate::bytes::{file_bytes, front_of};
use crate::gather::lines_of;
use onll_pmem::Pmem;
use onll_words::Line;
use std::alloc::Global;

/// The kind of a store's call.
#[derive(Clone, Copy, Debug, PartialEq, Eq)]
pub enum FaultKind {
    /// A file was read.
    Read,
    /// A file was written.
    Write,
    /// A device was made.
    Device,
    /// A device was made of the first lines of a file.
    Reopen,
    /// A device was kept as a file.
    Keep,
}

/// The lines of a file: those of a front, and then lines of zeros, `count` in all.
#[derive(Drop)]
pub struct FileLines {
    /// The lines without those of zeros at their end; but one line stays where there is no other.
    pub front: Vec<Line>,
    pub count: u64,
}

/// Files by name, and devices that are kept in them, with a count of the calls that failed.
pub trait Store {
    /// What `device` and `reopen` make.
    type Dev: Pmem + Send + Drop;

    ghost seen: { Self → StoreView };

    /// Gives the bytes of the file `name`, and of a longer file its first `limit` bytes. A file that is
    /// not there is a fault.
    fn read(&mut self, alloc: Global, name: &str, limit: u64) -> Result<Vec<u8>, OutsideFault>
        ensures bytes { IfOk result (λ v. Gives (seen self.old) name.now limit v.items) }
        ensures same { SameFiles (seen self.old) (seen self.new) }
        ensures faults { FaultsOf (record { kind = FaultKind.Read; name = name.now }) (seen self.old) (seen self.new) result }
        ensures devices { SameDevices (seen self.old) (seen self.new) };

    /// Gives the whole lines of the bytes that `read` gives.
    fn read_lines(
        &mut self,
        alloc: Global,
        name: &str,
        limit: u64,
    ) -> Result<FileLines, OutsideFault>
        ensures lines { IfOk result (λ l. GivesLines (seen self.old) name.now limit (words_of l.front.items) l.count) }
        ensures front { IfOk result (λ l. IsFileFront (words_of l.front.items) l.count) }
        ensures few { IfOk result (λ l. 64 * l.count ≤ limit) }
        ensures same { SameFiles (seen self.old) (seen self.new) }
        ensures faults { FaultsOf (record { kind = FaultKind.Read; name = name.now }) (seen self.old) (seen self.new) result }
        ensures devices { SameDevices (seen self.old) (seen self.new) }
    {
        let bytes = self.read(alloc, name, limit)?;
        match lines_of(alloc, front_of(&bytes, limit)) {
            Ok(lines) => Ok(lines),
            Err(_) => Err(OutsideFault::NoMemory),
        }
    }

    /// Makes these bytes the file `name`. A write that fails may leave anything in that file; where memory
    /// can't be had, the file is as it was.
    fn write(&mut self, alloc: Global, name: &str, bytes: &[u8]) -> Result<(), OutsideFault>
        ensures written { OnOk result (FileHolds (seen self.new) name.now bytes.now) }
        ensures others { SameOthers name.now (seen self.old) (seen self.new) }
        ensures kept { IfErr result (λ e. e ≡ OutsideFault.NoMemory → SameFiles (seen self.old) (seen self.new)) }
        ensures faults { FaultsOf (record { kind = FaultKind.Write; name = name.now }) (seen self.old) (seen self.new) result }
        ensures devices { SameDevices (seen self.old) (seen self.new) };

    /// Makes these lines, and then lines of zeros, `count` in all, the file `name`, as `write` makes their bytes one.
    fn write_lines(
        &mut self,
        alloc: Global,
        name: &str,
        front: &[Line],
        count: u64,
    ) -> Result<(), OutsideFault>
        requires { length front.now ≤ count }
        ensures written { OnOk result (FileHolds (seen self.new) name.now (image_bytes (with_zeros (words_of front.now) count))) }
        ensures others { SameOthers name.now (seen self.old) (seen self.new) }
        ensures kept { IfErr result (λ e. e ≡ OutsideFault.NoMemory → SameFiles (seen self.old) (seen self.new)) }
        ensures faults { FaultsOf (record { kind = FaultKind.Write; name = name.now }) (seen self.old) (seen self.new) result }
        ensures devices { SameDevices (seen self.old) (seen self.new) }
    {
        let Ok(bytes) = file_bytes(alloc, front, count) else {
            return Err(OutsideFault::NoMemory);
        };
        self.write(alloc, name, &bytes)
    }

    /// Makes a device of so many lines of zeros, to be kept in the file `name`. That file stays as it was, or holds
    /// zeros alone.
    fn device(&mut self, alloc: Global, name: &str, lines: u64) -> Result<Self::Dev, OutsideFault>
        requires { lines ≤ 1000000 }
        ensures made { IfOk result (λ d. IsFresh (zero_lines lines) (Self.Dev.means d)) }
        ensures file { KeptOrZeros name.now (seen self.old) (seen self.new) }
        ensures others { SameOthers name.now (seen self.old) (seen self.new) }
        ensures faults { FaultsOf (record { kind = FaultKind.Device; name = name.now }) (seen self.old) (seen self.new) result }
        ensures devices { SameDevices (seen self.old) (seen self.new) };

    /// Makes a device of so many lines of the file `name`, whose first lines these are: it reads as those and then
    /// zeros. Each word of the file after them stays as it was, or is wiped, also where the call is refused.
    fn reopen(
        &mut self,
        alloc: Global,
        name: &str,
        front: &[Line],
        lines: u64,
    ) -> Result<Self::Dev, OutsideFault>
        requires front { length front.now ≤ lines }
        requires few { lines ≤ 1000000 }
        requires begins { BeginsWith (seen self.old) name.now (image_bytes (words_of front.now)) }
        ensures made { IfOk result (λ d. IsFresh (with_zeros (words_of front.now) lines) (Self.Dev.means d)) }
        ensures file { MayWipe name.now (image_bytes (words_of front.now)) (seen self.old) (seen self.new) }
        ensures others { SameOthers name.now (seen self.old) (seen self.new) }
        ensures faults { FaultsOf (record { kind = FaultKind.Reopen; name = name.now }) (seen self.old) (seen self.new) result }
        ensures devices { SameDevices (seen self.old) (seen self.new) };

    /// Takes a device back, and makes one image of it the file `name`. Where that is refused, the file is as it was, or
    /// holds an image of the device.
    fn keep(&mut self, alloc: Global, name: &str, device: Self::Dev) -> Result<(), OutsideFault>
        ensures kept { OnOk result (KeepsDevice (seen self.new) name.now (Self.Dev.means device)) }
        ensures file { MayKeep name.now (Self.Dev.means device) (seen self.old) (seen self.new) }
        ensures others { SameOthers name.now (seen self.old) (seen self.new) }
        ensures faults { FaultsOf (record { kind = FaultKind.Keep; name = name.now }) (seen self.old) (seen self.new) result }
        ensures devices { HandsBack (Self.Dev.means device) (seen self.old) (seen self.new) };

    /// Takes a device back without keeping it.
    fn give_up(&mut self, device: Self::Dev)
        ensures same { SameFiles (seen self.old) (seen self.new) }
        ensures faults { SameFaults (seen self.old) (seen self.new) }
        ensures devices { HandsBack (Self.Dev.means device) (seen self.old) (seen self.new) };

    ghost devices_tell: { (store : Self) → (seen store).tells ≡ true → Self.Dev.tells ≡ true };
}
