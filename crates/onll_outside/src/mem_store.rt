//! The store in memory.

ghost use Rattle.std.specs.Prelude.{◌≡◌, ◌≤◌, ◌*◌, refl, [], length, MatchOption, None, IfOk, IfErr, OnOk, map, string_bytes};
ghost use Rattle.std.specs.Option.{option_copied};
ghost use Rattle.onll_pmem.specs.Device.{zero_lines, fenced_device, image_of, IsImage};
ghost use Rattle.onll_pmem.specs.Pmem.{words_of};
ghost use Rattle.onll_pmem.specs.Memory.{memory_view};
ghost use Rattle.onll_outside.specs.Views.{SameFiles, SameOthers, FileHolds, Gives, FaultsOf, SameDevices, HandsBack, IsFresh, KeptOrZeros, BeginsWith, MayWipe, KeepsDevice, MayKeep, with_zeros, image_bytes, one_fault};
ghost use Rattle.onll_outside.specs.LineFiles.{IsFileFront, GivesLines};
ghost use Rattle.onll_outside.specs.MemStore.{FilesHeld, texts_of, file_in, place_in, with_file, store_of, call_fails, called, MemReads, MemReadsLines, MemWrites, MemMakes, MemReopens, MemStores, MemSizes, MemLocks, back, failing_of, reopened};
ghost use Rattle.onll_outside.specs.Directory.{SizeOf, LocksOf, LockFaults, is_locked, without_name};

use crate::bytes::{file_bytes, front_of, image_bytes, with_zeros};
use crate::faults::Faults;
use crate::gather::lines_of;
use crate::{Directory, FaultKind, FileLines, LockFault, OutsideFault, Store};
use onll_pmem::{MemPmem, Pmem};
use onll_words::Line;
use std::alloc::{AllocError, Global};
use std::marker::Model;

/// A file in memory.
#[derive(Drop)]
pub struct Named {
    pub name: String,
    pub bytes: Vec<u8>,
}

/// A fence that is to fail: the device, from 0 in the order of making, and its fence, from 1.
#[derive(Clone, Copy, Debug, PartialEq, Eq)]
pub struct FenceAt {
    pub device: u64,
    pub fence: u64,
}

/// Files in memory. Its calls are numbered from 1, and those whose numbers it was given fail.
#[derive(Drop)]
pub struct MemStore {
    files: Vec<Named>,
    failing: Vec<u64>,
    fences: Vec<FenceAt>,
    calls: u64,
    faults: Faults,
    devices: u64,
    device_faults: u64,
    device_fences: u64,
    locked: Vec<String>,
}

impl Model for MemStore {
    ghost Value = { FilesHeld };

    ghost view = { λ s. record {
      files = texts_of s.files.items;
      failing = s.failing.items;
      fences = s.fences.items;
      calls = s.calls;
      faults = s.faults.count;
      last = s.faults.last;
      devices = s.devices;
      device_faults = s.device_faults;
      device_fences = s.device_fences;
      locked = map string_bytes s.locked.items;
    } };
}

/// The first file of that name.
#[tactic(auto, using(crate::proofs::Names::same_names))]
fn find<'a>(files: &'a [Named], name: &str) -> Option<&'a Named>
    ensures { MatchOption result (file_in (texts_of files.now) name.now ≡ None)
        (λ f. file_in (texts_of files.now) name.now ≡ Some f.now.bytes.items) }
{
    for file in files {
        if file.name.as_str() == name {
            return Some(file);
        }
    }
    None
}

/// Whether a name is among these.
#[tactic(auto, using(crate::proofs::Names::same_names))]
fn has_name(names: &[String], name: &str) -> bool
    ensures { result ≡ is_locked (map string_bytes names.now) name.now }
{
    for held in names {
        if held.as_str() == name {
            return true;
        }
    }
    false
}

/// No names; this takes no memory.
fn no_names(alloc: Global) -> Vec<String>
    ensures { result.items ≡ [] }
{
    Vec::new(alloc)
}

/// Takes a name out of these.
fn drop_name(names: &mut Vec<String>, name: &str)
    ensures { map string_bytes names.new.items ≡ without_name (map string_bytes names.old.items) name.now }
{
    names.retain(|held| held.as_str() != name);
}

/// The place of the first file of that name, or the count of files where there is none.
#[tactic(auto, using(crate::proofs::Names::same_names))]
fn place_of(files: &[Named], name: &str) -> usize
    ensures within { result ≤ length files.now }
    ensures place { result ≡ place_in (texts_of files.now) name.now }
{
    let mut place = 0;
    for held in files {
        if held.name.as_str() == name {
            return place;
        }
        place += 1;
    }
    place
}

/// Makes these bytes the first file of that name.
fn put_file(
    alloc: Global,
    files: &mut Vec<Named>,
    name: &str,
    bytes: Vec<u8>,
) -> Result<(), OutsideFault>
    ensures put { OnOk result (texts_of files.new.items ≡ with_file (texts_of files.old.items) name.now bytes.items) }
    ensures kept { IfErr result (λ e. (e ≡ OutsideFault.NoMemory) × (files.new.items ≡ files.old.items)) }
{
    let place = place_of(files, name);
    if place < files.len() {
        files[place].bytes = bytes;
        return Ok(());
    }
    let Ok(name) = String::from_str(alloc, name) else {
        return Err(OutsideFault::NoMemory);
    };
    let Ok(()) = files.push(Named { name, bytes }) else {
        return Err(OutsideFault::NoMemory);
    };
    Ok(())
}

/// Whether there is a fault, as a number.
pub(crate) fn one_fault(faults: u64) -> u64
    ensures { result ≡ one_fault faults }
{
    if faults == 0 { 0 } else { 1 }
}

/// Which fences of the device of this number are to fail.
fn failing_of(alloc: Global, fences: &[FenceAt], device: u64) -> Result<Vec<u64>, AllocError>
    ensures { IfOk result (λ v. v.items ≡ failing_of fences.now device) }
{
    let mut failing = Vec::new(alloc);
    for at in fences {
        if at.device == device {
            failing.push(at.fence)?;
        }
    }
    Ok(failing)
}

/// The file of what a crash leaves of a device that loses all that is pending.
pub(crate) fn kept_bytes(alloc: Global, device: &MemPmem) -> Result<Vec<u8>, OutsideFault>
    ensures bytes { IfOk result (λ bytes. bytes.items ≡ image_bytes (image_of device.now.device 0)) }
    ensures image { IfOk result (λ bytes. IsImage device.now.device (image_of device.now.device 0)) }
    ensures refused { IfErr result (λ e. e ≡ OutsideFault.NoMemory) }
{
    let Ok(image) = device.image(alloc, 0) else {
        return Err(OutsideFault::NoMemory);
    };
    match image_bytes(alloc, &image) {
        Ok(bytes) => Ok(bytes),
        Err(_) => Err(OutsideFault::NoMemory),
    }
}

impl MemStore {
    /// A store of these files, of which only the first of each name counts, whose calls of these
    /// numbers fail, and on whose devices these fences fail.
    pub fn new(files: Vec<Named>, failing: Vec<u64>, fences: Vec<FenceAt>) -> MemStore
        ensures { result ≡ record {
          files = texts_of files.items;
          failing = failing.items;
          fences = fences.items;
          calls = 0;
          faults = 0;
          last = None;
          devices = 0;
          device_faults = 0;
          device_fences = 0;
          locked = [];
        } }
    {
        let locked = no_names(*files.allocator());
        MemStore {
            files,
            failing,
            fences,
            calls: 0,
            faults: Faults::new(),
            devices: 0,
            device_faults: 0,
            device_fences: 0,
            locked,
        }
    }

    /// The bytes of the file of that name.
    pub fn file(&self, name: &str) -> Option<&[u8]>
        ensures { option_copied result ≡ file_in self.now.files name.now }
    {
        find(&self.files, name).map(|file| file.bytes.as_slice())
    }

    /// How many of its calls failed.
    pub fn faults(&self) -> u64
        ensures { result ≡ self.now.faults }
    {
        self.faults.count()
    }

    /// Counts a device that was handed back.
    fn count_back(&mut self, device: &MemPmem)
        ensures { self.new ≡ back self.old (memory_view device.now) }
    {
        self.device_faults = self
            .device_faults
            .saturating_add(one_fault(device.faults()));
        self.device_fences = self.device_fences.saturating_add(device.fences());
    }

    /// Makes what a crash leaves of a device the file of this name.
    fn store_image(
        &mut self,
        alloc: Global,
        name: &str,
        device: &MemPmem,
    ) -> Result<(), OutsideFault>
        ensures kept { OnOk result (KeepsDevice (store_of self.new) name.now (memory_view device.now)) }
        ensures file { MayKeep name.now (memory_view device.now) (store_of self.old) (store_of self.new) }
        ensures others { SameOthers name.now (store_of self.old) (store_of self.new) }
        ensures faults { FaultsOf (record { kind = FaultKind.Keep; name = name.now }) (store_of self.old) (store_of self.new) result }
        ensures devices { SameDevices (store_of self.old) (store_of self.new) }
        ensures exact { MemStores self.old self.new name.now device.now result }
    {
        if self.begin_call() {
            return Err(self.faults.raise(alloc, FaultKind::Keep, name, None));
        }
        let Ok(bytes) = kept_bytes(alloc, device) else {
            return Err(OutsideFault::NoMemory);
        };
        let Ok(()) = put_file(alloc, &mut self.files, name, bytes) else {
            return Err(OutsideFault::NoMemory);
        };
        Ok(())
    }

    /// Makes a device of these lines, and the file of this name of them.
    fn device_of(
        &mut self,
        alloc: Global,
        name: &str,
        lines: Vec<Line>,
    ) -> Result<MemPmem, OutsideFault>
        requires { length lines.items ≤ 1000000 }
        ensures made { IfOk result (λ d. d ≡ record
            { device = fenced_device (words_of lines.items); failing = failing_of self.old.fences self.old.devices }) }
        ensures file { OnOk result (self.new ≡ reopened self.old name.now (words_of lines.items)) }
        ensures refused { IfErr result (λ e. (e ≡ OutsideFault.NoMemory) × (self.new ≡ self.old)) }
    {
        let Ok(failing) = failing_of(alloc, &self.fences, self.devices) else {
            return Err(OutsideFault::NoMemory);
        };
        let Ok(bytes) = image_bytes(alloc, &lines) else {
            return Err(OutsideFault::NoMemory);
        };
        let Ok(device) = MemPmem::of_image(alloc, lines, failing) else {
            return Err(OutsideFault::NoMemory);
        };
        let Ok(()) = put_file(alloc, &mut self.files, name, bytes) else {
            return Err(OutsideFault::NoMemory);
        };
        self.devices = self.devices.saturating_add(1);
        Ok(device)
    }

    /// Counts a call, and tells whether it is to fail.
    fn begin_call(&mut self) -> bool
        ensures fails { result ≡ call_fails self.old }
        ensures called { self.new ≡ called self.old }
    {
        self.calls = self.calls.saturating_add(1);
        self.failing.contains(&self.calls)
    }
}

impl Store for MemStore {
    type Dev = MemPmem;

    ghost seen = { store_of };

    fn read(&mut self, alloc: Global, name: &str, limit: u64) -> Result<Vec<u8>, OutsideFault>
        ensures bytes { IfOk result (λ v. Gives (store_of self.old) name.now limit v.items) }
        ensures same { SameFiles (store_of self.old) (store_of self.new) }
        ensures faults { FaultsOf (record { kind = FaultKind.Read; name = name.now }) (store_of self.old) (store_of self.new) result }
        ensures devices { SameDevices (store_of self.old) (store_of self.new) }
        ensures exact { MemReads self.old self.new name.now limit result }
    {
        let fails = self.begin_call();
        if !fails && let Some(file) = find(&self.files, name) {
            return match Vec::from_slice(alloc, front_of(&file.bytes, limit)) {
                Ok(bytes) => Ok(bytes),
                Err(_) => Err(OutsideFault::NoMemory),
            };
        }
        Err(self.faults.raise(alloc, FaultKind::Read, name, None))
    }

    fn read_lines(
        &mut self,
        alloc: Global,
        name: &str,
        limit: u64,
    ) -> Result<FileLines, OutsideFault>
        ensures lines { IfOk result (λ l. GivesLines (store_of self.old) name.now limit (words_of l.front.items) l.count) }
        ensures front { IfOk result (λ l. IsFileFront (words_of l.front.items) l.count) }
        ensures few { IfOk result (λ l. 64 * l.count ≤ limit) }
        ensures same { SameFiles (store_of self.old) (store_of self.new) }
        ensures faults { FaultsOf (record { kind = FaultKind.Read; name = name.now }) (store_of self.old) (store_of self.new) result }
        ensures devices { SameDevices (store_of self.old) (store_of self.new) }
        ensures exact { MemReadsLines self.old self.new name.now limit result }
    {
        let fails = self.begin_call();
        if !fails && let Some(file) = find(&self.files, name) {
            return match lines_of(alloc, front_of(&file.bytes, limit)) {
                Ok(lines) => Ok(lines),
                Err(_) => Err(OutsideFault::NoMemory),
            };
        }
        Err(self.faults.raise(alloc, FaultKind::Read, name, None))
    }

    fn write(&mut self, alloc: Global, name: &str, bytes: &[u8]) -> Result<(), OutsideFault>
        ensures written { OnOk result (FileHolds (store_of self.new) name.now bytes.now) }
        ensures others { SameOthers name.now (store_of self.old) (store_of self.new) }
        ensures kept { IfErr result (λ e. e ≡ OutsideFault.NoMemory → SameFiles (store_of self.old) (store_of self.new)) }
        ensures faults { FaultsOf (record { kind = FaultKind.Write; name = name.now }) (store_of self.old) (store_of self.new) result }
        ensures devices { SameDevices (store_of self.old) (store_of self.new) }
        ensures exact { MemWrites self.old self.new name.now bytes.now result }
    {
        if self.begin_call() {
            return Err(self.faults.raise(alloc, FaultKind::Write, name, None));
        }
        let Ok(bytes) = Vec::from_slice(alloc, bytes) else {
            return Err(OutsideFault::NoMemory);
        };
        let Ok(()) = put_file(alloc, &mut self.files, name, bytes) else {
            return Err(OutsideFault::NoMemory);
        };
        Ok(())
    }

    fn write_lines(
        &mut self,
        alloc: Global,
        name: &str,
        front: &[Line],
        count: u64,
    ) -> Result<(), OutsideFault>
        requires { length front.now ≤ count }
        ensures written { OnOk result (FileHolds (store_of self.new) name.now (image_bytes (with_zeros (words_of front.now) count))) }
        ensures others { SameOthers name.now (store_of self.old) (store_of self.new) }
        ensures kept { IfErr result (λ e. e ≡ OutsideFault.NoMemory → SameFiles (store_of self.old) (store_of self.new)) }
        ensures faults { FaultsOf (record { kind = FaultKind.Write; name = name.now }) (store_of self.old) (store_of self.new) result }
        ensures devices { SameDevices (store_of self.old) (store_of self.new) }
        ensures exact { MemWrites self.old self.new name.now (image_bytes (with_zeros (words_of front.now) count)) result }
    {
        if self.begin_call() {
            let fault = self.faults.raise(alloc, FaultKind::Write, name, None);
            return Err(fault);
        }
        let Ok(bytes) = file_bytes(alloc, front, count) else {
            return Err(OutsideFault::NoMemory);
        };
        let Ok(()) = put_file(alloc, &mut self.files, name, bytes) else {
            return Err(OutsideFault::NoMemory);
        };
        Ok(())
    }

    fn device(&mut self, alloc: Global, name: &str, lines: u64) -> Result<MemPmem, OutsideFault>
        requires { lines ≤ 1000000 }
        ensures made { IfOk result (λ d. IsFresh (zero_lines lines) (memory_view d)) }
        ensures file { KeptOrZeros name.now (store_of self.old) (store_of self.new) }
        ensures others { SameOthers name.now (store_of self.old) (store_of self.new) }
        ensures faults { FaultsOf (record { kind = FaultKind.Device; name = name.now }) (store_of self.old) (store_of self.new) result }
        ensures devices { SameDevices (store_of self.old) (store_of self.new) }
        ensures exact { MemMakes self.old self.new name.now lines result }
    {
        if self.begin_call() {
            return Err(self.faults.raise(alloc, FaultKind::Device, name, None));
        }
        let Ok(failing) = failing_of(alloc, &self.fences, self.devices) else {
            return Err(OutsideFault::NoMemory);
        };
        let Ok(device) = MemPmem::new(alloc, lines, failing) else {
            return Err(OutsideFault::NoMemory);
        };
        self.devices = self.devices.saturating_add(1);
        Ok(device)
    }

    fn reopen(
        &mut self,
        alloc: Global,
        name: &str,
        front: &[Line],
        lines: u64,
    ) -> Result<MemPmem, OutsideFault>
        requires front { length front.now ≤ lines }
        requires few { lines ≤ 1000000 }
        requires begins { BeginsWith (store_of self.old) name.now (image_bytes (words_of front.now)) }
        ensures made { IfOk result (λ d. IsFresh (with_zeros (words_of front.now) lines) (memory_view d)) }
        ensures file { MayWipe name.now (image_bytes (words_of front.now)) (store_of self.old) (store_of self.new) }
        ensures others { SameOthers name.now (store_of self.old) (store_of self.new) }
        ensures faults { FaultsOf (record { kind = FaultKind.Reopen; name = name.now }) (store_of self.old) (store_of self.new) result }
        ensures devices { SameDevices (store_of self.old) (store_of self.new) }
        ensures exact { MemReopens self.old self.new name.now (words_of front.now) lines result }
    {
        if self.begin_call() {
            return Err(self.faults.raise(alloc, FaultKind::Reopen, name, None));
        }
        match with_zeros(alloc, front, lines) {
            Ok(image) => self.device_of(alloc, name, image),
            Err(_) => Err(OutsideFault::NoMemory),
        }
    }

    fn keep(&mut self, alloc: Global, name: &str, device: MemPmem) -> Result<(), OutsideFault>
        ensures kept { OnOk result (KeepsDevice (store_of self.new) name.now (memory_view device)) }
        ensures file { MayKeep name.now (memory_view device) (store_of self.old) (store_of self.new) }
        ensures others { SameOthers name.now (store_of self.old) (store_of self.new) }
        ensures faults { FaultsOf (record { kind = FaultKind.Keep; name = name.now }) (store_of self.old) (store_of self.new) result }
        ensures devices { HandsBack (memory_view device) (store_of self.old) (store_of self.new) }
        ensures exact { MemStores (back self.old (memory_view device)) self.new name.now device result }
    {
        self.count_back(&device);
        self.store_image(alloc, name, &device)
    }

    fn give_up(&mut self, device: MemPmem)
        ensures { self.new ≡ back self.old (memory_view device) }
    {
        self.count_back(&device);
    }

    ghost devices_tell = { λ store told. refl };
}

impl Directory for MemStore {
    ghost locked = { λ s. s.locked };

    fn size(&mut self, alloc: Global, name: &str) -> Result<Option<u64>, OutsideFault>
        ensures size { IfOk result (λ n. SizeOf (store_of self.old) name.now n) }
        ensures same { SameFiles (store_of self.old) (store_of self.new) }
        ensures faults { FaultsOf (record { kind = FaultKind.Read; name = name.now }) (store_of self.old) (store_of self.new) result }
        ensures devices { SameDevices (store_of self.old) (store_of self.new) }
        ensures locks { self.new.locked ≡ self.old.locked }
        ensures exact { MemSizes self.old self.new name.now result }
    {
        if self.begin_call() {
            return Err(self.faults.raise(alloc, FaultKind::Read, name, None));
        }
        match find(&self.files, name) {
            Some(file) => Ok(Some(file.bytes.len() as u64)),
            None => Ok(None),
        }
    }

    fn lock(&mut self, alloc: Global, name: &str) -> Result<(), LockFault>
        ensures locks { LocksOf (store_of self.old) name.now self.old.locked self.new.locked result }
        ensures others { SameOthers name.now (store_of self.old) (store_of self.new) }
        ensures faults { LockFaults name.now (store_of self.old) (store_of self.new) result }
        ensures devices { SameDevices (store_of self.old) (store_of self.new) }
        ensures exact { MemLocks self.old self.new name.now result }
    {
        if self.begin_call() {
            return match self.faults.raise(alloc, FaultKind::Write, name, None) {
                OutsideFault::Failed => Err(LockFault::Failed),
                OutsideFault::NoMemory => Err(LockFault::NoMemory),
            };
        }
        if has_name(&self.locked, name) {
            return Err(LockFault::InUse);
        }
        let Ok(name) = String::from_str(alloc, name) else {
            return Err(LockFault::NoMemory);
        };
        match self.locked.push(name) {
            Ok(()) => Ok(()),
            Err(_) => Err(LockFault::NoMemory),
        }
    }

    fn unlock(&mut self, name: &str)
        ensures { self.new ≡ record self.old { locked = without_name self.old.locked name.now } }
    {
        drop_name(&mut self.locked, name);
    }
}
