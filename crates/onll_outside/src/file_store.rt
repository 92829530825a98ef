//! The store over the files of the system.

ghost use Rattle.std.specs.Prelude.{◌≡◌, [], None, Some, MatchOption};
ghost use Rattle.std.proofs.Common.{true≢false, sym};
ghost use Rattle.onll_outside.specs.Faults.{CountsSeen, untold};

use crate::beside::open_to_fill;
use crate::disk::{
    cut_file, fill_with, fill_with_lines, keep_device, length_of, make_file, part_buffer,
    read_lines,
};
use crate::faults::Faults;
use crate::lock_file::{LockFile, open_locked};
use crate::mem_store::one_fault;
use crate::{Directory, FailedCall, FaultKind, FileLines, LockFault, OutsideFault, Store};
use onll_pmem::{FilePmem, Pmem};
use onll_words::Line;
use std::alloc::Global;
use std::io::{ErrorKind, Read};
use std::marker::Model;
use std::os::unix::fs::FileExt;
use std::rt::Files;
use std::{fs, io};

/// A name that is locked, with the open file that has the lock.
#[derive(Drop)]
struct Lock<F> {
    name: String,
    file: F,
}

/// The files of the system. What they hold is not told, only how many calls failed and the last of them, and what the devices
/// counted that were handed back.
/// A regular file that is written is made beside and then takes its name, so whatever ends the call leaves the old one or the new one.
#[derive(Drop)]
pub struct FileStore<R: Files + Drop> {
    files: R,
    faults: Faults,
    device_faults: u64,
    device_fences: u64,
    /// None before the first one is taken.
    locks: Option<Vec<Lock<R::File>>>,
}

impl<R: Files + Drop> Model for FileStore<R> {
    ghost use Rattle.onll_outside.specs.Faults.{CountsSeen};

    ghost Value = { CountsSeen };

    ghost view = { λ s. record {
      faults = s.faults.count;
      last = s.faults.last;
      device_faults = s.device_faults;
      device_fences = s.device_fences;
    } };
}

/// The first `limit` bytes of a file. Room for them is taken before they are read, and for one more, so that nothing is copied
/// where the file ends.
fn read_file<R: Files>(files: &R, alloc: Global, name: &str, limit: u64) -> io::Result<Vec<u8>> {
    let room = length_of(files, name, limit).saturating_add(1);
    let mut bytes = Vec::with_capacity(alloc, room as usize)?;
    fs::open(files, name)?.take(limit).read_to_end(&mut bytes)?;
    Ok(bytes)
}

impl<R: Files + Drop> FileStore<R> {
    /// The files that `files` opens, where no call has failed yet.
    pub fn new(files: R) -> FileStore<R>
        ensures { result ≡ record { faults = 0; last = None; device_faults = 0; device_fences = 0 } }
    {
        FileStore {
            files,
            faults: Faults::new(),
            device_faults: 0,
            device_fences: 0,
            locks: None,
        }
    }

    /// The last call that failed, with the system's number of its error.
    pub fn last_fault(&self) -> Option<FailedCall<'_>>
        ensures { MatchOption result (self.now.last ≡ None)
            (λ f. self.now.last ≡ Some (record { kind = f.kind; name = f.name.now })) }
    {
        self.faults.last()
    }

    /// Whether a name is locked.
    fn has_locked(&self, name: &str) -> bool {
        match &self.locks {
            Some(locks) => locks.iter().any(|lock| lock.name.as_str() == name),
            None => false,
        }
    }

    /// Keeps a lock until the name is unlocked, and tells whether memory could be had for it.
    fn add_lock(&mut self, alloc: Global, lock: Lock<R::File>) -> bool
        ensures { self.new ≡ self.old }
    {
        let mut locks = match self.locks.take() {
            Some(locks) => locks,
            None => Vec::new(alloc),
        };
        let added = locks.push(lock).is_ok();
        self.locks = Some(locks);
        added
    }
}

impl<R: Files + Drop> Store for FileStore<R>
where
    R::File: FileExt + Send,
{
    type Dev = FilePmem<R::File>;

    ghost seen = { untold };

    fn read(&mut self, alloc: Global, name: &str, limit: u64) -> Result<Vec<u8>, OutsideFault> {
        match read_file(&self.files, alloc, name, limit) {
            Ok(bytes) => Ok(bytes),
            Err(e) if e.kind() == ErrorKind::OutOfMemory => Err(OutsideFault::NoMemory),
            Err(e) => Err(
                self.faults
                    .raise(alloc, FaultKind::Read, name, e.raw_os_error()),
            ),
        }
    }

    fn read_lines(
        &mut self,
        alloc: Global,
        name: &str,
        limit: u64,
    ) -> Result<FileLines, OutsideFault> {
        match read_lines(&self.files, alloc, name, limit) {
            Ok(lines) => Ok(lines),
            Err(e) if e.kind() == ErrorKind::OutOfMemory => Err(OutsideFault::NoMemory),
            Err(e) => Err(
                self.faults
                    .raise(alloc, FaultKind::Read, name, e.raw_os_error()),
            ),
        }
    }

    // Memory for the fault's name is taken before the file is opened. One that is written in place is empty once it is open, so a
    // system that has no memory then is a fault.
    fn write(&mut self, alloc: Global, name: &str, bytes: &[u8]) -> Result<(), OutsideFault> {
        let Ok(kept) = String::from_str(alloc, name) else {
            return Err(OutsideFault::NoMemory);
        };
        let opened = match open_to_fill(&self.files, alloc, name, bytes.is_empty()) {
            Ok(opened) => opened,
            Err(e) if e.kind() == ErrorKind::OutOfMemory => return Err(OutsideFault::NoMemory),
            Err(e) => return Err(
                self.faults
                    .raise_named(FaultKind::Write, kept, e.raw_os_error()),
            ),
        };
        match fill_with(&self.files, name, opened, bytes) {
            Ok(()) => Ok(()),
            Err(e) => Err(
                self.faults
                    .raise_named(FaultKind::Write, kept, e.raw_os_error()),
            ),
        }
    }

    // Memory is taken before the file is opened, as in `write`.
    fn write_lines(
        &mut self,
        alloc: Global,
        name: &str,
        front: &[Line],
        count: u64,
    ) -> Result<(), OutsideFault> {
        let Ok(kept) = String::from_str(alloc, name) else {
            return Err(OutsideFault::NoMemory);
        };
        let Ok(mut buffer) = part_buffer(alloc) else {
            return Err(OutsideFault::NoMemory);
        };
        let opened = match open_to_fill(&self.files, alloc, name, count == 0) {
            Ok(opened) => opened,
            Err(e) if e.kind() == ErrorKind::OutOfMemory => return Err(OutsideFault::NoMemory),
            Err(e) => return Err(
                self.faults
                    .raise_named(FaultKind::Write, kept, e.raw_os_error()),
            ),
        };
        match fill_with_lines(&self.files, name, opened, &mut buffer, front, count) {
            Ok(()) => Ok(()),
            Err(e) => Err(
                self.faults
                    .raise_named(FaultKind::Write, kept, e.raw_os_error()),
            ),
        }
    }

    fn device(
        &mut self,
        alloc: Global,
        name: &str,
        lines: u64,
    ) -> Result<FilePmem<R::File>, OutsideFault> {
        let file = match make_file(&self.files, name, lines) {
            Ok(file) => file,
            Err(e) if e.kind() == ErrorKind::OutOfMemory => return Err(OutsideFault::NoMemory),
            Err(e) => return Err(
                self.faults
                    .raise(alloc, FaultKind::Device, name, e.raw_os_error()),
            ),
        };
        match FilePmem::over(alloc, file, lines) {
            Ok(device) => Ok(device),
            Err(_) => Err(OutsideFault::NoMemory),
        }
    }

    fn reopen(
        &mut self,
        alloc: Global,
        name: &str,
        front: &[Line],
        lines: u64,
    ) -> Result<FilePmem<R::File>, OutsideFault> {
        let Ok(mut buffer) = part_buffer(alloc) else {
            return Err(OutsideFault::NoMemory);
        };
        let file = match cut_file(&self.files, name, &mut buffer, front, lines) {
            Ok(file) => file,
            Err(e) if e.kind() == ErrorKind::OutOfMemory => return Err(OutsideFault::NoMemory),
            Err(e) => return Err(
                self.faults
                    .raise(alloc, FaultKind::Reopen, name, e.raw_os_error()),
            ),
        };
        match FilePmem::reading(alloc, file, front, lines) {
            Ok(device) => Ok(device),
            Err(_) => Err(OutsideFault::NoMemory),
        }
    }

    fn keep(
        &mut self,
        alloc: Global,
        name: &str,
        device: FilePmem<R::File>,
    ) -> Result<(), OutsideFault> {
        self.device_faults = self
            .device_faults
            .saturating_add(one_fault(device.faults()));
        self.device_fences = self.device_fences.saturating_add(device.fences());
        match keep_device(&self.files, alloc, name, &device) {
            Ok(()) => Ok(()),
            Err(e) if e.kind() == ErrorKind::OutOfMemory => Err(OutsideFault::NoMemory),
            Err(e) => Err(
                self.faults
                    .raise(alloc, FaultKind::Keep, name, e.raw_os_error()),
            ),
        }
    }

    fn give_up(&mut self, device: FilePmem<R::File>) {
        self.device_faults = self
            .device_faults
            .saturating_add(one_fault(device.faults()));
        self.device_fences = self.device_fences.saturating_add(device.fences());
    }

    ghost devices_tell = { λ store told. absurd (true≢false (sym told)) };
}

impl<R: Files + Drop> Directory for FileStore<R>
where
    R::File: FileExt + Send + LockFile,
{
    ghost locked = { λ s. [] };

    fn size(&mut self, alloc: Global, name: &str) -> Result<Option<u64>, OutsideFault> {
        match fs::metadata(&self.files, name) {
            Ok(data) if data.is_dir() => Err(self.faults.raise(alloc, FaultKind::Read, name, None)),
            Ok(data) => Ok(Some(data.len())),
            Err(e) if e.kind() == ErrorKind::NotFound => Ok(None),
            Err(e) if e.kind() == ErrorKind::OutOfMemory => Err(OutsideFault::NoMemory),
            Err(e) => Err(
                self.faults
                    .raise(alloc, FaultKind::Read, name, e.raw_os_error()),
            ),
        }
    }

    // Memory for the name is taken before the file is opened.
    fn lock(&mut self, alloc: Global, name: &str) -> Result<(), LockFault> {
        if self.has_locked(name) {
            return Err(LockFault::InUse);
        }
        let Ok(name) = String::from_str(alloc, name) else {
            return Err(LockFault::NoMemory);
        };
        match open_locked(&self.files, name.as_str()) {
            Ok(Some(file)) => {
                if self.add_lock(alloc, Lock { name, file }) {
                    Ok(())
                } else {
                    Err(LockFault::NoMemory)
                }
            }
            Ok(None) => Err(LockFault::InUse),
            Err(e) if e.kind() == ErrorKind::OutOfMemory => Err(LockFault::NoMemory),
            Err(e) => match self
                .faults
                .raise_named(FaultKind::Write, name, e.raw_os_error())
            {
                OutsideFault::Failed => Err(LockFault::Failed),
                OutsideFault::NoMemory => Err(LockFault::NoMemory),
            },
        }
    }

    fn unlock(&mut self, name: &str) {
        if let Some(locks) = &mut self.locks {
            locks.retain(|lock| lock.name.as_str() != name);
        }
    }
}
