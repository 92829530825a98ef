//! Calls of the system that fail, one after the other, under devices and stores over files: what each call makes of the system,
//! what it answers where one of these fails, and what the files then hold. Opens, writes, cuts, syncs, renames, removes
//! and new permissions are the digits 1 to 7.

use crate::checks::{
    FULL, Found, bytes_of, fence, holds, make_folder, one_line, remove, remove_folder, write_line,
};
use crate::failing_files::{Calls, NotedFiles};
use onll_outside::{FileStore, OutsideFault, Store};
use onll_pmem::Pmem;
use std::alloc::{AllocError, Global};
use std::fs;
use std::os::unix::fs::FileExt;
use std::rt::Files;
use std::test::Fail;

const FOLDER: &str = "onll_outside_test_faults";

const NAME: &str = "onll_outside_test_faults/log.0";

const LINES: &str = "onll_outside_test_failed_fence";

const OWN: &str = "onll_outside_test_own_file";

/// The system's call that fails, from 1, and what two fences after one line was written then make of the system, and whether
/// the first of them succeeds.
struct Fences {
    failing: u64,
    first: u64,
    second: u64,
    passes: bool,
}

/// A line is written before it is synced. Where either fails the fence fails, and the next fence makes both again; a line that
/// was fenced isn't written again.
const FENCES: &[Fences] = &[
    Fences {
        failing: 0,
        first: 24,
        second: 4,
        passes: true,
    },
    Fences {
        failing: 1,
        first: 2,
        second: 24,
        passes: false,
    },
    Fences {
        failing: 2,
        first: 24,
        second: 24,
        passes: false,
    },
];

/// Writes a line and makes two fences, and tells whether they are as they should be.
fn is_fenced<P: Pmem>(device: &mut P, calls: &Calls, line: u64, wanted: &Fences) -> bool {
    let written = write_line(device, line);
    calls.start(wanted.failing);
    let first = fence(device) == wanted.passes && calls.made() == wanted.first;
    calls.start(0);
    let second = fence(device) && calls.made() == wanted.second;
    written && first && second
}

/// Makes each pair of fences on a line of its own.
fn fence_each<P: Pmem>(found: &mut Found, device: &mut P, calls: &Calls) {
    let mut line = 0;
    for wanted in FENCES {
        found.must(is_fenced(device, calls, line, wanted), "other fences");
        line = line.saturating_add(1);
    }
    found.must(
        device.fences() == 6 && device.faults() == 2,
        "not two faults",
    );
}

/// Makes a device of three lines of a store, and all fences on it.
fn fence_device<S: Store>(found: &mut Found, alloc: Global, store: &mut S, calls: &Calls) {
    match store.device(alloc, LINES, 3) {
        Ok(mut device) => {
            fence_each(found, &mut device, calls);
            store.give_up(device);
        }
        Err(_) => found.must(false, "no device"),
    }
}

#[test]
fn a_failed_fence_keeps_its_lines(rt: HostRuntime) -> Result<(), Fail> {
    let calls = Calls::new(rt.alloc())?;
    let mut store = FileStore::new(NotedFiles::new(&rt, &calls)?);
    let mut found = Found::new();
    fence_device(&mut found, rt.alloc(), &mut store, &calls);
    found.must(holds(&rt, LINES, &[FULL; 3]), "other lines in the file");
    remove(&rt, &mut found, LINES);
    found.ended()
}

/// A call of a store.
#[derive(Clone, Copy, Debug, PartialEq, Eq)]
enum Call {
    Device,
    Reopen,
    Write,
    WriteLines,
}

/// A call of a store, what it makes of the system where nothing fails, and how many calls these are.
struct Made {
    call: Call,
    made: u64,
    calls: u64,
}

/// Each writes before it syncs. A new file's folder is synced too; a file that is reopened has its first line written again before
/// it is cut, filled and synced. What is written over a file is one beside it, with its permissions, that takes its name.
const MADE: &[Made] = &[
    Made {
        call: Call::Device,
        made: 12_414,
        calls: 5,
    },
    Made {
        call: Call::Reopen,
        made: 12_324,
        calls: 5,
    },
    Made {
        call: Call::Write,
        made: 11_724_514,
        calls: 8,
    },
    Made {
        call: Call::WriteLines,
        made: 117_234_514,
        calls: 9,
    },
];

/// Makes a call of a store where this call of the system fails, and gives the refusal.
fn refused<R: Files + Drop>(
    alloc: Global,
    store: &mut FileStore<R>,
    calls: &Calls,
    call: Call,
    failing: u64,
) -> Option<OutsideFault>
where
    R::File: FileExt + Send,
{
    calls.start(failing);
    match call {
        Call::Device => store.device(alloc, NAME, 2).err(),
        Call::Reopen => store.reopen(alloc, NAME, &[FULL], 3).err(),
        Call::Write => store.write(alloc, NAME, b"text").err(),
        Call::WriteLines => store.write_lines(alloc, NAME, &[FULL], 3).err(),
    }
}

/// Makes a file of two full lines.
fn write_two(rt: &HostRuntime) -> bool {
    match bytes_of(rt.alloc(), &[FULL, FULL]) {
        Ok(bytes) => fs::write(rt, NAME, bytes.as_slice()).is_ok(),
        Err(_) => false,
    }
}

/// Whether that file begins with a full line.
fn begins_full(rt: &HostRuntime) -> bool {
    match (fs::read(rt, NAME), bytes_of(rt.alloc(), &[FULL])) {
        (Ok(held), Ok(line)) => held.starts_with(line.as_slice()),
        _ => false,
    }
}

/// Makes a call over that file, and tells whether it fails exactly where a call of the system is to, and makes no others.
fn is_made(rt: &HostRuntime, wanted: &Made, failing: u64) -> Result<bool, AllocError> {
    let calls = Calls::new(rt.alloc())?;
    let mut store = FileStore::new(NotedFiles::new(rt, &calls)?);
    let fault = refused(rt.alloc(), &mut store, &calls, wanted.call, failing);
    if failing == 0 {
        Ok(fault.is_none() && calls.made() == wanted.made)
    } else {
        Ok(fault == Some(OutsideFault::Failed))
    }
}

/// The same of a file that is made before; one that is reopened begins with its first line in any case.
fn make_once(rt: &HostRuntime, found: &mut Found, wanted: &Made, failing: u64) {
    found.must(write_two(rt), "no file");
    found.must(
        is_made(rt, wanted, failing) == Ok(true),
        "other calls, or a fault was swallowed",
    );
    let begins = wanted.call != Call::Reopen || begins_full(rt);
    found.must(begins, "a line that stands is lost");
}

/// Makes a call over and over, where each of the system's calls fails in turn.
fn fail_each(rt: &HostRuntime, found: &mut Found, wanted: &Made) {
    for failing in 0..=wanted.calls {
        make_once(rt, found, wanted, failing);
    }
}

#[test]
fn no_fault_is_swallowed(rt: HostRuntime) -> Result<(), Fail> {
    let mut found = Found::new();
    make_folder(&rt, &mut found, FOLDER);
    for wanted in MADE {
        fail_each(&rt, &mut found, wanted);
    }
    remove(&rt, &mut found, NAME);
    remove_folder(&rt, &mut found, FOLDER);
    found.ended()
}

/// Keeps a device in its own file, where this call of the system fails, and tells whether that fails and makes one call.
fn keep_own<S: Store>(alloc: Global, store: &mut S, calls: &Calls, failing: u64) -> Option<bool> {
    let device = one_line(alloc, store, OWN)?;
    calls.start(failing);
    let fault = store.keep(alloc, OWN, device).err();
    let made = calls.made() == 4;
    calls.start(0);
    Some(
        made && fault
            == (if failing == 0 {
                None
            } else {
                Some(OutsideFault::Failed)
            }),
    )
}

#[test]
fn a_device_is_kept_in_its_own_file(rt: HostRuntime) -> Result<(), Fail> {
    let calls = Calls::new(rt.alloc())?;
    let mut store = FileStore::new(NotedFiles::new(&rt, &calls)?);
    let mut found = Found::new();
    for failing in 0..2 {
        let kept = keep_own(rt.alloc(), &mut store, &calls, failing);
        found.must(
            kept == Some(true),
            "not synced alone, or a fault was swallowed",
        );
    }
    remove(&rt, &mut found, OWN);
    found.ended()
}
