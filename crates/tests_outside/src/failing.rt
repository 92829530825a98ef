//! Calls of stores that fail, and what they leave.

use crate::checks::{Found, remove};
use onll_outside::{FileStore, MemStore, OutsideFault, Store};
use std::alloc::Global;
use std::test::Fail;

/// A call of a store.
#[derive(Clone, Copy, Debug, PartialEq, Eq)]
enum Call {
    Write,
    Device,
    Reopen,
    Keep,
    WriteLines,
}

/// Makes a device, and keeps it.
fn keep_new<S: Store>(alloc: Global, store: &mut S, name: &str) -> Result<(), OutsideFault> {
    let device = store.device(alloc, name, 3)?;
    store.keep(alloc, name, device)
}

/// Makes a file of text, and a device of it with none of its lines.
fn reopen_text<S: Store>(alloc: Global, store: &mut S, name: &str) -> Result<S::Dev, OutsideFault> {
    store.write(alloc, name, b"text")?;
    store.reopen(alloc, name, &[], 3)
}

/// Makes a call on a file of that name, and tells whether the outside failed.
fn fails<S: Store>(alloc: Global, store: &mut S, name: &str, call: Call) -> bool {
    let fault = match call {
        Call::Write => store.write(alloc, name, b"other").err(),
        Call::Device => store.device(alloc, name, 3).err(),
        Call::Reopen => reopen_text(alloc, store, name).err(),
        Call::Keep => keep_new(alloc, store, name).err(),
        Call::WriteLines => store.write_lines(alloc, name, &[], 3).err(),
    };
    fault == Some(OutsideFault::Failed)
}

/// Whether the outside fails where a file of the system is reopened.
fn reopen_fails(rt: &HostRuntime, name: &str) -> bool {
    let mut store = FileStore::new(rt);
    store.reopen(rt.alloc(), name, &[], 3).err() == Some(OutsideFault::Failed)
}

const NO_FILES: [&str; 3] = ["onll_outside_no_folder/log.0", ".", "/dev/full"];

/// Whether no file of that name can be made, nor one of it be reopened.
fn is_no_file(rt: &HostRuntime, name: &str) -> bool {
    let mut store = FileStore::new(rt);
    fails(rt.alloc(), &mut store, name, Call::Device)
        && reopen_fails(rt, name)
        && fails(rt.alloc(), &mut store, name, Call::Write)
        && fails(rt.alloc(), &mut store, name, Call::WriteLines)
}

#[test]
fn names_that_are_no_files(rt: HostRuntime) -> Result<(), Fail> {
    let mut found = Found::new();
    for name in NO_FILES {
        found.must(is_no_file(&rt, name), name);
    }
    found.ended()
}

/// Makes a device of a store, and keeps it under another name, where it can't be kept.
fn keep_elsewhere<S: Store>(alloc: Global, store: &mut S, name: &str) -> Option<OutsideFault> {
    let device = store.device(alloc, name, 2).ok()?;
    store.keep(alloc, NO_FILES[0], device).err()
}

/// Whether the outside fails where a device of a file of the system is kept elsewhere.
fn keep_fails(rt: &HostRuntime, name: &str) -> bool {
    let mut store = FileStore::new(rt);
    keep_elsewhere(rt.alloc(), &mut store, name) == Some(OutsideFault::Failed)
}

#[test]
fn a_device_is_not_kept(rt: HostRuntime) -> Result<(), Fail> {
    let name = "onll_outside_test_kept";
    let mut found = Found::new();
    found.must(keep_fails(&rt, name), "kept");
    remove(&rt, &mut found, name);
    found.must(reopen_fails(&rt, name), "reopened");
    found.ended()
}

const CALLS: &[Call] = &[
    Call::Write,
    Call::Device,
    Call::Reopen,
    Call::Keep,
    Call::WriteLines,
];

/// Whether the file is the text.
fn is_text(store: &MemStore) -> bool {
    match store.file("log.0") {
        Some(bytes) => bytes == b"text".as_slice(),
        None => false,
    }
}

/// Makes each call, which fails and leaves the file.
fn fail_each(alloc: Global, found: &mut Found, store: &mut MemStore) {
    for call in CALLS {
        found.must(fails(alloc, store, "log.0", *call), "did not fail");
        found.must(is_text(store), "changed the file");
    }
}

/// The first call writes the file, the fourth one that of which a device is then made, and the sixth one makes the device that
/// is not kept; all others fail.
#[test]
fn a_call_that_fails_changes_no_file(rt: HostRuntime) -> Result<(), Fail> {
    let alloc = rt.alloc();
    let failing = Vec::from_slice(alloc, &[2, 3, 5, 7, 8])?;
    let mut store = MemStore::new(Vec::new(alloc), failing, Vec::new(alloc));
    let mut found = Found::new();
    found.must(store.write(alloc, "log.0", b"text").is_ok(), "not written");
    fail_each(alloc, &mut found, &mut store);
    found.must(store.faults() == 5, "not five faults");
    found.ended()
}
