//! Devices that stores hand out, over files beside one in memory that takes the same calls.

use crate::checks::{EMPTY, FULL, Found, holds, make_folder, remove, remove_folder};
use onll_outside::{FenceAt, FileStore, MemStore, Store};
use onll_pmem::{MemPmem, Pmem};
use onll_words::Line;
use std::alloc::Global;
use std::test::Fail;

/// A call of a device. A line is written where it reads as empty.
#[derive(Clone, Copy, Debug, PartialEq, Eq)]
enum Call {
    Write(u64),
    Back(u64),
    Fence,
}

/// Makes a call, and tells whether it could be made and did not fail.
fn take<P: Pmem>(device: &mut P, call: Call) -> bool {
    match call {
        Call::Write(line) if line < device.lines() && device.read(line) == EMPTY => {
            device.write(line, FULL);
            true
        }
        Call::Back(line) if line < device.lines() => {
            device.write_back(line);
            true
        }
        Call::Fence if device.fences() < 1000 => device.fence().is_ok(),
        _ => false,
    }
}

/// Makes a line durable by a fence of its own, and counts the calls that did not fail.
fn fence_line<P: Pmem>(device: &mut P, line: u64) -> u64 {
    let written = take(device, Call::Write(line));
    let back = take(device, Call::Back(line));
    let fenced = take(device, Call::Fence);
    u64::from(written) + u64::from(back) + u64::from(fenced)
}

/// Makes each line of these durable by a fence of its own, and counts the calls that did not fail.
fn fence_each<P: Pmem>(device: &mut P, lines: u64) -> u64 {
    let mut done: u64 = 0;
    for line in 0..lines {
        done = done.saturating_add(fence_line(device, line));
    }
    done
}

/// Makes the same call of a device over a file and of one in memory, and tells whether the file then holds what the
/// fences of the one in memory made durable.
fn take_both<P: Pmem>(
    rt: &HostRuntime,
    name: &str,
    device: &mut P,
    same: &mut MemPmem,
    call: Call,
) -> bool {
    if !take(device, call) || !take(same, call) {
        return false;
    }
    match same.image(rt.alloc(), 0) {
        Ok(image) => holds(rt, name, &image),
        Err(_) => false,
    }
}

// Neighbours in one fence, lines apart in one fence, a fence with nothing handed over, a line that is handed over and not
// fenced at once, and one that no fence makes durable.
const CALLS: &[Call] = &[
    Call::Fence,
    Call::Write(2),
    Call::Back(2),
    Call::Write(3),
    Call::Back(3),
    Call::Fence,
    Call::Write(8),
    Call::Fence,
    Call::Back(8),
    Call::Write(0),
    Call::Back(0),
    Call::Write(5),
    Call::Fence,
    Call::Fence,
    Call::Back(5),
];

/// What the calls make durable, and what then reads.
const FENCED: &[Line] = &[FULL, EMPTY, FULL, FULL, EMPTY, EMPTY, EMPTY, EMPTY, FULL];

const READ: &[Line] = &[FULL, EMPTY, FULL, FULL, EMPTY, FULL, EMPTY, EMPTY, FULL];

const ZEROS: &[Line] = &[EMPTY; 9];

const FOLDER: &str = "onll_outside_test_folder";

const NAME: &str = "onll_outside_test_folder/log.0";

const COPY: &str = "onll_outside_test_folder/copy";

/// Makes all calls of both devices.
fn take_all<P: Pmem>(rt: &HostRuntime, found: &mut Found, device: &mut P, same: &mut MemPmem) {
    for call in CALLS {
        found.must(
            take_both(rt, NAME, device, same, *call),
            "not what memory holds",
        );
    }
    found.must(
        device.fences() == 5 && device.faults() == 0,
        "not five fences",
    );
}

/// Makes all calls of a device over a file, beside one in memory.
fn take_as_memory<P: Pmem>(rt: &HostRuntime, found: &mut Found, device: &mut P) {
    match MemPmem::new(rt.alloc(), 9, Vec::new(rt.alloc())) {
        Ok(mut same) => take_all(rt, found, device, &mut same),
        Err(_) => found.must(false, "no memory"),
    }
}

/// Makes a device over a file, which holds zeros, and keeps it under this name after it took all calls.
fn keep_called<S: Store>(rt: &HostRuntime, found: &mut Found, store: &mut S, copy: &str) {
    let Ok(mut device) = store.device(rt.alloc(), NAME, 9) else {
        return found.must(false, "no device");
    };
    found.must(holds(rt, NAME, ZEROS), "not of zeros");
    take_as_memory(rt, found, &mut device);
    found.must(store.keep(rt.alloc(), copy, device).is_ok(), "not kept");
}

/// A device over a file is kept under this name.
fn kept_as(rt: &HostRuntime, found: &mut Found, copy: &str, kept: &[Line]) {
    let mut store = FileStore::new(rt);
    keep_called(rt, found, &mut store, copy);
    found.must(holds(rt, copy, kept), "not an image");
}

#[test]
fn a_device_over_a_file(rt: HostRuntime) -> Result<(), Fail> {
    let mut found = Found::new();
    make_folder(&rt, &mut found, FOLDER);
    kept_as(&rt, &mut found, NAME, FENCED);
    // Another file gets the lines as they read.
    kept_as(&rt, &mut found, COPY, READ);
    remove(&rt, &mut found, COPY);
    remove(&rt, &mut found, NAME);
    remove_folder(&rt, &mut found, FOLDER);
    found.ended()
}

/// Makes a device of a store, and each of its lines durable by a fence of its own: how many calls did not fail.
fn fence_new<S: Store>(alloc: Global, store: &mut S, name: &str) -> Option<u64> {
    let mut device = store.device(alloc, name, 100).ok()?;
    let done = fence_each(&mut device, 100);
    store.give_up(device);
    Some(done)
}

/// All calls of a new device of a hundred lines over a file are made.
fn fence_file(rt: &HostRuntime, name: &str) -> bool {
    let mut store = FileStore::new(rt);
    fence_new(rt.alloc(), &mut store, name) == Some(300)
}

#[test]
fn fences_of_a_device(rt: HostRuntime) -> Result<(), Fail> {
    let name = "onll_outside_test_fences";
    let mut found = Found::new();
    found.must(fence_file(&rt, name), "a call failed");
    let hundred = vec![in rt.alloc(); FULL; 100]?;
    found.must(holds(&rt, name, &hundred), "not fenced");
    remove(&rt, &mut found, name);
    found.ended()
}

const SECOND: FenceAt = FenceAt {
    device: 0,
    fence: 2,
};

const FIRST: FenceAt = FenceAt {
    device: 1,
    fence: 1,
};

/// Makes a device of three lines, and each line durable by a fence of its own: how many calls did not fail, and how many faults
/// the device counted. It is kept where that is asked for.
fn faults_of<S: Store>(alloc: Global, store: &mut S, name: &str, kept: bool) -> Option<(u64, u64)> {
    let mut device = store.device(alloc, name, 3).ok()?;
    let counts = (fence_each(&mut device, 3), device.faults());
    if !kept {
        store.give_up(device);
        return Some(counts);
    }
    store.keep(alloc, name, device).ok()?;
    Some(counts)
}

#[test]
fn fences_that_fail_are_counted(rt: HostRuntime) -> Result<(), Fail> {
    let alloc = rt.alloc();
    let fences = Vec::from_slice(alloc, &[SECOND, FIRST])?;
    let mut store = MemStore::new(Vec::new(alloc), Vec::new(alloc), fences);
    let mut found = Found::new();
    let kept = faults_of(alloc, &mut store, "log.0", true);
    found.must(kept == Some((8, 1)), "not kept");
    let given_up = faults_of(alloc, &mut store, "log.1", false);
    found.must(given_up == Some((8, 1)), "not given up");
    found.must(store.faults() == 0, "counted as faults of the store");
    found.ended()
}
