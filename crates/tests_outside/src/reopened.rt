//! Files of which devices are made again.

use crate::checks::{EMPTY, FULL, Found, bytes_of, holds, make_folder, remove, remove_folder};
use onll_outside::{FileStore, Store};
use onll_pmem::Pmem;
use onll_words::Line;
use std::fs;
use std::test::Fail;

const FOLDER: &str = "onll_outside_test_reopened";

const NAME: &str = "onll_outside_test_reopened/log.0";

const FIVE: &[Line] = &[FULL; 5];

/// A front of the file, so many lines after it, and what the file then holds.
struct Case {
    front: &'static [Line],
    lines: u64,
    left: &'static [Line],
}

const CASES: &[Case] = &[
    Case {
        front: &[FULL, FULL],
        lines: 8,
        left: &[FULL, FULL, EMPTY, EMPTY, EMPTY, EMPTY, EMPTY, EMPTY],
    },
    Case {
        front: &[FULL],
        lines: 1,
        left: &[FULL],
    },
    Case {
        front: &[],
        lines: 3,
        left: &[EMPTY, EMPTY, EMPTY],
    },
];

/// Reopens the file, and tells whether the device is as long and makes a fence.
fn is_reopened(rt: &HostRuntime, front: &[Line], lines: u64) -> bool {
    if front.len() as u64 > lines || lines > 10 {
        return false;
    }
    let mut store = FileStore::new(rt);
    let Ok(mut device) = store.reopen(rt.alloc(), NAME, front, lines) else {
        return false;
    };
    let fenced = device.lines() == lines && device.fence().is_ok();
    store.give_up(device);
    fenced
}

/// Reopens the file in each way, one after the other.
fn reopen_each(rt: &HostRuntime, found: &mut Found) {
    for case in CASES {
        found.must(
            is_reopened(rt, case.front, case.lines),
            "not reopened, not as long, or not fenced",
        );
        found.must(holds(rt, NAME, case.left), "other lines are left");
    }
}

/// Makes the file of full lines.
fn write_file(rt: &HostRuntime, lines: &[Line]) -> bool {
    match bytes_of(rt.alloc(), lines) {
        Ok(bytes) => fs::write(rt, NAME, bytes.as_slice()).is_ok(),
        Err(_) => false,
    }
}

#[test]
fn a_file_is_reopened(rt: HostRuntime) -> Result<(), Fail> {
    let mut found = Found::new();
    make_folder(&rt, &mut found, FOLDER);
    found.must(write_file(&rt, FIVE), "no file");
    reopen_each(&rt, &mut found);
    remove(&rt, &mut found, NAME);
    remove_folder(&rt, &mut found, FOLDER);
    found.ended()
}
