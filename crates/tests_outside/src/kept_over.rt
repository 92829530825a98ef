//! A device that is kept under the name of another file, where each call of the system fails in turn: opens, writes, syncs, renames and
//! removes are the digits 1, 2, 4, 5 and 6 of what it makes of the system.

use crate::checks::{
    EMPTY, FULL, Found, holds, is_file, make_folder, one_line, remove, remove_folder,
};
use crate::failing_files::{Calls, NotedFiles};
use onll_outside::{FileStore, OutsideFault, Store};
use onll_words::Line;
use std::alloc::{AllocError, Global};
use std::fs;
use std::test::Fail;

const FOLDER: &str = "onll_outside_test_kept_over";

const NAME: &str = "onll_outside_test_kept_over/log.0";

const COPY: &str = "onll_outside_test_kept_over/copy";

/// A file that is there under the first name that is tried beside the copy.
const BESIDE: &str = "onll_outside_test_kept_over/copy.new0";

const OLD: &[u8] = b"an older text";

const IMAGE: &[Line] = &[FULL, EMPTY];

/// The system's call that fails, from 1; what keeping a device under another name then makes of the system, whether that
/// succeeds, and whether the file is an image then and no more the older text.
struct Keep {
    failing: u64,
    made: u64,
    succeeds: bool,
    is_image: bool,
}

/// The first name beside the file is taken, so a second one is opened. Two lines are written there and synced, the file takes
/// the other name, and the folder is synced. What could not take that name is removed.
const KEEPS: &[Keep] = &[
    Keep {
        failing: 0,
        made: 11_224_514,
        succeeds: true,
        is_image: true,
    },
    Keep {
        failing: 2,
        made: 11,
        succeeds: false,
        is_image: false,
    },
    Keep {
        failing: 3,
        made: 1126,
        succeeds: false,
        is_image: false,
    },
    Keep {
        failing: 4,
        made: 11_226,
        succeeds: false,
        is_image: false,
    },
    Keep {
        failing: 5,
        made: 112_246,
        succeeds: false,
        is_image: false,
    },
    Keep {
        failing: 6,
        made: 1_122_456,
        succeeds: false,
        is_image: false,
    },
    Keep {
        failing: 7,
        made: 1_122_451,
        succeeds: false,
        is_image: true,
    },
    Keep {
        failing: 8,
        made: 11_224_514,
        succeeds: false,
        is_image: true,
    },
];

/// Keeps a device where an older file is, and tells whether the calls and the answer are as they should be.
fn is_kept<S: Store>(alloc: Global, store: &mut S, calls: &Calls, wanted: &Keep) -> bool {
    let Some(device) = one_line(alloc, store, NAME) else {
        return false;
    };
    calls.start(wanted.failing);
    let answer = store.keep(alloc, COPY, device);
    let made = calls.made() == wanted.made;
    calls.start(0);
    let failed = answer.err() == Some(OutsideFault::Failed);
    made && failed != wanted.succeeds
}

/// Keeps a device over an older file where a call of the system fails, and tells whether the calls and the answer are as they should be.
fn keep_over(rt: &HostRuntime, wanted: &Keep) -> Result<bool, AllocError> {
    let calls = Calls::new(rt.alloc())?;
    let mut store = FileStore::new(NotedFiles::new(rt, &calls)?);
    Ok(is_kept(rt.alloc(), &mut store, &calls, wanted))
}

/// The same of an older file that is made, and the file that is there then.
fn keep_once(rt: &HostRuntime, found: &mut Found, wanted: &Keep) {
    found.must(fs::write(rt, COPY, OLD).is_ok(), "no older file");
    found.must(
        keep_over(rt, wanted) == Ok(true),
        "other calls, or another answer",
    );
    let is_image = holds(rt, COPY, IMAGE);
    found.must(is_image == wanted.is_image, "another file");
    found.must(is_image || is_file(rt, COPY, OLD), "neither old nor new");
}

#[test]
fn a_device_is_kept_where_a_file_is(rt: HostRuntime) -> Result<(), Fail> {
    let mut found = Found::new();
    make_folder(&rt, &mut found, FOLDER);
    found.must(fs::write(&rt, BESIDE, OLD).is_ok(), "no file beside");
    for wanted in KEEPS {
        keep_once(&rt, &mut found, wanted);
    }
    found.must(is_file(&rt, BESIDE, OLD), "the file beside has changed");
    remove(&rt, &mut found, BESIDE);
    remove(&rt, &mut found, COPY);
    remove(&rt, &mut found, NAME);
    // No file was left beside.
    remove_folder(&rt, &mut found, FOLDER);
    found.ended()
}
