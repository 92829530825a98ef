//! A text that is written over a file, where each call of the system fails in turn: opens, writes, syncs, renames, removes and new
//! permissions are the digits 1, 2, 4, 5, 6 and 7 of what it makes of the system.

use crate::checks::{Found, is_file, make_folder, remove, remove_folder};
use crate::failing_files::{Calls, NotedFiles};
use onll_outside::{FileStore, OutsideFault, Store};
use std::alloc::{AllocError, Global};
use std::fs;
use std::fs::Permissions;
use std::os::unix::fs::{PermissionsExt, symlink};
use std::test::Fail;

const FOLDER: &str = "onll_outside_test_written_over";

const NAME: &str = "onll_outside_test_written_over/text";

const KINDS: &str = "onll_outside_test_written_kinds";

const OWN: &str = "onll_outside_test_written_kinds/text";

const LINK: &str = "onll_outside_test_written_kinds/link";

const OLD: &[u8] = b"an older text";

const NEW: &[u8] = b"text";

/// The system's call that fails, from 1; what the write then makes of the system, whether it succeeds, and whether the file is the new
/// text then and no more the older one.
struct Write {
    failing: u64,
    made: u64,
    succeeds: bool,
    is_new: bool,
}

/// The older file is opened, and one beside, which is given its permissions. The text is written there and synced, the file takes the
/// name, and the folder is synced. What could not take that name is removed.
const WRITES: &[Write] = &[
    Write {
        failing: 0,
        made: 11_724_514,
        succeeds: true,
        is_new: true,
    },
    Write {
        failing: 1,
        made: 1,
        succeeds: false,
        is_new: false,
    },
    Write {
        failing: 2,
        made: 11,
        succeeds: false,
        is_new: false,
    },
    Write {
        failing: 3,
        made: 1176,
        succeeds: false,
        is_new: false,
    },
    Write {
        failing: 4,
        made: 11_726,
        succeeds: false,
        is_new: false,
    },
    Write {
        failing: 5,
        made: 117_246,
        succeeds: false,
        is_new: false,
    },
    Write {
        failing: 6,
        made: 1_172_456,
        succeeds: false,
        is_new: false,
    },
    Write {
        failing: 7,
        made: 1_172_451,
        succeeds: false,
        is_new: true,
    },
    Write {
        failing: 8,
        made: 11_724_514,
        succeeds: false,
        is_new: true,
    },
];

/// A file that is emptied is opened so and synced, and its folder is.
const EMPTIED: &Write = &Write {
    failing: 0,
    made: 1414,
    succeeds: true,
    is_new: false,
};

/// Writes a text by a store, and tells whether these calls are made, and the answer is as it should be.
fn is_made<S: Store>(
    alloc: Global,
    store: &mut S,
    calls: &Calls,
    text: &[u8],
    wanted: &Write,
) -> bool {
    calls.start(wanted.failing);
    let failed = store.write(alloc, NAME, text).err() == Some(OutsideFault::Failed);
    calls.made() == wanted.made && failed != wanted.succeeds
}

/// The same by a store over the system's files.
fn writes(rt: &HostRuntime, text: &[u8], wanted: &Write) -> Result<bool, AllocError> {
    let calls = Calls::new(rt.alloc())?;
    let mut store = FileStore::new(NotedFiles::new(rt, &calls)?);
    Ok(is_made(rt.alloc(), &mut store, &calls, text, wanted))
}

/// Writes the new text over the older one, and looks at the file that is there then.
fn write_once(rt: &HostRuntime, found: &mut Found, wanted: &Write) {
    found.must(fs::write(rt, NAME, OLD).is_ok(), "no older file");
    let written = writes(rt, NEW, wanted) == Ok(true);
    found.must(written, "other calls, or another answer");
    let is_new = is_file(rt, NAME, NEW);
    found.must(is_new == wanted.is_new, "another file");
    found.must(is_new || is_file(rt, NAME, OLD), "neither old nor new");
}

#[test]
fn a_text_is_written_over_a_file(rt: HostRuntime) -> Result<(), Fail> {
    let mut found = Found::new();
    make_folder(&rt, &mut found, FOLDER);
    for wanted in WRITES {
        write_once(&rt, &mut found, wanted);
    }
    // One that is to be empty is emptied where it is.
    found.must(writes(&rt, b"", EMPTIED) == Ok(true), "not emptied");
    found.must(is_file(&rt, NAME, b""), "not empty");
    remove(&rt, &mut found, NAME);
    // No file was left beside.
    remove_folder(&rt, &mut found, FOLDER);
    found.ended()
}

/// Whether the system takes the new text as the file of this name.
fn is_written(rt: &HostRuntime, name: &str) -> bool {
    let mut store = FileStore::new(rt);
    store.write(rt.alloc(), name, NEW).is_ok()
}

/// Makes a file that its owner alone may read and write.
fn make_own(rt: &HostRuntime) -> bool {
    let own = Permissions::from_mode(0o600);
    fs::write(rt, OWN, OLD).is_ok() && fs::set_permissions(rt, OWN, own).is_ok()
}

/// Whether a file is one that its owner alone may read and write.
fn is_own(rt: &HostRuntime) -> bool {
    match fs::metadata(rt, OWN) {
        Ok(data) => data.permissions().mode() & 0o777 == 0o600,
        Err(_) => false,
    }
}

/// Whether a name is a symbolic link.
fn is_link(rt: &HostRuntime, name: &str) -> bool {
    match fs::symlink_metadata(rt, name) {
        Ok(data) => data.is_symlink(),
        Err(_) => false,
    }
}

/// Writes over a file that its owner alone may read and write.
fn write_own(rt: &HostRuntime, found: &mut Found) {
    found.must(make_own(rt), "no file of its owner");
    found.must(is_written(rt, OWN), "not written");
    found.must(is_file(rt, OWN, NEW), "another text");
    found.must(is_own(rt), "other permissions");
}

/// Writes over a symbolic link to that file.
fn write_link(rt: &HostRuntime, found: &mut Found) {
    found.must(fs::write(rt, OWN, OLD).is_ok(), "no older file");
    found.must(symlink(rt, "text", LINK).is_ok(), "no link");
    found.must(is_written(rt, LINK), "the link was not written");
    found.must(is_link(rt, LINK), "the link is gone");
    found.must(is_file(rt, OWN, NEW), "another text behind it");
}

#[test]
fn what_is_written_stays_what_it_was(rt: HostRuntime) -> Result<(), Fail> {
    let mut found = Found::new();
    make_folder(&rt, &mut found, KINDS);
    write_own(&rt, &mut found);
    write_link(&rt, &mut found);
    found.must(!is_written(&rt, KINDS), "a folder was written");
    remove(&rt, &mut found, LINK);
    remove(&rt, &mut found, OWN);
    // No file was left beside.
    remove_folder(&rt, &mut found, KINDS);
    found.ended()
}
