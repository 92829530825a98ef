//! How long files are, names that are locked, and the last call that failed, in memory and over files of the system.

use crate::checks::{Found, is_file, make_folder, remove, remove_folder};
use crate::stores::store_of;
use onll_outside::{Directory, FailedCall, FaultKind, FileStore, LockFault, Store};
use std::alloc::Global;
use std::fs;
use std::test::Fail;

const FOLDER: &str = "onll_outside_test_names";

const NAME: &str = "onll_outside_test_names/shop.lock";

const LONG: &str = "onll_outside_test_names/shop.0";

/// Nothing stands there.
const MISSING: &str = "onll_outside_test_names/shop.1";

/// A file, how long it is, and whether the call fails.
struct Size {
    name: &'static str,
    size: Option<u64>,
    fails: bool,
}

/// Asks how long each file is.
fn size_each<S: Directory>(alloc: Global, found: &mut Found, store: &mut S, sizes: &[Size]) {
    for each in sizes {
        let size = store.size(alloc, each.name);
        found.must(size.is_err() == each.fails, each.name);
        found.must(size.unwrap_or(None) == each.size, each.name);
    }
}

/// Of a store in memory whose first call fails.
const SIZES: &[Size] = &[
    Size {
        name: "i",
        size: None,
        fails: true,
    },
    Size {
        name: "i",
        size: Some(10),
        fails: false,
    },
    Size {
        name: "e",
        size: Some(0),
        fails: false,
    },
    Size {
        name: "t",
        size: None,
        fails: false,
    },
];

#[test]
fn sizes_in_memory(rt: HostRuntime) -> Result<(), Fail> {
    let alloc = rt.alloc();
    let mut store = store_of(alloc, &[("i", "balances 3"), ("e", "")], &[1])?;
    let mut found = Found::new();
    size_each(alloc, &mut found, &mut store, SIZES);
    found.must(store.faults() == 1, "a missing file is a fault");
    found.ended()
}

/// A name, and why it isn't locked, where it isn't.
struct Lock {
    name: &'static str,
    refused: Option<LockFault>,
}

/// Locks each name in turn.
fn lock_each<S: Directory>(alloc: Global, found: &mut Found, store: &mut S, locks: &[Lock]) {
    for each in locks {
        let refused = store.lock(alloc, each.name).err();
        found.must(refused == each.refused, each.name);
    }
}

/// Of a store in memory whose first call fails.
const LOCKS: &[Lock] = &[
    Lock {
        name: "a",
        refused: Some(LockFault::Failed),
    },
    Lock {
        name: "a",
        refused: None,
    },
    Lock {
        name: "b",
        refused: None,
    },
    Lock {
        name: "a",
        refused: Some(LockFault::InUse),
    },
    Lock {
        name: "b",
        refused: Some(LockFault::InUse),
    },
];

/// After the name `a` was unlocked.
const AGAIN: &[Lock] = &[
    Lock {
        name: "b",
        refused: Some(LockFault::InUse),
    },
    Lock {
        name: "a",
        refused: None,
    },
    Lock {
        name: "a",
        refused: Some(LockFault::InUse),
    },
];

#[test]
fn locks_in_memory(rt: HostRuntime) -> Result<(), Fail> {
    let alloc = rt.alloc();
    let mut store = store_of(alloc, &[("i", "balances 3")], &[1])?;
    let mut found = Found::new();
    lock_each(alloc, &mut found, &mut store, LOCKS);
    store.unlock("no name that is locked");
    store.unlock("a");
    lock_each(alloc, &mut found, &mut store, AGAIN);
    found.must(store.faults() == 1, "a name in use is a fault");
    found.ended()
}

/// Of the system's files.
const FILE_SIZES: &[Size] = &[
    Size {
        name: NAME,
        size: Some(0),
        fails: false,
    },
    Size {
        name: LONG,
        size: Some(11),
        fails: false,
    },
    Size {
        name: MISSING,
        size: None,
        fails: false,
    },
    Size {
        name: FOLDER,
        size: None,
        fails: true,
    },
];

/// Makes a folder with an empty file and a longer one.
fn make_files(rt: &HostRuntime, found: &mut Found) {
    make_folder(rt, found, FOLDER);
    found.must(fs::write(rt, NAME, "").is_ok(), "no empty file");
    found.must(fs::write(rt, LONG, "balances 3\n").is_ok(), "no file");
}

/// Removes these.
fn remove_files(rt: &HostRuntime, found: &mut Found) {
    remove(rt, found, NAME);
    remove(rt, found, LONG);
    remove_folder(rt, found, FOLDER);
}

/// Whether a name is had by a store that is then dropped.
fn is_had(rt: &HostRuntime, name: &str) -> bool {
    let mut store = FileStore::new(rt);
    store.lock(rt.alloc(), name).is_ok()
}

/// Whether another store is refused since the name is in use.
fn is_in_use(rt: &HostRuntime, name: &str) -> bool {
    let mut store = FileStore::new(rt);
    store.lock(rt.alloc(), name).err() == Some(LockFault::InUse)
}

/// Locks a name, and asks for it from another store.
fn lock_between(rt: &HostRuntime, found: &mut Found, name: &str) {
    let mut store = FileStore::new(rt);
    found.must(store.lock(rt.alloc(), name).is_ok(), "not locked");
    let again = store.lock(rt.alloc(), name).err();
    found.must(again == Some(LockFault::InUse), "locked twice by one store");
    found.must(is_in_use(rt, name), "locked by two stores");
    store.unlock(name);
    found.must(is_had(rt, name), "not had after it was unlocked");
    found.must(store.lock(rt.alloc(), name).is_ok(), "not had after a drop");
}

/// Asks for the sizes of the system's files.
fn size_files(rt: &HostRuntime, found: &mut Found) {
    let mut store = FileStore::new(rt);
    size_each(rt.alloc(), found, &mut store, FILE_SIZES);
}

#[test]
fn names_of_the_system(rt: HostRuntime) -> Result<(), Fail> {
    let mut found = Found::new();
    make_files(&rt, &mut found);
    size_files(&rt, &mut found);
    lock_between(&rt, &mut found, LONG);
    found.must(is_file(&rt, LONG, b"balances 3\n"), "a lock changed it");
    found.must(is_had(&rt, MISSING), "no file was made to be locked");
    remove(&rt, &mut found, MISSING);
    remove_files(&rt, &mut found);
    found.must(!is_had(&rt, MISSING), "locked where there is no folder");
    found.must(!is_had(&rt, "."), "a folder was locked");
    found.ended()
}

/// Whether that is the failed call, and how a message tells it.
fn is_told(alloc: Global, call: FailedCall<'_>, wanted: FailedCall<'_>, text: &str) -> bool {
    match format!(in alloc; "{call}") {
        Ok(told) => call == wanted && told.as_str() == text,
        Err(_) => false,
    }
}

/// Reads a file that is not there, and looks at the last call that failed before and after.
fn read_missing(rt: &HostRuntime, found: &mut Found, name: &str, text: &str) {
    let mut store = FileStore::new(rt);
    found.must(store.last_fault().is_none(), "a fault before any");
    found.must(store.read(rt.alloc(), name, 8).is_err(), "read");
    let wanted = FailedCall {
        kind: FaultKind::Read,
        name,
        number: Some(2),
    };
    let told = match store.last_fault() {
        Some(call) => is_told(rt.alloc(), call, wanted, text),
        None => false,
    };
    found.must(told, "another fault told");
}

#[test]
fn the_last_fault(rt: HostRuntime) -> Result<(), Fail> {
    let mut found = Found::new();
    let text = "read onll_no_file: No such file or directory (os error 2)";
    read_missing(&rt, &mut found, "onll_no_file", text);
    found.ended()
}
