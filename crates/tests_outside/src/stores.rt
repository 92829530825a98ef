//! Stores in memory and of the system's files, and what they give and take.

use crate::checks::{Found, is_file, remove};
use onll_outside::{FileStore, MemSink, MemStore, Named, OutsideFault, Sink, Store};
use std::alloc::{AllocError, Global};
use std::fs;
use std::test::Fail;

/// A file of that name and text.
fn file_of(alloc: Global, name: &str, text: &str) -> Result<Named, AllocError> {
    let name = String::from_str(alloc, name)?;
    Ok(Named {
        name,
        bytes: Vec::from_slice(alloc, text.as_bytes())?,
    })
}

fn files_of(alloc: Global, texts: &[(&str, &str)]) -> Result<Vec<Named>, AllocError> {
    let mut files = Vec::new(alloc);
    for (name, text) in texts {
        files.push(file_of(alloc, name, text)?)?;
    }
    Ok(files)
}

/// A store in memory of these files, whose calls of these numbers fail.
pub(crate) fn store_of(
    alloc: Global,
    texts: &[(&str, &str)],
    failing: &[u64],
) -> Result<MemStore, AllocError> {
    let files = files_of(alloc, texts)?;
    let failing = Vec::from_slice(alloc, failing)?;
    Ok(MemStore::new(files, failing, Vec::new(alloc)))
}

/// Puts what a file gives.
fn copy<S: Store, K: Sink>(
    alloc: Global,
    store: &mut S,
    name: &str,
    limit: u64,
    sink: &mut K,
) -> Result<(), OutsideFault> {
    let bytes = store.read(alloc, name, limit)?;
    sink.put(&bytes)
}

/// A read of a store: the file, the limit, whether it fails, and what the sink has taken then.
struct Read {
    name: &'static str,
    limit: u64,
    fails: bool,
    taken: &'static str,
}

/// Makes one read, and checks what came of it.
fn make_read<S: Store>(
    alloc: Global,
    found: &mut Found,
    store: &mut S,
    sink: &mut MemSink,
    read: &Read,
) {
    let answer = copy(alloc, store, read.name, read.limit, sink);
    found.must(answer.is_err() == read.fails, read.name);
    found.must(sink.taken() == read.taken.as_bytes(), read.taken);
}

/// Makes reads in turn.
fn read_each<S: Store>(
    alloc: Global,
    found: &mut Found,
    store: &mut S,
    sink: &mut MemSink,
    reads: &[Read],
) {
    for each in reads {
        make_read(alloc, found, store, sink, each);
    }
}

/// The files of a store in memory, of which the third has the first one's name.
const TEXTS: &[(&str, &str)] = &[("i", "balances 3"), ("s", "deposit"), ("i", "other")];

/// Of a store in memory whose first two calls fail.
const READS: &[Read] = &[
    Read {
        name: "i",
        limit: 100,
        fails: true,
        taken: "",
    },
    Read {
        name: "s",
        limit: 100,
        fails: true,
        taken: "",
    },
    Read {
        name: "i",
        limit: 100,
        fails: false,
        taken: "balances 3",
    },
    Read {
        name: "s",
        limit: 3,
        fails: false,
        taken: "balances 3dep",
    },
    Read {
        name: "t",
        limit: 100,
        fails: true,
        taken: "balances 3dep",
    },
    Read {
        name: "s",
        limit: 0,
        fails: false,
        taken: "balances 3dep",
    },
    Read {
        name: "s",
        limit: 7,
        fails: false,
        taken: "balances 3depdeposit",
    },
];

#[test]
fn a_store_in_memory(rt: HostRuntime) -> Result<(), Fail> {
    let alloc = rt.alloc();
    let mut store = store_of(alloc, TEXTS, &[1, 2])?;
    let mut sink = MemSink::new(alloc, Vec::new(alloc));
    let mut found = Found::new();
    read_each(alloc, &mut found, &mut store, &mut sink, READS);
    found.must(store.file("i") == Some(b"balances 3".as_slice()), "changed");
    found.must(store.file("t").is_none(), "made by a read");
    found.must(store.faults() == 3 && sink.faults() == 0, "other faults");
    found.ended()
}

const NAME: &str = "onll_outside_test_file";

/// Of the system's files, one of which is there. A folder opens, and then can't be read.
const FILE_READS: &[Read] = &[
    Read {
        name: NAME,
        limit: 100,
        fails: false,
        taken: "balances 3\n",
    },
    Read {
        name: NAME,
        limit: 8,
        fails: false,
        taken: "balances 3\nbalances",
    },
    Read {
        name: "onll_outside_no_file",
        limit: 8,
        fails: true,
        taken: "balances 3\nbalances",
    },
    Read {
        name: ".",
        limit: 8,
        fails: true,
        taken: "balances 3\nbalances",
    },
    Read {
        name: NAME,
        limit: 1,
        fails: false,
        taken: "balances 3\nbalancesb",
    },
];

/// Makes the reads of the system's files.
fn read_files(rt: &HostRuntime, found: &mut Found) {
    let mut store = FileStore::new(rt);
    let mut sink = MemSink::new(rt.alloc(), Vec::new(rt.alloc()));
    read_each(rt.alloc(), found, &mut store, &mut sink, FILE_READS);
}

#[test]
fn files_of_the_system(rt: HostRuntime) -> Result<(), Fail> {
    let mut found = Found::new();
    found.must(fs::write(&rt, NAME, "balances 3\n").is_ok(), "no file");
    read_files(&rt, &mut found);
    remove(&rt, &mut found, NAME);
    found.ended()
}

/// A write of a store in memory: the file, its text, whether it fails, and what the file is then.
struct Write {
    name: &'static str,
    text: &'static str,
    fails: bool,
    left: &'static str,
}

/// Of a store in memory whose second call fails.
const WRITES: &[Write] = &[
    Write {
        name: "out.0",
        text: "one",
        fails: false,
        left: "one",
    },
    Write {
        name: "out.0",
        text: "two",
        fails: true,
        left: "one",
    },
    Write {
        name: "i",
        text: "",
        fails: false,
        left: "",
    },
];

/// Makes one write, and checks what it left.
fn make_write(alloc: Global, found: &mut Found, store: &mut MemStore, write: &Write) {
    let answer = store.write(alloc, write.name, write.text.as_bytes());
    found.must(answer.is_err() == write.fails, write.text);
    let left = store.file(write.name);
    found.must(left == Some(write.left.as_bytes()), write.left);
}

#[test]
fn files_are_written(rt: HostRuntime) -> Result<(), Fail> {
    let alloc = rt.alloc();
    let mut store = store_of(alloc, &[("i", "balances 3")], &[2])?;
    let mut found = Found::new();
    for each in WRITES {
        make_write(alloc, &mut found, &mut store, each);
    }
    let first = store.file("out.0");
    found.must(first == Some(b"one".as_slice()), "changed by another");
    found.ended()
}

/// Whether the system takes a text as the file of that name.
fn is_written(rt: &HostRuntime, name: &str, text: &str) -> bool {
    let mut store = FileStore::new(rt);
    store.write(rt.alloc(), name, text.as_bytes()).is_ok()
}

#[test]
fn files_of_the_system_are_written(rt: HostRuntime) -> Result<(), Fail> {
    let name = "onll_outside_test_written";
    let mut found = Found::new();
    found.must(is_written(&rt, name, "a longer text"), "not written");
    found.must(is_written(&rt, name, "short"), "not written again");
    found.must(is_file(&rt, name, b"short"), "another text");
    remove(&rt, &mut found, name);
    // A folder is no file to be written.
    found.must(!is_written(&rt, ".", "text"), "a folder was written");
    found.ended()
}
