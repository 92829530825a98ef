//! Files of lines: what is read of them, and what writing them makes.

use crate::checks::{EMPTY, Found, bytes_of, is_file, remove};
use crate::plain_store::PlainStore;
use onll_outside::{FileStore, MemStore, Named, OutsideFault, Store};
use onll_words::Line;
use std::alloc::{AllocError, Global};
use std::fs;
use std::test::Fail;

const NAME: &str = "onll_outside_test_lines";

/// A file of lines, then lines of zeros, then bytes that are less than a line; how many bytes of it are read, and how many
/// lines these have, without those of zeros at their end and with them.
struct Case {
    lines: u64,
    zeros: u64,
    rest: usize,
    limit: u64,
    front: u64,
    count: u64,
}

/// More than the bytes of any of these files.
const ALL: u64 = 1_000_000;

/// A part of a file that is read or written at once has 1,024 lines. Lines 1,000 to 2,199 are always of zeros.
const CASES: &[Case] = &[
    Case {
        lines: 3000,
        zeros: 0,
        rest: 0,
        limit: ALL,
        front: 3000,
        count: 3000,
    },
    Case {
        lines: 2300,
        zeros: 2000,
        rest: 63,
        limit: ALL,
        front: 2300,
        count: 4300,
    },
    Case {
        lines: 2300,
        zeros: 1,
        rest: 5,
        limit: 64 * 2100 + 7,
        front: 1000,
        count: 2100,
    },
    Case {
        lines: 1000,
        zeros: 24,
        rest: 1,
        limit: 64 * 1024,
        front: 1000,
        count: 1024,
    },
    Case {
        lines: 0,
        zeros: 1025,
        rest: 0,
        limit: ALL,
        front: 1,
        count: 1025,
    },
    Case {
        lines: 0,
        zeros: 0,
        rest: 63,
        limit: ALL,
        front: 0,
        count: 0,
    },
    Case {
        lines: 2,
        zeros: 1,
        rest: 0,
        limit: 63,
        front: 0,
        count: 0,
    },
];

/// A line of the file, from 0.
fn line(case: &Case, number: u64) -> Line {
    if number < case.lines && (number < 1000 || number >= 2200) {
        Line { w: [number | 1; 8] }
    } else {
        EMPTY
    }
}

/// The first lines of the file.
fn lines_of(alloc: Global, case: &Case, count: u64) -> Result<Vec<Line>, AllocError> {
    let mut lines = Vec::new(alloc);
    for number in 0..count {
        lines.push(line(case, number))?;
    }
    Ok(lines)
}

/// How many lines the file has.
fn all_lines(case: &Case) -> u64 {
    case.lines.saturating_add(case.zeros)
}

/// The bytes of all lines of the file.
fn bytes_of_lines(alloc: Global, case: &Case) -> Result<Vec<u8>, AllocError> {
    let lines = lines_of(alloc, case, all_lines(case))?;
    bytes_of(alloc, &lines)
}

/// The bytes of the file.
fn file_of(alloc: Global, case: &Case) -> Result<Vec<u8>, AllocError> {
    let mut bytes = bytes_of_lines(alloc, case)?;
    let all = bytes.len().saturating_add(case.rest);
    bytes.resize(all, 7)?;
    Ok(bytes)
}

/// Whether these are the first lines of the file that are read, without those of zeros at their end.
fn is_front(alloc: Global, case: &Case, lines: &[Line]) -> bool {
    match lines_of(alloc, case, case.front) {
        Ok(wanted) => wanted.as_slice() == lines,
        Err(_) => false,
    }
}

/// Whether the file is read so.
fn is_read<S: Store>(alloc: Global, store: &mut S, case: &Case) -> bool {
    match store.read_lines(alloc, NAME, case.limit) {
        Ok(read) => read.count == case.count && is_front(alloc, case, &read.front),
        Err(_) => false,
    }
}

/// Whether these lines, and then lines of zeros, are taken as the file.
fn takes<S: Store>(alloc: Global, store: &mut S, front: &[Line], count: u64) -> bool {
    front.len() as u64 <= count && store.write_lines(alloc, NAME, front, count).is_ok()
}

/// Whether the lines and the zeros after them are taken.
fn is_taken<S: Store>(alloc: Global, store: &mut S, case: &Case) -> bool {
    match lines_of(alloc, case, case.lines) {
        Ok(front) => takes(alloc, store, &front, all_lines(case)),
        Err(_) => false,
    }
}

/// A store in memory of the file.
fn store_of(alloc: Global, case: &Case) -> Result<MemStore, AllocError> {
    let mut files = Vec::new(alloc);
    files.push(Named {
        name: String::from_str(alloc, NAME)?,
        bytes: file_of(alloc, case)?,
    })?;
    Ok(MemStore::new(files, Vec::new(alloc), Vec::new(alloc)))
}

/// Whether the file in memory is the one of all lines, with nothing after them.
fn is_kept(alloc: Global, store: &MemStore, case: &Case) -> bool {
    match bytes_of_lines(alloc, case) {
        Ok(wanted) => store.file(NAME) == Some(wanted.as_slice()),
        Err(_) => false,
    }
}

/// Reads the file in memory, and writes it anew.
fn read_and_write(alloc: Global, found: &mut Found, store: &mut MemStore, case: &Case) {
    found.must(is_read(alloc, store, case), "read otherwise");
    found.must(is_taken(alloc, store, case), "not written");
    found.must(is_kept(alloc, store, case), "written otherwise");
}

/// The same of a store of its own.
fn in_memory(alloc: Global, found: &mut Found, case: &Case) {
    match store_of(alloc, case) {
        Ok(mut store) => read_and_write(alloc, found, &mut store, case),
        Err(_) => found.must(false, "no memory"),
    }
}

#[test]
fn lines_in_memory(rt: HostRuntime) -> Result<(), Fail> {
    let mut found = Found::new();
    for case in CASES {
        in_memory(rt.alloc(), &mut found, case);
    }
    found.ended()
}

/// Reads the file by the calls of lines that the trait has, and writes it anew.
fn in_a_plain_store(alloc: Global, found: &mut Found, case: &Case) {
    let Ok(files) = store_of(alloc, case) else {
        return found.must(false, "no memory");
    };
    let mut store = PlainStore { files };
    found.must(is_read(alloc, &mut store, case), "read otherwise");
    found.must(is_taken(alloc, &mut store, case), "not written");
    found.must(is_kept(alloc, &store.files, case), "written otherwise");
}

#[test]
fn lines_in_a_plain_store(rt: HostRuntime) -> Result<(), Fail> {
    let mut found = Found::new();
    for case in CASES {
        in_a_plain_store(rt.alloc(), &mut found, case);
    }
    found.ended()
}

/// Makes the file of the system.
fn make_file(rt: &HostRuntime, case: &Case) -> bool {
    match file_of(rt.alloc(), case) {
        Ok(bytes) => fs::write(rt, NAME, bytes.as_slice()).is_ok(),
        Err(_) => false,
    }
}

/// Whether the file of the system is the one of all lines, with nothing after them.
fn holds_lines(rt: &HostRuntime, case: &Case) -> bool {
    match bytes_of_lines(rt.alloc(), case) {
        Ok(wanted) => is_file(rt, NAME, &wanted),
        Err(_) => false,
    }
}

/// Reads the file of the system, and writes it anew.
fn in_a_file(rt: &HostRuntime, found: &mut Found, case: &Case) {
    let mut store = FileStore::new(rt);
    found.must(make_file(rt, case), "no file");
    found.must(is_read(rt.alloc(), &mut store, case), "read otherwise");
    found.must(is_taken(rt.alloc(), &mut store, case), "not written");
    found.must(holds_lines(rt, case), "written otherwise");
}

#[test]
fn lines_in_files(rt: HostRuntime) -> Result<(), Fail> {
    let mut found = Found::new();
    for case in CASES {
        in_a_file(&rt, &mut found, case);
    }
    remove(&rt, &mut found, NAME);
    found.ended()
}

/// Whether the outside fails where lines of that file are read.
fn read_fails(rt: &HostRuntime, name: &str) -> bool {
    let mut store = FileStore::new(rt);
    let failed = store.read_lines(rt.alloc(), name, ALL).err();
    failed == Some(OutsideFault::Failed)
}

/// A folder opens, and then can't be read.
#[test]
fn lines_of_no_file(rt: HostRuntime) -> Result<(), Fail> {
    let mut found = Found::new();
    found.must(read_fails(&rt, "onll_outside_no_file"), "read");
    found.must(read_fails(&rt, "."), "a folder was read");
    found.ended()
}
