//! Logs that a thread log or a replay wrote, shown and recovered by the program.

use crate::calls::Program;
use onll_log::{LogHead, ThreadLog, entry_head};
use onll_model::{Node, node_line};
use onll_pmem::MemPmem;
use onll_words::{Line, OpRow, line_bytes};
use std::alloc::{AllocError, Global};
use std::process::Abort;
use std::sync::Wait;
use std::test::Fail;
use std::thread::Threads;

/// The first update of thread 0, `deposit 0 5`, and that of thread 1, `deposit 1 7`.
const NODES: [Node; 2] = [
    Node {
        thread: 0,
        number: 1,
        row: OpRow {
            w: [1, 0, 5, 0, 0, 0, 0],
        },
    },
    Node {
        thread: 1,
        number: 1,
        row: OpRow {
            w: [1, 1, 7, 0, 0, 0, 0],
        },
    },
];

/// The bytes of an image's file.
fn bytes_of(alloc: Global, image: &[Line]) -> Result<Vec<u8>, AllocError> {
    let mut bytes = Vec::new(alloc);
    for line in image {
        bytes.extend_from_slice(&line_bytes(*line))?;
    }
    Ok(bytes)
}

/// The device under a log of thread 1 of 2 over `bank 2` that was given one entry of both threads'
/// first updates. Its fences of these numbers fail: the first is the header's, the second the entry's.
fn device_of_both(alloc: Global, failing: &[u64]) -> Result<MemPmem, Fail> {
    let device = MemPmem::new(alloc, 8, Vec::from_slice(alloc, failing)?)?;
    let head = LogHead::new(1, 2, 1, b"bank 2\n");
    let Some(mut log) = ThreadLog::make(device, head).ok() else {
        return Err(Fail::new(format_args!("not made")));
    };
    let _appended = log.append(2, &NODES);
    Ok(log.into_device())
}

const BOTH_SHOWN: &str = "log thread 1 threads 2 object bank\n\
     entry 1 place 2 count 2\n\
     row 1 0 1 1 0 5 0 0 0 0\n\
     row 2 1 1 1 1 7 0 0 0 0\n\
     entries 1 lines 4\n";

const NONE_SHOWN: &str = "log thread 1 threads 2 object bank\nentries 0 lines 1\n";

/// The fences that fail, which pending words are kept, and what is shown of that log.
const SHOWN: &[(&[u64], u64, &str)] = &[
    (&[], 0, BOTH_SHOWN),
    (&[2], 0, NONE_SHOWN),
    (&[2], u64::MAX, BOTH_SHOWN),
];

/// The file that this log leaves, of whose pending words these are kept.
fn file_of_both(alloc: Global, failing: &[u64], keep: u64) -> Result<Vec<u8>, Fail> {
    let image = device_of_both(alloc, failing)?.image(alloc, keep)?;
    Ok(bytes_of(alloc, &image)?)
}

/// What `show` prints of a file of these bytes is this.
fn shows<R: Abort + Threads + Wait + Sync>(
    rt: &R,
    alloc: Global,
    bytes: &[u8],
    output: &str,
) -> Result<(), Fail> {
    let files: &[(&str, &[u8])] = &[("x", bytes)];
    Program::new(&["show", "x"], files).expect(rt, alloc, "a thread's log", 0, output)
}

#[test]
fn a_log_that_a_thread_wrote(rt: HostRuntime) -> Result<(), Fail> {
    for (failing, keep, output) in SHOWN {
        let bytes = file_of_both(rt.alloc(), failing, *keep)?;
        shows(&rt, rt.alloc(), &bytes, output)?;
    }
    Ok(())
}

/// The file of a log of format 1 that has thread 0's first update.
fn file_of_format_1(alloc: Global) -> Result<Vec<u8>, AllocError> {
    let head = LogHead::of_format(1, 0, 1, 1, b"bank 1\n");
    let image = [
        head.line(),
        entry_head(head, 1, 1, &NODES[..1]),
        node_line(NODES[0]),
    ];
    bytes_of(alloc, &image)
}

#[test]
fn a_log_of_format_1(rt: HostRuntime) -> Result<(), Fail> {
    let bytes = file_of_format_1(rt.alloc())?;
    recovers(
        &rt,
        rt.alloc(),
        &bytes,
        "log 0 entries 1 lines 3\nrecovered 1\nnode 1 0 1 deposit 0 5\nstate\nbank 1\naccount 0 5\n",
    )
}

/// One thread whose first update returned, and of whose second update one word is kept, the entry's
/// first.
const TORN_FILES: &[(&str, &[u8])] = &[
    ("i", b"bank 1\n"),
    ("c", b"0 15\ncrash 1\n"),
    ("s", b"deposit 0 5\ndeposit 0 7\n"),
];

/// One thread whose update is fenced and has not returned.
const FENCED_FILES: &[(&str, &[u8])] = &[
    ("i", b"bank 1\n"),
    ("c", b"0 7\ncrash 0\n"),
    ("s", b"deposit 0 5\n"),
];

/// What a replay of one thread over these files prints, and the image that it leaves.
fn replayed<R: Abort + Threads + Wait + Sync>(
    rt: &R,
    alloc: Global,
    files: &[(&str, &[u8])],
    output: &str,
) -> Result<Vec<u8>, Fail> {
    let program = Program::new(&["replay", "i", "c", "out", "s"], files);
    let mut store = program.store(alloc)?;
    program
        .run_over(rt, alloc, &mut store)?
        .expect("a replay", 0, output)?;
    let image = Vec::from_slice(alloc, store.file("out.0").unwrap_or(b""))?;
    Ok(image)
}

/// A recovery of one thread over `bank 1` from this image prints this.
fn recovers<R: Abort + Threads + Wait + Sync>(
    rt: &R,
    alloc: Global,
    image: &[u8],
    output: &str,
) -> Result<(), Fail> {
    let files: &[(&str, &[u8])] = &[("i", b"bank 1\n"), ("out.0", image)];
    Program::new(&["recover", "i", "out", "1"], files).expect(rt, alloc, "a recovery", 0, output)
}

#[test]
fn what_stands_before_a_torn_tail(rt: HostRuntime) -> Result<(), Fail> {
    let image = replayed(
        &rt,
        rt.alloc(),
        TORN_FILES,
        "call 0 1 deposit 0 5 -> ok at 1\n\
         call 0 2 deposit 0 7 -> ordered at 2\n\
         trace 2\n\
         node 1 0 1 set deposit 0 5\n\
         node 2 0 2 unset deposit 0 7\n\
         crash 1\n\
         log 0 entries 1 lines 3 fences 1\n\
         recovered 1\n\
         state\n\
         bank 1\n\
         account 0 5\n",
    )?;
    let begun = image.get(192..200).unwrap_or(b"");
    assert!(rt;
        begun == b"ONLLENT1".as_slice(),
        "the second entry is begun"
    );
    recovers(
        &rt,
        rt.alloc(),
        &image,
        "log 0 entries 1 lines 3\nrecovered 1\nnode 1 0 1 deposit 0 5\nstate\nbank 1\naccount 0 5\n",
    )?;
    Ok(())
}

#[test]
fn a_replayed_image_that_is_cut(rt: HostRuntime) -> Result<(), Fail> {
    let mut image = replayed(
        &rt,
        rt.alloc(),
        FENCED_FILES,
        "call 0 1 deposit 0 5 -> ordered at 1\n\
         trace 1\n\
         node 1 0 1 unset deposit 0 5\n\
         crash 0\n\
         log 0 entries 1 lines 3 fences 1\n\
         recovered 1\n\
         state\n\
         bank 1\n\
         account 0 5\n",
    )?;
    image.truncate(150);
    recovers(
        &rt,
        rt.alloc(),
        &image,
        "log 0 entries 0 lines 1\nrecovered 0\nstate\nbank 1\naccount 0 0\n",
    )?;
    Ok(())
}
