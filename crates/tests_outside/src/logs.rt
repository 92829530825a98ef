//! A log over a real file, beside one over a device in memory that took the same calls.

ghost use Rattle.std.specs.Prelude.{◌^◌, ◌<◌, ◌≤◌};
ghost use Rattle.onll_pmem.specs.Pmem.{words_of, ToldSettled};
ghost use Rattle.onll_outside.specs.Views.{BeginsWith, image_bytes};

use crate::checks::{Found, bytes_of, is_file, make_folder, remove, remove_folder};
use onll_log::{Decoded, LogHead, ThreadLog, decode, image_lines};
use onll_model::Node;
use onll_outside::{FileStore, Store};
use onll_pmem::{MemPmem, Pmem};
use onll_words::{Line, OpRow};
use std::alloc::Global;
use std::test::Fail;

/// How many lines the devices have.
const LINES: u64 = 12;

/// The folder of a test, and the file of its log.
const FOLDER: &str = "onll_tests_files";

const NAME: &str = "onll_tests_files/log.0";

/// The same of the second test.
const NEXT_FOLDER: &str = "onll_tests_next";

const NEXT_NAME: &str = "onll_tests_next/log.0";

/// Appends a deposit of the first account at the next place, where the log is of one thread and has room.
fn deposit<P: Pmem>(log: &mut ThreadLog<P>, amount: u64) -> bool {
    let place = log.last_place();
    if log.broken() || log.head().threads != 1 || log.free_lines() < 2 || place >= 4096 {
        return false;
    }
    let node = Node {
        thread: 0,
        number: place + 1,
        row: OpRow {
            w: [1, 0, amount, 0, 0, 0, 0],
        },
    };
    log.append(place + 1, &[node]).is_ok()
}

/// A log of this format on a new device.
fn made<P: Pmem + Drop>(device: P, format: u64) -> Option<ThreadLog<P>>
    requires format { (1 ≤ format) × (format ≤ 2) }
    requires few { (P.means device).fences < 2 ^ 32 }
    requires settled { ToldSettled (P.means device).told (P.means device).read }
{
    let head = LogHead::of_format(format, 0, 1, 1, b"bank 1\n");
    ThreadLog::make(device, head).ok()
}

/// Three deposits.
fn deposit_three<P: Pmem>(log: &mut ThreadLog<P>) -> bool {
    deposit(log, 5) && deposit(log, 6) && deposit(log, 7)
}

/// A log of this format on a new device, with three deposits.
fn three<P: Pmem + Drop>(device: P, format: u64) -> Option<ThreadLog<P>>
    requires format { (1 ≤ format) × (format ≤ 2) }
    requires few { (P.means device).fences < 2 ^ 32 }
    requires settled { ToldSettled (P.means device).told (P.means device).read }
{
    let mut log = made(device, format)?;
    if deposit_three(&mut log) {
        Some(log)
    } else {
        None
    }
}

/// A log of this format in memory, with three deposits.
fn in_memory(alloc: Global, format: u64) -> Option<ThreadLog<MemPmem>>
    requires { (1 ≤ format) × (format ≤ 2) }
{
    let device = MemPmem::new(alloc, LINES, Vec::new(alloc)).ok()?;
    three(device, format)
}

/// The bytes of what a crash leaves of a log's device that loses all that is pending.
fn image_of(alloc: Global, log: &ThreadLog<MemPmem>) -> Option<Vec<u8>> {
    let image = log.device().image(alloc, 0).ok()?;
    bytes_of(alloc, &image).ok()
}

/// The bytes of a log of this format in memory, with three deposits.
fn three_in_memory(alloc: Global, format: u64) -> Option<Vec<u8>>
    requires { (1 ≤ format) × (format ≤ 2) }
{
    let log = in_memory(alloc, format)?;
    image_of(alloc, &log)
}

/// Keeps a log of this format with three deposits in the file of that name.
fn keep_three<S: Store>(alloc: Global, store: &mut S, name: &str, format: u64) -> bool
    requires { (1 ≤ format) × (format ≤ 2) }
{
    let Ok(device) = store.device(alloc, name, LINES) else {
        return false;
    };
    match three(device, format) {
        Some(log) => store.keep(alloc, name, log.into_device()).is_ok(),
        None => false,
    }
}

/// What a store reads of the file of that name after a log of this format with three deposits was kept in it.
fn kept<S: Store>(alloc: Global, store: &mut S, name: &str, format: u64) -> Option<Vec<u8>>
    requires { (1 ≤ format) × (format ≤ 2) }
{
    if !keep_three(alloc, store, name, format) {
        return None;
    }
    store.read(alloc, name, 10_000).ok()
}

/// The bytes of a log of this format with three deposits that was kept in the file of that name.
fn kept_bytes(rt: &HostRuntime, name: &str, format: u64) -> Option<Vec<u8>>
    requires { (1 ≤ format) × (format ≤ 2) }
{
    let mut store = FileStore::new(rt);
    kept(rt.alloc(), &mut store, name, format)
}

/// Whether three entries and a head of this format were read.
fn are_three(decoded: &Decoded, format: u64) -> bool {
    match decoded.head {
        Some(head) => head.format == format && decoded.entries.as_slice().len() == 3,
        None => false,
    }
}

/// Whether the bytes hold three entries of a log of this format.
fn three_entries(alloc: Global, bytes: &[u8], format: u64) -> bool {
    let Ok(lines) = image_lines(alloc, bytes) else {
        return false;
    };
    match decode(alloc, &lines) {
        Ok(decoded) => are_three(&decoded, format),
        Err(_) => false,
    }
}

/// A log over a file is the same as one in memory.
fn compare(rt: &HostRuntime, found: &mut Found, format: u64)
    requires { (1 ≤ format) × (format ≤ 2) }
{
    let Some(bytes) = kept_bytes(rt, NAME, format) else {
        return found.must(false, "no log in a file");
    };
    let Some(image) = three_in_memory(rt.alloc(), format) else {
        return found.must(false, "no log in memory");
    };
    found.must(bytes == image, "another image");
    found.must(is_file(rt, NAME, &bytes), "another file");
    found.must(
        three_entries(rt.alloc(), &bytes, format),
        "other entries or another format",
    );
}

#[test]
fn a_log_over_a_file(rt: HostRuntime) -> Result<(), Fail> {
    let mut found = Found::new();
    make_folder(&rt, &mut found, FOLDER);
    compare(&rt, &mut found, 1);
    compare(&rt, &mut found, 2);
    remove(&rt, &mut found, NAME);
    remove_folder(&rt, &mut found, FOLDER);
    found.ended()
}

/// Goes on in the log of format 2 that these lines of a file hold, where nothing stands after it.
fn go_on<S: Store>(
    alloc: Global,
    store: &mut S,
    name: &str,
    lines: &[Line],
) -> Option<ThreadLog<S::Dev>>
    requires { BeginsWith (S.Store.seen store.old) name.now (image_bytes (words_of lines.now)) }
{
    let Ok(decoded) = decode(alloc, lines) else {
        return None;
    };
    if decoded.head.is_none_or(|head| head.format != 2) || !decoded.only_zeros_after(lines) {
        return None;
    }
    if lines.len() > 100 {
        return None;
    }
    let Ok(device) = store.reopen(alloc, name, lines, lines.len() as u64) else {
        return None;
    };
    Some(ThreadLog::open(device, &decoded))
}

/// Goes on in the log of these bytes and lines that a file holds with a fourth deposit: the file then is this image.
fn add_fourth<S: Store>(
    rt: &HostRuntime,
    found: &mut Found,
    store: &mut S,
    name: &str,
    lines: &[Line],
    texts: (&[u8], &[u8]),
)
    requires { BeginsWith (S.Store.seen store.old) name.now (image_bytes (words_of lines.now)) }
{
    let Some(mut log) = go_on(rt.alloc(), store, name, lines) else {
        return found.must(false, "no log to go on in");
    };
    found.must(is_file(rt, name, texts.0), "changed by reopening");
    found.must(deposit(&mut log, 8), "no fourth entry");
    found.must(is_file(rt, name, texts.1), "another fourth entry");
}

/// Goes on in the log that a file holds with a fourth deposit, whose bytes are then those of this image.
fn go_on_with(rt: &HostRuntime, found: &mut Found, bytes: &[u8], image: &[u8]) {
    let Ok(lines) = image_lines(rt.alloc(), bytes) else {
        return found.must(false, "no lines");
    };
    let mut store = FileStore::new(rt);
    add_fourth(rt, found, &mut store, NEXT_NAME, &lines, (bytes, image));
}

/// The bytes of a log in memory with four deposits.
fn four_in_memory(alloc: Global) -> Option<Vec<u8>> {
    let mut log = in_memory(alloc, 2)?;
    if !deposit(&mut log, 8) {
        return None;
    }
    image_of(alloc, &log)
}

/// A log over a file goes on as one in memory does.
fn go_on_as_memory(rt: &HostRuntime, found: &mut Found) {
    let Some(bytes) = kept_bytes(rt, NEXT_NAME, 2) else {
        return found.must(false, "no log in a file");
    };
    match four_in_memory(rt.alloc()) {
        Some(image) => go_on_with(rt, found, &bytes, &image),
        None => found.must(false, "no fourth entry in memory"),
    }
}

#[test]
fn a_log_over_a_file_goes_on(rt: HostRuntime) -> Result<(), Fail> {
    let mut found = Found::new();
    make_folder(&rt, &mut found, NEXT_FOLDER);
    go_on_as_memory(&rt, &mut found);
    remove(&rt, &mut found, NEXT_NAME);
    remove_folder(&rt, &mut found, NEXT_FOLDER);
    found.ended()
}
