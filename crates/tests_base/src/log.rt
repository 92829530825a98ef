//! Tests of digests, images, entries and logs.

ghost use Rattle.std.specs.Prelude.{◌≡◌, ◌≤◌};

use onll_log::{DecodeFault, Entry, LogHead, MakeCause, ThreadLog, decode, entry_head, format_of};
use onll_model::{Node, node_line};
use onll_pmem::{FenceFailed, MemPmem, Pmem};
use onll_words::{Line, OpRow};
use std::alloc::{AllocError, Global};
use std::test::Fail;
use tests_found::Found;

/// An account's deposit of 5, and another's of 7 by another thread.
const NODES: [Node; 2] = [
    Node {
        thread: 0,
        number: 1,
        row: OpRow {
            w: [1, 0, 5, 0, 0, 0, 0],
        },
    },
    Node {
        thread: 1,
        number: 1,
        row: OpRow {
            w: [1, 1, 7, 0, 0, 0, 0],
        },
    },
];

const BANK: &[u8] = b"bank 2\n";

/// The digest of a log in format 1, and of its entry.
const OLD_DIGEST: [u64; 3] = [
    0x38f3_8831_aedd_c7da,
    0x1723_f9b5_c2e2_eecc,
    0x1c6f_5d3e_751f_cdbc,
];

const ENTRY_DIGEST: [u64; 3] = [
    0x0c4c_41b5_0fb4_76b8,
    0xb9cc_cea4_dcf4_548a,
    0xd228_5bf6_9dac_b318,
];

/// The digest of a log in format 2, and its first line.
const DIGEST: [u64; 3] = [
    0x16cf_6dc6_d60f_2caf,
    0xc50e_af29_da3c_f0e7,
    0x4e5e_a82e_cdc9_c1c4,
];

const HEAD_LINE: [u64; 8] = [
    0x3147_4f4c_4c4c_4e4f,
    2,
    1,
    2,
    1,
    0x16cf_6dc6_d60f_2caf,
    0xc50e_af29_da3c_f0e7,
    0x4e5e_a82e_cdc9_c1c4,
];

/// The last three words of a line.
fn last_words(line: Line) -> [u64; 3] {
    let [.., a, b, c] = line.w;
    [a, b, c]
}

#[test]
fn digests_are_those_of_another_sha_256() -> Result<(), Fail> {
    let mut found = Found::new();
    let head = LogHead::of_format(1, 1, 2, 1, BANK);
    found.must(head.digest == OLD_DIGEST, "the digest of a log in format 1");
    found.must(
        last_words(entry_head(head, 1, 2, &NODES)) == ENTRY_DIGEST,
        "the digest of an entry",
    );
    let head = LogHead::new(1, 2, 1, BANK);
    found.must(head.digest == DIGEST, "the digest of a log in format 2");
    found.must(head.line().w == HEAD_LINE, "the first line of a log");
    found.ended()
}

/// The first line of an entry of both nodes, and of one of the first alone.
const BOTH_LINE: [u64; 8] = [
    0x3154_4e45_4c4c_4e4f,
    1,
    1,
    2,
    2,
    0x8000_0000_0000_0f0b,
    0x8000_0000_0000_0000,
    0x8000_0000_0000_0000,
];

const FIRST_LINE: [u64; 8] = [
    0x3154_4e45_4c4c_4e4f,
    1,
    1,
    2,
    1,
    0x8000_0000_0000_000b,
    0x8000_0000_0000_0000,
    0x8000_0000_0000_0000,
];

#[test]
fn masks_of_an_entry() -> Result<(), Fail> {
    let mut found = Found::new();
    let head = LogHead::new(1, 2, 1, BANK);
    found.must(
        entry_head(head, 1, 2, &NODES).w == BOTH_LINE,
        "an entry of two nodes",
    );
    found.must(
        entry_head(head, 1, 2, &NODES[..1]).w == FIRST_LINE,
        "an entry of one node",
    );
    found.ended()
}

/// Makes a log of this format on a device of eight lines, and appends the two nodes.
fn appended(
    alloc: Global,
    format: u64,
    failing: Vec<u64>,
) -> Option<(ThreadLog<MemPmem>, Result<(), FenceFailed>)>
    requires { (1 ≤ format) × (format ≤ 2) }
{
    let device = MemPmem::new(alloc, 8, failing).ok()?;
    let head = LogHead::of_format(format, 1, 2, 1, BANK);
    let mut log = ThreadLog::make(device, head).ok()?;
    let result = log.append(2, &NODES);
    Some((log, result))
}

/// How many entries a log has, the place of the last of them, and how many fences were made for them.
fn counts(log: &ThreadLog<MemPmem>) -> (u64, u64, u64) {
    (log.entries(), log.last_place(), log.fences())
}

/// Whether these are so many entries, the first of them that of the two nodes.
fn are_entries(entries: &[Entry], count: usize) -> bool {
    if entries.len() != count {
        return false;
    }
    match entries.first() {
        Some(entry) => {
            entry.line == 1 && entry.place == 2 && entry.nodes.as_slice() == NODES.as_slice()
        }
        None => true,
    }
}

/// An image of the log's device holds so many entries, of which the first is the two nodes', and uses so many lines.
fn holds(
    alloc: Global,
    found: &mut Found,
    log: &ThreadLog<MemPmem>,
    keep: u64,
    entries: usize,
    used: u64,
) {
    let Ok(image) = log.device().image(alloc, keep) else {
        return found.must(false, "no image");
    };
    let Ok(decoded) = decode(alloc, &image) else {
        return found.must(false, "not decoded");
    };
    found.must(decoded.head == Some(log.head()), "an image's other head");
    found.must(decoded.used() == used, "an image's other used lines");
    found.must(
        are_entries(decoded.entries.as_slice(), entries),
        "an image's other entries",
    );
}

/// What a log of this format says of itself after the append.
fn tells_of_append(found: &mut Found, log: &ThreadLog<MemPmem>, format: u64) {
    found.must(counts(log) == (1, 2, 1), "other counts");
    found.must(log.lines() == 8, "other lines");
    found.must(log.free_lines() == 4, "other free lines");
    found.must(!log.broken(), "broken");
    found.must(log.head().format == format, "another format");
}

/// How many fences the device of a log took.
fn all_fences(log: ThreadLog<MemPmem>) -> u64 {
    log.into_device().fences()
}

/// An append to a log of this format is read back.
fn read_back(alloc: Global, found: &mut Found, format: u64)
    requires { (1 ≤ format) × (format ≤ 2) }
{
    let Some((log, result)) = appended(alloc, format, Vec::new(alloc)) else {
        return found.must(false, "no log");
    };
    found.must(result == Ok(()), "not appended");
    tells_of_append(found, &log, format);
    holds(alloc, found, &log, 0, 1, 4);
    found.must(all_fences(log) == 2, "other fences");
}

#[test]
fn an_append_is_read_back(rt: HostRuntime) -> Result<(), Fail> {
    let mut found = Found::new();
    read_back(rt.alloc(), &mut found, 1);
    read_back(rt.alloc(), &mut found, 2);
    found.ended()
}

/// A log of this format whose append's fence failed.
fn failed(alloc: Global, format: u64) -> Option<(ThreadLog<MemPmem>, Result<(), FenceFailed>)>
    requires { (1 ≤ format) × (format ≤ 2) }
{
    let failing = vec![in alloc; 2].ok()?;
    appended(alloc, format, failing)
}

/// An append to a log of this format whose fence fails is pending.
fn is_pending(alloc: Global, found: &mut Found, format: u64)
    requires { (1 ≤ format) × (format ≤ 2) }
{
    let Some((log, result)) = failed(alloc, format) else {
        return found.must(false, "no log");
    };
    found.must(result == Err(FenceFailed), "no failed fence");
    found.must(counts(&log) == (1, 2, 1), "other counts");
    found.must(log.broken(), "not broken");
    holds(alloc, found, &log, 0, 0, 1);
    holds(alloc, found, &log, 1, 0, 1);
    holds(alloc, found, &log, u64::MAX, 1, 4);
}

#[test]
fn an_append_whose_fence_fails_is_pending(rt: HostRuntime) -> Result<(), Fail> {
    let mut found = Found::new();
    is_pending(rt.alloc(), &mut found, 1);
    is_pending(rt.alloc(), &mut found, 2);
    found.ended()
}

/// Appends the two nodes where a log is for them and has room.
fn append_both(log: &mut ThreadLog<MemPmem>) -> bool {
    let threads = log.head().threads;
    if log.broken() || threads != 2 || log.last_place() != 0 || log.free_lines() < 3 {
        return false;
    }
    log.append(2, &NODES).is_ok()
}

/// Goes on in the log of format 2 that these lines hold, if nothing stands after it.
fn opened(alloc: Global, lines: Vec<Line>) -> Option<ThreadLog<MemPmem>> {
    let Ok(decoded) = decode(alloc, &lines) else {
        return None;
    };
    let Some(head) = decoded.head else {
        return None;
    };
    if head.format != 2 || lines.len() > 8 || !decoded.only_zeros_after(&lines) {
        return None;
    }
    let device = MemPmem::of_image(alloc, lines, Vec::new(alloc)).ok()?;
    Some(ThreadLog::open(device, &decoded))
}

/// Whether these lines hold a log of format 2, and something stands after it.
fn has_more(alloc: Global, lines: &[Line]) -> bool {
    let Ok(decoded) = decode(alloc, lines) else {
        return false;
    };
    match decoded.head {
        Some(head) => head.format == 2 && !decoded.only_zeros_after(lines),
        None => false,
    }
}

/// The first lines of an image, and zeros in the place of the others.
fn cut(alloc: Global, image: &[Line], used: usize) -> Result<Vec<Line>, AllocError> {
    let mut lines = Vec::new(alloc);
    for (i, line) in image.iter().enumerate() {
        lines.push(if i < used { *line } else { Line { w: [0; 8] } })?;
    }
    Ok(lines)
}

/// Goes on in the log that the first lines of an image hold, with zeros in the place of the others.
fn opened_front(alloc: Global, image: &[Line], used: usize) -> Option<ThreadLog<MemPmem>> {
    let lines = cut(alloc, image, used).ok()?;
    opened(alloc, lines)
}

/// The head of a log whose append's fence failed, and an image in which its entry is torn.
fn torn(alloc: Global) -> Option<(LogHead, Vec<Line>)> {
    let (log, _) = failed(alloc, 2)?;
    let image = log.device().image(alloc, 1).ok()?;
    Some((log.head(), image))
}

/// A log of this head without an entry takes the append.
fn go_on(alloc: Global, found: &mut Found, head: LogHead, mut log: ThreadLog<MemPmem>) {
    found.must(log.head() == head, "another head");
    found.must(counts(&log) == (0, 0, 0), "other counts before the append");
    found.must(append_both(&mut log), "not appended");
    found.must(counts(&log) == (1, 2, 1), "other counts after the append");
    found.must(log.device().fences() == 1, "other fences");
    holds(alloc, found, &log, 0, 1, 4);
}

#[test]
fn a_log_goes_on_after_a_crash(rt: HostRuntime) -> Result<(), Fail> {
    let alloc = rt.alloc();
    let (head, image) = torn(alloc).ok_or("no torn entry")?;
    let mut found = Found::new();
    found.must(has_more(alloc, &image), "nothing after the log");
    found.must(
        opened_front(alloc, &image, 8).is_none(),
        "a log before what is torn",
    );
    match opened_front(alloc, &image, 1) {
        Some(log) => go_on(alloc, &mut found, head, log),
        None => found.must(false, "no log to go on in"),
    }
    found.ended()
}

/// The lines of a log with two entries at one place.
fn lines_of_two(alloc: Global) -> Result<Vec<Line>, AllocError> {
    let head = LogHead::new(1, 2, 1, BANK);
    let [first, second] = [node_line(NODES[0]), node_line(NODES[1])];
    let one = entry_head(head, 1, 2, &NODES);
    let two = entry_head(head, 2, 2, &NODES);
    Ok(Vec::from_slice(
        alloc,
        &[head.line(), one, first, second, two, first, second],
    )?)
}

#[test]
fn a_log_whose_places_do_not_rise_goes_on(rt: HostRuntime) -> Result<(), Fail> {
    let alloc = rt.alloc();
    let lines = lines_of_two(alloc)?;
    let log = opened(alloc, lines).ok_or("no log to go on in")?;
    let mut found = Found::new();
    found.must(counts(&log) == (2, 2, 0), "other counts");
    found.ended()
}

/// Why no log is made on a device.
fn cause(device: MemPmem) -> Option<MakeCause>
    requires few { device.device.fences ≤ 1 }
    requires settled { device.device.fenced ≡ device.device.read }
{
    match ThreadLog::make(device, LogHead::new(0, 1, 4, b"lease 1\n")) {
        Ok(_) => None,
        Err(fault) => Some(fault.cause),
    }
}

/// Why no log is made on a new device on which these fences fail.
fn new_cause(alloc: Global, lines: u64, failing: Vec<u64>) -> Option<MakeCause>
    requires { lines ≤ 1000000 }
{
    let device = MemPmem::new(alloc, lines, failing).ok()?;
    cause(device)
}

/// Why no log is made on a device whose second line is not empty.
fn dirty_cause(alloc: Global) -> Option<MakeCause> {
    let mut device = MemPmem::new(alloc, 3, Vec::new(alloc)).ok()?;
    device.write(
        1,
        Line {
            w: [0, 0, 0, 0, 0, 0, 0, 1],
        },
    );
    device.write_back(1);
    match device.fence() {
        Ok(()) => cause(device),
        Err(FenceFailed) => None,
    }
}

#[test]
fn no_log_is_made(rt: HostRuntime) -> Result<(), Fail> {
    let alloc = rt.alloc();
    let failing = vec![in alloc; 1]?;
    let mut found = Found::new();
    found.must(
        new_cause(alloc, 0, Vec::new(alloc)) == Some(MakeCause::Small),
        "a device of no line",
    );
    found.must(
        new_cause(alloc, 1, failing) == Some(MakeCause::FenceFailed),
        "a fence that fails",
    );
    found.must(
        dirty_cause(alloc) == Some(MakeCause::Dirty { line: 1 }),
        "a line that is not empty",
    );
    found.ended()
}

/// Whether lines are refused since they are no log.
fn is_no_log(alloc: Global, lines: &[Line]) -> bool {
    match decode(alloc, lines) {
        Ok(_) => false,
        Err(fault) => fault == DecodeFault::NotLog,
    }
}

/// Whether lines hold no head, and none of them is used.
fn is_unused(alloc: Global, lines: &[Line]) -> bool {
    match decode(alloc, lines) {
        Ok(decoded) => decoded.head.is_none() && decoded.used() == 0,
        Err(_) => false,
    }
}

#[test]
fn what_is_no_log(rt: HostRuntime) -> Result<(), Fail> {
    let alloc = rt.alloc();
    let mut found = Found::new();
    found.must(is_no_log(alloc, &[]), "no line");
    found.must(is_no_log(alloc, &[Line { w: [1; 8] }]), "a line of ones");
    found.must(format_of(&[]) == 1, "the format of no line");
    found.must(format_of(&[Line { w: [2; 8] }]) == 2, "the format 2");
    found.must(is_unused(alloc, &[Line { w: [0; 8] }]), "an empty line");
    found.ended()
}
