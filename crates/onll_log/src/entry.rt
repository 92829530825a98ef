//! The line that heads an entry, and whether lines are an entry of a log.

ghost use Rattle.std.specs.Prelude.{◌≡◌, ◌+◌, ◌-◌, ◌*◌, ◌<◌, ◌≤◌, ◌^◌, ◌==◌, ◌&&◌, nat_le, length, take, drop};
ghost use Rattle.onll_model.specs.Limits.{most_threads, most_updates};
ghost use Rattle.std.specs.List.{All};
ghost use Rattle.onll_pmem.specs.Pmem.{words_of};
ghost use Rattle.onll_log.specs.Head.{word};
ghost use Rattle.onll_log.specs.Encoding.{entry_magic, entry_digest, guard, entry_line, node_lines, CanHold};
ghost use Rattle.onll_log.specs.Grammar.{is_entry, all_named, same_words};

use crate::digest::Message;
use crate::head::LogHead;
use crate::mask::masks;
use onll_model::{MOST_THREADS, MOST_UPDATES, Node, node_line};
use onll_words::Line;

/// The first word of an entry: the bytes `ONLLENT1`.
const ENTRY_MAGIC: u64 = 0x3154_4e45_4c4c_4e4f;

/// The most nodes of an entry.
const MOST: usize = MOST_THREADS as usize;

/// The entry digest over an entry's first five words and its node lines.
fn entry_digest(head: &LogHead, front: &[u64], lines: &[Line]) -> [u64; 3]
    ensures { result ≡ entry_digest head.now front.now (words_of lines.now) }
{
    let mut message = Message::new();
    message.add_words(&head.digest);
    message.add_words(front);
    message.add_lines(lines);
    message.digest()
}

/// The last three words of an entry's line, which guard its node lines.
fn guard(head: &LogHead, front: &[u64], lines: &[Line]) -> [u64; 3]
    requires { length lines.now ≤ most_threads }
    ensures { result ≡ guard head.now front.now (words_of lines.now) }
{
    if head.format == 1 {
        entry_digest(head, front, lines)
    } else {
        masks(lines)
    }
}

/// The lines of up to sixteen nodes, with zeros after them.
fn node_lines(nodes: &[Node]) -> [Line; MOST]
    requires few { length nodes.now ≤ most_threads }
    requires nodes { All (CanHold most_threads) nodes.now }
    ensures { words_of (take (length nodes.now) result) ≡ node_lines nodes.now }
{
    let mut lines = [Line { w: [0; 8] }; MOST];
    for (i, node) in nodes.iter().enumerate() {
        lines[i] = node_line(*node);
    }
    lines
}

/// The first line of the entry of this number in its log, which holds these nodes, the last of them at this place.
/// Its other lines are the nodes' lines.
pub fn entry_head(head: LogHead, sequence: u64, place: u64, nodes: &[Node]) -> Line
    requires format { (1 ≤ head.format) × (head.format ≤ 2) }
    requires threads { head.threads ≤ most_threads }
    requires some_nodes { 1 ≤ length nodes.now }
    requires few_nodes { length nodes.now ≤ head.threads }
    requires from_one { length nodes.now ≤ place }
    requires place { place ≤ most_updates * head.threads }
    requires sequence { 1 ≤ sequence }
    requires nodes { All (CanHold head.threads) nodes.now }
    ensures { result.w ≡ entry_line head (sequence - 1) (record { place = place; nodes = nodes.now }) }
{
    let count = nodes.len();
    let front = [ENTRY_MAGIC, head.thread, sequence, place, count as u64];
    let lines = node_lines(nodes);
    let [a, b, c] = guard(&head, &front, &lines[..count]);
    Line {
        w: [
            ENTRY_MAGIC,
            head.thread,
            sequence,
            place,
            count as u64,
            a,
            b,
            c,
        ],
    }
}

/// Whether a number is a name up to the top one.
fn is_name(top: u64, name: u64) -> bool
    ensures { result ≡ nat_le 1 name && nat_le name top }
{
    1 <= name && name <= top
}

/// Whether the first word of each line is a name up to the top one.
fn are_named(top: u64, lines: &[Line]) -> bool
    ensures { result ≡ all_named top (words_of lines.now) }
{
    for line in lines {
        if !is_name(top, line.w[0]) {
            return false;
        }
    }
    true
}

/// Whether an entry's line can be the one after this many entries of the log: its magic, its thread and its number.
fn is_next(head: &LogHead, before: u64, line: &Line) -> bool
    requires { before < 2 ^ 64 - 1 }
    ensures { result ≡ (word line.now.w 0 == entry_magic) && ((word line.now.w 1 == head.now.thread) && (word line.now.w 2 == before + 1)) }
{
    line.w[0] == ENTRY_MAGIC && line.w[1] == head.thread && line.w[2] == before + 1
}

/// Whether an entry can have this count of nodes and this place, with this many lines after its first.
fn has_room(threads: u64, count: u64, place: u64, rest: u64) -> bool
    requires { threads ≤ most_threads }
    ensures { result ≡ nat_le 1 count
        && (nat_le count threads && (nat_le count place
        && (nat_le place (most_updates * threads) && nat_le count rest))) }
{
    1 <= count
        && count <= threads
        && count <= place
        && place <= MOST_UPDATES * threads
        && count <= rest
}

/// Whether an entry's node lines have names and are those that its line guards.
fn is_guarded(head: &LogHead, line: &Line, lines: &[Line]) -> bool
    requires threads { head.now.threads ≤ most_threads }
    requires few { length lines.now ≤ most_threads }
    ensures { result ≡ all_named (most_updates * head.now.threads) (words_of lines.now)
        && same_words (drop 5 line.now.w) (guard head.now (take 5 line.now.w) (words_of lines.now)) }
{
    let [_, _, _, _, _, a, b, c] = line.w;
    are_named(MOST_UPDATES * head.threads, lines) && [a, b, c] == guard(head, &line.w[..5], lines)
}

/// Whether an entry begins with this line before the lines that follow, after this many entries of the log.
pub fn is_entry(head: &LogHead, before: u64, line: &Line, rest: &[Line]) -> bool
    requires threads { head.now.threads ≤ most_threads }
    requires before { before < 2 ^ 64 - 1 }
    ensures { result ≡ is_entry head.now before line.now.w (words_of rest.now) }
{
    if !is_next(head, before, line) {
        return false;
    }
    let [_, _, _, place, count, ..] = line.w;
    if !has_room(head.threads, count, place, rest.len() as u64) {
        return false;
    }
    is_guarded(head, line, &rest[..count as usize])
}
