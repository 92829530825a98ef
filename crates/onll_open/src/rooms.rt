//! How many updates each thread may order.

ghost use Rattle.std.specs.Prelude.{◌≡◌, ◌≤◌, ◌+◌, ◌*◌, ◌<◌, length, max, count_by, IfOk, Some, None};
ghost use Rattle.onll_model.specs.Limits.{most_threads};
ghost use Rattle.onll_model.specs.Trace.{is_of_thread};
ghost use Rattle.onll_open.specs.Rooms.{first_empty, first_full, is_too_many, lines_for, room_left, rooms_left};

use onll_merge::LogCounts;
use onll_model::{MOST_THREADS, MOST_UPDATES, Node};
use std::alloc::{AllocError, Global};

/// The most lines of a log.
const MOST_LINES: u64 = 1 + MOST_UPDATES * (MOST_THREADS + 1);

/// How many of these nodes are a thread's.
fn count_nodes(nodes: &[Node], thread: u64) -> u64
    ensures { result ≡ count_by (is_of_thread thread) nodes.now }
{
    nodes.iter().filter(|node| node.thread == thread).count() as u64
}

/// Whether a thread has too few numbers left, or its log would be too long.
fn is_too_many(threads: u64, nodes: u64, used: u64, room: u64) -> bool
    requires { threads ≤ most_threads }
    ensures { result ≡ is_too_many threads nodes used room }
{
    if room > MOST_UPDATES || nodes > MOST_UPDATES - room {
        return true;
    }
    used.max(1) > MOST_LINES - (threads + 1) * room
}

/// The first thread that has too few numbers left for its room, or whose log would be too long.
pub fn first_full(nodes: &[Node], logs: &[LogCounts], rooms: &[u64]) -> Option<u64>
    requires few { length rooms.now ≤ most_threads }
    requires many { length logs.now ≡ length rooms.now }
    ensures { result ≡ first_full (length rooms.now) nodes.now 0 logs.now rooms.now }
{
    let threads = rooms.len() as u64;
    for (thread, room) in rooms.iter().enumerate() {
        if is_too_many(
            threads,
            count_nodes(nodes, thread as u64),
            logs[thread].lines,
            *room,
        ) {
            return Some(thread as u64);
        }
    }
    None
}

/// How many lines the device of each log has, where no thread has too many updates.
pub fn lines_for(
    alloc: Global,
    nodes: &[Node],
    logs: &[LogCounts],
    rooms: &[u64],
) -> Result<Vec<u64>, AllocError>
    requires few { length rooms.now ≤ most_threads }
    requires many { length logs.now ≡ length rooms.now }
    requires room { first_full (length rooms.now) nodes.now 0 logs.now rooms.now ≡ None }
    ensures { IfOk result (λ lines. lines.items ≡ lines_for (length rooms.now) logs.now rooms.now) }
{
    let entry = rooms.len() as u64 + 1;
    let mut lines = Vec::with_capacity(alloc, rooms.len())?;
    for (thread, room) in rooms.iter().enumerate() {
        lines.push_reserved(logs[thread].lines.max(1) + entry * *room);
    }
    Ok(lines)
}

/// How many updates a log may have yet.
fn room_left(threads: u64, nodes: u64, used: u64) -> u64
    requires { threads ≤ most_threads }
    ensures { result ≡ room_left threads nodes used }
{
    let lines = MOST_LINES.saturating_sub(used.max(1)) / (threads + 1);
    lines.min(MOST_UPDATES.saturating_sub(nodes))
}

/// All the updates that each log may have yet.
pub fn rooms_left(
    alloc: Global,
    nodes: &[Node],
    logs: &[LogCounts],
    threads: u64,
) -> Result<Vec<u64>, AllocError>
    requires few { threads ≤ most_threads }
    requires many { length logs.now ≡ threads }
    ensures rooms { IfOk result (λ rooms. rooms.items ≡ rooms_left threads nodes.now 0 logs.now) }
    ensures count { IfOk result (λ rooms. length rooms.items ≡ threads) }
{
    let mut rooms = Vec::with_capacity(alloc, logs.len())?;
    for (thread, log) in logs.iter().enumerate() {
        let count = count_nodes(nodes, thread as u64);
        rooms.push_reserved(room_left(threads, count, log.lines));
    }
    Ok(rooms)
}

/// The first thread that has no room.
pub fn first_empty(rooms: &[u64]) -> Option<u64>
    ensures { result ≡ first_empty 0 rooms.now }
{
    for (thread, room) in rooms.iter().enumerate() {
        if *room == 0 {
            return Some(thread as u64);
        }
    }
    None
}
