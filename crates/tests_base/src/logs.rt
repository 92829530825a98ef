//! Three logs of one run, made of pieces.

use onll_log::{Decoded, Entries, Entry, LogHead, Nodes};
use onll_model::Node;
use onll_words::OpRow;
use std::alloc::{AllocError, Global};

/// The head that is expected of each log.
pub(crate) const HEAD: LogHead = LogHead {
    thread: 0,
    threads: 3,
    object: 1,
    digest: [7, 8, 9],
    format: 1,
};

/// Two updates of thread 0, and one of thread 1.
pub(crate) const A1: Node = Node {
    thread: 0,
    number: 1,
    row: OpRow {
        w: [1, 0, 5, 0, 0, 0, 0],
    },
};

pub(crate) const A2: Node = Node {
    thread: 0,
    number: 2,
    row: OpRow {
        w: [1, 0, 6, 0, 0, 0, 0],
    },
};

pub(crate) const B1: Node = Node {
    thread: 1,
    number: 1,
    row: OpRow {
        w: [2, 1, 0, 0, 0, 0, 0],
    },
};

/// An entry of one of three logs.
pub(crate) struct Piece {
    pub(crate) log: u64,
    pub(crate) place: u64,
    pub(crate) nodes: &'static [Node],
}

fn entry_of(alloc: Global, piece: &Piece) -> Result<Entry, AllocError> {
    let nodes = Vec::from_slice(alloc, piece.nodes)?;
    Ok(Entry {
        line: 1,
        place: piece.place,
        nodes: Nodes::of_vec(nodes),
    })
}

/// The entries of one log.
fn entries_of(alloc: Global, log: u64, pieces: &[Piece]) -> Result<Entries, AllocError> {
    let mut entries = Vec::new(alloc);
    for piece in pieces {
        if piece.log == log {
            entries.push(entry_of(alloc, piece)?)?;
        }
    }
    Ok(Entries::of_vec(entries))
}

/// One log of this head.
fn log_of(
    alloc: Global,
    head: Option<LogHead>,
    log: u64,
    pieces: &[Piece],
) -> Result<Decoded, AllocError> {
    let entries = entries_of(alloc, log, pieces)?;
    Ok(Decoded { head, entries })
}

/// Three logs, the last of them without a head.
pub(crate) fn logs_of(
    alloc: Global,
    head: Option<LogHead>,
    pieces: &[Piece],
) -> Result<[Decoded; 3], AllocError> {
    let first = log_of(alloc, head, 0, pieces)?;
    let second = log_of(alloc, head, 1, pieces)?;
    let third = log_of(alloc, None, 2, pieces)?;
    Ok([first, second, third])
}
