//! Logs that merge.

use crate::logs::{A1, A2, B1, HEAD, Piece, logs_of};
use onll_log::LogHead;
use onll_merge::recover;
use onll_model::Node;
use std::alloc::Global;
use std::test::Fail;
use tests_found::Found;

/// Three logs, the head of the first two, and what they merge to.
struct MergedCase {
    name: &'static str,
    head: Option<LogHead>,
    pieces: &'static [Piece],
    nodes: &'static [Node],
}

const MERGED: &[MergedCase] = &[
    MergedCase {
        name: "no entry",
        head: None,
        pieces: &[],
        nodes: &[],
    },
    MergedCase {
        name: "an update that only another thread's log holds",
        head: Some(HEAD),
        pieces: &[Piece {
            log: 1,
            place: 2,
            nodes: &[A1, B1],
        }],
        nodes: &[A1, B1],
    },
    MergedCase {
        name: "places held by several logs",
        head: Some(HEAD),
        pieces: &[
            Piece {
                log: 2,
                place: 3,
                nodes: &[A1, B1, A2],
            },
            Piece {
                log: 0,
                place: 1,
                nodes: &[A1],
            },
            Piece {
                log: 0,
                place: 3,
                nodes: &[A2],
            },
            Piece {
                log: 1,
                place: 2,
                nodes: &[A1, B1],
            },
        ],
        nodes: &[A1, B1, A2],
    },
    MergedCase {
        name: "an entry without nodes",
        head: None,
        pieces: &[
            Piece {
                log: 0,
                place: 0,
                nodes: &[],
            },
            Piece {
                log: 0,
                place: 1,
                nodes: &[A1],
            },
        ],
        nodes: &[A1],
    },
];

/// Whether the logs merge as the case says.
fn is_merged(alloc: Global, case: &MergedCase) -> bool {
    let Ok(logs) = logs_of(alloc, case.head, case.pieces) else {
        return false;
    };
    match recover(alloc, &logs, &[HEAD, HEAD, HEAD]) {
        Ok(nodes) => nodes.as_slice() == case.nodes,
        Err(_) => false,
    }
}

#[test]
fn logs_that_merge(rt: HostRuntime) -> Result<(), Fail> {
    let mut found = Found::new();
    for case in MERGED {
        found.must(is_merged(rt.alloc(), case), case.name);
    }
    found.ended()
}
