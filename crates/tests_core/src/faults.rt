//! Entries that do not go with those before them, and nodes that are not followed.

use crate::streams::{Piece, Row, is_so};
use onll_standby::FeedFault;
use std::test::Fail;
use tests_found::Found;

/// Entries against those that are held.
const HELD: &[Row] = &[
    Row {
        name: "a clash",
        pieces: &[
            Piece::Entry(0, 1, 1, 1, 11),
            Piece::Node(1, 1, 0, 5),
            Piece::Entry(1, 1, 1, 1, 15),
            Piece::Node(4097, 1, 1, 7),
        ],
        cut: 0,
        fault: Some(FeedFault::Clash { at: 256, place: 1 }),
        told: [384, 1, 1, 5, 0],
    },
    Row {
        name: "the least of two places",
        pieces: &[
            Piece::Entry(0, 1, 2, 2, 2827),
            Piece::Node(1, 1, 0, 5),
            Piece::Node(2, 1, 0, 6),
            Piece::Entry(1, 1, 2, 2, 3855),
            Piece::Node(4097, 1, 1, 7),
            Piece::Node(4098, 1, 1, 8),
        ],
        cut: 0,
        fault: Some(FeedFault::Clash { at: 320, place: 1 }),
        told: [512, 1, 2, 11, 0],
    },
    Row {
        name: "a place that both logs hold alike",
        pieces: &[
            Piece::Entry(0, 1, 1, 1, 11),
            Piece::Node(1, 1, 0, 5),
            Piece::Entry(1, 1, 1, 1, 11),
            Piece::Node(1, 1, 0, 5),
        ],
        cut: 0,
        fault: None,
        told: [384, 2, 1, 5, 0],
    },
    Row {
        name: "a disorder that also clashes",
        pieces: &[
            Piece::Entry(0, 1, 2, 2, 3851),
            Piece::Node(1, 1, 0, 5),
            Piece::Node(4097, 1, 1, 7),
            Piece::Entry(0, 2, 2, 1, 11),
            Piece::Node(1, 1, 0, 5),
        ],
        cut: 0,
        fault: Some(FeedFault::Disorder { at: 320 }),
        told: [448, 1, 2, 5, 7],
    },
];

/// Nodes that are not followed; the entry counts for the places below.
const NODES: &[Row] = &[
    Row {
        name: "a number that does not follow",
        pieces: &[
            Piece::Entry(0, 1, 2, 2, 2827),
            Piece::Node(1, 1, 0, 5),
            Piece::Node(3, 1, 0, 1),
        ],
        cut: 0,
        fault: Some(FeedFault::Stray { place: 2 }),
        told: [320, 0, 1, 5, 0],
    },
    Row {
        name: "no operation",
        pieces: &[
            Piece::Entry(0, 1, 2, 2, 2827),
            Piece::Node(1, 1, 0, 5),
            Piece::Node(2, 9, 0, 1),
        ],
        cut: 0,
        fault: Some(FeedFault::NotOp { place: 2 }),
        told: [320, 0, 1, 5, 0],
    },
    Row {
        name: "a stray above the entry",
        pieces: &[
            Piece::Entry(1, 1, 2, 1, 15),
            Piece::Node(4098, 1, 1, 7),
            Piece::Entry(0, 1, 1, 1, 11),
            Piece::Node(1, 1, 0, 5),
        ],
        cut: 0,
        fault: Some(FeedFault::Stray { place: 2 }),
        told: [384, 1, 1, 5, 0],
    },
    Row {
        name: "no operation below a stray",
        pieces: &[
            Piece::Entry(0, 1, 2, 2, 2827),
            Piece::Node(1, 9, 0, 5),
            Piece::Node(3, 1, 0, 1),
        ],
        cut: 0,
        fault: Some(FeedFault::NotOp { place: 1 }),
        told: [320, 0, 0, 0, 0],
    },
    Row {
        name: "a stray below no operation",
        pieces: &[
            Piece::Entry(0, 1, 2, 2, 2827),
            Piece::Node(2, 1, 0, 5),
            Piece::Node(3, 9, 0, 1),
        ],
        cut: 0,
        fault: Some(FeedFault::Stray { place: 1 }),
        told: [320, 0, 0, 0, 0],
    },
    Row {
        name: "a stray that is no operation",
        pieces: &[Piece::Entry(0, 1, 1, 1, 11), Piece::Node(2, 9, 0, 5)],
        cut: 0,
        fault: Some(FeedFault::Stray { place: 1 }),
        told: [256, 0, 0, 0, 0],
    },
];

#[test]
fn an_entry_goes_with_those_before_it(rt: HostRuntime) -> Result<(), Fail> {
    let alloc = rt.alloc();
    let mut found = Found::new();
    for row in HELD {
        found.must(is_so(alloc, row)?, row.name);
    }
    found.ended()
}

#[test]
fn the_first_node_that_is_not_followed_is_named(rt: HostRuntime) -> Result<(), Fail> {
    let alloc = rt.alloc();
    let mut found = Found::new();
    for row in NODES {
        found.must(is_so(alloc, row)?, row.name);
    }
    found.ended()
}
