//! What is no entry of its log.

use crate::streams::{Piece, Row, is_so};
use onll_standby::FeedFault;
use std::test::Fail;
use tests_found::Found;

/// Header lines that can begin no entry, after the two of the logs.
const HEADERS: &[Row] = &[
    Row {
        name: "sixteen nodes of two threads",
        pieces: &[Piece::Entry(0, 1, 16, 16, 11)],
        cut: 0,
        fault: Some(FeedFault::Refused { at: 128 }),
        told: [192, 0, 0, 0, 0],
    },
    Row {
        name: "place 0",
        pieces: &[Piece::Entry(0, 1, 0, 1, 11)],
        cut: 0,
        fault: Some(FeedFault::Refused { at: 128 }),
        told: [192, 0, 0, 0, 0],
    },
    Row {
        name: "no node",
        pieces: &[Piece::Entry(0, 1, 1, 0, 0)],
        cut: 0,
        fault: Some(FeedFault::Refused { at: 128 }),
        told: [192, 0, 0, 0, 0],
    },
    Row {
        name: "a third thread",
        pieces: &[Piece::Entry(2, 1, 1, 1, 11)],
        cut: 0,
        fault: Some(FeedFault::Refused { at: 128 }),
        told: [192, 0, 0, 0, 0],
    },
    Row {
        name: "a number that does not follow",
        pieces: &[Piece::Entry(0, 2, 1, 1, 11)],
        cut: 0,
        fault: Some(FeedFault::Refused { at: 128 }),
        told: [192, 0, 0, 0, 0],
    },
    Row {
        name: "zeros",
        pieces: &[Piece::Node(0, 0, 0, 0)],
        cut: 0,
        fault: Some(FeedFault::Refused { at: 128 }),
        told: [192, 0, 0, 0, 0],
    },
    Row {
        name: "all but a byte of zeros",
        pieces: &[Piece::Node(0, 0, 0, 0)],
        cut: 1,
        fault: None,
        told: [191, 0, 0, 0, 0],
    },
];

/// Entries that are not their log's next one, and the places that an entry can have.
const ENTRIES: &[Row] = &[
    Row {
        name: "a wrong mask",
        pieces: &[Piece::Entry(0, 1, 1, 1, 15), Piece::Node(1, 1, 0, 5)],
        cut: 0,
        fault: Some(FeedFault::Refused { at: 128 }),
        told: [256, 0, 0, 0, 0],
    },
    Row {
        name: "a wrong mask, without the last byte",
        pieces: &[Piece::Entry(0, 1, 1, 1, 15), Piece::Node(1, 1, 0, 5)],
        cut: 1,
        fault: None,
        told: [255, 0, 0, 0, 0],
    },
    Row {
        name: "a name above the run's",
        pieces: &[Piece::Entry(0, 1, 1, 1, 11), Piece::Node(8193, 1, 0, 5)],
        cut: 0,
        fault: Some(FeedFault::Refused { at: 128 }),
        told: [256, 0, 0, 0, 0],
    },
    Row {
        name: "the same entry again",
        pieces: &[
            Piece::Entry(0, 1, 1, 1, 11),
            Piece::Node(1, 1, 0, 5),
            Piece::Entry(0, 1, 1, 1, 11),
        ],
        cut: 0,
        fault: Some(FeedFault::Refused { at: 256 }),
        told: [320, 1, 1, 5, 0],
    },
    Row {
        name: "the last place first",
        pieces: &[Piece::Entry(0, 1, 8192, 1, 11), Piece::Node(1, 1, 0, 5)],
        cut: 0,
        fault: None,
        told: [256, 1, 0, 0, 0],
    },
    Row {
        name: "a place above the last",
        pieces: &[Piece::Entry(0, 1, 8193, 1, 11)],
        cut: 0,
        fault: Some(FeedFault::Refused { at: 128 }),
        told: [192, 0, 0, 0, 0],
    },
];

#[test]
fn a_header_line_that_begins_no_entry_is_refused(rt: HostRuntime) -> Result<(), Fail> {
    let alloc = rt.alloc();
    let mut found = Found::new();
    for row in HEADERS {
        found.must(is_so(alloc, row)?, row.name);
    }
    found.ended()
}

#[test]
fn an_entry_that_its_header_does_not_guard_is_refused(rt: HostRuntime) -> Result<(), Fail> {
    let alloc = rt.alloc();
    let mut found = Found::new();
    for row in ENTRIES {
        found.must(is_so(alloc, row)?, row.name);
    }
    found.ended()
}
