//! Logs and images that are refused.

use crate::logs::{A1, A2, B1, HEAD, Piece, logs_of};
use onll_log::{LogHead, entry_head};
use onll_merge::{ImagesFault, RecoverFault, merge_images, recover};
use onll_model::{Node, node_line};
use onll_words::{Line, OpRow};
use std::alloc::{AllocError, Global};
use std::test::Fail;
use tests_found::Found;

/// The head of a log of another run.
const OTHER_HEAD: LogHead = LogHead {
    thread: 0,
    threads: 3,
    object: 1,
    digest: [7, 8, 10],
    format: 1,
};

/// A third update of thread 0, and another first one of thread 1.
const A3: Node = Node {
    thread: 0,
    number: 3,
    row: OpRow {
        w: [1, 0, 7, 0, 0, 0, 0],
    },
};

const B1_OTHER: Node = Node {
    thread: 1,
    number: 1,
    row: OpRow {
        w: [2, 1, 0, 0, 0, 0, 1],
    },
};

/// Three logs, the head of the first two, and why they don't merge.
struct RefusedCase {
    name: &'static str,
    head: Option<LogHead>,
    pieces: &'static [Piece],
    fault: RecoverFault,
}

/// Whether the logs are refused as the case says.
fn is_refused(alloc: Global, case: &RefusedCase) -> bool {
    let Ok(logs) = logs_of(alloc, case.head, case.pieces) else {
        return false;
    };
    match recover(alloc, &logs, &[HEAD, HEAD, HEAD]) {
        Ok(_) => false,
        Err(fault) => fault == case.fault,
    }
}

/// The logs of each case are refused.
fn refuse(alloc: Global, found: &mut Found, cases: &[RefusedCase]) {
    for case in cases {
        found.must(is_refused(alloc, case), case.name);
    }
}

/// Logs of another run or out of order.
const DISORDERED: &[RefusedCase] = &[
    RefusedCase {
        name: "another run, before an entry that doesn't rise",
        head: Some(OTHER_HEAD),
        pieces: &[Piece {
            log: 0,
            place: 0,
            nodes: &[A1],
        }],
        fault: RecoverFault::NotThisRun { log: 0 },
    },
    RefusedCase {
        name: "two entries at one place",
        head: Some(HEAD),
        pieces: &[
            Piece {
                log: 0,
                place: 2,
                nodes: &[A1],
            },
            Piece {
                log: 0,
                place: 2,
                nodes: &[A1],
            },
        ],
        fault: RecoverFault::Disorder { log: 0, entry: 2 },
    },
    RefusedCase {
        name: "nodes down to place 0",
        head: Some(HEAD),
        pieces: &[
            Piece {
                log: 1,
                place: 1,
                nodes: &[A1, B1],
            },
            Piece {
                log: 2,
                place: 0,
                nodes: &[B1],
            },
        ],
        fault: RecoverFault::Disorder { log: 1, entry: 1 },
    },
];

#[test]
fn logs_that_are_foreign_or_out_of_order(rt: HostRuntime) -> Result<(), Fail> {
    let mut found = Found::new();
    refuse(rt.alloc(), &mut found, DISORDERED);
    found.ended()
}

/// Logs that hold different nodes for one place.
const CLASHING: &[RefusedCase] = &[
    RefusedCase {
        name: "a gap below a clash",
        head: Some(HEAD),
        pieces: &[
            Piece {
                log: 0,
                place: 3,
                nodes: &[A2, B1],
            },
            Piece {
                log: 1,
                place: 3,
                nodes: &[B1_OTHER],
            },
        ],
        fault: RecoverFault::Clash {
            place: 3,
            log: 0,
            other: 1,
        },
    },
    RefusedCase {
        name: "a clash of the later logs",
        head: Some(HEAD),
        pieces: &[
            Piece {
                log: 0,
                place: 1,
                nodes: &[A1],
            },
            Piece {
                log: 1,
                place: 2,
                nodes: &[B1],
            },
            Piece {
                log: 2,
                place: 2,
                nodes: &[A1, A2],
            },
        ],
        fault: RecoverFault::Clash {
            place: 2,
            log: 1,
            other: 2,
        },
    },
];

#[test]
fn logs_that_clash(rt: HostRuntime) -> Result<(), Fail> {
    let mut found = Found::new();
    refuse(rt.alloc(), &mut found, CLASHING);
    found.ended()
}

/// Logs that lack a place, and one with a number that is too high.
const LACKING: &[RefusedCase] = &[
    RefusedCase {
        name: "a gap below the greatest place that there is",
        head: Some(HEAD),
        pieces: &[
            Piece {
                log: 0,
                place: 1,
                nodes: &[A1],
            },
            Piece {
                log: 1,
                place: u64::MAX,
                nodes: &[B1],
            },
        ],
        fault: RecoverFault::Gap { place: 2 },
    },
    RefusedCase {
        name: "an entry without nodes at the greatest place that there is",
        head: Some(HEAD),
        pieces: &[Piece {
            log: 0,
            place: u64::MAX,
            nodes: &[],
        }],
        fault: RecoverFault::Gap { place: 1 },
    },
    RefusedCase {
        name: "a number too high",
        head: Some(HEAD),
        pieces: &[Piece {
            log: 1,
            place: 3,
            nodes: &[A1, B1, A3],
        }],
        fault: RecoverFault::Stray {
            place: 3,
            thread: 0,
            number: 3,
            wanted: 2,
        },
    },
];

#[test]
fn logs_that_lack_a_node(rt: HostRuntime) -> Result<(), Fail> {
    let mut found = Found::new();
    refuse(rt.alloc(), &mut found, LACKING);
    found.ended()
}

/// The bytes of the initial state.
const INIT: &[u8] = b"bank 2\n";

/// The image of a log of thread 0 that begins at place 2.
fn first_image(alloc: Global) -> Result<Vec<Line>, AllocError> {
    let head = LogHead::new(0, 3, 1, INIT);
    Vec::from_slice(
        alloc,
        &[
            head.line(),
            entry_head(head, 1, 2, &[A1]),
            node_line(A1),
            entry_head(head, 2, 3, &[A2]),
            node_line(A2),
        ],
    )
}

/// The image of a log of thread 1 with another node at place 3.
fn second_image(alloc: Global) -> Result<Vec<Line>, AllocError> {
    let head = LogHead::new(1, 3, 1, INIT);
    Vec::from_slice(
        alloc,
        &[head.line(), entry_head(head, 1, 3, &[B1]), node_line(B1)],
    )
}

/// Why both images don't merge.
fn fault_of_images(alloc: Global) -> Option<ImagesFault> {
    let first = first_image(alloc).ok()?;
    let second = second_image(alloc).ok()?;
    let heads = [LogHead::new(0, 3, 1, INIT), LogHead::new(1, 3, 1, INIT)];
    match merge_images(alloc, &[first, second], &heads) {
        Ok(_) => None,
        Err(fault) => Some(fault),
    }
}

#[test]
fn a_clash_above_a_gap(rt: HostRuntime) -> Result<(), Fail> {
    let clash = RecoverFault::Clash {
        place: 3,
        log: 0,
        other: 1,
    };
    let mut found = Found::new();
    found.must(
        fault_of_images(rt.alloc()) == Some(ImagesFault::Recover(clash)),
        "no clash",
    );
    found.ended()
}
