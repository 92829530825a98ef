//! A gate that holds a thread until another comes, which never does.

ghost use Rattle.std.specs.Prelude.{IfSome};
ghost use Rattle.onll_outside.specs.Gate.{AtPoint};

use crate::checks::Found;
use onll_outside::{Gate, Hold, HoldGate, Point};
use onll_trace::{Spot, Trace};
use std::alloc::Global;
use std::test::Fail;

/// The spot of the one thread of a new trace, at the beginning of an update.
fn new_spot(alloc: Global) -> Option<(Trace, Spot)>
    ensures { IfSome result (λ r. AtPoint r.1 Point.Begin) }
{
    let Ok((trace, mut spots)) = Trace::create(alloc, 1, 1) else {
        return None;
    };
    let Some(spot) = spots.pop() else {
        return None;
    };
    Some((trace, spot))
}

/// Whom a gate holds at the beginning of an update, for how many turns, until who has come to the beginning of one; and whether
/// that expires where thread 0 comes alone.
struct Case {
    thread: u64,
    until_thread: u64,
    turns: u64,
    expires: bool,
}

/// A thread that awaits itself has come, another's hold is not its own, and there is no thread 16.
const CASES: &[Case] = &[
    Case {
        thread: 0,
        until_thread: 1,
        turns: 100,
        expires: true,
    },
    Case {
        thread: 0,
        until_thread: 0,
        turns: 1,
        expires: false,
    },
    Case {
        thread: 0,
        until_thread: 0,
        turns: 0,
        expires: true,
    },
    Case {
        thread: 1,
        until_thread: 0,
        turns: 100,
        expires: false,
    },
    Case {
        thread: 0,
        until_thread: 16,
        turns: 100,
        expires: true,
    },
];

/// A gate with the hold of this case.
fn gate_of(alloc: Global, case: &Case) -> Option<HoldGate> {
    let hold = Hold {
        thread: case.thread,
        point: Point::Begin,
        until_thread: case.until_thread,
        until_point: Point::Begin,
    };
    let holds = Vec::from_slice(alloc, &[hold]).ok()?;
    HoldGate::new(alloc, holds, case.turns).ok()
}

/// Whether the hold of a gate has expired once thread 0 has come to the beginning of an update; it had not before.
fn expires(alloc: Global, case: &Case) -> Option<bool> {
    let gate = gate_of(alloc, case)?;
    let (_trace, spot) = new_spot(alloc)?;
    if gate.expired() {
        return None;
    }
    gate.at(&spot, Point::Begin);
    Some(gate.expired())
}

#[test]
fn a_hold_expires(rt: HostRuntime) -> Result<(), Fail> {
    let mut found = Found::new();
    for case in CASES {
        found.must(
            expires(rt.alloc(), case) == Some(case.expires),
            "another answer",
        );
    }
    found.ended()
}
