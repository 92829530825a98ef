//! A gate that holds threads at points until others have come to theirs.

ghost use Rattle.std.specs.Prelude.{◌≡◌, ◌<◌, ◌*◌, IfOk, length};

use crate::gate::{Gate, Point};
use onll_model::MOST_THREADS;
use onll_trace::Spot;
use onll_words::NoMemory;
use std::alloc::Global;
use std::marker::Model;
use std::sync::atomic::{AtomicBool, Ordering};

/// How many points there are.
const POINTS: u64 = 5;

/// Holds a thread at a point until another thread has come to some point.
#[derive(Clone, Copy, Debug, PartialEq, Eq)]
pub struct Hold {
    pub thread: u64,
    pub point: Point,
    pub until_thread: u64,
    pub until_point: Point,
}

/// A gate that marks each arrival. A thread that has a hold there then loads the mark that it awaits until that is set, a given
/// number of times at most, and goes on in any case. A mark stays set.
#[derive(Drop)]
pub struct HoldGate {
    holds: Vec<Hold>,
    turns: u64,
    /// One for each thread and point.
    marks: Vec<AtomicBool>,
    /// Whether a hold ran out of turns.
    expired: AtomicBool,
}

impl Model for HoldGate {
    ghost use Rattle.std.specs.Prelude.{◌≡◌, ◌*◌, length};
    ghost use Rattle.onll_model.specs.Limits.{most_threads};
    ghost use Rattle.onll_outside.specs.HoldGate.{HoldPlan};

    ghost Value = { HoldPlan };

    ghost view = { λ g. record { holds = g.holds.items; turns = g.turns } };

    ghost invariant = { λ g. length g.marks.items ≡ most_threads * 5 };
}

/// Which of the points it is, from 0.
fn number(point: Point) -> u64
    ensures { result < 5 }
{
    match point {
        Point::Begin => 0,
        Point::Ordered => 1,
        Point::Walked => 2,
        Point::Fenced => 3,
        Point::Answered => 4,
    }
}

/// Whether a mark is set by one of so many loads.
fn is_set_within(mark: &AtomicBool, turns: u64) -> bool {
    for _ in 0..turns {
        if mark.load(Ordering::SeqCst) {
            return true;
        }
    }
    false
}

impl HoldGate {
    /// A gate with these holds, each of which loads at most so many times.
    pub fn new(alloc: Global, holds: Vec<Hold>, turns: u64) -> Result<HoldGate, NoMemory>
        ensures { IfOk result (λ gate. gate ≡ record { holds = holds.items; turns = turns }) }
    {
        let mut marks = Vec::with_capacity(alloc, 80)?;
        while marks.len() < 80 {
            marks.push(AtomicBool::new(false))?;
        }
        Ok(HoldGate {
            holds,
            turns,
            marks,
            expired: AtomicBool::new(false),
        })
    }

    /// Whether a hold has run out of turns. No clause says when, since threads share it.
    pub fn expired(&self) -> bool {
        self.expired.load(Ordering::SeqCst)
    }

    /// The mark of a thread at a point; a trace has no such thread where there is none.
    fn mark(&self, thread: u64, point: Point) -> Option<&AtomicBool> {
        if thread < MOST_THREADS {
            Some(&self.marks[(thread * POINTS + number(point)) as usize])
        } else {
            None
        }
    }

    /// Whether what a hold awaits comes within the turns.
    fn comes(&self, hold: &Hold) -> bool {
        match self.mark(hold.until_thread, hold.until_point) {
            Some(mark) => is_set_within(mark, self.turns),
            None => false,
        }
    }
}

impl Gate for HoldGate {
    fn at(&self, spot: &Spot, point: Point) {
        let thread = spot.thread();
        if let Some(mark) = self.mark(thread, point) {
            mark.store(true, Ordering::SeqCst);
        }
        for hold in self.holds.iter() {
            if hold.thread == thread && hold.point == point && !self.comes(hold) {
                self.expired.store(true, Ordering::SeqCst);
            }
        }
    }
}
