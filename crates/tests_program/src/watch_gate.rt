//! A gate of the tests, which holds threads and counts what comes to it.
ghost use Rattle.std.specs.Prelude.{◌≡◌, IfOk};

use onll_outside::{Gate, Hold, HoldGate, Point};
use onll_trace::Spot;
use onll_words::NoMemory;
use std::alloc::Global;
use std::marker::Model;
use std::sync::atomic::{AtomicU64, Ordering};

/// How often a held thread loads the mark that it awaits.
const TURNS: u64 = 1_000_000_000;

/// How many threads it tells apart, and how many updates of each.
const THREADS: u64 = 2;

const UPDATES: u64 = 3;

/// A gate that holds threads, counts all arrivals, and counts which updates of two threads were answered.
#[derive(Drop)]
pub(crate) struct WatchGate {
    holds: HoldGate,
    arrivals: AtomicU64,
    /// One for each thread and update.
    answered: Vec<AtomicU64>,
    /// Answered updates that are none of these.
    others: AtomicU64,
}

impl Model for WatchGate {
    ghost use Rattle.std.specs.Prelude.{◌≡◌, length};
    ghost use Rattle.onll_outside.specs.HoldGate.{HoldPlan};

    ghost Value = { HoldPlan };

    ghost view = { λ g. g.holds };

    ghost invariant = { λ g. length g.answered.items ≡ 6 };
}

impl WatchGate {
    /// A gate with these holds, to which nothing has come. No clause says what it counts, since threads share it.
    pub(crate) fn new(alloc: Global, holds: &[Hold]) -> Result<WatchGate, NoMemory>
        ensures { IfOk result (λ gate. gate ≡ record { holds = holds.now; turns = 1000000000 }) }
    {
        let mut answered = Vec::with_capacity(alloc, 6)?;
        while answered.len() < 6 {
            answered.push(AtomicU64::new(0))?;
        }
        Ok(WatchGate {
            holds: HoldGate::new(alloc, Vec::from_slice(alloc, holds)?, TURNS)?,
            arrivals: AtomicU64::new(0),
            answered,
            others: AtomicU64::new(0),
        })
    }

    /// How often threads came to some point.
    pub(crate) fn arrivals(&self) -> u64 {
        self.arrivals.load(Ordering::SeqCst)
    }

    /// Whether a hold ran out of turns.
    pub(crate) fn expired(&self) -> bool {
        self.holds.expired()
    }

    /// Whether each of these updates was answered once, and no other.
    pub(crate) fn each_once(&self) -> bool {
        self.others.load(Ordering::SeqCst) == 0
            && self
                .answered
                .iter()
                .all(|count| count.load(Ordering::SeqCst) == 1)
    }

    /// What counts this update of a thread, from 1.
    fn counter(&self, thread: u64, number: u64) -> &AtomicU64 {
        if thread < THREADS && 1 <= number && number <= UPDATES {
            &self.answered[(thread * UPDATES + number - 1) as usize]
        } else {
            &self.others
        }
    }
}

impl Gate for WatchGate {
    fn at(&self, spot: &Spot, point: Point) {
        self.arrivals.fetch_add(1, Ordering::SeqCst);
        if point == Point::Answered {
            self.counter(spot.thread(), spot.ordered())
                .fetch_add(1, Ordering::SeqCst);
        }
        self.holds.at(spot, point);
    }
}
