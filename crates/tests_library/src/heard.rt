//! Works of which one tells the other the place of its update, and the other hears it.

use onll_counter::{Count, CounterOp, CounterQuery, CounterReply};
use onll_outside::MemStore;
use onll_pmem::Pmem;
use onll_rows::Plain;
use onll_serve::serve;
use onll_threads::{Begun, Seat, Work};
use std::alloc::Global;
use std::sync::Wait;
use std::sync::atomic::{AtomicU64, Ordering};
use std::test::Fail;
use std::thread;
use tests_found::Found;

/// The object of the tests.
type Counter = Plain<Count>;

/// The place that one work tells another, 0 before it does.
#[derive(Drop)]
struct Told {
    place: AtomicU64,
}

impl Told {
    fn new() -> Told {
        Told {
            place: AtomicU64::new(0),
        }
    }

    fn tell(&self, place: u64) {
        self.place.store(place, Ordering::SeqCst);
    }

    /// The place, once it was told; 0 where it is not for very long.
    fn wait(&self) -> u64 {
        for _ in 0..10_000_000 {
            let place = self.place.load(Ordering::SeqCst);
            if place > 0 {
                return place;
            }
            thread::yield_now();
        }
        0
    }
}

/// What a work did.
#[derive(Clone, Copy, Debug, PartialEq, Eq)]
enum Talk {
    /// It updated at this place, and told it.
    Told(u64),
    /// It heard this place, and what it was told is counted there; its own update stands at the other. No place far above is there yet.
    Heard {
        place: u64,
        counts: bool,
        own: u64,
        above: bool,
    },
    Nothing,
}

/// Adds 7 and tells the place.
fn add_and_tell<R: Wait, P: Pmem, B: Begun<Counter, P>>(
    rt: &R,
    told: &Told,
    seat: &mut Seat<'_, Counter, P, B>,
) -> Talk {
    if seat.update(rt, CounterOp::Add { more: 7 }).is_err() {
        return Talk::Nothing;
    }
    let place = seat.place();
    told.tell(place);
    Talk::Told(place)
}

/// Waits for a place, hears it, and adds 1 after it.
fn hear_and_add<R: Wait, P: Pmem, B: Begun<Counter, P>>(
    rt: &R,
    told: &Told,
    seat: &mut Seat<'_, Counter, P, B>,
) -> Talk {
    let place = told.wait();
    let above = seat
        .hear(place.saturating_add(1000), CounterQuery)
        .is_some();
    let Some(CounterReply::Count(count)) = seat.hear(place, CounterQuery) else {
        return Talk::Nothing;
    };
    if seat.update(rt, CounterOp::Add { more: 1 }).is_err() {
        return Talk::Nothing;
    }
    Talk::Heard {
        place,
        counts: count >= 7,
        own: seat.place(),
        above,
    }
}

/// Who tells, or hears.
#[derive(Drop)]
struct Talker<'a, R: Wait> {
    rt: &'a R,
    told: &'a Told,
    tells: bool,
}

impl<'a, R: Wait + Sync> Work<Counter> for Talker<'a, R> {
    type Answer = Talk;

    ghost promise = { λ old new calls ends talk. Unit {0} };

    fn work<P: Pmem, B: Begun<Counter, P>>(&mut self, seat: &mut Seat<'_, Counter, P, B>) -> Talk {
        let talk = if self.tells {
            add_and_tell(self.rt, self.told, seat)
        } else {
            hear_and_add(self.rt, self.told, seat)
        };
        seat.done();
        talk
    }
}

/// Whether the one told what the other heard, which is counted there, and after which the other's update stands.
fn is_in_order(talks: &[Talk]) -> bool {
    match talks {
        [
            Talk::Told(told),
            Talk::Heard {
                place,
                counts,
                own,
                above,
            },
        ] => told == place && *counts && own > place && !*above,
        _ => false,
    }
}

/// A work that is told a place hears it, and reads and updates after it.
#[test]
fn in_order(rt: HostRuntime) -> Result<(), Fail> {
    let alloc = rt.alloc();
    let mut found = Found::new();
    let told = Told::new();
    let mut works = Vec::new(alloc);
    for tells in [true, false] {
        works.push(Talker {
            rt: &rt,
            told: &told,
            tells,
        })?;
    }
    let mut store = MemStore::new(Vec::new(alloc), Vec::new(alloc), Vec::new(alloc));
    let counter = Plain::of(Count { count: 0 });
    match serve(&rt, alloc, &mut store, "talk", counter, works) {
        Ok(served) => {
            found.must(is_in_order(&served.answers), "in order");
            found.must(!served.spent, "not spent");
            found.must(served.kept.is_ok(), "kept");
        }
        Err(_) => found.must(false, "served"),
    }
    found.ended()
}
