//! Counters that works add to in threads: gone on with, refused, with a fence that fails, and kept or not.

use onll_counter::{Count, CounterOp};
use onll_model::Object;
use onll_open::{CloseFault, FilesFault, OpenFault};
use onll_outside::{Directory, FenceAt, MemStore};
use onll_pmem::Pmem;
use onll_rows::Plain;
use onll_serve::{NotServed, ServeFault, Served, serve};
use onll_threads::{Begun, Seat, Work};
use std::alloc::{AllocError, Global};
use std::sync::Wait;
use std::sync::atomic::{AtomicU64, Ordering};
use std::test::Fail;
use std::thread;
use std::thread::Threads;
use tests_found::Found;

/// The object of the tests.
type Counter = Plain<Count>;

/// Where works meet before they begin.
#[derive(Drop)]
struct Meeting {
    here: AtomicU64,
}

impl Meeting {
    fn new() -> Meeting {
        Meeting {
            here: AtomicU64::new(0),
        }
    }

    /// Comes, and waits for so many, if not for ever. Whether all came.
    fn wait_for(&self, all: u64) -> bool {
        self.here.fetch_add(1, Ordering::SeqCst);
        for _ in 0..10_000_000 {
            if self.here.load(Ordering::SeqCst) >= all {
                return true;
            }
            thread::yield_now();
        }
        false
    }
}

/// What an adder did.
#[derive(Clone, Copy, Debug, PartialEq, Eq)]
struct Added {
    /// All works were there before one of them began.
    met: bool,
    times: u64,
    broken: bool,
}

/// Adds 1 so often, once as many works as are to come have come.
#[derive(Drop)]
struct Adder<'a, R: Wait> {
    rt: &'a R,
    meeting: &'a Meeting,
    all: u64,
    times: u64,
}

impl<'a, R: Wait + Sync> Work<Counter> for Adder<'a, R> {
    type Answer = Added;

    ghost promise = { λ old new calls ends added. Unit {0} };

    fn work<P: Pmem, B: Begun<Counter, P>>(&mut self, seat: &mut Seat<'_, Counter, P, B>) -> Added {
        let met = self.meeting.wait_for(self.all);
        let mut times: u64 = 0;
        for _ in 0..self.times {
            if seat.update(self.rt, CounterOp::Add { more: 1 }).is_ok() {
                times = times.saturating_add(1);
            }
        }
        let broken = seat.broken().is_some();
        seat.done();
        Added { met, times, broken }
    }
}

/// How it went.
#[derive(Clone, Copy, Debug, PartialEq, Eq)]
enum Went {
    /// It went on from so many updates, all works met, so many updates were answered in all, so many works broke, a seat was spent or none,
    /// and all was kept.
    Kept {
        before: u64,
        added: u64,
        broken: u64,
        spent: bool,
    },
    /// A work didn't meet the others.
    Alone,
    NotKept(u64),
    NotServed(ServeFault),
    NoMemory,
}

/// What adders did in all.
fn sum_up(before: u64, spent: bool, all: &[Added]) -> Went {
    let mut added: u64 = 0;
    let mut broken: u64 = 0;
    for it in all {
        if !it.met {
            return Went::Alone;
        }
        added = added.saturating_add(it.times);
        if it.broken {
            broken = broken.saturating_add(1);
        }
    }
    Went::Kept {
        before,
        added,
        broken,
        spent,
    }
}

/// So many adders count on from what the store holds.
fn count_on<R: Threads + Wait + Sync, S: Directory>(
    rt: &R,
    alloc: Global,
    store: &mut S,
    count: u64,
    adders: u64,
) -> Result<Went, AllocError> {
    let meeting = Meeting::new();
    let mut works = Vec::new(alloc);
    for _ in 0..adders {
        works.push(Adder {
            rt,
            meeting: &meeting,
            all: adders,
            times: 5,
        })?;
    }
    let counter = Plain::of(Count { count });
    match serve(rt, alloc, store, "count", counter, works) {
        Ok(
            Served {
                before,
                answers,
                spent,
                kept,
                ..
            },
        ) => match kept {
            Ok(()) => Ok(sum_up(before, spent, &answers)),
            Err(CloseFault::NotKept(fault)) => Ok(Went::NotKept(fault.thread)),
            Err(CloseFault::NoMemory(_)) => Ok(Went::NoMemory),
        },
        Err(NotServed { fault, .. }) => Ok(Went::NotServed(fault)),
    }
}

/// All works are answered, and what they did is found by the next.
#[test]
fn gone_on(rt: HostRuntime) -> Result<(), Fail> {
    let alloc = rt.alloc();
    let mut found = Found::new();
    let mut store = MemStore::new(Vec::new(alloc), Vec::new(alloc), Vec::new(alloc));
    for before in [0, 15] {
        let all = Went::Kept {
            before,
            added: 15,
            broken: 0,
            spent: false,
        };
        let went = count_on(&rt, alloc, &mut store, 0, 3)?;
        found.must(went == all, "all kept");
    }
    found.ended()
}

/// Nothing is begun without a work, with too many, with another number of them, or over another object's files.
#[test]
fn refused(rt: HostRuntime) -> Result<(), Fail> {
    let alloc = rt.alloc();
    let mut found = Found::new();
    let mut store = MemStore::new(Vec::new(alloc), Vec::new(alloc), Vec::new(alloc));
    let none = Went::NotServed(ServeFault::NoWork);
    found.must(count_on(&rt, alloc, &mut store, 0, 0)? == none, "no work");
    let many = Went::NotServed(ServeFault::TooManyWorks { works: 17 });
    found.must(count_on(&rt, alloc, &mut store, 0, 17)? == many, "17 works");
    found.must(
        count_on(&rt, alloc, &mut store, 0, 2)?
            == Went::Kept {
                before: 0,
                added: 10,
                broken: 0,
                spent: false,
            },
        "two works",
    );
    let threads = FilesFault::Threads { were: 2 };
    let other = Went::NotServed(ServeFault::NotOpened(OpenFault::Files(threads)));
    found.must(
        count_on(&rt, alloc, &mut store, 0, 3)? == other,
        "three works",
    );
    found.must(
        matches!(
            count_on(&rt, alloc, &mut store, 7, 2)?,
            Went::NotServed(ServeFault::NotOpened(OpenFault::Files(FilesFault::NotOneRun(_))))
        ),
        "another count",
    );
    found.ended()
}

/// A work whose fence fails is broken, and all others are answered. A log that can't be kept is told.
#[test]
fn failing(rt: HostRuntime) -> Result<(), Fail> {
    let alloc = rt.alloc();
    let mut found = Found::new();
    let fences = vec![in alloc;
        FenceAt {
            device: 1,
            fence: 3
        },
    ]?;
    let mut store = MemStore::new(Vec::new(alloc), vec![in alloc; 7]?, fences);
    let went = count_on(&rt, alloc, &mut store, 0, 2)?;
    found.must(went == Went::NotKept(1), "not kept");
    let mut store = MemStore::new(
        Vec::new(alloc),
        Vec::new(alloc),
        vec![in alloc;
            FenceAt {
                device: 1,
                fence: 3
            },
        ]?,
    );
    let broken = Went::Kept {
        before: 0,
        added: 6,
        broken: 1,
        spent: true,
    };
    let went = count_on(&rt, alloc, &mut store, 0, 2)?;
    found.must(went == broken, "broken");
    found.ended()
}
