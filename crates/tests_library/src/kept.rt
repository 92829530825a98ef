//! Guests who take seats of a hall in threads: gone on with, refused, and recovered.

use crate::hall::{Hall, HallOp, HallReply};
use onll_keeps::{BeginFault, NotBegun, recover_kept, serve_kept};
use onll_outside::{Directory, MemStore};
use onll_pmem::Pmem;
use onll_rows::Plain;
use onll_serve::{ServeFault, Served};
use onll_threads::{Begun, Seat, Work};
use std::alloc::{AllocError, Global};
use std::sync::Wait;
use std::test::Fail;
use std::thread::Threads;
use tests_found::Found;

/// Asks for two seats.
#[derive(Drop)]
struct Guest<'a, R: Wait> {
    rt: &'a R,
}

impl<'a, R: Wait + Sync> Work<Plain<Hall>> for Guest<'a, R> {
    type Answer = u64;

    ghost promise = { λ old new calls ends seats. Unit {0} };

    fn work<P: Pmem, B: Begun<Plain<Hall>, P>>(
        &mut self,
        seat: &mut Seat<'_, Plain<Hall>, P, B>,
    ) -> u64 {
        let mut seats: u64 = 0;
        for _ in 0..2 {
            if let Ok(HallReply::Seat(_)) = seat.update(self.rt, HallOp::Take) {
                seats = seats.saturating_add(1);
            }
        }
        seat.done();
        seats
    }
}

/// How it went.
#[derive(Clone, Copy, Debug, PartialEq, Eq)]
enum Went {
    /// It went on from so many updates, and so many seats were given.
    Kept { before: u64, seats: u64 },
    /// It didn't begin, and so many works were handed back.
    NotBegun { fault: BeginFault, works: u64 },
    NotKept,
}

/// Two guests come to a hall of which so many seats were taken at first.
fn two_come<R: Threads + Wait + Sync, S: Directory>(
    rt: &R,
    alloc: Global,
    store: &mut S,
    taken: u64,
) -> Result<Went, AllocError> {
    let guests = vec![in alloc; Guest { rt }, Guest { rt }]?;
    match serve_kept(rt, alloc, store, "hall", Plain::of(Hall { taken }), guests) {
        Ok(
            Served {
                before,
                answers,
                kept: Ok(()),
                ..
            },
        ) => {
            let mut seats: u64 = 0;
            for it in &answers {
                seats = seats.saturating_add(*it);
            }
            Ok(Went::Kept { before, seats })
        }
        Ok(_) => Ok(Went::NotKept),
        Err(NotBegun { works, fault }) => Ok(Went::NotBegun {
            fault,
            works: works.len() as u64,
        }),
    }
}

/// Three seats are given, whoever comes first, and none after that.
#[test]
fn served(rt: HostRuntime) -> Result<(), Fail> {
    let alloc = rt.alloc();
    let mut found = Found::new();
    let mut store = MemStore::new(Vec::new(alloc), Vec::new(alloc), Vec::new(alloc));
    let went = two_come(&rt, alloc, &mut store, 0)?;
    found.must(
        went == Went::Kept {
            before: 0,
            seats: 3,
        },
        "three seats",
    );
    let went = two_come(&rt, alloc, &mut store, 0)?;
    found.must(
        went == Went::Kept {
            before: 4,
            seats: 0,
        },
        "no seat more",
    );
    let hall = Plain::of(Hall { taken: 0 });
    match recover_kept(alloc, &mut store, "hall", 2, hall) {
        Ok(recovered) => found.must(recovered.object.state().taken == 3, "all are taken"),
        Err(_) => found.must(false, "recovered"),
    }
    found.ended()
}

/// Nothing is begun where more seats are taken than there are, and a service that isn't begun says why.
#[test]
fn refused(rt: HostRuntime) -> Result<(), Fail> {
    let alloc = rt.alloc();
    let mut found = Found::new();
    let mut store = MemStore::new(Vec::new(alloc), Vec::new(alloc), Vec::new(alloc));
    let went = two_come(&rt, alloc, &mut store, 4)?;
    let not_begun = Went::NotBegun {
        fault: BeginFault::MayNotBegin,
        works: 2,
    };
    found.must(went == not_begun, "four seats are taken");
    let went = two_come(&rt, alloc, &mut store, 3)?;
    found.must(
        went == Went::Kept {
            before: 0,
            seats: 0,
        },
        "three are",
    );
    let went = two_come(&rt, alloc, &mut store, 0)?;
    let is_other = matches!(
        went,
        Went::NotBegun {
            fault: BeginFault::NotServed(ServeFault::NotOpened(_)),
            works: 2,
        },
    );
    found.must(is_other, "the hall's logs began with three");
    found.ended()
}
