//! A bank that lives over eras in memory: each deposit that was answered stands in the newest, and the next call goes on from it.

use onll_bank::{Bank, BankOp, BankQuery, BankReply};
use onll_live::{Lived, live};
use onll_outside::{Directory, MemStore};
use onll_pmem::Pmem;
use onll_printed::{Printed, Readable};
use onll_threads::{Begun, Seat, Work};
use onll_words::NoMemory;
use std::alloc::Global;
use std::sync::Wait;
use std::test::Fail;
use std::thread::Threads;
use tests_found::Found;

/// Who deposits 1 so often, and tells the bank's total at its end.
#[derive(Drop)]
struct Depositor<'a, R: Wait> {
    rt: &'a R,
    left: u64,
}

impl<'a, R: Wait + Sync> Work<Printed<Bank>> for Depositor<'a, R> {
    type Answer = u64;

    ghost promise = { λ old new calls ends total. Unit {0} };

    fn work<P: Pmem, B: Begun<Printed<Bank>, P>>(
        &mut self,
        seat: &mut Seat<'_, Printed<Bank>, P, B>,
    ) -> u64 {
        let left = self.left;
        for _ in 0..left {
            if seat
                .update(self.rt, BankOp::Deposit { a: 0, x: 1 })
                .is_err()
            {
                break;
            }
            self.left = self.left.saturating_sub(1);
        }
        let total = seat.read(BankQuery::Total);
        seat.done();
        match total {
            BankReply::Amount(total) => total,
            _ => 0,
        }
    }
}

/// So many depositors go on from what the store holds; the number of the last era and the greatest total, where all went well.
fn go_on<R: Threads + Wait + Sync, S: Directory>(
    rt: &R,
    alloc: Global,
    store: &mut S,
    many: u64,
    left: u64,
) -> Result<Option<(u64, u64)>, NoMemory> {
    let Some(bank) = Bank::read_state(alloc, b"bank 1")? else {
        return Ok(None);
    };
    let mut works = Vec::new(alloc);
    for _ in 0..many {
        works.push(Depositor { rt, left })?;
    }
    match live(rt, alloc, store, "bank", Printed::of(bank), works) {
        Ok(
            Lived {
                era,
                served,
                fault,
                ..
            },
        ) => {
            if fault.is_some() || served.kept.is_err() {
                return Ok(None);
            }
            let mut most = 0;
            for total in &served.answers {
                most = most.max(*total);
            }
            Ok(Some((era, most)))
        }
        Err(_) => Ok(None),
    }
}

#[test]
fn of_a_bank(rt: HostRuntime) -> Result<(), Fail> {
    let alloc = rt.alloc();
    let mut found = Found::new();
    let mut store = MemStore::new(Vec::new(alloc), Vec::new(alloc), Vec::new(alloc));
    found.must(
        go_on(&rt, alloc, &mut store, 2, 5000)? == Some((1, 10000)),
        "one change",
    );
    found.must(
        go_on(&rt, alloc, &mut store, 2, 10)? == Some((1, 10020)),
        "no change",
    );
    found.must(
        go_on(&rt, alloc, &mut store, 2, 4000)? == Some((2, 18020)),
        "one more",
    );
    found.ended()
}

#[test]
fn of_other_numbers_of_threads(rt: HostRuntime) -> Result<(), Fail> {
    let alloc = rt.alloc();
    let mut found = Found::new();
    let mut store = MemStore::new(Vec::new(alloc), Vec::new(alloc), Vec::new(alloc));
    found.must(
        go_on(&rt, alloc, &mut store, 3, 10)? == Some((0, 30)),
        "three threads",
    );
    found.must(
        go_on(&rt, alloc, &mut store, 1, 5)? == Some((1, 35)),
        "one thread",
    );
    found.must(
        go_on(&rt, alloc, &mut store, 1, 4)? == Some((1, 39)),
        "one thread again",
    );
    found.must(
        go_on(&rt, alloc, &mut store, 4, 2)? == Some((2, 47)),
        "four threads",
    );
    found.ended()
}
