//! Threads that try updates once each, and the points of a gate that a try reaches where another thread comes first.
ghost use Rattle.onll_bank.specs.Object.{bank};
ghost use Rattle.onll_pmem.specs.Memory.{memory_view};
ghost use Rattle.onll_shared.specs.Passes.{IsTied};
ghost use Rattle.tests_shared_calls.specs.Tied.{AreTied};

use onll_bank::{Bank, BankOp};
use onll_pmem::MemPmem;
use onll_shared::{Onll, Pass, TryFault};
use std::alloc::AllocError;
use std::test::Fail;
use std::thread;
use std::thread::Threads;
use tests_shared_calls::{CountGate, must, open_all};

/// How many tries each thread makes.
const TRIES: u64 = 1000;

/// How many tries were answered, and before how many another thread came first.
#[derive(Clone, Copy, Debug, PartialEq, Eq)]
struct Counts {
    answered: u64,
    moved: u64,
}

/// Tries a deposit, and counts its answer.
fn try_one(
    onll: &Onll<Bank>,
    pass: &mut Pass<Bank, MemPmem>,
    gate: &CountGate,
    counts: Counts,
) -> Counts
    requires { IsTied bank memory_view onll.now pass.old }
    ensures { IsTied bank memory_view onll.now pass.new }
{
    let Counts { answered, moved } = counts;
    match onll.try_update(pass, BankOp::Deposit { a: 0, x: 1 }, gate) {
        Ok(_) => Counts {
            answered: answered.saturating_add(1),
            moved,
        },
        Err(TryFault::Moved { .. }) => Counts {
            answered,
            moved: moved.saturating_add(1),
        },
        Err(_) => counts,
    }
}

/// All tries of a thread.
fn try_all(onll: &Onll<Bank>, mut pass: Pass<Bank, MemPmem>, gate: &CountGate) -> Counts
    requires { IsTied bank memory_view onll.now pass }
{
    let mut counts = Counts {
        answered: 0,
        moved: 0,
    };
    for _ in 0..TRIES {
        counts = try_one(onll, &mut pass, gate, counts);
    }
    counts
}

/// Whether each try of a thread was answered or came too late, each came to the first point, and each answered one to the others.
fn are_counted(counts: Counts, arrivals: [u64; 5]) -> bool {
    let Counts { answered, moved } = counts;
    answered.saturating_add(moved) == TRIES
        && arrivals == [TRIES, answered, answered, answered, answered]
}

/// Whether the points of all threads are those of their tries.
fn try_in_threads<R: Threads + Sync>(
    rt: &R,
    onll: &Onll<Bank>,
    passes: Vec<Pass<Bank, MemPmem>>,
) -> Result<Vec<bool>, AllocError>
    requires { AreTied bank memory_view onll.now passes.items }
{
    thread::map_vec(
        rt,
        passes,
        &|pass: Pass<Bank, MemPmem>| -> bool
            requires { IsTied bank memory_view onll.now pass }
        {
            let gate = CountGate::new();
            let counts = try_all(onll, pass, &gate);
            are_counted(counts, gate.all())
        },
    )
}

#[test]
fn a_lost_try_comes_to_the_first_point_alone(rt: HostRuntime) -> Result<(), Fail> {
    let bank = Bank::make(rt.alloc(), 2)?;
    let (onll, passes) = open_all(rt.alloc(), bank, 4)?;
    let fits = try_in_threads(&rt, &onll, passes)?;
    must(fits.iter().all(|fit| *fit), "other points")
}
