//! A counter over files: `onll_count NAME THREADS TIMES` begins it or goes on with it, adds 1 in each thread by turns, and keeps it.
#![tactic(auto)]

ghost use Rattle.std.specs.Prelude.{◌<◌, ◌≤◌, length, OnOk};
ghost use Rattle.onll_model.specs.Limits.{most_threads};
ghost use Rattle.onll_count.specs.Turns.{AreBetween};

use onll_counter::{Count, CounterOp};
use onll_model::MOST_THREADS;
use onll_open::{CloseFault, Opened, close, open};
use onll_outside::{FileStore, FreeGate};
use onll_pmem::Pmem;
use onll_rows::Plain;
use onll_shared::{Onll, Pass};
use std::fmt::Display;
use std::process::ExitCode;
use std::sync::Wait;
use std::{env, io};

/// The thread whose turn it is, of so many.
fn thread_at(turn: u64, threads: usize) -> usize
    requires { 0 < threads }
    ensures { result < threads }
{
    (turn % threads as u64) as usize
}

/// Adds 1 by turns in each thread, so often in all, and says after each turn whether it was acknowledged. The numbers count those that
/// were.
#[tactic(auto, using(crate::proofs::Turned::all_get))]
fn add_all<P: Pmem>(
    rt: &HostRuntime,
    wait: &impl Wait,
    onll: &Onll<Plain<Count>>,
    passes: &mut [Pass<Plain<Count>, P>],
    turns: u64,
) -> io::Result<()>
    requires some { 0 < length passes.old }
    requires between { AreBetween P.means onll.now passes.old }
    ensures { OnOk result (AreBetween P.means onll.now passes.new) }
{
    let mut added: u64 = 0;
    for turn in 0..turns {
        let thread = thread_at(turn, passes.len());
        let one = CounterOp::Add { more: 1 };
        let done = onll.update(wait, &mut passes[thread], one, &FreeGate);
        if done.is_ok() {
            added = added.saturating_add(1);
            println!(rt; "added {thread} {added}")?;
        } else {
            println!(rt; "not added {thread}")?;
        }
    }
    Ok(())
}

/// Says this last, and ends with this status.
fn ended<D: Display + Drop>(rt: &HostRuntime, said: D, status: u8) -> io::Result<ExitCode> {
    println!(rt; "{said}")?;
    Ok(ExitCode::from(status))
}

/// Opens the counter of this name, adds to it and keeps it.
fn count(
    rt: &HostRuntime,
    wait: &impl Wait,
    name: &str,
    threads: u64,
    times: u16,
) -> io::Result<ExitCode>
    requires { (1 ≤ threads) × (threads ≤ most_threads) }
{
    let mut store = FileStore::new(rt);
    let object = Plain::of(Count { count: 0 });
    let opened = match open(rt.alloc(), &mut store, name, object, threads) {
        Ok(opened) => opened,
        Err(fault) => return ended(rt, fault.named(name), 1),
    };
    let Opened {
        onll,
        mut passes,
        recovered,
    } = opened;
    println!(rt; "goes on from {recovered}")?;
    add_all(rt, wait, &onll, &mut passes, threads * times as u64)?;
    match close(rt.alloc(), &mut store, name, onll, passes) {
        Ok(()) => ended(rt, "kept", 0),
        Err(CloseFault::NotKept(fault)) => ended(rt, fault.named(name), 1),
        Err(CloseFault::NoMemory(_)) => ended(rt, "out of memory", 1),
    }
}

/// Does what the words say. Where that can't be said, the process ends with 1.
fn main(rt: HostRuntime) -> io::Result<ExitCode> {
    let mut words = Vec::new(rt.alloc());
    for word in env::args(&rt)?.skip(1) {
        words.push(word)?;
    }
    if let [name, threads, times] = words.as_slice() {
        if let (Ok(threads), Ok(times)) = (threads.parse(), times.parse()) {
            if 1 <= threads && threads <= MOST_THREADS {
                return count(&rt, &rt, name, threads, times);
            }
        }
    }
    ended(&rt, "usage: onll_count NAME THREADS TIMES", 2)
}
