//! A meter that counts for ever: `onll_meter NAME CLERKS EACH` lets each clerk count so many things over files, in a thread of its own. It
//! goes on by itself at each start, and over any number of eras.
#![tactic(auto)]

mod clerk;
mod meter;
mod metering;

use crate::clerk::{Clerk, Ending, Tally};
use crate::meter::Meter;
use crate::metering::count_on;
use onll_live::Lived;
use onll_open::CloseFault;
use onll_outside::FileStore;
use onll_pmem::Pmem;
use onll_rows::Plain;
use std::fmt::Display;
use std::process::ExitCode;
use std::sync::Wait;
use std::thread::Threads;
use std::{env, io};

/// Says this last, and ends with this status.
fn ended<D: Display + Drop>(rt: &HostRuntime, said: D, status: u8) -> io::Result<ExitCode> {
    println!(rt; "{said}")?;
    Ok(ExitCode::from(status))
}

/// The greatest total that a clerk found: who ended last found all.
fn total_in(counted: &[Tally]) -> u64 {
    let mut total = 0;
    for it in counted {
        if it.total > total {
            total = it.total;
        }
    }
    total
}

/// Says which clerks haven't counted all. Whether all have.
fn report(rt: &HostRuntime, counted: &[Tally]) -> io::Result<bool> {
    let mut all = true;
    for (thread, Tally { ending, .. }) in counted.iter().enumerate() {
        if *ending != Ending::Done {
            all = false;
            println!(rt; "clerk {thread}: {ending}")?;
        }
    }
    Ok(all)
}

/// Says what was counted, and how it ended.
fn settled<P: Pmem + Drop, W: Drop>(
    rt: &HostRuntime,
    lived: Lived<Plain<Meter>, P, W, Tally>,
) -> io::Result<ExitCode> {
    let Lived {
        era,
        served,
        fault,
        ..
    } = lived;
    let all = report(rt, &served.answers)?;
    let total = total_in(&served.answers);
    println!(rt; "era {era}, {total} counted")?;
    if let Some(fault) = fault {
        return ended(rt, fault, 1);
    }
    match served.kept {
        Ok(()) => ended(rt, "kept", if all { 0 } else { 1 }),
        Err(CloseFault::NotKept(fault)) => ended(rt, fault, 1),
        Err(CloseFault::NoMemory(_)) => ended(rt, "out of memory", 1),
    }
}

/// Lets so many clerks count so many things each.
fn run_meter<R: Threads + Wait + Sync + Print>(
    rt: &HostRuntime,
    threads: &R,
    name: &str,
    count: u64,
    each: u64,
) -> io::Result<ExitCode> {
    let mut clerks = Vec::new(rt.alloc());
    for _ in 0..count {
        clerks.push(Clerk {
            rt: threads,
            left: each,
            silent: false,
        })?;
    }
    let mut store = FileStore::new(rt);
    match count_on(threads, rt.alloc(), &mut store, name, clerks) {
        Ok(lived) => settled(rt, lived),
        Err(e) => ended(rt, e.fault, 1),
    }
}

/// Does what the words say. Where that can't be said, the process ends with 1.
fn main(rt: HostRuntime) -> io::Result<ExitCode> {
    let mut words = Vec::new(rt.alloc());
    for word in env::args(&rt)?.skip(1) {
        words.push(word)?;
    }
    if let [name, clerks, each] = words.as_slice() {
        if let (Ok(clerks), Ok(each)) = (clerks.parse(), each.parse()) {
            return run_meter(&rt, &rt, name, clerks, each);
        }
    }
    ended(&rt, "usage: onll_meter NAME CLERKS EACH", 2)
}
