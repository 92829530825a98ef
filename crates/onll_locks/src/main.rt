//! Locks over a pipe: `onll_locks NAME THREADS` answers requests, each a line of the standard input, in so many threads, and goes on by
//! itself at each start from the files `NAME.0`, `NAME.1` and so on.
#![tactic(auto)]

mod clerk;
mod laws;
mod locks;
mod request;
mod service;

use crate::clerk::{Clerk, Desk};
use crate::service::serve_locks;
use onll_outside::FileStore;
use onll_serve::report;
use std::process::ExitCode;
use std::sync::Wait;
use std::thread::Threads;
use std::{env, io};

/// Lets so many clerks answer, and says how they ended.
fn run_service<R: Threads + Wait + Sync + Print>(
    rt: &HostRuntime,
    threads: &R,
    name: &str,
    count: u64,
) -> io::Result<ExitCode> {
    let desk = Desk::new(rt.alloc(), rt.stdin());
    let mut clerks = Vec::new(rt.alloc());
    for _ in 0..count {
        clerks.push(Clerk {
            rt: threads,
            desk: &desk,
        })?;
    }
    let mut store = FileStore::new(rt);
    let served = serve_locks(threads, rt.alloc(), &mut store, name, clerks);
    report(rt, name, "clerk", &served)
}

/// Does what the words say. Where that can't be said, the process ends with 1.
fn main(rt: HostRuntime) -> io::Result<ExitCode> {
    let mut words = Vec::new(rt.alloc());
    for word in env::args(&rt)?.skip(1) {
        words.push(word)?;
    }
    if let [name, threads] = words.as_slice() {
        if let Ok(threads) = threads.parse() {
            return run_service(&rt, &rt, name, threads);
        }
    }
    println!(&rt; "usage: onll_locks NAME THREADS")?;
    Ok(ExitCode::from(2))
}
