//! A shop over files: `onll_stock NAME ITEMS CUSTOMERS NEEDS BOX` has so many items at first; each customer needs so many and buys them in
//! boxes of so many, in a thread of its own. It goes on by itself at each start.
#![tactic(auto)]

mod customer;
mod shop;
mod stock;

use crate::customer::Customer;
use crate::shop::run_shop;
use onll_outside::FileStore;
use onll_serve::report;
use std::sync::Wait;
use std::thread::Threads;
use std::{env, io, process};

/// Opens the shop of this name for so many customers, and says what they did.
fn open_shop<R: Threads + Wait + Sync + Print>(
    rt: &HostRuntime,
    threads: &R,
    name: &str,
    [items, count, needs, of_box]: [u64; 4],
) -> io::Result<process::ExitCode> {
    let mut customers = Vec::new(rt.alloc());
    for _ in 0..count {
        customers.push(Customer {
            rt: threads,
            needs,
            of_box,
        })?;
    }
    let mut store = FileStore::new(rt);
    let served = run_shop(threads, rt.alloc(), &mut store, name, items, customers);
    report(rt, name, "customer", &served)
}

/// Does what the words say. Where that can't be said, the process ends with 1.
fn main(rt: HostRuntime) -> io::Result<process::ExitCode> {
    let mut words = Vec::new(rt.alloc());
    for word in env::args(&rt)?.skip(1) {
        words.push(word)?;
    }
    if let [name, items, customers, needs, of_box] = words.as_slice() {
        if let (Ok(items), Ok(count), Ok(needs), Ok(of_box)) = (
            items.parse(),
            customers.parse(),
            needs.parse(),
            of_box.parse(),
        ) {
            return open_shop(&rt, &rt, name, [items, count, needs, of_box]);
        }
    }
    println!(&rt; "usage: onll_stock NAME ITEMS CUSTOMERS NEEDS BOX")?;
    Ok(process::ExitCode::from(2))
}
