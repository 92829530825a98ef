//! Tickets over files: `onll_tickets NAME BUYERS EACH TICKETS` lets each buyer draw so many at most, in a thread of its own, and goes on by
//! itself at each start.
#![tactic(auto)]

mod buyer;
mod market;
mod tickets;

use crate::buyer::Buyer;
use crate::market::sell;
use onll_outside::FileStore;
use onll_serve::report;
use std::process::ExitCode;
use std::sync::Wait;
use std::thread::Threads;
use std::{env, io};

/// What is asked for: the name of the files, how many buyers there are, how many tickets each wants, and how many there are at first.
#[derive(Drop)]
struct Sale<'a> {
    name: &'a str,
    buyers: u64,
    each: u16,
    tickets: u64,
}

/// Lets so many buyers draw, and says what they did.
fn run_sale<R: Threads + Wait + Sync + Print>(
    rt: &HostRuntime,
    threads: &R,
    sale: Sale<'_>,
) -> io::Result<ExitCode> {
    let Sale {
        name,
        buyers: count,
        each,
        tickets,
    } = sale;
    let mut buyers = Vec::new(rt.alloc());
    for _ in 0..count {
        buyers.push(Buyer {
            rt: threads,
            most: each,
        })?;
    }
    let mut store = FileStore::new(rt);
    let sold = sell(threads, rt.alloc(), &mut store, name, tickets, buyers);
    report(rt, name, "buyer", &sold)
}

/// Does what the words say. Where that can't be said, the process ends with 1.
fn main(rt: HostRuntime) -> io::Result<ExitCode> {
    let mut words = Vec::new(rt.alloc());
    for word in env::args(&rt)?.skip(1) {
        words.push(word)?;
    }
    if let [name, buyers, each, tickets] = words.as_slice() {
        if let (Ok(buyers), Ok(each), Ok(tickets)) = (
            buyers.parse(),
            each.parse(),
            tickets.parse(),
        ) {
            let sale = Sale {
                name,
                buyers,
                each,
                tickets,
            };
            return run_sale(&rt, &rt, sale);
        }
    }
    println!(&rt; "usage: onll_tickets NAME BUYERS EACH TICKETS")?;
    Ok(ExitCode::from(2))
}
