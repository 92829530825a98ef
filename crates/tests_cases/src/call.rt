//! A call of the program, and how it ended.

use onll_outside::{FreeGate, MemSink, MemStore, Named};
use std::alloc::Global;
use std::io;
use std::sync::Wait;
use std::thread::Threads;

/// How a call ended: its status, what it printed, and whether the store or the output counted a fault.
#[derive(Drop)]
pub(crate) struct Outcome {
    pub(crate) status: u8,
    pub(crate) printed: Vec<u8>,
    pub(crate) failed: bool,
}

/// Runs the program over this store and an output of its own, of whose puts these fail.
pub(crate) fn call<R: Threads + Wait + Sync>(
    rt: &R,
    alloc: Global,
    words: &[String],
    store: &mut MemStore,
    failing_puts: Vec<u64>,
) -> io::Result<Outcome> {
    let faults = store.faults();
    let mut sink = MemSink::new(alloc, failing_puts);
    let status = onll_jobs::onll(rt, alloc, words, store, &mut sink, &FreeGate);
    let printed = Vec::from_slice(alloc, sink.taken())?;
    Ok(Outcome {
        status,
        printed,
        failed: sink.faults() != 0 || store.faults() != faults,
    })
}

/// A file of this name.
pub(crate) fn named(alloc: Global, name: &str, bytes: &[u8]) -> io::Result<Named> {
    Ok(Named {
        name: String::from_str(alloc, name)?,
        bytes: Vec::from_slice(alloc, bytes)?,
    })
}
