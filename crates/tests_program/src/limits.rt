//! How many bytes of a file each command reads at most: a longer file isn't read whole.

ghost use Rattle.std.specs.Prelude.{refl};
ghost use Rattle.onll_outside.specs.MemStore.{store_of};

use crate::calls::{Program, words_of};
use onll_outside::{FreeGate, MemSink, MemStore, OutsideFault, Store};
use onll_pmem::MemPmem;
use onll_words::Line;
use std::alloc::{AllocError, Global};
use std::sync::Wait;
use std::test::Fail;
use std::thread::Threads;

/// The longest text and one byte that is too many.
const TEXT: u64 = 1_048_577;

/// The bytes of the greatest log: 69,633 lines.
const IMAGE: u64 = 4_456_512;

/// A store that keeps how many bytes it was asked for, one number for each read.
#[derive(Drop)]
struct Asked {
    files: MemStore,
    limits: Vec<u64>,
}

impl Store for Asked {
    type Dev = MemPmem;

    ghost seen = { λ s. store_of s.files };

    fn read(&mut self, alloc: Global, name: &str, limit: u64) -> Result<Vec<u8>, OutsideFault> {
        let Ok(()) = self.limits.push(limit) else {
            return Err(OutsideFault::NoMemory);
        };
        self.files.read(alloc, name, limit)
    }

    fn write(&mut self, alloc: Global, name: &str, bytes: &[u8]) -> Result<(), OutsideFault> {
        self.files.write(alloc, name, bytes)
    }

    fn device(&mut self, alloc: Global, name: &str, lines: u64) -> Result<MemPmem, OutsideFault> {
        self.files.device(alloc, name, lines)
    }

    fn reopen(
        &mut self,
        alloc: Global,
        name: &str,
        front: &[Line],
        lines: u64,
    ) -> Result<MemPmem, OutsideFault> {
        self.files.reopen(alloc, name, front, lines)
    }

    fn keep(&mut self, alloc: Global, name: &str, device: MemPmem) -> Result<(), OutsideFault> {
        self.files.keep(alloc, name, device)
    }

    fn give_up(&mut self, device: MemPmem) {
        self.files.give_up(device);
    }

    ghost devices_tell = { λ store told. refl };
}

const FILES: &[(&str, &[u8])] = &[
    ("i", b"bank 1\n"),
    ("s", b"deposit 0 5\n"),
    ("c", b"crash 0\n"),
    ("out.0", &[0; 64]),
];

/// The words of a call of the program, and the limits of its reads in order.
const CALLS: &[(&[&str], &[u64])] = &[
    (&["fold", "i", "s"], &[TEXT, TEXT]),
    (&["show", "out.0"], &[IMAGE]),
    (&["recover", "i", "out", "1"], &[TEXT, IMAGE]),
    (&["replay", "i", "c", "out", "s"], &[TEXT, TEXT, TEXT]),
    (&["fold", "i"], &[]),
];

/// The limits of the reads that these words make.
fn limits_of<R: Threads + Wait + Sync>(
    rt: &R,
    alloc: Global,
    texts: &[&str],
) -> Result<Vec<u64>, AllocError> {
    let words = words_of(alloc, texts)?;
    let mut store = Asked {
        files: Program::new(texts, FILES).store(alloc)?,
        limits: Vec::new(alloc),
    };
    let mut sink = MemSink::new(alloc, Vec::new(alloc));
    let _status = onll_jobs::onll(rt, alloc, &words, &mut store, &mut sink, &FreeGate);
    Ok(store.limits)
}

#[test]
fn no_more_is_read_than_a_command_needs(rt: HostRuntime) -> Result<(), Fail> {
    for (words, limits) in CALLS {
        let asked = limits_of(&rt, rt.alloc(), words)?;
        assert_eq!(rt; asked.as_slice(), *limits, "{:?}", words);
    }
    Ok(())
}
