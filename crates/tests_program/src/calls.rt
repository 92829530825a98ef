//! What the tests of the program share: a call of it, and how it ended.

use onll_outside::{FenceAt, FreeGate, Gate, MemSink, MemStore, Named, Store};
use std::alloc::{AllocError, Global};
use std::str;
use std::sync::Wait;
use std::test::Fail;
use std::thread::Threads;

/// One call of the program: its words, the files that are there, and the numbers of the store's calls
/// and of the sink's puts that fail.
#[derive(Clone, Copy)]
pub(crate) struct Program<'a> {
    pub(crate) words: &'a [&'a str],
    pub(crate) files: &'a [(&'a str, &'a [u8])],
    pub(crate) failing_calls: &'a [u64],
    pub(crate) failing_puts: &'a [u64],
}

/// How a call ended: its status, what the sink had taken then, and whether the store or the sink counted
/// a fault.
#[derive(Drop)]
pub(crate) struct Outcome {
    status: u8,
    taken: Vec<u8>,
    failed: bool,
}

/// Words of the program as it takes them.
pub(crate) fn words_of(alloc: Global, texts: &[&str]) -> Result<Vec<String>, AllocError> {
    let mut words = Vec::new(alloc);
    for text in texts {
        words.push(String::from_str(alloc, text)?)?;
    }
    Ok(words)
}

/// A file of this name.
fn named(alloc: Global, name: &str, bytes: &[u8]) -> Result<Named, AllocError> {
    Ok(Named {
        name: String::from_str(alloc, name)?,
        bytes: Vec::from_slice(alloc, bytes)?,
    })
}

fn files_of(alloc: Global, texts: &[(&str, &[u8])]) -> Result<Vec<Named>, AllocError> {
    let mut files = Vec::new(alloc);
    for (name, bytes) in texts {
        files.push(named(alloc, name, bytes)?)?;
    }
    Ok(files)
}

impl<'a> Program<'a> {
    /// A call of which nothing fails.
    pub(crate) fn new(words: &'a [&'a str], files: &'a [(&'a str, &'a [u8])]) -> Program<'a> {
        Program {
            words,
            files,
            failing_calls: &[],
            failing_puts: &[],
        }
    }

    /// A store of the files.
    pub(crate) fn store(&self, alloc: Global) -> Result<MemStore, AllocError> {
        self.store_with(alloc, &[])
    }

    /// A store of the files, on whose devices these fences fail.
    pub(crate) fn store_with(
        &self,
        alloc: Global,
        fences: &[FenceAt],
    ) -> Result<MemStore, AllocError> {
        let files = files_of(alloc, self.files)?;
        let failing_calls = Vec::from_slice(alloc, self.failing_calls)?;
        let fences = Vec::from_slice(alloc, fences)?;
        Ok(MemStore::new(files, failing_calls, fences))
    }

    /// Runs the program over any store and a sink of its own, with threads that this gate may hold. Faults of the sink alone count.
    pub(crate) fn call<R: Threads + Wait + Sync, S: Store, G: Gate + Sync>(
        &self,
        rt: &R,
        alloc: Global,
        store: &mut S,
        gate: &G,
    ) -> Result<Outcome, AllocError> {
        let words = words_of(alloc, self.words)?;
        let failing_puts = Vec::from_slice(alloc, self.failing_puts)?;
        let mut sink = MemSink::new(alloc, failing_puts);
        let status = onll_jobs::onll(rt, alloc, &words, store, &mut sink, gate);
        let taken = Vec::from_slice(alloc, sink.taken())?;
        let failed = sink.faults() != 0;
        Ok(Outcome {
            status,
            taken,
            failed,
        })
    }

    /// Runs the program over this store and a sink of its own, with threads that this gate may hold.
    pub(crate) fn run_at<R: Threads + Wait + Sync, G: Gate + Sync>(
        &self,
        rt: &R,
        alloc: Global,
        store: &mut MemStore,
        gate: &G,
    ) -> Result<Outcome, AllocError> {
        let faults = store.faults();
        let mut outcome = self.call(rt, alloc, store, gate)?;
        outcome.failed = outcome.failed || store.faults() != faults;
        Ok(outcome)
    }

    /// Runs the program over this store and a sink of its own.
    pub(crate) fn run_over<R: Threads + Wait + Sync>(
        &self,
        rt: &R,
        alloc: Global,
        store: &mut MemStore,
    ) -> Result<Outcome, AllocError> {
        self.run_at(rt, alloc, store, &FreeGate)
    }

    /// Runs the program over a store and a sink of its own.
    pub(crate) fn run<R: Threads + Wait + Sync>(
        &self,
        rt: &R,
        alloc: Global,
    ) -> Result<Outcome, AllocError> {
        let mut store = self.store(alloc)?;
        self.run_over(rt, alloc, &mut store)
    }

    /// Runs the program over any store, and fails unless it ends well and the whole text is this.
    pub(crate) fn expect_over<R: Threads + Wait + Sync, S: Store>(
        &self,
        rt: &R,
        alloc: Global,
        store: &mut S,
        case: &str,
        text: &str,
    ) -> Result<(), Fail> {
        self.call(rt, alloc, store, &FreeGate)?
            .expect(case, 0, text)
    }

    /// The words of an audit of this run.
    fn audit_words(&self, alloc: Global) -> Result<Vec<&'a str>, AllocError> {
        let mut words = Vec::new(alloc);
        for (place, word) in self.words.iter().enumerate() {
            words.push(match place {
                0 => "audit",
                2 => "printed",
                _ => *word,
            })?;
        }
        Ok(words)
    }

    /// Audits what this run printed, over the run's own files, and fails unless it is legal.
    pub(crate) fn expect_legal<R: Threads + Wait + Sync>(
        &self,
        rt: &R,
        alloc: Global,
        printed: &str,
    ) -> Result<(), Fail> {
        let words = self.audit_words(alloc)?;
        let mut files = Vec::from_slice(alloc, self.files)?;
        files.push(("printed", printed.as_bytes()))?;
        Program::new(&words, &files).expect(rt, alloc, "what was printed", 0, "legal\n")
    }

    /// Runs the program over a store of its own, and fails unless the status and the whole text are these.
    pub(crate) fn expect<R: Threads + Wait + Sync>(
        &self,
        rt: &R,
        alloc: Global,
        case: &str,
        status: u8,
        text: &str,
    ) -> Result<(), Fail> {
        self.run(rt, alloc)?.expect(case, status, text)
    }
}

impl Outcome {
    /// Fails unless the status is this, and a fault was counted exactly where the status tells one.
    fn expect_status(&self, case: &str, status: u8) -> Result<(), Fail> {
        if self.status != status {
            return Err(Fail::new(format_args!("{case}: status {}, not {status}", self.status)));
        }
        if self.failed != matches!(status, 5 | 6) {
            return Err(Fail::new(format_args!("{case}: faults")));
        }
        Ok(())
    }

    /// What was printed.
    pub(crate) fn text(&self) -> &str {
        str::from_utf8(&self.taken).unwrap_or("no text")
    }

    /// Fails unless the status is this and the output has this line.
    pub(crate) fn expect_line(&self, case: &str, status: u8, line: &str) -> Result<(), Fail> {
        self.expect_status(case, status)?;
        if !self.text().lines().any(|said| said == line) {
            return Err(Fail::new(format_args!("{case}: not said: {line}")));
        }
        Ok(())
    }

    /// Fails unless the status and the whole text are these, and shows the first line that differs.
    pub(crate) fn expect(&self, case: &str, status: u8, text: &str) -> Result<(), Fail> {
        self.expect_status(case, status)?;
        let taken = self.text();
        let mut wanted = text.lines();
        for line in taken.lines() {
            let next = wanted.next().unwrap_or("the end");
            if line != next {
                return Err(Fail::new(format_args!("{case}: says {line}, not {next}")));
            }
        }
        if taken != text {
            return Err(Fail::new(format_args!("{case}: the end differs")));
        }
        Ok(())
    }
}
