//! Sinks in memory, over streams, and over the system.

use crate::checks::{Found, is_file, remove};
use onll_outside::{MemSink, OutSink, OutsideFault, Sink};
use std::cell::Cell;
use std::io::{BufWriter, ErrorKind, Write};
use std::test::Fail;
use std::{fs, io};

/// Whether a sink refuses these bytes.
fn refuses<K: Sink>(sink: &mut K, bytes: &[u8]) -> bool {
    sink.put(bytes) == Err(OutsideFault::Failed)
}

#[test]
fn a_sink_in_memory(rt: HostRuntime) -> Result<(), Fail> {
    let mut sink = MemSink::new(rt.alloc(), Vec::from_slice(rt.alloc(), &[2])?);
    let mut found = Found::new();
    found.must(sink.put(b"one ").is_ok(), "the first");
    found.must(refuses(&mut sink, b"two "), "the second");
    found.must(sink.put(b"three").is_ok(), "the third");
    found.must(sink.taken() == b"one three".as_slice(), "other bytes");
    found.must(sink.faults() == 1, "not one fault");
    found.ended()
}

/// A stream that counts what reaches it, and has room for so many bytes.
#[derive(Drop)]
struct Narrow<'a> {
    reached: &'a Cell<usize>,
    room: usize,
    full: ErrorKind,
}

impl Write for Narrow<'_> {
    fn write(&mut self, buf: &[u8]) -> io::Result<usize> {
        if self.room == 0 {
            return Err(io::Error::from(self.full));
        }
        let count = buf.len().min(self.room);
        self.room -= count;
        self.reached.set(self.reached.get().saturating_add(count));
        Ok(count)
    }

    fn flush(&mut self) -> io::Result<()> {
        Ok(())
    }
}

/// Puts bytes into a sink: how many have then reached its stream, or the fault.
fn put_one<K: Sink>(
    sink: &mut K,
    bytes: &[u8],
    reached: &Cell<usize>,
) -> Result<usize, OutsideFault> {
    match sink.put(bytes) {
        Ok(()) => Ok(reached.get()),
        Err(fault) => Err(fault),
    }
}

/// Puts four bytes and then more into a sink whose stream has room for six: how many have then reached it, and the fault.
/// The writer keeps bytes back, and the sink has them reach the stream.
fn put_more<K: Sink>(found: &mut Found, sink: &mut K, reached: &Cell<usize>, fault: OutsideFault) {
    found.must(put_one(sink, b"four", reached) == Ok(4), "the first answer");
    let second = put_one(sink, b"more", reached);
    found.must(second == Err(fault), "the second answer");
    let third = put_one(sink, b"more", reached);
    found.must(third == Err(fault), "the third answer");
}

/// A stream that fills in this way has the sink answer this fault.
fn fills_with(rt: &HostRuntime, found: &mut Found, full: ErrorKind, fault: OutsideFault) {
    let reached = Cell::new(0);
    let narrow = Narrow {
        reached: &reached,
        room: 6,
        full,
    };
    let Ok(writer) = BufWriter::new(rt.alloc(), narrow) else {
        return found.must(false, "no memory");
    };
    let mut sink = OutSink::new(writer);
    put_more(found, &mut sink, &reached, fault);
    found.must(reached.get() == 6, "not all that has room");
}

#[test]
fn a_stream_that_fills(rt: HostRuntime) -> Result<(), Fail> {
    let mut found = Found::new();
    fills_with(
        &rt,
        &mut found,
        ErrorKind::StorageFull,
        OutsideFault::Failed,
    );
    fills_with(
        &rt,
        &mut found,
        ErrorKind::OutOfMemory,
        OutsideFault::NoMemory,
    );
    found.ended()
}

/// Puts two pieces into a file of this name.
fn put_two(rt: &HostRuntime, found: &mut Found, name: &str) {
    let Ok(file) = fs::create(rt, name) else {
        return found.must(false, "no file");
    };
    let mut sink = OutSink::new(file);
    found.must(sink.put(b"fault thread 1 ").is_ok(), "the first piece");
    found.must(sink.put(b"place 0\n").is_ok(), "the second piece");
}

/// A file opened to be read takes no bytes.
fn put_none(rt: &HostRuntime, found: &mut Found, name: &str) {
    let Ok(file) = fs::open(rt, name) else {
        return found.must(false, "no file to read");
    };
    let mut sink = OutSink::new(file);
    found.must(refuses(&mut sink, b"place 0\n"), "bytes were taken");
}

/// Whether the output takes bytes.
fn puts_out(rt: &HostRuntime) -> bool {
    OutSink::new(io::writer(rt)).put(b"put\n").is_ok()
}

#[test]
fn streams_of_the_system(rt: HostRuntime) -> Result<(), Fail> {
    let name = "onll_outside_test_stream";
    let mut found = Found::new();
    found.must(puts_out(&rt), "no output");
    put_two(&rt, &mut found, name);
    found.must(
        is_file(&rt, name, b"fault thread 1 place 0\n"),
        "another text",
    );
    put_none(&rt, &mut found, name);
    remove(&rt, &mut found, name);
    found.ended()
}
