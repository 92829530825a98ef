//! The sink over a writer of the system.

ghost use Rattle.std.specs.Prelude.{◌≡◌, OnOk};
ghost use Rattle.std.specs.Io.KnownBytes.{Appends};
ghost use Rattle.onll_outside.specs.Views.{PutOf};
ghost use Rattle.onll_outside.specs.OutSink.{Written, untold_sink};

use crate::{OutsideFault, Sink};
use std::io;
use std::io::{ErrorKind, Write};
use std::marker::Model;

/// A writer of the system. How much of a refused put it took is not told, only how many puts failed.
#[derive(Drop)]
pub struct OutSink<W: Write + Drop> {
    inner: W,
    faults: u64,
}

impl<W: Write + Drop> Model for OutSink<W> {
    ghost Value = { Written W };

    ghost view = { λ s. record { writer = s.inner; faults = s.faults } };
}

/// Writes the bytes, and what the writer kept back.
#[tactic(auto, using(crate::proofs::Flushed::flushed))]
fn write_through<W: Write>(inner: &mut W, bytes: &[u8]) -> io::Result<()>
    ensures { OnOk result (Appends (W.contents inner.old) (W.contents inner.new) bytes.now) }
{
    inner.write_all(bytes)?;
    inner.flush()
}

impl<W: Write + Drop> OutSink<W> {
    /// A sink into `inner`, where no put has failed yet.
    pub fn new(inner: W) -> OutSink<W>
        ensures { result ≡ record { writer = inner; faults = 0 } }
    {
        OutSink { inner, faults: 0 }
    }
}

impl<W: Write + Drop> Sink for OutSink<W> {
    ghost held = { untold_sink };

    /// Puts the bytes, which have left the writer's own buffer where it answers Ok.
    fn put(&mut self, bytes: &[u8]) -> Result<(), OutsideFault>
        ensures put { PutOf (untold_sink self.old) (untold_sink self.new) bytes.now result }
        ensures wrote { OnOk result (Appends (W.contents self.old.writer) (W.contents self.new.writer) bytes.now) }
    {
        match write_through(&mut self.inner, bytes) {
            Ok(()) => Ok(()),
            Err(e) if e.kind() == ErrorKind::OutOfMemory => Err(OutsideFault::NoMemory),
            Err(_) => {
                self.faults = self.faults.saturating_add(1);
                Err(OutsideFault::Failed)
            }
        }
    }
}
