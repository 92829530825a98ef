//! The sink in memory.

ghost use Rattle.std.specs.Prelude.{◌≡◌, []};
ghost use Rattle.onll_outside.specs.Views.{PutOf};
ghost use Rattle.onll_outside.specs.MemSink.{BytesHeld, sink_of, MemPuts};

use crate::{OutsideFault, Sink};
use std::alloc::Global;
use std::marker::Model;

/// Output kept in memory. Its puts are numbered from 1, and those whose numbers it was given fail.
#[derive(Drop)]
pub struct MemSink {
    taken: Vec<u8>,
    failing: Vec<u64>,
    calls: u64,
    faults: u64,
}

impl Model for MemSink {
    ghost Value = { BytesHeld };

    ghost view = { λ s. record { taken = s.taken.items; failing = s.failing.items; calls = s.calls; faults = s.faults } };
}

impl MemSink {
    /// A sink that has taken nothing, whose puts of these numbers fail.
    pub fn new(alloc: Global, failing: Vec<u64>) -> MemSink
        ensures { result ≡ record { taken = []; failing = failing.items; calls = 0; faults = 0 } }
    {
        MemSink {
            taken: Vec::new(alloc),
            failing,
            calls: 0,
            faults: 0,
        }
    }

    /// The bytes that were put.
    pub fn taken(&self) -> &[u8]
        ensures { result.now ≡ self.now.taken }
    {
        &self.taken
    }

    /// How many of its puts failed.
    pub fn faults(&self) -> u64
        ensures { result ≡ self.now.faults }
    {
        self.faults
    }
}

impl Sink for MemSink {
    ghost held = { sink_of };

    fn put(&mut self, bytes: &[u8]) -> Result<(), OutsideFault>
        ensures put { PutOf (sink_of self.old) (sink_of self.new) bytes.now result }
        ensures exact { MemPuts self.old self.new bytes.now result }
    {
        self.calls = self.calls.saturating_add(1);
        if self.failing.contains(&self.calls) {
            self.faults = self.faults.saturating_add(1);
            return Err(OutsideFault::Failed);
        }
        if self.taken.extend_from_slice(bytes).is_err() {
            return Err(OutsideFault::NoMemory);
        }
        Ok(())
    }
}
