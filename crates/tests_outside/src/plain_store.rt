//! A store that has only the calls that every store must write, so that its calls of lines are those of the trait.

ghost use Rattle.std.specs.Prelude.{refl};
ghost use Rattle.onll_outside.specs.MemStore.{store_of};

use onll_outside::{MemStore, OutsideFault, Store};
use onll_pmem::MemPmem;
use onll_words::Line;
use std::alloc::Global;

/// A store over one in memory.
#[derive(Drop)]
pub(crate) struct PlainStore {
    pub(crate) files: MemStore,
}

impl Store for PlainStore {
    type Dev = MemPmem;

    ghost seen = { λ s. store_of s.files };

    fn read(&mut self, alloc: Global, name: &str, limit: u64) -> Result<Vec<u8>, OutsideFault> {
        self.files.read(alloc, name, limit)
    }

    fn write(&mut self, alloc: Global, name: &str, bytes: &[u8]) -> Result<(), OutsideFault> {
        self.files.write(alloc, name, bytes)
    }

    fn device(&mut self, alloc: Global, name: &str, lines: u64) -> Result<MemPmem, OutsideFault> {
        self.files.device(alloc, name, lines)
    }

    fn reopen(
        &mut self,
        alloc: Global,
        name: &str,
        front: &[Line],
        lines: u64,
    ) -> Result<MemPmem, OutsideFault> {
        self.files.reopen(alloc, name, front, lines)
    }

    fn keep(&mut self, alloc: Global, name: &str, device: MemPmem) -> Result<(), OutsideFault> {
        self.files.keep(alloc, name, device)
    }

    fn give_up(&mut self, device: MemPmem) {
        self.files.give_up(device);
    }

    ghost devices_tell = { λ store told. refl };
}
