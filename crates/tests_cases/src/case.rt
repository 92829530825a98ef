//! A case: its files and faults, its store once it was called, and what the lines that come are of.

use crate::bytes::no_form;
use crate::call::named;
use onll_outside::{FenceAt, MemStore, Named, Store};
use std::alloc::Global;
use std::{io, mem};

/// What the lines of bytes that come are of.
#[derive(Drop)]
pub(crate) enum Block {
    Nothing,
    /// Bytes that get a name.
    Named { name: String },
    /// A file that is put into the store.
    File { name: String },
    /// All that the last call printed.
    Output,
    /// All that a file holds.
    Held { name: String },
}

/// A case, as far as it was read.
#[derive(Drop)]
pub(crate) struct Case {
    pub(crate) name: String,
    pub(crate) files: Vec<Named>,
    pub(crate) failing_calls: Vec<u64>,
    pub(crate) failing_puts: Vec<u64>,
    pub(crate) failing_fences: Vec<FenceAt>,
    pub(crate) store: Option<MemStore>,
    pub(crate) printed: Vec<u8>,
    pub(crate) block: Block,
    pub(crate) bytes: Vec<u8>,
    pub(crate) is_wrong: bool,
}

impl Case {
    /// A case of which only the name was read.
    pub(crate) fn new(alloc: Global, name: String) -> Case {
        Case {
            name,
            files: Vec::new(alloc),
            failing_calls: Vec::new(alloc),
            failing_puts: Vec::new(alloc),
            failing_fences: Vec::new(alloc),
            store: None,
            printed: Vec::new(alloc),
            block: Block::Nothing,
            bytes: Vec::new(alloc),
            is_wrong: false,
        }
    }

    /// Takes the store out, which is made of the files and faults where it was not called yet.
    pub(crate) fn take_store(&mut self, alloc: Global) -> MemStore {
        match self.store.take() {
            Some(store) => store,
            None => MemStore::new(
                mem::replace(&mut self.files, Vec::new(alloc)),
                mem::replace(&mut self.failing_calls, Vec::new(alloc)),
                mem::replace(&mut self.failing_fences, Vec::new(alloc)),
            ),
        }
    }

    /// Puts a file into the store, or among those that it is made of.
    pub(crate) fn put_file(&mut self, alloc: Global, name: &str, bytes: &[u8]) -> io::Result<()> {
        match &mut self.store {
            None => self.files.push(named(alloc, name, bytes)?)?,
            Some(store) => store.write(alloc, name, bytes).map_err(|_| no_form())?,
        }
        Ok(())
    }

    /// The bytes of a file of the store.
    pub(crate) fn file(&self, name: &str) -> Option<&[u8]> {
        match &self.store {
            None => None,
            Some(store) => store.file(name),
        }
    }
}
