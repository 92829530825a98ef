//! What the program reaches outside of itself: a store of files by name, a sink for its output, and a gate that sees the points of
//! each update.
//! Each counts its calls that failed. `MemStore` and `MemSink` are in memory, and tell all that they
//! hold; `FileStore` and `OutSink` are the system's files and a writer, and tell only their counts.
//!
//! ```rust
//! let mut sink = MemSink::new(alloc, vec![in alloc; 2]?);
//! assert!(rt; sink.put(b"first").is_ok());
//! assert!(rt; sink.put(b"second").is_err());
//! assert!(rt; sink.taken() == b"first".as_slice());
//! assert!(rt; sink.faults() == 1);
//! ```
//!
//! The test `outside` of `tests_uses` runs this.
#![tactic(auto)]

mod beside;
mod bytes;
mod directory;
mod disk;
mod faults;
mod file_store;
mod gate;
mod gather;
mod hold_gate;
mod lock_file;
mod mem_sink;
mod mem_store;
mod out_sink;
mod sink;
mod store;

pub use directory::{Directory, LockFault};
pub use faults::FailedCall;
pub use file_store::FileStore;
pub use gate::{FreeGate, Gate, Point};
pub use hold_gate::{Hold, HoldGate};
pub use lock_file::LockFile;
pub use mem_sink::MemSink;
pub use mem_store::{FenceAt, MemStore, Named};
pub use out_sink::OutSink;
pub use sink::Sink;
pub use store::{FaultKind, FileLines, Store};
use thiserror::Error;

/// Why a call to the outside was refused.
#[derive(Clone, Copy, Debug, PartialEq, Eq, Error)]
pub enum OutsideFault {
    /// The outside failed; the count of faults rose in this call.
    #[error("the outside failed")]
    Failed,
    /// Memory could not be had.
    #[error("out of memory")]
    NoMemory,
}
