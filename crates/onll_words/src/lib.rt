//! Words, rows, numbers and lines: what every crate of the object speaks of.
//!
//! ```rust
//! let line = Line {
//!     w: [1, 2, 3, 4, 5, 6, 7, 8],
//! };
//! assert!(rt; line_of_bytes(line_bytes(line)) == line);
//! assert!(rt; whole_number(b"42") == Some(42));
//! assert!(rt; whole_number(b"4 2") == None);
//! ```
//!
//! The test `words` of `tests_uses` runs this.
#![tactic(auto)]

mod line;
mod number;
mod short;
mod text;

pub use line::{Line, OpRow, line_bytes, line_of_bytes};
pub use number::{number_at, whole_number};
pub use short::Short;
use std::alloc::{AllocError, AllocFailed};
pub use text::{Cut, Lines, NumberedLine, split_word};
use thiserror::Error;

/// Memory could not be had. It is the fault of a call that refuses for nothing else.
#[derive(Clone, Copy, Debug, PartialEq, Eq, Error)]
#[error("out of memory")]
pub struct NoMemory;

impl From<AllocError> for NoMemory {
    fn from(_e: AllocError) -> NoMemory {
        NoMemory
    }
}

impl<T: Drop> From<AllocFailed<T>> for NoMemory {
    fn from(_e: AllocFailed<T>) -> NoMemory {
        NoMemory
    }
}
