//! A bounded queue of numbers: it refuses where it is full, and its items leave in the order in which they came.
//!
//! ```rust
//! let mut queue = Queue::make(alloc, 1)?;
//! assert!(rt; queue.apply(QueueOp::Push { x: 7 }) == QueueReply::Done);
//! assert!(rt; queue.apply(QueueOp::Push { x: 8 }) == QueueReply::Full);
//! assert!(rt; queue.ask(QueueQuery::Length) == QueueReply::Length(1));
//! ```
//!
//! The test `queue` of `tests_uses` runs this.
#![tactic(auto)]

mod laws;
mod operation;
mod queue;

pub use laws::queue_laws;
pub use operation::{QueueOp, QueueQuery, QueueReply};
pub use queue::Queue;
