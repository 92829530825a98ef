//! A standby: a second copy of an object that follows the logs of the first by a stream of their lines.
//!
//! ```rust
//! let row = Bank::op_row(BankOp::Deposit { a: 0, x: 5 });
//! let node = Node {
//!     thread: 0,
//!     number: 1,
//!     row,
//! };
//! let head = LogHead::new(0, 1, Bank::CODE, b"bank 1\n");
//! let heads = vec![in alloc; head]?;
//! let mut standby = Standby::begin(alloc, Bank::make(alloc, 1)?, heads)?;
//! assert!(rt; standby.feed(&line_bytes(head.line())).is_ok());
//! assert!(rt; standby.feed(&line_bytes(entry_head(head, 1, 1, &[node]))).is_ok());
//! assert!(rt; standby.feed(&line_bytes(node_line(node))).is_ok());
//! assert!(rt; standby.taken() == 192);
//! assert!(rt; standby.followed() == 1);
//! assert!(rt; standby.state().ask(BankQuery::Balance { a: 0 }) == BankReply::Amount(5));
//! ```
//!
//! The test `standby` of `tests_uses` runs this.
#![tactic(auto)]

mod applied;
mod entry;
mod fault;
mod follower;
mod holdings;
mod laws;
mod open_entry;
mod part;
mod places;
mod standby;

pub use fault::FeedFault;
pub use laws::{course_law, cut_law, recovered_stream_law, sound_stream_law};
pub use standby::Standby;
