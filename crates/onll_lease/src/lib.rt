//! A table of leases with fencing tokens, for a lock service: moments are arguments, and nothing reads a clock.
//!
//! ```rust
//! let mut lease = Lease::make(alloc, 1)?;
//! let first = LeaseOp::Grant {
//!     r: 0,
//!     h: 1,
//!     now: 10,
//!     ttl: 5,
//! };
//! assert!(rt; lease.apply(first) == LeaseReply::Granted(1));
//! let second = LeaseOp::Grant {
//!     r: 0,
//!     h: 2,
//!     now: 12,
//!     ttl: 5,
//! };
//! assert!(rt; lease.apply(second) == LeaseReply::HeldUntil(15));
//! assert!(rt;
//!     lease.ask(LeaseQuery::Holder { r: 0, now: 12 })
//!         == LeaseReply::HeldBy {
//!             holder: 1,
//!             token: 1,
//!             until: 15
//!         }
//! );
//! ```
//!
//! The test `lease` of `tests_uses` runs this.
#![tactic(auto)]

mod entry;
mod laws;
mod lease;
mod operation;

pub use entry::LeaseEntry;
pub use laws::{held_law, stale_law, token_law, zero_law};
pub use lease::Lease;
pub use operation::{LeaseOp, LeaseQuery, LeaseReply};
