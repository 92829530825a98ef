//! Detectable outcomes: which updates of a recovered trace took effect, and with which replies.
//!
//! ```rust
//! let row = Bank::op_row(BankOp::Deposit { a: 0, x: 5 });
//! let node = Node {
//!     thread: 0,
//!     number: 1,
//!     row,
//! };
//! let Ok(outcomes) = Outcomes::of(alloc, Bank::make(alloc, 1)?, &[node]) else {
//!     return Err("the row is an operation".into());
//! };
//! let took = Outcome::Took {
//!     place: 1,
//!     reply: BankReply::Done,
//! };
//! assert!(rt; outcomes.find(0, 1) == took);
//! assert!(rt; outcomes.find(0, 2) == Outcome::Lost);
//! ```
//!
//! The test `detect` of `tests_uses` runs this.
#![tactic(auto)]

mod outcome;
mod outcomes;

pub use outcome::{DetectFault, Outcome};
pub use outcomes::{Outcomes, outcome_law};
