//! A bank: accounts whose balances never sum to more than a 64-bit number.
//!
//! ```rust
//! let mut bank = Bank::make(alloc, 2)?;
//! assert!(rt; bank.apply(BankOp::Deposit { a: 0, x: 5 }) == BankReply::Done);
//! assert!(rt; bank.apply(BankOp::Transfer { a: 0, b: 1, x: 7 }) == BankReply::TooLittle);
//! assert!(rt; bank.ask(BankQuery::Total) == BankReply::Amount(5));
//! ```
//!
//! The test `bank` of `tests_uses` runs this.
#![tactic(auto)]

mod bank;
mod laws;
mod operation;

pub use bank::Bank;
pub use laws::bank_laws;
pub use operation::{BankOp, BankQuery, BankReply};
