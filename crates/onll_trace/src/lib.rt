//! The lock-free trace: the order of all updates, which threads extend and read at once without a lock.
//!
//! The nodes lie in the words of one table and are linked backwards from its word 0. An update goes `draft`, `look`, `try_link`,
//! then down over `flag` and `before` to the first flag that is set, then, once its log is fenced, `settle` and `set_flag`.
//! A read goes `look`, then down over `flag` and `before` in the same way. Only `create`, `resume` and `close` take memory.
#![tactic(auto)]

mod close;
mod create;
mod laws;
mod layout;
mod look;
mod notes;
mod reads;
mod trace;
mod update;
mod view;
mod words;

pub use close::NotClosed;
pub use laws::{rule_law, step_law};
pub use trace::{Ended, Link, Post, Spot, Trace, TraceNote};
