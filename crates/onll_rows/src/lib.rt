//! Objects of a user's own: the rows of their operations, and objects of a few words.
#![tactic(auto)]

mod described;
mod plain;
mod rows;

pub use described::Described;
pub use plain::{Plain, PlainState};
pub use rows::checked;
