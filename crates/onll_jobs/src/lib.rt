//! What the program does: its commands, and the one call that runs them.
#![tactic(auto)]

mod audit;
mod command;
mod fold;
mod make;
mod objects;
mod program;
mod show;

pub use onll_task::{Ending, Exit};
pub use program::onll;
