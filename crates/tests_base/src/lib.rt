//! Tests of words and nodes, devices and logs, the merge of logs, and the trace, with a caller of it whose proofs cite nothing but
//! its public contracts.
#![tactic(auto)]

mod fixture;
#[cfg(test)]
mod log;
#[cfg(test)]
mod logs;
#[cfg(test)]
mod merged;
#[cfg(test)]
mod model;
#[cfg(test)]
mod pmem;
#[cfg(test)]
mod refused;
#[cfg(test)]
mod traces;
mod update;
#[cfg(test)]
mod words;

pub use fixture::{close_both, open_two, resume_two};
pub use update::{draft_and_look, link, newest_flag, order_all, order_many, order_one, tell};
