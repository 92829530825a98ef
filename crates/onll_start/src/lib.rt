//! What images of an earlier generation's logs give to scripts that go on, or the first reason why they give nothing.
#![tactic(auto)]

mod fault;
mod found;

pub use fault::ResumeFault;
pub use found::{check_room, count_nodes, find, find_start, told_lines};
