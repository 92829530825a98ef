//! What the tests of the shared object share: logs, objects and passes over devices in memory, threads that work on them, and a gate
//! that counts. Their proofs rest on the contracts of the shared object.
#![tactic(auto)]

mod check;
mod count_gate;
mod fixture;
mod threads;

pub use check::must;
pub use count_gate::CountGate;
pub use fixture::{INIT, make_logs, open_one, open_two};
pub use threads::{ObjectEnd, Work, four_threads, open_all};
