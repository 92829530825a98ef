//! The reference under one lock: the construction done one call at a time, as the plainest thing that meets the same report.
#![tactic(auto)]

mod ends;
mod laws;
mod locked;
mod progress;

pub use ends::{LockedEnd, Next};
pub use laws::{answer_law, first_log_law, whole_laws};
pub use locked::Locked;
