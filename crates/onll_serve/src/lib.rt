//! A service in one call: an object is opened over its files, works are done on it in threads, and it is closed.
#![tactic(auto)]

mod ending;
mod fault;
mod laws;
mod service;

pub use ending::{Reported, report};
pub use fault::{NamedServeFault, NotServed, ServeFault};
pub use laws::{files_law, files_life_law, fronts_law, life_law, moment_law, next_law};
pub use service::{Served, serve};
