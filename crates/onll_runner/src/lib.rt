//! The commands that run scripts on threads, over devices that a store keeps as logs.
#![tactic(auto)]

mod over_logs;
mod report;
mod resume;
mod run;
mod stops;

pub use resume::resume_on;
pub use run::run_on;
