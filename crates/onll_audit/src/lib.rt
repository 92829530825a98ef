//! An auditor of the reports of `run`: it judges what a report says without running anything.
//!
//! ```rust
//! let verdict = audit(alloc, bank, &scripts, report.as_bytes())?;
//! assert!(rt; verdict == Verdict::Wrong { line: 2, why: Why::Place });
//! ```
#![tactic(auto)]

mod auditor;
mod fields;
mod form;
mod form_laws;
mod groups;
mod judge;
mod lines;
mod past;
mod printed_laws;
mod read;
mod replica;
mod said;
mod trace;
mod verdict;

pub use auditor::audit;
pub use form_laws::form_law;
pub use printed_laws::{printed_law, report_short_law};
pub use verdict::{AuditFault, Verdict, Why};
