//! The input texts, and the texts of reports.
#![tactic(auto)]

mod any_object;
mod bank;
mod bank_init;
mod init;
mod lease;
mod lines;
mod map;
mod printed;
mod queue;
mod reason;
mod report;
mod report_laws;
mod schedule;
mod script;
mod texted;
mod words;

pub use any_object::{AnyObject, Kind, object_name};
pub use init::read_init;
pub use printed::print_state;
pub use reason::{Reason, TextFault};
pub use report::{Piece, Report};
pub use report_laws::{end_reads_back, fold_determined_law, node_reads_back, parts_determined_law};
pub use schedule::{MOST_STEPS, Schedule, Turns, read_schedule};
pub use script::{LONGEST_TEXT, read_script};
pub use texted::Texted;
