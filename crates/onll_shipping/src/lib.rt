//! The commands of a standby: one ships the logs of a run as a stream, the other follows such a stream.
#![tactic(auto)]

mod bad_stream;
mod follow;
mod laws;
mod ship_fault;
mod shipment;
mod turns;

pub use follow::{LONGEST_PIECE, StreamFile, follow_on};
pub use laws::shipped_law;
pub use shipment::ship;
