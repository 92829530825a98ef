//! Eras of an object: what was recovered is kept as a checkpoint, and the logs begin anew.
#![tactic(auto)]

mod beginning;
mod checkpointing;
mod endings;
mod era;
mod laws;
mod making;
mod names;
mod restoring;
mod walk;

pub use beginning::begin_era;
pub use endings::ending_laws;
pub use laws::era_laws;
pub use making::make_areas;
pub use names::EraFiles;
pub use walk::{checkpoint, restore};
