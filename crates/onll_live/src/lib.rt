//! An object that runs for ever: when its logs are full its state is saved, and it goes on with new ones. What lies between two savings is
//! an era.
#![tactic(auto)]

mod beginning;
mod era;
mod fault;
mod finding;
mod laws;
mod living;
mod names;
mod plain;
mod saved;
mod settling;

pub use beginning::begin_next;
pub use era::Era;
pub use fault::{EraFault, LiveFault, NextFault, NotLived};
pub use finding::find_era;
pub use laws::{era_cut_law, era_killed_law, eras_balance_law, eras_law};
pub use living::{Lived, live};
pub use plain::PlainSaved;
pub use saved::Saved;
pub use settling::settle;
