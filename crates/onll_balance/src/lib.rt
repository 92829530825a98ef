//! What is left of a measure of an object, over the calls of threads and over crashes.
#![tactic(auto)]

mod laws;

pub use laws::{balance_law, exact_law, floor_law};
