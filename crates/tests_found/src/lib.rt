//! What a test finds, so that it goes straight on and has one exit, which makes its proof short.
#![tactic(auto)]

mod found;

pub use found::Found;
