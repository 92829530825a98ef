//! Tests of the step core over a bank, of a bank under one lock, and of a standby.
#![tactic(auto)]

#[cfg(test)]
mod crashes;
#[cfg(test)]
mod faults;
#[cfg(test)]
mod generations;
#[cfg(test)]
mod locked;
#[cfg(test)]
mod pieces;
#[cfg(test)]
mod refused;
mod scripts;
#[cfg(test)]
mod streams;

pub use scripts::deposits;
