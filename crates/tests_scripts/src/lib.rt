//! Tests of scripts that are run on threads over devices in memory, and of one script on the shared object and under one lock.
#![tactic(auto)]

#[cfg(test)]
mod faults;
mod fixture;
#[cfg(test)]
mod held;
#[cfg(test)]
mod one_script;
#[cfg(test)]
mod runs;
#[cfg(test)]
mod whole;

pub use fixture::{bank_heads, new_device, run_bank};
