//! Tests of the shared object over devices in memory, call by call and under four threads at once. There is nothing here to be called.
#![tactic(auto)]

#[cfg(test)]
mod four_tests;
#[cfg(test)]
mod go_on;
#[cfg(test)]
mod go_on_tests;
#[cfg(test)]
mod pass_tests;
#[cfg(test)]
mod recovery;
#[cfg(test)]
mod refusal_tests;
#[cfg(test)]
mod resumed;
#[cfg(test)]
mod steps;
#[cfg(test)]
mod tries;
