//! The uses that the roots of the library crates show, run and proved as tests. There is nothing here to be called.
#![tactic(auto)]

#[cfg(test)]
mod uses;
