//! Tests of the objects, a bank, a map, a queue and a table of leases. There is nothing here to be called.
#![tactic(auto)]

#[cfg(test)]
mod bank;
#[cfg(test)]
mod lease;
#[cfg(test)]
mod map;
#[cfg(test)]
mod queue;
#[cfg(test)]
mod rows;
