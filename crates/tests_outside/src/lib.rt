//! Tests of stores and sinks, of the devices that stores hand out, of logs over these, in memory and over files, and of a gate. There is
//! nothing here to be called.
#![tactic(auto)]

#[cfg(test)]
mod checks;
#[cfg(test)]
mod devices;
#[cfg(test)]
mod failing;
#[cfg(test)]
mod failing_files;
#[cfg(test)]
mod held;
#[cfg(test)]
mod kept_over;
#[cfg(test)]
mod line_files;
#[cfg(test)]
mod logs;
#[cfg(test)]
mod name_locks;
#[cfg(test)]
mod plain_store;
#[cfg(test)]
mod reopened;
#[cfg(test)]
mod sinks;
#[cfg(test)]
mod stores;
#[cfg(test)]
mod system_faults;
#[cfg(test)]
mod written_over;
