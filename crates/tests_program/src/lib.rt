//! Tests of the program that are no cases: runs whose threads a gate holds and counts, runs over the files of the system, how much of a
//! file a command reads, and logs that a thread log wrote. There is nothing here to be called.
#![tactic(auto)]

#[cfg(test)]
mod answers;
#[cfg(test)]
mod calls;
#[cfg(test)]
mod limits;
#[cfg(test)]
mod resumed_files;
#[cfg(test)]
mod runs_calls;
#[cfg(test)]
mod runs_files;
#[cfg(test)]
mod runs_free;
#[cfg(test)]
mod runs_held;
#[cfg(test)]
mod system_files;
#[cfg(test)]
mod watch_gate;
#[cfg(test)]
mod written_logs;
