//! Tests of objects that are opened over the files of their logs, of services, of what they keep, and of objects over eras, with a
//! counter, a hall, a bank and the program's objects. There is nothing here to be called.
#![tactic(auto)]

mod hall;
#[cfg(test)]
mod heard;
#[cfg(test)]
mod kept;
#[cfg(test)]
mod opened;
#[cfg(test)]
mod opened_faults;
#[cfg(test)]
mod over_eras;
#[cfg(test)]
mod saved;
#[cfg(test)]
mod served;
#[cfg(test)]
mod served_faults;
