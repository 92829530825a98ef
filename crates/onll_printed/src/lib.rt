//! The objects of the program as objects of the library: each is described, and saved, by its printed text.
#![tactic(auto)]

mod printed;
mod readable;

pub use printed::Printed;
pub use readable::Readable;
