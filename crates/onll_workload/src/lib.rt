//! A large workload of a bank, made by a seed: it is run on threads over devices in memory, and summarized.
#![tactic(auto)]

mod bank;
mod device;
mod made;
mod script;
mod summary;
mod workload;

pub use device::FaultlessMem;
pub use made::make_report;
pub use script::script_of;
pub use summary::Summary;
pub use workload::Workload;
