//! Scripts done on threads, each on its own pass of one shared object.
//!
//! ```rust
//! let heads = [LogHead::new(0, 1, Bank::CODE, b"bank 1\n")];
//! let script = vec![in alloc; Call::Update(BankOp::Deposit { a: 0, x: 5 })]?;
//! let devices = vec![in alloc; MemPmem::new(alloc, 3, Vec::new(alloc))?]?;
//! let bank = Bank::make(alloc, 1)?;
//! let gate = FreeGate;
//! let around = Surroundings {
//!     rt: &rt,
//!     alloc,
//!     gate: &gate,
//! };
//! let Ok(ran) = run_scripts(&around, bank, &heads, vec![in alloc; script]?, devices) else {
//!     return Err("not run".into());
//! };
//! assert!(rt; ran.trace.len() == 1);
//! assert!(rt; ran.logs[0].fences() == 1);
//! ```
//!
//! The test `run` of `tests_uses` runs this.
#![tactic(auto)]

mod crew;
mod laws;
mod logs;
mod run;
mod worker;

pub use crew::run_passes;
pub use laws::{passes_law, ready_law, run_law};
pub use logs::{RunFault, new_logs, open_logs};
pub use run::{
    DoneScript, RunLogs, RunOutcome, Start, Surroundings, resume_scripts, run_for_logs, run_scripts,
};
pub use worker::{Worker, WorkerEnd, run_all};
