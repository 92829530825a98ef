//! The step core: a model of single atomic steps on which every interleaving of threads is one list of turns.
//!
//! ```rust
//! let script = vec![in alloc; Call::Update(BankOp::Deposit { a: 0, x: 5 })]?;
//! let mut core = Core::create(
//!     alloc,
//!     Bank::make(alloc, 1)?,
//!     b"bank 1\n",
//!     vec![in alloc; script]?,
//! )?;
//! for _step in 0..8 {
//!     core.step(0);
//! }
//! let images = core.crash(alloc, 0)?;
//! let Ok(nodes) = core.recover_from(alloc, &images) else {
//!     return Err("not recovered".into());
//! };
//! assert!(rt; nodes.len() == 1);
//! ```
//!
//! The test `core` of `tests_uses` runs this.
#![tactic(auto)]

mod crash;
mod crash_laws;
mod laws;
mod local;
mod outcomes;
mod phase;
mod returned;
mod step_core;
mod worker;

pub use crash_laws::{
    base_law, crash_law, durable_law, generations_law, image_law, next_crash_law, recovery_law,
};
pub use laws::{consistency_law, fence_law, stays_law, step_event_law};
pub use outcomes::{order_law, reached_law, report_law, return_law};
pub use phase::Phase;
pub use returned::{Current, Returned, Stepped};
pub use step_core::Core;
