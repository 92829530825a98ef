//! The merge of the logs of one run into the nodes of its trace.
//!
//! ```rust
//! let lines = lines_of_log(alloc)?;
//! let images = vec![in alloc; lines]?;
//! let heads = [LogHead::new(0, 1, Bank::CODE, b"bank 1\n")];
//! let mut bank = Bank::make(alloc, 1)?;
//! let Ok(recovery) = recover_state(alloc, &mut bank, &heads, &images) else {
//!     return Err("no logs of one run".into());
//! };
//! assert!(rt; recovery.nodes.len() == 1);
//! assert!(rt; bank.ask(BankQuery::Total) == BankReply::Amount(5));
//! ```
//!
//! The test `merge` of `tests_uses` runs this.
#![tactic(auto)]

ghost use Rattle.onll_merge.specs.Laws.{MergedFrontLaw, TopLaw, BackLaw, StandsLaw, NoOtherLaw, OnceLaw};
ghost use Rattle.onll_merge.specs.FrameLogs.{FrameLogsLaw};
ghost use Rattle.onll_merge.specs.Resumed.{ResumableLaw};

mod applied;
mod counts;
mod entries;
mod fault;
mod first_pass;
mod logs;
mod merge;
mod numbers;
mod recovery;
mod second_pass;

pub use applied::{AppliedLogs, apply_images};
pub use counts::LogCounts;
pub use fault::{ImagesFault, RecoverFault, StateFault};
pub use merge::recover;
pub use recovery::{Recovery, expected_heads, merge_images, recover_images, recover_state};

/// Logs that hold one trace merge to a front of it that has each of their places, and logs that merge hold the trace
/// that they merge to.
pub fn merge_laws()
    ensures front { MergedFrontLaw }
    ensures top { TopLaw }
    ensures back { BackLaw }
{}

/// Which places the nodes of an entry have, and that a log whose entries rise has one node for a place.
pub fn place_laws()
    ensures stands { StandsLaw }
    ensures no_other { NoOtherLaw }
    ensures once { OnceLaw }
{}

/// Whatever a crash leaves of the threads of a sound frame, for each its fenced segments or these and the pending one,
/// merges to a front of the trace that holds every available place.
pub fn frame_logs_law()
    ensures front { FrameLogsLaw }
{}

/// A run can go on from what logs merge to.
pub fn resumable_law()
    ensures on { ResumableLaw }
{}
