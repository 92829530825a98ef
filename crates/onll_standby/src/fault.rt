//! Why a stream is followed no further.

use thiserror::Error;

/// Why a stream is followed no further: the first of these that the stream shows. Logs are numbered from 0, places from 1;
/// `at` is the byte of the stream where the entry begins.
#[derive(Clone, Copy, Debug, PartialEq, Eq, Error)]
pub enum FeedFault {
    /// A header line is not the expected one.
    #[error("log {log} is not of this run")]
    NotThisRun { log: u64 },
    /// No entry of a log begins here: its header line cannot be its log's next one, or its node lines are not those that it guards.
    #[error("no entry begins at byte {at}")]
    Refused { at: u64 },
    /// The entry's first place is not above the last place of its thread's entry before it.
    #[error("the entry at byte {at} is out of order")]
    Disorder { at: u64 },
    /// An earlier entry holds a place of the entry with another node.
    #[error("the entry at byte {at} differs at place {place}")]
    Clash { at: u64, place: u64 },
    /// The number of the node at a place does not follow.
    #[error("the number at place {place} does not follow")]
    Stray { place: u64 },
    /// The row of the node at a place is no operation.
    #[error("the row of place {place} is no operation")]
    NotOp { place: u64 },
    /// Memory ran out. A standby has all of its memory from the beginning, so no stream comes to this.
    #[error("out of memory")]
    NoMemory,
}
