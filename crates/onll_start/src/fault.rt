//! Why nothing goes on from images.

ghost use Rattle.std.specs.Prelude.{◌≡◌};
ghost use Rattle.onll_start.specs.declared.fault.ResumeFault.TheVariants.{NoMemory as OutOfMemory};

use onll_merge::ImagesFault;
use onll_words::NoMemory;
use thiserror::Error;

/// Why nothing goes on from images. Logs and threads are numbered from 0, places from 1. Of a log that is none and one of
/// format 1 the first is answered, and both before a log of another run; the others come in this order.
#[derive(Clone, Copy, Debug, PartialEq, Eq, Error)]
pub enum ResumeFault {
    /// An image is no log, or the logs are not those of one run with these heads. It is never want of memory.
    #[error("{0}")]
    Images(ImagesFault),
    /// A log is of format 1, in which nothing is written any more: the first such one.
    #[error("log {log} is of format 1")]
    OldFormat { log: u64 },
    /// The row of a place is no operation of the object.
    #[error("place {place} is no operation")]
    NotOp { place: u64 },
    /// A thread has, with its recovered ones, more updates than names, or its log would be too long: the first such one.
    #[error("thread {thread} has too many updates")]
    TooMany { thread: u64 },
    /// Memory ran out.
    #[error("out of memory")]
    NoMemory,
}

impl From<NoMemory> for ResumeFault {
    ghost from_gives = { λ _ e. e ≡ OutOfMemory };

    fn from(_e: NoMemory) -> ResumeFault {
        ResumeFault::NoMemory
    }
}
