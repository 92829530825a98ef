//! Why an object's era isn't found, settled or followed by the next.

ghost use Rattle.std.specs.Prelude.{◌≡◌};
ghost use Rattle.onll_live.specs.Refusals.{of_files};
ghost use Rattle.onll_live.specs.declared.fault.EraFault.TheVariants.{NoMemory as EraFaultOutOfMemory};
ghost use Rattle.onll_live.specs.declared.fault.NextFault.TheVariants.{NoMemory as NextFaultOutOfMemory};

use onll_open::FilesFault;
use onll_outside::OutsideFault;
use onll_serve::ServeFault;
use onll_words::NoMemory;
use std::alloc::AllocError;
use thiserror::Error;

/// Why the era of an object over files isn't known, or isn't settled.
#[derive(Clone, Copy, Debug, PartialEq, Eq, Error)]
pub enum EraFault {
    /// The text of the newest checkpoint is no state of the object. Nothing was changed.
    #[error("area {area} holds no state of this object")]
    BadState { area: u64 },
    /// The file of this area could not be read. Nothing was changed, but that `settle` may have written the newest area once more.
    #[error("area {area} could not be read")]
    NotRead { area: u64 },
    /// The file of this area could not be made durable again.
    #[error("area {area} could not be settled")]
    NotSettled { area: u64 },
    /// Memory ran out.
    #[error("out of memory")]
    NoMemory,
}

impl From<AllocError> for EraFault {
    ghost from_gives = { λ _ fault. fault ≡ EraFaultOutOfMemory };

    fn from(_e: AllocError) -> EraFault {
        EraFault::NoMemory
    }
}

impl From<NoMemory> for EraFault {
    ghost from_gives = { λ _ fault. fault ≡ EraFaultOutOfMemory };

    fn from(_e: NoMemory) -> EraFault {
        EraFault::NoMemory
    }
}

/// Why the next era of an object wasn't begun.
#[derive(Clone, Copy, Debug, PartialEq, Eq, Error)]
pub enum NextFault {
    /// The logs of the era give nothing. No file was changed but the lock's of these logs.
    #[error("{0}")]
    Files(FilesFault),
    /// No number, or no place, is left of 64 bits. No file was changed but the lock's of the era's logs.
    #[error("the eras are at their end")]
    AtItsEnd,
    /// It could not be told whether the file of this thread's next log is there, or it could not be emptied. The era is as it was.
    #[error("file {thread} of the next era could not be emptied")]
    NotCleared { thread: u64 },
    /// The area of the next era could not be made or kept. If it could not be kept, the next era may have begun.
    #[error("area {area} could not be kept")]
    NotKept { area: u64 },
    /// A fence of the area failed. The era is as it was, as far as the store tells.
    #[error("a fence of area {area} failed")]
    FenceFailed { area: u64 },
    /// Memory ran out.
    #[error("out of memory")]
    NoMemory,
}

impl From<AllocError> for NextFault {
    ghost from_gives = { λ _ fault. fault ≡ NextFaultOutOfMemory };

    fn from(_e: AllocError) -> NextFault {
        NextFault::NoMemory
    }
}

impl From<NoMemory> for NextFault {
    ghost from_gives = { λ _ fault. fault ≡ NextFaultOutOfMemory };

    fn from(_e: NoMemory) -> NextFault {
        NextFault::NoMemory
    }
}

impl From<FilesFault> for NextFault {
    ghost from_gives = { λ e fault. fault ≡ of_files e };

    fn from(e: FilesFault) -> NextFault {
        match e {
            FilesFault::NoMemory => NextFault::NoMemory,
            fault => NextFault::Files(fault),
        }
    }
}

/// Why an object didn't go on.
#[derive(Clone, Copy, Debug, PartialEq, Eq, Error)]
pub enum LiveFault {
    /// Another has opened the object, here or in another process. No file was changed but the lock's.
    #[error("the object is in use")]
    InUse,
    /// The object could not be locked. No file was changed but the lock's.
    #[error("the object could not be locked")]
    NotLocked,
    /// Its era isn't known. No file was changed but the lock's.
    #[error("{0}")]
    NotFound(EraFault),
    /// The area of its era could not be made durable again. No file was changed but the lock's and those of areas, which hold what they
    /// held.
    #[error("{0}")]
    NotSettled(EraFault),
    /// The service of an era didn't begin.
    #[error("{0}")]
    NotServed(ServeFault),
    /// The next era wasn't begun.
    #[error("{0}")]
    NotBegun(NextFault),
    /// Memory ran out before a work began in the next era.
    #[error("out of memory")]
    NoMemory,
}

/// Works that are handed back as they are now, since the object didn't go on.
#[derive(Drop)]
pub struct NotLived<W> {
    pub works: Vec<W>,
    /// How many eras they were served in by this call.
    pub eras: u64,
    pub fault: LiveFault,
}

impl<W: Drop> NotLived<W> {
    /// These works, which were served in no era.
    pub(crate) fn of(works: Vec<W>, fault: LiveFault) -> NotLived<W>
        ensures { (result.works ≡ works) × (result.eras ≡ 0) × (result.fault ≡ fault) }
    {
        NotLived {
            works,
            eras: 0,
            fault,
        }
    }
}
