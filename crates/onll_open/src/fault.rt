//! Why an object isn't opened over files, or isn't kept in them.

ghost use Rattle.std.specs.Prelude.{◌≡◌};
ghost use Rattle.onll_open.specs.Faults.{fault_at, of_device, of_files, of_read, refused_as};
ghost use Rattle.onll_open.specs.declared.fault.DeviceFault.TheVariants.{NoMemory as DeviceOutOfMemory};
ghost use Rattle.onll_open.specs.declared.fault.FilesFault.TheVariants.{NoMemory as OutOfMemory};
ghost use Rattle.onll_open.specs.declared.fault.OpenFault.TheVariants.{NoMemory as OpenOutOfMemory};

use onll_merge::{RecoverFault, StateFault};
use onll_outside::OutsideFault;
use onll_words::NoMemory;
use std::alloc::AllocError;
use thiserror::Error;

/// Why the files of an object's logs were not read.
#[derive(Clone, Copy, Debug, PartialEq, Eq, Error)]
pub enum FileFault {
    /// The call for this thread's file failed.
    #[error("the file of thread {thread} failed")]
    Failed { thread: u64 },
    /// Memory ran out.
    #[error("out of memory")]
    NoMemory,
}

/// Why the devices of an object's logs were not had.
#[derive(Clone, Copy, Debug, PartialEq, Eq, Error)]
pub enum DeviceFault {
    /// The device of this thread's log, which is to begin, could not be made.
    #[error("file {thread} could not be made")]
    NotMade { thread: u64 },
    /// The file of this thread's log could not be made a device again.
    #[error("file {thread} could not be opened to be written")]
    NotReopened { thread: u64 },
    /// Memory ran out.
    #[error("out of memory")]
    NoMemory,
}

/// Why the files of an object's logs give nothing. The first of these that stands is answered, in this order, but for the last two.
/// Files are numbered from 0. Nothing was changed.
#[derive(Clone, Copy, Debug, PartialEq, Eq, Error)]
pub enum FilesFault {
    /// Another has opened these logs, here or in another process.
    #[error("the logs are in use")]
    InUse,
    /// The logs could not be locked.
    #[error("the logs could not be locked")]
    NotLocked,
    /// A file holds no log.
    #[error("file {log} holds no log")]
    NotLog { log: u64 },
    /// A file holds a log of the first format, which none goes on.
    #[error("file {log} holds a log of the first format")]
    OldFormat { log: u64 },
    /// The logs are of another number of threads.
    #[error("the logs are of {were} threads")]
    Threads { were: u64 },
    /// A log has no head, and another has entries: its file was emptied or replaced.
    #[error("the log of file {log} is gone")]
    Gone { log: u64 },
    /// All files hold logs, and these are not those of one run of this object.
    #[error("{0}")]
    NotOneRun(RecoverFault),
    /// The logs are those of one run, and this is the first place whose row is no operation of the object.
    #[error("place {place} is no operation")]
    NotOperation { place: u64 },
    /// The file of this thread's log could not be read.
    #[error("file {thread} could not be read")]
    NotRead { thread: u64 },
    /// Memory ran out.
    #[error("out of memory")]
    NoMemory,
}

/// Why an object isn't opened over the files of its logs.
#[derive(Clone, Copy, Debug, PartialEq, Eq, Error)]
pub enum OpenFault {
    /// The files give nothing. Nothing was changed.
    #[error("{0}")]
    Files(FilesFault),
    /// The first thread that has too few numbers left for its room, or whose log would be too long. Nothing was changed.
    #[error("thread {thread} has no room for so many updates")]
    NoRoom { thread: u64 },
    /// The first thread whose log has no room for any update. Nothing was changed.
    #[error("thread {thread} has no room left")]
    Full { thread: u64 },
    /// The log of this thread was to be begun, and its file could not be made.
    #[error("file {thread} could not be made")]
    NotMade { thread: u64 },
    /// The file of this thread's log could not be made a device.
    #[error("file {thread} could not be opened to be written")]
    NotReopened { thread: u64 },
    /// The log of this thread was to be begun, and the fence of its header failed. Its file, and each before it whose log was to be begun,
    /// may hold its header.
    #[error("the fence of the header of log {thread} failed")]
    HeaderFailed { thread: u64 },
    /// Memory ran out.
    #[error("out of memory")]
    NoMemory,
}

/// The device of this thread's log could not be kept as its file. Those of the threads before it were kept; its file, and each of those
/// after it, is as it was or holds an image of its device.
#[derive(Clone, Copy, Debug, PartialEq, Eq, Error)]
#[error("log {thread} could not be kept: {fault}")]
pub struct NotKept {
    pub thread: u64,
    pub fault: OutsideFault,
}

/// What the refusal of a call for the file of this thread says.
pub(crate) fn fault_at(thread: u64, fault: OutsideFault) -> FileFault
    ensures { result ≡ fault_at thread fault }
{
    match fault {
        OutsideFault::Failed => FileFault::Failed { thread },
        OutsideFault::NoMemory => FileFault::NoMemory,
    }
}

/// What a refusal of recovery says where the logs are misfits so.
pub(crate) fn refused_as(misfit: Option<FilesFault>, fault: StateFault) -> FilesFault
    ensures { result ≡ refused_as misfit fault }
{
    match fault {
        StateFault::NotLog { log } => FilesFault::NotLog { log },
        StateFault::NoMemory => FilesFault::NoMemory,
        StateFault::NotMerged(fault) => match misfit {
            Some(misfit) => misfit,
            None => FilesFault::NotOneRun(fault),
        },
        StateFault::NotOperation { place } => match misfit {
            Some(misfit) => misfit,
            None => FilesFault::NotOperation { place },
        },
    }
}

impl From<FileFault> for FilesFault {
    ghost from_gives = { λ e fault. fault ≡ of_read e };

    fn from(e: FileFault) -> FilesFault {
        match e {
            FileFault::Failed { thread } => FilesFault::NotRead { thread },
            FileFault::NoMemory => FilesFault::NoMemory,
        }
    }
}

impl From<AllocError> for FilesFault {
    ghost from_gives = { λ _ fault. fault ≡ OutOfMemory };

    fn from(_e: AllocError) -> FilesFault {
        FilesFault::NoMemory
    }
}

impl From<NoMemory> for FilesFault {
    ghost from_gives = { λ _ fault. fault ≡ OutOfMemory };

    fn from(_e: NoMemory) -> FilesFault {
        FilesFault::NoMemory
    }
}

impl From<DeviceFault> for OpenFault {
    ghost from_gives = { λ e fault. fault ≡ of_device e };

    fn from(e: DeviceFault) -> OpenFault {
        match e {
            DeviceFault::NotMade { thread } => OpenFault::NotMade { thread },
            DeviceFault::NotReopened { thread } => OpenFault::NotReopened { thread },
            DeviceFault::NoMemory => OpenFault::NoMemory,
        }
    }
}

impl From<AllocError> for DeviceFault {
    ghost from_gives = { λ _ fault. fault ≡ DeviceOutOfMemory };

    fn from(_e: AllocError) -> DeviceFault {
        DeviceFault::NoMemory
    }
}

impl From<FilesFault> for OpenFault {
    ghost from_gives = { λ e fault. fault ≡ of_files e };

    fn from(e: FilesFault) -> OpenFault {
        match e {
            FilesFault::NoMemory => OpenFault::NoMemory,
            fault => OpenFault::Files(fault),
        }
    }
}

impl From<AllocError> for OpenFault {
    ghost from_gives = { λ _ fault. fault ≡ OpenOutOfMemory };

    fn from(_e: AllocError) -> OpenFault {
        OpenFault::NoMemory
    }
}

impl From<NoMemory> for OpenFault {
    ghost from_gives = { λ _ fault. fault ≡ OpenOutOfMemory };

    fn from(_e: NoMemory) -> OpenFault {
        OpenFault::NoMemory
    }
}
