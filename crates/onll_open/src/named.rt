//! Faults with the names of files in place of their threads' numbers.

use crate::fault::{FilesFault, NotKept, OpenFault};
use std::fmt;

/// A fault of the files of the logs that have this name.
#[derive(Clone, Copy, Debug)]
pub struct NamedFilesFault<'a> {
    logs: &'a str,
    fault: FilesFault,
}

/// A fault of opening an object over the files of the logs that have this name.
#[derive(Clone, Copy, Debug)]
pub struct NamedOpenFault<'a> {
    logs: &'a str,
    fault: OpenFault,
}

/// A fault of keeping the logs that have this name.
#[derive(Clone, Copy, Debug)]
pub struct NamedNotKept<'a> {
    logs: &'a str,
    fault: NotKept,
}

impl FilesFault {
    /// The fault, to be printed with the names of files.
    pub fn named(self, logs: &str) -> NamedFilesFault<'_> {
        NamedFilesFault { logs, fault: self }
    }
}

impl OpenFault {
    /// The fault, to be printed with the names of files.
    pub fn named(self, logs: &str) -> NamedOpenFault<'_> {
        NamedOpenFault { logs, fault: self }
    }
}

impl NotKept {
    /// The fault, to be printed with the name of the file.
    pub fn named(self, logs: &str) -> NamedNotKept<'_> {
        NamedNotKept { logs, fault: self }
    }
}

impl fmt::Display for NamedFilesFault<'_> {
    fn fmt<W: fmt::Write>(&self, f: &mut fmt::Formatter<W>) -> fmt::Result {
        let logs = self.logs;
        match self.fault {
            FilesFault::InUse => write!(f, "the logs {logs} are in use"),
            FilesFault::NotLocked => write!(f, "the logs {logs} could not be locked"),
            FilesFault::NotLog { log } => write!(f, "{logs}.{log} holds no log"),
            FilesFault::OldFormat { log } => {
                write!(f, "{logs}.{log} holds a log of the first format")
            }
            FilesFault::Threads { were } => write!(f, "the logs are of {were} threads"),
            FilesFault::Gone { log } => write!(f, "the log of {logs}.{log} is gone"),
            FilesFault::NotOneRun(fault) => write!(f, "{fault}"),
            FilesFault::NotOperation { place } => write!(f, "place {place} is no operation"),
            FilesFault::NotRead { thread } => write!(f, "{logs}.{thread} could not be read"),
            FilesFault::NoMemory => write!(f, "out of memory"),
        }
    }
}

impl fmt::Display for NamedOpenFault<'_> {
    fn fmt<W: fmt::Write>(&self, f: &mut fmt::Formatter<W>) -> fmt::Result {
        let logs = self.logs;
        match self.fault {
            OpenFault::Files(fault) => {
                let named = fault.named(logs);
                write!(f, "{named}")
            }
            OpenFault::NoRoom { thread } => {
                write!(
                    f,
                    "thread {thread} has no room for so many updates in {logs}.{thread}"
                )
            }
            OpenFault::Full { thread } => {
                write!(f, "thread {thread} has no room left in {logs}.{thread}")
            }
            OpenFault::NotMade { thread } => write!(f, "{logs}.{thread} could not be made"),
            OpenFault::NotReopened { thread } => {
                write!(f, "{logs}.{thread} could not be opened to be written")
            }
            OpenFault::HeaderFailed { thread } => {
                write!(f, "the fence of the header of log {logs}.{thread} failed")
            }
            OpenFault::NoMemory => write!(f, "out of memory"),
        }
    }
}

impl fmt::Display for NamedNotKept<'_> {
    fn fmt<W: fmt::Write>(&self, f: &mut fmt::Formatter<W>) -> fmt::Result {
        let logs = self.logs;
        let NotKept { thread, fault } = self.fault;
        write!(f, "log {logs}.{thread} could not be kept: {fault}")
    }
}
