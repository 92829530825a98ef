//! Why a service didn't begin.

use onll_open::OpenFault;
use std::fmt;
use thiserror::Error;

/// Why a service didn't begin.
#[derive(Clone, Copy, Debug, PartialEq, Eq, Error)]
pub enum ServeFault {
    /// There is no work. Nothing was changed.
    #[error("there is no work")]
    NoWork,
    /// There are more works than an object has threads. Nothing was changed.
    #[error("there are {works} works")]
    TooManyWorks { works: u64 },
    /// This thread can't be had beside those before it. No work was begun, and nothing was changed.
    #[error("thread {thread} can't be had")]
    NoThread { thread: u64 },
    /// The object wasn't opened over its files.
    #[error("{0}")]
    NotOpened(OpenFault),
    /// Memory ran out. Nothing was changed.
    #[error("out of memory")]
    NoMemory,
}

/// A service that didn't begin: no work was begun, and all are handed back.
#[derive(Drop)]
pub struct NotServed<W> {
    pub works: Vec<W>,
    pub fault: ServeFault,
}

/// The fault of a service over the files of the logs that have this name.
#[derive(Clone, Copy, Debug)]
pub struct NamedServeFault<'a> {
    logs: &'a str,
    fault: ServeFault,
}

impl ServeFault {
    /// The fault, to be printed with the names of files.
    pub fn named(self, logs: &str) -> NamedServeFault<'_> {
        NamedServeFault { logs, fault: self }
    }
}

impl fmt::Display for NamedServeFault<'_> {
    fn fmt<W: fmt::Write>(&self, f: &mut fmt::Formatter<W>) -> fmt::Result {
        match self.fault {
            ServeFault::NotOpened(fault) => {
                let named = fault.named(self.logs);
                write!(f, "{named}")
            }
            fault => write!(f, "{fault}"),
        }
    }
}
