//! What faults print with the names of files.

use onll_merge::RecoverFault;
use onll_open::{FilesFault, NotKept, OpenFault};
use onll_outside::OutsideFault;
use std::alloc::{AllocError, Global};
use std::test::Fail;
use tests_found::Found;

/// Whether a fault of files prints so.
fn is_said(alloc: Global, fault: FilesFault, text: &str) -> Result<bool, AllocError> {
    let named = fault.named("shop");
    let said = format!(in alloc; "{named}")?;
    Ok(said.as_str() == text)
}

/// Whether a fault of opening prints so.
fn is_said_of_open(alloc: Global, fault: OpenFault, text: &str) -> Result<bool, AllocError> {
    let named = fault.named("shop");
    let said = format!(in alloc; "{named}")?;
    Ok(said.as_str() == text)
}

#[test]
fn of_files(rt: HostRuntime) -> Result<(), Fail> {
    let alloc = rt.alloc();
    let mut found = Found::new();
    let fault = FilesFault::InUse;
    found.must(is_said(alloc, fault, "the logs shop are in use")?, "in use");
    let fault = FilesFault::NotLocked;
    let text = "the logs shop could not be locked";
    found.must(is_said(alloc, fault, text)?, "locked");
    let fault = FilesFault::NotLog { log: 3 };
    found.must(is_said(alloc, fault, "shop.3 holds no log")?, "no log");
    let fault = FilesFault::OldFormat { log: 3 };
    found.must(
        is_said(alloc, fault, "shop.3 holds a log of the first format")?,
        "format",
    );
    let fault = FilesFault::Threads { were: 2 };
    found.must(
        is_said(alloc, fault, "the logs are of 2 threads")?,
        "threads",
    );
    let fault = FilesFault::Gone { log: 3 };
    found.must(is_said(alloc, fault, "the log of shop.3 is gone")?, "gone");
    let fault = FilesFault::NotOneRun(RecoverFault::NotThisRun { log: 1 });
    found.must(
        is_said(alloc, fault, "log 1 is not of this run")?,
        "not one run",
    );
    let fault = FilesFault::NotOperation { place: 7 };
    found.must(
        is_said(alloc, fault, "place 7 is no operation")?,
        "operation",
    );
    let fault = FilesFault::NotRead { thread: 3 };
    found.must(is_said(alloc, fault, "shop.3 could not be read")?, "read");
    let fault = FilesFault::NoMemory;
    found.must(is_said(alloc, fault, "out of memory")?, "memory");
    found.ended()
}

#[test]
fn of_opening(rt: HostRuntime) -> Result<(), Fail> {
    let alloc = rt.alloc();
    let mut found = Found::new();
    let fault = OpenFault::Files(FilesFault::NotRead { thread: 3 });
    found.must(
        is_said_of_open(alloc, fault, "shop.3 could not be read")?,
        "files",
    );
    let fault = OpenFault::NoRoom { thread: 3 };
    let text = "thread 3 has no room for so many updates in shop.3";
    found.must(is_said_of_open(alloc, fault, text)?, "room");
    let fault = OpenFault::Full { thread: 3 };
    let text = "thread 3 has no room left in shop.3";
    found.must(is_said_of_open(alloc, fault, text)?, "full");
    let fault = OpenFault::NotMade { thread: 3 };
    found.must(
        is_said_of_open(alloc, fault, "shop.3 could not be made")?,
        "made",
    );
    let fault = OpenFault::NotReopened { thread: 3 };
    let text = "shop.3 could not be opened to be written";
    found.must(is_said_of_open(alloc, fault, text)?, "reopened");
    let fault = OpenFault::HeaderFailed { thread: 3 };
    let text = "the fence of the header of log shop.3 failed";
    found.must(is_said_of_open(alloc, fault, text)?, "header");
    let fault = OpenFault::NoMemory;
    found.must(is_said_of_open(alloc, fault, "out of memory")?, "memory");
    found.ended()
}

#[test]
fn of_keeping(rt: HostRuntime) -> Result<(), Fail> {
    let fault = NotKept {
        thread: 3,
        fault: OutsideFault::Failed,
    };
    let named = fault.named("shop");
    let said = format!(in rt.alloc(); "{named}")?;
    let mut found = Found::new();
    found.must(
        said.as_str() == "log shop.3 could not be kept: the outside failed",
        "kept",
    );
    found.ended()
}
