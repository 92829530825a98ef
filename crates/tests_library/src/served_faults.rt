//! What faults of a service print.

use onll_open::OpenFault;
use onll_serve::ServeFault;
use std::alloc::{AllocError, Global};
use std::test::Fail;
use tests_found::Found;

/// Whether a fault prints so with the names of files, and so without.
fn is_said(alloc: Global, fault: ServeFault, named: &str, plain: &str) -> Result<bool, AllocError> {
    let by_name = fault.named("shop");
    let said = format!(in alloc; "{by_name}")?;
    let text = format!(in alloc; "{fault}")?;
    Ok(said.as_str() == named && text.as_str() == plain)
}

#[test]
fn of_serving(rt: HostRuntime) -> Result<(), Fail> {
    let alloc = rt.alloc();
    let mut found = Found::new();
    let text = "there is no work";
    found.must(is_said(alloc, ServeFault::NoWork, text, text)?, "no work");
    let text = "there are 17 works";
    let many = ServeFault::TooManyWorks { works: 17 };
    found.must(is_said(alloc, many, text, text)?, "too many");
    let text = "out of memory";
    found.must(is_said(alloc, ServeFault::NoMemory, text, text)?, "memory");
    let fault = ServeFault::NotOpened(OpenFault::NotMade { thread: 3 });
    found.must(
        is_said(
            alloc,
            fault,
            "shop.3 could not be made",
            "file 3 could not be made",
        )?,
        "not opened",
    );
    found.ended()
}
