//! The objects of the program, saved as they are printed and read back.

use onll_bank::Bank;
use onll_lease::Lease;
use onll_live::Saved;
use onll_map::Map;
use onll_printed::{Printed, Readable};
use onll_queue::Queue;
use onll_words::NoMemory;
use std::alloc::Global;
use std::test::Fail;
use tests_found::Found;

/// Whether a state of this text is saved as these bytes.
fn is_saved_as<O: Readable + Drop>(
    alloc: Global,
    text: &str,
    bytes: &str,
) -> Result<bool, NoMemory> {
    match Printed::<O>::load(alloc, text.as_bytes())? {
        Some(object) => Ok(object.save(alloc)?.as_slice() == bytes.as_bytes()),
        None => Ok(false),
    }
}

/// Whether a text says no state of this object.
fn is_none<O: Readable + Drop>(alloc: Global, text: &str) -> Result<bool, NoMemory> {
    Ok(Printed::<O>::load(alloc, text.as_bytes())?.is_none())
}

#[test]
fn as_they_are_printed(rt: HostRuntime) -> Result<(), Fail> {
    let alloc = rt.alloc();
    let mut found = Found::new();
    let bank = "bank 2\naccount 0 0\naccount 1 7\n";
    found.must(
        is_saved_as::<Bank>(alloc, "bank 2\naccount 1 7", bank)?,
        "bank",
    );
    let map = "map 4\npair k v\n";
    found.must(is_saved_as::<Map>(alloc, map, map)?, "map");
    let queue = "queue 4\nitem 5\nitem 6\n";
    found.must(is_saved_as::<Queue>(alloc, queue, queue)?, "queue");
    let lease = "lease 2\nheld 0 4 7 120\n";
    found.must(is_saved_as::<Lease>(alloc, lease, lease)?, "lease");
    found.must(is_none::<Bank>(alloc, "map 4")?, "a map is no bank");
    found.must(is_none::<Map>(alloc, "bank 4")?, "a bank is no map");
    found.must(is_none::<Queue>(alloc, "")?, "nothing");
    found.must(
        is_none::<Lease>(alloc, "lease 4\nheld")?,
        "a line cut short",
    );
    found.ended()
}
