//! What these tests share: files, lines as the bytes of a file, and devices with a line.

use onll_outside::Store;
use onll_pmem::Pmem;
use onll_words::{Line, line_bytes};
use std::alloc::{AllocError, Global};
use std::fs;
pub(crate) use tests_found::Found;

pub(crate) const EMPTY: Line = Line { w: [0; 8] };

pub(crate) const FULL: Line = Line {
    w: [1, 2, 3, 4, 5, 6, 7, u64::MAX],
};

/// The bytes of lines.
pub(crate) fn bytes_of(alloc: Global, lines: &[Line]) -> Result<Vec<u8>, AllocError> {
    let mut bytes = Vec::new(alloc);
    for line in lines {
        bytes.extend_from_slice(&line_bytes(*line))?;
    }
    Ok(bytes)
}

/// Whether a file holds these bytes and no more.
pub(crate) fn is_file(rt: &HostRuntime, name: &str, bytes: &[u8]) -> bool {
    match fs::read(rt, name) {
        Ok(held) => held.as_slice() == bytes,
        Err(_) => false,
    }
}

/// Whether a file holds these lines and no more.
pub(crate) fn holds(rt: &HostRuntime, name: &str, lines: &[Line]) -> bool {
    match bytes_of(rt.alloc(), lines) {
        Ok(wanted) => is_file(rt, name, &wanted),
        Err(_) => false,
    }
}

/// Makes a folder.
pub(crate) fn make_folder(rt: &HostRuntime, found: &mut Found, name: &str) {
    found.must(fs::create_dir(rt, name).is_ok(), "no folder");
}

/// Removes a file.
pub(crate) fn remove(rt: &HostRuntime, found: &mut Found, name: &str) {
    found.must(fs::remove_file(rt, name).is_ok(), "no file to remove");
}

/// Removes a folder.
pub(crate) fn remove_folder(rt: &HostRuntime, found: &mut Found, name: &str) {
    found.must(fs::remove_dir(rt, name).is_ok(), "no folder to remove");
}

/// Writes a line that reads as empty, and hands it over.
pub(crate) fn write_line<P: Pmem>(device: &mut P, line: u64) -> bool {
    if line >= device.lines() || device.read(line) != EMPTY {
        return false;
    }
    device.write(line, FULL);
    device.write_back(line);
    true
}

/// Fences, and tells whether it succeeded.
pub(crate) fn fence<P: Pmem>(device: &mut P) -> bool {
    device.fences() < 1000 && device.fence().is_ok()
}

/// A device of two lines over a file, of which the first is durable.
pub(crate) fn one_line<S: Store>(alloc: Global, store: &mut S, name: &str) -> Option<S::Dev> {
    let mut device = store.device(alloc, name, 2).ok()?;
    if write_line(&mut device, 0) && fence(&mut device) {
        return Some(device);
    }
    store.give_up(device);
    None
}
