//! Tests of the devices and of their images.

ghost use Rattle.std.specs.Prelude.{◌≡◌, ◌+◌, ◌-◌, ◌^◌, ◌<◌, length};

use onll_pmem::{FenceFailed, MemPmem, Pmem};
use onll_words::Line;
use std::alloc::Global;
use std::test::Fail;
use tests_found::Found;

const EMPTY: Line = Line { w: [0; 8] };

/// A line of two words, and what is left of it where only the first or the last of them is.
const WHOLE: Line = Line {
    w: [5, 0, 0, 0, 0, 0, 0, 7],
};

const FIRST: Line = Line {
    w: [5, 0, 0, 0, 0, 0, 0, 0],
};

const LAST: Line = Line {
    w: [0, 0, 0, 0, 0, 0, 0, 7],
};

/// A line of one other word.
const NINE: Line = Line {
    w: [0, 0, 0, 0, 0, 0, 0, 9],
};

/// Whether the image of a number has these lines.
fn shows(alloc: Global, device: &MemPmem, keep: u64, wanted: &[Line]) -> bool {
    match device.image(alloc, keep) {
        Ok(image) => image.as_slice() == wanted,
        Err(_) => false,
    }
}

/// Whether the second of two lines is this in the image of a number, and the first is empty.
fn shows_second(alloc: Global, device: &MemPmem, keep: u64, wanted: Line) -> bool {
    shows(alloc, device, keep, &[EMPTY, wanted])
}

/// Whether so many fences were called, of which so many failed.
fn has_fences(device: &MemPmem, fences: u64, faults: u64) -> bool {
    device.fences() == fences && device.faults() == faults
}

/// Makes a fence, after which every line reads as before.
fn fence<P: Pmem>(device: &mut P) -> Result<(), FenceFailed>
    requires { (P.means device.old).fences < 2 ^ 64 - 1 }
    ensures read { (P.means device.new).read ≡ (P.means device.old).read }
    ensures fences { (P.means device.new).fences ≡ (P.means device.old).fences + 1 }
{
    device.fence()
}

/// The images of a device whose second line is written, and not fenced.
fn show_pending(alloc: Global, found: &mut Found, device: &MemPmem) {
    found.must(shows_second(alloc, device, 0, EMPTY), "no word kept");
    found.must(shows_second(alloc, device, 1, FIRST), "the first word kept");
    found.must(shows_second(alloc, device, 2, LAST), "the last word kept");
    found.must(shows_second(alloc, device, 3, WHOLE), "both words kept");
}

#[test]
fn only_fenced_words_are_sure(rt: HostRuntime) -> Result<(), Fail> {
    let alloc = rt.alloc();
    let mut device = MemPmem::new(alloc, 2, vec![in alloc; 2]?)?;
    let mut found = Found::new();
    device.write(1, WHOLE);
    show_pending(alloc, &mut found, &device);

    found.must(fence(&mut device) == Ok(()), "the first fence failed");
    found.must(has_fences(&device, 1, 0), "other counts of one fence");
    found.must(
        shows_second(alloc, &device, 0, EMPTY),
        "fenced and not written back",
    );

    device.write_back(1);
    found.must(
        fence(&mut device) == Err(FenceFailed),
        "the second fence did not fail",
    );
    found.must(has_fences(&device, 2, 1), "other counts of two fences");
    found.must(
        shows_second(alloc, &device, 0, EMPTY),
        "sure by a fence that failed",
    );

    found.must(fence(&mut device) == Ok(()), "the third fence failed");
    found.must(has_fences(&device, 3, 1), "other counts of three fences");
    found.must(shows_second(alloc, &device, 0, WHOLE), "not sure");
    found.ended()
}

#[test]
fn pending_words_are_numbered_by_line(rt: HostRuntime) -> Result<(), Fail> {
    let alloc = rt.alloc();
    let mut device = MemPmem::new(alloc, 2, Vec::new(alloc))?;
    device.write(1, FIRST);
    device.write(0, NINE);
    let mut found = Found::new();
    found.must(
        shows(alloc, &device, 1, &[NINE, EMPTY]),
        "the first line's word kept",
    );
    found.must(
        shows(alloc, &device, 2, &[EMPTY, FIRST]),
        "the second line's word kept",
    );
    found.must(shows(alloc, &device, 3, &[NINE, FIRST]), "both words kept");
    found.ended()
}

#[test]
fn an_image_is_fenced(rt: HostRuntime) -> Result<(), Fail> {
    let alloc = rt.alloc();
    let lines = vec![in alloc; EMPTY, FIRST]?;
    let mut device = MemPmem::of_image(alloc, lines, vec![in alloc; 1]?)?;
    let mut found = Found::new();
    found.must(has_fences(&device, 0, 0), "counts of no fence");
    found.must(shows_second(alloc, &device, 0, FIRST), "no word kept");
    found.must(shows_second(alloc, &device, 1, FIRST), "a word kept");
    device.write(1, WHOLE);
    device.write_back(1);
    found.must(
        fence(&mut device) == Err(FenceFailed),
        "the first fence did not fail",
    );
    found.must(
        shows_second(alloc, &device, 0, FIRST),
        "sure by a fence that failed",
    );
    found.must(fence(&mut device) == Ok(()), "the second fence failed");
    found.must(shows_second(alloc, &device, 0, WHOLE), "not sure");
    found.must(has_fences(&device, 2, 1), "other counts of two fences");
    found.ended()
}

/// Makes each line durable by a fence of its own, where it reads as empty, and counts those that are.
fn fence_each<P: Pmem>(device: &mut P) -> u64
    requires { (P.means device.old).fences ≡ 0 }
    ensures { length (P.means device.new).read ≡ length (P.means device.old).read }
{
    let mut durable = 0;
    for line in 0..device.lines() {
        if device.read(line) == EMPTY {
            device.write(
                line,
                Line {
                    w: [1, 2, 3, 4, 5, 6, 7, 8],
                },
            );
            device.write_back(line);
            if device.fence().is_ok() {
                durable += 1;
            }
        }
    }
    durable
}

#[test]
fn a_fence_passes_over_no_other_line(rt: HostRuntime) -> Result<(), Fail> {
    let mut device = MemPmem::new(rt.alloc(), 69_633, vec![in rt.alloc(); 3]?)?;
    let mut found = Found::new();
    found.must(fence_each(&mut device) == 69_632, "other lines are durable");
    found.must(has_fences(&device, 69_633, 1), "other counts");
    found.ended()
}
