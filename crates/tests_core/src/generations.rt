//! Cores that go on from what crashes left, generation by generation, and images from which none goes on.

ghost use Rattle.std.specs.Prelude.{◌≤◌};

use crate::scripts::deposits;
use onll_bank::Bank;
use onll_core::Core;
use onll_log::LogHead;
use onll_merge::{ImagesFault, RecoverFault};
use onll_start::ResumeFault;
use onll_words::Line;
use std::alloc::Global;
use std::process::Abort;
use std::test::Fail;

const INIT: &[u8] = b"bank 1\n";

/// A core of one thread that goes on from an image with so many deposits, or why there is none.
fn going_on(alloc: Global, image: Vec<Line>, count: u64) -> Result<Core<Bank>, ResumeFault>
    requires { count ≤ 4096 }
{
    let (Ok(bank), Ok(script)) = (Bank::make(alloc, 1), deposits(alloc, count)) else {
        return Err(ResumeFault::NoMemory);
    };
    let (Ok(images), Ok(scripts)) = (vec![in alloc; image], vec![in alloc; script]) else {
        return Err(ResumeFault::NoMemory);
    };
    Core::resume(alloc, bank, INIT, &images, scripts)
}

/// So many steps of the thread.
fn steps(core: &mut Core<Bank>, count: u64) {
    for _step in 0..count {
        if 0 < core.threads() && core.clock() < u64::MAX {
            let _ = core.step(0);
        }
    }
}

/// How many nodes the core's trace began with, and how many fences its thread has made.
fn counts(core: &Core<Bank>) -> (u64, u64) {
    if 0 < core.threads() {
        (core.base(), core.fences(0))
    } else {
        (core.base(), u64::MAX)
    }
}

/// The image of the thread's device that this number picks, none where there is no thread.
fn image(alloc: Global, core: &Core<Bank>, keep: u64) -> Result<Vec<Line>, Fail> {
    let mut images = core.crash(alloc, keep)?;
    match images.pop() {
        Some(image) => Ok(image),
        None => Ok(Vec::new(alloc)),
    }
}

fn must_refuse<R: Abort>(
    rt: &R,
    answer: Result<Core<Bank>, ResumeFault>,
    wanted: ResumeFault,
) -> Result<(), Fail> {
    let fault = match answer {
        Ok(_) => None,
        Err(fault) => Some(fault),
    };
    assert_eq!(rt; fault, Some(wanted));
    Ok(())
}

#[test]
fn each_generation_has_all_before_it(rt: HostRuntime) -> Result<(), Fail> {
    let alloc = rt.alloc();
    let mut left = vec![in alloc; Line { w: [0; 8] }]?;
    for generation in 0..4 {
        let mut core = going_on(alloc, left, 1)?;
        assert_eq!(rt; counts(&core), (generation, 0));
        steps(&mut core, 8);
        assert_eq!(rt; counts(&core), (generation, 1));
        assert_eq!(rt; core.trace().len() as u64, generation + 1);
        left = image(alloc, &core, 0)?;
    }
    Ok(())
}

#[test]
fn a_torn_tail_is_gone(rt: HostRuntime) -> Result<(), Fail> {
    let alloc = rt.alloc();
    let mut core = going_on(alloc, vec![in alloc; Line { w: [0; 8] }]?, 2)?;
    steps(&mut core, 8);
    // The second entry is written, and one of its words is not kept.
    steps(&mut core, 6);
    let torn = image(alloc, &core, u64::MAX - 1)?;
    let mut next = going_on(alloc, torn, 2)?;
    assert_eq!(rt; counts(&next), (1, 0));
    steps(&mut next, 16);
    let last = going_on(alloc, image(alloc, &next, 0)?, 0)?;
    assert_eq!(rt; counts(&last), (3, 0));
    Ok(())
}

#[test]
fn images_that_are_refused(rt: HostRuntime) -> Result<(), Fail> {
    let alloc = rt.alloc();
    let none = vec![in alloc; Line { w: [1; 8] }]?;
    must_refuse(
        &rt,
        going_on(alloc, none, 1),
        ResumeFault::Images(ImagesFault::NotLog { log: 0 }),
    )?;
    let old = vec![in alloc; LogHead::of_format(1, 0, 1, 1, INIT).line()]?;
    must_refuse(
        &rt,
        going_on(alloc, old, 1),
        ResumeFault::OldFormat { log: 0 },
    )?;
    let other = vec![in alloc; LogHead::new(0, 1, 1, b"bank 2\n").line()]?;
    must_refuse(
        &rt,
        going_on(alloc, other, 1),
        ResumeFault::Images(ImagesFault::Recover(RecoverFault::NotThisRun { log: 0 })),
    )?;
    Ok(())
}

#[test]
fn a_thread_has_as_many_updates_as_names(rt: HostRuntime) -> Result<(), Fail> {
    let alloc = rt.alloc();
    let mut core = going_on(alloc, vec![in alloc; Line { w: [0; 8] }]?, 1)?;
    steps(&mut core, 8);
    let full = going_on(alloc, image(alloc, &core, 0)?, 4095)?;
    assert_eq!(rt; counts(&full), (1, 0));
    must_refuse(
        &rt,
        going_on(alloc, image(alloc, &core, 0)?, 4096),
        ResumeFault::TooMany { thread: 0 },
    )?;
    Ok(())
}
