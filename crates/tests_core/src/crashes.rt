//! Crashes of a core of two threads, and what is recovered after each.

ghost use Rattle.std.specs.Prelude.{◌≤◌, IfOk};
ghost use Rattle.onll_model.specs.Calls.{updates_in};

use onll_bank::{Bank, BankOp};
use onll_core::Core;
use onll_merge::{ImagesFault, RecoverFault};
use onll_model::Call;
use onll_words::Line;
use std::alloc::{AllocError, Global};
use std::process::Abort;
use std::test::Fail;

const INIT: &[u8] = b"bank 2\n";

/// A script of one deposit.
fn deposit(alloc: Global, a: u64, x: u64) -> Result<Vec<Call<Bank>>, AllocError>
    ensures { IfOk result (λ script. updates_in script.items ≤ 4096) }
{
    let script = vec![in alloc; Call::Update(BankOp::Deposit { a, x })]?;
    Ok(script)
}

/// A core of two threads, each of which deposits once.
fn two_deposits(alloc: Global) -> Result<Core<Bank>, Fail> {
    let scripts = vec![in alloc; deposit(alloc, 0, 5)?, deposit(alloc, 1, 7)?]?;
    let core = Core::create(alloc, Bank::make(alloc, 2)?, INIT, scripts)?;
    Ok(core)
}

fn steps(core: &mut Core<Bank>, thread: u64, count: u64) {
    for _step in 0..count {
        if thread < core.threads() && core.clock() < u64::MAX {
            let _ = core.step(thread);
        }
    }
}

/// How many nodes are recovered of these images, or why none are.
fn recovered(alloc: Global, core: &Core<Bank>, images: &[Vec<Line>]) -> Result<u64, ImagesFault> {
    if images.len() as u64 != core.threads() {
        return Err(ImagesFault::NotLog { log: u64::MAX });
    }
    let nodes = core.recover_from(alloc, images)?;
    Ok(nodes.len() as u64)
}

/// Of the images that this number picks so many nodes are recovered.
fn recovers<R: Abort>(
    rt: &R,
    alloc: Global,
    core: &Core<Bank>,
    keep: u64,
    wanted: u64,
) -> Result<(), Fail> {
    let images = core.crash(alloc, keep)?;
    assert_eq!(rt; recovered(alloc, core, &images), Ok(wanted), "{keep}");
    Ok(())
}

#[test]
fn what_returned_is_recovered(rt: HostRuntime) -> Result<(), Fail> {
    let alloc = rt.alloc();
    let mut core = two_deposits(alloc)?;
    recovers(&rt, alloc, &core, u64::MAX, 0)?;
    steps(&mut core, 0, 16);
    recovers(&rt, alloc, &core, 0, 1)?;

    // The second thread's entry is written, and not fenced.
    steps(&mut core, 1, 7);
    recovers(&rt, alloc, &core, 0, 1)?;
    recovers(&rt, alloc, &core, u64::MAX - 1, 1)?;
    recovers(&rt, alloc, &core, u64::MAX, 2)?;

    steps(&mut core, 1, 1);
    recovers(&rt, alloc, &core, 0, 2)?;
    Ok(())
}

#[test]
fn images_that_are_refused(rt: HostRuntime) -> Result<(), Fail> {
    let alloc = rt.alloc();
    let core = two_deposits(alloc)?;
    let mut images = core.crash(alloc, 0)?;
    if images.len() == 2 {
        images.swap(0, 1);
    }
    assert_eq!(rt;
        recovered(alloc, &core, &images),
        Err(ImagesFault::Recover(RecoverFault::NotThisRun { log: 0 }))
    );
    if images.len() == 2 {
        images[1] = vec![in alloc; Line { w: [1; 8] }]?;
    }
    assert_eq!(rt;
        recovered(alloc, &core, &images),
        Err(ImagesFault::NotLog { log: 1 })
    );
    if images.len() == 2 {
        images[0] = Vec::new(alloc);
    }
    assert_eq!(rt;
        recovered(alloc, &core, &images),
        Err(ImagesFault::NotLog { log: 0 })
    );
    Ok(())
}
