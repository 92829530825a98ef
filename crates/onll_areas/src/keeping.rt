//! Devices that a store makes, and keeps as files once their lines are durable.

ghost use Rattle.std.specs.Prelude.{◌≡◌, [], ◌∷◌, length, is_some};
ghost use Rattle.onll_log.specs.Head.{head_line, FitsHead};
ghost use Rattle.onll_checkpoint.specs.Text.{lines_for};
ghost use Rattle.onll_checkpoint.specs.Grammar.{checkpoint_image};
ghost use Rattle.onll_outside.specs.Views.{SameOthers};
ghost use Rattle.onll_areas.specs.Keeping.{KeepEnds};

use crate::fault::KeepFault;
use onll_checkpoint::{Checkpoint, lines_for, save};
use onll_log::{LogHead, ThreadLog};
use onll_outside::Store;
use onll_pmem::Pmem;
use std::alloc::Global;

/// A device tells its fenced words by its type.
fn told_law<P: Pmem>()
    ensures { (device : P) → is_some (P.means device).told ≡ P.tells }
{}

/// Makes a log that has its header alone, durable by one fence, and keeps it as the file `name`. Where a fence fails the device is given
/// up, and the file is as it was or holds zeros; a call of the store that fails is not tried again.
pub fn keep_header<S: Store>(
    alloc: Global,
    name: &str,
    head: LogHead,
    store: &mut S,
) -> Result<(), KeepFault>
    requires { FitsHead head }
    ensures ends { KeepEnds (S.seen store.old) (S.seen store.new) name.now (head_line head ∷ []) 1 result }
    ensures others { SameOthers name.now (S.seen store.old) (S.seen store.new) }
{
    told_law::<S::Dev>();
    let device = match store.device(alloc, name, 1) {
        Ok(device) => device,
        Err(fault) => return Err(KeepFault::Outside(fault)),
    };
    let log = match ThreadLog::make(device, head) {
        Ok(log) => log,
        Err(unmade) => {
            store.give_up(unmade.device);
            return Err(KeepFault::FenceFailed);
        }
    };
    match store.keep(alloc, name, log.into_device()) {
        Ok(()) => Ok(()),
        Err(fault) => Err(KeepFault::Outside(fault)),
    }
}

/// Makes a device with just the lines that this checkpoint takes, saves it there by two fences, and keeps it as the file `name`. Where a
/// fence fails the device is given up, and the file is as it was or holds zeros; a call of the store that fails is not tried again.
pub fn keep_checkpoint<S: Store>(
    alloc: Global,
    name: &str,
    checkpoint: &Checkpoint,
    store: &mut S,
) -> Result<(), KeepFault>
    ensures ends { let lines = checkpoint_image checkpoint.now (lines_for (length checkpoint.now.text)) in
        KeepEnds (S.seen store.old) (S.seen store.new) name.now lines 2 result }
    ensures others { SameOthers name.now (S.seen store.old) (S.seen store.new) }
{
    told_law::<S::Dev>();
    let lines = lines_for(checkpoint.text().len() as u64);
    let device = match store.device(alloc, name, lines) {
        Ok(device) => device,
        Err(fault) => return Err(KeepFault::Outside(fault)),
    };
    let saved = match save(device, checkpoint) {
        Ok(saved) => saved,
        Err(unsaved) => {
            store.give_up(unsaved.device);
            return Err(KeepFault::FenceFailed);
        }
    };
    match store.keep(alloc, name, saved) {
        Ok(()) => Ok(()),
        Err(fault) => Err(KeepFault::Outside(fault)),
    }
}
