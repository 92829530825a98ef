//! Saving a checkpoint on a device.

ghost use Rattle.std.specs.Prelude.{◌≡◌, ◌<◌, ◌≤◌, ◌^◌, ◌⊎◌, length, IfOk, IfErr};
ghost use Rattle.onll_pmem.specs.Device.{zero_lines};
ghost use Rattle.onll_pmem.specs.Pmem.{ToldBacked, ToldSettled};
ghost use Rattle.onll_log.specs.Log.{PutsLines};
ghost use Rattle.onll_checkpoint.specs.Checkpoint.{longest_saved, FitsCheckpoint};
ghost use Rattle.onll_checkpoint.specs.Text.{lines_for, text_lines};
ghost use Rattle.onll_checkpoint.specs.Grammar.{text_image};
ghost use Rattle.onll_checkpoint.specs.Save.{CanTake, IsSaved, NotSaved, IsTextPending, IsFirstPending};
ghost use Rattle.onll_checkpoint.specs.Stages.{HasText, HasFirst, HasFirstPending};

use crate::cause::SaveCause;
use crate::first_line::first_line;
use crate::state::Checkpoint;
use crate::text_lines::{front_line, lines_for, lines_of_text};
use onll_log::{first_dirty, put};
use onll_pmem::{FenceFailed, Pmem};

/// Writes the lines of a text from line 1 on, and hands them over to the next fence.
fn put_text<P: Pmem>(device: &mut P, text: &[u8])
    requires clean { (P.means device.old).read ≡ zero_lines (length (P.means device.old).read) }
    requires few { length text.now ≤ longest_saved }
    requires room { lines_for (length text.now) ≤ length (P.means device.old).read }
    ensures { PutsLines (P.means device.old) (P.means device.new) 1 (text_lines text.now) }
{
    for i in 0..lines_of_text(text.len()) {
        put(device, 1 + i as u64, front_line(&text[64 * i..]));
    }
}

/// No checkpoint was saved. The device is handed back.
#[derive(Drop)]
pub struct SaveFault<P> {
    /// The device, to be kept or given up.
    pub device: P,
    /// Why it holds no checkpoint.
    pub cause: SaveCause,
}

/// Writes the text of a checkpoint, with one fence.
fn save_text<P: Pmem>(mut device: P, checkpoint: &Checkpoint) -> Result<P, SaveFault<P>>
    requires room { CanTake (P.means device) checkpoint.now }
    requires few { (P.means device).fences < 2 ^ 32 }
    requires settled { ToldSettled (P.means device).told (P.means device).read }
    requires backed { ToldBacked (P.means device).told (P.means device).read }
    ensures saved { IfOk result (λ new. HasText (P.means device) (P.means new) checkpoint.now.text) }
    ensures cause { IfErr result (λ fault. fault.cause ≡ SaveCause.FenceFailed) }
    ensures pending { IfErr result (λ fault. IsTextPending (P.means device) (P.means fault.device) checkpoint.now) }
{
    put_text(&mut device, checkpoint.text());
    match device.fence() {
        Ok(()) => Ok(device),
        Err(FenceFailed) => Err(SaveFault {
            device,
            cause: SaveCause::FenceFailed,
        }),
    }
}

/// Writes the first line of a checkpoint over a device that has its text, with one fence.
fn save_first<P: Pmem>(mut device: P, checkpoint: &Checkpoint) -> Result<P, SaveFault<P>>
    requires text { (P.means device).read ≡ text_image checkpoint.now.text (length (P.means device).read) }
    requires few { (P.means device).fences < 2 ^ 33 }
    requires settled { ToldSettled (P.means device).told (P.means device).read }
    requires backed { ToldBacked (P.means device).told (P.means device).read }
    ensures saved { IfOk result (λ new. HasFirst (P.means device) (P.means new) checkpoint.now) }
    ensures cause { IfErr result (λ fault. fault.cause ≡ SaveCause.FenceFailed) }
    ensures pending { IfErr result (λ fault. HasFirstPending (P.means device) (P.means fault.device) checkpoint.now) }
{
    put(&mut device, 0, first_line(checkpoint));
    match device.fence() {
        Ok(()) => Ok(device),
        Err(FenceFailed) => Err(SaveFault {
            device,
            cause: SaveCause::FenceFailed,
        }),
    }
}

/// Saves a checkpoint on a device that is known to have room for it, all of zeros.
fn save_on_zeros<P: Pmem>(device: P, checkpoint: &Checkpoint) -> Result<P, SaveFault<P>>
    requires fits { FitsCheckpoint checkpoint.now }
    requires room { CanTake (P.means device) checkpoint.now }
    requires few { (P.means device).fences < 2 ^ 32 }
    requires settled { ToldSettled (P.means device).told (P.means device).read }
    requires backed { ToldBacked (P.means device).told (P.means device).read }
    ensures saved { IfOk result (λ new. IsSaved (P.means device) (P.means new) checkpoint.now) }
    ensures cause { IfErr result (λ fault. fault.cause ≡ SaveCause.FenceFailed) }
    ensures pending { IfErr result (λ fault. IsTextPending (P.means device) (P.means fault.device) checkpoint.now
        ⊎ IsFirstPending (P.means device) (P.means fault.device) checkpoint.now) }
{
    match save_text(device, checkpoint) {
        Ok(device) => save_first(device, checkpoint),
        Err(fault) => Err(fault),
    }
}

/// Saves a checkpoint on a device of zeros, with two fences: when the first line is written, the text is durable. So whatever
/// a crash leaves is no checkpoint or this one.
pub fn save<P: Pmem>(device: P, checkpoint: &Checkpoint) -> Result<P, SaveFault<P>>
    requires few { (P.means device).fences < 2 ^ 32 }
    requires settled { ToldSettled (P.means device).told (P.means device).read }
    ensures saved { IfOk result (λ new. IsSaved (P.means device) (P.means new) checkpoint.now) }
    ensures refused { IfErr result (λ fault. NotSaved fault.cause (P.means device) (P.means fault.device) checkpoint.now) }
    ensures unchanged { IfErr result (λ fault. (fault.cause ≡ SaveCause.FenceFailed) ⊎ (fault.device ≡ device)) }
{
    if device.lines() < lines_for(checkpoint.text().len() as u64) {
        return Err(SaveFault {
            device,
            cause: SaveCause::Small,
        });
    }
    match first_dirty(&device) {
        Some(line) => Err(SaveFault {
            device,
            cause: SaveCause::Dirty { line },
        }),
        None => save_on_zeros(device, checkpoint),
    }
}
