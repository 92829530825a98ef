//! The devices of an object's logs, over their files.

ghost use Rattle.std.specs.Prelude.{◌≡◌, ◌≤◌, ◌+◌, IsSome, length, map, reverse, All, IfOk, IfErr, OnOk};
ghost use Rattle.std.specs.List.{AllByRecursion};
ghost use Rattle.onll_model.specs.Limits.{most_threads};
ghost use Rattle.onll_pmem.specs.Pmem.{words_of};
ghost use Rattle.onll_log.specs.Grammar.{content_of};
ghost use Rattle.onll_log.specs.Decoded.{content_in};
ghost use Rattle.onll_merge.specs.Merge.{contents_in};
ghost use Rattle.onll_outside.specs.Views.{SameFiles, SameFaults, SameDevices, SameOthers, IsFresh, with_zeros, HandsEach};
ghost use Rattle.onll_open.specs.Names.{log_name, log_names};
ghost use Rattle.onll_open.specs.Files.{BeginsAs, DeviceFaults, FilesBegin, KeepFronts, KeepsFront, SameBut, SameCounts};
ghost use Rattle.onll_open.specs.Devices.{AreReopened, IsHeld, AreHeld, AreWithin, HaveHeadLines, IsDeviceAt, IsDeviceOf, NoneCounted, front_by, fronts_by};

use crate::fault::DeviceFault;
use crate::names::log_name;
use onll_log::{DecodeFault, Decoded, TestedImage, decode};
use onll_merge::LogCounts;
use onll_outside::{OutsideFault, Store};
use onll_words::{Line, NoMemory};
use std::alloc::{AllocError, Global};

/// What an image holds that is a log.
fn decode_log(alloc: Global, image: &[Line]) -> Result<Decoded, NoMemory>
    requires { IsSome (content_of (words_of image.now)) }
    ensures { IfOk result (λ log. IsHeld (words_of image.now) (content_in log)) }
{
    match decode(alloc, image) {
        Ok(log) => Ok(log),
        Err(DecodeFault::NoMemory) => Err(NoMemory),
        Err(DecodeFault::NotLog) => unreachable!(),
    }
}

/// What the images of logs hold.
pub fn decode_logs(alloc: Global, images: &[TestedImage<'_>]) -> Result<Vec<Decoded>, NoMemory>
    requires { AllByRecursion (λ image. IsSome (content_of image)) images.now }
    ensures { IfOk result (λ logs. AreHeld images.now (contents_in logs.items)) }
{
    let mut logs = Vec::with_capacity(alloc, images.len())?;
    for image in images {
        logs.push_reserved(decode_log(alloc, image.as_slice())?);
    }
    Ok(logs)
}

/// Gives devices back, the last of them first, without keeping them.
pub fn give_up_all<S: Store>(mut devices: Vec<S::Dev>, store: &mut S)
    ensures files { SameFiles (S.seen store.old) (S.seen store.new) }
    ensures faults { SameFaults (S.seen store.old) (S.seen store.new) }
    ensures devices { HandsEach (map S.Dev.means (reverse devices.items)) (S.seen store.old) (S.seen store.new) }
{
    while let Some(device) = devices.pop() {
        store.give_up(device);
    }
}

/// The lines with which a log's device begins: those that hold the log, none where it has no head.
fn front_of(log: LogCounts, lines: &[Line]) -> &[Line]
    ensures words { words_of result.now ≡ front_by log.head (words_of lines.now) }
    ensures few { length result.now ≤ length lines.now }
{
    if log.head { lines } else { &lines[..0] }
}

/// The device of a thread's log, over a file that begins with these lines where there are any, and made anew where there are none.
fn open_device<S: Store>(
    alloc: Global,
    store: &mut S,
    logs: &str,
    thread: u64,
    front: &[Line],
    lines: u64,
) -> Result<S::Dev, DeviceFault>
    requires front { length front.now ≤ lines }
    requires few { lines ≤ 1000000 }
    requires begins { BeginsAs (S.seen store.old) (log_name logs.now thread) (words_of front.now) }
    ensures made { IfOk result (λ device. IsFresh (with_zeros (words_of front.now) lines) (S.Dev.means device)) }
    ensures counts { OnOk result (SameCounts (S.seen store.old) (S.seen store.new)) }
    ensures faults { DeviceFaults logs.now (thread + 1) (S.seen store.old) (S.seen store.new) result }
    ensures which { IfErr result (IsDeviceAt (words_of front.now) thread) }
    ensures file { KeepsFront (log_name logs.now thread) (words_of front.now) (S.seen store.old) (S.seen store.new) }
    ensures others { SameOthers (log_name logs.now thread) (S.seen store.old) (S.seen store.new) }
    ensures devices { SameDevices (S.seen store.old) (S.seen store.new) }
{
    let name = log_name(alloc, logs, thread)?;
    if front.is_empty() {
        match store.device(alloc, &name, lines) {
            Ok(device) => Ok(device),
            Err(OutsideFault::Failed) => Err(DeviceFault::NotMade { thread }),
            Err(OutsideFault::NoMemory) => Err(DeviceFault::NoMemory),
        }
    } else {
        match store.reopen(alloc, &name, front, lines) {
            Ok(device) => Ok(device),
            Err(OutsideFault::Failed) => Err(DeviceFault::NotReopened { thread }),
            Err(OutsideFault::NoMemory) => Err(DeviceFault::NoMemory),
        }
    }
}

/// The device of each thread's log, in their order: over the file that its image was read from, or made anew where the log has no head.
/// Where one can't be had, those before it are given up.
pub fn open_devices<S: Store>(
    alloc: Global,
    store: &mut S,
    logs: &str,
    held: &[LogCounts],
    images: &[TestedImage<'_>],
    lines: &[u64],
) -> Result<Vec<S::Dev>, DeviceFault>
    requires few { length images.now ≤ most_threads }
    requires many { length held.now ≡ length images.now }
    requires short { All (λ n. n ≤ 1000000) lines.now }
    requires room { AreWithin images.now lines.now }
    requires begins { FilesBegin logs.now 0 (fronts_by held.now images.now) (S.seen store.old) }
    requires heads { HaveHeadLines held.now images.now }
    ensures made { IfOk result (λ devices. AreReopened S.Dev.means (fronts_by held.now images.now) lines.now devices.items) }
    ensures counts { OnOk result (SameCounts (S.seen store.old) (S.seen store.new)) }
    ensures none { NoneCounted (S.seen store.old) (S.seen store.new) }
    ensures faults { DeviceFaults logs.now (length images.now) (S.seen store.old) (S.seen store.new) result }
    ensures which { IfErr result (IsDeviceOf held.now) }
    ensures files { KeepFronts logs.now 0 (fronts_by held.now images.now) (S.seen store.old) (S.seen store.new) }
    ensures others { SameBut (log_names logs.now 0 (length images.now)) (S.seen store.old) (S.seen store.new) }
{
    let mut devices = Vec::with_capacity(alloc, images.len())?;
    for (thread, image) in images.iter().enumerate() {
        let front = front_of(held[thread], image.as_slice());
        match open_device(alloc, store, logs, thread as u64, front, lines[thread]) {
            Ok(device) => devices.push_reserved(device),
            Err(fault) => {
                give_up_all(devices, store);
                return Err(fault);
            }
        }
    }
    Ok(devices)
}
