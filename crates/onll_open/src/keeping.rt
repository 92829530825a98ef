//! The files of an object's logs, kept when the object is closed.

ghost use Rattle.std.specs.Prelude.{◌≡◌, ◌≤◌, true, false, List, [], length, map, vec_capacity, IfErr, OnOk};
ghost use Rattle.std.specs.List.{AllByRecursion};
ghost use Rattle.onll_model.specs.Limits.{most_threads};
ghost use Rattle.onll_outside.specs.Directory.{is_locked};
ghost use Rattle.onll_outside.specs.LineFiles.{IsWholeLine};
ghost use Rattle.onll_outside.specs.Views.{SameFaults, SameOthers, FaultsOf, KeepsDevice, HandsBack, MayKeep, HandsEach};
ghost use Rattle.onll_outside.specs.declared.store.FaultKind.TheVariants as kinds;
ghost use Rattle.onll_trace.specs.Closing.{AreAll};
ghost use Rattle.onll_trace.specs.declared.trace.Ended.{Ended as SomeEnded};
ghost use Rattle.onll_shared.specs.Passes.{IsTied, spot_of};
ghost use Rattle.onll_shared.specs.Ends.{HasClosed};
ghost use Rattle.onll_run.specs.Making.{device_of};
ghost use Rattle.onll_open.specs.Names.{log_name, log_names};
ghost use Rattle.onll_open.specs.Files.{SameBut};
ghost use Rattle.onll_open.specs.Keeping.{AreKept, AreWhole, CannotClose, CloseLocks, KeepFails, devices_in};

use crate::devices::give_up_all;
use crate::fault::NotKept;
use crate::locking::unlock_logs;
use crate::names::{log_lock_name, log_name};
use onll_log::ThreadLog;
use onll_model::Object;
use onll_outside::{Directory, OutsideFault, Store};
use onll_pmem::Pmem;
use onll_shared::{Onll, Pass, Unclosed};
use onll_words::Line;
use std::alloc::Global;

/// Why an object wasn't closed.
#[derive(Drop)]
pub enum CloseFault<O: Object, P: Pmem> {
    /// There was no memory to close it. All is handed back, and nothing was changed.
    NoMemory(Unclosed<O, P>),
    /// It was closed, and not every log was kept.
    NotKept(NotKept),
}

/// The devices under logs, in their order, in a list with room for them.
fn devices_of<P: Pmem + Drop>(mut logs: Vec<ThreadLog<P>>, mut devices: Vec<P>) -> Vec<P>
    requires { (devices.items ≡ []) × (length logs.items ≤ vec_capacity devices) }
    ensures { result.items ≡ map device_of logs.items }
{
    logs.reverse();
    while let Some(log) = logs.pop() {
        devices.push_reserved(log.into_device());
    }
    devices
}

/// A line has eight words of 64 bits.
fn whole_line(line: Line)
    ensures { IsWholeLine line.w }
{}

/// So has each line of a device.
fn whole_lines<P: Pmem>(device: &P)
    ensures { AllByRecursion IsWholeLine (P.means device.now).read }
{
    for line in 0..device.lines() {
        whole_line(device.read(line));
    }
}

/// So has each line of each device.
fn whole_devices<P: Pmem>(devices: &[P])
    ensures { AreWhole (map P.means devices.now) }
{
    for device in devices {
        whole_lines(device);
    }
}

/// Keeps the device of a thread's log as its file.
fn keep_device<S: Store>(
    alloc: Global,
    store: &mut S,
    logs: &str,
    thread: u64,
    device: S::Dev,
) -> Result<(), OutsideFault>
    ensures kept { OnOk result (KeepsDevice (S.seen store.new) (log_name logs.now thread) (S.Dev.means device)) }
    ensures file { MayKeep (log_name logs.now thread) (S.Dev.means device) (S.seen store.old) (S.seen store.new) }
    ensures faults { FaultsOf (record { kind = kinds.Keep; name = log_name logs.now thread }) (S.seen store.old) (S.seen store.new) result }
    ensures devices { HandsBack (S.Dev.means device) (S.seen store.old) (S.seen store.new) }
    ensures others { SameOthers (log_name logs.now thread) (S.seen store.old) (S.seen store.new) }
{
    let Ok(name) = log_name(alloc, logs, thread) else {
        store.give_up(device);
        return Err(OutsideFault::NoMemory);
    };
    store.keep(alloc, &name, device)
}

/// Keeps each device as its thread's file, in their order. Where one can't be kept, those after it are given up: each of their files is as
/// it was, or holds an image of its device.
pub fn keep_devices<S: Store>(
    alloc: Global,
    store: &mut S,
    logs: &str,
    mut devices: Vec<S::Dev>,
) -> Result<(), NotKept>
    requires { length devices.items ≤ most_threads }
    ensures kept { OnOk result (AreKept logs.now 0 (map S.Dev.means devices.items) (S.seen store.new)) }
    ensures faults { OnOk result (SameFaults (S.seen store.old) (S.seen store.new)) }
    ensures failed { IfErr result (λ e. KeepFails logs.now (map S.Dev.means devices.items)
        (S.seen store.old) (S.seen store.new) e.thread e.fault) }
    ensures handed { HandsEach (map S.Dev.means devices.items) (S.seen store.old) (S.seen store.new) }
    ensures others { SameBut (log_names logs.now 0 (length devices.items)) (S.seen store.old) (S.seen store.new) }
{
    devices.reverse();
    let mut thread = 0;
    while let Some(device) = devices.pop() {
        match keep_device(alloc, store, logs, thread, device) {
            Ok(()) => thread += 1,
            Err(fault) => {
                give_up_all(devices, store);
                return Err(NotKept { thread, fault });
            }
        }
    }
    Ok(())
}

/// The same, and then gives back the name of the logs' lock.
fn keep_and_unlock<S: Directory>(
    alloc: Global,
    store: &mut S,
    logs: &str,
    lock: &str,
    devices: Vec<S::Dev>,
) -> Result<(), NotKept>
    requires { length devices.items ≤ most_threads }
    ensures kept { OnOk result (AreKept logs.now 0 (map S.Dev.means devices.items) (S.seen store.new)) }
    ensures faults { OnOk result (SameFaults (S.seen store.old) (S.seen store.new)) }
    ensures failed { IfErr result (λ e. KeepFails logs.now (map S.Dev.means devices.items)
        (S.seen store.old) (S.seen store.new) e.thread e.fault) }
    ensures handed { HandsEach (map S.Dev.means devices.items) (S.seen store.old) (S.seen store.new) }
    ensures others { SameBut (log_names logs.now 0 (length devices.items)) (S.seen store.old) (S.seen store.new) }
    ensures free { (S.seen store.old).tells ≡ true → is_locked (S.locked store.new) lock.now ≡ false }
{
    let kept = keep_devices(alloc, store, logs, devices);
    unlock_logs(store, lock);
    kept
}

/// Closes an object after all its threads are done, and keeps its logs as their files. Others may open them then.
pub fn close<O: Object + Drop, S: Directory>(
    alloc: Global,
    store: &mut S,
    logs: &str,
    onll: Onll<O>,
    passes: Vec<Pass<O, S::Dev>>,
) -> Result<(), CloseFault<O, S::Dev>>
    requires few { length passes.items ≤ most_threads }
    requires all { AreAll onll.trace (map spot_of passes.items) }
    requires tied { AllByRecursion (IsTied O.means S.Dev.means onll) passes.items }
    ensures closed { OnOk result ((trace : List SomeEnded) × HasClosed onll.trace passes.items trace) }
    ensures kept { OnOk result (AreKept logs.now 0 (devices_in S.Dev.means passes.items) (S.seen store.new)) }
    ensures whole { OnOk result (AreWhole (devices_in S.Dev.means passes.items)) }
    ensures handed { OnOk result (HandsEach (devices_in S.Dev.means passes.items) (S.seen store.old) (S.seen store.new)) }
    ensures faults { OnOk result (SameFaults (S.seen store.old) (S.seen store.new)) }
    ensures locks { CloseLocks (S.seen store.old) logs.now (S.locked store.old) (S.locked store.new) result }
    ensures refused { IfErr result (CannotClose S.Dev.means onll passes.items logs.now (S.seen store.old) (S.seen store.new)) }
    ensures others { SameBut (log_names logs.now 0 (length passes.items)) (S.seen store.old) (S.seen store.new) }
{
    let Ok(lock) = log_lock_name(alloc, logs) else {
        return Err(CloseFault::NoMemory(Unclosed {
            object: onll,
            passes,
        }));
    };
    let Ok(devices) = Vec::with_capacity(alloc, passes.len()) else {
        return Err(CloseFault::NoMemory(Unclosed {
            object: onll,
            passes,
        }));
    };
    match onll.end(alloc, passes) {
        Ok(closed) => {
            let devices = devices_of(closed, devices);
            whole_devices(&devices);
            match keep_and_unlock(alloc, store, logs, &lock, devices) {
                Ok(()) => Ok(()),
                Err(fault) => Err(CloseFault::NotKept(fault)),
            }
        }
        Err(unclosed) => Err(CloseFault::NoMemory(unclosed)),
    }
}
