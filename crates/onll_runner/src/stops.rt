//! What is said where the device of a log was not had, or was not kept.

ghost use Rattle.onll_open.specs.Names.{log_name};
ghost use Rattle.onll_task.specs.Stop.{StopSays};
ghost use Rattle.onll_runner.specs.Devices.{SaysLog, SaysDevice, SaysKept};

use onll_open::{DeviceFault, NotKept, log_name};
use onll_outside::OutsideFault;
use onll_task::Stop;
use std::alloc::Global;

/// A thread's log can't be written.
fn unwritten_log(alloc: Global, logs: &str, thread: u64) -> Stop
    ensures { StopSays result (SaysLog logs.now thread) }
{
    match log_name(alloc, logs, thread) {
        Ok(name) => Stop::unwritten(alloc, &name),
        Err(_) => Stop::NoMemory,
    }
}

/// A log's device was not had.
pub(crate) fn not_opened(alloc: Global, logs: &str, fault: DeviceFault) -> Stop
    ensures { SaysDevice logs.now fault result }
{
    match fault {
        DeviceFault::NotMade { thread } => unwritten_log(alloc, logs, thread),
        DeviceFault::NotReopened { thread } => unwritten_log(alloc, logs, thread),
        DeviceFault::NoMemory => Stop::NoMemory,
    }
}

/// A log's device was not kept.
pub(crate) fn not_kept(alloc: Global, logs: &str, not_kept: NotKept) -> Stop
    ensures { SaysKept logs.now not_kept.thread not_kept.fault result }
{
    match not_kept.fault {
        OutsideFault::Failed => unwritten_log(alloc, logs, not_kept.thread),
        OutsideFault::NoMemory => Stop::NoMemory,
    }
}
