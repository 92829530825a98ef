//! Logs that are opened, or begun anew where nothing is held, one over each device.

ghost use Rattle.std.specs.Prelude.{◌≡◌, ◌+◌, ◌≤◌, ◌∷◌, ◌++◌, length, map, reverse, vec_capacity, IfOk, IfErr, None};
ghost use Rattle.onll_log.specs.Decoded.{content_in};
ghost use Rattle.onll_log.specs.Log.{IsHeaderPending};
ghost use Rattle.onll_merge.specs.Merge.{contents_in};
ghost use Rattle.onll_run.specs.declared.logs.RunFault.TheVariants.{NoMemory};
ghost use Rattle.onll_run.specs.Left.{no_base};
ghost use Rattle.onll_run.specs.Making.{CanOpen, AllCanOpen, IsOpen, AreOpen, RunFails, device_of};

use onll_log::{Decoded, Entries, LogHead, MakeFault, ThreadLog};
use onll_pmem::Pmem;
use onll_words::NoMemory;
use std::alloc::{AllocError, Global};

/// Why scripts were not run to their end.
#[derive(Drop)]
pub enum RunFault<P: Pmem> {
    /// There was no memory. The devices are gone.
    NoMemory,
    /// The fence of the header of this thread's log failed. All devices are handed back, in their order.
    HeaderFailed { thread: u64, devices: Vec<P> },
}

impl<P: Pmem> From<NoMemory> for RunFault<P> {
    ghost from_gives = { λ _ fault. fault ≡ NoMemory };

    fn from(_e: NoMemory) -> RunFault<P> {
        RunFault::NoMemory
    }
}

impl<P: Pmem> From<AllocError> for RunFault<P> {
    ghost from_gives = { λ _ fault. fault ≡ NoMemory };

    fn from(_e: AllocError) -> RunFault<P> {
        RunFault::NoMemory
    }
}

/// What so many logs hold that are begun anew.
pub fn new_logs(alloc: Global, count: usize) -> Result<Vec<Decoded>, AllocError>
    ensures { IfOk result (λ logs. contents_in logs.items ≡ (no_base count).logs) }
{
    let mut logs = Vec::with_capacity(alloc, count)?;
    for _ in 0..count {
        logs.push_reserved(Decoded {
            head: None,
            entries: Entries::of_vec(Vec::new(alloc)),
        });
    }
    Ok(logs)
}

/// The log of this head over the device, which held this before. Where it held nothing it is begun, and where the header's fence fails
/// the device is handed back.
fn open_log<P: Pmem>(head: LogHead, log: &Decoded, device: P) -> Result<ThreadLog<P>, P>
    requires { CanOpen P.means head (content_in log.now) device }
    ensures open { IfOk result (λ log_. IsOpen P.means head (content_in log.now) device log_) }
    ensures failed { IfErr result (λ back. (log.now.head ≡ None) × IsHeaderPending (P.means device) (P.means back) head) }
{
    match log.head {
        Some(_) => Ok(ThreadLog::open(device, log)),
        None => match ThreadLog::make(device, head) {
            Ok(log) => Ok(log),
            Err(MakeFault { device, .. }) => Err(device),
        },
    }
}

/// The devices of logs, then one more, then those that are left, the last of which comes first.
fn devices_back<P: Pmem + Drop>(mut logs: Vec<ThreadLog<P>>, failed: P, mut left: Vec<P>) -> Vec<P>
    requires { length logs.items + 1 + length left.items ≤ vec_capacity left }
    ensures { result.items ≡ map device_of logs.items ++ failed ∷ reverse left.items }
{
    left.push_reserved(failed);
    while let Some(log) = logs.pop() {
        left.push_reserved(log.into_device());
    }
    left.reverse();
    left
}

/// A log of each head over the device at its place, which held what is at its place in the base. At the first header whose fence fails
/// all devices are handed back.
pub fn open_logs<P: Pmem + Drop>(
    alloc: Global,
    heads: &[LogHead],
    base: &[Decoded],
    mut devices: Vec<P>,
) -> Result<Vec<ThreadLog<P>>, RunFault<P>>
    requires { AllCanOpen P.means heads.now (contents_in base.now) devices.items }
    ensures open { IfOk result (λ logs. AreOpen P.means heads.now (contents_in base.now) devices.items logs.items) }
    ensures refused { IfErr result (λ fault. RunFails P.means heads.now (contents_in base.now) devices.items fault) }
{
    let mut logs = Vec::with_capacity(alloc, heads.len())?;
    devices.reverse();
    for thread in 0..heads.len() {
        let Some(device) = devices.pop() else {
            unreachable!()
        };
        match open_log(heads[thread], &base[thread], device) {
            Ok(log) => logs.push_reserved(log),
            Err(failed) => {
                let devices = devices_back(logs, failed, devices);
                return Err(RunFault::HeaderFailed {
                    thread: thread as u64,
                    devices,
                });
            }
        }
    }
    Ok(logs)
}
