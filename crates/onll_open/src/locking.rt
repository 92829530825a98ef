//! The lock of an object's logs.

ghost use Rattle.std.specs.Prelude.{◌≡◌, [], ◌∷◌, true, false, string_bytes, IfOk};
ghost use Rattle.onll_outside.specs.Directory.{is_locked};
ghost use Rattle.onll_outside.specs.Views.{SameDevices, SameFaults, SameFiles};
ghost use Rattle.onll_open.specs.Files.{SameBut};
ghost use Rattle.onll_open.specs.Locking.{LocksLogs, LockingFaults};
ghost use Rattle.onll_open.specs.Names.{log_lock_name};

use crate::fault::FilesFault;
use crate::names::log_lock_name;
use onll_outside::{Directory, LockFault};
use std::alloc::Global;

/// Locks these logs, and gives the name that is to be unlocked.
pub(crate) fn lock_logs<S: Directory>(
    alloc: Global,
    store: &mut S,
    logs: &str,
) -> Result<String, FilesFault>
    ensures name { IfOk result (λ name. string_bytes name ≡ log_lock_name logs.now) }
    ensures locks { LocksLogs (S.seen store.old) logs.now (S.locked store.old) (S.locked store.new) result }
    ensures faults { LockingFaults logs.now (S.seen store.old) (S.seen store.new) result }
    ensures others { SameBut (log_lock_name logs.now ∷ []) (S.seen store.old) (S.seen store.new) }
    ensures devices { SameDevices (S.seen store.old) (S.seen store.new) }
{
    let Ok(name) = log_lock_name(alloc, logs) else {
        return Err(FilesFault::NoMemory);
    };
    match store.lock(alloc, &name) {
        Ok(()) => Ok(name),
        Err(LockFault::InUse) => Err(FilesFault::InUse),
        Err(LockFault::Failed) => Err(FilesFault::NotLocked),
        Err(LockFault::NoMemory) => Err(FilesFault::NoMemory),
    }
}

/// Gives logs back.
pub(crate) fn unlock_logs<S: Directory>(store: &mut S, name: &str)
    ensures free { (S.seen store.old).tells ≡ true → is_locked (S.locked store.new) name.now ≡ false }
    ensures same { SameFiles (S.seen store.old) (S.seen store.new) }
    ensures faults { SameFaults (S.seen store.old) (S.seen store.new) }
    ensures devices { SameDevices (S.seen store.old) (S.seen store.new) }
{
    store.unlock(name);
}
