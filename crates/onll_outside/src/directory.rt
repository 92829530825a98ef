//! The trait of a store that tells how long its files are, and gives a name to one user at a time.

ghost use Rattle.std.specs.Prelude.{◌≡◌, ℕ, List, IfOk};
ghost use Rattle.onll_outside.specs.Views.{SameFiles, SameFaults, SameOthers, SameDevices, FaultsOf};
ghost use Rattle.onll_outside.specs.Directory.{SizeOf, LocksOf, LockFaults, Unlocks};

use crate::{FaultKind, OutsideFault, Store};
use std::alloc::Global;
use thiserror::Error;

/// Why a name was not locked.
#[derive(Clone, Copy, Debug, PartialEq, Eq, Error)]
pub enum LockFault {
    /// Another has it, or this store has it already.
    #[error("the name is in use")]
    InUse,
    /// The outside failed; the count of faults rose in this call.
    #[error("the outside failed")]
    Failed,
    /// Memory could not be had.
    #[error("out of memory")]
    NoMemory,
}

/// A store that tells how long a file is, and gives a name to one user at a time.
pub trait Directory: Store {
    /// The names that are locked, in the order in which they were taken, where the store tells its files.
    ghost locked: { Self → List (List ℕ) };

    /// How many bytes the file `name` has; `None` where it is not there, which is no fault.
    fn size(&mut self, alloc: Global, name: &str) -> Result<Option<u64>, OutsideFault>
        ensures size { IfOk result (λ n. SizeOf (Self.seen self.old) name.now n) }
        ensures same { SameFiles (Self.seen self.old) (Self.seen self.new) }
        ensures faults { FaultsOf (record { kind = FaultKind.Read; name = name.now }) (Self.seen self.old) (Self.seen self.new) result }
        ensures devices { SameDevices (Self.seen self.old) (Self.seen self.new) }
        ensures locks { locked self.new ≡ locked self.old };

    /// Takes a name, which nobody else is given until it is unlocked or the store is dropped. Its file may be made,
    /// empty, where it is not there. What is locked over the system's files is the file that now has the name: a call
    /// that puts another in its place, as `write` of some bytes, or `keep` of a device under a name that isn't its own,
    /// leaves that one unlocked.
    fn lock(&mut self, alloc: Global, name: &str) -> Result<(), LockFault>
        ensures locks { LocksOf (Self.seen self.old) name.now (locked self.old) (locked self.new) result }
        ensures others { SameOthers name.now (Self.seen self.old) (Self.seen self.new) }
        ensures faults { LockFaults name.now (Self.seen self.old) (Self.seen self.new) result }
        ensures devices { SameDevices (Self.seen self.old) (Self.seen self.new) };

    /// Gives a name back. One that is not locked stays so.
    fn unlock(&mut self, name: &str)
        ensures locks { Unlocks (Self.seen self.old) name.now (locked self.old) (locked self.new) }
        ensures same { SameFiles (Self.seen self.old) (Self.seen self.new) }
        ensures faults { SameFaults (Self.seen self.old) (Self.seen self.new) }
        ensures devices { SameDevices (Self.seen self.old) (Self.seen self.new) };
}
