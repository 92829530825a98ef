//! What a crash left of an object, without threads.

ghost use Rattle.std.specs.Prelude.{◌≡◌, ◌≤◌, [], ◌∷◌, Ok, IfOk, IfErr};
ghost use Rattle.onll_model.specs.Limits.{most_threads};
ghost use Rattle.onll_model.specs.Trace.{state_after};
ghost use Rattle.onll_merge.specs.Recovered.{recovered_in};
ghost use Rattle.onll_outside.specs.Views.{SameDevices, SameFiles};
ghost use Rattle.onll_open.specs.Heads.{heads_of};
ghost use Rattle.onll_open.specs.Files.{SameBut};
ghost use Rattle.onll_open.specs.Locking.{GivesBack};
ghost use Rattle.onll_open.specs.Names.{log_lock_name};
ghost use Rattle.onll_open.specs.Opening.{FilesGive, FilesRefuse, ReadFaults, RecoverFaults};

use crate::fault::FilesFault;
use crate::locking::{lock_logs, unlock_logs};
use crate::misfits::recover_logs;
use crate::reading::read_images;
use onll_log::new_heads;
use onll_merge::Recovery;
use onll_outside::Directory;
use onll_rows::Described;
use std::alloc::Global;

/// What was recovered: the object, and the nodes that it went through.
#[derive(Drop)]
pub struct RecoveredObject<O> {
    pub object: O,
    pub recovery: Recovery,
}

/// The object as the files of its logs say it, which are locked.
fn recover_held<O: Described + Drop, S: Directory>(
    alloc: Global,
    store: &mut S,
    logs: &str,
    threads: u64,
    mut object: O,
) -> Result<RecoveredObject<O>, FilesFault>
    requires { threads ≤ most_threads }
    ensures found { IfOk result (λ r. FilesGive O.means (S.seen store.old) logs.now (heads_of O.CODE (O.description object) threads)
        (Ok (recovered_in r.recovery))) }
    ensures state { IfOk result (λ r. r.object ≡ state_after O.means object r.recovery.nodes.items) }
    ensures refused { IfErr result (FilesRefuse O.means (S.seen store.old) logs.now (heads_of O.CODE (O.description object) threads)) }
    ensures faults { ReadFaults logs.now threads (S.seen store.old) (S.seen store.new) result }
    ensures same { SameFiles (S.seen store.old) (S.seen store.new) }
    ensures devices { SameDevices (S.seen store.old) (S.seen store.new) }
{
    let description = object.describe(alloc)?;
    let heads = new_heads(alloc, O::CODE, &description, threads)?;
    let images = read_images(alloc, store, logs, threads)?;
    let recovery = recover_logs(alloc, &mut object, &heads, &images)?;
    Ok(RecoveredObject { object, recovery })
}

/// The object, which began in this state, as the files of the logs of so many threads say it. They stay as they are, and nobody opens
/// them meanwhile. Where no file is there, it is the state that it began in.
pub fn recover<O: Described + Drop, S: Directory>(
    alloc: Global,
    store: &mut S,
    logs: &str,
    threads: u64,
    object: O,
) -> Result<RecoveredObject<O>, FilesFault>
    requires { threads ≤ most_threads }
    ensures found { IfOk result (λ r. FilesGive O.means (S.seen store.old) logs.now (heads_of O.CODE (O.description object) threads)
        (Ok (recovered_in r.recovery))) }
    ensures state { IfOk result (λ r. r.object ≡ state_after O.means object r.recovery.nodes.items) }
    ensures locks { GivesBack (S.seen store.old) logs.now (S.locked store.old) (S.locked store.new) result }
    ensures refused { IfErr result (FilesRefuse O.means (S.seen store.old) logs.now (heads_of O.CODE (O.description object) threads)) }
    ensures faults { RecoverFaults logs.now threads (S.seen store.old) (S.seen store.new) result }
    ensures others { SameBut (log_lock_name logs.now ∷ []) (S.seen store.old) (S.seen store.new) }
    ensures devices { SameDevices (S.seen store.old) (S.seen store.new) }
{
    let name = lock_logs(alloc, store, logs)?;
    let recovered = recover_held(alloc, store, logs, threads, object);
    unlock_logs(store, &name);
    recovered
}
