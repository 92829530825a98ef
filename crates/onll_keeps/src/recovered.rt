//! What a crash left of an object that keeps a fact.

ghost use Rattle.std.specs.Prelude.{◌≡◌, ◌≤◌, [], ◌∷◌, Ok, IfOk, IfErr};
ghost use Rattle.onll_model.specs.Limits.{most_threads};
ghost use Rattle.onll_model.specs.Trace.{state_after};
ghost use Rattle.onll_merge.specs.Recovered.{recovered_in};
ghost use Rattle.onll_outside.specs.Views.{SameDevices};
ghost use Rattle.onll_open.specs.Heads.{heads_of};
ghost use Rattle.onll_open.specs.Files.{SameBut};
ghost use Rattle.onll_open.specs.Locking.{GivesBack};
ghost use Rattle.onll_open.specs.Names.{log_lock_name};
ghost use Rattle.onll_open.specs.Opening.{FilesGive, FilesRefuse, RecoverFaults};
ghost use Rattle.onll_keeps.specs.Lifetimes.{EndsLives, ToldInLives};

use crate::keeps::{Keeps, keep_law};
use crate::laws::{life_balance_law, life_floor_law};
use onll_open::{FilesFault, RecoveredObject, recover};
use onll_outside::Directory;
use onll_rows::Described;
use std::alloc::Global;

/// The object as the files of the logs of so many threads say it, as `recover` gives it. Where the fact was so of the state in which it
/// began, it is so now, and each update that was answered in whatever generations there were has with its reply what the fact makes of
/// it. What their calls took out and put in of any measure is even with what there was at first and what is left.
pub fn recover_kept<O: Keeps + Described + Drop, S: Directory>(
    alloc: Global,
    store: &mut S,
    logs: &str,
    threads: u64,
    object: O,
) -> Result<RecoveredObject<O>, FilesFault>
    requires { threads ≤ most_threads }
    ensures found { IfOk result (λ r. FilesGive O.means (S.seen store.old) logs.now (heads_of O.CODE (O.description object) threads)
        (Ok (recovered_in r.recovery))) }
    ensures state { IfOk result (λ r. r.object ≡ state_after O.means object r.recovery.nodes.items) }
    ensures kept { IfOk result (λ r. O.holds object → O.holds r.object) }
    ensures told { IfOk result (λ r. O.holds object → ToldInLives O.means object O.says r.recovery.nodes.items) }
    ensures even { IfOk result (λ r. EndsLives O.means object r.recovery.nodes.items r.object) }
    ensures locks { GivesBack (S.seen store.old) logs.now (S.locked store.old) (S.locked store.new) result }
    ensures refused { IfErr result (FilesRefuse O.means (S.seen store.old) logs.now (heads_of O.CODE (O.description object) threads)) }
    ensures faults { RecoverFaults logs.now threads (S.seen store.old) (S.seen store.new) result }
    ensures others { SameBut (log_lock_name logs.now ∷ []) (S.seen store.old) (S.seen store.new) }
    ensures devices { SameDevices (S.seen store.old) (S.seen store.new) }
{
    keep_law::<O>();
    life_balance_law::<O>();
    life_floor_law::<O>();
    recover(alloc, store, logs, threads, object)
}
