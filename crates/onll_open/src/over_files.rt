//! An object that is opened over the files of its logs.

ghost use Rattle.std.specs.Prelude.{◌≡◌, ◌≤◌, length, IfOk, IfErr, Some, None};
ghost use Rattle.onll_model.specs.Limits.{most_threads};
ghost use Rattle.onll_merge.specs.Recovered.{recovered_in};
ghost use Rattle.onll_outside.specs.Views.{SameDevices, SameFiles};
ghost use Rattle.onll_open.specs.Names.{held_names, log_names};
ghost use Rattle.onll_open.specs.Asking.{IsForAll, RoomRefused, asked_in, room_refused, rooms_of};
ghost use Rattle.onll_open.specs.Devices.{fronts_by};
ghost use Rattle.onll_open.specs.Files.{KeepFronts, SameBut};
ghost use Rattle.onll_open.specs.Heads.{heads_of};
ghost use Rattle.onll_open.specs.Locking.{OpenLocks};
ghost use Rattle.onll_open.specs.Rooms.{first_full};
ghost use Rattle.onll_open.specs.Opening.{AreOpenLogs, NotOpenedOver, CannotOpen, FilesRefuse, GoesOn, HasFound, HasOpened, HasRoomIn, HeldFaults, NothingLost, OpenFaults, ReadFaults, written_by};

use crate::devices::{decode_logs, give_up_all, open_devices};
use crate::fault::{FilesFault, OpenFault};
use crate::locking::{lock_logs, unlock_logs};
use crate::misfits::recover_logs;
use crate::reading::read_images;
use crate::rooms::{first_empty, first_full, lines_for, rooms_left};
use onll_log::{LogHead, TestedImage, ThreadLog, new_heads};
use onll_merge::Recovery;
use onll_model::Object;
use onll_outside::{Directory, Store};
use onll_pmem::Pmem;
use onll_rows::Described;
use onll_run::{RunFault, open_logs};
use onll_shared::{Onll, Pass};
use std::alloc::Global;

/// An object that goes on from what the files of its logs held.
#[derive(Drop)]
pub struct Opened<O: Object, P: Pmem> {
    pub onll: Onll<O>,
    /// One for each thread, in their order.
    pub passes: Vec<Pass<O, P>>,
    /// How many updates were recovered.
    pub recovered: u64,
}

/// What the files of an object's logs hold: the heads that they have or are to have, the lines that decide what they hold, and the
/// nodes that these give.
#[derive(Drop)]
pub struct FoundLogs {
    pub heads: Vec<LogHead>,
    pub images: Vec<TestedImage<'static>>,
    pub recovery: Recovery,
}

/// What the files of the logs of so many threads hold, with which an object in this initial state goes on.
pub fn find<O: Described + Drop, S: Directory>(
    alloc: Global,
    store: &mut S,
    logs: &str,
    object: &O,
    threads: u64,
) -> Result<FoundLogs, FilesFault>
    requires few { threads ≤ most_threads }
    ensures found { IfOk result (λ f. HasFound O.means (S.seen store.old) logs.now f.heads.items threads f.images.items
        (recovered_in f.recovery)) }
    ensures heads { IfOk result (λ f. f.heads.items ≡ heads_of O.CODE (O.description object.now) threads) }
    ensures refused { IfErr result (FilesRefuse O.means (S.seen store.old) logs.now (heads_of O.CODE (O.description object.now) threads)) }
    ensures faults { ReadFaults logs.now threads (S.seen store.old) (S.seen store.new) result }
    ensures same { SameFiles (S.seen store.old) (S.seen store.new) }
    ensures devices { SameDevices (S.seen store.old) (S.seen store.new) }
{
    let description = object.describe(alloc)?;
    let heads = new_heads(alloc, O::CODE, &description, threads)?;
    let images = read_images(alloc, store, logs, threads)?;
    let mut state = object.copy(alloc)?;
    let recovery = recover_logs(alloc, &mut state, &heads, &images)?;
    Ok(FoundLogs {
        heads,
        images,
        recovery,
    })
}

/// How many updates each thread is to have room for, where these are asked for, or all that its log has left.
#[tactic(auto, using(crate::proofs::LeftRooms::left_is_room))]
fn choose_rooms(
    alloc: Global,
    recovery: &Recovery,
    threads: u64,
    asked: Option<Vec<u64>>,
) -> Result<Vec<u64>, OpenFault>
    requires few { threads ≤ most_threads }
    requires counts { length recovery.now.logs.items ≡ threads }
    requires many { IsForAll threads (asked_in asked) }
    ensures rooms { IfOk result (λ r. r.items ≡ rooms_of threads (asked_in asked) (recovered_in recovery.now)) }
    ensures given { IfOk result (λ r. room_refused threads (asked_in asked) (recovered_in recovery.now) ≡ None) }
    ensures count { IfOk result (λ r. length r.items ≡ threads) }
    ensures room { IfOk result (λ r. first_full threads recovery.now.nodes.items 0 recovery.now.logs.items r.items ≡ None) }
    ensures refused { IfErr result (RoomRefused threads (asked_in asked) (recovered_in recovery.now)) }
{
    match asked {
        Some(rooms) => match first_full(&recovery.nodes, &recovery.logs, &rooms) {
            Some(thread) => Err(OpenFault::NoRoom { thread }),
            None => Ok(rooms),
        },
        None => {
            let rooms = rooms_left(alloc, &recovery.nodes, &recovery.logs, threads)?;
            match first_empty(&rooms) {
                Some(thread) => Err(OpenFault::Full { thread }),
                None => Ok(rooms),
            }
        }
    }
}

/// The logs of what was found, each opened over its file, or begun on it where it has no head. What `kept` says is of a store that tells
/// its files: of a header that was written on a device over a file of the system it doesn't say so.
fn open_all<O: Object, S: Store>(
    alloc: Global,
    store: &mut S,
    logs: &str,
    found: &FoundLogs,
    rooms: &[u64],
) -> Result<Vec<ThreadLog<S::Dev>>, OpenFault>
    requires few { length rooms.now ≤ most_threads }
    requires found { HasRoomIn O.means (S.seen store.old) logs.now found.now.heads.items rooms.now found.now.images.items
        (recovered_in found.now.recovery) }
    ensures logs { IfOk result (λ ls. AreOpenLogs S.Dev.means found.now.heads.items rooms.now found.now.recovery.nodes.items ls.items) }
    ensures refused { IfErr result (NotOpenedOver (recovered_in found.now.recovery)) }
    ensures faults { HeldFaults logs.now (length rooms.now) (S.seen store.old) (S.seen store.new) result }
    ensures kept { KeepFronts logs.now 0 (fronts_by found.now.recovery.logs.items found.now.images.items)
        (S.seen store.old) (S.seen store.new) }
    ensures others { SameBut (log_names logs.now 0 (length rooms.now)) (S.seen store.old) (S.seen store.new) }
{
    let Recovery {
        logs: counts,
        nodes,
    } = &found.recovery;
    let lines = lines_for(alloc, nodes, counts, rooms)?;
    let held = decode_logs(alloc, &found.images)?;
    let devices = open_devices(alloc, store, logs, counts, &found.images, &lines)?;
    match open_logs(alloc, &found.heads, &held, devices) {
        Ok(opened) => Ok(opened),
        Err(RunFault::NoMemory) => Err(OpenFault::NoMemory),
        Err(RunFault::HeaderFailed { thread, devices }) => {
            give_up_all(devices, store);
            Err(OpenFault::HeaderFailed { thread })
        }
    }
}

/// An object that goes on from what was found, with these rooms. What `kept` says is what it says of `open_all`.
fn open_found<O: Object + Drop, S: Store>(
    alloc: Global,
    store: &mut S,
    logs: &str,
    object: O,
    found: &FoundLogs,
    rooms: &[u64],
) -> Result<Opened<O, S::Dev>, OpenFault>
    requires some_thread { 1 ≤ length rooms.now }
    requires few { length rooms.now ≤ most_threads }
    requires found { HasRoomIn O.means (S.seen store.old) logs.now found.now.heads.items rooms.now found.now.images.items
        (recovered_in found.now.recovery) }
    ensures opened { IfOk result (λ o. GoesOn O.means S.Dev.means found.now.heads.items object found.now.recovery.nodes.items rooms.now
        o.onll o.passes.items) }
    ensures recovered { IfOk result (λ o. o.recovered ≡ length o.onll.trace.plan.base) }
    ensures passes { IfOk result (λ o. length o.passes.items ≡ length rooms.now) }
    ensures refused { IfErr result (NotOpenedOver (recovered_in found.now.recovery)) }
    ensures faults { HeldFaults logs.now (length rooms.now) (S.seen store.old) (S.seen store.new) result }
    ensures kept { KeepFronts logs.now 0 (fronts_by found.now.recovery.logs.items found.now.images.items)
        (S.seen store.old) (S.seen store.new) }
    ensures others { SameBut (log_names logs.now 0 (length rooms.now)) (S.seen store.old) (S.seen store.new) }
{
    let opened = open_all::<O, S>(alloc, store, logs, found, rooms)?;
    match Onll::resume(alloc, object, &found.recovery.nodes, opened, rooms) {
        Ok((onll, passes)) => Ok(Opened {
            onll,
            passes,
            recovered: found.recovery.nodes.len() as u64,
        }),
        Err(_) => Err(OpenFault::NoMemory),
    }
}

/// An object that goes on from what the files of its logs hold, which are locked.
fn open_held<O: Described + Drop, S: Directory>(
    alloc: Global,
    store: &mut S,
    logs: &str,
    object: O,
    threads: u64,
    asked: Option<Vec<u64>>,
) -> Result<Opened<O, S::Dev>, OpenFault>
    requires some_thread { 1 ≤ threads }
    requires few { threads ≤ most_threads }
    requires many { IsForAll threads (asked_in asked) }
    ensures opened { IfOk result (λ o. HasOpened O.means (S.seen store.old) logs.now (heads_of O.CODE (O.description object) threads)
        S.Dev.means object threads (asked_in asked) o.onll o.passes.items) }
    ensures recovered { IfOk result (λ o. o.recovered ≡ length o.onll.trace.plan.base) }
    ensures passes { IfOk result (λ o. length o.passes.items ≡ threads) }
    ensures refused { IfErr result (CannotOpen O.means (S.seen store.old) logs.now (heads_of O.CODE (O.description object) threads)
        threads (asked_in asked)) }
    ensures faults { HeldFaults logs.now threads (S.seen store.old) (S.seen store.new) result }
    ensures kept { let heads = heads_of O.CODE (O.description object) threads in
        NothingLost O.means (S.seen store.old) logs.now heads threads (asked_in asked) (written_by heads result) (S.seen store.new) }
    ensures others { SameBut (log_names logs.now 0 threads) (S.seen store.old) (S.seen store.new) }
{
    let found = find(alloc, store, logs, &object, threads)?;
    let rooms = choose_rooms(alloc, &found.recovery, threads, asked)?;
    open_found(alloc, store, logs, object, &found, &rooms)
}

/// An object that goes on from what the files of its logs hold, which are locked, and given back where it isn't opened.
fn open_asked<O: Described + Drop, S: Directory>(
    alloc: Global,
    store: &mut S,
    logs: &str,
    object: O,
    threads: u64,
    asked: Option<Vec<u64>>,
) -> Result<Opened<O, S::Dev>, OpenFault>
    requires some_thread { 1 ≤ threads }
    requires few { threads ≤ most_threads }
    requires many { IsForAll threads (asked_in asked) }
    ensures opened { IfOk result (λ o. HasOpened O.means (S.seen store.old) logs.now (heads_of O.CODE (O.description object) threads)
        S.Dev.means object threads (asked_in asked) o.onll o.passes.items) }
    ensures recovered { IfOk result (λ o. o.recovered ≡ length o.onll.trace.plan.base) }
    ensures passes { IfOk result (λ o. length o.passes.items ≡ threads) }
    ensures locks { OpenLocks (S.seen store.old) logs.now (S.locked store.old) (S.locked store.new) result }
    ensures refused { IfErr result (CannotOpen O.means (S.seen store.old) logs.now (heads_of O.CODE (O.description object) threads)
        threads (asked_in asked)) }
    ensures faults { OpenFaults logs.now threads (S.seen store.old) (S.seen store.new) result }
    ensures kept { let heads = heads_of O.CODE (O.description object) threads in
        NothingLost O.means (S.seen store.old) logs.now heads threads (asked_in asked) (written_by heads result) (S.seen store.new) }
    ensures others { SameBut (held_names logs.now threads) (S.seen store.old) (S.seen store.new) }
{
    let name = lock_logs(alloc, store, logs)?;
    match open_held(alloc, store, logs, object, threads, asked) {
        Ok(opened) => Ok(opened),
        Err(fault) => {
            unlock_logs(store, &name);
            Err(fault)
        }
    }
}

/// Opens an object, which began in this state, over the files of the logs of so many threads. It goes on from what they hold; a file
/// that is not there, or is empty, or holds zeros, is a log that is begun. Each thread has a pass that may order as many updates as its
/// log has left. Nobody else opens the logs until they are closed.
pub fn open<O: Described + Drop, S: Directory>(
    alloc: Global,
    store: &mut S,
    logs: &str,
    object: O,
    threads: u64,
) -> Result<Opened<O, S::Dev>, OpenFault>
    requires some_thread { 1 ≤ threads }
    requires few { threads ≤ most_threads }
    ensures opened { IfOk result (λ o. HasOpened O.means (S.seen store.old) logs.now (heads_of O.CODE (O.description object) threads)
        S.Dev.means object threads None o.onll o.passes.items) }
    ensures recovered { IfOk result (λ o. o.recovered ≡ length o.onll.trace.plan.base) }
    ensures passes { IfOk result (λ o. length o.passes.items ≡ threads) }
    ensures locks { OpenLocks (S.seen store.old) logs.now (S.locked store.old) (S.locked store.new) result }
    ensures refused { IfErr result (CannotOpen O.means (S.seen store.old) logs.now (heads_of O.CODE (O.description object) threads)
        threads None) }
    ensures faults { OpenFaults logs.now threads (S.seen store.old) (S.seen store.new) result }
    ensures kept { let heads = heads_of O.CODE (O.description object) threads in
        NothingLost O.means (S.seen store.old) logs.now heads threads None (written_by heads result) (S.seen store.new) }
    ensures others { SameBut (held_names logs.now threads) (S.seen store.old) (S.seen store.new) }
{
    open_asked(alloc, store, logs, object, threads, None)
}

/// The same where each thread's pass may order as many updates as its room.
pub fn open_with_rooms<O: Described + Drop, S: Directory>(
    alloc: Global,
    store: &mut S,
    logs: &str,
    object: O,
    rooms: &[u64],
) -> Result<Opened<O, S::Dev>, OpenFault>
    requires some_thread { 1 ≤ length rooms.now }
    requires few { length rooms.now ≤ most_threads }
    ensures opened { IfOk result (λ o. HasOpened O.means (S.seen store.old) logs.now
        (heads_of O.CODE (O.description object) (length rooms.now)) S.Dev.means object (length rooms.now) (Some rooms.now)
        o.onll o.passes.items) }
    ensures recovered { IfOk result (λ o. o.recovered ≡ length o.onll.trace.plan.base) }
    ensures passes { IfOk result (λ o. length o.passes.items ≡ length rooms.now) }
    ensures locks { OpenLocks (S.seen store.old) logs.now (S.locked store.old) (S.locked store.new) result }
    ensures refused { IfErr result (CannotOpen O.means (S.seen store.old) logs.now
        (heads_of O.CODE (O.description object) (length rooms.now)) (length rooms.now) (Some rooms.now)) }
    ensures faults { OpenFaults logs.now (length rooms.now) (S.seen store.old) (S.seen store.new) result }
    ensures kept { let heads = heads_of O.CODE (O.description object) (length rooms.now) in
        NothingLost O.means (S.seen store.old) logs.now heads (length rooms.now) (Some rooms.now) (written_by heads result)
        (S.seen store.new) }
    ensures others { SameBut (held_names logs.now (length rooms.now)) (S.seen store.old) (S.seen store.new) }
{
    let asked = rooms.to_vec(alloc)?;
    open_asked(alloc, store, logs, object, rooms.len() as u64, Some(asked))
}
