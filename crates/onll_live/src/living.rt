//! An object that is worked on over eras.

ghost use Rattle.std.specs.Prelude.{◌≡◌, length, string_bytes, IfOk, IfErr};
ghost use Rattle.onll_outside.specs.Views.{SameOthers};
ghost use Rattle.onll_live.specs.Eras.{IsInEra, era_lock};
ghost use Rattle.onll_live.specs.Lifetime.{LifeAddsUp};
ghost use Rattle.onll_live.specs.Living.{CannotLive, HasLived, IsLockFault, TurnsOut, WereHandedBack, WereServed, wants_next};
ghost use Rattle.onll_live.specs.LiveCauses.{HeldCause, LiveCause, LiveLocks, LockObjectFaults, LocksObject, StopsServing, TurnsBack};

use crate::beginning::{begin_next, roomy_era};
use crate::era::Era;
use crate::fault::{LiveFault, NextFault, NotLived};
use crate::finding::find_era;
use crate::laws::eras_law;
use crate::names::{era_lock, era_logs};
use crate::saved::Saved;
use crate::settling::settle;
use onll_model::{MOST_THREADS, Object};
use onll_outside::{Directory, LockFault};
use onll_pmem::Pmem;
use onll_serve::{NotServed, ServeFault, Served, serve};
use onll_threads::Work;
use std::alloc::Global;
use std::sync::Wait;
use std::thread::Threads;

/// What works did over eras.
#[derive(Drop)]
pub struct Lived<O: Object, P: Pmem, W, A> {
    /// The number of the last era.
    pub era: u64,
    /// How many updates were made before it.
    pub place: u64,
    /// What the works did in it.
    pub served: Served<O, P, W, A>,
    /// Why no next era was begun, where a seat is spent.
    pub fault: Option<NextFault>,
}

/// What came of a service in an era.
#[derive(Drop)]
pub enum Turn<O: Object, P: Pmem, W, A> {
    /// It was the last.
    Last(Lived<O, P, W, A>),
    /// A seat is spent, and the next era has begun.
    Next { era: Era<O>, works: Vec<W> },
    /// It didn't begin.
    HandedBack(NotLived<W>),
}

/// Locks the name of an object.
fn lock_object<S: Directory>(alloc: Global, store: &mut S, name: &str) -> Result<String, LiveFault>
    ensures lock { IfOk result (λ lock. string_bytes lock ≡ era_lock name.now) }
    ensures others { SameOthers (era_lock name.now) (S.seen store.old) (S.seen store.new) }
    ensures refused { IfErr result IsLockFault }
    ensures locks { LocksObject (S.seen store.old) name.now (S.locked store.old) (S.locked store.new) result }
    ensures faults { LockObjectFaults name.now (S.seen store.old) (S.seen store.new) result }
{
    let Ok(lock) = era_lock(alloc, name) else {
        return Err(LiveFault::NoMemory);
    };
    match store.lock(alloc, &lock) {
        Ok(()) => Ok(lock),
        Err(LockFault::InUse) => Err(LiveFault::InUse),
        Err(LockFault::Failed) => Err(LiveFault::NotLocked),
        Err(LockFault::NoMemory) => Err(LiveFault::NoMemory),
    }
}

/// Whether the next era is to begin after a service.
fn wants_next<O: Object, P: Pmem, W, A>(served: &Served<O, P, W, A>) -> bool
    ensures { result ≡ wants_next served.now }
{
    served.spent && served.kept.is_ok()
}

/// How many works there are.
fn count_of<W>(works: &Vec<W>) -> u64
    ensures { result ≡ length works.now.items }
{
    works.len() as u64
}

/// Serves works in an era, and begins the next one where a seat of theirs is spent.
fn serve_era<
    R: Threads + Wait + Sync,
    O: Saved + Drop + Send + Sync,
    S: Directory,
    W: Work<O> + Send + Drop,
>(
    rt: &R,
    alloc: Global,
    store: &mut S,
    name: &str,
    era: Era<O>,
    works: Vec<W>,
) -> Turn<O, S::Dev, W, W::Answer>
    ensures turns { (first : O) → IsInEra O.read_of first (S.seen store.old) name.now era → TurnsOut O.means S.Dev.means W.promise O.CODE
        O.description O.read_of first name.now (S.seen store.old) (S.seen store.new) era works.items result }
    ensures back { TurnsBack result }
{
    let threads = count_of(&works);
    if MOST_THREADS < threads {
        let fault = ServeFault::TooManyWorks { works: threads };
        return Turn::HandedBack(NotLived::of(works, LiveFault::NotServed(fault)));
    }
    let Ok(logs) = era_logs(alloc, name, era.number) else {
        return Turn::HandedBack(NotLived::of(works, LiveFault::NoMemory));
    };
    let Ok(state) = era.state.copy(alloc) else {
        return Turn::HandedBack(NotLived::of(works, LiveFault::NoMemory));
    };
    let (number, place) = (era.number, era.place);
    let served = match serve(rt, alloc, store, &logs, state, works) {
        Ok(served) => served,
        Err(NotServed { works, fault }) => {
            return Turn::HandedBack(NotLived::of(works, LiveFault::NotServed(fault)));
        }
    };
    if !wants_next(&served) {
        return Turn::Last(Lived {
            era: number,
            place,
            served,
            fault: None,
        });
    }
    match begin_next(alloc, store, name, era, threads) {
        Ok(era) => {
            let Served { works, .. } = served;
            Turn::Next { era, works }
        }
        Err(fault) => Turn::Last(Lived {
            era: number,
            place,
            served,
            fault: Some(fault),
        }),
    }
}

/// Serves works in one era after the other, until no next era is to begin, or it is refused.
fn serve_eras<
    R: Threads + Wait + Sync,
    O: Saved + Drop + Send + Sync,
    S: Directory,
    W: Work<O> + Send + Drop,
>(
    rt: &R,
    alloc: Global,
    store: &mut S,
    name: &str,
    era: Era<O>,
    works: Vec<W>,
) -> Result<Lived<O, S::Dev, W, W::Answer>, NotLived<W>>
    ensures served { IfOk result (λ lived. (first : O) → IsInEra O.read_of first (S.seen store.old) name.now era
        → WereServed O.means S.Dev.means W.promise O.CODE O.description O.read_of first name.now (S.seen store.old) (S.seen store.new)
        era works.items lived) }
    ensures refused { IfErr result (λ e. (first : O) → IsInEra O.read_of first (S.seen store.old) name.now era
        → WereHandedBack O.means S.Dev.means W.promise O.CODE O.description O.read_of first name.now (S.seen store.old) (S.seen store.new)
        era works.items e) }
    ensures stops { IfErr result (λ e. StopsServing e.fault e.eras) }
{
    let mut era = era;
    let mut works = works;
    for eras in 0..u64::MAX {
        match serve_era(rt, alloc, store, name, era, works) {
            Turn::Last(lived) => return Ok(lived),
            Turn::Next {
                era: next,
                works: same,
            } => {
                era = next;
                works = same;
            }
            Turn::HandedBack(NotLived { works, fault, .. }) => {
                return Err(NotLived { works, eras, fault });
            }
        }
    }
    Err(NotLived {
        works,
        eras: u64::MAX,
        fault: LiveFault::NotBegun(NextFault::AtItsEnd),
    })
}

/// Works on an object that is locked.
fn live_locked<
    R: Threads + Wait + Sync,
    O: Saved + Drop + Send + Sync,
    S: Directory,
    W: Work<O> + Send + Drop,
>(
    rt: &R,
    alloc: Global,
    store: &mut S,
    name: &str,
    object: O,
    works: Vec<W>,
) -> Result<Lived<O, S::Dev, W, W::Answer>, NotLived<W>>
    ensures lived { IfOk result (HasLived O.means S.Dev.means W.promise O.CODE O.description O.read_of object name.now
        (S.seen store.old) (S.seen store.new) works.items) }
    ensures refused { IfErr result (CannotLive O.means S.Dev.means W.promise O.CODE O.description O.read_of object name.now
        (S.seen store.old) (S.seen store.new) works.items) }
    ensures cause { IfErr result (λ e. HeldCause O.means O.CODE O.description name.now (length works.items) O.read_of object
        (S.seen store.old) (S.seen store.new) e.fault e.eras) }
{
    let era = match find_era(alloc, store, name, object) {
        Ok(era) => era,
        Err(fault) => return Err(NotLived::of(works, LiveFault::NotFound(fault))),
    };
    if let Err(fault) = settle(alloc, store, name, era.number) {
        return Err(NotLived::of(works, LiveFault::NotSettled(fault)));
    }
    let threads = count_of(&works);
    match roomy_era(alloc, store, name, era, threads) {
        Ok(era) => serve_eras(rt, alloc, store, name, era, works),
        Err(fault) => Err(NotLived {
            works,
            eras: 0,
            fault: LiveFault::NotBegun(fault),
        }),
    }
}

/// Works on an object, which began in this state, over the files of this name, in one era after the other. It goes on from what they hold.
/// Where a seat of a work is spent, its log full or a fence failed, all works are awaited, the state is saved, new logs are begun, and all
/// works are called again: one that has done all returns at once. It ends where no seat was spent, a log was not kept, or the next era is
/// refused. There may be another number of works than before: then it goes on in the next era. Nobody else works on the object meanwhile.
pub fn live<
    R: Threads + Wait + Sync,
    O: Saved + Drop + Send + Sync,
    S: Directory,
    W: Work<O> + Send + Drop,
>(
    rt: &R,
    alloc: Global,
    store: &mut S,
    name: &str,
    object: O,
    works: Vec<W>,
) -> Result<Lived<O, S::Dev, W, W::Answer>, NotLived<W>>
    ensures lived { IfOk result (HasLived O.means S.Dev.means W.promise O.CODE O.description O.read_of object name.now
        (S.seen store.old) (S.seen store.new) works.items) }
    ensures refused { IfErr result (CannotLive O.means S.Dev.means W.promise O.CODE O.description O.read_of object name.now
        (S.seen store.old) (S.seen store.new) works.items) }
    ensures adds_up { IfOk result (LifeAddsUp O.means S.Dev.means W.promise O.CODE O.description O.read_of object name.now
        (S.seen store.old) (S.seen store.new) works.items) }
    ensures cause { IfErr result (λ e. LiveCause O.means O.CODE O.description name.now (length works.items) O.read_of object
        (S.seen store.old) (S.seen store.new) e.fault e.eras) }
    ensures locks { LiveLocks name.now (S.seen store.old) (S.seen store.new) (S.locked store.old) (S.locked store.new) result }
{
    eras_law::<O, S, W>();
    let lock = match lock_object(alloc, store, name) {
        Ok(lock) => lock,
        Err(fault) => return Err(NotLived::of(works, fault)),
    };
    let lived = live_locked(rt, alloc, store, name, object, works);
    store.unlock(&lock);
    lived
}
