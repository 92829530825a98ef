//! An object that is opened, worked on in threads, and closed.

ghost use Rattle.std.specs.Prelude.{◌≡◌, ◌≤◌, length, IfOk, IfErr};
ghost use Rattle.onll_model.specs.Limits.{most_threads};
ghost use Rattle.onll_open.specs.Heads.{heads_of};
ghost use Rattle.onll_open.specs.Files.{SameBut};
ghost use Rattle.onll_open.specs.Names.{held_names, log_names};
ghost use Rattle.onll_open.specs.Keeping.{CloseLocks};
ghost use Rattle.onll_threads.specs.Crews.{HasSpace};
ghost use Rattle.onll_serve.specs.Serving.{AreBegun, CannotServe, HasServed, WorksWereDone, ServeLocks, any_spent, is_spent};

use crate::fault::{NotServed, ServeFault};
use onll_model::{MOST_THREADS, Object};
use onll_open::{CloseFault, Opened, close, open};
use onll_outside::Directory;
use onll_pmem::Pmem;
use onll_rows::Described;
use onll_run::run_law;
use onll_shared::Pass;
use onll_threads::{
    DoneWorks, Place, Space, StopFlag, Work, missing_thread, reserve, run_works, works_law,
};
use std::alloc::Global;
use std::sync::Wait;
use std::thread::Threads;

/// What a service did.
#[derive(Drop)]
pub struct Served<O: Object, P: Pmem, W, A> {
    /// How many updates the files held when it began.
    pub before: u64,
    /// The works, in their order.
    pub works: Vec<W>,
    /// What each of them gave back.
    pub answers: Vec<A>,
    /// Whether a seat can order no more updates: its log is full, or a fence of it failed.
    pub spent: bool,
    /// Whether all logs were kept as their files. Where there was no memory to close the object it is handed back, to be closed again.
    pub kept: Result<(), CloseFault<O, P>>,
}

/// Works, one for each thread, and the memory that they take.
#[derive(Drop)]
struct Crew<'a, O: Object, P: Pmem, W, A> {
    works: Vec<W>,
    space: Space<'a, O, P, W, A>,
}

/// Whether a pass can order no more updates.
fn is_spent<O: Object, P: Pmem>(pass: &Pass<O, P>) -> bool
    ensures { result ≡ is_spent pass.now }
{
    pass.ordered() == pass.room() || pass.broken().is_some()
}

/// Whether one of the passes can order no more updates.
fn any_spent<O: Object, P: Pmem>(passes: &[Pass<O, P>]) -> bool
    ensures { result ≡ any_spent passes.now }
{
    for pass in passes {
        if is_spent(pass) {
            return true;
        }
    }
    false
}

/// Does works at an object that was opened, and closes it.
fn serve_opened<
    R: Threads + Sync,
    O: Object + Drop + Send + Sync,
    S: Directory,
    W: Work<O> + Send + Drop,
>(
    rt: &R,
    alloc: Global,
    store: &mut S,
    name: &str,
    opened: Opened<O, S::Dev>,
    crew: Crew<'_, O, S::Dev, W, W::Answer>,
) -> Served<O, S::Dev, W, W::Answer>
    requires few { length crew.works.items ≤ most_threads }
    requires many { length opened.passes.items ≡ length crew.works.items }
    requires space { HasSpace (length crew.works.items) crew.space }
    requires first { AreBegun O.means S.Dev.means opened.onll opened.passes.items }
    ensures before { result.before ≡ opened.recovered }
    ensures worked { WorksWereDone O.means S.Dev.means W.promise opened.onll opened.passes.items crew.entry.works.items name.now
        (S.seen store.old) (S.seen store.new) result }
    ensures locks { CloseLocks (S.seen store.old) name.now (S.locked store.old) (S.locked store.new) result.kept }
    ensures others { SameBut (log_names name.now 0 (length crew.entry.works.items)) (S.seen store.old) (S.seen store.new) }
{
    let Opened {
        onll,
        passes,
        recovered,
    } = opened;
    let Crew { works, space } = crew;
    let place = Place {
        onll,
        stop: StopFlag::new(),
    };
    let DoneWorks {
        works,
        passes,
        answers,
    } = run_works(rt, &place, works, passes, space);
    let Place { onll, stop: _ } = place;
    let spent = any_spent(&passes);
    works_law::<O, S::Dev, W>();
    let kept = close(alloc, store, name, onll, passes);
    run_law::<O, S::Dev>();
    Served {
        before: recovered,
        works,
        answers,
        spent,
        kept,
    }
}

/// Opens an object, which began in this state, over the files of its logs, one for each work; does the works, each in a thread of its
/// own; and closes the object, which keeps the logs. It goes on from what the files hold. It asks first whether so many threads can be had
/// at once; where the system takes one back before its work begins, that work is done after another. No memory is taken once a work has
/// begun but to close the object.
pub fn serve<
    R: Threads + Wait + Sync,
    O: Described + Drop + Send + Sync,
    S: Directory,
    W: Work<O> + Send + Drop,
>(
    rt: &R,
    alloc: Global,
    store: &mut S,
    name: &str,
    object: O,
    works: Vec<W>,
) -> Result<Served<O, S::Dev, W, W::Answer>, NotServed<W>>
    ensures served { IfOk result (HasServed O.means S.Dev.means W.promise (S.seen store.old) name.now
        (heads_of O.CODE (O.description object) (length works.items)) object works.items (S.seen store.new)) }
    ensures works { IfErr result (λ e. e.works.items ≡ works.items) }
    ensures refused { IfErr result (λ e. CannotServe O.means name.now (heads_of O.CODE (O.description object) (length works.items))
        (length works.items) (S.seen store.old) (S.seen store.new) e.fault) }
    ensures locks { ServeLocks (S.seen store.old) name.now (S.locked store.old) (S.locked store.new) result }
    ensures others { SameBut (held_names name.now (length works.items)) (S.seen store.old) (S.seen store.new) }
{
    if works.is_empty() {
        return Err(NotServed {
            works,
            fault: ServeFault::NoWork,
        });
    }
    let count = works.len() as u64;
    if MOST_THREADS < count {
        return Err(NotServed {
            works,
            fault: ServeFault::TooManyWorks { works: count },
        });
    }
    if let Some(thread) = missing_thread(rt, count) {
        return Err(NotServed {
            works,
            fault: ServeFault::NoThread { thread },
        });
    }
    let Ok(space) = reserve(alloc, works.len()) else {
        return Err(NotServed {
            works,
            fault: ServeFault::NoMemory,
        });
    };
    match open(alloc, store, name, object, count) {
        Ok(opened) => {
            let crew = Crew { works, space };
            Ok(serve_opened(rt, alloc, store, name, opened, crew))
        }
        Err(fault) => Err(NotServed {
            works,
            fault: ServeFault::NotOpened(fault),
        }),
    }
}
