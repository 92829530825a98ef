//! A service of an object that keeps a fact.

ghost use Rattle.std.specs.Prelude.{◌≡◌, length, IfOk, IfErr};
ghost use Rattle.onll_open.specs.Heads.{heads_of};
ghost use Rattle.onll_open.specs.Files.{SameBut};
ghost use Rattle.onll_open.specs.Names.{held_names};
ghost use Rattle.onll_serve.specs.Serving.{HasServed};
ghost use Rattle.onll_keeps.specs.Beginning.{BeginLocks, CannotBegin};
ghost use Rattle.onll_keeps.specs.Served.{ServesKept};

use crate::keeps::{Keeps, keep_law};
use onll_outside::Directory;
use onll_rows::Described;
use onll_serve::{NotServed, ServeFault, Served, serve};
use onll_threads::Work;
use std::alloc::Global;
use std::sync::Wait;
use std::thread::Threads;
use thiserror::Error;

/// Why a service of an object that keeps a fact didn't begin.
#[derive(Clone, Copy, Debug, PartialEq, Eq, Error)]
pub enum BeginFault {
    /// The fact is not so of the object at first. Nothing was changed.
    #[error("the object may not begin so")]
    MayNotBegin,
    /// It is, and the service didn't begin.
    #[error("{0}")]
    NotServed(ServeFault),
}

/// A service that didn't begin: no work was begun, and all are handed back.
#[derive(Drop)]
pub struct NotBegun<W> {
    pub works: Vec<W>,
    pub fault: BeginFault,
}

/// Serves an object of which a fact is so at first, as `serve` does: the fact is so of what the files held, of all that was done, and of
/// whatever a crash leaves of it; and each update that was answered has with its reply what the fact makes of it.
pub fn serve_kept<
    R: Threads + Wait + Sync,
    O: Keeps + Described + Drop + Send + Sync,
    S: Directory,
    W: Work<O> + Send + Drop,
>(
    rt: &R,
    alloc: Global,
    store: &mut S,
    name: &str,
    object: O,
    works: Vec<W>,
) -> Result<Served<O, S::Dev, W, W::Answer>, NotBegun<W>>
    ensures served { IfOk result (HasServed O.means S.Dev.means W.promise (S.seen store.old) name.now
        (heads_of O.CODE (O.description object) (length works.items)) object works.items (S.seen store.new)) }
    ensures kept { IfOk result (ServesKept O.means O.holds O.says S.Dev.means W.promise (S.seen store.old) name.now
        (heads_of O.CODE (O.description object) (length works.items)) object works.items (S.seen store.new)) }
    ensures works { IfErr result (λ e. e.works.items ≡ works.items) }
    ensures refused { IfErr result (λ e. CannotBegin O.means O.holds object name.now
        (heads_of O.CODE (O.description object) (length works.items)) (length works.items) (S.seen store.old) (S.seen store.new) e.fault) }
    ensures locks { BeginLocks (S.seen store.old) name.now (S.locked store.old) (S.locked store.new) result }
    ensures others { SameBut (held_names name.now (length works.items)) (S.seen store.old) (S.seen store.new) }
{
    if !object.may_begin() {
        return Err(NotBegun {
            works,
            fault: BeginFault::MayNotBegin,
        });
    }
    keep_law::<O>();
    match serve(rt, alloc, store, name, object, works) {
        Ok(served) => Ok(served),
        Err(NotServed { works, fault }) => Err(NotBegun {
            works,
            fault: BeginFault::NotServed(fault),
        }),
    }
}
