//! Counting over files, in one era after the other.

ghost use Rattle.std.specs.Prelude.{IfOk, IfErr};
ghost use Rattle.onll_meter.specs.Metering.{CannotLiveOn, HasLivedOn};

use crate::clerk::{Clerk, Tally};
use crate::meter::Meter;
use onll_live::{Lived, NotLived, live};
use onll_outside::Directory;
use onll_rows::Plain;
use std::alloc::Global;
use std::sync::Wait;
use std::thread::Threads;

/// Lets clerks count on from what the files of this name hold, over as many eras as it takes.
pub fn count_on<'a, R: Threads + Wait + Sync + Print, S: Directory>(
    rt: &R,
    alloc: Global,
    store: &mut S,
    name: &str,
    clerks: Vec<Clerk<'a, R>>,
) -> Result<Lived<Plain<Meter>, S::Dev, Clerk<'a, R>, Tally>, NotLived<Clerk<'a, R>>>
    ensures lived { IfOk result (HasLivedOn S.Dev.means name.now (S.seen store.old) (S.seen store.new) clerks.entry.items) }
    ensures refused { IfErr result (CannotLiveOn S.Dev.means name.now (S.seen store.old) (S.seen store.new) clerks.entry.items) }
{
    live(
        rt,
        alloc,
        store,
        name,
        Plain::of(Meter { count: 0 }),
        clerks,
    )
}
