//! Locks that are served over files, and go on from what the files hold.

ghost use Rattle.std.specs.Prelude.{◌≡◌, length, IfOk, IfErr};
ghost use Rattle.onll_rows.specs.Sketch.{behaviour_of};
ghost use Rattle.onll_serve.specs.Serving.{CannotServe, HasServed};
ghost use Rattle.onll_locks.specs.Locks.{locks, none_granted};
ghost use Rattle.onll_locks.specs.Serving.{AnswersStand, lock_heads, promises_nothing};

use crate::clerk::{Clerk, Ending};
use crate::locks::{LOCKS, Lock, Locks};
use onll_outside::Directory;
use onll_rows::Plain;
use onll_serve::{NotServed, Served, serve};
use std::alloc::Global;
use std::sync::Wait;
use std::thread::Threads;

/// The locks, none of which was ever granted.
fn none_granted() -> Locks
    ensures { result ≡ none_granted }
{
    let never = Lock {
        token: 0,
        holder: None,
    };
    Locks {
        locks: [never; LOCKS],
    }
}

/// Lets clerks answer what is asked of the locks that the files of this name hold. Each works in a thread of its own.
pub fn serve_locks<'a, R: Threads + Wait + Sync + Print, S: Directory>(
    rt: &R,
    alloc: Global,
    store: &mut S,
    name: &str,
    clerks: Vec<Clerk<'a, R>>,
) -> Result<Served<Plain<Locks>, S::Dev, Clerk<'a, R>, Ending>, NotServed<Clerk<'a, R>>>
    ensures served { IfOk result (HasServed (behaviour_of locks) S.Dev.means promises_nothing (S.seen store.old) name.now
        (lock_heads (length clerks.entry.items)) none_granted clerks.entry.items (S.seen store.new)) }
    ensures answers { IfOk result (AnswersStand S.Dev.means (S.seen store.old) name.now (lock_heads (length clerks.entry.items))
        clerks.entry.items (S.seen store.new)) }
    ensures clerks { IfErr result (λ e. e.works.items ≡ clerks.entry.items) }
    ensures refused { IfErr result (λ e. CannotServe (behaviour_of locks) name.now (lock_heads (length clerks.entry.items))
        (length clerks.entry.items) (S.seen store.old) (S.seen store.new) e.fault) }
{
    serve(rt, alloc, store, name, Plain::of(none_granted()), clerks)
}
