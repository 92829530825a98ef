//! A sale: buyers draw tickets over files, and no ticket is sold twice.

ghost use Rattle.std.specs.Prelude.{◌≡◌, length, IfOk, IfErr};
ghost use Rattle.onll_rows.specs.Sketch.{behaviour_of};
ghost use Rattle.onll_serve.specs.Serving.{CannotServe, HasServed};
ghost use Rattle.onll_tickets.specs.Selling.{SellsOnce, says_drawn};
ghost use Rattle.onll_tickets.specs.Tickets.{sale_heads, tickets, tickets_at_first};

use crate::buyer::{Bought, Buyer};
use crate::tickets::Tickets;
use onll_keeps::account_law;
use onll_outside::Directory;
use onll_rows::Plain;
use onll_serve::{NotServed, Served, serve};
use std::alloc::Global;
use std::sync::Wait;
use std::thread::Threads;

/// Lets buyers draw of so many tickets, or of those that the files of this name have left.
pub fn sell<'a, R: Threads + Wait + Sync + Print, S: Directory>(
    rt: &R,
    alloc: Global,
    store: &mut S,
    name: &str,
    count: u64,
    buyers: Vec<Buyer<'a, R>>,
) -> Result<Served<Plain<Tickets>, S::Dev, Buyer<'a, R>, Bought>, NotServed<Buyer<'a, R>>>
    ensures served { IfOk result (HasServed (behaviour_of tickets) S.Dev.means says_drawn (S.seen store.old) name.now
        (sale_heads count (length buyers.entry.items)) (tickets_at_first count) buyers.entry.items (S.seen store.new)) }
    ensures once { IfOk result (SellsOnce S.Dev.means (S.seen store.old) name.now
        (sale_heads count (length buyers.entry.items)) (tickets_at_first count) buyers.entry.items (S.seen store.new)) }
    ensures buyers { IfErr result (λ e. e.works.items ≡ buyers.entry.items) }
    ensures refused { IfErr result (λ e. CannotServe (behaviour_of tickets) name.now (sale_heads count (length buyers.entry.items))
        (length buyers.entry.items) (S.seen store.old) (S.seen store.new) e.fault) }
{
    account_law::<Plain<Tickets>, S::Dev, Buyer<'a, R>>();
    let object = Plain::of(Tickets { left: count });
    serve(rt, alloc, store, name, object, buyers)
}
