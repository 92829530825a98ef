//! A shop over files, in which no item is sold twice.

ghost use Rattle.std.specs.Prelude.{◌≡◌, length, IfOk, IfErr};
ghost use Rattle.onll_rows.specs.Sketch.{behaviour_of};
ghost use Rattle.onll_serve.specs.Serving.{CannotServe, HasServed};
ghost use Rattle.onll_stock.specs.Sales.{says_dealt};
ghost use Rattle.onll_stock.specs.Shop.{NeverOversells, ServesOnce};
ghost use Rattle.onll_stock.specs.Stock.{shop_heads, stock, stock_at_first};

use crate::customer::{Customer, Deal};
use crate::stock::Stock;
use onll_keeps::{account_law, life_balance_law};
use onll_outside::Directory;
use onll_rows::Plain;
use onll_serve::{NotServed, Served, serve};
use std::alloc::Global;
use std::sync::Wait;
use std::thread::Threads;

/// Serves customers from a stock of so many items, or from what the files of this name have left of it.
pub fn run_shop<'a, R: Threads + Wait + Sync + Print, S: Directory>(
    rt: &R,
    alloc: Global,
    store: &mut S,
    name: &str,
    items: u64,
    customers: Vec<Customer<'a, R>>,
) -> Result<Served<Plain<Stock>, S::Dev, Customer<'a, R>, Deal>, NotServed<Customer<'a, R>>>
    ensures served { IfOk result (HasServed (behaviour_of stock) S.Dev.means says_dealt (S.seen store.old) name.now
        (shop_heads items (length customers.entry.items)) (stock_at_first items) customers.entry.items (S.seen store.new)) }
    ensures once { IfOk result (ServesOnce S.Dev.means (S.seen store.old) name.now
        (shop_heads items (length customers.entry.items)) items customers.entry.items (S.seen store.new)) }
    ensures ever { IfOk result (NeverOversells S.Dev.means (S.seen store.old) name.now
        (shop_heads items (length customers.entry.items)) items customers.entry.items (S.seen store.new)) }
    ensures customers { IfErr result (λ e. e.works.items ≡ customers.entry.items) }
    ensures refused { IfErr result (λ e. CannotServe (behaviour_of stock) name.now (shop_heads items (length customers.entry.items))
        (length customers.entry.items) (S.seen store.old) (S.seen store.new) e.fault) }
{
    account_law::<Plain<Stock>, S::Dev, Customer<'a, R>>();
    life_balance_law::<Plain<Stock>>();
    let object = Plain::of(Stock { left: items });
    serve(rt, alloc, store, name, object, customers)
}
