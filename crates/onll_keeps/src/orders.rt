//! The trait of an object whose replies follow each other in an order.

ghost use Rattle.onll_keeps.specs.Orders.{OrdersLaw};

use onll_model::Object;

/// An object of which each answered update makes something of every later one, as "the later token of a lock is the greater".
pub trait Orders: Object {
    /// What is so of every state since an operation that had this reply.
    ghost since: { Self.Op → Self.Reply → Self → Type 0 };

    /// What an operation with its reply makes of a later one with its reply.
    ghost then_so: { Self.Op → Self.Reply → Self.Op → Self.Reply → Type 0 };

    ghost begins: { (s : Self) (op : Self.Op) → since op (Self.Object.means.reply s op) (Self.Object.means.next s op) };

    ghost goes_on: { (op : Self.Op) (reply : Self.Reply) (s : Self) (more : Self.Op) → since op reply s
        → since op reply (Self.Object.means.next s more) };

    ghost follows: { (op : Self.Op) (reply : Self.Reply) (s : Self) (later : Self.Op) → since op reply s
        → then_so op reply later (Self.Object.means.reply s later) };
}

/// The members of the trait that say what is so. It does nothing when called.
fn ordered_so<O: Orders>()
    ensures begins { (s : O) (op : O.Op) → O.since op (O.means.reply s op) (O.means.next s op) }
    ensures goes_on { (op : O.Op) (reply : O.Reply) (s : O) (more : O.Op) → O.since op reply s → O.since op reply (O.means.next s more) }
    ensures follows { (op : O.Op) (reply : O.Reply) (s : O) (later : O.Op) → O.since op reply s
        → O.then_so op reply later (O.means.reply s later) }
{}

/// Of two updates that were answered in a legal history, by whatever threads, the one at the later place follows the other so. It does
/// nothing when called.
pub fn order_law<O: Orders>()
    ensures { OrdersLaw O.means O.then_so }
{
    ordered_so::<O>();
}
