//! The trait of an object that keeps a fact.

ghost use Rattle.std.specs.Prelude.{◌≡◌, true, false};
ghost use Rattle.onll_keeps.specs.Facts.{FactLaw, FactToldLaw};

use onll_model::Object;
use onll_rows::{Plain, PlainState};

/// An object of which a fact is so in every state, as "no two hold one lock", and what that makes of each reply.
pub trait Keeps: Object {
    /// What is so of every state.
    ghost holds: { Self → Type 0 };

    /// What is so of an operation and its reply.
    ghost says: { Self.Op → Self.Reply → Type 0 };

    /// Whether the fact is so of the object, so that it may begin.
    fn may_begin(&self) -> bool
        ensures so { result ≡ true → holds self.now }
        ensures not_so { result ≡ false → holds self.now → ⊥ };

    ghost stays: { (s : Self) (op : Self.Op) → holds s → holds (Self.Object.means.next s op) };

    ghost told: { (s : Self) (op : Self.Op) → holds s → says op (Self.Object.means.reply s op) };
}

/// A plain state of which a fact is so, however it changes: its object keeps the fact.
pub trait PlainKeeps: PlainState {
    /// What is so of every state.
    ghost holds: { Self → Type 0 };

    /// What is so of an operation and its reply.
    ghost says: { Self.Op → Self.Reply → Type 0 };

    /// Whether the fact is so of the object, so that it may begin.
    fn may_begin(object: &Plain<Self>) -> bool
        ensures so { result ≡ true → holds object.now }
        ensures not_so { result ≡ false → holds object.now → ⊥ };

    ghost stays: { (s : Self) (op : Self.Op) → holds s → holds (Self.PlainState.sketch.next s op) };

    ghost told: { (s : Self) (op : Self.Op) → holds s → says op (Self.PlainState.sketch.reply s op) };
}

impl<S: PlainKeeps> Keeps for Plain<S> {
    ghost holds = { S.holds };

    ghost says = { S.says };

    fn may_begin(&self) -> bool {
        S::may_begin(self)
    }

    ghost stays = { S.stays };

    ghost told = { S.told };
}

/// The members of the trait that say what is so. It does nothing when called.
fn kept_so<O: Keeps>()
    ensures stays { (s : O) (op : O.Op) → O.holds s → O.holds (O.means.next s op) }
    ensures told { (s : O) (op : O.Op) → O.holds s → O.says op (O.means.reply s op) }
{}

/// An object that began with the fact has it after any nodes, so after whatever is recovered; and each update that was answered in a legal
/// history has with its reply what the fact makes of it. It does nothing when called.
pub fn keep_law<O: Keeps>()
    ensures fact { FactLaw O.means O.holds }
    ensures told { FactToldLaw O.means O.holds O.says }
{
    kept_so::<O>();
}
