//! The calls of a script, and what becomes of them.

ghost use Rattle.std.specs.Prelude.{◌≡◌, ◌≤◌};
ghost use Rattle.onll_model.specs.Limits.{most_updates};
ghost use Rattle.onll_model.specs.Calls.{updates_in};

use crate::object::Object;

/// A call of a script. The calls of one script are made one after the other.
#[derive(Drop)]
pub enum Call<O: Object> {
    /// An update. The trace has a node for it, even where its operation leaves the object as it is.
    Update(O::Op),
    /// A read. It has no node: it is answered from the state after those up to some place.
    Ask(O::Query),
}

/// How many of these calls are updates.
pub fn count_updates<O: Object>(calls: &[Call<O>]) -> u64
    requires { updates_in calls.now ≤ most_updates }
    ensures { result ≡ updates_in calls.now }
{
    let mut updates = 0;
    for call in calls {
        if let Call::Update(_) = call {
            updates += 1;
        }
    }
    updates
}

/// What became of a call, as a report says it. The places of a trace are numbered from 1.
#[derive(Drop)]
pub enum CallEnd<O: Object> {
    /// It returned this reply: an update stands at the place, a read was answered after it, from the initial state if it is 0.
    Answered { reply: O::Reply, place: u64 },
    /// It has begun, has no place and hasn't returned.
    Running,
    /// It stands at this place and hasn't returned.
    Ordered { place: u64 },
    /// It stands at this place, and the fence of its log failed: it returned no reply, and is over.
    FenceFailed { place: u64 },
    /// An update after one of its thread whose fence failed; that one stands at this place, and this one nowhere.
    Broken { place: u64 },
}
