//! A thread's steps on a trace, from a draft to its flag.
ghost use Rattle.std.specs.Prelude.{◌≡◌, ◌≤◌, ◌<◌, []};
ghost use mathlib.Core.List.{IsPrefix};
ghost use Rattle.onll_trace.specs.Spots.{IsOf, HasRoom};
ghost use Rattle.tests_base.specs.Orders.{IsResting, HasFront, HasExchanged, IsWalking, IsLogging};

use onll_trace::{Link, Post, Spot, Trace};
use onll_words::OpRow;

/// Drafts an operation and looks where it can be linked.
#[tactic(auto, using(crate::proofs::Ordering::may_draft, crate::proofs::Ordering::may_look, crate::proofs::Ordering::front_found))]
pub fn draft_and_look(trace: &Trace, spot: &mut Spot, row: OpRow) -> Post
    requires ready { IsResting trace.now spot.old }
    requires room { HasRoom spot.old }
    ensures front { HasFront trace.now spot.new result }
    ensures thread { spot.new.me.thread ≡ spot.old.me.thread }
{
    trace.draft(spot, row);
    trace.look(spot)
}

/// Tries to link the drafted node behind this front.
#[tactic(auto, using(crate::proofs::Ordering::link_done, crate::proofs::Ordering::link_moved, crate::proofs::Ordering::same_thread))]
pub fn link(trace: &Trace, spot: &mut Spot, front: Post) -> Link
    requires { HasFront trace.now spot.old front }
    ensures tried { HasExchanged trace.now front spot.new result }
    ensures thread { spot.new.me.thread ≡ spot.old.me.thread }
{
    trace.try_link(spot, front)
}

/// Loads the flags below the own node, from the front down to the first that is set.
fn walk(trace: &Trace, spot: &mut Spot, front: Post)
    requires { IsWalking trace.now spot.old.me.thread spot.old front }
    ensures { IsLogging trace.now spot.old.me.thread spot.new }
{
    let mut post = front;
    while post.name != 0 {
        if trace.flag(spot, post) {
            return;
        }
        post = trace.before(spot, post);
    }
}

/// The node counts as fenced, and its flag is set.
#[tactic(auto, using(crate::proofs::Ordering::may_settle, crate::proofs::Ordering::may_set, crate::proofs::Ordering::finished))]
fn finish(trace: &Trace, spot: &mut Spot)
    requires { IsLogging trace.now spot.old.me.thread spot.old }
    ensures ready { IsResting trace.now spot.new }
    ensures thread { spot.new.me.thread ≡ spot.old.me.thread }
{
    trace.settle(spot);
    trace.set_flag(spot);
}

/// Orders one node, and gives its place; none where another thread was first.
pub fn order_one(trace: &Trace, spot: &mut Spot, row: OpRow) -> Option<u64>
    requires ready { IsResting trace.now spot.old }
    requires room { HasRoom spot.old }
    ensures ready { IsResting trace.now spot.new }
    ensures thread { spot.new.me.thread ≡ spot.old.me.thread }
{
    let front = draft_and_look(trace, spot, row);
    match link(trace, spot, front) {
        Link::Linked { place } => {
            walk(trace, spot, front);
            finish(trace, spot);
            Some(place)
        }
        Link::Moved { .. } => None,
    }
}

#[tactic(auto, using(crate::proofs::Ordering::has_room))]
/// Orders nodes until the thread has so many, trying again where another thread was first.
pub fn order_many(trace: &Trace, spot: &mut Spot, times: u64)
    requires ready { IsResting trace.now spot.old }
    requires room { times ≤ trace.now.plan.nodes }
    requires anew { trace.now.plan.base ≡ [] }
    ensures ready { IsResting trace.now spot.new }
    ensures thread { spot.new.me.thread ≡ spot.old.me.thread }
{
    for _ in 0..u64::MAX {
        if spot.ordered() >= times {
            return;
        }
        let row = OpRow {
            w: [1, spot.thread(), spot.ordered(), 0, 0, 0, 0],
        };
        let _ = order_one(trace, spot, row);
    }
}

/// The same with a spot of its own, which comes back.
pub fn order_all(trace: &Trace, mut spot: Spot, times: u64) -> Spot
    requires ready { IsResting trace.now spot }
    requires room { times ≤ trace.now.plan.nodes }
    requires anew { trace.now.plan.base ≡ [] }
    ensures ready { IsResting trace.now result }
    ensures thread { result.me.thread ≡ spot.me.thread }
{
    order_many(trace, &mut spot, times);
    spot
}

/// One spot tells another what it has seen.
#[tactic(auto, using(crate::proofs::Ordering::may_learn, crate::proofs::Ordering::learnt_ready, crate::proofs::Ordering::learnt_all))]
pub fn tell(trace: &Trace, from: &mut Spot, to: &mut Spot)
    requires of { IsOf trace.now from.old }
    requires ready { IsResting trace.now to.old }
    ensures same { from.new ≡ from.old }
    ensures ready { IsResting trace.now to.new }
    ensures thread { to.new.me.thread ≡ to.old.me.thread }
    ensures known { IsPrefix from.old.known to.new.known }
    ensures seen { from.old.me.part.seen ≤ to.new.me.part.seen }
{
    let note = trace.note(from);
    trace.learn(to, note);
}

/// The place of the newest node, and whether its flag is set; none where there is no node above the base.
#[tactic(auto, using(crate::proofs::Ordering::may_ask, crate::proofs::Ordering::asks_next, crate::proofs::Ordering::asks_above))]
pub fn newest_flag(trace: &Trace, spot: &mut Spot) -> Option<(u64, bool)>
    requires ready { IsResting trace.now spot.old }
    ensures of { IsOf trace.now spot.new }
    ensures thread { spot.new.me.thread ≡ spot.old.me.thread }
{
    let front = trace.look(spot);
    if front.name == 0 {
        return None;
    }
    Some((front.place, trace.flag(spot, front)))
}
