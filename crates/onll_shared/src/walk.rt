//! The walks over the trace, each down from a node that the spot has met.

ghost use Rattle.std.specs.Prelude.{◌≡◌, ◌+◌, ◌-◌, ◌<◌, ◌≤◌, ℕ, [], length, reverse, vec_capacity};
ghost use Rattle.std.specs.List.{AllByRecursion};
ghost use Rattle.onll_model.specs.Segment.{nodes_between};
ghost use Rattle.onll_model.specs.Trace.{state_after, after_row};
ghost use Rattle.onll_trace.specs.Spots.{IsOf, base_of};
ghost use Rattle.onll_shared.specs.Walks.{BeginsWalk, IsWalked, Asks, FoundPlace, Met, MetAbove, nodes_at};

use arrayvec::ArrayVec;
use onll_model::{Node, Object};
use onll_trace::{Post, Spot, Trace};
use onll_words::OpRow;

#[tactic(auto, using(crate::proofs::Walking::walk_rules))]
/// Loads the flags below the own node, down to the first that is set, and puts the nodes above that into the window, which has
/// the own node, the highest first.
pub(crate) fn walk(trace: &Trace, spot: &mut Spot, window: &mut ArrayVec<Node, 16>, front: Post)
    requires of { IsOf trace.now spot.old }
    requires begins { BeginsWalk spot.old front window.old.items }
    ensures of { IsOf trace.now spot.new }
    ensures walked { (d : ℕ) × IsWalked spot.old spot.new (front.place + 1) d window.new.items }
{
    let mut post = front;
    while post.name != 0 {
        if trace.flag(spot, post) {
            return;
        }
        window.push(trace.node(spot, post));
        post = trace.before(spot, post);
    }
}

#[tactic(auto, using(crate::proofs::Asking::ask_rules))]
/// Loads the flags from the front down to the first that is set, and gives the place of that.
pub(crate) fn find_set(trace: &Trace, spot: &mut Spot, front: Post) -> Post
    requires of { IsOf trace.now spot.old }
    requires asks { Asks spot.old front }
    ensures of { IsOf trace.now spot.new }
    ensures found { FoundPlace spot.old spot.new front.place result }
{
    let mut post = front;
    while post.name != 0 {
        if trace.flag(spot, post) {
            return post;
        }
        post = trace.before(spot, post);
    }
    post
}

#[tactic(auto, using(crate::proofs::Between::between_none, crate::proofs::Between::posts_down))]
/// Puts the posts above a place, up to another, into the list, the highest first.
pub(crate) fn collect(trace: &Trace, spot: &mut Spot, list: &mut Vec<Post>, above: u64, to: Post)
    requires of { IsOf trace.now spot.old }
    requires met { Met spot.old to }
    requires base { base_of spot.old ≤ above }
    requires upward { above ≤ to.place }
    requires empty { list.old.items ≡ [] }
    requires room { length spot.old.known ≤ vec_capacity list.old }
    ensures spot { spot.new ≡ spot.old }
    ensures met { AllByRecursion (λ post. MetAbove spot.old post) list.new.items }
    ensures nodes { reverse (nodes_at spot.old.known list.new.items) ≡ nodes_between spot.old.known above to.place }
    ensures room { vec_capacity list.new ≡ vec_capacity list.old }
{
    let mut post = to;
    while post.place > above {
        list.push_reserved(post);
        post = trace.before(spot, post);
    }
}

/// Applies the operation of a row, where it is one's.
pub(crate) fn apply_row<O: Object>(object: &mut O, row: OpRow)
    ensures { object.new ≡ after_row O.means object.old (O.means.op_at row) }
{
    if let Some(op) = O::op_of_row(row) {
        let _ = object.apply(op);
    }
}

#[tactic(auto, using(crate::proofs::Between::applied_post))]
/// Applies the nodes at the posts of a list, the last of it first, and empties it.
pub(crate) fn apply_listed<O: Object>(
    trace: &Trace,
    spot: &mut Spot,
    object: &mut O,
    list: &mut Vec<Post>,
)
    requires of { IsOf trace.now spot.old }
    requires met { AllByRecursion (λ post. MetAbove spot.old post) list.old.items }
    ensures spot { spot.new ≡ spot.old }
    ensures object { object.new ≡ state_after O.means object.old (reverse (nodes_at spot.old.known list.old.items)) }
    ensures empty { list.new.items ≡ [] }
    ensures room { vec_capacity list.new ≡ vec_capacity list.old }
{
    while let Some(post) = list.pop() {
        apply_row(object, trace.node(spot, post).row);
    }
}
