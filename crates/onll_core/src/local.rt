//! What a thread of the core does by itself: it applies operations, and answers.

ghost use Rattle.std.specs.Prelude.{◌≡◌, ◌≤◌, ◌<◌, ◌+◌, ◌-◌, length};
ghost use Rattle.onll_model.specs.Segment.{nodes_between};
ghost use Rattle.onll_model.specs.Trace.{state_after, after_row};
ghost use Rattle.onll_core.specs.Kept.{moved};

use onll_model::{Node, Object};
use onll_words::OpRow;

/// Applies the operation of a row, where it is one's.
fn apply_row<O: Object>(object: &mut O, row: OpRow)
    ensures { object.new ≡ after_row O.means object.old (O.means.op_at row) }
{
    if let Some(op) = O::op_of_row(row) {
        let _ = object.apply(op);
    }
}

/// Applies the operations of nodes in order.
fn apply_rows<O: Object>(object: &mut O, nodes: &[Node])
    ensures { object.new ≡ state_after O.means object.old nodes.now }
{
    for node in nodes {
        apply_row(object, node.row);
    }
}

/// The nodes of the places above `below`, up to `place`.
#[tactic(auto, using(crate::proofs::Replicas::window_is))]
pub fn window(trace: &[Node], below: u64, place: u64) -> &[Node]
    requires upward { below ≤ place }
    requires within { place ≤ length trace.now }
    ensures { result.now ≡ nodes_between trace.now below place }
{
    &trace[below as usize..place as usize]
}

/// What a thread has for itself: a replica of the object after the nodes of the trace up to a place, and how many nodes of
/// the trace are its own.
#[derive(Drop)]
pub struct Local<O: Object + Drop> {
    pub object: O,
    pub place: u64,
    pub linked: u64,
}

impl<O: Object + Drop> Local<O> {
    /// Moves the replica forward to a place.
    fn advance(&mut self, trace: &[Node], place: u64)
        requires forward { self.old.place ≤ place }
        requires within { place ≤ length trace.now }
        ensures { self.new ≡ moved O.means self.old trace.now place }
    {
        apply_rows(&mut self.object, window(trace, self.place, place));
        self.place = place;
    }

    /// The reply to the operation that stands at a place, and moves the replica there.
    pub fn reply_at(&mut self, trace: &[Node], place: u64, op: O::Op) -> O::Reply
        requires forward { self.old.place < place }
        requires within { place ≤ length trace.now }
        ensures reply { result ≡ O.means.reply (state_after O.means self.old.object
            (nodes_between trace.now self.old.place (place - 1))) op }
        ensures moved { self.new ≡ record {
          object = O.means.next
              (state_after O.means self.old.object (nodes_between trace.now self.old.place (place - 1))) op;
          place =
              place;
          linked = self.old.linked;
        } }
    {
        self.advance(trace, place - 1);
        self.place = place;
        self.object.apply(op)
    }

    /// The answer after the nodes up to a place, and moves the replica there.
    pub fn answer_at(&mut self, trace: &[Node], place: u64, query: O::Query) -> O::Reply
        requires forward { self.old.place ≤ place }
        requires within { place ≤ length trace.now }
        ensures answer { result ≡ O.means.answer
            (state_after O.means self.old.object (nodes_between trace.now self.old.place place)) query }
        ensures moved { self.new ≡ moved O.means self.old trace.now place }
    {
        self.advance(trace, place);
        self.object.ask(query)
    }
}
