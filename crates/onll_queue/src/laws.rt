//! The laws of a queue.

ghost use Rattle.onll_queue.specs.Order.{FifoLaw, RoomLaw};

/// Laws of any operations on any queue: items leave in the order in which they came, each once, and there are never
/// more than there is room for. It does nothing when called.
#[tactic(auto, using(crate::proofs::Orders::order_law, crate::proofs::Orders::bound_law))]
pub fn queue_laws()
    ensures order { FifoLaw }
    ensures bound { RoomLaw }
{}
