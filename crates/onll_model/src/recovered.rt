//! The state that the rows of a trace's nodes give.

ghost use Rattle.std.specs.Prelude.{◌≡◌, ◌+◌, ◌<◌, length, OnOk, IfErr};
ghost use Rattle.onll_model.specs.Trace.{state_after};
ghost use Rattle.onll_model.specs.Recovered.{operations_front};

use crate::node::Node;
use crate::object::Object;
use thiserror::Error;

/// A node whose row is the row of no operation of the object.
#[derive(Clone, Copy, Debug, PartialEq, Eq, Error)]
#[error("the row of place {place} is no operation")]
pub struct NotOp {
    /// Its place among the nodes, from 1.
    pub place: u64,
}

/// Applies the rows of a trace's nodes in order, from place 1. It refuses the first that is no operation of the object, which
/// then is after the nodes before it.
pub fn fold_nodes<O: Object>(object: &mut O, nodes: &[Node]) -> Result<(), NotOp>
    ensures after { object.new ≡ state_after O.means object.old (operations_front O.means nodes.now) }
    ensures ok { OnOk result (operations_front O.means nodes.now ≡ nodes.now) }
    ensures refused { IfErr result (λ e. (e.place ≡ length (operations_front O.means nodes.now) + 1)
        × (length (operations_front O.means nodes.now) < length nodes.now)) }
    ensures capacity { O.means.capacity object.new ≡ O.means.capacity object.old }
{
    let mut place = 1;
    for node in nodes {
        match O::op_of_row(node.row) {
            Some(op) => {
                let _ = object.apply(op);
            }
            None => return Err(NotOp { place }),
        }
        place += 1;
    }
    Ok(())
}
