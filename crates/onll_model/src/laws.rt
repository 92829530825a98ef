//! The laws of an object, as calls that go through the trait alone, and those of a fold and of names.

ghost use Rattle.std.specs.Prelude.{◌≡◌, None, Some, true, IsSome, MatchOption};
ghost use Rattle.onll_model.specs.declared.node.Node.{Node};
ghost use Rattle.onll_model.specs.FoldLaws.{LegalFoldLaw, AnsweredFoldLaw, FoldStateLaw};
ghost use Rattle.onll_model.specs.Names.{name_of, node_of_name, HasNumber};

use crate::object::Object;
use onll_words::{NoMemory, OpRow};
use std::alloc::Global;

/// The row of an operation is the row of that operation.
pub fn op_of_its_row<O: Object>(op: O::Op) -> Option<O::Op>
    ensures { result ≡ Some op }
{
    O::op_of_row(O::op_row(op))
}

/// A row that is the row of an operation is that operation's row; None exactly where it is the row of none.
pub fn row_of_its_op<O: Object>(row: OpRow) -> Option<OpRow>
    ensures { let op = O.means.op_at row in
        MatchOption result (op ≡ None) (λ back. (back ≡ row) × IsSome op) }
{
    O::op_of_row(row).map(|op| O::op_row(op))
}

/// Does an operation and undoes it by a copy, so that the object is as it was; without memory for the copy nothing is done.
pub fn undone<O: Object + Drop>(alloc: Global, object: &mut O, op: O::Op) -> Result<(), NoMemory>
    ensures { object.new ≡ object.old }
{
    let before = object.copy(alloc)?;
    let _ = object.apply(op);
    object.restore(&before);
    Ok(())
}

/// Does an operation, and tells whether the object has the capacity that it had, as it always does.
pub fn capacity_kept<O: Object>(object: &mut O, op: O::Op) -> bool
    ensures kept { result ≡ true }
    ensures next { object.new ≡ O.means.next object.old op }
{
    let before = object.capacity();
    let _ = object.apply(op);
    object.capacity() == before
}

/// One script done in order from any initial state is a legal history: its trace and its outcomes are a legal report over no
/// base; every call is answered, and the state that is left is the one after the trace.
pub fn fold_law<O: Object>()
    ensures legal { LegalFoldLaw O.means }
    ensures answered { AnsweredFoldLaw O.means }
    ensures state { FoldStateLaw O.means }
{}

/// A node is the one that its name and its row give.
#[tactic(auto, using(crate::proofs::Names::node_of_its_name))]
pub fn name_law()
    ensures { (n : Node) → HasNumber n → node_of_name (name_of n) n.row ≡ n }
{}
