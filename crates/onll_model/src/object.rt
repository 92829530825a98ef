//! The trait of a deterministic sequential object.

ghost use Rattle.std.specs.Prelude.{◌≡◌, ℕ, ◌≤◌, IfOk};
ghost use Rattle.onll_model.specs.Limits.{greatest_code};
ghost use Rattle.onll_model.specs.Object.{Behaviour};

use onll_words::{NoMemory, OpRow};
use std::alloc::Global;

/// A deterministic sequential object. It reserves its capacity when it is made, so its calls take no memory.
pub trait Object: Sized {
    /// An operation, which may change the object. Threads hand calls and replies to each other.
    type Op: Copy + Send + Sync;

    /// A query, which changes nothing.
    type Query: Copy + Send + Sync;

    /// What an operation or a query gives back.
    type Reply: Copy + Send + Sync;

    /// The object's code in a log's header, 1 to `GREATEST_CODE`.
    const CODE: u64;

    ghost CODE: { ℕ };

    /// The sequential specification: what each call does and gives from each state, how rows stand for operations, the capacity.
    ghost means: { Behaviour Self Self.Op Self.Query Self.Reply };

    /// Does an operation and gives its reply.
    fn apply(&mut self, op: Self::Op) -> Self::Reply
        ensures next { self.new ≡ means.next self.old op }
        ensures reply { result ≡ means.reply self.old op };

    /// Answers a query.
    fn ask(&self, query: Self::Query) -> Self::Reply
        ensures { result ≡ means.answer self.now query };

    /// The row of an operation, as a log holds it.
    fn op_row(op: Self::Op) -> OpRow
        ensures { result ≡ means.row_of op };

    /// The operation of a row; None exactly where the row is the row of no operation.
    fn op_of_row(row: OpRow) -> Option<Self::Op>
        ensures { result ≡ means.op_at row };

    /// An equal object of equal capacity.
    fn copy(&self, alloc: Global) -> Result<Self, NoMemory>
        ensures { IfOk result (λ copy. copy ≡ self.now) };

    /// Makes the object equal to another of equal capacity.
    fn restore(&mut self, from: &Self)
        requires { means.capacity self.old ≡ means.capacity from.now }
        ensures { self.new ≡ from.now };

    /// How many accounts, pairs, items or resources there is capacity for.
    fn capacity(&self) -> u64
        ensures { result ≡ means.capacity self.now };

    ghost code_in_range: { (1 ≤ CODE) × (CODE ≤ greatest_code) };
}
