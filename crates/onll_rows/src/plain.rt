//! An object of a few words, which are copied.

ghost use Rattle.std.specs.Prelude.{◌≡◌, IfOk, string_bytes};
ghost use Rattle.std.proofs.Common.{rules};
ghost use Rattle.onll_rows.specs.Sketch.{Sketch, behaviour_of, row_words};

use crate::rows::checked;
use onll_model::Object;
use onll_words::{NoMemory, OpRow};
use std::alloc::{AllocError, Global};
use std::marker::Model;

/// A state of a few words, which are copied, and what operations do to it.
pub trait PlainState: Copy {
    /// An operation, which may change the state.
    type Op: Copy + Send + Sync;

    /// A query, which changes nothing.
    type Query: Copy + Send + Sync;

    /// What an operation or a query gives back.
    type Reply: Copy + Send + Sync;

    /// The sequential specification, how rows stand for operations, and the text that describes a state.
    ghost sketch: { Sketch Self Self.Op Self.Query Self.Reply };

    /// Does an operation and gives its reply.
    fn apply(&mut self, op: Self::Op) -> Self::Reply
        ensures next { self.new ≡ sketch.next self.old op }
        ensures reply { result ≡ sketch.reply self.old op };

    /// Answers a query.
    fn ask(&self, query: Self::Query) -> Self::Reply
        ensures { result ≡ sketch.answer self.now query };

    /// The words of an operation, and zeros behind them.
    fn op_words(op: Self::Op) -> [u64; 7]
        ensures { result ≡ row_words (sketch.rows.words op) };

    /// The operation of these words, where they are those of one. What it answers of others is of no account.
    fn op_of(words: [u64; 7]) -> Option<Self::Op>
        ensures { result ≡ sketch.rows.op_of words };

    /// The object's name, which no other has, and its state in words.
    fn describe(&self, alloc: Global) -> Result<String, AllocError>
        ensures { IfOk result (λ text. string_bytes text ≡ sketch.text self.now) };
}

/// A plain state as an object, which has capacity for one thing. It is seen as its state.
#[derive(Drop)]
pub struct Plain<S: PlainState> {
    pub(crate) state: S,
}

impl<S: PlainState> Model for Plain<S> {
    ghost Value = { S };

    ghost view = { λ p. p.state };
}

impl<S: PlainState> Plain<S> {
    /// The object that begins in this state.
    pub fn of(state: S) -> Plain<S>
        ensures { result ≡ state }
    {
        Plain { state }
    }

    /// The state.
    pub fn state(&self) -> S
        ensures { result ≡ self.now }
    {
        self.state
    }
}

impl<S: PlainState> Object for Plain<S> {
    type Op = S::Op;

    type Query = S::Query;

    type Reply = S::Reply;

    const CODE: u64 = 4;

    ghost CODE = { 4 };

    ghost means = { behaviour_of S.sketch };

    fn apply(&mut self, op: S::Op) -> S::Reply {
        self.state.apply(op)
    }

    fn ask(&self, query: S::Query) -> S::Reply {
        self.state.ask(query)
    }

    fn op_row(op: S::Op) -> OpRow {
        OpRow { w: S::op_words(op) }
    }

    fn op_of_row(row: OpRow) -> Option<S::Op> {
        let op = S::op_of(row.w)?;
        let own = OpRow { w: S::op_words(op) };
        checked(op, own, row)
    }

    fn copy(&self, _alloc: Global) -> Result<Self, NoMemory> {
        Ok(Plain { state: self.state })
    }

    fn restore(&mut self, from: &Self) {
        self.state = from.state;
    }

    fn capacity(&self) -> u64 {
        1
    }

    ghost code_in_range = { Prim.search rules };
}
