//! A copy of the object that goes through a report's nodes, and what it says to calls.

ghost use Rattle.std.specs.Prelude.{◌≡◌, ◌≤◌, ◌+◌, true, length, take, drop, IfOk, OnOk};
ghost use Rattle.std.specs.Str.{bytes_eq};
ghost use Rattle.onll_model.specs.Trace.{state_after};
ghost use Rattle.onll_audit.specs.Verdict.{IsNextRow, reply_at};

use onll_model::{Call, Node};
use onll_text::{Report, Texted};
use onll_words::{NoMemory, OpRow};
use std::alloc::Global;

/// What the calls of a thread are judged by.
#[derive(Clone, Copy)]
pub(crate) struct Evidence<'a, O> {
    /// The object before any call.
    pub first: &'a O,
    pub nodes: &'a [Node],
    pub thread: u64,
    /// The places of the thread's nodes.
    pub places: &'a [u64],
}

/// An object in the state after some of the first nodes.
#[derive(Drop)]
pub(crate) struct Replica<O> {
    pub object: O,
    /// How many nodes these are.
    pub at: usize,
    /// Room for a text that is compared with a line.
    pub room: Report,
}

/// Applies nodes in order.
pub(crate) fn apply_all<O: Texted>(object: &mut O, nodes: &[Node])
    ensures { object.new ≡ state_after O.means object.old nodes.now }
{
    for node in nodes {
        if let Some(op) = O::op_of_row(node.row) {
            let _ = object.apply(op);
        }
    }
}

/// Whether the words are the same.
fn is_same(a: &[u64], b: &[u64]) -> bool
    ensures { result ≡ bytes_eq a.now b.now }
{
    a == b
}

pub(crate) fn same_row(a: OpRow, b: OpRow) -> bool
    ensures { result ≡ bytes_eq a.w b.w }
{
    is_same(&a.w, &b.w)
}

fn nodes_from(nodes: &[Node], from: usize) -> &[Node]
    requires { from ≤ length nodes.now }
    ensures { result.now ≡ drop from nodes.now }
{
    &nodes[from..]
}

/// Whether the node after so many is this operation.
#[tactic(auto, using(crate::proofs::Replicas::nexts))]
fn is_next(nodes: &[Node], at: usize, row: OpRow) -> bool
    requires { at ≤ length nodes.now }
    ensures { result ≡ true → IsNextRow nodes.now at row }
{
    match nodes_from(nodes, at).first() {
        Some(node) => same_row(node.row, row),
        None => false,
    }
}

impl<O: Texted + Drop> Replica<O> {
    /// Moves to the state after so many nodes, anew from the first one where it is past that.
    #[tactic(auto, using(crate::proofs::Replicas::moving))]
    fn move_to(
        &mut self,
        alloc: Global,
        evidence: &Evidence<'_, O>,
        place: usize,
    ) -> Result<(), NoMemory>
        requires at { self.old.at ≤ length evidence.now.nodes.now }
        requires object { self.old.object ≡ state_after O.means evidence.now.first.now (take self.old.at evidence.now.nodes.now) }
        requires place { place ≤ length evidence.now.nodes.now }
        ensures at { OnOk result (self.new.at ≡ place) }
        ensures object { OnOk result (self.new.object ≡ state_after O.means evidence.now.first.now (take place evidence.now.nodes.now)) }
    {
        if place < self.at {
            self.object = evidence.first.copy(alloc)?;
            self.at = 0;
        }
        apply_all(&mut self.object, &evidence.nodes[self.at..place]);
        self.at = place;
        Ok(())
    }

    /// What the object says to an operation after the nodes so far. Where the next node is this operation the replica goes on over
    /// it; else a copy is asked.
    #[tactic(auto, using(crate::proofs::Replicas::asking))]
    fn ask_update(
        &mut self,
        alloc: Global,
        evidence: &Evidence<'_, O>,
        op: O::Op,
    ) -> Result<O::Reply, NoMemory>
        requires at { self.old.at ≤ length evidence.now.nodes.now }
        requires object { self.old.object ≡ state_after O.means evidence.now.first.now (take self.old.at evidence.now.nodes.now) }
        ensures reply { IfOk result (λ r. r
            ≡ O.means.reply (state_after O.means evidence.now.first.now (take self.old.at evidence.now.nodes.now)) op) }
        ensures at { OnOk result (self.new.at ≤ length evidence.now.nodes.now) }
        ensures object { OnOk result (self.new.object
            ≡ state_after O.means evidence.now.first.now (take self.new.at evidence.now.nodes.now)) }
    {
        if is_next(evidence.nodes, self.at, O::op_row(op)) {
            let reply = self.object.apply(op);
            self.at += 1;
            return Ok(reply);
        }
        let mut scratch = self.object.copy(alloc)?;
        Ok(scratch.apply(op))
    }

    /// What the object says to a call at a place.
    #[tactic(auto, using(crate::proofs::Replicas::asked))]
    pub fn ask(
        &mut self,
        alloc: Global,
        evidence: &Evidence<'_, O>,
        call: &Call<O>,
        place: u64,
    ) -> Result<O::Reply, NoMemory>
        requires at { self.old.at ≤ length evidence.now.nodes.now }
        requires object { self.old.object ≡ state_after O.means evidence.now.first.now (take self.old.at evidence.now.nodes.now) }
        ensures reply { IfOk result (λ r. r ≡ reply_at O.means O.wording evidence.now.first.now evidence.now.nodes.now call.now place) }
        ensures at { OnOk result (self.new.at ≤ length evidence.now.nodes.now) }
        ensures object { OnOk result (self.new.object
            ≡ state_after O.means evidence.now.first.now (take self.new.at evidence.now.nodes.now)) }
    {
        let most = evidence.nodes.len() as u64;
        match call {
            Call::Update(op) => {
                let at = place.saturating_sub(1).min(most) as usize;
                self.move_to(alloc, evidence, at)?;
                self.ask_update(alloc, evidence, *op)
            }
            Call::Ask(query) => {
                let at = place.min(most) as usize;
                self.move_to(alloc, evidence, at)?;
                Ok(self.object.ask(*query))
            }
        }
    }
}
