//! The outcomes of all updates of a trace.

ghost use Rattle.std.specs.Prelude.{◌≡◌, ◌+◌, ◌<◌, length, map, List, IfOk, MatchResult, slice_get};
ghost use Rattle.std.specs.List.{AllByRecursion};
ghost use Rattle.onll_model.specs.declared.node.Node.{Node};
ghost use Rattle.onll_model.specs.Limits.{most_threads};
ghost use Rattle.onll_model.specs.Trace.{IsNumbered};
ghost use Rattle.onll_model.specs.Recovered.{operations_front};
ghost use Rattle.onll_detect.specs.Outcomes.{replies_of, places_of, all_places, numbered_in, table_of, find_in, ArePlacesWithin, IsOutcome, IsTraceOf, OutcomeLaw};
ghost use Rattle.onll_detect.specs.Faults.{FaultOf};

use crate::outcome::{DetectFault, Outcome};
use onll_model::{MOST_THREADS, Node, Object};
use std::alloc::{AllocError, Global};
use std::marker::Model;

/// What became of the updates of a trace.
#[derive(Drop)]
pub struct Outcomes<O: Object> {
    /// The reply of each node.
    replies: Vec<O::Reply>,
    /// The places of each thread's nodes.
    places: Vec<Vec<u64>>,
}

impl<O: Object> Model for Outcomes<O> {
    ghost use Rattle.std.specs.Prelude.{length, map};
    ghost use Rattle.onll_detect.specs.Outcomes.{Table, ArePlacesWithin};

    ghost Value = { Table O.Reply };

    ghost view = { λ o. record { replies = o.replies.items; places = map (λ places. places.items) o.places.items } };

    ghost invariant = { λ o. ArePlacesWithin (length o.replies.items) (map (λ places. places.items) o.places.items) };
}

/// The places of a thread's nodes.
fn places_of(alloc: Global, thread: u64, nodes: &[Node]) -> Result<Vec<u64>, AllocError>
    ensures { IfOk result (λ places. places.items ≡ places_of thread 0 nodes.now) }
{
    let mut places = Vec::new(alloc);
    let mut place = 0;
    for node in nodes {
        place += 1;
        if node.thread == thread {
            places.push(place)?;
        }
    }
    Ok(places)
}

/// The places of the nodes of each thread that a run can have.
#[tactic(auto, using(crate::proofs::Tables::all))]
fn all_places(alloc: Global, nodes: &[Node]) -> Result<Vec<Vec<u64>>, AllocError>
    ensures { IfOk result (λ places. map (λ p. p.items) places.items ≡ all_places 0 most_threads nodes.now) }
{
    let mut places = Vec::new(alloc);
    for thread in 0..MOST_THREADS {
        places.push(places_of(alloc, thread, nodes)?)?;
    }
    Ok(places)
}

/// The reply of each node, up to the first whose row is no operation.
fn replies_of<O: Object + Drop>(
    alloc: Global,
    mut object: O,
    nodes: &[Node],
) -> Result<Vec<O::Reply>, DetectFault>
    ensures { MatchResult result
        (λ replies. (replies.items ≡ replies_of O.means object nodes.now) × (operations_front O.means nodes.now ≡ nodes.now))
        (λ fault. FaultOf O.means nodes.now fault) }
{
    let mut replies = Vec::new(alloc);
    let mut place = 1;
    for node in nodes {
        match O::op_of_row(node.row) {
            Some(op) => {
                let reply = object.apply(op);
                replies.push(reply)?;
            }
            None => return Err(DetectFault::NotOp { place }),
        }
        place += 1;
    }
    Ok(replies)
}

impl<O: Object + Drop> Outcomes<O> {
    /// What became of the updates of a trace over its initial object. It refuses the first node whose row is no operation.
    pub fn of(alloc: Global, object: O, nodes: &[Node]) -> Result<Outcomes<O>, DetectFault>
        requires numbered { IsNumbered nodes.now }
        requires threads { AllByRecursion (λ node. node.thread < most_threads) nodes.now }
        ensures { MatchResult result
            (λ outcomes. (outcomes ≡ table_of O.means object nodes.now) × IsTraceOf O.means nodes.now)
            (λ fault. FaultOf O.means nodes.now fault) }
    {
        let replies = match replies_of(alloc, object, nodes) {
            Ok(replies) => replies,
            Err(fault) => return Err(fault),
        };
        let places = all_places(alloc, nodes)?;
        Ok(Outcomes { replies, places })
    }

    /// The place of a thread's node of this number.
    fn own_place(&self, thread: u64, number: u64) -> Option<u64>
        ensures { result ≡ numbered_in (slice_get self.now.places thread) number }
    {
        let places = self.places.get(thread as usize)?;
        if number == 0 {
            return None;
        }
        places.get((number - 1) as usize).copied()
    }

    /// What the table says of the update of this number of a thread.
    fn look_up(&self, thread: u64, number: u64) -> Outcome<O::Reply>
        ensures { result ≡ find_in self.now thread number }
    {
        match self.own_place(thread, number) {
            Some(place) => Outcome::Took {
                place,
                reply: self.replies[(place - 1) as usize],
            },
            None => Outcome::Lost,
        }
    }

    /// What became of the update of this number of a thread; numbers are from 1.
    pub fn find(&self, thread: u64, number: u64) -> Outcome<O::Reply>
        ensures found { result ≡ find_in self.now thread number }
        ensures outcome { (s : O) (nodes : List Node) → self.now ≡ table_of O.means s nodes → IsTraceOf O.means nodes
            → IsOutcome O.means s nodes thread number result }
    {
        self.look_up(thread, number)
    }
}

/// A law: what is found is the outcome of that update, in the trace's own words. It does nothing when called.
#[tactic(auto, using(crate::proofs::Tables::outcomes))]
pub fn outcome_law<O: Object>()
    ensures { OutcomeLaw O.means }
{}
