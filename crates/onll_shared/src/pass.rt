//! What one thread keeps for its calls: its spot on the trace, its log and its replica.

ghost use Rattle.std.specs.Prelude.{◌≡◌, ◌+◌, ◌≤◌, ◌<◌, ◌^◌, length};
ghost use Rattle.onll_log.specs.Log.{HoldsLog};
ghost use Rattle.onll_trace.specs.Spots.{IsOf, base_of};
ghost use Rattle.onll_shared.specs.Walks.{Met};
ghost use Rattle.onll_shared.specs.Passes.{caught_up, answered};

use crate::calls::Receipt;
use crate::walk::{apply_listed, collect};
use arrayvec::ArrayVec;
use onll_log::ThreadLog;
use onll_model::{Node, Object};
use onll_pmem::Pmem;
use onll_trace::{Post, Spot, Trace};
use std::marker::Model;

/// What one thread needs for its calls on a shared object.
#[derive(Drop)]
pub struct Pass<O: Object, P: Pmem> {
    pub(crate) spot: Spot,
    pub(crate) log: ThreadLog<P>,
    /// The object after the first `at` nodes of the trace.
    pub(crate) replica: O,
    pub(crate) at: u64,
    /// How many updates the pass may order.
    pub(crate) room: u64,
    /// The greatest place that was seen.
    pub(crate) seen: u64,
    /// The place of the update whose fence failed.
    pub(crate) broken: Option<u64>,
    /// For the posts of nodes that the replica has still to do; empty between calls.
    pub(crate) list: Vec<Post>,
    /// For the nodes of a window.
    pub(crate) window: ArrayVec<Node, 16>,
}

impl<O: Object, P: Pmem> Model for Pass<O, P> {
    ghost use Rattle.std.specs.Prelude.{vec_capacity};
    ghost use Rattle.onll_shared.specs.Passes.{PassView, IsReady};

    ghost Value = { PassView O P };

    ghost view = { λ p. record { spot = p.spot; log = p.log; replica = p.replica; at = p.at; room = p.room; broken = p.broken } };

    ghost invariant = { λ p. IsReady p.spot p.seen p.list.items (vec_capacity p.list) };
}

/// Does nothing. It tells what holds of every log.
pub(crate) fn log_facts<P: Pmem>(log: &ThreadLog<P>)
    ensures { HoldsLog (P.means log.now.device) log.now.head log.now.entries log.now.broken }
{
    let _ = log.device();
}

impl<O: Object, P: Pmem> Pass<O, P> {
    /// The thread's number.
    pub fn thread(&self) -> u64
        ensures { result ≡ self.now.spot.me.thread }
    {
        self.spot.thread()
    }

    /// The greatest place that the thread has seen.
    pub fn seen(&self) -> u64
        ensures { result ≡ self.now.spot.me.part.seen }
    {
        self.seen
    }

    /// How many updates the pass has ordered.
    pub fn ordered(&self) -> u64
        ensures { result ≡ length self.now.spot.me.own }
    {
        self.spot.ordered()
    }

    /// How many updates the pass may order in all.
    pub fn room(&self) -> u64
        ensures { result ≡ self.now.room }
    {
        self.room
    }

    /// The place of the update whose fence failed.
    pub fn broken(&self) -> Option<u64>
        ensures { result ≡ self.now.broken }
    {
        self.broken
    }

    /// The thread's log.
    pub fn log(&self) -> &ThreadLog<P>
        ensures { result.now ≡ self.now.log }
    {
        &self.log
    }

    /// Moves the replica forward to a place.
    pub(crate) fn catch_up(&mut self, trace: &Trace, to: Post)
        requires of { IsOf trace.now self.old.spot }
        requires met { Met self.old.spot to }
        requires base { base_of self.old.spot ≤ self.old.at }
        requires forward { self.old.at ≤ to.place }
        ensures { self.new ≡ caught_up O.means self.old to.place }
    {
        self.spot.facts();
        collect(trace, &mut self.spot, &mut self.list, self.at, to);
        apply_listed(trace, &mut self.spot, &mut self.replica, &mut self.list);
        self.at = to.place;
    }

    /// Answers the update that stands above the front, and moves the replica there.
    pub(crate) fn answer(&mut self, trace: &Trace, front: Post, op: O::Op) -> Receipt<O>
        requires of { IsOf trace.now self.old.spot }
        requires met { Met self.old.spot front }
        requires base { base_of self.old.spot ≤ self.old.at }
        requires forward { self.old.at ≤ front.place }
        requires few { front.place + 1 < 2 ^ 64 }
        ensures place { result.place ≡ front.place + 1 }
        ensures reply { result.reply ≡ O.means.reply (caught_up O.means self.old front.place).replica op }
        ensures pass { self.new ≡ answered O.means self.old front.place op }
    {
        self.catch_up(trace, front);
        self.at = front.place + 1;
        Receipt {
            place: self.at,
            reply: self.replica.apply(op),
        }
    }
}
