//! The end of a shared object.

ghost use Rattle.std.specs.Prelude.{◌≡◌, ◌+◌, ◌<◌, ◌≤◌, List, [], length, map, reverse, IfOk, IfErr, vec_capacity};
ghost use Rattle.std.specs.List.{AllByRecursion};
ghost use Rattle.onll_trace.specs.Closing.{AreAll};
ghost use Rattle.onll_trace.specs.declared.trace.Ended.{Ended as SomeEnded};
ghost use Rattle.onll_shared.specs.Passes.{IsTied, spot_of, log_of};
ghost use Rattle.onll_shared.specs.Ends.{RestView, AreReady, HasClosed, joined, log_in};

use crate::onll::Onll;
use crate::pass::Pass;
use arrayvec::ArrayVec;
use onll_log::ThreadLog;
use onll_model::{Node, Object};
use onll_pmem::Pmem;
use onll_trace::{Ended, NotClosed, Post, Spot};
use std::alloc::Global;
use std::marker::Model;

/// The trace of a shared object at its end, and the logs of its passes.
#[derive(Drop)]
pub struct Closed<P: Pmem> {
    pub trace: Vec<Ended>,
    pub logs: Vec<ThreadLog<P>>,
}

/// There was no memory. All is as before.
#[derive(Drop)]
pub struct Unclosed<O: Object, P: Pmem> {
    pub object: Onll<O>,
    pub passes: Vec<Pass<O, P>>,
}

/// A pass without its spot.
#[derive(Drop)]
struct Rest<O: Object, P: Pmem> {
    log: ThreadLog<P>,
    replica: O,
    at: u64,
    room: u64,
    seen: u64,
    broken: Option<u64>,
    list: Vec<Post>,
    window: ArrayVec<Node, 16>,
}

impl<O: Object, P: Pmem> Model for Rest<O, P> {
    ghost use Rattle.std.specs.Prelude.{vec_capacity};
    ghost use Rattle.onll_shared.specs.Ends.{RestView};

    ghost Value = { RestView O P };

    ghost view = { λ r. record {
      log = r.log;
      replica = r.replica;
      at = r.at;
      room = r.room;
      broken = r.broken;
      seen = r.seen;
      list = r.list.items;
      list_room = vec_capacity r.list;
    } };
}

#[tactic(auto, using(crate::proofs::Ending::split_none, crate::proofs::Ending::split_more, crate::proofs::Ending::ready_long))]
// Takes passes apart, the last one first.
fn take_apart<O: Object, P: Pmem>(
    passes: &mut Vec<Pass<O, P>>,
    spots: &mut Vec<Spot>,
    rests: &mut Vec<Rest<O, P>>,
)
    requires spots { (spots.old.items ≡ []) × (length passes.old.items ≤ vec_capacity spots.old) }
    requires rests { (rests.old.items ≡ []) × (length passes.old.items ≤ vec_capacity rests.old) }
    ensures passes { (passes.new.items ≡ []) × (vec_capacity passes.new ≡ vec_capacity passes.old) }
    ensures ready { AreReady spots.new.items rests.new.items }
    ensures joined { joined spots.new.items rests.new.items ≡ reverse passes.old.items }
{
    while let Some(pass) = passes.pop() {
        let Pass {
            spot,
            log,
            replica,
            at,
            room,
            seen,
            broken,
            list,
            window,
        } = pass;
        spots.push_reserved(spot);
        rests.push_reserved(Rest {
            log,
            replica,
            at,
            room,
            seen,
            broken,
            list,
            window,
        });
    }
}

#[tactic(auto, using(crate::proofs::Ending::split_fewer, crate::proofs::Ending::ready_long))]
// Puts passes together again, the last one first.
fn put_together<O: Object + Drop, P: Pmem + Drop>(
    mut spots: Vec<Spot>,
    mut rests: Vec<Rest<O, P>>,
    passes: &mut Vec<Pass<O, P>>,
)
    requires ready { AreReady spots.items rests.items }
    requires passes { (passes.old.items ≡ []) × (length spots.items ≤ vec_capacity passes.old) }
    ensures { passes.new.items ≡ reverse (joined spots.items rests.items) }
{
    while let Some(spot) = spots.pop() {
        let Some(rest) = rests.pop() else {
            unreachable!()
        };
        let Rest {
            log,
            replica,
            at,
            room,
            seen,
            broken,
            list,
            window,
        } = rest;
        passes.push_reserved(Pass {
            spot,
            log,
            replica,
            at,
            room,
            seen,
            broken,
            list,
            window,
        });
    }
}

#[tactic(auto, using(crate::proofs::Ending::logs_none))]
// The logs, in their order.
fn logs_of<O: Object + Drop, P: Pmem + Drop>(
    mut rests: Vec<Rest<O, P>>,
    mut logs: Vec<ThreadLog<P>>,
) -> Vec<ThreadLog<P>>
    requires { (logs.items ≡ []) × (length rests.items ≤ vec_capacity logs) }
    ensures { result.items ≡ map log_in rests.items }
{
    while let Some(rest) = rests.pop() {
        let Rest { log, .. } = rest;
        logs.push_reserved(log);
    }
    logs.reverse();
    logs
}

// The spots and the logs of passes, in their order.
fn spots_and_logs<O: Object + Drop, P: Pmem + Drop>(
    mut passes: Vec<Pass<O, P>>,
    mut spots: Vec<Spot>,
    mut logs: Vec<ThreadLog<P>>,
) -> (Vec<Spot>, Vec<ThreadLog<P>>)
    requires spots { (spots.items ≡ []) × (length passes.items ≤ vec_capacity spots) }
    requires logs { (logs.items ≡ []) × (length passes.items ≤ vec_capacity logs) }
    ensures spots { result.0.items ≡ map spot_of passes.items }
    ensures logs { result.1.items ≡ map log_of passes.items }
{
    while let Some(pass) = passes.pop() {
        let Pass { spot, log, .. } = pass;
        spots.push_reserved(spot);
        logs.push_reserved(log);
    }
    spots.reverse();
    logs.reverse();
    (spots, logs)
}

impl<O: Object + Drop> Onll<O> {
    /// Gives the logs alone, in the order of the passes, without a list of the trace. Want of memory hands all back.
    pub fn end<P: Pmem + Drop>(
        self,
        alloc: Global,
        passes: Vec<Pass<O, P>>,
    ) -> Result<Vec<ThreadLog<P>>, Unclosed<O, P>>
        requires all { AreAll self.trace (map spot_of passes.items) }
        requires tied { AllByRecursion (IsTied O.means P.means self) passes.items }
        ensures closed { IfOk result (λ _. (trace : List SomeEnded) × HasClosed self.trace passes.items trace) }
        ensures logs { IfOk result (λ logs. logs.items ≡ map log_of passes.items) }
        ensures unchanged { IfErr result (λ unclosed. (unclosed.object ≡ self) × (unclosed.passes.items ≡ passes.items)) }
    {
        let count = passes.len();
        let (Ok(spots), Ok(logs)) = (
            Vec::with_capacity(alloc, count),
            Vec::with_capacity(alloc, count),
        ) else {
            return Err(Unclosed {
                object: self,
                passes,
            });
        };
        let (spots, logs) = spots_and_logs(passes, spots, logs);
        let Onll { trace, .. } = self;
        trace.end(spots);
        Ok(logs)
    }

    #[tactic(auto, using(crate::proofs::Ending::end_rules))]
    /// Gives the trace and the logs, in the order of the passes. Want of memory hands all back.
    pub fn close<P: Pmem + Drop>(
        self,
        alloc: Global,
        mut passes: Vec<Pass<O, P>>,
    ) -> Result<Closed<P>, Unclosed<O, P>>
        requires all { AreAll self.trace (map spot_of passes.items) }
        requires tied { AllByRecursion (IsTied O.means P.means self) passes.items }
        ensures closed { IfOk result (λ closed. HasClosed self.trace passes.items closed.trace.items) }
        ensures logs { IfOk result (λ closed. closed.logs.items ≡ map log_of passes.items) }
        ensures unchanged { IfErr result (λ unclosed. (unclosed.object ≡ self) × (unclosed.passes.items ≡ passes.items)) }
    {
        let count = passes.len();
        let Ok(mut spots) = Vec::with_capacity(alloc, count) else {
            return Err(Unclosed {
                object: self,
                passes,
            });
        };
        let Ok(mut rests) = Vec::with_capacity(alloc, count) else {
            return Err(Unclosed {
                object: self,
                passes,
            });
        };
        let Ok(logs) = Vec::with_capacity(alloc, count) else {
            return Err(Unclosed {
                object: self,
                passes,
            });
        };
        passes.reverse();
        take_apart(&mut passes, &mut spots, &mut rests);
        let Onll { trace, first } = self;
        match trace.close(alloc, spots) {
            Ok(trace) => Ok(Closed {
                trace,
                logs: logs_of(rests, logs),
            }),
            Err(NotClosed { trace, spots }) => {
                put_together(spots, rests, &mut passes);
                passes.reverse();
                Err(Unclosed {
                    object: Onll { trace, first },
                    passes,
                })
            }
        }
    }
}
