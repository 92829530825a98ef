//! The stages of an update.

ghost use Rattle.std.specs.Prelude.{◌+◌, ◌<◌};
ghost use Rattle.onll_trace.specs.Spots.{IsOf, MayDraft};
ghost use Rattle.onll_shared.specs.Updates.{LinkTried, MayLog, LogTried};

use crate::calls::TryFault;
use crate::pass::log_facts;
use crate::walk::walk;
use arrayvec::ArrayVec;
use onll_log::ThreadLog;
use onll_model::Node;
use onll_outside::{Gate, Point};
use onll_pmem::{FenceFailed, Pmem};
use onll_trace::{Link, Post, Spot, Trace};
use onll_words::OpRow;

#[tactic(auto, using(crate::proofs::Updating::may_look, crate::proofs::Updating::link_moved, crate::proofs::Updating::link_done))]
/// Tries to put a node of this row at the end of the trace.
pub(crate) fn link(trace: &Trace, spot: &mut Spot, row: OpRow) -> Result<Post, TryFault>
    requires of { IsOf trace.now spot.old }
    requires may { MayDraft spot.old }
    ensures of { IsOf trace.now spot.new }
    ensures tried { LinkTried row spot.old spot.new result }
{
    trace.draft(spot, row);
    let front = trace.look(spot);
    match trace.try_link(spot, front) {
        Link::Linked { .. } => Ok(front),
        Link::Moved { loaded, found } => Err(TryFault::Moved { loaded, found }),
    }
}

/// A node that was linked, and the post that it is right above.
#[derive(Clone, Copy)]
pub(crate) struct Placed {
    pub(crate) node: Node,
    pub(crate) front: Post,
}

#[tactic(auto, using(crate::proofs::Updating::window_rules))]
/// Walks down from the own node, logs the window with one fence, and sets the own flag.
pub(crate) fn log_window<P: Pmem, G: Gate>(
    trace: &Trace,
    spot: &mut Spot,
    log: &mut ThreadLog<P>,
    window: &mut ArrayVec<Node, 16>,
    own: Placed,
    gate: &G,
) -> Result<(), FenceFailed>
    requires of { IsOf trace.now spot.old }
    requires may { MayLog P.means spot.old log.old own.front own.node }
    ensures of { IsOf trace.now spot.new }
    ensures tried { LogTried P.means spot.old spot.new log.old log.new (own.front.place + 1) result }
{
    gate.at(spot, Point::Ordered);
    window.clear();
    window.push(own.node);
    walk(trace, spot, window, own.front);
    gate.at(spot, Point::Walked);
    window.as_mut_slice().reverse();
    let logged = log.append(own.front.place + 1, window.as_slice());
    log_facts(log);
    logged?;
    trace.settle(spot);
    gate.at(spot, Point::Fenced);
    trace.set_flag(spot);
    Ok(())
}
