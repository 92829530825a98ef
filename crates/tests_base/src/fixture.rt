//! Traces of two threads, opened and closed.
ghost use Rattle.std.specs.Prelude.{◌≡◌, ◌≤◌, [], IfSome};
ghost use Rattle.onll_trace.specs.Spots.{HasRoom};
ghost use Rattle.tests_base.specs.Orders.{AreBoth, IsResting};

use onll_model::{Mark, Node};
use onll_trace::{Ended, Spot, Trace};
use onll_words::OpRow;
use std::alloc::Global;

/// A new trace of two threads, with the spot of each.
pub fn open_two(alloc: Global, nodes: u64) -> Option<(Trace, Spot, Spot)>
    requires { (1 ≤ nodes) × (nodes ≤ 4096) }
    ensures plan { IfSome result (λ r. (r.0.plan.nodes ≡ nodes) × (r.0.plan.base ≡ [])) }
    ensures both { IfSome result (λ r. AreBoth r.0 r.1 r.2) }
    ensures ready { IfSome result (λ r. IsResting r.0 r.1 × IsResting r.0 r.2) }
    ensures room { IfSome result (λ r. HasRoom r.1 × HasRoom r.2) }
{
    let Ok((trace, mut spots)) = Trace::create(alloc, 2, nodes) else {
        return None;
    };
    let Some(second) = spots.pop() else {
        return None;
    };
    let Some(first) = spots.pop() else {
        return None;
    };
    Some((trace, first, second))
}

/// A trace of two threads that goes on from three nodes, of the threads 0, 1 and 0, each of which a log holds alone. There is room
/// for two nodes more of each thread.
pub fn resume_two(alloc: Global, row: OpRow) -> Option<(Trace, Spot, Spot)>
    ensures both { IfSome result (λ r. AreBoth r.0 r.1 r.2) }
    ensures ready { IfSome result (λ r. IsResting r.0 r.1 × IsResting r.0 r.2) }
    ensures room { IfSome result (λ r. HasRoom r.1 × HasRoom r.2) }
{
    let base = [
        Node {
            thread: 0,
            number: 1,
            row,
        },
        Node {
            thread: 1,
            number: 1,
            row,
        },
        Node {
            thread: 0,
            number: 2,
            row,
        },
    ];
    let marks = [
        Mark {
            thread: 0,
            place: 1,
            count: 1,
        },
        Mark {
            thread: 1,
            place: 2,
            count: 1,
        },
        Mark {
            thread: 0,
            place: 3,
            count: 1,
        },
    ];
    let Ok((trace, mut spots)) = Trace::resume(alloc, &base, &marks, &[2, 2]) else {
        return None;
    };
    let Some(second) = spots.pop() else {
        return None;
    };
    let Some(first) = spots.pop() else {
        return None;
    };
    Some((trace, first, second))
}

/// Closes a trace of two threads.
pub fn close_both(alloc: Global, trace: Trace, first: Spot, second: Spot) -> Option<Vec<Ended>>
    requires { AreBoth trace first second }
{
    let Ok(spots) = vec![in alloc; second, first] else {
        return None;
    };
    let Ok(ended) = trace.close(alloc, spots) else {
        return None;
    };
    Some(ended)
}
