//! Updates of a workload on four threads, each of which is answered once.

use crate::calls::{Outcome, Program};
use onll_outside::{Gate, Point};
use onll_trace::Spot;
use std::alloc::{AllocError, Global};
use std::sync::Wait;
use std::sync::atomic::{AtomicU64, Ordering};
use std::test::Fail;
use std::thread::Threads;

/// The words of a workload of four threads, and what is said of it.
const FOUR: &[&str] = &["make", "4", "500", "7"];

const FOUR_REPORT: &str = "made threads 4 updates 2000 reads 500\n\
     fences 2000\n\
     recovered 2000\n\
     total 64000\n";

/// A gate that counts the updates that were answered.
#[derive(Drop)]
struct AnswerGate {
    answered: AtomicU64,
}

impl Gate for AnswerGate {
    fn at(&self, _spot: &Spot, point: Point) {
        if point == Point::Answered {
            self.answered.fetch_add(1, Ordering::SeqCst);
        }
    }
}

/// Runs the workload over a store of its own, whose threads come to this gate.
fn run_four<R: Threads + Wait + Sync>(
    rt: &R,
    alloc: Global,
    gate: &AnswerGate,
) -> Result<Outcome, AllocError> {
    let program = Program::new(FOUR, &[]);
    let mut store = program.store(alloc)?;
    program.run_at(rt, alloc, &mut store, gate)
}

#[test]
fn each_update_is_answered_once(rt: HostRuntime) -> Result<(), Fail> {
    let gate = AnswerGate {
        answered: AtomicU64::new(0),
    };
    run_four(&rt, rt.alloc(), &gate)?.expect("four threads", 0, FOUR_REPORT)?;
    assert_eq!(rt; gate.answered.load(Ordering::SeqCst), 2000);
    Ok(())
}
