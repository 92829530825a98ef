//! Updates that are refused, and a fence that fails: what each call answers, and which points of a gate it reaches.
ghost use Rattle.onll_bank.specs.Object.{bank};
ghost use Rattle.onll_pmem.specs.Memory.{memory_view};
ghost use Rattle.onll_shared.specs.Passes.{IsTied};

use crate::steps::{Call, FIRST, NO_NODE, NONE, Said, Step, take_steps};
use onll_bank::Bank;
use onll_pmem::MemPmem;
use onll_shared::{Onll, Pass, TryFault};
use std::alloc::Global;
use std::test::Fail;
use tests_shared_calls::{must, open_one};

/// An object of one thread with so many lines and nodes, of whose device the fence of this number fails; its calls; and what the
/// pass has seen and ordered then, how many fences it made, and where it is broken.
struct Case {
    lines: u64,
    nodes: u64,
    failing: u64,
    steps: &'static [Step],
    seen: u64,
    ordered: u64,
    fences: u64,
    broken: Option<u64>,
}

const NODES_FULL: Case = Case {
    lines: 100,
    nodes: 1,
    failing: 0,
    steps: &[FIRST, NO_NODE],
    seen: 1,
    ordered: 1,
    fences: 1,
    broken: None,
};

const LOG_FULL: Case = Case {
    lines: 2,
    nodes: 10,
    failing: 0,
    steps: &[(
        Call::Deposit,
        Said::Refused(TryFault::LogFull { free: 1 }),
        NONE,
    )],
    seen: 0,
    ordered: 0,
    fences: 0,
    broken: None,
};

const FENCE_FAILED: Case = Case {
    lines: 100,
    nodes: 10,
    failing: 3,
    steps: &[
        FIRST,
        (
            Call::Deposit,
            Said::Refused(TryFault::FenceFailed { place: 2 }),
            [1, 1, 1, 0, 0],
        ),
        (
            Call::Deposit,
            Said::Refused(TryFault::Broken { place: 2 }),
            NONE,
        ),
        (Call::Balance, Said::Balance(1, 2, 5), NONE),
    ],
    seen: 1,
    ordered: 2,
    fences: 2,
    broken: Some(2),
};

/// Makes a case's calls, and compares what they leave.
fn take_case(onll: &Onll<Bank>, pass: &mut Pass<Bank, MemPmem>, case: &Case) -> Result<(), Fail>
    requires { IsTied bank memory_view onll.now pass.old }
{
    take_steps(onll, pass, case.steps)?;
    let counts = (pass.seen(), pass.ordered(), pass.log().fences());
    must(
        counts == (case.seen, case.ordered, case.fences) && pass.broken() == case.broken,
        "left otherwise",
    )
}

/// Makes a case's calls on a new object.
fn play(alloc: Global, case: &Case) -> Result<(), Fail> {
    if case.lines > 100 || case.nodes == 0 || case.nodes > 10 {
        return Err("no such case".into());
    }
    let bank = Bank::make(alloc, 2)?;
    let Some((onll, mut pass)) = open_one(alloc, bank, case.lines, case.nodes, case.failing) else {
        return Err("no memory".into());
    };
    take_case(&onll, &mut pass, case)
}

#[test]
fn refused_updates(rt: HostRuntime) -> Result<(), Fail> {
    play(rt.alloc(), &NODES_FULL)?;
    play(rt.alloc(), &LOG_FULL)?;
    play(rt.alloc(), &FENCE_FAILED)
}
