//! A note that a pass learns of another, a hold that runs out of turns, a full log, and a pass that goes on.
ghost use Rattle.onll_bank.specs.Object.{bank};
ghost use Rattle.onll_pmem.specs.Memory.{memory_view};
ghost use Rattle.onll_shared.specs.Passes.{IsTied};

use crate::resumed::resume_one;
use crate::steps::{Call, NO_NODE, NONE, SECOND, Said, Step, say, take_steps};
use onll_bank::{Bank, BankOp};
use onll_outside::{FreeGate, Gate, Hold, HoldGate, Point};
use onll_pmem::MemPmem;
use onll_shared::{Onll, Pass, UpdateFault};
use std::alloc::Global;
use std::sync::Wait;
use std::test::Fail;
use tests_shared_calls::{must, open_one, open_two};

const DEPOSIT: BankOp = BankOp::Deposit { a: 0, x: 5 };

/// The first pass tells the second one what it has seen: the place of the note.
fn tell(onll: &Onll<Bank>, first: &mut Pass<Bank, MemPmem>, second: &mut Pass<Bank, MemPmem>) -> u64
    requires first { IsTied bank memory_view onll.now first.old }
    requires second { IsTied bank memory_view onll.now second.old }
    ensures second { IsTied bank memory_view onll.now second.new }
{
    let note = onll.note(first);
    let place = note.place();
    onll.learn(second, note);
    place
}

/// The second pass has seen the update of the first one, and reads it.
fn told(
    onll: &Onll<Bank>,
    first: &mut Pass<Bank, MemPmem>,
    second: &mut Pass<Bank, MemPmem>,
) -> Result<(), Fail>
    requires first { IsTied bank memory_view onll.now first.old }
    requires second { IsTied bank memory_view onll.now second.old }
{
    must(
        say(onll, first, Call::Deposit).0 == Said::Done(1),
        "no update",
    )?;
    must(tell(onll, first, second) == 1, "a note of another place")?;
    must(second.seen() == 1 && second.ordered() == 0, "not learnt")?;
    must(
        say(onll, second, Call::Balance).0 == Said::Balance(1, 1, 5),
        "read otherwise",
    )?;
    must(first.thread() == 0 && second.thread() == 1, "other threads")?;
    must(
        first.log().fences() == 1 && second.log().fences() == 0,
        "other fences",
    )
}

#[test]
fn a_note_is_learnt(rt: HostRuntime) -> Result<(), Fail> {
    let bank = Bank::make(rt.alloc(), 2)?;
    let Some((onll, mut first, mut second)) = open_two(rt.alloc(), bank, 100, 10, 0) else {
        return Err("no memory".into());
    };
    told(&onll, &mut first, &mut second)
}

/// Why an update that is tried until no other comes first is not answered, by a pass whose log has so many lines.
fn fault_of<R: Wait>(rt: &R, alloc: Global, lines: u64) -> Result<Option<UpdateFault>, Fail> {
    if lines > 100 {
        return Err("too many lines".into());
    }
    let bank = Bank::make(alloc, 2)?;
    let Some((onll, mut pass)) = open_one(alloc, bank, lines, 10, 0) else {
        return Err("no memory".into());
    };
    Ok(onll.update(rt, &mut pass, DEPOSIT, &FreeGate).err())
}

#[test]
fn the_log_is_full(rt: HostRuntime) -> Result<(), Fail> {
    let fault = fault_of(&rt, rt.alloc(), 2)?;
    must(fault == Some(UpdateFault::LogFull { free: 1 }), "not full")?;
    must(fault_of(&rt, rt.alloc(), 3)?.is_none(), "full")
}

/// Whether an update at a gate is answered.
fn is_answered<G: Gate>(alloc: Global, gate: &G) -> Result<bool, Fail> {
    let bank = Bank::make(alloc, 2)?;
    let Some((onll, mut pass)) = open_one(alloc, bank, 100, 10, 0) else {
        return Err("no memory".into());
    };
    Ok(onll.try_update(&mut pass, DEPOSIT, gate).is_ok())
}

/// A hold of thread 0 for a thread that never comes.
const HOLD: Hold = Hold {
    thread: 0,
    point: Point::Walked,
    until_thread: 1,
    until_point: Point::Begin,
};

#[test]
fn a_hold_runs_out_of_turns(rt: HostRuntime) -> Result<(), Fail> {
    let gate = HoldGate::new(rt.alloc(), vec![in rt.alloc(); HOLD]?, 3)?;
    must(!gate.expired(), "expired before")?;
    must(is_answered(rt.alloc(), &gate)?, "not answered")?;
    must(gate.expired(), "not expired")
}

const STEPS: &[Step] = &[
    (Call::Balance, Said::Balance(1, 1, 5), NONE),
    SECOND,
    NO_NODE,
];

/// A pass that goes on has seen one update and ordered none; what its calls then answer.
fn goes_on(onll: &Onll<Bank>, pass: &mut Pass<Bank, MemPmem>) -> Result<(), Fail>
    requires { IsTied bank memory_view onll.now pass.old }
{
    must(pass.seen() == 1 && pass.ordered() == 0, "begins otherwise")?;
    take_steps(onll, pass, STEPS)
}

#[test]
fn a_pass_goes_on(rt: HostRuntime) -> Result<(), Fail> {
    let bank = Bank::make(rt.alloc(), 2)?;
    let Some((onll, mut pass)) = resume_one(rt.alloc(), bank, DEPOSIT, 1) else {
        return Err("no memory".into());
    };
    goes_on(&onll, &mut pass)
}
