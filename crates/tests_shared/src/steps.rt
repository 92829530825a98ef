//! Calls of a bank on a pass: what each answers, and which points of a gate it reaches.
ghost use Rattle.onll_bank.specs.Object.{bank};
ghost use Rattle.onll_pmem.specs.Memory.{memory_view};
ghost use Rattle.onll_shared.specs.Passes.{IsTied};

use onll_bank::{Bank, BankOp, BankQuery, BankReply};
use onll_pmem::MemPmem;
use onll_shared::{Onll, Pass, TryFault};
use std::test::Fail;
use tests_shared_calls::{CountGate, must};

/// A call of a bank.
#[derive(Clone, Copy, Debug, PartialEq, Eq)]
pub(crate) enum Call {
    Deposit,
    Balance,
}

/// What a call answered: the place of an update; the place, the front and the balance of a read.
#[derive(Clone, Copy, Debug, PartialEq, Eq)]
pub(crate) enum Said {
    Done(u64),
    Balance(u64, u64, u64),
    Refused(TryFault),
    Other,
}

/// Deposits 5.
fn deposit(onll: &Onll<Bank>, pass: &mut Pass<Bank, MemPmem>, gate: &CountGate) -> Said
    requires { IsTied bank memory_view onll.now pass.old }
    ensures { IsTied bank memory_view onll.now pass.new }
{
    match onll.try_update(pass, BankOp::Deposit { a: 0, x: 5 }, gate) {
        Ok(receipt) if receipt.reply == BankReply::Done => Said::Done(receipt.place),
        Ok(_) => Said::Other,
        Err(fault) => Said::Refused(fault),
    }
}

/// Reads the balance.
fn balance(onll: &Onll<Bank>, pass: &mut Pass<Bank, MemPmem>) -> Said
    requires { IsTied bank memory_view onll.now pass.old }
    ensures { IsTied bank memory_view onll.now pass.new }
{
    let answer = onll.read(pass, BankQuery::Balance { a: 0 });
    match answer.reply {
        BankReply::Amount(amount) => Said::Balance(answer.place, answer.front, amount),
        _ => Said::Other,
    }
}

/// Makes a call: what it answers, and how often it comes to each point.
pub(crate) fn say(onll: &Onll<Bank>, pass: &mut Pass<Bank, MemPmem>, call: Call) -> (Said, [u64; 5])
    requires { IsTied bank memory_view onll.now pass.old }
    ensures { IsTied bank memory_view onll.now pass.new }
{
    let gate = CountGate::new();
    let said = match call {
        Call::Deposit => deposit(onll, pass, &gate),
        Call::Balance => balance(onll, pass),
    };
    (said, gate.all())
}

/// A call, what it answers, and how often it comes to each point, in their order.
pub(crate) type Step = (Call, Said, [u64; 5]);

pub(crate) const ALL: [u64; 5] = [1, 1, 1, 1, 1];

pub(crate) const NONE: [u64; 5] = [0, 0, 0, 0, 0];

pub(crate) const FIRST: Step = (Call::Deposit, Said::Done(1), ALL);

pub(crate) const SECOND: Step = (Call::Deposit, Said::Done(2), ALL);

pub(crate) const NO_NODE: Step = (Call::Deposit, Said::Refused(TryFault::NodesFull), NONE);

/// Makes calls, and compares what they answer.
pub(crate) fn take_steps(
    onll: &Onll<Bank>,
    pass: &mut Pass<Bank, MemPmem>,
    steps: &[Step],
) -> Result<(), Fail>
    requires { IsTied bank memory_view onll.now pass.old }
{
    for (call, said, arrivals) in steps {
        must(
            say(onll, pass, *call) == (*said, *arrivals),
            "another answer, or other points",
        )?;
    }
    Ok(())
}
