//! One script on the shared object and on the object under one lock.
ghost use Rattle.std.specs.Prelude.{◌≡◌, ◌<◌, ◌≤◌, [], length, false, IfOk};
ghost use Rattle.onll_bank.specs.Object.{bank};
ghost use Rattle.onll_locked.specs.DoNext.{IsThreadLog};
ghost use Rattle.onll_model.specs.Calls.{updates_in};
ghost use Rattle.onll_pmem.specs.Memory.{memory_view};
ghost use Rattle.onll_shared.specs.Passes.{IsTied};
ghost use Rattle.std.proofs.Props.{props};

use crate::runs::End;
use onll_bank::{Bank, BankOp, BankQuery, BankReply};
use onll_locked::{Locked, LockedEnd};
use onll_log::{LogHead, ThreadLog};
use onll_model::{Call, Object};
use onll_outside::FreeGate;
use onll_pmem::MemPmem;
use onll_shared::{Onll, Pass, TryFault};
use std::alloc::{AllocError, Global};
use std::test::Fail;
use tests_shared_calls::{INIT, open_two};

/// How many lines each log has.
const LINES: u64 = 16;

/// The fence of each device that fails: that of its third entry, which thread 1 alone makes.
const FAILING: u64 = 4;

fn said_under_the_lock(end: &LockedEnd<Bank>) -> End {
    match end {
        LockedEnd::Answered { place, reply } => End::Answered(*place, *reply),
        LockedEnd::FenceFailed { place } => End::FenceFailed(*place),
        LockedEnd::Broken { place } => End::Broken(*place),
    }
}

/// Makes a call on the shared object.
fn said_by_shared(onll: &Onll<Bank>, pass: &mut Pass<Bank, MemPmem>, call: &Call<Bank>) -> End
    requires tied { IsTied bank memory_view onll.now pass.old }
    ensures tied { IsTied bank memory_view onll.now pass.new }
{
    match call {
        Call::Ask(query) => {
            let answer = onll.read(pass, *query);
            End::Answered(answer.place, answer.reply)
        }
        Call::Update(op) => match onll.try_update(pass, *op, &FreeGate) {
            Ok(receipt) => End::Answered(receipt.place, receipt.reply),
            Err(TryFault::FenceFailed { place }) => End::FenceFailed(place),
            Err(TryFault::Broken { place }) => End::Broken(place),
            Err(_) => End::Other,
        },
    }
}

/// The script of thread 0: questions, and updates in between.
fn zeros_script(alloc: Global) -> Result<Vec<Call<Bank>>, AllocError>
    ensures few { IfOk result (λ script. updates_in script.items ≤ 5) }
    ensures five { IfOk result (λ script. length script.items ≡ 5) }
{
    let script = vec![in alloc;
        Call::Ask(BankQuery::Balance { a: 0 }),
        Call::Update(BankOp::Deposit { a: 0, x: 5 }),
        Call::Ask(BankQuery::Balance { a: 0 }),
        Call::Update(BankOp::Transfer { a: 0, b: 1, x: 2 }),
        Call::Ask(BankQuery::Balance { a: 0 }),
    ]?;
    Ok(script)
}

/// The script of thread 1: the fence of its third update fails.
fn ones_script(alloc: Global) -> Result<Vec<Call<Bank>>, AllocError>
    ensures few { IfOk result (λ script. updates_in script.items ≤ 5) }
    ensures five { IfOk result (λ script. length script.items ≡ 5) }
{
    let script = vec![in alloc;
        Call::Update(BankOp::Deposit { a: 1, x: 7 }),
        Call::Update(BankOp::Withdraw { a: 1, x: 1 }),
        Call::Update(BankOp::Deposit { a: 0, x: 3 }),
        Call::Update(BankOp::Withdraw { a: 1, x: 1 }),
        Call::Ask(BankQuery::Balance { a: 1 }),
    ]?;
    Ok(script)
}

/// A thread's log on a device in memory.
fn log_of(alloc: Global, thread: u64) -> Result<ThreadLog<MemPmem>, Fail>
    requires { thread < 2 }
    ensures thread { IfOk result (λ log. log.head.thread ≡ thread) }
    ensures threads { IfOk result (λ log. log.head.threads ≡ 2) }
    ensures entries { IfOk result (λ log. log.entries ≡ []) }
    ensures whole { IfOk result (λ log. log.broken ≡ false) }
    ensures lines { IfOk result (λ log. length log.device.device.read ≡ 16) }
{
    let device = MemPmem::new(alloc, LINES, vec![in alloc; FAILING]?)?;
    let head = LogHead::new(thread, 2, Bank::CODE, INIT);
    match ThreadLog::make(device, head) {
        Ok(log) => Ok(log),
        Err(_) => Err("not made".into()),
    }
}

/// Two threads under one lock, and their logs.
#[derive(Drop)]
struct Run {
    locked: Locked<Bank>,
    zero: ThreadLog<MemPmem>,
    one: ThreadLog<MemPmem>,
    ghost zero_is_log: { IsThreadLog locked 0 zero (length zero.device.device.read) } by { Prim.hlevel props },
    ghost one_is_log: { IsThreadLog locked 1 one (length one.device.device.read) } by { Prim.hlevel props },
}

fn begun(alloc: Global) -> Result<Run, Fail> {
    let zero = zeros_script(alloc)?;
    let one = ones_script(alloc)?;
    let scripts = vec![in alloc; zero, one]?;
    let locked = Locked::create(alloc, Bank::make(alloc, 2)?, scripts)?;
    Ok(Run {
        locked,
        zero: log_of(alloc, 0)?,
        one: log_of(alloc, 1)?,
    })
}

impl Run {
    /// The next call of each thread.
    fn next_of_both(&mut self) {
        let _ = self.locked.do_next(0, &mut self.zero);
        let _ = self.locked.do_next(1, &mut self.one);
    }

    fn ends_of_zero(&self) -> &[LockedEnd<Bank>] {
        let _ = self.zero.device();
        self.locked.ends(0)
    }

    fn ends_of_one(&self) -> &[LockedEnd<Bank>] {
        let _ = self.one.device();
        self.locked.ends(1)
    }
}

/// What a thread was told under the lock.
fn said_of(alloc: Global, ends: &[LockedEnd<Bank>]) -> Result<Vec<End>, AllocError> {
    let mut said = Vec::new(alloc);
    for end in ends {
        said.push(said_under_the_lock(end))?;
    }
    Ok(said)
}

/// What each of two threads was told.
#[derive(Drop)]
struct Told {
    zero: Vec<End>,
    one: Vec<End>,
}

/// What two threads are told under the lock, whose calls come in turn.
fn told_under_the_lock(alloc: Global) -> Result<Told, Fail> {
    let mut run = begun(alloc)?;
    run.next_of_both();
    run.next_of_both();
    run.next_of_both();
    run.next_of_both();
    run.next_of_both();
    Ok(Told {
        zero: said_of(alloc, run.ends_of_zero())?,
        one: said_of(alloc, run.ends_of_one())?,
    })
}

/// What two threads of the shared object are told, whose calls come in turn.
fn said_in_turn(
    alloc: Global,
    onll: &Onll<Bank>,
    zero: &mut Pass<Bank, MemPmem>,
    one: &mut Pass<Bank, MemPmem>,
) -> Result<Told, AllocError>
    requires zero { IsTied bank memory_view onll.now zero.old }
    requires one { IsTied bank memory_view onll.now one.old }
{
    let (zeros, ones) = (zeros_script(alloc)?, ones_script(alloc)?);
    let mut said_zero = Vec::new(alloc);
    let mut said_one = Vec::new(alloc);
    for turn in 0..5 {
        said_zero.push(said_by_shared(onll, zero, &zeros[turn]))?;
        said_one.push(said_by_shared(onll, one, &ones[turn]))?;
    }
    Ok(Told {
        zero: said_zero,
        one: said_one,
    })
}

/// What two threads of a new shared object are told.
fn told_by_shared(alloc: Global) -> Result<Told, Fail> {
    let bank = Bank::make(alloc, 2)?;
    let Some(mut two) = open_two(alloc, bank, LINES, 10, FAILING) else {
        return Err("no memory".into());
    };
    Ok(said_in_turn(alloc, &two.0, &mut two.1, &mut two.2)?)
}

const ZEROS: [End; 5] = [
    End::Answered(0, BankReply::Amount(0)),
    End::Answered(2, BankReply::Done),
    End::Answered(3, BankReply::Amount(5)),
    End::Answered(5, BankReply::Done),
    End::Answered(5, BankReply::Amount(6)),
];

const ONES: [End; 5] = [
    End::Answered(1, BankReply::Done),
    End::Answered(3, BankReply::Done),
    End::FenceFailed(4),
    End::Broken(4),
    End::Answered(5, BankReply::Amount(8)),
];

#[test]
fn one_script_two_ways(rt: HostRuntime) -> Result<(), Fail> {
    let locked = told_under_the_lock(rt.alloc())?;
    let shared = told_by_shared(rt.alloc())?;
    assert_eq!(rt; locked.zero.as_slice(), ZEROS.as_slice());
    assert_eq!(rt; locked.one.as_slice(), ONES.as_slice());
    assert_eq!(rt; shared.zero.as_slice(), ZEROS.as_slice());
    assert_eq!(rt; shared.one.as_slice(), ONES.as_slice());
    Ok(())
}
