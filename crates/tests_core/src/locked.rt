//! Tests of a bank under one lock.

ghost use Rattle.std.specs.Prelude.{◌≡◌, ◌<◌, ◌≤◌, false, [], length, IfOk};
ghost use Rattle.onll_model.specs.Calls.{updates_in};
ghost use Rattle.onll_locked.specs.DoNext.{IsThreadLog};
ghost use Rattle.std.proofs.Props.{props};

use onll_bank::{Bank, BankOp, BankQuery, BankReply};
use onll_locked::{Locked, LockedEnd, Next};
use onll_log::{Decoded, LogHead, ThreadLog, decode};
use onll_merge::recover;
use onll_model::{Call, Node, Object};
use onll_pmem::MemPmem;
use std::alloc::{AllocError, Global};
use std::test::Fail;
use tests_found::Found;

const INIT: &[u8] = b"bank 2\n";

/// How many lines a log has: enough for five updates.
const LINES: u64 = 16;

/// An outcome of a bank's call, to be compared.
#[derive(Clone, Copy, Debug, PartialEq, Eq)]
enum Said {
    Answered(u64, BankReply),
    FenceFailed(u64),
    Broken(u64),
}

fn outcome_of(end: &LockedEnd<Bank>) -> Said {
    match end {
        LockedEnd::Answered { place, reply } => Said::Answered(*place, *reply),
        LockedEnd::FenceFailed { place } => Said::FenceFailed(*place),
        LockedEnd::Broken { place } => Said::Broken(*place),
    }
}

/// A script of two deposits into an account and a question for its balance.
fn script(alloc: Global, a: u64, x: u64, y: u64) -> Result<Vec<Call<Bank>>, AllocError>
    ensures { IfOk result (λ script. updates_in script.items ≤ 5) }
{
    let script = vec![in alloc;
        Call::Update(BankOp::Deposit { a, x }),
        Call::Update(BankOp::Deposit { a, x: y }),
        Call::Ask(BankQuery::Balance { a }),
    ]?;
    Ok(script)
}

/// A thread's log on a device in memory whose fences of these numbers fail.
fn log_of(alloc: Global, thread: u64, failing: &[u64]) -> Result<ThreadLog<MemPmem>, Fail>
    requires { thread < 2 }
    ensures thread { IfOk result (λ log. log.head.thread ≡ thread) }
    ensures threads { IfOk result (λ log. log.head.threads ≡ 2) }
    ensures entries { IfOk result (λ log. log.entries ≡ []) }
    ensures whole { IfOk result (λ log. log.broken ≡ false) }
    ensures lines { IfOk result (λ log. length log.device.device.read ≡ 16) }
{
    let device = MemPmem::new(alloc, LINES, Vec::from_slice(alloc, failing)?)?;
    let head = LogHead::new(thread, 2, Bank::CODE, INIT);
    match ThreadLog::make(device, head) {
        Ok(log) => Ok(log),
        Err(_) => Err("not made".into()),
    }
}

/// Two threads under one lock, and their logs.
#[derive(Drop)]
struct Run {
    locked: Locked<Bank>,
    zero: ThreadLog<MemPmem>,
    one: ThreadLog<MemPmem>,
    ghost zero_is_log: { IsThreadLog locked 0 zero (length zero.device.device.read) } by { Prim.hlevel props },
    ghost one_is_log: { IsThreadLog locked 1 one (length one.device.device.read) } by { Prim.hlevel props },
}

/// Two threads of two deposits and a question each; the fences of thread 0's device that have these numbers fail.
fn begun(alloc: Global, failing: &[u64]) -> Result<Run, Fail> {
    let zero = script(alloc, 0, 5, 6)?;
    let one = script(alloc, 1, 7, 8)?;
    let scripts = vec![in alloc; zero, one]?;
    let locked = Locked::create(alloc, Bank::make(alloc, 2)?, scripts)?;
    Ok(Run {
        locked,
        zero: log_of(alloc, 0, failing)?,
        one: log_of(alloc, 1, &[])?,
    })
}

/// What a crash leaves of a log that keeps the pending words that `keep` picks, as read.
fn crashed(alloc: Global, log: &ThreadLog<MemPmem>, keep: u64) -> Option<Decoded> {
    let image = log.device().image(alloc, keep).ok()?;
    decode(alloc, &image).ok()
}

impl Run {
    /// The next call of thread 0.
    fn next_of_zero(&mut self) -> Next {
        self.locked.do_next(0, &mut self.zero)
    }

    /// The next call of thread 1.
    fn next_of_one(&mut self) -> Next {
        self.locked.do_next(1, &mut self.one)
    }

    /// The outcomes of thread 0.
    fn ends_of_zero(&self) -> &[LockedEnd<Bank>] {
        let _ = self.zero.device();
        self.locked.ends(0)
    }

    /// The outcomes of thread 1.
    fn ends_of_one(&self) -> &[LockedEnd<Bank>] {
        let _ = self.one.device();
        self.locked.ends(1)
    }

    /// What the logs' images recover to that keep the pending words that `keep` picks.
    fn recovered(&self, alloc: Global, keep: u64) -> Option<Vec<Node>> {
        let zero = crashed(alloc, &self.zero, keep)?;
        let one = crashed(alloc, &self.one, keep)?;
        let logs = vec![in alloc; zero, one].ok()?;
        recover(alloc, &logs, &[self.zero.head(), self.one.head()]).ok()
    }

    /// Whether such images recover to the trace.
    fn recovers(&self, alloc: Global, keep: u64) -> bool {
        match self.recovered(alloc, keep) {
            Some(nodes) => nodes.as_slice() == self.locked.trace(),
            None => false,
        }
    }
}

/// Whether these are the outcomes of the calls that a thread has done.
fn ends_are(ends: &[LockedEnd<Bank>], wanted: &[Said]) -> bool {
    if ends.len() != wanted.len() {
        return false;
    }
    for index in 0..ends.len() {
        if outcome_of(&ends[index]) != wanted[index] {
            return false;
        }
    }
    true
}

/// How many entries a log has, and how many fences it made.
fn counts(log: &ThreadLog<MemPmem>) -> (u64, u64) {
    (log.entries(), log.fences())
}

/// The next call of each thread is answered.
fn answer_both(found: &mut Found, run: &mut Run) {
    found.must(
        run.next_of_zero() == Next::Answered,
        "thread 0 is not answered",
    );
    found.must(
        run.next_of_one() == Next::Answered,
        "thread 1 is not answered",
    );
}

/// What each thread is told where no fence fails.
const ZERO_ANSWERED: &[Said] = &[
    Said::Answered(1, BankReply::Done),
    Said::Answered(3, BankReply::Done),
    Said::Answered(4, BankReply::Amount(11)),
];

const ONE_ANSWERED: &[Said] = &[
    Said::Answered(2, BankReply::Done),
    Said::Answered(4, BankReply::Done),
    Said::Answered(4, BankReply::Amount(15)),
];

#[test]
fn updates_and_reads_in_turn(rt: HostRuntime) -> Result<(), Fail> {
    let mut run = begun(rt.alloc(), &[])?;
    let mut found = Found::new();
    answer_both(&mut found, &mut run);
    answer_both(&mut found, &mut run);
    answer_both(&mut found, &mut run);
    found.must(run.next_of_zero() == Next::Done, "thread 0 is not done");
    found.must(run.next_of_one() == Next::Done, "thread 1 is not done");
    found.must(
        ends_are(run.ends_of_zero(), ZERO_ANSWERED),
        "other outcomes of thread 0",
    );
    found.must(
        ends_are(run.ends_of_one(), ONE_ANSWERED),
        "other outcomes of thread 1",
    );
    found.must(
        run.locked.flags() == [true; 4].as_slice(),
        "not four flags that are set",
    );
    let total = run.locked.object().ask(BankQuery::Total);
    found.must(total == BankReply::Amount(26), "another total");
    found.must(counts(&run.zero) == (2, 2), "other counts of log 0");
    found.must(counts(&run.one) == (2, 2), "other counts of log 1");
    found.must(run.recovers(rt.alloc(), 0), "not the trace recovered");
    found.ended()
}

/// The last entry of a log, as read, has this place and these nodes.
fn check_last_entry(
    alloc: Global,
    found: &mut Found,
    log: &ThreadLog<MemPmem>,
    place: u64,
    nodes: &[Node],
) {
    let Some(decoded) = crashed(alloc, log, u64::MAX) else {
        return found.must(false, "no log is read");
    };
    let Some(entry) = decoded.entries.as_slice().last() else {
        return found.must(false, "no entry");
    };
    found.must(entry.place == place, "an entry of another place");
    found.must(entry.nodes.as_slice() == nodes, "an entry with other nodes");
}

/// What each thread is told where the fence of thread 0's first update fails.
const ZERO_BROKEN: &[Said] = &[
    Said::FenceFailed(1),
    Said::Broken(1),
    Said::Answered(3, BankReply::Amount(5)),
];

const ONE_BESIDE: &[Said] = &[
    Said::Answered(2, BankReply::Done),
    Said::Answered(3, BankReply::Done),
];

/// The calls of a run where the fence of thread 0's first update fails.
fn call_in_turn(alloc: Global, found: &mut Found, run: &mut Run) {
    found.must(
        run.next_of_zero() == Next::FenceFailed { place: 1 },
        "a fence that does not fail",
    );
    found.must(run.zero.broken(), "log 0 is not broken");
    found.must(
        run.next_of_zero() == Next::Broken { place: 1 },
        "thread 0 is not broken",
    );
    found.must(
        run.next_of_one() == Next::Answered,
        "thread 1 is not answered",
    );
    check_last_entry(alloc, found, &run.one, 2, run.locked.trace());
    found.must(
        run.next_of_one() == Next::Answered,
        "thread 1 is not answered again",
    );
    found.must(
        run.next_of_zero() == Next::Answered,
        "thread 0 is not answered",
    );
    found.must(run.next_of_zero() == Next::Done, "thread 0 is not done");
}

#[test]
fn an_entry_holds_the_node_whose_fence_failed(rt: HostRuntime) -> Result<(), Fail> {
    let mut run = begun(rt.alloc(), &[2])?;
    let mut found = Found::new();
    call_in_turn(rt.alloc(), &mut found, &mut run);
    found.must(
        ends_are(run.ends_of_zero(), ZERO_BROKEN),
        "other outcomes of thread 0",
    );
    found.must(
        ends_are(run.ends_of_one(), ONE_BESIDE),
        "other outcomes of thread 1",
    );
    found.must(
        run.locked.flags() == [false, true, true].as_slice(),
        "other flags",
    );
    found.must(counts(&run.zero) == (1, 1), "other counts of log 0");
    found.must(counts(&run.one) == (2, 2), "other counts of log 1");
    found.must(
        run.recovers(rt.alloc(), 0),
        "not the trace, with no pending word kept",
    );
    found.must(
        run.recovers(rt.alloc(), u64::MAX),
        "not the trace, with all pending words kept",
    );
    found.ended()
}
