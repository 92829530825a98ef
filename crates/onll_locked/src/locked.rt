//! An object under one lock, whose calls are done in full, one after the other.

ghost use Rattle.std.specs.Prelude.{◌≡◌, ℕ, ◌+◌, ◌<◌, ◌≤◌, ◌≢◌, length, map, true, false, Some, None, IfSome, IfOk, slice_get};
ghost use Rattle.onll_model.specs.Limits.{most_threads, most_updates};
ghost use Rattle.std.specs.List.{All};
ghost use Rattle.onll_model.specs.declared.call.Call.TheVariants.{Update, Ask};
ghost use Rattle.onll_model.specs.Calls.{updates_in};
ghost use Rattle.onll_model.specs.Trace.{state_after};
ghost use Rattle.onll_model.specs.Segment.{nodes_between};
ghost use Rattle.onll_log.specs.Log.{LogState};
ghost use Rattle.onll_locked.specs.Locked.{first_thread, first_state, next_call, failed_at, IsUpdate};
ghost use Rattle.onll_locked.specs.DoNext.{IsThreadLog, IsNewestPlace, EndsSo, after_end, HasDone};
ghost use Rattle.onll_locked.specs.Kept.{EachLocked, AgreeCounts, FlagsTell, IsLegalLocked};

use crate::ends::{LockedEnd, Next};
use crate::progress::{Progress, with_room};
use onll_log::ThreadLog;
use onll_model::{Call, MOST_UPDATES, Node, Object};
use onll_pmem::Pmem;
use onll_words::NoMemory;
use std::alloc::Global;
use std::marker::Model;

/// The most updates of a thread.
const NAMES: usize = MOST_UPDATES as usize;

/// The newest place whose flag is set, 0 where there is none.
fn newest_available(flags: &[bool]) -> u64
    ensures { IsNewestPlace flags.now result }
{
    let mut place = flags.len();
    while place > 0 && !flags[place - 1] {
        place -= 1;
    }
    place as u64
}

/// The nodes of the places above this one.
fn window(trace: &[Node], below: u64) -> &[Node]
    requires { below ≤ length trace.now }
    ensures { result.now ≡ nodes_between trace.now below (length trace.now) }
{
    &trace[below as usize..]
}

/// What a call whose update has ended so comes to.
fn next_of_update(place: u64, fenced: bool) -> Next
    ensures answered { fenced ≡ true → result ≡ Next.Answered }
    ensures failed { fenced ≡ false → result ≡ Next.FenceFailed place }
{
    if fenced {
        Next::Answered
    } else {
        Next::FenceFailed { place }
    }
}

/// The threads of these scripts, before any call.
fn first_threads<O: Object>(
    alloc: Global,
    scripts: Vec<Vec<Call<O>>>,
) -> Result<Vec<Progress<O>>, NoMemory>
    ensures { IfOk result (λ threads. threads.items ≡ map first_thread (map (λ script. script.items) scripts.items)) }
{
    let mut threads = with_room(alloc, scripts.len())?;
    for script in scripts {
        threads.push_reserved(Progress::new(alloc, script)?);
    }
    Ok(threads)
}

/// An object with a script for each thread, whose calls are done in full, one after the other.
#[derive(Drop)]
pub struct Locked<O: Object + Drop> {
    initial: O,
    object: O,
    trace: Vec<Node>,
    flags: Vec<bool>,
    threads: Vec<Progress<O>>,
}

impl<O: Object + Drop> Model for Locked<O> {
    ghost use Rattle.std.specs.Vec.{vec_capacity};
    ghost use Rattle.onll_locked.specs.Locked.{LockedState};
    ghost use Rattle.onll_locked.specs.Kept.{KeepsLocked};

    ghost Value = { LockedState O O.Op O.Query O.Reply };

    ghost view = { λ l. record { initial = l.initial; trace = l.trace.items; flags = l.flags.items; threads = l.threads.items } };

    ghost invariant = { λ l. KeepsLocked O.means (vec_capacity l.trace) (vec_capacity l.flags) l.object
        (record { initial = l.initial; trace = l.trace.items; flags = l.flags.items; threads = l.threads.items }) };
}

impl<O: Object + Drop> Locked<O> {
    /// An object in its initial state and a script for each thread, of at most 4,096 updates each, before any call. All memory
    /// that calls need is taken here.
    pub fn create(
        alloc: Global,
        object: O,
        scripts: Vec<Vec<Call<O>>>,
    ) -> Result<Locked<O>, NoMemory>
        requires few { length scripts.items ≤ most_threads }
        requires updates { All (λ script. updates_in script.items ≤ most_updates) scripts.items }
        ensures { IfOk result (λ c. c ≡ first_state object (map (λ script. script.items) scripts.items)) }
    {
        let nodes = NAMES * scripts.len();
        let trace = with_room(alloc, nodes)?;
        let flags = with_room(alloc, nodes)?;
        let threads = first_threads(alloc, scripts)?;
        let initial = object.copy(alloc)?;
        Ok(Locked {
            initial,
            object,
            trace,
            flags,
            threads,
        })
    }

    /// The object after all updates of the trace.
    pub fn object(&self) -> &O
        ensures { result.now ≡ state_after O.means self.now.initial self.now.trace }
    {
        &self.object
    }

    pub fn trace(&self) -> &[Node]
        ensures { result.now ≡ self.now.trace }
    {
        &self.trace
    }

    /// The flag of each node.
    pub fn flags(&self) -> &[bool]
        ensures { result.now ≡ self.now.flags }
    {
        &self.flags
    }

    /// What became of each call that a thread has done, in the script's order.
    pub fn ends(&self, thread: u64) -> &[LockedEnd<O>]
        requires { thread < length self.now.threads }
        ensures { IfSome (slice_get self.now.threads thread) (λ th. result.now ≡ th.ends) }
    {
        self.threads[thread as usize].ends()
    }

    /// What always holds: the outcomes and the trace are a legal report, a node's flag is unset exactly where its update's
    /// fence failed, and each thread has as many nodes as updates with a place.
    pub fn lawful(&self)
        ensures legal { IsLegalLocked O.means self.now }
        ensures flags { FlagsTell self.now }
        ensures as_many { length self.now.flags ≡ length self.now.trace }
        ensures counts { EachLocked self.now (AgreeCounts self.now.trace) }
    {
        let _ = &self.trace;
    }

    /// The thread's next call, which has no node, ends so.
    fn end(&mut self, thread: u64, end: LockedEnd<O>)
        requires there { thread < length self.old.threads }
        requires fits { IfSome (slice_get self.old.threads thread) (λ th. EndsSo O.means self.old th (next_call th) end) }
        ensures { IfSome (slice_get self.old.threads thread) (λ th. self.new ≡ after_end self.old thread th end) }
    {
        let progress = &mut self.threads[thread as usize];
        progress.put(end);
    }

    /// The thread's next call, a read, is answered.
    fn read(&mut self, thread: u64, query: O::Query)
        requires there { thread < length self.old.threads }
        requires next { IfSome (slice_get self.old.threads thread) (λ th. next_call th ≡ Some (Ask query)) }
        ensures { IfSome (slice_get self.old.threads thread)
            (λ th. self.new ≡ after_end self.old thread th
            (LockedEnd.Answered (length self.old.trace)
            (O.means.answer (state_after O.means self.old.initial self.old.trace) query))) }
    {
        let reply = self.object.ask(query);
        let place = self.trace.len() as u64;
        self.end(thread, LockedEnd::Answered { place, reply });
    }

    /// The thread's next call, an update, is broken by the one at this place.
    fn refuse(&mut self, thread: u64, place: u64)
        requires there { thread < length self.old.threads }
        requires next { IfSome (slice_get self.old.threads thread) (λ th. IsUpdate (next_call th) × (failed_at th.ends ≡ Some place)) }
        ensures { IfSome (slice_get self.old.threads thread) (λ th. self.new ≡ after_end self.old thread th (LockedEnd.Broken place)) }
    {
        self.end(thread, LockedEnd::Broken { place });
    }

    /// The thread's next call, an update, is done: its node becomes the newest, one entry is appended, and the node is flagged
    /// where the fence succeeded.
    fn update<P: Pmem>(&mut self, thread: u64, op: O::Op, log: &mut ThreadLog<P>) -> Next
        requires next { IfSome (slice_get self.old.threads thread) (λ th. (next_call th ≡ Some (Update op)) × (failed_at th.ends ≡ None)) }
        requires there { thread < length self.old.threads }
        requires log { IsThreadLog self.old thread log.old (length (P.means log.old.device).read) }
        ensures done { IfSome (slice_get self.old.threads thread)
            (λ th. HasDone O.means self.old thread th self.new log.old log.new (P.means log.old.device)
            (P.means log.new.device) result) }
        ensures ready { IsThreadLog self.new thread log.new (length (P.means log.new.device).read) }
    {
        let below = newest_available(&self.flags);
        let progress = &mut self.threads[thread as usize];
        let node = Node {
            thread,
            number: progress.ordered() + 1,
            row: O::op_row(op),
        };
        self.trace.push_reserved(node);
        let reply = self.object.apply(op);
        let place = self.trace.len() as u64;
        let fenced = log.append(place, window(&self.trace, below)).is_ok();
        self.flags.push_reserved(fenced);
        progress.order(LockedEnd::of_update(place, reply, fenced));
        next_of_update(place, fenced)
    }

    /// Does the thread's next call in full. An update appends one entry to the log, with one fence: the operations from the
    /// newest flagged place, without it, to its own place. It takes no memory.
    pub fn do_next<P: Pmem>(&mut self, thread: u64, log: &mut ThreadLog<P>) -> Next
        requires { IsThreadLog self.old thread log.old (length (P.means log.old.device).read) }
        ensures done { IfSome (slice_get self.old.threads thread)
            (λ th. HasDone O.means self.old thread th self.new log.old log.new (P.means log.old.device)
            (P.means log.new.device) result) }
        ensures there { thread < length self.old.threads }
        ensures ready { IsThreadLog self.new thread log.new (length (P.means log.new.device).read) }
        ensures others { (u : ℕ) (other : LogState P) (lines : ℕ) → u ≢ thread → IsThreadLog self.old u other lines
            → IsThreadLog self.new u other lines }
    {
        let _ = log.device();
        let progress = &self.threads[thread as usize];
        let failed = progress.failed();
        match progress.next_call() {
            None => Next::Done,
            Some(Call::Ask(query)) => {
                self.read(thread, query);
                Next::Answered
            }
            Some(Call::Update(op)) => match failed {
                Some(place) => {
                    self.refuse(thread, place);
                    Next::Broken { place }
                }
                None => self.update(thread, op, log),
            },
        }
    }
}
