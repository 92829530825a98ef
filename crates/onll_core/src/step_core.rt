//! The step core: what it is made of, and what each one keeps.

ghost use Rattle.std.specs.Prelude.{◌≡◌, ◌+◌, ◌*◌, ◌<◌, ◌≤◌, [], length, slice_get, IfSome, IfOk, replicate, map};
ghost use Rattle.onll_model.specs.Limits.{most_threads, most_updates};
ghost use Rattle.std.specs.List.{All};
ghost use Rattle.onll_model.specs.declared.call.Call.TheVariants.{Ask};
ghost use Rattle.onll_model.specs.Calls.{updates_in};
ghost use Rattle.onll_core.specs.Step.{begun};
ghost use Rattle.onll_core.specs.Consistent.{IsConsistent};
ghost use Rattle.onll_core.specs.First.{first_threads};
ghost use Rattle.onll_core.specs.Created.{created_core};
ghost use Rattle.onll_log.specs.Head.{heads_from};
ghost use Rattle.onll_core.specs.Outcomes.{current_in, IsLegalCore};
ghost use Rattle.onll_core.specs.Fences.{fences_of, CountsFences};
ghost use Rattle.onll_core.specs.Reached.{IsReached};
ghost use Rattle.onll_core.specs.CallTimes.{AreInTime};
ghost use Rattle.onll_core.specs.Entries.{EntriesAreFew};
ghost use Rattle.onll_core.specs.Returns.{OrderedReturn};
ghost use Rattle.onll_core.specs.Crash.{heads_of, RecoversAlways};

mod play;
mod resume;
mod steps;

use crate::local::Local;
use crate::phase::Phase;
use crate::returned::{Current, Returned};
use crate::worker::{Worker, with_room};
use onll_log::LogHead;
use onll_model::{Call, MOST_UPDATES, Node, Object};
use onll_pmem::MemPmem;
use onll_words::{Line, NoMemory};
use std::alloc::Global;
use std::marker::Model;

/// The most updates of a thread.
const NAMES: usize = MOST_UPDATES as usize;

/// The step core: threads that take atomic steps, one after the other, each on a log of its own in memory.
#[derive(Drop)]
pub struct Core<O: Object + Drop> {
    initial: O,
    base: u64,
    trace: Vec<Node>,
    flags: Vec<bool>,
    clock: u64,
    workers: Vec<Worker<O>>,
    locals: Vec<Local<O>>,
}

impl<O: Object + Drop> Model for Core<O> {
    ghost use Rattle.std.specs.Vec.{vec_capacity};
    ghost use Rattle.onll_core.specs.Core.{CoreState};
    ghost use Rattle.onll_core.specs.Kept.{KeepsCore};

    ghost Value = { CoreState O O.Op O.Query O.Reply };

    ghost view = { λ c. record {
      initial = c.initial;
      base = c.base;
      trace = c.trace.items;
      flags = c.flags.items;
      clock = c.clock;
      threads = c.workers.items;
    } };

    ghost invariant = { λ c. KeepsCore O.means (vec_capacity c.trace) (vec_capacity c.flags) c.locals.items
        (record {
          initial = c.initial;
          base = c.base;
          trace = c.trace.items;
          flags = c.flags.items;
          clock = c.clock;
          threads = c.workers.items;
        }) };
}

/// The threads of these scripts, with their logs.
fn first_workers<O: Object>(
    alloc: Global,
    init: &[u8],
    scripts: Vec<Vec<Call<O>>>,
) -> Result<Vec<Worker<O>>, NoMemory>
    requires few { length scripts.items ≤ most_threads }
    requires updates { All (λ script. updates_in script.items ≤ most_updates) scripts.items }
    ensures { IfOk result (λ workers. workers.items
        ≡ first_threads (heads_from (length scripts.items) O.CODE init.now 0 (length scripts.items))
        (map (λ script. script.items) scripts.items)) }
{
    let threads = scripts.len();
    let mut workers = with_room(alloc, threads)?;
    let mut thread = 0;
    for script in scripts {
        let head = LogHead::new(thread, threads as u64, O::CODE, init);
        workers.push_reserved(Worker::new(alloc, head, script)?);
        thread += 1;
    }
    Ok(workers)
}

/// As many replicas of the object, before the first node.
fn first_locals<O: Object + Drop>(
    alloc: Global,
    object: &O,
    threads: usize,
) -> Result<Vec<Local<O>>, NoMemory>
    ensures { IfOk result (λ locals. locals.items ≡ replicate threads (record { object = object.now; place = 0; linked = 0 })) }
{
    let mut locals = with_room(alloc, threads)?;
    for _thread in 0..threads {
        locals.push_reserved(Local {
            object: object.copy(alloc)?,
            place: 0,
            linked: 0,
        });
    }
    Ok(locals)
}

impl<O: Object + Drop> Core<O> {
    /// A core of an object and a script for each thread, of at most 4,096 updates each, before any step. The heads of the
    /// logs carry the digest of these bytes, the text of the object's state.
    pub fn create(
        alloc: Global,
        object: O,
        init: &[u8],
        scripts: Vec<Vec<Call<O>>>,
    ) -> Result<Core<O>, NoMemory>
        requires few { length scripts.items ≤ most_threads }
        requires updates { All (λ script. updates_in script.items ≤ most_updates) scripts.items }
        ensures { IfOk result (λ c. c ≡ created_core object O.CODE init.now (map (λ script. script.items) scripts.items)) }
    {
        let threads = scripts.len();
        let trace = with_room(alloc, NAMES * threads)?;
        let flags = with_room(alloc, NAMES * threads)?;
        let locals = first_locals(alloc, &object, threads)?;
        let workers = first_workers(alloc, init, scripts)?;
        Ok(Core {
            initial: object,
            base: 0,
            trace,
            flags,
            clock: 0,
            workers,
            locals,
        })
    }

    /// How many steps were made.
    pub fn clock(&self) -> u64
        ensures { result ≡ self.now.clock }
    {
        self.clock
    }

    pub fn threads(&self) -> u64
        ensures { result ≡ length self.now.threads }
    {
        self.workers.len() as u64
    }

    pub(crate) fn workers(&self) -> &[Worker<O>]
        ensures { result.now ≡ self.now.threads }
    {
        &self.workers
    }

    /// The object before the first node.
    pub fn initial(&self) -> &O
        ensures { result.now ≡ self.now.initial }
    {
        &self.initial
    }

    /// How many nodes at the trace's beginning were recovered.
    pub fn base(&self) -> u64
        ensures { result ≡ self.now.base }
    {
        self.base
    }

    pub fn trace(&self) -> &[Node]
        ensures { result.now ≡ self.now.trace }
    {
        &self.trace
    }

    /// The flag of each node.
    pub fn flags(&self) -> &[bool]
        ensures { result.now ≡ self.now.flags }
    {
        &self.flags
    }

    /// The head of a thread's log.
    pub fn head(&self, thread: u64) -> LogHead
        requires { thread < length self.now.threads }
        ensures { IfSome (slice_get self.now.threads thread) (λ th. result ≡ th.head) }
    {
        self.workers[thread as usize].head()
    }

    /// The device of a thread's log. Its fences never fail.
    pub fn device(&self, thread: u64) -> &MemPmem
        requires { thread < length self.now.threads }
        ensures { IfSome (slice_get self.now.threads thread) (λ th. result.now ≡ record { device = th.device; failing = [] }) }
    {
        self.workers[thread as usize].device()
    }

    /// How many fences a thread has made in this generation. The header's is not counted.
    pub fn fences(&self, thread: u64) -> u64
        requires { thread < length self.now.threads }
        ensures fences { IfSome (slice_get self.now.threads thread) (λ th. result ≡ fences_of th) }
        ensures device { IfSome (slice_get self.now.threads thread) (λ th. result + th.before ≡ th.device.fences) }
    {
        self.workers[thread as usize].fences()
    }

    /// What a thread's next call is about.
    pub fn current(&self, thread: u64) -> Current
        requires { thread < length self.now.threads }
        ensures { IfSome (slice_get self.now.threads thread) (λ th. result ≡ current_in th.phase) }
    {
        match self.workers[thread as usize].phase() {
            Phase::Idle => Current::Idle,
            Phase::Tail { .. } | Phase::Exchange { .. } | Phase::Ask { .. } => Current::Running,
            Phase::Flag { place, .. }
            | Phase::Line { place, .. }
            | Phase::Back { place, .. }
            | Phase::Fence { place, .. }
            | Phase::Set { place, .. } => Current::Ordered { place },
        }
    }

    /// The calls of a thread.
    pub fn script(&self, thread: u64) -> &[Call<O>]
        requires { thread < length self.now.threads }
        ensures { IfSome (slice_get self.now.threads thread) (λ th. result.now ≡ th.script) }
    {
        self.workers[thread as usize].script()
    }

    /// What a thread's calls have returned, in the script's order.
    pub fn returned(&self, thread: u64) -> &[Returned<O>]
        requires { thread < length self.now.threads }
        ensures { IfSome (slice_get self.now.threads thread) (λ th. result.now ≡ th.returned) }
    {
        self.workers[thread as usize].returned()
    }

    /// What every core keeps.
    pub fn consistent(&self)
        ensures { IsConsistent (length self.now.threads) self.now }
    {
        let _ = &self.clock;
    }

    /// Every core is one that steps have led to, from a state in which no call had begun.
    pub fn reached(&self)
        ensures { IsReached O.means (length self.now.threads) self.now }
    {
        let _ = &self.clock;
    }

    /// What every core promises of its calls: their outcomes and the trace are one legal history of the object, in an order
    /// that agrees with the time at which they were made; an update has fenced its log once, and a read never; no entry of a log
    /// holds more nodes than there are threads; an ordered call returns; and whatever a crash leaves recovers to all that returned.
    pub fn lawful(&self)
        ensures legal { IsLegalCore O.means self.now }
        ensures in_time { AreInTime self.now }
        ensures fences { CountsFences self.now }
        ensures entries { EntriesAreFew (length self.now.threads) self.now }
        ensures returns { OrderedReturn O.means (length self.now.threads) self.now }
        ensures crash { RecoversAlways O.means (heads_of self.now.threads) self.now }
    {
        self.reached();
    }
}
