//! The single atomic steps of a thread of the core, one for each row of the step table.

ghost use Rattle.std.specs.Prelude.{◌≡◌, ◌+◌, ◌-◌, ◌^◌, ◌<◌, ◌≤◌, true, length, Some, None, slice_get, IfSome};
ghost use Rattle.onll_model.specs.Limits.{most_threads};
ghost use Rattle.onll_model.specs.declared.call.Call.TheVariants.{Update, Ask};
ghost use Rattle.onll_model.specs.Frames.{is_available};
ghost use Rattle.onll_core.specs.declared.phase.Phase.TheVariants as phases;
ghost use Rattle.onll_pmem.specs.Device.{line_at};
ghost use Rattle.onll_log.specs.Encoding.{entry_lines, FitsEntry};
ghost use Rattle.onll_core.specs.CoreFrame.{seen_in};
ghost use Rattle.onll_core.specs.Step.{turned, begun, put, answered, line_of_entry, after_exchange, after_flag, after_back, step_of};
ghost use Rattle.onll_core.specs.Next.{IsNext, IsUpdating};

use super::Core;
use crate::local::window;
use crate::phase::Phase;
use crate::returned::Returned;
use onll_log::{LogHead, entry_head};
use onll_model::{Node, Object, node_line};
use onll_words::Line;

/// Whether the flag of the node at a place is set. Place 0 always is available.
fn is_available(flags: &[bool], place: u64) -> bool
    ensures { result ≡ is_available flags.now place }
{
    if place == 0 {
        return true;
    }
    match flags.get((place - 1) as usize) {
        Some(flag) => *flag,
        None => false,
    }
}

/// What follows an exchange that was won where the tail was at `loaded`.
fn after_exchange(base: u64, loaded: u64) -> Phase
    requires { loaded < 2 ^ 64 - 1 }
    ensures { result ≡ after_exchange base loaded }
{
    let place = loaded + 1;
    if loaded <= base {
        Phase::Line {
            place,
            below: loaded,
            line: 0,
        }
    } else {
        Phase::Flag {
            place,
            next: loaded,
        }
    }
}

/// What follows the load of the flag at `next` in the walk of the node at `place`.
fn after_flag(base: u64, place: u64, next: u64, is_set: bool) -> Phase
    requires { base < 2 ^ 64 - 1 }
    ensures { result ≡ after_flag base place next is_set }
{
    if is_set {
        Phase::Line {
            place,
            below: next,
            line: 0,
        }
    } else if next <= base + 1 {
        Phase::Line {
            place,
            below: base,
            line: 0,
        }
    } else {
        Phase::Flag {
            place,
            next: next - 1,
        }
    }
}

/// What follows the write-back of a line of an entry.
fn after_back(place: u64, below: u64, line: u64) -> Phase
    requires within { below ≤ place }
    requires line { line < 2 ^ 64 - 1 }
    ensures { result ≡ after_back place below line }
{
    if line + 1 <= place - below {
        Phase::Line {
            place,
            below,
            line: line + 1,
        }
    } else {
        Phase::Fence { place, below }
    }
}

/// The line of this number of the entry after this many others, whose last node is at this place.
fn line_of_entry(head: LogHead, before: u64, place: u64, nodes: &[Node], line: u64) -> Line
    requires format { (1 ≤ head.format) × (head.format ≤ 2) }
    requires threads { head.threads ≤ most_threads }
    requires fits { FitsEntry head.threads (record { place = place; nodes = nodes.now }) }
    requires before { before < 2 ^ 64 - 1 }
    requires line { line ≤ length nodes.now }
    ensures { result.w ≡ line_at (entry_lines head before (record { place = place; nodes = nodes.now })) line }
{
    if line == 0 {
        entry_head(head, before + 1, place, nodes)
    } else {
        node_line(nodes[(line - 1) as usize])
    }
}

impl<O: Object + Drop> Core<O> {
    /// The thread's next step is of another kind, and that's all the step does.
    fn turn(&mut self, thread: u64, phase: Phase)
        requires there { thread < length self.old.threads }
        requires time { self.old.clock < 2 ^ 64 - 1 }
        requires step { IfSome (slice_get self.old.threads thread)
            (λ th. step_of O.means self.old thread ≡ put self.old thread (turned th phase)) }
        ensures { self.new ≡ step_of O.means self.old thread }
    {
        let worker = &mut self.workers[thread as usize];
        worker.turn(phase);
        self.clock += 1;
    }

    /// The thread begins its next call.
    fn begin(&mut self, thread: u64, phase: Phase)
        requires there { thread < length self.old.threads }
        requires time { self.old.clock < 2 ^ 64 - 1 }
        requires step { IfSome (slice_get self.old.threads thread)
            (λ th. step_of O.means self.old thread ≡ put self.old thread (begun th self.old.clock phase)) }
        ensures { self.new ≡ step_of O.means self.old thread }
    {
        let now = self.clock;
        let worker = &mut self.workers[thread as usize];
        worker.begin(now, phase);
        self.clock += 1;
    }

    /// An update loads the tail.
    fn load_tail(&mut self, thread: u64)
        requires there { thread < length self.old.threads }
        requires time { self.old.clock < 2 ^ 64 - 1 }
        requires next { IsUpdating self.old thread phases.Idle }
        ensures { self.new ≡ step_of O.means self.old thread }
    {
        let loaded = self.trace.len() as u64;
        self.begin(thread, Phase::Exchange { loaded });
    }

    /// An update whose exchange was lost loads the tail again.
    fn load_again(&mut self, thread: u64, before: u64)
        requires there { thread < length self.old.threads }
        requires time { self.old.clock < 2 ^ 64 - 1 }
        requires next { IsUpdating self.old thread (phases.Tail before) }
        ensures { self.new ≡ step_of O.means self.old thread }
    {
        let loaded = self.trace.len() as u64;
        self.turn(thread, Phase::Exchange { loaded });
    }

    /// An update's exchange is won where the tail is as loaded, and else lost.
    fn exchange(&mut self, thread: u64, op: O::Op, loaded: u64)
        requires there { thread < length self.old.threads }
        requires time { self.old.clock < 2 ^ 64 - 1 }
        requires next { IsNext self.old thread (Update op) (phases.Exchange loaded) }
        ensures { self.new ≡ step_of O.means self.old thread }
    {
        if self.trace.len() as u64 == loaded {
            self.link(thread, op, loaded);
        } else {
            self.turn(thread, Phase::Tail { loaded });
        }
    }

    /// The thread's node becomes the newest.
    fn link(&mut self, thread: u64, op: O::Op, loaded: u64)
        requires there { thread < length self.old.threads }
        requires time { self.old.clock < 2 ^ 64 - 1 }
        requires next { IsNext self.old thread (Update op) (phases.Exchange loaded) }
        requires same { length self.old.trace ≡ loaded }
        ensures { self.new ≡ step_of O.means self.old thread }
    {
        let phase = after_exchange(self.base, loaded);
        let local = &mut self.locals[thread as usize];
        local.linked += 1;
        let node = Node {
            thread,
            number: local.linked,
            row: O::op_row(op),
        };
        self.trace.push_reserved(node);
        self.flags.push_reserved(false);
        let worker = &mut self.workers[thread as usize];
        worker.turn(phase);
        self.clock += 1;
    }

    /// An update's walk loads a flag.
    fn walk(&mut self, thread: u64, place: u64, next: u64)
        requires there { thread < length self.old.threads }
        requires time { self.old.clock < 2 ^ 64 - 1 }
        requires next { IsUpdating self.old thread (phases.Flag place next) }
        ensures { self.new ≡ step_of O.means self.old thread }
    {
        let is_set = is_available(&self.flags, next);
        let phase = after_flag(self.base, place, next, is_set);
        self.turn(thread, phase);
    }

    /// The line of this number of the entry that the thread writes.
    fn entry_line(&self, thread: u64, place: u64, below: u64, line: u64) -> Line
        requires there { thread < length self.now.threads }
        requires next { IsUpdating self.now thread (phases.Line place below line) }
        ensures { IfSome (slice_get self.now.threads thread) (λ th. result.w ≡ line_of_entry th self.now.trace place below line) }
    {
        let worker = &self.workers[thread as usize];
        let nodes = window(&self.trace, below, place);
        line_of_entry(worker.head(), worker.logged(), place, nodes, line)
    }

    /// A line of the entry is written.
    fn write_line(&mut self, thread: u64, place: u64, below: u64, line: u64)
        requires there { thread < length self.old.threads }
        requires time { self.old.clock < 2 ^ 64 - 1 }
        requires next { IsUpdating self.old thread (phases.Line place below line) }
        ensures { self.new ≡ step_of O.means self.old thread }
    {
        let value = self.entry_line(thread, place, below, line);
        let worker = &mut self.workers[thread as usize];
        worker.write(line, value, Phase::Back { place, below, line });
        self.clock += 1;
    }

    /// That line is written back.
    fn write_back(&mut self, thread: u64, place: u64, below: u64, line: u64)
        requires there { thread < length self.old.threads }
        requires time { self.old.clock < 2 ^ 64 - 1 }
        requires next { IsUpdating self.old thread (phases.Back place below line) }
        ensures { self.new ≡ step_of O.means self.old thread }
    {
        let phase = self.next_line(thread, place, below, line);
        let worker = &mut self.workers[thread as usize];
        worker.write_back(line, phase);
        self.clock += 1;
    }

    /// What follows the write-back of a line of the thread's entry.
    fn next_line(&self, thread: u64, place: u64, below: u64, line: u64) -> Phase
        requires { IsUpdating self.now thread (phases.Back place below line) }
        ensures { result ≡ after_back place below line }
    {
        let _ = &self.clock;
        after_back(place, below, line)
    }

    /// The log is fenced.
    fn fence(&mut self, thread: u64, place: u64, below: u64)
        requires there { thread < length self.old.threads }
        requires time { self.old.clock < 2 ^ 64 - 1 }
        requires next { IsUpdating self.old thread (phases.Fence place below) }
        ensures { self.new ≡ step_of O.means self.old thread }
    {
        let worker = &mut self.workers[thread as usize];
        worker.fence(place - below, Phase::Set { place, below });
        self.clock += 1;
    }

    /// The update's own flag is set, and it returns.
    fn set_flag(&mut self, thread: u64, op: O::Op, place: u64, below: u64)
        requires there { thread < length self.old.threads }
        requires time { self.old.clock < 2 ^ 64 - 1 }
        requires next { IsNext self.old thread (Update op) (phases.Set place below) }
        ensures { self.new ≡ step_of O.means self.old thread }
    {
        let local = &mut self.locals[thread as usize];
        let reply = local.reply_at(&self.trace, place, op);
        let worker = &mut self.workers[thread as usize];
        worker.put_returned(Returned {
            place,
            reply,
            began: worker.began(),
            ended: self.clock,
        });
        self.flags[(place - 1) as usize] = true;
        self.clock += 1;
    }

    /// A read that began at this moment is answered at a place, which is all that the step does.
    fn answer(&mut self, thread: u64, query: O::Query, place: u64, began: u64)
        requires there { thread < length self.old.threads }
        requires time { self.old.clock < 2 ^ 64 - 1 }
        requires step { IfSome (slice_get self.old.threads thread)
            (λ th. step_of O.means self.old thread ≡ answered O.means self.old thread th began place query) }
        requires unseen { IfSome (slice_get self.old.threads thread) (λ th. seen_in self.old.base th.returned ≤ place) }
        requires within { place ≤ length self.old.trace }
        requires running { IfSome (slice_get self.old.threads thread) (λ th. length th.returned < length th.script) }
        ensures { self.new ≡ step_of O.means self.old thread }
    {
        let local = &mut self.locals[thread as usize];
        let reply = local.answer_at(&self.trace, place, query);
        let worker = &mut self.workers[thread as usize];
        worker.put_returned(Returned {
            place,
            reply,
            began,
            ended: self.clock,
        });
        self.clock += 1;
    }

    /// A read loads the tail, and returns where no node stands above the base.
    fn begin_read(&mut self, thread: u64, query: O::Query)
        requires there { thread < length self.old.threads }
        requires time { self.old.clock < 2 ^ 64 - 1 }
        requires next { IsNext self.old thread (Ask query) phases.Idle }
        ensures { self.new ≡ step_of O.means self.old thread }
    {
        let front = self.trace.len() as u64;
        let (base, now) = (self.base, self.clock);
        if front <= base {
            self.answer(thread, query, base, now);
        } else {
            self.begin(thread, Phase::Ask { front, next: front });
        }
    }

    /// A read loads a flag, and returns where it is set, or unset at the first place above the base.
    fn look(&mut self, thread: u64, query: O::Query, front: u64, next: u64)
        requires there { thread < length self.old.threads }
        requires time { self.old.clock < 2 ^ 64 - 1 }
        requires next { IsNext self.old thread (Ask query) (phases.Ask front next) }
        ensures { self.new ≡ step_of O.means self.old thread }
    {
        let began = self.began(thread);
        let base = self.base;
        if is_available(&self.flags, next) {
            self.answer(thread, query, next, began);
        } else if next <= base + 1 {
            self.answer(thread, query, base, began);
        } else {
            self.turn(
                thread,
                Phase::Ask {
                    front,
                    next: next - 1,
                },
            );
        }
    }

    /// The clock at the first step of a thread's running call.
    fn began(&self, thread: u64) -> u64
        requires { thread < length self.now.threads }
        ensures { IfSome (slice_get self.now.threads thread) (λ th. result ≡ th.began) }
    {
        self.workers[thread as usize].began()
    }

    /// The step of a thread that is about an update.
    pub(super) fn update(&mut self, thread: u64, op: O::Op, phase: Phase)
        requires there { thread < length self.old.threads }
        requires time { self.old.clock < 2 ^ 64 - 1 }
        requires next { IsNext self.old thread (Update op) phase }
        ensures { self.new ≡ step_of O.means self.old thread }
    {
        match phase {
            Phase::Idle => self.load_tail(thread),
            Phase::Tail { loaded } => self.load_again(thread, loaded),
            Phase::Exchange { loaded } => self.exchange(thread, op, loaded),
            Phase::Flag { place, next } => self.walk(thread, place, next),
            Phase::Line { place, below, line } => self.write_line(thread, place, below, line),
            Phase::Back { place, below, line } => self.write_back(thread, place, below, line),
            Phase::Fence { place, below } => self.fence(thread, place, below),
            Phase::Set { place, below } => self.set_flag(thread, op, place, below),
            Phase::Ask { .. } => {}
        }
    }

    /// The step of a thread that is about a read.
    pub(super) fn ask(&mut self, thread: u64, query: O::Query, phase: Phase)
        requires there { thread < length self.old.threads }
        requires time { self.old.clock < 2 ^ 64 - 1 }
        requires next { IsNext self.old thread (Ask query) phase }
        ensures { self.new ≡ step_of O.means self.old thread }
    {
        match phase {
            Phase::Idle => self.begin_read(thread, query),
            Phase::Ask { front, next } => self.look(thread, query, front, next),
            _ => {}
        }
    }
}
