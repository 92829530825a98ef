//! The steps of threads, one after the other.

ghost use Rattle.std.specs.Prelude.{◌≡◌, ◌+◌, ◌-◌, ◌^◌, ◌<◌, ◌≤◌, length, sum_by, Some, None, slice_get, IfSome, ◌↔◌, replicate};
ghost use Rattle.std.specs.List.{All};
ghost use Rattle.onll_model.specs.declared.call.Call.TheVariants.{Update, Ask};
ghost use Rattle.onll_core.specs.declared.returned.Stepped.TheVariants as stepped;
ghost use Rattle.onll_core.specs.Step.{next_call, step_of, steps_of};
ghost use Rattle.onll_core.specs.Turns.{turns_of};

use super::Core;
use crate::returned::Stepped;
use onll_model::{Call, Object, Turn};

impl<O: Object + Drop> Core<O> {
    /// One step of a thread.
    pub fn step(&mut self, thread: u64) -> Stepped
        requires there { thread < length self.old.threads }
        requires time { self.old.clock < 2 ^ 64 - 1 }
        ensures step { self.new ≡ step_of O.means self.old thread }
        ensures clock { self.new.clock ≤ self.old.clock + 1 }
        ensures threads { length self.new.threads ≡ length self.old.threads }
        ensures done { IfSome (slice_get self.old.threads thread) (λ th. (result ≡ stepped.Done) ↔ (next_call th ≡ None)) }
    {
        let worker = &self.workers[thread as usize];
        let phase = worker.phase();
        match worker.next_call() {
            None => return Stepped::Done,
            Some(Call::Update(op)) => self.update(thread, op, phase),
            Some(Call::Ask(query)) => self.ask(thread, query, phase),
        }
        Stepped::Step
    }

    /// This many steps of a thread. Once its script is at its end the others change nothing.
    fn run(&mut self, thread: u64, count: u64)
        requires there { thread < length self.old.threads }
        requires time { self.old.clock + count < 2 ^ 64 }
        ensures steps { self.new ≡ steps_of O.means self.old (replicate count thread) }
        ensures clock { self.new.clock ≤ self.old.clock + count }
        ensures threads { length self.new.threads ≡ length self.old.threads }
    {
        for i in 0..count {
            match self.step(thread) {
                Stepped::Step => {}
                Stepped::Done => return,
            }
        }
    }

    /// The steps of turns, in order.
    pub fn play(&mut self, turns: &[Turn])
        requires there { All (λ turn. turn.thread < length self.old.threads) turns.now }
        requires time { self.old.clock + sum_by (λ turn. turn.count) turns.now < 2 ^ 64 }
        ensures steps { self.new ≡ steps_of O.means self.old (turns_of turns.now) }
        ensures clock { self.new.clock ≤ self.old.clock + sum_by (λ turn. turn.count) turns.now }
        ensures threads { length self.new.threads ≡ length self.old.threads }
    {
        for turn in turns {
            self.run(turn.thread, turn.count);
        }
    }
}
