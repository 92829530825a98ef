//! What a thread does at its seat.

ghost use Rattle.std.specs.Prelude.{[], List};
ghost use Rattle.onll_model.specs.declared.call.Call.{Call as SomeCall};
ghost use Rattle.onll_model.specs.declared.call.CallEnd.{CallEnd as SomeEnd};
ghost use Rattle.onll_threads.specs.Seats.{Did, KeepsPromise};

use crate::seat::{Begun, Seat};
use onll_model::Object;
use onll_pmem::Pmem;

/// What a thread does at its seat. It may decide each call after the replies to those before.
pub trait Work<O: Object> {
    /// What it gives back.
    type Answer: Send + Drop;

    // What it promises: of the work before and after, the calls that it made, their outcomes, and its answer. Reads, and updates at a
    // seat whose fence failed, may be left out of the calls.
    ghost promise: { Self → Self → List (SomeCall O O.Op O.Query O.Reply) → List (SomeEnd O O.Op O.Query O.Reply) → Self.Answer
        → Type 0 };

    /// Does it. A work that promises nothing ends with `seat.done()`.
    fn work<P: Pmem, B: Begun<O, P>>(&mut self, seat: &mut Seat<'_, O, P, B>) -> Self::Answer
        requires { Did O.means P.means B.first [] [] seat.old }
        ensures { KeepsPromise O.means P.means B.first (promise self.old self.new) seat.new result };
}
