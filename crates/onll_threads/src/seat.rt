//! A thread's seat at a shared object: the object, the thread's pass of it, and what was done on the pass.

ghost use Rattle.std.specs.Prelude.{◌≡◌, ◌-◌, ◌+◌, [], ◌∷◌, length};
ghost use Rattle.onll_model.specs.declared.call.Call.TheVariants.{Ask as AskCall};
ghost use Rattle.onll_model.specs.declared.call.CallEnd.TheVariants.{Answered as AnsweredEnd};
ghost use Rattle.onll_shared.specs.Calls.{HasUpdated};
ghost use Rattle.onll_threads.specs.Acts.{HasReadSo, calls_of, ends_of, received, seen_in};
ghost use Rattle.onll_threads.specs.Seats.{ActsAt, HasCalled, HasReadFrom};

use crate::acts::{read_on, update_on};
use crate::stop::StopFlag;
use onll_model::Object;
use onll_pmem::Pmem;
use onll_shared::{Onll, Pass, UpdateFault};
use std::marker::{Brand, Model, PhantomData};
use std::sync::Wait;

/// What all seats of an object share: the object, and the flag by which works tell each other to end.
#[derive(Drop)]
pub struct Place<O: Object> {
    pub onll: Onll<O>,
    pub stop: StopFlag,
}

/// What a seat was at first, to contracts. Who begins a work picks it.
pub trait Begun<O, P> {
    ghost use Rattle.std.specs.Prelude.{Option};
    ghost use Rattle.onll_threads.specs.Acts.{SeatView};

    ghost first: { Option (SeatView O P) };
}

impl<O, P> Begun<O, P> for Brand {
    ghost use Rattle.std.specs.Prelude.{None};

    ghost first = { None };
}

/// A thread's seat at an object.
#[derive(Drop)]
pub struct Seat<'a, O: Object, P: Pmem, B: Begun<O, P>> {
    pub(crate) at: &'a Place<O>,
    pub(crate) pass: Pass<O, P>,
    pub(crate) of: PhantomData<B>,
}

impl<'a, O: Object, P: Pmem, B: Begun<O, P>> Model for Seat<'a, O, P, B> {
    ghost use Rattle.onll_threads.specs.Acts.{SeatView};
    ghost use Rattle.onll_threads.specs.Seats.{HasCalled};

    ghost Value = { SeatView O P };

    ghost view = { λ s. record { onll = s.at.now.onll; pass = s.pass } };

    ghost invariant = { λ s. HasCalled O.means P.means B.first (record { onll = s.at.now.onll; pass = s.pass }) };
}

impl<'a, O: Object, P: Pmem, B: Begun<O, P>> Seat<'a, O, P, B> {
    /// Updates the object, and gives its reply once the update is durable.
    pub fn update<R: Wait>(&mut self, rt: &R, op: O::Op) -> Result<O::Reply, UpdateFault>
        ensures same { self.new.onll ≡ self.old.onll }
        ensures updated { HasUpdated O.means P.means self.old.onll op self.old.pass self.new.pass
            (received (seen_in self.new.pass) result) }
        ensures acts { ActsAt O.means P.means B.first (calls_of op result) (ends_of (seen_in self.new.pass) result) self.old self.new }
    {
        update_on(rt, self.at, &mut self.pass, op)
    }

    /// Answers a query at the newest place that is durable.
    pub fn read(&mut self, query: O::Query) -> O::Reply
        ensures same { self.new.onll ≡ self.old.onll }
        ensures read { HasReadSo O.means P.means self.old.onll query self.old.pass self.new.pass result }
        ensures acts { ActsAt O.means P.means B.first (AskCall query ∷ []) (AnsweredEnd result (seen_in self.new.pass) ∷ [])
            self.old self.new }
    {
        read_on(self.at, &mut self.pass, query)
    }

    /// Answers a query as `read` does, and gives the reply where it was answered at this place or after it; nothing where the place is
    /// not durable yet. Either way the seat has seen where it was answered, and its later calls stand there or after. So who is told a
    /// place by another thread hears it, and each call that follows stands after what that thread did.
    pub fn hear(&mut self, place: u64, query: O::Query) -> Option<O::Reply>
        ensures same { self.new.onll ≡ self.old.onll }
        ensures heard { HasReadFrom O.means P.means B.first place query self.old self.new result }
    {
        let reply = self.read(query);
        if place <= self.place() {
            Some(reply)
        } else {
            None
        }
    }

    /// The greatest place that the thread has seen: after a call that was answered, the place of its answer.
    pub fn place(&self) -> u64
        ensures { result ≡ seen_in self.now.pass }
    {
        self.pass.seen()
    }

    /// The thread's number.
    pub fn thread(&self) -> u64
        ensures { result ≡ self.now.pass.spot.me.thread }
    {
        self.pass.thread()
    }

    /// How many more updates the seat may order. No update is ordered where a fence has failed.
    pub fn room(&self) -> u64
        ensures { length self.now.pass.spot.me.own + result ≡ self.now.pass.room }
    {
        self.pass.room() - self.pass.ordered()
    }

    /// The place of the update whose fence failed. That update may be lost or not, and no other is ordered at this seat.
    pub fn broken(&self) -> Option<u64>
        ensures { result ≡ self.now.pass.broken }
    {
        self.pass.broken()
    }

    /// Tells all works to end, as far as they look whether they are to.
    pub fn stop(&self) {
        self.at.stop.raise();
    }

    /// Whether a work has told all to end.
    pub fn is_stopping(&self) -> bool {
        self.at.stop.is_raised()
    }

    /// Does nothing. It tells that there are calls that were made at this seat since it began.
    pub fn done(&self)
        ensures { HasCalled O.means P.means B.first self.now }
    {
        let _ = &self.at;
    }
}
