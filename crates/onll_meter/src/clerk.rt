//! A clerk, who counts things and says each count once it is durable.

ghost use Rattle.std.specs.Prelude.{ℕ, ◌+◌, ◌≡◌};
ghost use Rattle.onll_meter.specs.Counting.{CountsOne, HasCounted, HasCountedOff, one_counted, total_said};

use crate::meter::{Meter, MeterOp, MeterQuery, MeterReply};
use onll_pmem::Pmem;
use onll_rows::Plain;
use onll_shared::UpdateFault;
use onll_threads::{Begun, Seat, Work};
use std::fmt;
use std::sync::Wait;

/// Why a clerk ended.
#[derive(Clone, Copy, Debug, PartialEq, Eq)]
pub enum Ending {
    /// It has counted all.
    Done,
    /// The meter is at its end.
    AtItsEnd,
    /// Its log is full.
    Full,
    /// A fence failed: the last count may be lost.
    Broken,
    /// A count could not be said.
    NotSaid,
}

impl fmt::Display for Ending {
    fn fmt<W: fmt::Write>(&self, f: &mut fmt::Formatter<W>) -> fmt::Result {
        f.write_str(match self {
            Ending::Done => "has counted all",
            Ending::AtItsEnd => "the meter is at its end",
            Ending::Full => "its log is full",
            Ending::Broken => "a fence failed",
            Ending::NotSaid => "could not say it",
        })
    }
}

/// What a clerk found at its end: how much was counted in all, and why it ended.
#[derive(Clone, Copy, Debug, PartialEq, Eq)]
pub struct Tally {
    pub total: u64,
    pub ending: Ending,
}

/// Who counts things, one at a time. It knows how many it has still to count, so that it goes on in the next era, and whether it could not
/// say one, so that it doesn't.
#[derive(Drop)]
pub struct Clerk<'a, R: Wait> {
    pub rt: &'a R,
    pub left: u64,
    pub silent: bool,
}

/// How much was counted with this count.
fn total_of(done: Result<MeterReply, UpdateFault>) -> Result<u64, Ending>
    ensures { result ≡ total_said done }
{
    match done {
        Ok(MeterReply::Counted(total)) => Ok(total),
        Ok(MeterReply::AtItsEnd) => Err(Ending::AtItsEnd),
        Err(UpdateFault::NodesFull) => Err(Ending::Full),
        Err(UpdateFault::LogFull { .. }) => Err(Ending::Full),
        Err(UpdateFault::FenceFailed { .. }) => Err(Ending::Broken),
        Err(UpdateFault::Broken { .. }) => Err(Ending::Broken),
    }
}

/// Counts one thing.
fn count_one<R: Wait, P: Pmem, B: Begun<Plain<Meter>, P>>(
    rt: &R,
    seat: &mut Seat<'_, Plain<Meter>, P, B>,
) -> Result<u64, Ending>
    ensures said { CountsOne P.means B.first seat.old seat.new result }
    ensures counted { (n : ℕ) → HasCounted P.means B.first n seat.old → HasCounted P.means B.first (n + one_counted result) seat.new }
{
    total_of(seat.update(rt, MeterOp::Count))
}

/// How much was counted in all.
pub fn total_at<P: Pmem, B: Begun<Plain<Meter>, P>>(seat: &mut Seat<'_, Plain<Meter>, P, B>) -> u64
    ensures { (n : ℕ) → HasCounted P.means B.first n seat.old → HasCounted P.means B.first n seat.new }
{
    match seat.read(MeterQuery) {
        MeterReply::Counted(total) => total,
        MeterReply::AtItsEnd => 0,
    }
}

impl<'a, R: Print + Wait> Clerk<'a, R> {
    /// Counts what is left, until all is counted or the seat is spent.
    fn count_all<P: Pmem, B: Begun<Plain<Meter>, P>>(
        &mut self,
        seat: &mut Seat<'_, Plain<Meter>, P, B>,
    ) -> Ending
        requires { HasCounted P.means B.first 0 seat.old }
        ensures { HasCountedOff P.means B.first self.old.left self.new.left seat.new }
    {
        if self.silent {
            return Ending::NotSaid;
        }
        let left = self.left;
        for counted in 0..left {
            let total = match count_one(self.rt, seat) {
                Ok(total) => total,
                Err(ending) => return ending,
            };
            self.left = left - counted - 1;
            let thread = seat.thread();
            if println!(self.rt; "counted {thread} {total}").is_err() {
                self.silent = true;
                return Ending::NotSaid;
            }
        }
        Ending::Done
    }
}

impl<'a, R: Print + Wait + Sync> Work<Plain<Meter>> for Clerk<'a, R> {
    ghost use Rattle.onll_meter.specs.Counting.{says_counted};

    type Answer = Tally;

    ghost promise = { says_counted };

    fn work<P: Pmem, B: Begun<Plain<Meter>, P>>(
        &mut self,
        seat: &mut Seat<'_, Plain<Meter>, P, B>,
    ) -> Tally {
        let ending = self.count_all(seat);
        let total = total_at(seat);
        Tally { total, ending }
    }
}
