//! A buyer, who draws tickets and says each draw once it is durable.

ghost use Rattle.std.specs.Prelude.{ℕ, ◌+◌, ◌≡◌};
ghost use Rattle.onll_tickets.specs.Sales.{HasDrawn, is_good, one_drawn, took};

use crate::tickets::{TicketOp, TicketReply, Tickets};
use onll_pmem::Pmem;
use onll_rows::Plain;
use onll_serve::Reported;
use onll_shared::UpdateFault;
use onll_threads::{Begun, Seat, Work};
use std::fmt;
use std::sync::Wait;

/// Why a buyer ended.
#[derive(Clone, Copy, Debug, PartialEq, Eq)]
pub enum Ending {
    /// It has as many tickets as it wanted.
    Bought,
    /// There are too few tickets left.
    SoldOut,
    /// Its log is full.
    Full,
    /// A fence failed: the last draw may be lost.
    Broken,
    /// A draw could not be said.
    NotSaid,
}

impl fmt::Display for Ending {
    fn fmt<W: fmt::Write>(&self, f: &mut fmt::Formatter<W>) -> fmt::Result {
        f.write_str(match self {
            Ending::Bought => "has all",
            Ending::SoldOut => "sold out",
            Ending::Full => "its log is full",
            Ending::Broken => "a fence failed",
            Ending::NotSaid => "could not say it",
        })
    }
}

/// What a buyer did.
#[derive(Clone, Copy, Debug, PartialEq, Eq)]
pub struct Bought {
    pub drawn: u64,
    pub ending: Ending,
}

impl fmt::Display for Bought {
    fn fmt<W: fmt::Write>(&self, f: &mut fmt::Formatter<W>) -> fmt::Result {
        write!(f, "drew {}, {}", self.drawn, self.ending)
    }
}

impl Reported for Bought {
    ghost good = { λ b. is_good b.ending };

    fn is_good(&self) -> bool {
        matches!(self.ending, Ending::Bought | Ending::SoldOut)
    }
}

/// Who draws tickets, one at a time, so many at most.
#[derive(Drop)]
pub struct Buyer<'a, R: Wait> {
    pub rt: &'a R,
    pub most: u16,
}

/// Whether a draw lets a buyer go on.
fn goes_on(drawn: Result<TicketReply, UpdateFault>) -> Result<(), Ending>
    ensures { one_drawn result ≡ took drawn }
{
    match drawn {
        Ok(TicketReply::Drawn) => Ok(()),
        Ok(TicketReply::SoldOut) => Err(Ending::SoldOut),
        Ok(TicketReply::Left(_)) => Err(Ending::SoldOut),
        Err(UpdateFault::NodesFull) => Err(Ending::Full),
        Err(UpdateFault::LogFull { .. }) => Err(Ending::Full),
        Err(UpdateFault::FenceFailed { .. }) => Err(Ending::Broken),
        Err(UpdateFault::Broken { .. }) => Err(Ending::Broken),
    }
}

/// Draws one ticket.
fn draw_one<R: Wait, P: Pmem, B: Begun<Plain<Tickets>, P>>(
    rt: &R,
    seat: &mut Seat<'_, Plain<Tickets>, P, B>,
) -> Result<(), Ending>
    ensures { (n : ℕ) → HasDrawn P.means B.first n seat.old → HasDrawn P.means B.first (n + one_drawn result) seat.new }
{
    goes_on(seat.update(rt, TicketOp::Draw { count: 1 }))
}

impl<'a, R: Print + Wait + Sync> Work<Plain<Tickets>> for Buyer<'a, R> {
    ghost use Rattle.onll_tickets.specs.Selling.{says_drawn};

    type Answer = Bought;

    ghost promise = { says_drawn };

    fn work<P: Pmem, B: Begun<Plain<Tickets>, P>>(
        &mut self,
        seat: &mut Seat<'_, Plain<Tickets>, P, B>,
    ) -> Bought {
        for drawn in 0..self.most {
            if let Err(ending) = draw_one(self.rt, seat) {
                let drawn = drawn as u64;
                return Bought { drawn, ending };
            }
            let (thread, place) = (seat.thread(), seat.place());
            if println!(self.rt; "drawn {thread} {place}").is_err() {
                let drawn = drawn as u64 + 1;
                let ending = Ending::NotSaid;
                return Bought { drawn, ending };
            }
        }
        Bought {
            drawn: self.most as u64,
            ending: Ending::Bought,
        }
    }
}
