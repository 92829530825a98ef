//! A customer, who buys boxes of items, decides by the last reply what comes next, and brings back what is too much.

ghost use Rattle.std.specs.Prelude.{◌+◌, ◌<◌, ◌^◌, ◌≡◌};
ghost use Rattle.onll_keeps.specs.Tallies.{back_of, out_of};
ghost use Rattle.onll_stock.specs.Sales.{HasDealt, is_good, most_put_in, put_in, taken};
ghost use Rattle.onll_stock.specs.Stock.{items_of};

use crate::stock::{Stock, StockOp, StockQuery, StockReply};
use onll_pmem::Pmem;
use onll_rows::Plain;
use onll_serve::Reported;
use onll_shared::UpdateFault::{self, FenceFailed};
use onll_threads::{Begun, Seat, Work};
use std::sync::Wait;
use thiserror::Error;

/// How a customer ended.
#[derive(Clone, Copy, Debug, PartialEq, Eq, Error)]
pub enum Ending {
    #[error("has all")]
    Content,
    #[error("sold out")]
    SoldOut,
    #[error("not taken back")]
    NotTaken,
    #[error("{0}")]
    NotDone(#[from] UpdateFault),
    #[error("not counted")]
    NotCounted,
    #[error("not said")]
    NotSaid,
}

/// What a customer did: how many items it bought, and brought back, those of a fence that failed among them, which may be lost.
#[derive(Clone, Copy, Debug, PartialEq, Eq, Error)]
#[error("bought {bought}, brought back {back}, {ending}")]
pub struct Deal {
    pub bought: u64,
    pub back: u64,
    pub ending: Ending,
}

impl Reported for Deal {
    ghost good = { λ d. is_good d.ending };

    fn is_good(&self) -> bool {
        matches!(self.ending, Ending::Content | Ending::SoldOut)
    }
}

/// Who buys boxes of so many items until it has what it needs, or none is left, and brings back what it has too much.
#[derive(Drop)]
pub struct Customer<'a, R: Wait> {
    pub rt: &'a R,
    pub needs: u64,
    pub of_box: u64,
}

impl Deal {
    /// Counts an update that ended so.
    fn count(&mut self, op: StockOp, done: Result<StockReply, UpdateFault>)
        requires bought { self.old.bought + items_of op < 2 ^ 64 }
        requires back { self.old.back + items_of op < 2 ^ 64 }
        ensures bought { self.new.bought ≡ self.old.bought + out_of taken op done }
        ensures back { self.new.back ≡ self.old.back + back_of put_in most_put_in op done }
    {
        match (op, done) {
            (StockOp::Sell { count }, Ok(StockReply::Sold)) => self.bought += count,
            (StockOp::Restock { count }, Ok(StockReply::Restocked)) => self.back += count,
            (StockOp::Restock { count }, Err(FenceFailed { .. })) => self.back += count,
            _ => {}
        }
    }
}

impl<'a, R: Print + Wait> Customer<'a, R> {
    /// Changes the stock, counts that, and says the reply.
    fn change<P: Pmem, B: Begun<Plain<Stock>, P>>(
        &self,
        seat: &mut Seat<'_, Plain<Stock>, P, B>,
        deal: &mut Deal,
        op: StockOp,
    ) -> Result<StockReply, Ending>
        requires { HasDealt P.means B.first deal.old seat.old }
        ensures { HasDealt P.means B.first deal.new seat.new }
    {
        let (StockOp::Sell { count } | StockOp::Restock { count }) = op;
        if count > u64::MAX - deal.bought || count > u64::MAX - deal.back {
            return Err(Ending::NotCounted);
        }
        let done = seat.update(self.rt, op);
        deal.count(op, done);
        let (reply, thread, place) = (done?, seat.thread(), seat.place());
        let said = println!(self.rt; "{place}: customer {thread}: {reply:?} {count}");
        said.or(Err(Ending::NotSaid))?;
        Ok(reply)
    }

    /// Buys until it has what it needs, each time a box, or what is left where that is less; and brings back what is too much.
    fn visit<P: Pmem, B: Begun<Plain<Stock>, P>>(
        &self,
        seat: &mut Seat<'_, Plain<Stock>, P, B>,
        deal: &mut Deal,
    ) -> Result<(), Ending>
        requires { HasDealt P.means B.first deal.old seat.old }
        ensures { HasDealt P.means B.first deal.new seat.new }
    {
        let mut count = self.of_box;
        for _turn in 0..u64::MAX {
            let has = deal.bought.saturating_sub(deal.back);
            let op = match has.checked_sub(self.needs) {
                None => StockOp::Sell { count },
                Some(0) => return Ok(()),
                Some(count) => StockOp::Restock { count },
            };
            match self.change(seat, deal, op)? {
                StockReply::TooFew => match seat.read(StockQuery) {
                    StockReply::Items(left) if left > 0 => count = left.min(count),
                    _ => return Err(Ending::SoldOut),
                },
                StockReply::TooMany => return Err(Ending::NotTaken),
                _ => {}
            }
        }
        Ok(())
    }
}

impl<'a, R: Print + Wait + Sync> Work<Plain<Stock>> for Customer<'a, R> {
    ghost use Rattle.onll_stock.specs.Sales.{says_dealt};

    type Answer = Deal;

    ghost promise = { says_dealt };

    fn work<P: Pmem, B: Begun<Plain<Stock>, P>>(
        &mut self,
        seat: &mut Seat<'_, Plain<Stock>, P, B>,
    ) -> Deal {
        let mut deal = Deal {
            bought: 0,
            back: 0,
            ending: Ending::Content,
        };
        let visited = self.visit(seat, &mut deal);
        deal.ending = visited.err().unwrap_or(Ending::Content);
        deal
    }
}
