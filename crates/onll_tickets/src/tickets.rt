//! Tickets, of which each is drawn once.

ghost use Rattle.onll_tickets.specs.Tickets.{tickets};

use onll_rows::PlainState;
use std::alloc::{AllocError, Global};

/// What changes the tickets.
#[derive(Clone, Copy, Debug, PartialEq, Eq)]
pub enum TicketOp {
    /// Draws so many, all or none.
    Draw { count: u64 },
}

/// What is asked: how many tickets are left.
#[derive(Clone, Copy, Debug, PartialEq, Eq)]
pub struct TicketQuery;

#[derive(Clone, Copy, Debug, PartialEq, Eq)]
pub enum TicketReply {
    Drawn,
    SoldOut,
    Left(u64),
}

/// The tickets that are left.
#[derive(Clone, Copy)]
pub struct Tickets {
    pub left: u64,
}

impl PlainState for Tickets {
    type Op = TicketOp;

    type Query = TicketQuery;

    type Reply = TicketReply;

    ghost sketch = { tickets };

    fn apply(&mut self, TicketOp::Draw { count }: TicketOp) -> TicketReply {
        if count > self.left {
            return TicketReply::SoldOut;
        }
        self.left -= count;
        TicketReply::Drawn
    }

    fn ask(&self, _query: TicketQuery) -> TicketReply {
        TicketReply::Left(self.left)
    }

    fn op_words(TicketOp::Draw { count }: TicketOp) -> [u64; 7] {
        [1, count, 0, 0, 0, 0, 0]
    }

    fn op_of(words: [u64; 7]) -> Option<TicketOp> {
        Some(TicketOp::Draw { count: words[1] })
    }

    fn describe(&self, alloc: Global) -> Result<String, AllocError> {
        format!(in alloc; "tickets {}", self.left)
    }
}
