//! The stock of a shop: items of one kind, which are sold and put back.

ghost use Rattle.onll_stock.specs.Stock.{stock};

use onll_rows::PlainState;
use std::alloc::{AllocError, Global};

/// What changes a stock.
#[derive(Clone, Copy, Debug, PartialEq, Eq)]
pub enum StockOp {
    /// Sells so many items, all or none.
    Sell { count: u64 },
    /// Puts so many items into the stock, all or none.
    Restock { count: u64 },
}

/// What a stock is asked: how many items are left.
#[derive(Clone, Copy, Debug, PartialEq, Eq)]
pub struct StockQuery;

/// What a stock replies. There are at most `2^64 - 1` items.
#[derive(Clone, Copy, Debug, PartialEq, Eq)]
pub enum StockReply {
    Sold,
    TooFew,
    Restocked,
    TooMany,
    Items(u64),
}

/// The items that are left.
#[derive(Clone, Copy)]
pub struct Stock {
    pub left: u64,
}

impl PlainState for Stock {
    type Op = StockOp;

    type Query = StockQuery;

    type Reply = StockReply;

    ghost sketch = { stock };

    fn apply(&mut self, op: StockOp) -> StockReply {
        match op {
            StockOp::Sell { count } if self.left < count => StockReply::TooFew,
            StockOp::Sell { count } => {
                self.left -= count;
                StockReply::Sold
            }
            StockOp::Restock { count } if count > u64::MAX - self.left => StockReply::TooMany,
            StockOp::Restock { count } => {
                self.left += count;
                StockReply::Restocked
            }
        }
    }

    fn ask(&self, _query: StockQuery) -> StockReply {
        StockReply::Items(self.left)
    }

    fn op_words(op: StockOp) -> [u64; 7] {
        match op {
            StockOp::Sell { count } => [1, count, 0, 0, 0, 0, 0],
            StockOp::Restock { count } => [2, count, 0, 0, 0, 0, 0],
        }
    }

    fn op_of(words: [u64; 7]) -> Option<StockOp> {
        match words[0] {
            1 => Some(StockOp::Sell { count: words[1] }),
            _ => Some(StockOp::Restock { count: words[1] }),
        }
    }

    fn describe(&self, alloc: Global) -> Result<String, AllocError> {
        format!(in alloc; "stock {}", self.left)
    }
}
