//! A meter: how much was ever counted.

ghost use Rattle.onll_meter.specs.Meter.{meter, meter_of};

use onll_live::PlainSaved;
use onll_rows::{Plain, PlainState};
use std::alloc::{AllocError, Global};

/// What changes the meter: one thing is counted.
#[derive(Clone, Copy, Debug, PartialEq, Eq)]
pub enum MeterOp {
    Count,
}

/// What is asked: how much was counted.
#[derive(Clone, Copy, Debug, PartialEq, Eq)]
pub struct MeterQuery;

/// A count's reply is how much was counted with it, so no two have the same.
#[derive(Clone, Copy, Debug, PartialEq, Eq)]
pub enum MeterReply {
    Counted(u64),
    AtItsEnd,
}

/// How much was counted.
#[derive(Clone, Copy)]
pub struct Meter {
    pub count: u64,
}

impl PlainState for Meter {
    type Op = MeterOp;

    type Query = MeterQuery;

    type Reply = MeterReply;

    ghost sketch = { meter };

    fn apply(&mut self, _op: MeterOp) -> MeterReply {
        if self.count >= u64::MAX {
            return MeterReply::AtItsEnd;
        }
        self.count += 1;
        MeterReply::Counted(self.count)
    }

    fn ask(&self, _query: MeterQuery) -> MeterReply {
        MeterReply::Counted(self.count)
    }

    fn op_words(_op: MeterOp) -> [u64; 7] {
        [1, 0, 0, 0, 0, 0, 0]
    }

    fn op_of(_words: [u64; 7]) -> Option<MeterOp> {
        Some(MeterOp::Count)
    }

    fn describe(&self, alloc: Global) -> Result<String, AllocError> {
        format!(in alloc; "meter {}", self.count)
    }
}

impl PlainSaved for Meter {
    ghost state_of = { meter_of };

    fn words(meter: &Plain<Meter>) -> [u64; 8] {
        [meter.state().count, 0, 0, 0, 0, 0, 0, 0]
    }

    fn of_words(words: [u64; 8]) -> Option<Plain<Meter>> {
        Some(Plain::of(Meter { count: words[0] }))
    }
}
