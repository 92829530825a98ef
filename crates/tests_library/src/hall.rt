//! A hall with three seats, which keeps that no more are taken.

ghost use Rattle.tests_library.specs.Hall.{gives_seat, hall, has_seats, is_seat, still_has};

use onll_keeps::PlainKeeps;
use onll_rows::{Plain, PlainState};
use std::alloc::{AllocError, Global};

#[derive(Clone, Copy, Debug, PartialEq, Eq)]
pub enum HallOp {
    Take,
}

#[derive(Clone, Copy, Debug, PartialEq, Eq)]
pub struct HallQuery;

#[derive(Clone, Copy, Debug, PartialEq, Eq)]
pub enum HallReply {
    Seat(u64),
    Full,
    Taken(u64),
}

/// How many seats are taken.
#[derive(Clone, Copy, Debug, PartialEq, Eq)]
pub struct Hall {
    pub taken: u64,
}

impl PlainState for Hall {
    type Op = HallOp;

    type Query = HallQuery;

    type Reply = HallReply;

    ghost sketch = { hall };

    fn apply(&mut self, HallOp::Take: HallOp) -> HallReply {
        if self.taken < 3 {
            self.taken += 1;
            HallReply::Seat(self.taken)
        } else {
            HallReply::Full
        }
    }

    fn ask(&self, _query: HallQuery) -> HallReply {
        HallReply::Taken(self.taken)
    }

    fn op_words(_op: HallOp) -> [u64; 7] {
        [1, 0, 0, 0, 0, 0, 0]
    }

    fn op_of(_words: [u64; 7]) -> Option<HallOp> {
        Some(HallOp::Take)
    }

    fn describe(&self, alloc: Global) -> Result<String, AllocError> {
        format!(in alloc; "hall {}", self.taken)
    }
}

impl PlainKeeps for Hall {
    ghost holds = { has_seats };

    ghost says = { is_seat };

    fn may_begin(object: &Plain<Hall>) -> bool {
        object.state().taken <= 3
    }

    ghost stays = { still_has };

    ghost told = { gives_seat };
}
