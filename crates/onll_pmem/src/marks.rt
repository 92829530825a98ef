//! Marks that are mostly unset, of which only a front is held.

ghost use Rattle.std.specs.Prelude.{◌≡◌, ◌+◌, ◌-◌, ◌<◌, ◌≤◌, ◌++◌, false, length, replicate, slice_set, IfOk};
ghost use Rattle.std.specs.Vec.{vec_capacity};
ghost use Rattle.onll_pmem.specs.Device.{is_marked};

use std::alloc::{AllocError, Global};
use std::marker::Model;

/// Appends unset marks up to the one of this number.
fn fill(front: &mut Vec<bool>, mark: usize)
    requires behind { length front.old.items ≤ mark }
    requires room { mark < vec_capacity front.old }
    ensures marks { front.new.items ≡ front.old.items ++ replicate (mark + 1 - length front.old.items) false }
    ensures capacity { vec_capacity front.new ≡ vec_capacity front.old }
{
    while front.len() <= mark {
        front.push_reserved(false);
    }
}

/// This many marks, those after a front unset. Only making them takes memory, and none of it is written until a mark is set.
#[derive(Drop)]
pub struct Marks {
    front: Vec<bool>,
    count: usize,
}

impl Model for Marks {
    ghost use Rattle.std.specs.Prelude.{List, Bool, length};
    ghost use Rattle.std.specs.Vec.{vec_capacity};
    ghost use Rattle.onll_pmem.specs.Front.{marks_view, FitsRoom};

    ghost Value = { List Bool };

    ghost view = { λ m. marks_view m.front.items m.count };

    ghost invariant = { λ m. FitsRoom (length m.front.items) m.count (vec_capacity m.front) };
}

impl Marks {
    /// This many marks, none of them set.
    pub fn none(alloc: Global, count: usize) -> Result<Marks, AllocError>
        ensures { IfOk result (λ m. m ≡ replicate count false) }
    {
        Ok(Marks {
            front: Vec::with_capacity(alloc, count)?,
            count,
        })
    }

    pub fn len(&self) -> usize
        ensures { result ≡ length self.now }
    {
        self.count
    }

    /// Whether the mark of this number is set. None behind the last is.
    pub fn get(&self, mark: usize) -> bool
        ensures { result ≡ is_marked self.now mark }
    {
        mark < self.front.len() && self.front[mark]
    }

    pub fn set(&mut self, mark: usize, value: bool)
        requires { mark < length self.old }
        ensures { self.new ≡ slice_set self.old mark value }
    {
        if self.front.len() <= mark {
            fill(&mut self.front, mark);
        }
        self.front[mark] = value;
    }
}
