//! How far each thread of an object under one lock has come.

ghost use Rattle.std.specs.Prelude.{◌≡◌, ◌+◌, ◌<◌, [], None, length, IfOk};
ghost use Rattle.std.specs.Vec.{vec_capacity};
ghost use Rattle.onll_locked.specs.Locked.{first_thread, next_call, failed_at, own_places, EndHasNode, HasNoNode};
ghost use Rattle.onll_locked.specs.DoNext.{with_end};

use crate::ends::LockedEnd;
use onll_model::{Call, Object};
use onll_words::NoMemory;
use std::alloc::Global;
use std::marker::Model;

/// An empty list with room for this many.
pub fn with_room<T: Drop>(alloc: Global, count: usize) -> Result<Vec<T>, NoMemory>
    ensures { IfOk result (λ v. (v.items ≡ []) × (vec_capacity v ≡ count)) }
{
    Vec::with_capacity(alloc, count).map_err(|_| NoMemory)
}

/// How far a thread has come in its script.
#[derive(Drop)]
pub struct Progress<O: Object> {
    script: Vec<Call<O>>,
    ends: Vec<LockedEnd<O>>,
    /// How many of its updates have a place.
    ordered: u64,
    /// The place of its update whose fence failed.
    failed: Option<u64>,
}

impl<O: Object> Model for Progress<O> {
    ghost use Rattle.std.specs.Vec.{vec_capacity};
    ghost use Rattle.onll_locked.specs.Locked.{LockedThread};
    ghost use Rattle.onll_locked.specs.Kept.{KeepsProgress};

    ghost Value = { LockedThread O O.Op O.Query O.Reply };

    ghost view = { λ p. record { script = p.script.items; ends = p.ends.items } };

    ghost invariant = { λ p. KeepsProgress (vec_capacity p.ends) p.ordered p.failed
        (record { script = p.script.items; ends = p.ends.items }) };
}

impl<O: Object> Progress<O> {
    /// A thread that has done nothing, with room for the outcomes of all its calls.
    pub fn new(alloc: Global, script: Vec<Call<O>>) -> Result<Progress<O>, NoMemory>
        ensures { IfOk result (λ progress. progress ≡ first_thread script.items) }
    {
        let ends = with_room(alloc, script.len())?;
        Ok(Progress {
            script,
            ends,
            ordered: 0,
            failed: None,
        })
    }

    pub fn ends(&self) -> &[LockedEnd<O>]
        ensures { result.now ≡ self.now.ends }
    {
        &self.ends
    }

    pub fn ordered(&self) -> u64
        ensures { result ≡ length (own_places self.now) }
    {
        self.ordered
    }

    pub fn failed(&self) -> Option<u64>
        ensures { result ≡ failed_at self.now.ends }
    {
        self.failed
    }

    /// The next call of the script.
    pub fn next_call(&self) -> Option<Call<O>>
        ensures { result ≡ next_call self.now }
    {
        match self.script.get(self.ends.len()) {
            Some(Call::Update(op)) => Some(Call::Update(*op)),
            Some(Call::Ask(query)) => Some(Call::Ask(*query)),
            None => None,
        }
    }

    /// The next call, an update, has ended so, and has a node.
    pub fn order(&mut self, end: LockedEnd<O>)
        requires next { length self.old.ends < length self.old.script }
        requires node { EndHasNode (next_call self.old) end }
        requires whole { failed_at self.old.ends ≡ None }
        ensures { self.new ≡ with_end self.old end }
    {
        self.failed = end.failed();
        self.ends.push_reserved(end);
        self.ordered += 1;
    }

    /// The next call has ended so, and has no node.
    pub fn put(&mut self, end: LockedEnd<O>)
        requires next { length self.old.ends < length self.old.script }
        requires free { HasNoNode (next_call self.old) end }
        ensures { self.new ≡ with_end self.old end }
    {
        self.ends.push_reserved(end);
    }
}
