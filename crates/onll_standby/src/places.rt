//! The nodes that are held, by their places.

ghost use Rattle.std.specs.Prelude.{◌≡◌, ℕ, ◌+◌, ◌<◌, ◌≤◌, length, None, IfOk, IfSome};
ghost use Rattle.std.specs.List.{All};
ghost use Rattle.onll_model.specs.Limits.{most_threads};
ghost use Rattle.onll_standby.specs.Held.{clash_among, greatest_place, is_alike};
ghost use Rattle.onll_standby.specs.Places.{held_at, with_nodes, IsOfRun, most_places};

use onll_model::{MOST_UPDATES, Node};
use onll_words::NoMemory;
use std::alloc::Global;
use std::marker::Model;

/// For each place, from 1 on, the node that is held there, if one is.
#[derive(Drop)]
pub struct Places {
    slots: Vec<Option<Node>>,
}

impl Model for Places {
    ghost use Rattle.std.specs.Prelude.{List, Option};
    ghost use Rattle.onll_model.specs.declared.node.Node.{Node};
    ghost use Rattle.onll_standby.specs.Places.{AreSlots};

    ghost Value = { List (Option Node) };

    ghost view = { λ s. s.slots.items };

    ghost invariant = { λ s. AreSlots s.slots.items };
}

/// Whether no other node than this one is held.
fn is_alike(held: Option<Node>, node: &Node) -> bool
    ensures { result ≡ is_alike held node.now }
{
    match held {
        Some(other) => *node == other,
        None => true,
    }
}

impl Places {
    /// The places of so many threads, at which no node is held. All memory for them is taken here: 80 bytes a place, 4,096
    /// places a thread.
    pub fn new(alloc: Global, threads: u64) -> Result<Places, NoMemory>
        requires { threads ≤ most_threads }
        ensures room { IfOk result (λ p. length p ≡ greatest_place threads) }
        ensures empty { IfOk result (λ p. (q : ℕ) → held_at p q ≡ None) }
    {
        let mut slots = Vec::new(alloc);
        slots.resize((MOST_UPDATES * threads) as usize, None)?;
        Ok(Places { slots })
    }

    /// The node of the place above this one.
    pub fn above(&self, place: u64) -> Option<Node>
        ensures node { result ≡ held_at self.now (place + 1) }
        ensures within { IfSome result (λ _. (place < length self.now) × (place < most_places)) }
        ensures of_run { IfSome result IsOfRun }
    {
        match self.slots.get(place as usize) {
            Some(slot) => *slot,
            None => None,
        }
    }

    /// The least place above this one, where these nodes are to stand, at which another one is held.
    pub fn clash(&self, below: u64, nodes: &[Node]) -> Option<u64>
        requires { below + length nodes.now ≤ most_places }
        ensures { result ≡ clash_among (held_at self.now) (below + 1) nodes.now }
    {
        let mut place = below;
        for node in nodes {
            if !is_alike(self.above(place), node) {
                return Some(place + 1);
            }
            place += 1;
        }
        None
    }

    /// Puts nodes at the places above this one.
    pub fn put(&mut self, below: u64, nodes: &[Node])
        requires room { below + length nodes.now ≤ length self.old }
        requires of_run { All IsOfRun nodes.now }
        ensures nodes { self.new ≡ with_nodes self.old below nodes.now }
        ensures long { length self.new ≡ length self.old }
    {
        let mut at = below as usize;
        for node in nodes {
            self.slots[at] = Some(*node);
            at += 1;
        }
    }
}
