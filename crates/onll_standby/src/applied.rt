//! The object, and how far it follows.

ghost use Rattle.std.specs.Prelude.{◌≡◌, ℕ, ◌+◌, ◌-◌, ◌<◌, ◌≤◌, ◌^◌, List, [], length, IfOk, MatchResult};
ghost use Rattle.onll_model.specs.Limits.{most_threads};

use crate::fault::FeedFault;
use crate::places::Places;
use onll_model::{Node, Object};

/// The object after the nodes of the places up to `followed`, and how many of these each thread has.
#[derive(Drop)]
pub struct Applied<O: Object> {
    pub object: O,
    pub followed: u64,
    pub counts: [u64; 16],
}

impl<O: Object> Applied<O> {
    ghost use Rattle.onll_model.specs.declared.node.Node.{Node};
    ghost use Rattle.onll_standby.specs.Applied.{StandsAfter, IsFollowed, IsNotFollowed, HasAdvanced};

    /// At place 0.
    pub fn new(object: O) -> Applied<O>
        ensures { StandsAfter O.means object [] result }
    {
        Applied {
            object,
            followed: 0,
            counts: [0; 16],
        }
    }

    /// Follows the node of the next place, where its number follows and its row is an operation.
    fn follow(&mut self, node: Node) -> Result<(), FeedFault>
        requires thread { node.thread < most_threads }
        requires room { self.old.followed < 2 ^ 64 - 1 }
        ensures step { IfOk result (λ _. self.new.followed ≡ self.old.followed + 1) }
        ensures followed { (start : O) (nodes : List Node) → StandsAfter O.means start nodes self.old
            → MatchResult result (λ _. IsFollowed O.means start nodes node self.new)
            (λ e. IsNotFollowed O.means start nodes node e self.new) }
    {
        let place = self.followed + 1;
        let thread = node.thread as usize;
        if node.number == 0 || node.number - 1 != self.counts[thread] {
            return Err(FeedFault::Stray { place });
        }
        match O::op_of_row(node.row) {
            Some(op) => {
                let _ = self.object.apply(op);
            }
            None => return Err(FeedFault::NotOp { place }),
        }
        self.counts[thread] = node.number;
        self.followed = place;
        Ok(())
    }

    /// Follows the nodes of the next places, as far as one is held.
    pub fn advance(&mut self, places: &Places) -> Result<(), FeedFault>
        ensures { (start : O) (nodes : List Node) (room : ℕ) → StandsAfter O.means start nodes self.old
            → length places.now ≤ length nodes + room
            → HasAdvanced O.means start nodes room places.now result self.new }
    {
        while let Some(node) = places.above(self.followed) {
            self.follow(node)?;
        }
        Ok(())
    }
}
