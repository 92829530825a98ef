//! A standby, which follows a stream by its bytes.

ghost use Rattle.std.specs.Prelude.{◌≡◌, ℕ, ◌+◌, ◌-◌, ◌<◌, ◌≤◌, ◌^◌, ◌++◌, List, [], length, take, drop, None, Err, OnOk, IfOk};
ghost use Rattle.onll_log.specs.declared.head.LogHead.{LogHead};
ghost use Rattle.onll_model.specs.Trace.{state_after};
ghost use Rattle.onll_standby.specs.declared.fault.FeedFault.{FeedFault};
ghost use Rattle.onll_standby.specs.Stream.{AreStreamHeads, course};

use crate::fault::FeedFault;
use crate::follower::Follower;
use crate::part::PartLine;
use crate::places::Places;
use onll_log::LogHead;
use onll_model::Object;
use onll_words::NoMemory;
use std::alloc::Global;
use std::marker::Model;

/// A second copy of an object that follows the logs of the first.
#[derive(Drop)]
pub struct Standby<O: Object> {
    follower: Follower<O>,
    part: PartLine,
    taken: u64,
}

impl<O: Object> Model for Standby<O> {
    ghost use Rattle.onll_standby.specs.Standby.{StandbyState, IsCounted};

    ghost Value = { StandbyState O O.Op O.Query O.Reply };

    ghost view = { λ s. record { follower = s.follower; part = s.part; taken = s.taken } };

    ghost invariant = { λ s. IsCounted s.follower s.part s.taken };
}

/// The bytes from this one on.
fn rest_from(piece: &[u8], at: usize) -> &[u8]
    requires { at ≤ length piece.now }
    ensures { result.now ≡ drop at piece.now }
{
    let (_, rest) = piece.split_at(at);
    rest
}

impl<O: Object + Drop> Standby<O> {
    ghost use Rattle.onll_standby.specs.Standby.{IsFed};

    /// A standby that begins from an object, and expects the logs of these heads: of format 2, one for each thread in order. It
    /// refuses for want of memory alone, and takes all of its memory here: 80 bytes for each of 4,096 places a thread.
    pub fn begin(alloc: Global, object: O, heads: Vec<LogHead>) -> Result<Standby<O>, NoMemory>
        requires { AreStreamHeads heads.items }
        ensures { IfOk result (λ s. IsFed O.means object heads.items [] s) }
    {
        let places = Places::new(alloc, heads.len() as u64)?;
        Ok(Standby {
            follower: Follower::new(object, heads, places),
            part: PartLine::new(),
            taken: 0,
        })
    }
}

impl<O: Object> Standby<O> {
    ghost use Rattle.onll_standby.specs.Standby.{HasFollowed, IsFed, HasFault, TakesBytes, TakesPiece};

    /// How many bytes of the stream were taken.
    pub fn taken(&self) -> u64
        ensures count { result ≡ self.now.taken }
        ensures so { (start : O) (heads : List LogHead) (bytes : List ℕ) → HasFollowed O.means start heads bytes self.now
            → result ≡ length bytes }
    {
        self.taken
    }

    /// How many entries are held. That of a fault is not.
    pub fn held(&self) -> u64
        ensures { (start : O) (heads : List LogHead) (bytes : List ℕ) → HasFollowed O.means start heads bytes self.now
            → result ≡ length (course O.means heads bytes).entries }
    {
        self.follower.holdings.held
    }

    /// The greatest place up to which each place is followed; after the fault of a node it is the place below that node.
    pub fn followed(&self) -> u64
        ensures { (start : O) (heads : List LogHead) (bytes : List ℕ) → HasFollowed O.means start heads bytes self.now
            → result ≡ length (course O.means heads bytes).nodes }
    {
        self.follower.holdings.applied.followed
    }

    /// The object after the nodes of the places up to that one.
    pub fn state(&self) -> &O
        ensures { (start : O) (heads : List LogHead) (bytes : List ℕ) → HasFollowed O.means start heads bytes self.now
            → result.now ≡ state_after O.means start (course O.means heads bytes).nodes }
    {
        &self.follower.holdings.applied.object
    }

    /// Takes the bytes that complete the line, and says how many they are.
    fn take_line(&mut self, rest: &[u8]) -> Result<usize, FeedFault>
        requires enough { 64 ≤ length self.old.part + length rest.now }
        requires few { self.old.taken + length rest.now < 2 ^ 64 }
        requires fault { self.old.follower.fault ≡ None }
        ensures count { IfOk result (λ n. n + length self.old.part ≡ 64) }
        ensures some { IfOk result (λ n. 1 ≤ n) }
        ensures clear { OnOk result (self.new.part ≡ []) }
        ensures fault { OnOk result (self.new.follower.fault ≡ None) }
        ensures taken { OnOk result (self.new.taken + length self.old.part ≡ self.old.taken + 64) }
        ensures took { (start : O) (heads : List LogHead) (bytes : List ℕ) → IsFed O.means start heads bytes self.old
            → TakesBytes O.means start heads bytes (take (64 - length self.old.part) rest.now) result self.new }
    {
        let missing = self.part.missing();
        let line = self.part.completed(&rest[..missing]);
        self.part.clear();
        self.taken += missing as u64;
        self.follower.take_line(&line)?;
        Ok(missing)
    }

    /// Takes the next piece of the stream, whole unless there is a fault. After a fault the bytes up to the end of the line or entry
    /// that shows it were taken, and each further call answers it again and takes nothing. No call answers want of memory.
    pub fn feed(&mut self, piece: &[u8]) -> Result<(), FeedFault>
        requires { self.old.taken + length piece.now < 2 ^ 64 }
        ensures taken { OnOk result (self.new.taken ≡ self.old.taken + length piece.now) }
        ensures again { (start : O) (heads : List LogHead) (bytes : List ℕ) (e : FeedFault) → HasFault O.means start heads bytes e self.old
            → (result ≡ Err e) × (self.new ≡ self.old) }
        ensures took { (start : O) (heads : List LogHead) (bytes : List ℕ) → IsFed O.means start heads bytes self.old
            → TakesPiece O.means start heads bytes piece.now result self.new }
    {
        if let Some(fault) = self.follower.fault {
            return Err(fault);
        }
        let mut at = 0;
        while piece.len() - at >= self.part.missing() {
            at += self.take_line(rest_from(piece, at))?;
        }
        self.add(rest_from(piece, at));
        Ok(())
    }

    /// Takes bytes that do not complete the line.
    fn add(&mut self, rest: &[u8])
        requires short { length rest.now + length self.old.part < 64 }
        requires few { self.old.taken + length rest.now < 2 ^ 64 }
        ensures took { (start : O) (heads : List LogHead) (bytes : List ℕ) → IsFed O.means start heads bytes self.old
            → IsFed O.means start heads (bytes ++ rest.now) self.new }
        ensures taken { self.new.taken ≡ self.old.taken + length rest.now }
        ensures fault { self.new.follower.fault ≡ self.old.follower.fault }
    {
        self.part.add(rest);
        self.taken += rest.len() as u64;
    }
}
