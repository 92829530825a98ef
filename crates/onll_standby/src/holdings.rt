//! What is held of the entries of a stream: their nodes by place, how far the object follows them, and the end of each log.

ghost use Rattle.std.specs.Prelude.{◌≡◌, ℕ, ◌+◌, ◌-◌, ◌<◌, ◌≤◌, ◌^◌, List, [], length, get_or, Some, None};
ghost use Rattle.std.specs.List.{All};
ghost use Rattle.onll_model.specs.Limits.{most_threads};

use crate::applied::Applied;
use crate::fault::FeedFault;
use crate::places::Places;
use onll_model::{Node, Object};

/// What is held of a log: how many entries, and the place of the last.
#[derive(Clone, Copy, Debug, PartialEq, Eq)]
pub struct LogTail {
    pub entries: u64,
    pub last: u64,
}

/// What is held of entries.
#[derive(Drop)]
pub struct Holdings<O: Object> {
    pub applied: Applied<O>,
    pub places: Places,
    pub logs: [LogTail; 16],
    /// How many entries there are.
    pub held: u64,
}

impl<O: Object> Holdings<O> {
    ghost use Rattle.onll_standby.specs.declared.holdings.LogTail.{LogTail};
    ghost use Rattle.onll_standby.specs.Held.{HeldEntry, greatest_place, entry_fault};
    ghost use Rattle.onll_standby.specs.Holdings.{AreLogTails, AreHeldNodes, KeepsEntries, HasAdmitted};
    ghost use Rattle.onll_standby.specs.Places.{held_at, IsOfRun, most_places};

    /// Nothing is held.
    pub fn new(object: O, places: Places) -> Holdings<O>
        requires { (q : ℕ) → held_at places q ≡ None }
        ensures places { result.places ≡ places }
        ensures none { result.held ≡ 0 }
        ensures keeps { (threads : ℕ) → length places ≡ greatest_place threads → KeepsEntries O.means object threads [] result }
    {
        Holdings {
            applied: Applied::new(object),
            places,
            logs: [LogTail {
                entries: 0,
                last: 0,
            }; 16],
            held: 0,
        }
    }

    /// The fault against what is held of an entry of a log that begins at the byte `at`: its last node is for this place.
    pub fn fault_of(&self, at: u64, thread: u64, place: u64, nodes: &[Node]) -> Option<FeedFault>
        requires thread { thread < most_threads }
        requires places { (length nodes.now ≤ place) × (place ≤ most_places) }
        ensures { (es : List HeldEntry) → AreLogTails es self.now.logs → AreHeldNodes es self.now.places
            → result ≡ entry_fault es at (record { thread = thread; segment = record { place = place; nodes = nodes.now } }) }
    {
        let tail = self.logs[thread as usize];
        let count = nodes.len() as u64;
        if place < tail.last || place - tail.last < count {
            return Some(FeedFault::Disorder { at });
        }
        match self.places.clash(place - count, nodes) {
            Some(place) => Some(FeedFault::Clash { at, place }),
            None => None,
        }
    }

    /// Holds an entry that has no fault against what is held, and follows the nodes that are covered then. Where one of these is not
    /// followed the entry isn't held, and the nodes below that one are followed.
    pub fn admit(&mut self, thread: u64, place: u64, nodes: &[Node]) -> Result<(), FeedFault>
        requires thread { thread < most_threads }
        requires places { (length nodes.now ≤ place) × (place ≤ length self.old.places) }
        requires nodes { All IsOfRun nodes.now }
        requires few { self.old.held < 2 ^ 64 - 1 }
        requires entries { (d : LogTail) → (get_or self.old.logs thread d).entries < 2 ^ 64 - 1 }
        ensures places { length self.new.places ≡ length self.old.places }
        ensures held { self.new.held ≤ self.old.held + 1 }
        ensures admitted { (start : O) (threads : ℕ) (es : List HeldEntry) (at : ℕ) → KeepsEntries O.means start threads es self.old
            → entry_fault es at (record { thread = thread; segment = record { place = place; nodes = nodes.now } }) ≡ None
            → HasAdmitted O.means start threads es
            (record { thread = thread; segment = record { place = place; nodes = nodes.now } }) result self.new }
    {
        self.places.put(place - nodes.len() as u64, nodes);
        self.applied.advance(&self.places)?;
        let entries = self.logs[thread as usize].entries + 1;
        self.logs[thread as usize] = LogTail {
            entries,
            last: place,
        };
        self.held += 1;
        Ok(())
    }
}
