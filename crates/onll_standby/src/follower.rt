//! What a stream's lines come to, line by line.

ghost use Rattle.std.specs.Prelude.{◌≡◌, ℕ, ◌+◌, ◌-◌, ◌*◌, ◌<◌, ◌≤◌, ◌^◌, ◌++◌, ◌∷◌, ◌==◌, List, [], length, get_or, Some, None, true, false, OnOk, IfErr};
ghost use Rattle.onll_log.specs.declared.head.LogHead.{LogHead};
ghost use Rattle.onll_log.specs.Head.{word, head_line};
ghost use Rattle.onll_log.specs.Grammar.{same_words};
ghost use Rattle.onll_standby.specs.Stream.{AreStreamHeads, opens, head_named, byte_at, entries_course};

use crate::entry::{head_at, is_header, is_line_of, take_entry};
use crate::fault::FeedFault;
use crate::holdings::Holdings;
use crate::open_entry::OpenEntry;
use crate::part::LINE;
use crate::places::Places;
use onll_log::LogHead;
use onll_model::Object;
use onll_words::Line;

/// Follows a stream by its lines.
#[derive(Drop)]
pub struct Follower<O: Object> {
    pub heads: Vec<LogHead>,
    pub holdings: Holdings<O>,
    /// How many lines were taken.
    pub lines: u64,
    pub entry: OpenEntry,
    /// The byte where the unfinished entry begins.
    pub begins: u64,
    pub fault: Option<FeedFault>,
}

impl<O: Object> Follower<O> {
    ghost use Rattle.onll_standby.specs.declared.holdings.LogTail.{LogTail};
    ghost use Rattle.onll_standby.specs.Held.{HeldEntry, greatest_place};
    ghost use Rattle.onll_standby.specs.Holdings.{KeepsEntries};
    ghost use Rattle.onll_standby.specs.Places.{held_at};
    ghost use Rattle.onll_standby.specs.Entry.{TookEntry};
    ghost use Rattle.onll_standby.specs.Follower.{IsFollower, FollowsLines, LineTaken, LineUncounted, IsWholeEntry};

    /// Before the first line.
    pub fn new(object: O, heads: Vec<LogHead>, places: Places) -> Follower<O>
        requires heads { AreStreamHeads heads.items }
        requires room { length places ≡ greatest_place (length heads.items) }
        requires none { (q : ℕ) → held_at places q ≡ None }
        ensures ready { IsFollower result }
        ensures at { FollowsLines O.means object heads.items [] result }
        ensures first { result.lines ≡ 0 }
    {
        Follower {
            heads,
            holdings: Holdings::new(object, places),
            lines: 0,
            entry: OpenEntry::new(),
            begins: 0,
            fault: None,
        }
    }

    /// Whether a line can begin an entry of the log that it names.
    fn opens(&self, line: &Line) -> bool
        requires { IsFollower self.now }
        ensures { (d : LogTail) → result ≡ opens (head_named self.now.heads.items line.now.w)
            (get_or self.now.holdings.logs (word line.now.w 1) d).entries line.now.w }
    {
        let thread = line.w[1];
        match head_at(&self.heads, thread) {
            Some(head) => is_header(&head, self.holdings.logs[thread as usize].entries, line),
            None => false,
        }
    }

    /// Takes the header line of a log.
    fn take_head(&self, line: &Line) -> Result<(), FeedFault>
        requires { self.now.lines < length self.now.heads.items }
        ensures head { (d : LogHead) → OnOk result
            (same_words line.now.w (head_line (get_or self.now.heads.items self.now.lines d)) ≡ true) }
        ensures foreign { (d : LogHead) → IfErr result (λ e. (e ≡ FeedFault.NotThisRun self.now.lines)
            × (same_words line.now.w (head_line (get_or self.now.heads.items self.now.lines d)) ≡ false)) }
    {
        if is_line_of(line, &self.heads[self.lines as usize]) {
            Ok(())
        } else {
            Err(FeedFault::NotThisRun { log: self.lines })
        }
    }

    /// Takes the header line of an entry.
    fn take_header(&mut self, line: &Line) -> Result<(), FeedFault>
        requires ready { IsFollower self.old }
        requires empty { self.old.entry ≡ [] }
        requires few { (self.old.lines + 1) * 64 < 2 ^ 64 }
        ensures opened { (d : LogTail) → OnOk result (opens (head_named self.old.heads.items line.now.w)
            (get_or self.old.holdings.logs (word line.now.w 1) d).entries line.now.w ≡ true) }
        ensures begun { OnOk result (self.new ≡ record self.old { entry = line.now.w ∷ []; begins = 64 * self.old.lines }) }
        ensures refused { (d : LogTail) → IfErr result (λ e. (e ≡ FeedFault.Refused (64 * self.old.lines))
            × (opens (head_named self.old.heads.items line.now.w)
            (get_or self.old.holdings.logs (word line.now.w 1) d).entries line.now.w ≡ false)) }
        ensures same { IfErr result (λ _. self.new ≡ self.old) }
    {
        let at = LINE as u64 * self.lines;
        if !self.opens(line) {
            return Err(FeedFault::Refused { at });
        }
        self.entry.add(line);
        self.begins = at;
        Ok(())
    }

    /// Takes the entry whose lines are there.
    fn take_entry(&mut self) -> Result<(), FeedFault>
        requires heads { AreStreamHeads self.old.heads.items }
        requires whole { IsWholeEntry self.old.heads.items self.old.holdings.logs self.old.entry }
        requires room { length self.old.holdings.places ≡ greatest_place (length self.old.heads.items) }
        requires few { self.old.holdings.held < 2 ^ 64 - 1 }
        ensures same { self.new ≡ record self.old { holdings = self.new.holdings } }
        ensures places { length self.new.holdings.places ≡ length self.old.holdings.places }
        ensures held { self.new.holdings.held ≤ self.old.holdings.held + 1 }
        ensures taken { (start : O) (es : List HeldEntry) (at : ℕ) → byte_at at ≡ self.old.begins
            → KeepsEntries O.means start (length self.old.heads.items) es self.old.holdings
            → TookEntry O.means start self.old.heads.items at self.old.entry
            (entries_course O.means self.old.heads.items es at 0 self.old.entry) result self.new.holdings }
    {
        match self.entry.lines().split_first() {
            Some((header, rest)) => take_entry(
                &mut self.holdings,
                &self.heads,
                header,
                rest,
                self.begins,
            ),
            None => Ok(()),
        }
    }

    /// Whether one more line makes the entry whole.
    fn is_last(&self) -> bool
        ensures { (h : List ℕ) (r : List (List ℕ)) → self.now.entry ≡ h ∷ r → result ≡ (length r + 1 == word h 4) }
    {
        match self.entry.lines() {
            [header, rest @ ..] => rest.len() as u64 + 1 == header.w[4],
            [] => false,
        }
    }

    /// Takes a node line of an entry.
    fn take_node(&mut self, line: &Line) -> Result<(), FeedFault>
        requires ready { IsFollower self.old }
        requires some { 1 ≤ length self.old.entry }
        requires few { (self.old.lines + 1) * 64 < 2 ^ 64 }
        ensures same { self.new ≡ record self.old { holdings = self.new.holdings; entry = self.new.entry } }
        ensures ready { IsFollower (record self.new { lines = self.new.lines + 1 }) }
        ensures took { (start : O) (heads : List LogHead) (ls : List (List ℕ)) → FollowsLines O.means start heads ls self.old
            → length heads ≤ length ls → LineUncounted O.means start heads (ls ++ line.now.w ∷ []) result self.new }
    {
        let last = self.is_last();
        self.entry.add(line);
        if !last {
            return Ok(());
        }
        let done = self.take_entry();
        self.entry.clear();
        done
    }

    /// Takes a line, which is not counted yet.
    fn take(&mut self, line: &Line) -> Result<(), FeedFault>
        requires ready { IsFollower self.old }
        requires few { (self.old.lines + 1) * 64 < 2 ^ 64 }
        ensures same { self.new ≡ record self.old { holdings = self.new.holdings; entry = self.new.entry; begins = self.new.begins } }
        ensures ready { IsFollower (record self.new { lines = self.new.lines + 1 }) }
        ensures took { (start : O) (heads : List LogHead) (ls : List (List ℕ)) → FollowsLines O.means start heads ls self.old
            → LineUncounted O.means start heads (ls ++ line.now.w ∷ []) result self.new }
    {
        if self.lines < self.heads.len() as u64 {
            self.take_head(line)
        } else if self.entry.lines().is_empty() {
            self.take_header(line)
        } else {
            self.take_node(line)
        }
    }

    /// Takes the next line.
    pub fn take_line(&mut self, line: &Line) -> Result<(), FeedFault>
        requires ready { IsFollower self.old }
        requires few { (self.old.lines + 1) * 64 < 2 ^ 64 }
        requires fault { self.old.fault ≡ None }
        ensures ready { IsFollower self.new }
        ensures lines { self.new.lines ≡ self.old.lines + 1 }
        ensures fault { IfErr result (λ e. self.new.fault ≡ Some e) }
        ensures clean { OnOk result (self.new.fault ≡ None) }
        ensures took { (start : O) (heads : List LogHead) (ls : List (List ℕ)) → FollowsLines O.means start heads ls self.old
            → LineTaken O.means start heads (ls ++ line.now.w ∷ []) result self.new }
    {
        let taken = self.take(line);
        self.lines += 1;
        if let Err(fault) = taken {
            self.fault = Some(fault);
        }
        taken
    }
}
