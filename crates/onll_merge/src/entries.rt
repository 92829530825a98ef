//! The places of one log's entries.

ghost use Rattle.std.specs.Prelude.{◌≡◌, ℕ, ◌+◌, ◌<◌, ◌≤◌, length, slice_index_or, Some, None, OnOk, MatchResult};
ghost use Rattle.onll_model.specs.Segment.{Rises};
ghost use Rattle.onll_log.specs.declared.decoded.Entry.{Entry};
ghost use Rattle.onll_log.specs.Decoded.{segment_in, segments_in};
ghost use Rattle.onll_log.specs.Survey.{top_in_log};
ghost use Rattle.onll_merge.specs.Merge.{node_in_segment, node_in_log, agrees_at, disorder_in};
ghost use Rattle.onll_merge.specs.Passed.{ArePassed};

use crate::fault::RecoverFault;
use onll_log::Entry;
use onll_model::Node;

/// Whether each entry of a log begins above the last place of the one before it.
pub fn check_order(entries: &[Entry], log: u64) -> Result<(), RecoverFault>
    ensures order { MatchResult result (λ _. disorder_in log (segments_in entries.now) ≡ None)
        (λ e. disorder_in log (segments_in entries.now) ≡ Some e) }
    ensures rises { OnOk result (Rises 0 (segments_in entries.now)) }
{
    let mut last = 0;
    for (before, entry) in entries.iter().enumerate() {
        let count = entry.nodes.as_slice().len() as u64;
        if entry.place < last || entry.place - last < count {
            return Err(RecoverFault::Disorder {
                log,
                entry: before as u64 + 1,
            });
        }
        last = entry.place;
    }
    Ok(())
}

/// The greatest last place of a log's entries, 0 where there is none.
pub fn top_place(entries: &[Entry]) -> u64
    ensures { result ≡ top_in_log (segments_in entries.now) }
{
    let mut top = 0;
    for entry in entries {
        top = entry.place.max(top);
    }
    top
}

/// The index of the first entry that ends at this place or above, where those before `passed` end below it.
fn first_from(entries: &[Entry], passed: usize, place: u64) -> usize
    requires { ArePassed entries.now passed place }
    ensures passed { ArePassed entries.now result place }
    ensures reached { (d : Entry) → result < length entries.now → place ≤ (slice_index_or entries.now result d).place }
{
    let mut at = passed;
    while at < entries.len() && entries[at].place < place {
        at += 1;
    }
    at
}

/// The node of a place in an entry that ends there or above.
fn node_of_entry(entry: &Entry, place: u64) -> Option<Node>
    requires { place ≤ entry.now.place }
    ensures { result ≡ node_in_segment (segment_in entry.now) place }
{
    let nodes = entry.nodes.as_slice();
    let above = entry.place - place;
    if above < nodes.len() as u64 {
        Some(nodes[nodes.len() - 1 - above as usize])
    } else {
        None
    }
}

/// The node of a place in a log, of which the first entries were passed; it passes those that end below the place.
pub fn node_of_log(entries: &[Entry], passed: &mut usize, place: u64) -> Option<Node>
    requires rises { Rises 0 (segments_in entries.now) }
    requires passed { ArePassed entries.now passed.old place }
    ensures node { result ≡ node_in_log (segments_in entries.now) place }
    ensures passed { ArePassed entries.now passed.new place }
{
    let at = first_from(entries, *passed, place);
    *passed = at;
    if at < entries.len() {
        node_of_entry(&entries[at], place)
    } else {
        None
    }
}

/// Whether a log holds no other node than this one at a place.
pub fn agrees(entries: &[Entry], passed: &mut usize, place: u64, node: Node) -> bool
    requires rises { Rises 0 (segments_in entries.now) }
    requires passed { ArePassed entries.now passed.old place }
    ensures agrees { result ≡ agrees_at (segments_in entries.now) place node }
    ensures passed { ArePassed entries.now passed.new place }
{
    match node_of_log(entries, passed, place) {
        Some(found) => node == found,
        None => true,
    }
}

/// The next place above this one that a log may hold, at most `end`: it holds none in between.
pub fn next_of_log(entries: &[Entry], passed: usize, place: u64, end: u64) -> u64
    requires rises { Rises 0 (segments_in entries.now) }
    requires passed { ArePassed entries.now passed (place + 1) }
    requires end { place < end }
    ensures above { place < result }
    ensures bound { result ≤ end }
    ensures none { (q : ℕ) → place < q → q < result → node_in_log (segments_in entries.now) q ≡ None }
{
    let at = first_from(entries, passed, place + 1);
    if at >= entries.len() {
        return end;
    }
    let entry = &entries[at];
    let below = place.max(entry.place - entry.nodes.as_slice().len() as u64);
    if below < end { below + 1 } else { end }
}
