//! The second pass over images: which node stands at each place.

ghost use Rattle.std.specs.Prelude.{◌≡◌, suc, ◌+◌, ◌<◌, ◌≤◌, ◌⊎◌, List, ◌∷◌, ◌++◌, Some, None, IfOk, OnOk, MatchResult};
ghost use Rattle.std.specs.Option.{option_or, option_map_or, option_to_list};
ghost use Rattle.onll_model.specs.Segment.{Rises};
ghost use Rattle.onll_log.specs.Grammar.{Content};
ghost use Rattle.onll_log.specs.Cursor.{entries_left};
ghost use Rattle.onll_merge.specs.Merge.{AllRise, unlike, node_in_log, node_in_logs, nodes_to, clash_at};
ghost use Rattle.onll_merge.specs.Standing.{contents_under, StandsBelow, StandBelow, Reaches, IsFree, clash_with, held_node, gap_fault};
ghost use Rattle.onll_merge.specs.declared.fault.RecoverFault.TheVariants.{NoMemory, Gap};

use crate::fault::RecoverFault;
use onll_log::LogCursor;
use onll_model::Node;
use std::alloc::Global;
use std::marker::Model;

/// The node of a place, and the first log that holds it.
#[derive(Clone, Copy, Debug, PartialEq, Eq)]
pub struct Holder {
    log: u64,
    node: Node,
}

/// A log whose places are asked for from the lowest on.
#[derive(Drop)]
pub struct Reader<'a> {
    cursor: LogCursor<'a>,
    /// Of the places that are still to come the log holds none up to this one.
    free: u64,
}

impl<'a> Model for Reader<'a> {
    ghost use Rattle.onll_log.specs.Cursor.{CursorState};
    ghost use Rattle.onll_merge.specs.Standing.{IsFree};

    ghost Value = { CursorState };

    ghost view = { λ r. r.cursor };

    ghost invariant = { λ r. IsFree r.free r.cursor };
}

/// Readers of these logs.
pub fn readers_of<'a>(
    alloc: Global,
    mut cursors: Vec<LogCursor<'a>>,
) -> Result<Vec<Reader<'a>>, RecoverFault>
    ensures { MatchResult result (λ readers. readers.items ≡ cursors.entry.items) (λ e. e ≡ NoMemory) }
{
    let mut readers = Vec::new(alloc);
    while let Some(cursor) = cursors.pop() {
        readers.push(Reader { cursor, free: 0 })?;
    }
    readers.reverse();
    Ok(readers)
}

/// Goes past the entries that end below a place.
fn pass_below(cursor: &mut LogCursor<'_>, place: u64)
    requires { StandsBelow place cursor.old }
    ensures same { cursor.new.content ≡ cursor.old.content }
    ensures below { StandsBelow place cursor.new }
    ensures reaches { Reaches place (entries_left cursor.new) }
{
    while let Some(entry) = cursor.peek() {
        if place <= entry.place {
            return;
        }
        cursor.advance();
    }
}

/// The node of a place in a log whose entries rise. The cursor goes past the entries that end below the place.
fn node_of_log(cursor: &mut LogCursor<'_>, place: u64) -> Option<Node>
    requires rises { Rises 0 cursor.old.content.entries }
    requires below { StandsBelow place cursor.old }
    ensures node { result ≡ node_in_log cursor.old.content.entries place }
    ensures same { cursor.new.content ≡ cursor.old.content }
    ensures below { StandsBelow place cursor.new }
{
    pass_below(cursor, place);
    match cursor.peek() {
        Some(entry) => {
            let above = entry.place - place;
            if above < entry.count {
                Some(cursor.node(entry.count - 1 - above))
            } else {
                None
            }
        }
        None => None,
    }
}

/// The place before the first node of the next entry, the greatest number where there is no entry any more.
fn free_up_to(cursor: &LogCursor<'_>) -> u64
    requires { Rises 0 cursor.now.content.entries }
    ensures { IsFree result cursor.now }
{
    match cursor.peek() {
        Some(entry) => entry.place - entry.count,
        None => u64::MAX,
    }
}

/// The node of a place in a log whose entries rise, of which no lower one is asked for any more.
fn node_at(reader: &mut Reader<'_>, place: u64) -> Option<Node>
    requires rises { Rises 0 reader.old.content.entries }
    requires below { StandsBelow place reader.old }
    requires first { 1 ≤ place }
    ensures node { result ≡ node_in_log reader.old.content.entries place }
    ensures same { reader.new.content ≡ reader.old.content }
    ensures below { StandsBelow place reader.new }
{
    if place <= reader.free {
        return None;
    }
    let node = node_of_log(&mut reader.cursor, place);
    reader.free = free_up_to(&reader.cursor);
    node
}

/// The first log that holds a place, after one log more, which holds this node there; it refuses a node that differs.
fn join(
    found: Option<Holder>,
    log: u64,
    node: Option<Node>,
    place: u64,
) -> Result<Option<Holder>, RecoverFault>
    ensures clash { (c : Content) (cs : List Content) → node_in_log c.entries place ≡ node →
        MatchResult result (λ next. clash_with found log (c ∷ cs) place ≡ clash_with next (suc log) cs place)
        (λ e. clash_with found log (c ∷ cs) place ≡ Some e) }
    ensures node { IfOk result (λ next. held_node next ≡ option_or (held_node found) node) }
{
    match (found, node) {
        (None, None) => Ok(None),
        (None, Some(node)) => Ok(Some(Holder { log, node })),
        (Some(holder), None) => Ok(Some(holder)),
        (Some(holder), Some(node)) => {
            if holder.node == node {
                Ok(Some(holder))
            } else {
                Err(RecoverFault::Clash {
                    place,
                    log: holder.log,
                    other: log,
                })
            }
        }
    }
}

/// The node of a place in the logs that hold it, none where no log does; it refuses logs that hold different nodes.
pub fn node_of_place(readers: &mut [Reader<'_>], place: u64) -> Result<Option<Node>, RecoverFault>
    requires rise { AllRise (contents_under readers.old) }
    requires below { StandBelow place readers.old }
    requires first { 1 ≤ place }
    ensures clash { let logs = contents_under readers.old in
        MatchResult result (λ _. clash_at logs place ≡ None) (λ e. clash_at logs place ≡ Some e) }
    ensures node { IfOk result (λ node. node ≡ node_in_logs (contents_under readers.old) place) }
    ensures same { contents_under readers.new ≡ contents_under readers.old }
    ensures below { StandBelow place readers.new }
{
    let mut found = None;
    for log in 0..readers.len() {
        let node = node_at(&mut readers[log], place);
        found = join(found, log as u64, node, place)?;
    }
    Ok(found.map(|holder| holder.node))
}

/// Adds the node of a place to those of the places below; where no log holds the place, this is noted if no lower one was.
fn add(
    nodes: &mut Vec<Node>,
    gap: Option<u64>,
    node: Option<Node>,
    place: u64,
) -> Result<Option<u64>, RecoverFault>
    ensures nodes { OnOk result (nodes.new.items ≡ nodes.old.items ++ option_to_list node) }
    ensures gap { MatchResult result
        (λ next. gap_fault next ≡ option_or (gap_fault gap) (option_map_or (λ x. None) node (Some (Gap place)))) (λ e. e ≡ NoMemory) }
{
    match node {
        Some(node) => {
            nodes.push(node)?;
            Ok(gap)
        }
        None => Ok(gap.or(Some(place))),
    }
}

/// The nodes of the places up to `top`, which the logs hold alike. A place that no log holds is refused only when no two logs
/// differ.
pub fn gather(
    alloc: Global,
    readers: &mut [Reader<'_>],
    top: u64,
) -> Result<Vec<Node>, RecoverFault>
    requires rise { AllRise (contents_under readers.old) }
    requires below { StandBelow 1 readers.old }
    ensures places { let logs = contents_under readers.old in
        MatchResult result (λ _. unlike logs top ≡ None) (λ e. (e ≡ NoMemory) ⊎ (unlike logs top ≡ Some e)) }
    ensures nodes { IfOk result (λ v. v.items ≡ nodes_to (contents_under readers.old) top) }
{
    let Ok(mut nodes) = Vec::with_capacity(alloc, top as usize) else {
        return Err(RecoverFault::NoMemory);
    };
    let mut gap = None;
    for below in 0..top {
        let node = node_of_place(readers, below + 1)?;
        gap = add(&mut nodes, gap, node, below + 1)?;
    }
    match gap {
        Some(place) => Err(RecoverFault::Gap { place }),
        None => Ok(nodes),
    }
}
