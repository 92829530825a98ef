//! Whether the nodes of a report are its calls' updates.

ghost use Rattle.std.specs.Prelude.{◌≡◌, ◌<◌, ◌+◌, ◌==◌, ◌^◌, ◌∷◌, [], true, Some, length, map, drop, get_or, slice_get, IfOk};
ghost use Rattle.onll_audit.specs.Values.{as_groups, as_wrong};
ghost use Rattle.onll_audit.specs.Verdict.{thread_places, same_row, nth_row, node_after, nodes_wrong};

use crate::groups::CallLine;
use crate::judge::Wrong;
use crate::replica::same_row;
use crate::verdict::Why;
use onll_model::{Call, Node};
use onll_text::Texted;
use onll_words::{NoMemory, OpRow};
use std::alloc::Global;

/// The places of a thread's nodes.
pub(crate) fn thread_places(
    alloc: Global,
    thread: u64,
    nodes: &[Node],
) -> Result<Vec<u64>, NoMemory>
    ensures { IfOk result (λ places. places.items ≡ thread_places thread nodes.now) }
{
    let mut places = Vec::new(alloc);
    let mut place = 0;
    for node in nodes {
        place += 1;
        if node.thread == thread {
            places.push(place)?;
        }
    }
    Ok(places)
}

/// The calls of a script.
pub(crate) fn script_at<O: Texted>(scripts: &[Vec<Call<O>>], i: usize) -> &[Call<O>]
    requires { i < length scripts.now }
    ensures rest { drop i (map (λ s. s.items) scripts.now) ≡ result.now ∷ drop (i + 1) (map (λ s. s.items) scripts.now) }
    ensures there { slice_get (map (λ s. s.items) scripts.now) i ≡ Some result.now }
{
    &scripts[i]
}

/// The lines of a thread's calls.
pub(crate) fn group_at<'b, 'a>(groups: &'b [Vec<CallLine<'a>>], i: usize) -> &'b [CallLine<'a>]
    requires { i < length groups.now }
    ensures rest { drop i (as_groups groups.now) ≡ map (λ l. l.line.now) result.now ∷ drop (i + 1) (as_groups groups.now) }
    ensures there { slice_get (map (λ g. g.items) groups.now) i ≡ Some result.now }
{
    &groups[i]
}

/// Whether the number is the one after so many.
fn is_after(number: u64, count: u64) -> bool
    ensures { result ≡ (number == count + 1) }
{
    number > 0 && number - 1 == count
}

/// Whether the thread's row of this count is this one.
fn is_row(rows: &[Vec<OpRow>], thread: u64, count: u64, row: OpRow) -> bool
    ensures { result ≡ same_row row (nth_row (slice_get (map (λ own. own.items) rows.now) thread) count) }
{
    let Some(own) = rows.get(thread as usize) else {
        return false;
    };
    match own.get(count as usize) {
        Some(other) => same_row(*other, row),
        None => false,
    }
}

/// Whether the node is its thread's next one, and its update of this count.
fn node_right(rows: &[Vec<OpRow>], counts: &[u64], node: &Node) -> bool
    requires { length counts.now ≡ length rows.now }
    ensures right { result ≡ node_after (map (λ own. own.items) rows.now) (get_or counts.now node.now.thread 0) node.now }
    ensures within { result ≡ true → node.now.thread < length counts.now }
{
    match counts.get(node.thread as usize) {
        Some(count) => {
            is_after(node.number, *count) && is_row(rows, node.thread, *count, node.row)
        }
        None => false,
    }
}

/// The first wrong line of nodes, the first of which is line `number`.
#[tactic(auto, using(crate::proofs::Tallied::tallying))]
pub(crate) fn nodes_wrong(
    alloc: Global,
    number: u64,
    rows: &[Vec<OpRow>],
    nodes: &[Node],
) -> Result<Option<Wrong>, NoMemory>
    requires { number + length nodes.now < 2 ^ 64 }
    ensures { IfOk result (λ wrong. as_wrong wrong ≡ nodes_wrong (map (λ own. own.items) rows.now) number [] nodes.now) }
{
    let mut counts = vec![in alloc; 0; rows.len()]?;
    for (below, node) in nodes.iter().enumerate() {
        if !node_right(rows, &counts, node) {
            return Ok(Some(Wrong {
                line: number + below as u64,
                why: Why::Node,
            }));
        }
        counts[node.thread as usize] = node.number;
    }
    Ok(None)
}
