//! The numbers of each thread's nodes.

ghost use Rattle.std.specs.Prelude.{ℕ, ◌≡◌, ◌<◌, [], Some, None, MatchResult, get_or, count_by};
ghost use Rattle.onll_model.specs.Limits.{most_threads};
ghost use Rattle.onll_model.specs.Trace.{is_of_thread};
ghost use Rattle.onll_merge.specs.Merge.{stray_above};

use crate::fault::RecoverFault;
use onll_model::{MOST_THREADS, Node};

/// How many of these nodes are the thread's.
fn count_own(nodes: &[Node], thread: u64) -> u64
    ensures { result ≡ count_by (is_of_thread thread) nodes.now }
{
    nodes.iter().filter(|node| node.thread == thread).count() as u64
}

/// The same where it is known of each thread that a run can have.
fn count_known(counts: &[u64; MOST_THREADS as usize], nodes: &[Node], thread: u64) -> u64
    requires { (t : ℕ) → t < most_threads → get_or counts.now t 0 ≡ count_by (is_of_thread t) nodes.now }
    ensures { result ≡ count_by (is_of_thread thread) nodes.now }
{
    match counts.get(thread as usize) {
        Some(count) => *count,
        None => count_own(nodes, thread),
    }
}

/// Whether each node's number is one more than the count of its thread's nodes below it.
pub fn check_numbers(nodes: &[Node]) -> Result<(), RecoverFault>
    ensures { MatchResult result (λ _. stray_above [] nodes.now ≡ None) (λ e. stray_above [] nodes.now ≡ Some e) }
{
    let mut counts = [0u64; MOST_THREADS as usize];
    for (below, node) in nodes.iter().enumerate() {
        let wanted = count_known(&counts, &nodes[..below], node.thread) + 1;
        if node.number != wanted {
            return Err(RecoverFault::Stray {
                place: below as u64 + 1,
                thread: node.thread,
                number: node.number,
                wanted,
            });
        }
        if node.thread < MOST_THREADS {
            counts[node.thread as usize] = wanted;
        }
    }
    Ok(())
}
