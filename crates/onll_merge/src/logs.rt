//! The heads of logs, and the nodes that logs hold at a place.

ghost use Rattle.std.specs.Prelude.{◌≡◌, ℕ, ◌+◌, ◌<◌, ◌≤◌, ◌⊎◌, length, drop, Some, None, IfOk, OnOk, MatchResult};
ghost use Rattle.onll_model.specs.Limits.{most_threads};
ghost use Rattle.onll_merge.specs.Merge.{AllRise, contents_in, fits_run, foreign, unlike, disorder, top_of, node_in_logs, nodes_to, first_to, differs, clash_at};
ghost use Rattle.onll_merge.specs.Passed.{ArePassedInAll};
ghost use Rattle.onll_merge.specs.declared.fault.RecoverFault.TheVariants.{NoMemory};

use crate::entries::{agrees, check_order, next_of_log, node_of_log, top_place};
use crate::fault::RecoverFault;
use onll_log::{Decoded, LogHead};
use onll_model::{MOST_THREADS, Node};
use std::alloc::Global;

/// The most logs of a run.
const LOGS: usize = MOST_THREADS as usize;

/// Whether a log with this head can be of the run of the expected head: one without a head fits each run.
pub fn fits(head: Option<LogHead>, expected: LogHead) -> bool
    ensures { result ≡ fits_run head expected }
{
    match head {
        Some(head) => head == expected,
        None => true,
    }
}

/// Whether each head that a log has is its expected one.
pub fn check_heads(logs: &[Decoded], heads: &[LogHead]) -> Result<(), RecoverFault>
    requires { length heads.now ≡ length logs.now }
    ensures { MatchResult result (λ _. foreign 0 (contents_in logs.now) heads.now ≡ None)
        (λ e. foreign 0 (contents_in logs.now) heads.now ≡ Some e) }
{
    for (log, decoded) in logs.iter().enumerate() {
        if !fits(decoded.head, heads[log]) {
            return Err(RecoverFault::NotThisRun { log: log as u64 });
        }
    }
    Ok(())
}

/// Whether the entries of each log rise.
pub fn check_orders(logs: &[Decoded]) -> Result<(), RecoverFault>
    ensures order { MatchResult result (λ _. disorder 0 (contents_in logs.now) ≡ None) (λ e. disorder 0 (contents_in logs.now) ≡ Some e) }
    ensures rise { OnOk result (AllRise (contents_in logs.now)) }
{
    for (log, decoded) in logs.iter().enumerate() {
        check_order(decoded.entries.as_slice(), log as u64)?;
    }
    Ok(())
}

/// The greatest last place of all entries, 0 where there is none.
pub fn top_of_logs(logs: &[Decoded]) -> u64
    ensures { result ≡ top_of (contents_in logs.now) }
{
    let mut top = 0;
    for decoded in logs {
        top = top_place(decoded.entries.as_slice()).max(top);
    }
    top
}

/// The next place above this one that a log may hold, at most `end`: they hold none in between.
fn next_of_logs(logs: &[Decoded], passed: &[usize], place: u64, end: u64) -> u64
    requires rise { AllRise (contents_in logs.now) }
    requires count { length logs.now ≤ length passed.now }
    requires passed { ArePassedInAll logs.now passed.now place }
    requires end { place < end }
    ensures above { place < result }
    ensures bound { result ≤ end }
    ensures none { (q : ℕ) → place < q → q < result → node_in_logs (contents_in logs.now) q ≡ None }
{
    let mut next = end;
    for (log, decoded) in logs.iter().enumerate() {
        next = next_of_log(decoded.entries.as_slice(), passed[log], place, next);
    }
    next
}

/// Whether the logs after this one hold no other node than its own at a place.
fn check_others(
    logs: &[Decoded],
    passed: &mut [usize],
    place: u64,
    log: usize,
    node: Node,
) -> Result<(), RecoverFault>
    requires rise { AllRise (contents_in logs.now) }
    requires count { length logs.now ≤ length passed.old }
    requires passed { ArePassedInAll logs.now passed.old place }
    requires log { log < length logs.now }
    ensures others { MatchResult result (λ _. differs place log (log + 1) node (contents_in (drop (log + 1) logs.now))
        ≡ None) (λ e. differs place log (log + 1) node (contents_in (drop (log + 1) logs.now)) ≡ Some e) }
    ensures passed { ArePassedInAll logs.now passed.new place }
{
    for other in log + 1..logs.len() {
        let entries = logs[other].entries.as_slice();
        if !agrees(entries, &mut passed[other], place, node) {
            return Err(RecoverFault::Clash {
                place,
                log: log as u64,
                other: other as u64,
            });
        }
    }
    Ok(())
}

/// The node of a place in the logs that hold it, none where no log does; it refuses logs that hold different nodes.
fn node_of_place(
    logs: &[Decoded],
    passed: &mut [usize],
    place: u64,
) -> Result<Option<Node>, RecoverFault>
    requires rise { AllRise (contents_in logs.now) }
    requires count { length logs.now ≤ length passed.old }
    requires passed { ArePassedInAll logs.now passed.old place }
    ensures clash { MatchResult result (λ _. clash_at (contents_in logs.now) place ≡ None)
        (λ e. clash_at (contents_in logs.now) place ≡ Some e) }
    ensures node { IfOk result (λ node. node ≡ node_in_logs (contents_in logs.now) place) }
    ensures passed { ArePassedInAll logs.now passed.new place }
{
    for (log, decoded) in logs.iter().enumerate() {
        if let Some(node) = node_of_log(decoded.entries.as_slice(), &mut passed[log], place) {
            check_others(logs, passed, place, log, node)?;
            return Ok(Some(node));
        }
    }
    Ok(None)
}

/// Whether no two logs hold different nodes at a place up to `top`, where none do up to `place`.
fn check_above(
    logs: &[Decoded],
    passed: &mut [usize],
    place: u64,
    top: u64,
) -> Result<(), RecoverFault>
    requires rise { AllRise (contents_in logs.now) }
    requires count { length logs.now ≤ length passed.old }
    requires passed { ArePassedInAll logs.now passed.old place }
    requires below { first_to (clash_at (contents_in logs.now)) place ≡ None }
    requires top { place ≤ top }
    ensures { MatchResult result (λ _. first_to (clash_at (contents_in logs.now)) top ≡ None)
        (λ e. first_to (clash_at (contents_in logs.now)) top ≡ Some e) }
{
    let mut at = place;
    while at < top {
        at = next_of_logs(logs, passed, at, top);
        node_of_place(logs, passed, at)?;
    }
    Ok(())
}

/// The nodes of the places up to `top`, which the logs hold alike.
pub fn gather(alloc: Global, logs: &[Decoded], top: u64) -> Result<Vec<Node>, RecoverFault>
    requires rise { AllRise (contents_in logs.now) }
    requires count { length logs.now ≤ most_threads }
    ensures places { MatchResult result (λ _. unlike (contents_in logs.now) top ≡ None)
        (λ e. (e ≡ NoMemory) ⊎ (unlike (contents_in logs.now) top ≡ Some e)) }
    ensures nodes { IfOk result (λ v. v.items ≡ nodes_to (contents_in logs.now) top) }
{
    let mut passed = [0; LOGS];
    let mut nodes = Vec::new(alloc);
    for below in 0..top {
        let place = below + 1;
        match node_of_place(logs, &mut passed, place)? {
            Some(node) => nodes.push(node)?,
            None => {
                check_above(logs, &mut passed, place, top)?;
                return Err(RecoverFault::Gap { place });
            }
        }
    }
    Ok(nodes)
}
