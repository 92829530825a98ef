//! Logs that are not those of so many threads that go on, as their heads and entries say before they are merged.

ghost use Rattle.std.specs.Prelude.{◌≡◌, ◌⊎◌, Ok, Err, length, IfOk, MatchResult};
ghost use Rattle.onll_merge.specs.Recovered.{recovered_in};
ghost use Rattle.onll_model.specs.Trace.{state_after};
ghost use Rattle.onll_open.specs.Misfits.{found_in, first_gone, first_headless, first_old, has_entries, have_entries, head_in, is_old, misfit, other_number, other_threads};
ghost use Rattle.onll_open.specs.declared.fault.FilesFault.TheVariants.{NoMemory as OutOfMemory};

use crate::fault::{FilesFault, refused_as};
use onll_log::{LogHead, LogImage, TestedImage};
use onll_merge::{Recovery, recover_state};
use onll_model::Object;
use std::alloc::Global;

/// The head that an image holds, none where it is all zero or no log.
fn head_in(image: &TestedImage<'_>) -> Option<LogHead>
    ensures { result ≡ head_in image.now }
{
    match image.open() {
        Some(cursor) => cursor.head(),
        None => None,
    }
}

/// Whether an image holds a log with an entry.
#[tactic(auto, using(crate::proofs::FirstEntries::first_some))]
fn has_entries(image: &TestedImage<'_>) -> bool
    ensures { result ≡ has_entries image.now }
{
    match image.open() {
        Some(cursor) => cursor.peek().is_some(),
        None => false,
    }
}

fn is_old(head: Option<LogHead>) -> bool
    ensures { result ≡ is_old head }
{
    match head {
        Some(head) => head.format == 1,
        None => false,
    }
}

/// The number of threads that a head says, where it is not this one.
fn other_number(threads: u64, head: Option<LogHead>) -> Option<u64>
    ensures { result ≡ other_number threads head }
{
    match head {
        Some(head) => {
            if head.threads == threads {
                None
            } else {
                Some(head.threads)
            }
        }
        None => None,
    }
}

/// The first image that holds a log of the first format.
fn first_old(images: &[TestedImage<'_>]) -> Option<u64>
    ensures { result ≡ first_old 0 images.now }
{
    for (log, image) in images.iter().enumerate() {
        if is_old(head_in(image)) {
            return Some(log as u64);
        }
    }
    None
}

/// Another number of threads than this, which the first head that differs says.
fn other_threads(threads: u64, images: &[TestedImage<'_>]) -> Option<u64>
    ensures { result ≡ other_threads threads images.now }
{
    for image in images {
        if let Some(were) = other_number(threads, head_in(image)) {
            return Some(were);
        }
    }
    None
}

/// Whether one of these images holds a log with an entry.
fn have_entries(images: &[TestedImage<'_>]) -> bool
    ensures { result ≡ have_entries images.now }
{
    for image in images {
        if has_entries(image) {
            return true;
        }
    }
    false
}

/// The first image that holds no head.
fn first_headless(images: &[TestedImage<'_>]) -> Option<u64>
    ensures { result ≡ first_headless 0 images.now }
{
    for (log, image) in images.iter().enumerate() {
        if head_in(image).is_none() {
            return Some(log as u64);
        }
    }
    None
}

/// The first log that has no head where another has entries.
fn first_gone(images: &[TestedImage<'_>]) -> Option<u64>
    ensures { result ≡ first_gone images.now }
{
    if have_entries(images) {
        first_headless(images)
    } else {
        None
    }
}

/// Why these images are not those of the logs of so many threads that go on.
fn misfit(threads: u64, images: &[TestedImage<'_>]) -> Option<FilesFault>
    ensures { result ≡ misfit threads images.now }
{
    if let Some(log) = first_old(images) {
        return Some(FilesFault::OldFormat { log });
    }
    if let Some(were) = other_threads(threads, images) {
        return Some(FilesFault::Threads { were });
    }
    match first_gone(images) {
        Some(log) => Some(FilesFault::Gone { log }),
        None => None,
    }
}

/// What images give over an object as the logs of one run with these heads, with which it goes on: each row is applied to the object.
pub(crate) fn recover_logs<O: Object>(
    alloc: Global,
    object: &mut O,
    heads: &[LogHead],
    images: &[TestedImage<'_>],
) -> Result<Recovery, FilesFault>
    requires { length heads.now ≡ length images.now }
    ensures recovered { let found = found_in O.means heads.now images.now in
        MatchResult result (λ r. found ≡ Ok (recovered_in r)) (λ e. (e ≡ OutOfMemory) ⊎ (found ≡ Err e)) }
    ensures count { IfOk result (λ r. length r.logs.items ≡ length images.now) }
    ensures state { IfOk result (λ r. object.new ≡ state_after O.means object.old r.nodes.items) }
{
    let misfit = misfit(heads.len() as u64, images);
    match recover_state(alloc, object, heads, images) {
        Ok(recovery) => match misfit {
            Some(misfit) => Err(misfit),
            None => Ok(recovery),
        },
        Err(fault) => Err(refused_as(misfit, fault)),
    }
}
