//! The command `follow`: a stream of the logs of one run is followed to its end.

ghost use Rattle.std.specs.Prelude.{[], ◌∷◌, ◌≡◌, ◌++◌, ◌+◌, ◌<◌, ◌≤◌, ◌^◌, ℕ, List, length, decimal, true, Some, IfOk, OnOk, MatchResult};
ghost use Rattle.std.specs.List.{flat_map};
ghost use Rattle.onll_words.specs.Texts.{line_text, IsWord};
ghost use Rattle.onll_model.specs.Limits.{most_threads};
ghost use Rattle.onll_log.specs.declared.head.LogHead.{LogHead};
ghost use Rattle.onll_outside.specs.Views.{StoreView};
ghost use Rattle.onll_standby.specs.Stream.{AreStreamHeads, course};
ghost use Rattle.onll_standby.specs.Standby.{IsFed};
ghost use Rattle.onll_task.specs.Doing.{Fulfils, DoesStage};
ghost use Rattle.onll_text.specs.Bytes.{begins_line};
ghost use Rattle.onll_text.specs.Kinds.{kind_by};
ghost use Rattle.onll_shipping.specs.FollowJob.{FollowData, FollowReads, follow_data_lines, followed_task, follow_task, longest_stream, stream_stage};

use crate::bad_stream::bad_stream;
use onll_log::{LogHead, new_heads};
use onll_outside::{OutsideFault, Store};
use onll_standby::{FeedFault, Standby};
use onll_task::Stop;
use onll_text::{Piece, Report, Texted};
use onll_words::NoMemory;
use std::alloc::Global;

/// How many bytes of a stream are read at most: as many as the images of sixteen threads have.
const LONGEST_STREAM: usize = 71_304_192;

/// How many bytes of a stream are fed at once at most.
pub const LONGEST_PIECE: u64 = 1_048_576;

/// A stream of the logs of so many threads, which is fed in pieces of `piece` bytes.
#[derive(Clone, Copy, Debug)]
pub struct StreamFile<'a> {
    pub name: &'a str,
    pub threads: u64,
    pub piece: usize,
}

/// The bytes of a stream's file, as many as a stream has at most. It stops where the file can't be read, and names it.
fn stream_file<S: Store>(alloc: Global, name: &str, store: &mut S) -> Result<Vec<u8>, Stop>
    ensures begins { let stage = stream_stage name.now in
        DoesStage [] (S.seen store.old) (S.seen store.new) stage (λ bytes. bytes.items) result }
    ensures few { IfOk result (λ bytes. length bytes.items ≤ longest_stream) }
{
    match store.read(alloc, name, LONGEST_STREAM as u64) {
        Ok(mut bytes) => {
            bytes.truncate(LONGEST_STREAM);
            Ok(bytes)
        }
        Err(OutsideFault::Failed) => Err(Stop::unread(alloc, name)),
        Err(OutsideFault::NoMemory) => Err(Stop::NoMemory),
    }
}

/// Feeds a stream to a standby in pieces of this many bytes, up to its end or a fault.
fn feed_all<O: Texted>(
    standby: &mut Standby<O>,
    bytes: &[u8],
    piece: usize,
) -> Result<(), FeedFault>
    requires piece { 1 ≤ piece }
    requires few { standby.old.taken + length bytes.now < 2 ^ 63 }
    ensures { (start : O) (heads : List LogHead) → IsFed O.means start heads [] standby.old
        → MatchResult result (λ _. IsFed O.means start heads bytes.now standby.new)
        (λ e. (count : ℕ) × ((course O.means heads bytes.now).shown ≡ Some (record { fault = e; lines = count }))) }
{
    let mut at = 0;
    while at < bytes.len() {
        let (_, rest) = bytes.split_at(at);
        let (next, _) = rest.split_at(piece.min(rest.len()));
        standby.feed(next)?;
        at += next.len();
    }
    Ok(())
}

/// A line of a word and a number.
fn put_number(word: &[u8], number: u64, out: &mut Report) -> Result<(), NoMemory>
    requires begins { begins_line out.old ≡ true }
    requires word { IsWord word.now }
    ensures line { OnOk result (out.new ≡ out.old ++ line_text (word.now ∷ decimal number ∷ [])) }
    ensures begins { OnOk result (begins_line out.new ≡ true) }
{
    out.line(&[Piece::Text(word), Piece::Number(number)])
}

/// The report of so many bytes taken and entries held, of the place up to which they are followed, and of the object there. All that
/// it says reads back.
fn report<O: Texted>(
    alloc: Global,
    taken: u64,
    held: u64,
    followed: u64,
    object: &O,
) -> Result<Vec<u8>, NoMemory>
    ensures report { let said : FollowData O = record { taken = taken; held = held; followed = followed; state = object.now } in
        IfOk result (λ text. text.items ≡ flat_map line_text (follow_data_lines O.wording said)) }
    ensures reads { let said : FollowData O = record { taken = taken; held = held; followed = followed; state = object.now } in
        OnOk result (FollowReads O.wording said) }
{
    let mut out = Report::new(alloc);
    put_number(b"taken", taken, &mut out)?;
    put_number(b"held", held, &mut out)?;
    put_number(b"followed", followed, &mut out)?;
    out.state_lines(object)?;
    Ok(out.into_bytes())
}

/// What is said of a stream's bytes, over an object, as logs with these heads.
fn follow_bytes<O: Texted + Drop>(
    alloc: Global,
    object: O,
    heads: Vec<LogHead>,
    bytes: &[u8],
    piece: usize,
) -> Result<Vec<u8>, Stop>
    requires heads { AreStreamHeads heads.items }
    requires piece { 1 ≤ piece }
    requires few { length bytes.now ≤ longest_stream }
    ensures { let task = followed_task O.means O.wording object (length bytes.now) (course O.means heads.items bytes.now) in
        (store : StoreView) → Fulfils [] store store task result }
{
    let mut standby = Standby::begin(alloc, object, heads)?;
    match feed_all(&mut standby, bytes, piece) {
        Ok(()) => {
            let state = standby.state();
            Ok(report(
                alloc,
                standby.taken(),
                standby.held(),
                standby.followed(),
                state,
            )?)
        }
        Err(fault) => Err(bad_stream(alloc, fault)),
    }
}

/// Follows a stream over an object, whose initial state these bytes say. The report is the same for pieces of any length.
pub fn follow_on<O: Texted + Drop, S: Store>(
    alloc: Global,
    object: O,
    init: &[u8],
    stream: &StreamFile<'_>,
    store: &mut S,
) -> Result<Vec<u8>, Stop>
    requires threads { (1 ≤ stream.now.threads) × (stream.now.threads ≤ most_threads) }
    requires piece { 1 ≤ stream.now.piece }
    ensures { let task = follow_task (kind_by O.means O.wording O.CODE) init.now stream.now.name.now stream.now.threads object in
        Fulfils [] (S.seen store.old) (S.seen store.new) task result }
{
    let bytes = match stream_file(alloc, stream.name, store) {
        Ok(bytes) => bytes,
        Err(stop) => return Err(stop),
    };
    let heads = new_heads(alloc, O::CODE, init, stream.threads)?;
    follow_bytes(alloc, object, heads, &bytes, stream.piece)
}
