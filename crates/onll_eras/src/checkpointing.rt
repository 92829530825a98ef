//! The command `checkpoint`: the next era begins with the state that the newest one gives.

ghost use Rattle.std.specs.Prelude.{◌≡◌, ◌≤◌, ◌<◌, ◌+◌, true, false, length, IfOk, OnOk, MatchOption};
ghost use Rattle.std.specs.List.{flat_map};
ghost use Rattle.onll_words.specs.Texts.{line_text};
ghost use Rattle.onll_model.specs.Limits.{most_threads};
ghost use Rattle.onll_text.specs.EraText.{era_text};
ghost use Rattle.onll_text.specs.Kinds.{kind_by};
ghost use Rattle.onll_text.specs.Lines.{state_lines};
ghost use Rattle.onll_text.specs.PrintsBack.{prints_back, state_text};
ghost use Rattle.onll_task.specs.Doing.{Fulfils};
ghost use Rattle.onll_eras.specs.EraCall.{era_found};
ghost use Rattle.onll_eras.specs.EraJob.{begun_task, checkpoint_with, checkpoint_work, has_next};
ghost use Rattle.onll_checkpoint.specs.Checkpoint.{CheckpointState};
ghost use Rattle.onll_eras.specs.EraReports.{CheckpointData, checkpoint_lines, CheckpointReads};
ghost use Rattle.onll_eras.specs.Names.{names_of};

use crate::beginning::begin_era;
use crate::era::{EraCall, NewestEra};
use crate::restoring::{at_its_end, put_era};
use onll_checkpoint::Checkpoint;
use onll_outside::Store;
use onll_task::Stop;
use onll_text::{Piece, Report, Texted, print_state};
use onll_words::NoMemory;
use std::alloc::Global;

/// The text of an era of this number and place, with the state of this object.
fn era_bytes<O: Texted>(
    alloc: Global,
    object: &O,
    number: u64,
    place: u64,
) -> Result<Vec<u8>, NoMemory>
    ensures text { IfOk result (λ text. text.items ≡ era_text number place (O.wording.state_lines object.now)) }
    ensures short { IfOk result (λ text. length text.items ≤ 1048576) }
    ensures back { OnOk result (prints_back O.wording (state_text O.wording object.now) ≡ true) }
{
    let state = print_state(alloc, object)?;
    let mut out = Report::new(alloc);
    out.line(&[
        Piece::Text(b"#"),
        Piece::Text(b"checkpoint"),
        Piece::Number(number),
        Piece::Number(place),
    ])?;
    let mut text = out.into_bytes();
    text.extend_from_slice(&state)?;
    Ok(text)
}

/// The report of a checkpoint of this number and place. All that it says reads back.
fn report<O: Texted>(
    alloc: Global,
    object: &O,
    number: u64,
    place: u64,
) -> Result<Vec<u8>, NoMemory>
    ensures report { let said : CheckpointData O = record { number = number; place = place; state = object.now } in
        IfOk result (λ bytes. bytes.items ≡ flat_map line_text (checkpoint_lines O.wording said)) }
    ensures reads { OnOk result (CheckpointReads O.wording (record { number = number; place = place; state = object.now })) }
{
    let mut out = Report::new(alloc);
    put_era(number, place, &mut out)?;
    out.state_lines(object)?;
    Ok(out.into_bytes())
}

/// The number of an era that is to begin, and its place.
#[derive(Clone, Copy, Debug)]
struct NextEra {
    number: u64,
    place: u64,
}

/// The era after so many nodes of this one; nothing where its number or its place is past 64 bits.
fn next_era(era: NewestEra<'_>, nodes: u64) -> Option<NextEra>
    ensures { MatchOption result (has_next (era_found era.entry) nodes ≡ false)
        (λ n. (has_next (era_found era.entry) nodes ≡ true) × (n.number ≡ (era_found era.entry).number + 1)
        × (n.place ≡ (era_found era.entry).place + nodes)) }
{
    let number = era.number().checked_add(1)?;
    let place = era.place().checked_add(nodes)?;
    Some(NextEra { number, place })
}

/// Begins the era of this number and place with the state of this object, and says so. The report is made first, so that want of memory
/// for it leaves the files as they are.
fn begin_next<O: Texted, S: Store>(
    alloc: Global,
    object: &O,
    next: NextEra,
    call: EraCall<'_>,
    store: &mut S,
) -> Result<Vec<u8>, Stop>
    requires few { call.threads ≤ most_threads }
    requires number { 1 ≤ next.number }
    ensures { let k = kind_by O.means O.wording O.CODE in
        let text = era_text next.number next.place (k.wording.state_lines object.now) in
        let c : CheckpointState = record { number = next.number; place = next.place; text = text } in
        Fulfils (checkpoint_work (names_of call.entry.files) call.entry.threads).writes (S.seen store.old) (S.seen store.new)
        (begun_task call.entry.files.ckpt.now call.entry.threads k object.now c) result }
{
    let report = report(alloc, object, next.number, next.place)?;
    let text = era_bytes(alloc, object, next.number, next.place)?;
    let checkpoint = Checkpoint::of(next.number, next.place, text);
    match begin_era(
        alloc,
        call.files.ckpt,
        O::CODE,
        call.threads,
        &checkpoint,
        store,
    ) {
        Ok(()) => Ok(report),
        Err(stop) => Err(stop),
    }
}

/// Begins the next era after so many nodes of this one, with the state of this object, or says why not.
pub(crate) fn checkpointed<O: Texted, S: Store>(
    alloc: Global,
    object: &O,
    nodes: u64,
    era: NewestEra<'_>,
    call: EraCall<'_>,
    store: &mut S,
) -> Result<Vec<u8>, Stop>
    requires { call.threads ≤ most_threads }
    ensures { let k = kind_by O.means O.wording O.CODE in
        Fulfils (checkpoint_work (names_of call.entry.files) call.entry.threads).writes (S.seen store.old) (S.seen store.new)
        (checkpoint_with call.entry.files.ckpt.now call.entry.threads (era_found era.entry) k object.now nodes) result }
{
    match next_era(era, nodes) {
        Some(next) => begin_next(alloc, object, next, call, store),
        None => Err(at_its_end(alloc)),
    }
}
