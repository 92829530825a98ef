//! The command `restore`: the place and the state that the newest era gives.

ghost use Rattle.std.specs.Prelude.{[], ◌∷◌, All, map, ◌≡◌, ◌+◌, ◌++◌, ◌<◌, ◌^◌, length, true, IfOk, OnOk};
ghost use Rattle.std.specs.List.{flat_map};
ghost use Rattle.onll_words.specs.Texts.{line_text};
ghost use Rattle.onll_model.specs.Recovered.{operations_front};
ghost use Rattle.onll_merge.specs.Recovered.{recovered_in};
ghost use Rattle.onll_outside.specs.Views.{StoreView};
ghost use Rattle.onll_text.specs.Bytes.{begins_line, with_lines};
ghost use Rattle.onll_text.specs.Kinds.{kind_by};
ghost use Rattle.onll_text.specs.Lines.{state_lines};
ghost use Rattle.onll_text.specs.Reports.{NodeReads};
ghost use Rattle.onll_task.specs.RecoverySaid.{HeldReads, held_of, data_with};
ghost use Rattle.onll_task.specs.Doing.{Fulfils};
ghost use Rattle.onll_task.specs.Stop.{StopSays};
ghost use Rattle.onll_eras.specs.EraCall.{era_found};
ghost use Rattle.onll_eras.specs.EraJob.{restored_with};
ghost use Rattle.onll_eras.specs.EraReports.{at_end_text, newest_in, newest_line, era_line, place_line, place_in, logs_with_nodes, RestoreReads, NewestReads};

use crate::era::NewestEra;
use onll_checkpoint::Checkpoint;
use onll_merge::Recovery;
use onll_task::{Ending, Stop, put_count, put_logs, put_nodes};
use onll_text::{Piece, Report, Texted};
use onll_words::NoMemory;
use std::alloc::Global;

/// What is said where no place, or no number, is left.
pub(crate) fn at_its_end(alloc: Global) -> Stop
    ensures { StopSays result (λ end said. (end ≡ Ending.BadLog) × (said ≡ at_end_text)) }
{
    Stop::says_line(
        alloc,
        Ending::BadLog,
        &[
            Piece::Text(b"checkpoint"),
            Piece::Text(b"at"),
            Piece::Text(b"its"),
            Piece::Text(b"end"),
        ],
    )
}

/// The line of a checkpoint.
pub(crate) fn put_era(number: u64, place: u64, out: &mut Report) -> Result<(), NoMemory>
    requires { begins_line out.old ≡ true }
    ensures line { OnOk result (out.new ≡ out.old ++ line_text (era_line number place)) }
    ensures begins { OnOk result (begins_line out.new ≡ true) }
    ensures reads { OnOk result ((number < 2 ^ 64) × (place < 2 ^ 64)) }
{
    out.line(&[
        Piece::Text(b"checkpoint"),
        Piece::Number(number),
        Piece::Text(b"place"),
        Piece::Number(place),
    ])
}

/// The line of the newest checkpoint, or that there is none.
fn put_newest(newest: &Option<Checkpoint>, out: &mut Report) -> Result<(), NoMemory>
    requires { begins_line out.old ≡ true }
    ensures line { OnOk result (out.new ≡ out.old ++ line_text (newest_line (newest_in newest.now))) }
    ensures begins { OnOk result (begins_line out.new ≡ true) }
    ensures reads { OnOk result (NewestReads (newest_in newest.now)) }
{
    match newest {
        Some(checkpoint) => put_era(checkpoint.number(), checkpoint.place(), out),
        None => out.line(&[Piece::Text(b"no"), Piece::Text(b"checkpoint")]),
    }
}

/// The lines of what logs hold, and of their nodes.
fn put_found<O: Texted>(recovery: &Recovery, out: &mut Report) -> Result<(), NoMemory>
    requires begins { begins_line out.old ≡ true }
    requires rows { operations_front O.means recovery.now.nodes.items ≡ recovery.now.nodes.items }
    ensures lines { OnOk result (out.new ≡ with_lines out.old (logs_with_nodes O.means O.wording (recovered_in recovery.now))) }
    ensures begins { OnOk result (begins_line out.new ≡ true) }
    ensures logs { OnOk result (All HeldReads (map held_of recovery.now.logs.items)) }
    ensures nodes { OnOk result (All (NodeReads O.means O.wording) recovery.now.nodes.items) }
{
    put_logs(&recovery.logs, out)?;
    put_count(recovery.nodes.len() as u64, out)?;
    put_nodes::<O>(&recovery.nodes, out)
}

/// The report of what the newest era gives, at this place. All that it says reads back.
fn report<O: Texted>(
    alloc: Global,
    object: &O,
    recovery: &Recovery,
    newest: &Option<Checkpoint>,
    place: u64,
) -> Result<Vec<u8>, NoMemory>
    requires rows { operations_front O.means recovery.now.nodes.items ≡ recovery.now.nodes.items }
    requires place { place ≡ place_in (newest_in newest.now) + length recovery.now.nodes.items }
    ensures report { let r = recovered_in recovery.now in
        let lines = (newest_line (newest_in newest.now) ∷ logs_with_nodes O.means O.wording r)
        ++ (place_line place ∷ state_lines O.wording object.now) in
        IfOk result (λ bytes. bytes.items ≡ flat_map line_text lines) }
    ensures reads { OnOk result (RestoreReads O.means O.wording
        (record { from = newest_in newest.now; logs = data_with (recovered_in recovery.now) object.now })) }
{
    let mut out = Report::new(alloc);
    put_newest(newest, &mut out)?;
    put_found::<O>(recovery, &mut out)?;
    out.line(&[Piece::Text(b"place"), Piece::Number(place)])?;
    out.state_lines(object)?;
    Ok(out.into_bytes())
}

/// What is said of what the newest era gives, with the object after it.
pub(crate) fn restored<O: Texted>(
    alloc: Global,
    object: &O,
    recovery: &Recovery,
    era: NewestEra<'_>,
) -> Result<Vec<u8>, Stop>
    requires { operations_front O.means recovery.now.nodes.items ≡ recovery.now.nodes.items }
    ensures { let task = restored_with era.entry.newest.now (era_found era.entry) (kind_by O.means O.wording O.CODE) object.now
        (recovered_in recovery.now) in
        (store : StoreView) → Fulfils [] store store task result }
{
    match era.place().checked_add(recovery.nodes.len() as u64) {
        Some(place) => Ok(report(alloc, object, recovery, era.newest, place)?),
        None => Err(at_its_end(alloc)),
    }
}
