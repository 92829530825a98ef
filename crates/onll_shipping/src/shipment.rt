//! The command `ship`: the stream of the logs of one run is written.

ghost use Rattle.std.specs.Prelude.{[], ◌∷◌, ◌≡◌, ◌<◌, ◌≤◌, None, IfOk, OnOk};
ghost use Rattle.std.specs.List.{AllByRecursion, flat_map};
ghost use Rattle.onll_words.specs.Texts.{line_text};
ghost use Rattle.onll_model.specs.Limits.{most_threads};
ghost use Rattle.onll_task.specs.Doing.{Fulfils};
ghost use Rattle.onll_shipping.specs.ShipJob.{ShipData, ShipReads, contents_of, ready, ship_data_lines, ship_fault, ship_logs_task, ship_task};
ghost use Rattle.onll_shipping.specs.Turns.{IsUsedUp};

use crate::ship_fault::{bad_log, ship_fault};
use crate::turns::stream_of;
use onll_log::TestedImage;
use onll_outside::Store;
use onll_task::{Stop, read_images, write_bytes};
use onll_text::{Piece, Report};
use onll_words::NoMemory;
use std::alloc::Global;

/// The report of so many entries and bytes. All that it says reads back.
fn report(alloc: Global, entries: u64, bytes: u64) -> Result<Vec<u8>, NoMemory>
    ensures report { let said : ShipData = record { entries = entries; bytes = bytes } in
        IfOk result (λ text. text.items ≡ flat_map line_text (ship_data_lines said)) }
    ensures reads { let said : ShipData = record { entries = entries; bytes = bytes } in OnOk result (ShipReads said) }
{
    let mut out = Report::new(alloc);
    out.line(&[
        Piece::Text(b"shipped"),
        Piece::Text(b"entries"),
        Piece::Number(entries),
        Piece::Text(b"bytes"),
        Piece::Number(bytes),
    ])?;
    Ok(out.into_bytes())
}

/// Writes the stream of these images, of which none is refused, and says how long it is.
fn ship_ready<S: Store>(
    alloc: Global,
    images: &[TestedImage<'_>],
    out: &str,
    store: &mut S,
) -> Result<Vec<u8>, Stop>
    requires used { AllByRecursion IsUsedUp images.now }
    requires ready { ship_fault (contents_of images.now) ≡ None }
    ensures { let task = ship_logs_task out.now (ready images.now) in
        Fulfils (out.now ∷ []) (S.seen store.old) (S.seen store.new) task result }
{
    let stream = stream_of(alloc, images)?;
    match write_bytes(alloc, out, &stream.bytes, store) {
        Ok(()) => Ok(report(alloc, stream.entries, stream.bytes.len() as u64)?),
        Err(stop) => Err(stop),
    }
}

/// Writes the stream of these images. Where one is refused it stops with the line of that, and nothing is written.
fn ship_images<S: Store>(
    alloc: Global,
    images: &[TestedImage<'_>],
    out: &str,
    store: &mut S,
) -> Result<Vec<u8>, Stop>
    requires { AllByRecursion IsUsedUp images.now }
    ensures { let task = ship_logs_task out.now (ready images.now) in
        Fulfils (out.now ∷ []) (S.seen store.old) (S.seen store.new) task result }
{
    match ship_fault(images) {
        Some(fault) => Err(bad_log(alloc, fault)),
        None => ship_ready(alloc, images, out, store),
    }
}

/// Writes the stream of the logs of so many threads as the file `out`: their header lines, then the first entry of each log in the order
/// of threads, the second of each that has one, and so on. Logs are refused before anything is written.
pub fn ship<S: Store>(
    alloc: Global,
    logs: &str,
    threads: u64,
    out: &str,
    store: &mut S,
) -> Result<Vec<u8>, Stop>
    requires { (1 ≤ threads) × (threads ≤ most_threads) }
    ensures { let task = ship_task logs.now threads out.now in
        Fulfils (out.now ∷ []) (S.seen store.old) (S.seen store.new) task result }
{
    match read_images(alloc, logs, threads, store) {
        Ok(kept) => ship_images(alloc, &kept.images, out, store),
        Err(stop) => Err(stop),
    }
}
