//! An era begins: its logs, the file of its text, and its area, in this order.

ghost use Rattle.std.specs.Prelude.{◌≡◌, ◌≤◌, ◌++◌, ◌∷◌, [], codes, length, string_bytes, IfOk};
ghost use Rattle.onll_model.specs.Limits.{most_threads, greatest_code};
ghost use Rattle.onll_log.specs.Head.{head_line, FitsHead};
ghost use Rattle.onll_checkpoint.specs.Text.{lines_for};
ghost use Rattle.onll_checkpoint.specs.Grammar.{checkpoint_image};
ghost use Rattle.onll_open.specs.Names.{log_name, log_names};
ghost use Rattle.onll_task.specs.Doing.{DoesStage, keep_stage};
ghost use Rattle.onll_eras.specs.Names.{area_files};
ghost use Rattle.onll_eras.specs.EraJob.{area_of, header_said, area_said, headers_stage, begun_stage};

use onll_areas::{keep_checkpoint, keep_header};
use onll_checkpoint::Checkpoint;
use onll_log::LogHead;
use onll_open::log_name;
use onll_outside::Store;
use onll_task::{Stop, kept_or, write_bytes};
use onll_text::Piece;
use std::alloc::{AllocError, Global};

/// Keeps a log that has its header alone as the file of a thread. It stops with the place 0 of the thread where its fence fails, and names
/// the file where the store fails.
fn begin_log<S: Store>(
    alloc: Global,
    logs: &str,
    thread: u64,
    head: LogHead,
    store: &mut S,
) -> Result<(), Stop>
    requires { FitsHead head }
    ensures { let stage = keep_stage (log_name logs.now thread) (head_line head ∷ []) 1 (header_said thread) in
        DoesStage (log_name logs.now thread ∷ []) (S.seen store.old) (S.seen store.new) stage (λ done. done) result }
{
    let name = log_name(alloc, logs, thread)?;
    let kept = keep_header(alloc, &name, head, store);
    let said = [
        Piece::Text(b"fault"),
        Piece::Text(b"thread"),
        Piece::Number(thread),
        Piece::Text(b"place"),
        Piece::Number(0),
    ];
    kept_or(alloc, &name, &said, kept)
}

/// Begins the log of each thread, in their order, over the bytes of the era's text. It stops at the first that can't be kept.
fn begin_logs<S: Store>(
    alloc: Global,
    logs: &str,
    code: u64,
    text: &[u8],
    threads: u64,
    store: &mut S,
) -> Result<(), Stop>
    requires few { threads ≤ most_threads }
    requires known { (1 ≤ code) × (code ≤ greatest_code) }
    ensures { let stage = headers_stage logs.now code text.now threads in
        DoesStage (log_names logs.now 0 threads) (S.seen store.old) (S.seen store.new) stage (λ done. done) result }
{
    for thread in 0..threads {
        let head = LogHead::new(thread, threads, code, text);
        match begin_log(alloc, logs, thread, head, store) {
            Ok(()) => {}
            Err(stop) => return Err(stop),
        }
    }
    Ok(())
}

/// The name of the file of an era's text, by that of its area.
fn text_name(alloc: Global, area: &str) -> Result<String, AllocError>
    ensures { IfOk result (λ name. string_bytes name ≡ area.now ++ codes ".init") }
{
    let mut name = String::new(alloc);
    name.push_str(area)?;
    name.push_str(".init")?;
    Ok(name)
}

/// Keeps a checkpoint as the file of its area. It stops with the area's number where a fence fails, and names the file where the store
/// fails.
fn keep_area<S: Store>(
    alloc: Global,
    name: &str,
    area: u64,
    checkpoint: &Checkpoint,
    store: &mut S,
) -> Result<(), Stop>
    ensures { let lines = checkpoint_image checkpoint.now (lines_for (length checkpoint.now.text)) in
        let stage = keep_stage name.now lines 2 (area_said area) in
        DoesStage (name.now ∷ []) (S.seen store.old) (S.seen store.new) stage (λ done. done) result }
{
    let kept = keep_checkpoint(alloc, name, checkpoint, store);
    let said = [
        Piece::Text(b"fault"),
        Piece::Text(b"area"),
        Piece::Number(area),
    ];
    kept_or(alloc, name, &said, kept)
}

/// Begins the era of a checkpoint for so many threads, of an object of this code: keeps a log with its header alone for each thread, writes
/// the file of the era's text, and keeps the checkpoint as its area, which is the one of its number's parity. Until that is kept the era
/// before is the newest. It stops at the first of all these that fails.
pub fn begin_era<S: Store>(
    alloc: Global,
    ckpt: &str,
    code: u64,
    threads: u64,
    checkpoint: &Checkpoint,
    store: &mut S,
) -> Result<(), Stop>
    requires few { threads ≤ most_threads }
    requires known { (1 ≤ code) × (code ≤ greatest_code) }
    ensures { let stage = begun_stage ckpt.now code threads checkpoint.now in
        DoesStage (area_files ckpt.now (area_of checkpoint.now) threads) (S.seen store.old) (S.seen store.new) stage (λ done. done) result }
{
    let area = checkpoint.number() % 2;
    let logs = log_name(alloc, ckpt, area)?;
    match begin_logs(alloc, &logs, code, checkpoint.text(), threads, store) {
        Ok(()) => {}
        Err(stop) => return Err(stop),
    }
    let text = text_name(alloc, &logs)?;
    match write_bytes(alloc, &text, checkpoint.text(), store) {
        Ok(()) => keep_area(alloc, &logs, area, checkpoint, store),
        Err(stop) => Err(stop),
    }
}
