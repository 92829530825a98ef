//! The call of the program: its words, the command that they say, and the text that is put.

ghost use Rattle.std.specs.Prelude.{map, string_bytes};
ghost use Rattle.onll_jobs.specs.Command.{form_of};
ghost use Rattle.onll_jobs.specs.Exits.{PutExits};
ghost use Rattle.onll_jobs.specs.Seen.{seen_by};
ghost use Rattle.onll_open.specs.Files.{SameBut};
ghost use Rattle.onll_jobs.specs.Says.{work_of, writes_of, ExitSays, ExitDetermined};
ghost use Rattle.onll_jobs.specs.Promises.{Promises};
ghost use Rattle.onll_task.specs.Doing.{Fulfils};

use crate::command::{Command, usage};
use crate::{make, objects, show};
use onll_eras::{checkpoint, make_areas, restore};
use onll_outside::{Gate, OutsideFault, Sink, Store};
use onll_shipping::ship;
use onll_task::{Ending, Exit, Stop};
use std::alloc::Global;
use std::sync::Wait;
use std::thread::Threads;

/// Does what the words ask for, and gives its report. What stops it has its own text and ending; words of no form stop with the usage
/// text, and nothing is done.
fn answer_to<R: Threads + Wait + Sync, S: Store, G: Gate + Sync>(
    rt: &R,
    alloc: Global,
    words: &[String],
    gate: &G,
    store: &mut S,
) -> Result<Vec<u8>, Stop>
    ensures { let work = work_of (form_of (map string_bytes words.now)) in
        Fulfils work.writes (S.seen store.old) (S.seen store.new) work.task result }
{
    let Some(command) = Command::read(words) else {
        return Err(usage(alloc));
    };
    match command {
        Command::OverInit { init, over } => objects::answer(rt, alloc, init, over, gate, store),
        Command::Show { image } => show::answer(alloc, image, store),
        Command::Make { workload } => make::answer(rt, alloc, workload, gate),
        Command::Areas { ckpt } => make_areas(alloc, ckpt, store),
        Command::Restore { files, threads } => restore(alloc, files, threads, store),
        Command::Checkpoint { files, threads } => checkpoint(alloc, files, threads, store),
        Command::Ship { logs, threads, out } => ship(alloc, logs, threads, out, store),
    }
}

/// Puts a text, and ends as it says unless the sink or memory fails.
fn put<K: Sink>(out: &mut K, ending: Ending, text: &[u8]) -> Exit
    ensures { PutExits (K.held out.old) (K.held out.new) ending text.now result }
{
    match out.put(text) {
        Ok(()) => Exit::Said(ending),
        Err(OutsideFault::Failed) => Exit::SinkFault,
        Err(OutsideFault::NoMemory) => Exit::NoMemory,
    }
}

/// Does what the words say.
fn run<R: Threads + Wait + Sync, S: Store, K: Sink, G: Gate + Sync>(
    rt: &R,
    alloc: Global,
    words: &[String],
    store: &mut S,
    out: &mut K,
    gate: &G,
) -> Exit
    ensures says { let seen = seen_by (map string_bytes words.now) (S.seen store.old) (S.seen store.new)
        (K.held out.old) (K.held out.new) in
        ExitSays seen result }
    ensures determined { let seen = seen_by (map string_bytes words.now) (S.seen store.old) (S.seen store.new)
        (K.held out.old) (K.held out.new) in
        ExitDetermined seen result }
    ensures files { SameBut (writes_of (form_of (map string_bytes words.now))) (S.seen store.old) (S.seen store.new) }
{
    match answer_to(rt, alloc, words, gate, store) {
        Ok(report) => put(out, Ending::Done, &report),
        Err(Stop::Says { ending, text }) => put(out, ending, &text),
        Err(Stop::NoMemory) => Exit::NoMemory,
    }
}

/// Does what the words say over a store of files and a sink for the output, and answers the exit status.
/// The words are those of the program without its name. The gate is called at the points of each update that threads make.
pub fn onll<R: Threads + Wait + Sync, S: Store, K: Sink, G: Gate + Sync>(
    rt: &R,
    alloc: Global,
    words: &[String],
    store: &mut S,
    out: &mut K,
    gate: &G,
) -> u8
    ensures { Promises
        (seen_by (map string_bytes words.now) (S.seen store.old) (S.seen store.new) (K.held out.old) (K.held out.new))
        result }
{
    run(rt, alloc, words, store, out, gate).status()
}
