//! The program over the system: its words, the system's files, standard output, and the status that its process ends with.
#![tactic(auto)]

ghost use Rattle.std.specs.Prelude.{map, string_bytes};
ghost use Rattle.std.specs.Process.{exit_status};
ghost use Rattle.onll_jobs.specs.Seen.{seen_by};
ghost use Rattle.onll_jobs.specs.Promises.{Promises};

use onll_jobs::Exit;
use onll_outside::{FileStore, FreeGate, OutSink, Sink, Store};
use std::alloc::{AllocError, Global};
use std::env::Env;
use std::io::{ErrorKind, Print};
use std::os::unix::fs::FileExt;
use std::process::ExitCode;
use std::rt::Files;
use std::sync::Wait;
use std::thread::Threads;
use std::{env, io};

/// The words without the program's name.
fn given(rt: &(impl Env + AllocGlobal)) -> io::Result<Vec<String>> {
    let mut words = Vec::new(rt.alloc());
    for word in env::args(rt)?.skip(1) {
        words.push(word).map_err(AllocError::from)?;
    }
    Ok(words)
}

/// The words without the program's name; none where they aren't text, since they are those of no command then.
fn words(rt: &(impl Env + AllocGlobal)) -> Result<Vec<String>, AllocError> {
    match given(rt) {
        Ok(words) => Ok(words),
        Err(e) if e.kind() == ErrorKind::OutOfMemory => Err(AllocError),
        Err(_) => Ok(Vec::new(rt.alloc())),
    }
}

/// Does what the words say over a store of files and a sink for the output, and gives the status that the process is to end with.
pub fn end_by<R: Threads + Wait + Sync, S: Store, K: Sink>(
    rt: &R,
    alloc: Global,
    words: &[String],
    store: &mut S,
    out: &mut K,
) -> ExitCode
    ensures { Promises
        (seen_by (map string_bytes words.now) (S.seen store.old) (S.seen store.new) (K.held out.old) (K.held out.new))
        (exit_status result) }
{
    ExitCode::from(onll_jobs::onll(rt, alloc, words, store, out, &FreeGate))
}

/// Does what the process's words say over the system's files and its standard output. It is all of `main`.
pub fn run<R>(rt: &R) -> ExitCode
where
    R: Env + Files + Print + AllocGlobal + Threads + Wait + Sync,
    R::File: FileExt + Send,
{
    let Ok(words) = words(rt) else {
        return ExitCode::from(Exit::NoMemory.status());
    };
    let mut store = FileStore::new(rt);
    let mut out = OutSink::new(io::writer(rt));
    end_by(rt, rt.alloc(), &words, &mut store, &mut out)
}
