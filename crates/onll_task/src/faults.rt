//! What is said of logs that give no state, or from which nothing goes on.

ghost use Rattle.std.specs.Prelude.{[], ◌≡◌, ◌∷◌, ◌++◌, true, OnOk, map, string_bytes, codes, decimal, get_or};
ghost use Rattle.onll_words.specs.Texts.{line_text};
ghost use Rattle.onll_text.specs.Refusal.{refused};
ghost use Rattle.onll_text.specs.Bytes.{begins_line};
ghost use Rattle.onll_task.specs.Faults.{merging_line, fault_line};
ghost use Rattle.onll_task.specs.NotResumed.{resume_ending, resume_text};
ghost use Rattle.onll_task.specs.Printed.{refusal_text};
ghost use Rattle.onll_task.specs.Stop.{StopSays};

use crate::answer::Stop;
use crate::ending::Ending;
use onll_merge::{RecoverFault, StateFault};
use onll_start::ResumeFault;
use onll_text::{Piece, Reason, Report};
use onll_words::NoMemory;
use std::alloc::Global;

/// The line of logs that do not merge.
fn put_merging(fault: RecoverFault, out: &mut Report) -> Result<(), NoMemory>
    requires { begins_line out.old ≡ true }
    ensures { OnOk result (out.new ≡ out.old ++ merging_line fault) }
{
    match fault {
        RecoverFault::NotThisRun { log } => out.line(&[
            Piece::Text(b"log"),
            Piece::Number(log),
            Piece::Text(b"not"),
            Piece::Text(b"of"),
            Piece::Text(b"this"),
            Piece::Text(b"run"),
        ]),
        RecoverFault::Disorder { log, entry } => out.line(&[
            Piece::Text(b"log"),
            Piece::Number(log),
            Piece::Text(b"entry"),
            Piece::Number(entry),
            Piece::Text(b"disorder"),
        ]),
        RecoverFault::Clash { place, log, other } => out.line(&[
            Piece::Text(b"place"),
            Piece::Number(place),
            Piece::Text(b"differs"),
            Piece::Text(b"in"),
            Piece::Text(b"logs"),
            Piece::Number(log),
            Piece::Text(b"and"),
            Piece::Number(other),
        ]),
        RecoverFault::Gap { place } => out.line(&[
            Piece::Text(b"place"),
            Piece::Number(place),
            Piece::Text(b"missing"),
        ]),
        RecoverFault::Stray {
            place,
            thread,
            number,
            wanted,
        } => out.line(&[
            Piece::Text(b"place"),
            Piece::Number(place),
            Piece::Text(b"thread"),
            Piece::Number(thread),
            Piece::Text(b"number"),
            Piece::Number(number),
            Piece::Text(b"wanted"),
            Piece::Number(wanted),
        ]),
        RecoverFault::NoMemory => Err(NoMemory),
    }
}

/// The line of logs that give no state.
fn put_fault(fault: StateFault, out: &mut Report) -> Result<(), NoMemory>
    requires { begins_line out.old ≡ true }
    ensures { OnOk result (out.new ≡ out.old ++ fault_line fault) }
{
    match fault {
        StateFault::NotLog { log } => out.line(&[
            Piece::Text(b"log"),
            Piece::Number(log),
            Piece::Text(b"not"),
            Piece::Text(b"a"),
            Piece::Text(b"log"),
        ]),
        StateFault::NotMerged(fault) => put_merging(fault, out),
        StateFault::NotOperation { place } => out.line(&[
            Piece::Text(b"place"),
            Piece::Number(place),
            Piece::Text(b"not"),
            Piece::Text(b"an"),
            Piece::Text(b"operation"),
        ]),
        StateFault::NoMemory => Err(NoMemory),
    }
}

/// What is said of logs that give no state.
pub fn bad_logs(alloc: Global, fault: StateFault) -> Stop
    ensures { StopSays result (λ end said. (end ≡ Ending.BadLog) × (said ≡ fault_line fault)) }
{
    let mut out = Report::new(alloc);
    match put_fault(fault, &mut out) {
        Ok(()) => Stop::Says {
            ending: Ending::BadLog,
            text: out.into_bytes(),
        },
        Err(NoMemory) => Stop::NoMemory,
    }
}

/// What is said of a log of format 1.
fn old_log(alloc: Global, log: u64) -> Stop
    ensures { StopSays result (λ end said. (end ≡ Ending.BadLog)
        × (said ≡ line_text (codes "log" ∷ decimal log ∷ codes "of" ∷ codes "format" ∷ decimal 1 ∷ []))) }
{
    let mut out = Report::new(alloc);
    let line = out.line(&[
        Piece::Text(b"log"),
        Piece::Number(log),
        Piece::Text(b"of"),
        Piece::Text(b"format"),
        Piece::Number(1),
    ]);
    match line {
        Ok(()) => Stop::Says {
            ending: Ending::BadLog,
            text: out.into_bytes(),
        },
        Err(_) => Stop::NoMemory,
    }
}

/// What is said of a thread whose script has too many updates, by the name of the script's file.
fn too_many(alloc: Global, names: &[String], thread: u64) -> Stop
    ensures { let name = get_or (map string_bytes names.now) thread [] in
        StopSays result (λ end said. (end ≡ Ending.Refused) × (said ≡ refusal_text name (refused 0 Reason.TooMany))) }
{
    let name = match names.get(thread as usize) {
        Some(name) => name.as_str(),
        None => "",
    };
    Stop::refused(alloc, name, 0, Reason::TooMany)
}

/// What is said where nothing goes on from images with the scripts of these files.
pub fn not_resumed(alloc: Global, names: &[String], fault: ResumeFault) -> Stop
    ensures { StopSays result (λ end said. (end ≡ resume_ending fault) × (said ≡ resume_text (map string_bytes names.now) fault)) }
{
    match fault {
        ResumeFault::Images(fault) => bad_logs(alloc, StateFault::from(fault)),
        ResumeFault::OldFormat { log } => old_log(alloc, log),
        ResumeFault::NotOp { place } => bad_logs(alloc, StateFault::NotOperation { place }),
        ResumeFault::TooMany { thread } => too_many(alloc, names, thread),
        ResumeFault::NoMemory => Stop::NoMemory,
    }
}
