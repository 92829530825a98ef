//! The commands over an object: one dispatch over the kinds of object, for all of them.

ghost use Rattle.std.specs.Prelude.{◌≡◌, true};
ghost use Rattle.onll_text.specs.Kinds.{kind_by, on_object};
ghost use Rattle.onll_task.specs.Doing.{Fulfils};
ghost use Rattle.onll_jobs.specs.Command.{over_in, is_over, OverFits, DoesOver, over_work};

use crate::{audit, fold};
use onll_model::MOST_THREADS;
use onll_outside::{Gate, Store};
use onll_recovery::{PlayTexts, again_on, detect_on, recover_on, replay_on};
use onll_run::Surroundings;
use onll_runner::{resume_on, run_on};
use onll_shipping::{LONGEST_PIECE, StreamFile, follow_on};
use onll_task::{Stop, init_file};
use onll_text::{AnyObject, Texted, with_object};
use std::alloc::Global;
use std::sync::Wait;
use std::thread::Threads;

/// What is done over an object, once its initial state is read.
#[derive(Clone, Copy, Debug)]
pub(crate) enum Over<'a> {
    Fold {
        script: &'a str,
    },
    Recover {
        logs: &'a str,
        threads: u64,
    },
    Replay {
        schedule: &'a str,
        logs: &'a str,
        scripts: &'a [String],
    },
    Again {
        schedule: &'a str,
        logs: &'a str,
        scripts: &'a [String],
    },
    Resume {
        logs: &'a str,
        scripts: &'a [String],
    },
    Run {
        logs: &'a str,
        scripts: &'a [String],
    },
    Detect {
        logs: &'a str,
        scripts: &'a [String],
    },
    Follow {
        threads: u64,
        stream: &'a str,
        piece: u64,
    },
    Audit {
        report: &'a str,
        scripts: &'a [String],
    },
}

impl Over<'_> {
    /// Whether its numbers are within the limits.
    pub(crate) fn is_within(&self) -> bool
        ensures form { result ≡ is_over (over_in self.now) }
        ensures over { result ≡ true → OverFits self.now }
    {
        match self {
            Over::Fold { .. } => true,
            Over::Recover { threads, .. } => 1 <= *threads && *threads <= MOST_THREADS,
            Over::Replay { scripts, .. }
            | Over::Again { scripts, .. }
            | Over::Resume { scripts, .. }
            | Over::Run { scripts, .. }
            | Over::Detect { scripts, .. }
            | Over::Audit { scripts, .. } => {
                !scripts.is_empty() && scripts.len() as u64 <= MOST_THREADS
            }
            Over::Follow { threads, piece, .. } => {
                1 <= *threads && *threads <= MOST_THREADS && 1 <= *piece && *piece <= LONGEST_PIECE
            }
        }
    }
}

/// Does it over an object, whose initial state these bytes say.
fn over_one<R: Threads + Wait + Sync, O: Texted + Drop + Send + Sync, S: Store, G: Gate + Sync>(
    around: &Surroundings<'_, R, G>,
    mut object: O,
    init: &[u8],
    over: Over<'_>,
    store: &mut S,
) -> Result<Vec<u8>, Stop>
    requires { OverFits over }
    ensures { let k = kind_by O.means O.wording O.CODE in
        DoesOver (over_in over.entry) k (S.seen store.old) (S.seen store.new) init.now object result }
{
    let alloc = around.alloc;
    match over {
        Over::Fold { script } => fold::fold_object(alloc, &mut object, script, store),
        Over::Recover { logs, threads } => {
            recover_on(alloc, &mut object, init, logs, threads, store)
        }
        Over::Replay {
            schedule,
            logs,
            scripts,
        } => {
            let texts = PlayTexts {
                init,
                schedule,
                logs,
                scripts,
            };
            replay_on(alloc, object, &texts, store)
        }
        Over::Again {
            schedule,
            logs,
            scripts,
        } => {
            let texts = PlayTexts {
                init,
                schedule,
                logs,
                scripts,
            };
            again_on(alloc, object, &texts, store)
        }
        Over::Resume { logs, scripts } => resume_on(around, object, init, logs, scripts, store),
        Over::Run { logs, scripts } => run_on(around, object, init, logs, scripts, store),
        Over::Detect { logs, scripts } => detect_on(alloc, object, init, logs, scripts, store),
        Over::Follow {
            threads,
            stream,
            piece,
        } => {
            let stream = StreamFile {
                name: stream,
                threads,
                piece: piece as usize,
            };
            follow_on(alloc, object, init, &stream, store)
        }
        Over::Audit { report, scripts } => audit::audit_on(alloc, object, report, scripts, store),
    }
}

/// Does it over an object of any kind.
fn over_any<R: Threads + Wait + Sync, S: Store, G: Gate + Sync>(
    around: &Surroundings<'_, R, G>,
    object: AnyObject,
    init: &[u8],
    over: Over<'_>,
    store: &mut S,
) -> Result<Vec<u8>, Stop>
    requires { OverFits over }
    ensures { let form = over_in over.entry in
        on_object (λ k s. DoesOver form k (S.seen store.old) (S.seen store.new) init.now s result) object }
{
    with_object!(object, one => over_one(around, one, init, over, store))
}

/// Does it over the object that a file holds as an initial state.
pub(crate) fn answer<R: Threads + Wait + Sync, S: Store, G: Gate + Sync>(
    rt: &R,
    alloc: Global,
    init: &str,
    over: Over<'_>,
    gate: &G,
    store: &mut S,
) -> Result<Vec<u8>, Stop>
    requires { OverFits over }
    ensures { let work = over_work init.now (over_in over.entry) in
        Fulfils work.writes (S.seen store.old) (S.seen store.new) work.task result }
{
    match init_file(alloc, init, store) {
        Ok(read) => {
            let around = Surroundings { rt, alloc, gate };
            over_any(&around, read.object, &read.text, over, store)
        }
        Err(stop) => Err(stop),
    }
}
