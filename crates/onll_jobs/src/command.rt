//! The words of the program, read as a command.

ghost use Rattle.std.specs.Prelude.{◌≡◌, true, map, string_bytes, Some, None, MatchOption, IfSome};
ghost use Rattle.onll_jobs.specs.Command.{fold_of, show_of, recover_of, replay_of, again_of, resume_of, run_of, make_of, detect_of, areas_of, restore_of, checkpoint_of, ship_of, follow_of, audit_of, named_form, form_of, form_in, OverInit, is_within, usage_text, IsCommand, over_in};
ghost use Rattle.onll_task.specs.Stop.{StopSays};

use crate::objects::Over;
use onll_eras::EraFiles;
use onll_model::{MOST_THREADS, MOST_UPDATES};
use onll_task::{Ending, Stop};
use onll_words::whole_number;
use onll_workload::Workload;
use std::alloc::Global;

/// The usage text.
const USAGE: &[u8] = b"usage: onll fold INIT SCRIPT\n       \
      onll show IMAGE\n       \
      onll recover INIT LOGS T\n       \
      onll replay INIT SCHEDULE LOGS SCRIPT..\n       \
      onll run INIT LOGS SCRIPT..\n       \
      onll make T N SEED\n       \
      onll again INIT SCHEDULE LOGS SCRIPT..\n       \
      onll resume INIT LOGS SCRIPT..\n       \
      onll detect INIT LOGS SCRIPT..\n       \
      onll areas CKPT\n       \
      onll restore INIT LOGS CKPT T\n       \
      onll checkpoint INIT LOGS CKPT T\n       \
      onll ship LOGS T OUT\n       \
      onll follow INIT T STREAM PIECE\n       \
      onll audit INIT REPORT SCRIPT..\n";

/// What is said where words are of no form.
pub(crate) fn usage(alloc: Global) -> Stop
    ensures { StopSays result (λ end said. (end ≡ Ending.Usage) × (said ≡ usage_text)) }
{
    Stop::says(alloc, Ending::Usage, USAGE)
}

/// A command and its names, as the program's words say it.
#[derive(Clone, Copy, Debug)]
pub(crate) enum Command<'a> {
    OverInit {
        init: &'a str,
        over: Over<'a>,
    },
    Show {
        image: &'a str,
    },
    Make {
        workload: Workload,
    },
    Areas {
        ckpt: &'a str,
    },
    Restore {
        files: EraFiles<'a>,
        threads: u64,
    },
    Checkpoint {
        files: EraFiles<'a>,
        threads: u64,
    },
    Ship {
        logs: &'a str,
        threads: u64,
        out: &'a str,
    },
}

/// A command over the object whose initial state the file `init` holds.
fn over_init<'a>(init: &'a str, over: Over<'a>) -> Command<'a>
    ensures { form_in result ≡ OverInit init.now (over_in over.entry) }
{
    Command::OverInit { init, over }
}

/// The fold of a script.
fn fold<'a>(names: &'a [String]) -> Option<Command<'a>>
    ensures { let form = fold_of (map string_bytes names.now) in
        MatchOption result (form ≡ None) (λ command. form ≡ Some (form_in command)) }
{
    match names {
        [init, script] => Some(over_init(init, Over::Fold { script })),
        _ => None,
    }
}

/// What an image holds.
fn show<'a>(names: &'a [String]) -> Option<Command<'a>>
    ensures { let form = show_of (map string_bytes names.now) in
        MatchOption result (form ≡ None) (λ command. form ≡ Some (form_in command)) }
{
    match names {
        [image] => Some(Command::Show { image }),
        _ => None,
    }
}

/// The recovery from the logs of so many threads.
fn recover<'a>(names: &'a [String]) -> Option<Command<'a>>
    ensures { let form = recover_of (map string_bytes names.now) in
        MatchOption result (form ≡ None) (λ command. form ≡ Some (form_in command)) }
{
    match names {
        [init, logs, threads] => {
            let threads = whole_number(threads.as_bytes())?;
            Some(over_init(init, Over::Recover { logs, threads }))
        }
        _ => None,
    }
}

/// The replay of scripts.
fn replay<'a>(names: &'a [String]) -> Option<Command<'a>>
    ensures { let form = replay_of (map string_bytes names.now) in
        MatchOption result (form ≡ None) (λ command. form ≡ Some (form_in command)) }
{
    match names {
        [init, schedule, logs, scripts @ ..] => Some(over_init(
            init,
            Over::Replay {
                schedule,
                logs,
                scripts,
            },
        )),
        _ => None,
    }
}

/// The replay of scripts that goes on from the images of an earlier one.
fn again<'a>(names: &'a [String]) -> Option<Command<'a>>
    ensures { let form = again_of (map string_bytes names.now) in
        MatchOption result (form ≡ None) (λ command. form ≡ Some (form_in command)) }
{
    match names {
        [init, schedule, logs, scripts @ ..] => Some(over_init(
            init,
            Over::Again {
                schedule,
                logs,
                scripts,
            },
        )),
        _ => None,
    }
}

/// The run of scripts on threads that goes on from the logs of an earlier one.
fn resume<'a>(names: &'a [String]) -> Option<Command<'a>>
    ensures { let form = resume_of (map string_bytes names.now) in
        MatchOption result (form ≡ None) (λ command. form ≡ Some (form_in command)) }
{
    match names {
        [init, logs, scripts @ ..] => Some(over_init(init, Over::Resume { logs, scripts })),
        _ => None,
    }
}

/// The run of scripts on threads.
fn run<'a>(names: &'a [String]) -> Option<Command<'a>>
    ensures { let form = run_of (map string_bytes names.now) in
        MatchOption result (form ≡ None) (λ command. form ≡ Some (form_in command)) }
{
    match names {
        [init, logs, scripts @ ..] => Some(over_init(init, Over::Run { logs, scripts })),
        _ => None,
    }
}

/// What became of the updates of scripts, by the logs of their run.
fn detect<'a>(names: &'a [String]) -> Option<Command<'a>>
    ensures { let form = detect_of (map string_bytes names.now) in
        MatchOption result (form ≡ None) (λ command. form ≡ Some (form_in command)) }
{
    match names {
        [init, logs, scripts @ ..] => Some(over_init(init, Over::Detect { logs, scripts })),
        _ => None,
    }
}

/// A workload of so many threads and updates, and of this seed.
fn make<'a>(names: &'a [String]) -> Option<Command<'a>>
    ensures { let form = make_of (map string_bytes names.now) in
        MatchOption result (form ≡ None) (λ command. form ≡ Some (form_in command)) }
{
    match names {
        [threads, updates, seed] => Some(Command::Make {
            workload: Workload {
                threads: whole_number(threads.as_bytes())?,
                updates: whole_number(updates.as_bytes())?,
                seed: whole_number(seed.as_bytes())?,
            },
        }),
        _ => None,
    }
}

/// The areas of checkpoints.
fn areas<'a>(names: &'a [String]) -> Option<Command<'a>>
    ensures { let form = areas_of (map string_bytes names.now) in
        MatchOption result (form ≡ None) (λ command. form ≡ Some (form_in command)) }
{
    match names {
        [ckpt] => Some(Command::Areas { ckpt }),
        _ => None,
    }
}

/// The restoration of the newest era, of so many threads.
fn restore<'a>(names: &'a [String]) -> Option<Command<'a>>
    ensures { let form = restore_of (map string_bytes names.now) in
        MatchOption result (form ≡ None) (λ command. form ≡ Some (form_in command)) }
{
    match names {
        [init, logs, ckpt, threads] => Some(Command::Restore {
            files: EraFiles { init, logs, ckpt },
            threads: whole_number(threads.as_bytes())?,
        }),
        _ => None,
    }
}

/// The checkpoint after the newest era, of so many threads.
fn checkpoint<'a>(names: &'a [String]) -> Option<Command<'a>>
    ensures { let form = checkpoint_of (map string_bytes names.now) in
        MatchOption result (form ≡ None) (λ command. form ≡ Some (form_in command)) }
{
    match names {
        [init, logs, ckpt, threads] => Some(Command::Checkpoint {
            files: EraFiles { init, logs, ckpt },
            threads: whole_number(threads.as_bytes())?,
        }),
        _ => None,
    }
}

/// The stream of the logs of so many threads.
fn ship<'a>(names: &'a [String]) -> Option<Command<'a>>
    ensures { let form = ship_of (map string_bytes names.now) in
        MatchOption result (form ≡ None) (λ command. form ≡ Some (form_in command)) }
{
    match names {
        [logs, threads, out] => Some(Command::Ship {
            logs,
            threads: whole_number(threads.as_bytes())?,
            out,
        }),
        _ => None,
    }
}

/// What follows such a stream, in pieces of so many bytes.
fn follow<'a>(names: &'a [String]) -> Option<Command<'a>>
    ensures { let form = follow_of (map string_bytes names.now) in
        MatchOption result (form ≡ None) (λ command. form ≡ Some (form_in command)) }
{
    match names {
        [init, threads, stream, piece] => {
            let threads = whole_number(threads.as_bytes())?;
            let piece = whole_number(piece.as_bytes())?;
            Some(over_init(
                init,
                Over::Follow {
                    threads,
                    stream,
                    piece,
                },
            ))
        }
        _ => None,
    }
}

/// The audit of a report of a run of scripts.
fn audit<'a>(names: &'a [String]) -> Option<Command<'a>>
    ensures { let form = audit_of (map string_bytes names.now) in
        MatchOption result (form ≡ None) (λ command. form ≡ Some (form_in command)) }
{
    match names {
        [init, report, scripts @ ..] => Some(over_init(init, Over::Audit { report, scripts })),
        _ => None,
    }
}

/// The command of a word with these names.
fn named<'a>(command: &str, names: &'a [String]) -> Option<Command<'a>>
    ensures { let form = named_form command.now (map string_bytes names.now) in
        MatchOption result (form ≡ None) (λ command. form ≡ Some (form_in command)) }
{
    if command == "fold" {
        fold(names)
    } else if command == "show" {
        show(names)
    } else if command == "recover" {
        recover(names)
    } else if command == "replay" {
        replay(names)
    } else if command == "again" {
        again(names)
    } else if command == "resume" {
        resume(names)
    } else if command == "run" {
        run(names)
    } else if command == "make" {
        make(names)
    } else if command == "detect" {
        detect(names)
    } else if command == "areas" {
        areas(names)
    } else if command == "restore" {
        restore(names)
    } else if command == "checkpoint" {
        checkpoint(names)
    } else if command == "ship" {
        ship(names)
    } else if command == "follow" {
        follow(names)
    } else if command == "audit" {
        audit(names)
    } else {
        None
    }
}

impl<'a> Command<'a> {
    /// The command of the words; nothing where they are of no form.
    pub(crate) fn read(words: &'a [String]) -> Option<Command<'a>>
        ensures form { let form = form_of (map string_bytes words.now) in
            MatchOption result (form ≡ None) (λ command. form ≡ Some (form_in command)) }
        ensures command { IfSome result IsCommand }
    {
        let (command, names) = words.split_first()?;
        let command = named(command, names)?;
        if command.is_within() {
            Some(command)
        } else {
            None
        }
    }

    /// Whether its numbers are within the limits.
    fn is_within(&self) -> bool
        ensures form { result ≡ is_within (form_in self.now) }
        ensures command { result ≡ true → IsCommand self.now }
    {
        match self {
            Command::OverInit { over, .. } => over.is_within(),
            Command::Show { .. } | Command::Areas { .. } => true,
            Command::Restore { threads, .. }
            | Command::Checkpoint { threads, .. }
            | Command::Ship { threads, .. } => 1 <= *threads && *threads <= MOST_THREADS,
            Command::Make { workload } => {
                1 <= workload.threads
                    && workload.threads <= MOST_THREADS
                    && 1 <= workload.updates
                    && workload.updates <= MOST_UPDATES
            }
        }
    }
}
