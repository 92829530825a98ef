//! What is said in place of a report, and why.

ghost use Rattle.std.specs.Prelude.{◌≡◌, ◌≤◌, length, map, IfOk};
ghost use Rattle.onll_text.specs.Refusal.{refused};
ghost use Rattle.onll_text.specs.Pieces.{piece_word};
ghost use Rattle.onll_words.specs.Texts.{AreWords, line_text};
ghost use Rattle.onll_text.specs.Lines.{fence_line};
ghost use Rattle.onll_task.specs.Printed.{refusal_text, read_fault_text, write_fault_text};
ghost use Rattle.onll_task.specs.Stop.{StopSays};
ghost use Rattle.onll_task.specs.declared.answer.Stop.TheVariants.{NoMemory};

use crate::ending::Ending;
use itoa::Buffer;
use onll_text::{Piece, Reason, Report};
use onll_words::NoMemory;
use std::alloc::{AllocError, AllocFailed, Global};

/// Why a command gives no report, or a file no value.
#[derive(Drop)]
pub enum Stop {
    /// This text is to be put, and the call ends so.
    Says { ending: Ending, text: Vec<u8> },
    NoMemory,
}

impl From<NoMemory> for Stop {
    ghost from_gives = { λ _ stop. stop ≡ NoMemory };

    fn from(_e: NoMemory) -> Stop {
        Stop::NoMemory
    }
}

impl From<AllocError> for Stop {
    ghost from_gives = { λ _ stop. stop ≡ NoMemory };

    fn from(_e: AllocError) -> Stop {
        Stop::NoMemory
    }
}

impl<T: Drop> From<AllocFailed<T>> for Stop {
    ghost from_gives = { λ _ stop. stop ≡ NoMemory };

    fn from(_e: AllocFailed<T>) -> Stop {
        Stop::NoMemory
    }
}

impl Stop {
    /// A text that is no report, with its ending.
    pub fn says(alloc: Global, ending: Ending, text: &[u8]) -> Stop
        ensures { StopSays result (λ end said. (end ≡ ending) × (said ≡ text.now)) }
    {
        match Vec::from_slice(alloc, text) {
            Ok(text) => Stop::Says { ending, text },
            Err(_) => Stop::NoMemory,
        }
    }

    /// One line, with its ending: these words, one at least, each of which is one word.
    pub fn says_line(alloc: Global, ending: Ending, pieces: &[Piece<'_>]) -> Stop
        requires some { 1 ≤ length pieces.now }
        requires words { AreWords (map piece_word pieces.now) }
        ensures { StopSays result (λ end said. (end ≡ ending) × (said ≡ line_text (map piece_word pieces.now))) }
    {
        let mut out = Report::new(alloc);
        match out.line(pieces) {
            Ok(()) => Stop::Says {
                ending,
                text: out.into_bytes(),
            },
            Err(_) => Stop::NoMemory,
        }
    }

    /// The line of a refused text.
    pub fn refused(alloc: Global, name: &str, line: u64, reason: Reason) -> Stop
        ensures { StopSays result (λ end said. (end ≡ Ending.Refused) × (said ≡ refusal_text name.now (refused line reason))) }
    {
        match refusal_text(alloc, name, line, reason) {
            Ok(text) => Stop::Says {
                ending: Ending::Refused,
                text,
            },
            Err(_) => Stop::NoMemory,
        }
    }

    /// The line of a read that failed.
    pub fn unread(alloc: Global, name: &str) -> Stop
        ensures { StopSays result (λ end said. (end ≡ Ending.ReadFault) × (said ≡ read_fault_text name.now)) }
    {
        match read_fault_text(alloc, name) {
            Ok(text) => Stop::Says {
                ending: Ending::ReadFault,
                text,
            },
            Err(_) => Stop::NoMemory,
        }
    }

    /// The line of a write that failed.
    pub fn unwritten(alloc: Global, name: &str) -> Stop
        ensures { StopSays result (λ end said. (end ≡ Ending.WriteFault) × (said ≡ write_fault_text name.now)) }
    {
        match write_fault_text(alloc, name) {
            Ok(text) => Stop::Says {
                ending: Ending::WriteFault,
                text,
            },
            Err(_) => Stop::NoMemory,
        }
    }

    /// The line of a fence that failed: of an update of this thread at this place, or of its log's header at place 0.
    pub fn fence_failed(alloc: Global, thread: u64, place: u64) -> Stop
        ensures { StopSays result (λ end said. (end ≡ Ending.Faulty) × (said ≡ line_text (fence_line thread place))) }
    {
        let line = [
            Piece::Text(b"fault"),
            Piece::Text(b"thread"),
            Piece::Number(thread),
            Piece::Text(b"place"),
            Piece::Number(place),
        ];
        Stop::says_line(alloc, Ending::Faulty, &line)
    }
}

fn refusal_text(alloc: Global, name: &str, line: u64, reason: Reason) -> Result<Vec<u8>, AllocError>
    ensures { IfOk result (λ v. v.items ≡ refusal_text name.now (refused line reason)) }
{
    let mut buffer = Buffer::new();
    let mut text = Vec::from_slice(alloc, b"refused ")?;
    text.extend_from_slice(name.as_bytes())?;
    text.extend_from_slice(b" ")?;
    text.extend_from_slice(buffer.format(line).as_bytes())?;
    text.extend_from_slice(b" ")?;
    text.extend_from_slice(reason.text())?;
    text.extend_from_slice(b"\n")?;
    Ok(text)
}

fn read_fault_text(alloc: Global, name: &str) -> Result<Vec<u8>, AllocError>
    ensures { IfOk result (λ v. v.items ≡ read_fault_text name.now) }
{
    let mut text = Vec::from_slice(alloc, b"read fault ")?;
    text.extend_from_slice(name.as_bytes())?;
    text.extend_from_slice(b"\n")?;
    Ok(text)
}

fn write_fault_text(alloc: Global, name: &str) -> Result<Vec<u8>, AllocError>
    ensures { IfOk result (λ v. v.items ≡ write_fault_text name.now) }
{
    let mut text = Vec::from_slice(alloc, b"write fault ")?;
    text.extend_from_slice(name.as_bytes())?;
    text.extend_from_slice(b"\n")?;
    Ok(text)
}
