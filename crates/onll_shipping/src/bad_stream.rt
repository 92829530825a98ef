//! The lines of streams that show a fault.

ghost use Rattle.std.specs.Prelude.{◌≡◌, [], ◌∷◌, codes, decimal};
ghost use Rattle.onll_words.specs.Texts.{line_text, IsWord};
ghost use Rattle.onll_shipping.specs.FollowJob.{stream_fault_line};
ghost use Rattle.onll_task.specs.Stop.{StopSays};

use onll_standby::FeedFault;
use onll_task::{Ending, Stop};
use onll_text::Piece;
use std::alloc::Global;

/// What is said of a fault in an entry that begins at this byte.
fn bad_entry(alloc: Global, at: u64, what: &[u8]) -> Stop
    requires { IsWord what.now }
    ensures { StopSays result (λ end said. (end ≡ Ending.BadLog)
        × (said ≡ line_text (codes "stream" ∷ codes "byte" ∷ decimal at ∷ what.now ∷ []))) }
{
    let line = [
        Piece::Text(b"stream"),
        Piece::Text(b"byte"),
        Piece::Number(at),
        Piece::Text(what),
    ];
    Stop::says_line(alloc, Ending::BadLog, &line)
}

/// What is said of a stream that shows this fault.
pub fn bad_stream(alloc: Global, fault: FeedFault) -> Stop
    ensures { StopSays result (λ end said. (end ≡ Ending.BadLog) × (said ≡ stream_fault_line fault)) }
{
    match fault {
        FeedFault::NotThisRun { log } => {
            let line = [
                Piece::Text(b"stream"),
                Piece::Text(b"log"),
                Piece::Number(log),
                Piece::Text(b"not"),
                Piece::Text(b"of"),
                Piece::Text(b"this"),
                Piece::Text(b"run"),
            ];
            Stop::says_line(alloc, Ending::BadLog, &line)
        }
        FeedFault::Refused { at } => bad_entry(alloc, at, b"refused"),
        FeedFault::Disorder { at } => bad_entry(alloc, at, b"disorder"),
        FeedFault::Clash { at, place } => {
            let line = [
                Piece::Text(b"stream"),
                Piece::Text(b"byte"),
                Piece::Number(at),
                Piece::Text(b"place"),
                Piece::Number(place),
                Piece::Text(b"differs"),
            ];
            Stop::says_line(alloc, Ending::BadLog, &line)
        }
        FeedFault::Stray { place } => {
            let line = [
                Piece::Text(b"stream"),
                Piece::Text(b"place"),
                Piece::Number(place),
                Piece::Text(b"wrong"),
                Piece::Text(b"number"),
            ];
            Stop::says_line(alloc, Ending::BadLog, &line)
        }
        FeedFault::NotOp { place } => {
            let line = [
                Piece::Text(b"stream"),
                Piece::Text(b"place"),
                Piece::Number(place),
                Piece::Text(b"not"),
                Piece::Text(b"an"),
                Piece::Text(b"operation"),
            ];
            Stop::says_line(alloc, Ending::BadLog, &line)
        }
        FeedFault::NoMemory => Stop::NoMemory,
    }
}
