//! Why logs are not shipped.

ghost use Rattle.std.specs.Prelude.{◌≡◌};
ghost use Rattle.onll_log.specs.Grammar.{content_of};
ghost use Rattle.onll_task.specs.Stop.{StopSays};
ghost use Rattle.onll_shipping.specs.ShipJob.{has_flaw, least_log, contents_of, ship_fault, ship_fault_line};

use onll_log::{LogImage, TestedImage};
use onll_task::{Ending, Stop};
use onll_text::Piece;
use std::alloc::Global;

/// Why a log is not shipped.
#[derive(Clone, Copy, Debug, PartialEq, Eq)]
pub enum Flaw {
    /// The image is no log.
    NotLog,
    /// The log is of format 1, in which no stream is.
    OldFormat,
    /// The log has no head yet.
    Empty,
}

/// Why logs are not shipped: the first of these that one of them gives, and the least such log. Logs are numbered from 0.
#[derive(Clone, Copy, Debug, PartialEq, Eq)]
pub enum ShipFault {
    NotLog { log: u64 },
    OldFormat { log: u64 },
    Empty { log: u64 },
}

/// Whether a log is not shipped for this reason.
fn has_flaw(image: &TestedImage<'_>, flaw: Flaw) -> bool
    ensures { result ≡ has_flaw flaw (content_of image.now) }
{
    let head = match image.open() {
        Some(cursor) => cursor.head(),
        None => return flaw == Flaw::NotLog,
    };
    match flaw {
        Flaw::NotLog => false,
        Flaw::OldFormat => match head {
            Some(head) => head.format == 1,
            None => false,
        },
        Flaw::Empty => head.is_none(),
    }
}

/// The least log with this flaw.
fn least_log(images: &[TestedImage<'_>], flaw: Flaw) -> Option<u64>
    ensures { result ≡ least_log flaw 0 (contents_of images.now) }
{
    for (log, image) in images.iter().enumerate() {
        if has_flaw(image, flaw) {
            return Some(log as u64);
        }
    }
    None
}

/// Why these logs are not shipped, None where they are.
pub fn ship_fault(images: &[TestedImage<'_>]) -> Option<ShipFault>
    ensures { result ≡ ship_fault (contents_of images.now) }
{
    if let Some(log) = least_log(images, Flaw::NotLog) {
        return Some(ShipFault::NotLog { log });
    }
    if let Some(log) = least_log(images, Flaw::OldFormat) {
        return Some(ShipFault::OldFormat { log });
    }
    if let Some(log) = least_log(images, Flaw::Empty) {
        return Some(ShipFault::Empty { log });
    }
    None
}

/// What is said of logs that are not shipped for this reason.
pub fn bad_log(alloc: Global, fault: ShipFault) -> Stop
    ensures { StopSays result (λ end said. (end ≡ Ending.BadLog) × (said ≡ ship_fault_line fault)) }
{
    match fault {
        ShipFault::NotLog { log } => {
            let line = [
                Piece::Text(b"log"),
                Piece::Number(log),
                Piece::Text(b"not"),
                Piece::Text(b"a"),
                Piece::Text(b"log"),
            ];
            Stop::says_line(alloc, Ending::BadLog, &line)
        }
        ShipFault::OldFormat { log } => {
            let line = [
                Piece::Text(b"log"),
                Piece::Number(log),
                Piece::Text(b"of"),
                Piece::Text(b"format"),
                Piece::Number(1),
            ];
            Stop::says_line(alloc, Ending::BadLog, &line)
        }
        ShipFault::Empty { log } => {
            let line = [
                Piece::Text(b"log"),
                Piece::Number(log),
                Piece::Text(b"empty"),
            ];
            Stop::says_line(alloc, Ending::BadLog, &line)
        }
    }
}
