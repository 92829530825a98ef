//! Streams of two logs of a bank, made of lines, and what a standby tells of them.

ghost use Rattle.std.specs.Prelude.{◌<◌, ◌≤◌};

use onll_bank::{Bank, BankQuery, BankReply};
use onll_log::LogHead;
use onll_model::Object;
use onll_standby::{FeedFault, Standby};
use onll_words::{Line, line_bytes};
use std::alloc::{AllocError, Global};
use std::test::Fail;

const BANK: &[u8] = b"bank 2\n";

/// The first word of an entry: the bytes `ONLLENT1`.
const ENTRY: u64 = 0x3154_4e45_4c4c_4e4f;

/// The highest bit of each mask.
const MASK: u64 = 0x8000_0000_0000_0000;

/// A line of a stream.
pub(crate) enum Piece {
    /// The header line of an entry: its thread, number in its log, last place, count of nodes, and the marks of its first mask.
    Entry(u64, u64, u64, u64, u64),
    /// The line of a node: its name, and the first three words of its row.
    Node(u64, u64, u64, u64),
}

fn line_of(piece: &Piece) -> Line {
    match piece {
        Piece::Entry(thread, number, place, count, marks) => Line {
            w: [
                ENTRY,
                *thread,
                *number,
                *place,
                *count,
                MASK | *marks,
                MASK,
                MASK,
            ],
        },
        Piece::Node(name, code, account, amount) => Line {
            w: [*name, *code, *account, *amount, 0, 0, 0, 0],
        },
    }
}

/// The header line of one of the two logs.
pub(crate) fn head_line_of(thread: u64) -> Line
    requires { thread < 2 }
{
    LogHead::new(thread, 2, Bank::CODE, BANK).line()
}

pub(crate) fn add(stream: &mut Vec<u8>, line: Line) -> Result<(), AllocError> {
    stream.extend_from_slice(&line_bytes(line))?;
    Ok(())
}

/// The header lines of two logs, and the lines of pieces after them.
pub(crate) fn stream_of(alloc: Global, pieces: &[Piece]) -> Result<Vec<u8>, AllocError> {
    let mut stream = Vec::new(alloc);
    add(&mut stream, head_line_of(0))?;
    add(&mut stream, head_line_of(1))?;
    for piece in pieces {
        add(&mut stream, line_of(piece))?;
    }
    Ok(stream)
}

/// A standby over a bank of two accounts, which expects both logs.
pub(crate) fn begun(alloc: Global) -> Result<Standby<Bank>, Fail> {
    let heads = vec![in alloc;
        LogHead::new(0, 2, Bank::CODE, BANK),
        LogHead::new(1, 2, Bank::CODE, BANK),
    ]?;
    Ok(Standby::begin(alloc, Bank::make(alloc, 2)?, heads)?)
}

fn amount(standby: &Standby<Bank>, account: u64) -> u64 {
    match standby.state().ask(BankQuery::Balance { a: account }) {
        BankReply::Amount(amount) => amount,
        _ => u64::MAX,
    }
}

/// What a standby tells: the bytes taken, the entries held, the places followed, and both balances.
pub(crate) fn told(standby: &Standby<Bank>) -> [u64; 5] {
    [
        standby.taken(),
        standby.held(),
        standby.followed(),
        amount(standby, 0),
        amount(standby, 1),
    ]
}

/// Feeds a piece of a short stream.
pub(crate) fn feed(standby: &mut Standby<Bank>, piece: &[u8]) -> Result<(), FeedFault> {
    if standby.taken() > 100_000 || piece.len() > 100_000 {
        return Err(FeedFault::NoMemory);
    }
    standby.feed(piece)
}

/// Feeds bytes in pieces of a length.
pub(crate) fn feed_pieces(
    standby: &mut Standby<Bank>,
    bytes: &[u8],
    piece: usize,
) -> Result<(), FeedFault>
    requires { 1 ≤ piece }
{
    for part in bytes.chunks(piece) {
        feed(standby, part)?;
    }
    Ok(())
}

/// Pieces of a stream without its last `cut` bytes, the fault that it shows, and what is told after it.
pub(crate) struct Row {
    pub(crate) name: &'static str,
    pub(crate) pieces: &'static [Piece],
    pub(crate) cut: usize,
    pub(crate) fault: Option<FeedFault>,
    pub(crate) told: [u64; 5],
}

/// Whether a row is so, and a fault is answered again.
pub(crate) fn is_so(alloc: Global, row: &Row) -> Result<bool, Fail> {
    let stream = stream_of(alloc, row.pieces)?;
    let Some((front, _)) = stream
        .as_slice()
        .split_at_checked(stream.len().saturating_sub(row.cut))
    else {
        return Ok(false);
    };
    let mut standby = begun(alloc)?;
    let first = feed_pieces(&mut standby, front, 100).err();
    let so = first == row.fault && told(&standby) == row.told;
    let again = feed(&mut standby, b"").err() == row.fault && told(&standby) == row.told;
    Ok(so && again)
}
