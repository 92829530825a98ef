//! A stream is followed alike in pieces of any length, and in the order in which its entries come.

ghost use Rattle.std.specs.Prelude.{◌≤◌};

use crate::streams::{Piece, add, begun, feed, feed_pieces, head_line_of, stream_of, told};
use onll_log::LogHead;
use onll_standby::FeedFault;
use onll_words::line_bytes;
use std::alloc::Global;
use std::test::Fail;
use tests_found::Found;

const BOTH: &[Piece] = &[
    Piece::Entry(1, 1, 2, 2, 3851),
    Piece::Node(1, 1, 0, 5),
    Piece::Node(4097, 1, 1, 7),
];

const APART: &[Piece] = &[
    Piece::Entry(1, 1, 2, 1, 15),
    Piece::Node(4097, 1, 1, 7),
    Piece::Entry(0, 1, 1, 1, 11),
    Piece::Node(1, 1, 0, 5),
];

/// Whether a stream that is fed in pieces of a length is told so.
fn is_followed(alloc: Global, stream: &[u8], piece: usize, wanted: [u64; 5]) -> Result<bool, Fail>
    requires { 1 ≤ piece }
{
    let mut standby = begun(alloc)?;
    Ok(feed_pieces(&mut standby, stream, piece).is_ok() && told(&standby) == wanted)
}

/// Whether a stream's front is told so, and with the rest the whole.
fn is_cut(
    alloc: Global,
    stream: &[u8],
    at: usize,
    front: [u64; 5],
    whole: [u64; 5],
) -> Result<bool, Fail> {
    let Some((first, rest)) = stream.split_at_checked(at) else {
        return Ok(false);
    };
    let mut standby = begun(alloc)?;
    let so = feed(&mut standby, first).is_ok() && told(&standby) == front;
    Ok(so && feed(&mut standby, rest).is_ok() && told(&standby) == whole)
}

#[test]
fn a_stream_is_followed_in_pieces_of_any_length(rt: HostRuntime) -> Result<(), Fail> {
    let alloc = rt.alloc();
    let mut found = Found::new();
    let stream = stream_of(alloc, BOTH)?;
    found.must(stream.len() == 320, "the stream's length");
    for piece in 1..321 {
        found.must(
            is_followed(alloc, &stream, piece, [320, 1, 2, 5, 7])?,
            "a piece",
        );
    }
    found.must(
        is_cut(alloc, &stream, 319, [319, 0, 0, 0, 0], [320, 1, 2, 5, 7])?,
        "all but a byte",
    );
    found.must(
        is_cut(alloc, &stream, 0, [0, 0, 0, 0, 0], [320, 1, 2, 5, 7])?,
        "an empty piece",
    );
    let apart = stream_of(alloc, APART)?;
    found.must(
        is_cut(alloc, &apart, 256, [256, 1, 0, 0, 0], [384, 2, 2, 5, 7])?,
        "the second place first",
    );
    found.ended()
}

/// Whether lines of heads show a fault at a count of bytes.
fn heads_show(
    alloc: Global,
    lines: &[u8],
    fault: Option<FeedFault>,
    taken: u64,
) -> Result<bool, Fail> {
    let mut standby = begun(alloc)?;
    Ok(feed(&mut standby, lines).err() == fault && told(&standby) == [taken, 0, 0, 0, 0])
}

#[test]
fn header_lines_are_those_of_the_run(rt: HostRuntime) -> Result<(), Fail> {
    let alloc = rt.alloc();
    let mut found = Found::new();
    let other = LogHead::new(1, 2, 2, b"bank 2\n").line();
    let foreign = Some(FeedFault::NotThisRun { log: 0 });
    found.must(
        heads_show(alloc, &line_bytes(other), foreign, 64)?,
        "another run",
    );
    let mut lines = Vec::new(alloc);
    add(&mut lines, head_line_of(0))?;
    add(&mut lines, other)?;
    found.must(
        heads_show(alloc, &lines, Some(FeedFault::NotThisRun { log: 1 }), 128)?,
        "the second log",
    );
    lines.truncate(127);
    found.must(
        heads_show(alloc, &lines, None, 127)?,
        "all but a byte of a wrong line",
    );
    let mut lines = stream_of(alloc, &[])?;
    add(&mut lines, head_line_of(0))?;
    found.must(
        heads_show(alloc, &lines, Some(FeedFault::Refused { at: 128 }), 192)?,
        "a third header line",
    );
    found.ended()
}
