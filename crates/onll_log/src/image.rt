//! Decoding an image of a log.

ghost use Rattle.std.specs.Prelude.{◌≡◌, ◌+◌, ◌<◌, ◌≤◌, ◌==◌, length, map, take, drop, true, Some, None, IfOk, IfErr};
ghost use Rattle.onll_model.specs.Limits.{most_threads};
ghost use Rattle.onll_pmem.specs.Pmem.{words_of};
ghost use Rattle.onll_log.specs.Head.{word};
ghost use Rattle.onll_log.specs.Grammar.{all_named, is_entry, node_of_line, segment_of, entries_from, is_zero_line, are_zero_lines, content_of, used_by};
ghost use Rattle.onll_log.specs.declared.image.DecodeFault.TheVariants.{NoMemory};
ghost use Rattle.onll_log.specs.Decoded.{segment_in, segments_in, content_in, placed_from, Refuses};

use crate::decoded::{Decoded, Entries, Entry, Nodes};
use crate::entry::is_entry;
use crate::head::LogHead;
use onll_model::Node;
use onll_words::{Line, OpRow};
use std::alloc::{AllocError, Global};
use thiserror::Error;

/// Why an image is not decoded.
#[derive(Clone, Copy, Debug, PartialEq, Eq, Error)]
pub enum DecodeFault {
    /// There is no line, or the first one is no log's and some line is not zero.
    #[error("the image is no log")]
    NotLog,
    #[error("out of memory")]
    NoMemory,
}

impl From<AllocError> for DecodeFault {
    ghost from_gives = { λ _ e. e ≡ NoMemory };

    fn from(_e: AllocError) -> DecodeFault {
        DecodeFault::NoMemory
    }
}

/// Whether all words of a line are zero.
pub fn is_zero(line: &Line) -> bool
    ensures { result ≡ is_zero_line line.now.w }
{
    line.w == [0; 8]
}

/// Whether all words of lines are zero.
pub fn are_zero(lines: &[Line]) -> bool
    ensures { result ≡ are_zero_lines (words_of lines.now) }
{
    for line in lines {
        if !is_zero(line) {
            return false;
        }
    }
    true
}

/// The node that a line holds.
pub fn node_of(line: &Line) -> Node
    requires { (1 ≤ word line.now.w 0) × (word line.now.w 0 ≤ 65536) }
    ensures { result ≡ node_of_line line.now.w }
{
    let [name, code, a, b, c, d, e, f] = line.w;
    Node::of_name(
        name,
        OpRow {
            w: [code, a, b, c, d, e, f],
        },
    )
}

/// The nodes that lines hold.
fn nodes_of(alloc: Global, lines: &[Line]) -> Result<Vec<Node>, AllocError>
    requires { all_named 65536 (words_of lines.now) ≡ true }
    ensures { IfOk result (λ nodes. nodes.items ≡ map node_of_line (words_of lines.now)) }
{
    let mut nodes = Vec::with_capacity(alloc, lines.len())?;
    for line in lines {
        nodes.push(node_of(line))?;
    }
    Ok(nodes)
}

/// The entry that begins with this line, the image's line of this number, before the lines that follow.
fn entry_of(alloc: Global, number: u64, line: &Line, rest: &[Line]) -> Result<Entry, AllocError>
    requires whole { word line.now.w 4 ≤ length rest.now }
    requires named { all_named 65536 (words_of (take (word line.now.w 4) rest.now)) ≡ true }
    ensures entry { IfOk result (λ e. segment_in e ≡ segment_of line.now.w (words_of rest.now)) }
    ensures line { IfOk result (λ e. e.line ≡ number) }
{
    let count = line.w[4] as usize;
    Ok(Entry {
        line: number,
        place: line.w[3],
        nodes: Nodes::of_vec(nodes_of(alloc, &rest[..count])?),
    })
}

/// The accepted entries of a log of this head whose lines these are, all but the first.
fn entries_of(alloc: Global, head: &LogHead, lines: &[Line]) -> Result<Vec<Entry>, AllocError>
    requires threads { head.now.threads ≤ most_threads }
    ensures entries { IfOk result (λ entries. entries.items ≡ placed_from 1 (entries_from head.now 0 0 (words_of lines.now))) }
{
    let mut entries = Vec::new(alloc);
    let mut at = 0;
    while at < lines.len() {
        let line = &lines[at];
        let (_, rest) = lines.split_at(at + 1);
        if !is_entry(head, entries.len() as u64, line, rest) {
            return Ok(entries);
        }
        entries.push(entry_of(alloc, at as u64 + 1, line, rest)?)?;
        at += 1 + line.w[4] as usize;
    }
    Ok(entries)
}

/// What a log of this head holds, whose lines these are.
fn log_of(alloc: Global, head: LogHead, lines: &[Line]) -> Result<Decoded, DecodeFault>
    requires threads { head.threads ≤ most_threads }
    requires head { 1 ≤ length lines.now }
    ensures content { IfOk result (λ d. content_in d
        ≡ record { head = Some head; entries = entries_from head 0 0 (drop 1 (words_of lines.now)) }) }
    ensures lines { IfOk result (λ d. d.entries ≡ placed_from 1 (segments_in d.entries)) }
    ensures used { IfOk result (λ d. used_by (content_in d) ≤ length lines.now) }
    ensures refused { IfErr result (λ fault. fault ≡ DecodeFault.NoMemory) }
{
    let (_, rest) = lines.split_at(1);
    Ok(Decoded {
        head: Some(head),
        entries: Entries::of_vec(entries_of(alloc, &head, rest)?),
    })
}

/// Reads an image of a log. It refuses one that is no log.
pub fn decode(alloc: Global, lines: &[Line]) -> Result<Decoded, DecodeFault>
    ensures content { IfOk result (λ d. content_of (words_of lines.now) ≡ Some (content_in d)) }
    ensures lines { IfOk result (λ d. d.entries ≡ placed_from 1 (segments_in d.entries)) }
    ensures used { IfOk result (λ d. used_by (content_in d) ≤ length lines.now) }
    ensures refused { IfErr result (λ fault. Refuses fault (content_of (words_of lines.now))) }
{
    let Some(first) = lines.first() else {
        return Err(DecodeFault::NotLog);
    };
    if let Some(head) = LogHead::of_line(first) {
        return log_of(alloc, head, lines);
    }
    if !are_zero(lines) {
        return Err(DecodeFault::NotLog);
    }
    Ok(Decoded {
        head: None,
        entries: Entries::of_vec(Vec::new(alloc)),
    })
}
