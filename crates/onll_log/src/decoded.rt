//! What an image holds as a log, decoded: its head, its entries, and their nodes.

ghost use Rattle.std.specs.Prelude.{◌≡◌, ◌<◌, ◌≤◌, ◌^◌, length, drop};
ghost use Rattle.onll_pmem.specs.Pmem.{words_of};
ghost use Rattle.onll_log.specs.Grammar.{lines_in, used_by, are_zero_lines};
ghost use Rattle.onll_log.specs.Decoded.{segments_in, content_in};
ghost use Rattle.onll_log.specs.Survey.{survey_of, top_in_log, disorder_from};

use crate::head::LogHead;
use crate::image::are_zero;
use crate::survey::{LogSurvey, disorder_with};
use onll_model::Node;
use onll_words::Line;
use std::marker::Model;

/// Nodes in order, seen as their list.
#[derive(Drop)]
pub struct Nodes {
    nodes: Vec<Node>,
}

impl Model for Nodes {
    ghost use Rattle.std.specs.Prelude.{List};
    ghost use Rattle.onll_model.specs.declared.node.Node.{Node};

    ghost Value = { List Node };

    ghost view = { λ s. s.nodes.items };
}

impl Nodes {
    pub fn of_vec(nodes: Vec<Node>) -> Nodes
        ensures { result ≡ nodes.items }
    {
        Nodes { nodes }
    }

    pub fn as_slice(&self) -> &[Node]
        ensures { result.now ≡ self.now }
    {
        &self.nodes
    }

    pub fn into_vec(self) -> Vec<Node>
        ensures { result.items ≡ self }
    {
        self.nodes
    }
}

/// An accepted entry of a log: the line at which it begins, its nodes, and the place of the last of them.
#[derive(Drop)]
pub struct Entry {
    pub line: u64,
    pub place: u64,
    pub nodes: Nodes,
}

/// Entries in order, seen as their list.
#[derive(Drop)]
pub struct Entries {
    entries: Vec<Entry>,
}

impl Model for Entries {
    ghost use Rattle.std.specs.Prelude.{List};
    ghost use Rattle.onll_log.specs.declared.decoded.Entry.{Entry};

    ghost Value = { List Entry };

    ghost view = { λ s. s.entries.items };
}

impl Entries {
    pub fn of_vec(entries: Vec<Entry>) -> Entries
        ensures { result ≡ entries.items }
    {
        Entries { entries }
    }

    pub fn as_slice(&self) -> &[Entry]
        ensures { result.now ≡ self.now }
    {
        &self.entries
    }

    pub fn into_vec(self) -> Vec<Entry>
        ensures { result.items ≡ self }
    {
        self.entries
    }
}

/// What an image of a log holds: its head, None where it is all zero, and its accepted entries.
#[derive(Drop)]
pub struct Decoded {
    pub head: Option<LogHead>,
    pub entries: Entries,
}

impl Decoded {
    /// How many lines of the image are used: up to the end of its last accepted entry, and none where it has no head.
    pub fn used(&self) -> u64
        requires { used_by (content_in self.now) < 2 ^ 64 }
        ensures { result ≡ used_by (content_in self.now) }
    {
        match self.head {
            None => 0,
            Some(_) => 1 + lines_of(self.entries.as_slice()),
        }
    }

    /// What the entries are as a whole.
    pub(crate) fn survey(&self) -> LogSurvey
        requires { used_by (content_in self.now) < 2 ^ 64 }
        ensures { result ≡ survey_of (content_in self.now) }
    {
        let entries = self.entries.as_slice();
        let (top, disorder) = order_of(entries);
        LogSurvey {
            entries: entries.len() as u64,
            lines: self.used(),
            top,
            disorder,
        }
    }

    /// Whether only zeros stand after the used lines of the image.
    pub fn only_zeros_after(&self, image: &[Line]) -> bool
        requires { used_by (content_in self.now) ≤ length image.now }
        ensures { result ≡ are_zero_lines (drop (used_by (content_in self.now)) (words_of image.now)) }
    {
        let (_, rest) = image.split_at(self.used() as usize);
        are_zero(rest)
    }
}

/// How many lines entries take.
fn lines_of(entries: &[Entry]) -> u64
    requires { lines_in (segments_in entries.now) < 2 ^ 64 }
    ensures { result ≡ lines_in (segments_in entries.now) }
{
    let mut lines = 0;
    for entry in entries {
        lines += 1 + entry.nodes.as_slice().len() as u64;
    }
    lines
}

/// The greatest last place of these entries, 0 where there is none, and the first that is out of order.
fn order_of(entries: &[Entry]) -> (u64, Option<u64>)
    ensures top { result.0 ≡ top_in_log (segments_in entries.now) }
    ensures disorder { result.1 ≡ disorder_from 0 0 (segments_in entries.now) }
{
    let mut last = 0;
    let mut top = 0;
    let mut disorder = None;
    for (before, entry) in entries.iter().enumerate() {
        let count = entry.nodes.as_slice().len() as u64;
        disorder = disorder_with(disorder, before as u64, last, entry.place, count);
        last = entry.place;
        top = entry.place.max(top);
    }
    (top, disorder)
}
