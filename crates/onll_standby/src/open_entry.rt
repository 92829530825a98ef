//! An entry of which some lines have come.

ghost use Rattle.std.specs.Prelude.{◌≡◌, ℕ, ◌+◌, ◌-◌, ◌<◌, ◌≤◌, List, [], ◌∷◌, ◌++◌, length, map, take, true};
ghost use Rattle.onll_pmem.specs.Pmem.{words_of};
ghost use Rattle.onll_log.specs.Grammar.{all_named, node_of_line};
ghost use Rattle.std.specs.List.{All};
ghost use Rattle.onll_standby.specs.Places.{most_lines, IsOfRun};

use onll_log::node_of;
use onll_model::{MOST_THREADS, Node};
use onll_words::Line;
use std::marker::Model;

/// The most lines of an entry.
const MOST: usize = 1 + MOST_THREADS as usize;

/// The first lines of an entry, seen as their list.
#[derive(Drop)]
pub struct OpenEntry {
    lines: [Line; MOST],
    count: usize,
}

impl Model for OpenEntry {
    ghost use Rattle.std.specs.Prelude.{ℕ, List, take, ◌≤◌};
    ghost use Rattle.onll_pmem.specs.Pmem.{words_of};
    ghost use Rattle.onll_standby.specs.Places.{most_lines};

    ghost Value = { List (List ℕ) };

    ghost view = { λ s. words_of (take s.count s.lines) };

    ghost invariant = { λ s. s.count ≤ most_lines };
}

impl OpenEntry {
    /// No line of an entry.
    pub fn new() -> OpenEntry
        ensures { result ≡ [] }
    {
        OpenEntry {
            lines: [Line { w: [0; 8] }; MOST],
            count: 0,
        }
    }

    /// The lines that have come.
    pub fn lines(&self) -> &[Line]
        ensures { words_of result.now ≡ self.now }
    {
        &self.lines[..self.count]
    }

    /// Adds a line.
    pub fn add(&mut self, line: &Line)
        requires { length self.old < most_lines }
        ensures { self.new ≡ self.old ++ line.now.w ∷ [] }
    {
        self.lines[self.count] = *line;
        self.count += 1;
    }

    /// Begins the next entry.
    pub fn clear(&mut self)
        ensures { self.new ≡ [] }
    {
        self.count = 0;
    }
}

/// The nodes of node lines, with blanks after them.
pub fn nodes_of(lines: &[Line]) -> [Node; 16]
    requires few { length lines.now ≤ 16 }
    requires named { all_named 65536 (words_of lines.now) ≡ true }
    ensures nodes { take (length lines.now) result ≡ map node_of_line (words_of lines.now) }
    ensures of_run { All IsOfRun (take (length lines.now) result) }
{
    let mut nodes = [Node::default(); 16];
    for (i, line) in lines.iter().enumerate() {
        nodes[i] = node_of(line);
    }
    nodes
}
