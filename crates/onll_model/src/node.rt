//! The node of a trace, its name, and its line in a log.

ghost use Rattle.std.specs.Prelude.{◌≡◌, ◌≤◌};
ghost use Rattle.onll_model.specs.Names.{name_of, node_of_name, HasName, words_of_node};

use crate::limits::MOST_UPDATES;
use onll_words::{Line, OpRow};

/// An update in a trace. It doesn't hold its place, which is its number in the trace from 1.
#[derive(Clone, Copy, Debug, PartialEq, Eq)]
pub struct Node {
    /// The thread whose update it is, from 0.
    pub thread: u64,
    /// Which update of its thread it is, from 1.
    pub number: u64,
    /// The row of its operation.
    pub row: OpRow,
}

/// A blank, for places of a list that hold no node yet.
impl Default for Node {
    fn default() -> Node {
        Node {
            thread: 0,
            number: 0,
            row: OpRow { w: [0; 7] },
        }
    }
}

impl Node {
    /// The one number, 1 to 65,536, that stands for the thread and the number in a log.
    pub fn name(&self) -> u64
        requires { HasName self.now }
        ensures name { result ≡ name_of self.now }
        ensures range { (1 ≤ result) × (result ≤ 65536) }
    {
        self.thread * MOST_UPDATES + self.number
    }

    /// The one node of this name and row.
    pub fn of_name(name: u64, row: OpRow) -> Node
        requires { (1 ≤ name) × (name ≤ 65536) }
        ensures node { result ≡ node_of_name name row }
        ensures name { name_of result ≡ name }
        ensures fits { HasName result }
    {
        Node {
            thread: (name - 1) / MOST_UPDATES,
            number: (name - 1) % MOST_UPDATES + 1,
            row,
        }
    }
}

/// The line of a log that holds a node: its name and the seven words of its row.
pub fn node_line(node: Node) -> Line
    requires { HasName node }
    ensures { result.w ≡ words_of_node node }
{
    let [code, a, b, c, d, e, f] = node.row.w;
    Line {
        w: [node.name(), code, a, b, c, d, e, f],
    }
}
