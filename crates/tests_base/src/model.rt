//! Tests of names, node lines and recovered rows against values from the rules of a log, over a register.

ghost use Rattle.std.proofs.Common.{rules};
ghost use Rattle.tests_base.specs.Register.{register};

use onll_model::{Node, NotOp, Object, fold_nodes, node_line};
use onll_words::{NoMemory, OpRow};
use std::alloc::Global;
use std::marker::Model;
use std::test::Fail;
use tests_found::Found;

/// Holds one number, which each operation sets.
#[derive(Drop)]
struct Register {
    held: u64,
}

impl Model for Register {
    ghost use Rattle.std.specs.Prelude.{ℕ};

    ghost Value = { ℕ };

    ghost view = { λ r. r.held };
}

impl Object for Register {
    type Op = u64;

    type Query = u64;

    type Reply = u64;

    const CODE: u64 = 1;

    ghost CODE = { 1 };

    ghost means = { register };

    fn apply(&mut self, op: u64) -> u64 {
        let before = self.held;
        self.held = op;
        before
    }

    fn ask(&self, _query: u64) -> u64 {
        self.held
    }

    fn op_row(op: u64) -> OpRow {
        OpRow {
            w: [1, op, 0, 0, 0, 0, 0],
        }
    }

    fn op_of_row(row: OpRow) -> Option<u64> {
        let [code, x, b, c, d, e, f] = row.w;
        if code == 1 && b == 0 && c == 0 && d == 0 && e == 0 && f == 0 {
            Some(x)
        } else {
            None
        }
    }

    fn copy(&self, _alloc: Global) -> Result<Self, NoMemory> {
        Ok(Register { held: self.held })
    }

    fn restore(&mut self, from: &Self) {
        self.held = from.held;
    }

    fn capacity(&self) -> u64 {
        1
    }

    ghost code_in_range = { Prim.search rules };
}

const ROW: OpRow = OpRow {
    w: [1, 5, 0, 0, 0, 0, 0],
};

/// A row that is no operation of a register.
const OTHER: OpRow = OpRow {
    w: [2, 5, 0, 0, 0, 0, 0],
};

/// Whether the node of this thread and number, and no other, has this name.
fn is_named(name: u64, thread: u64, number: u64) -> bool {
    if name < 1 || name > 65_536 {
        return false;
    }
    let node = Node::of_name(name, ROW);
    node.thread == thread && node.number == number && node.name() == name
}

#[test]
fn names_of_nodes() -> Result<(), Fail> {
    let mut found = Found::new();
    found.must(is_named(1, 0, 1), "the name 1");
    found.must(is_named(4096, 0, 4096), "the name 4096");
    found.must(is_named(4097, 1, 1), "the name 4097");
    found.must(is_named(8192, 1, 4096), "the name 8192");
    found.must(is_named(28_772, 7, 100), "the name 28772");
    found.must(is_named(65_536, 15, 4096), "the name 65536");
    found.ended()
}

#[test]
fn the_line_of_a_node() -> Result<(), Fail> {
    let row = OpRow {
        w: [3, 11, 12, 13, 14, 15, 16],
    };
    let line = node_line(Node::of_name(4098, row));
    let mut found = Found::new();
    found.must(line.w == [4098, 3, 11, 12, 13, 14, 15, 16], "another line");
    found.ended()
}

#[test]
fn recovered_rows() -> Result<(), Fail> {
    let good = Node::of_name(1, ROW);
    let other = Node::of_name(2, OTHER);
    let mut register = Register { held: 9 };
    let mut found = Found::new();
    found.must(fold_nodes(&mut register, &[]) == Ok(()), "no row");
    found.must(register.held == 9, "changed by no row");
    found.must(
        fold_nodes(&mut register, &[other, good]) == Err(NotOp { place: 1 }),
        "the first row is no operation",
    );
    found.must(register.held == 9, "changed by a refused row");
    found.must(
        fold_nodes(&mut register, &[good, other, good]) == Err(NotOp { place: 2 }),
        "the second row is no operation",
    );
    found.must(register.held == 5, "not changed by the first row alone");
    found.ended()
}
