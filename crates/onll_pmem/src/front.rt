//! A list of lines that ends in zeros, of which only a front is held.

ghost use Rattle.std.specs.Prelude.{◌≡◌, ℕ, ◌+◌, ◌-◌, ◌<◌, ◌≤◌, ◌++◌, length, slice_set, IfOk};
ghost use Rattle.std.specs.Vec.{vec_capacity};
ghost use Rattle.onll_pmem.specs.Device.{zero_lines, line_at};
ghost use Rattle.onll_pmem.specs.Pmem.{words_of, EightWords};

use onll_words::Line;
use std::alloc::{AllocError, Global};
use std::marker::Model;

/// A line of zeros.
pub const ZERO: Line = Line { w: [0; 8] };

/// Appends lines of zeros up to the line of this number.
fn fill(front: &mut Vec<Line>, line: usize)
    requires behind { length front.old.items ≤ line }
    requires room { line < vec_capacity front.old }
    ensures words { words_of front.new.items ≡ words_of front.old.items ++ zero_lines (line + 1 - length front.old.items) }
    ensures capacity { vec_capacity front.new ≡ vec_capacity front.old }
{
    while front.len() <= line {
        front.push_reserved(ZERO);
    }
}

/// The line of this number.
fn line_of(lines: &[Line], line: usize) -> Line
    requires { line < length lines.now }
    ensures { result.w ≡ line_at (words_of lines.now) line }
{
    lines[line]
}

/// The same lines once more, with room for so many.
fn copied(alloc: Global, lines: &[Line], room: usize) -> Result<Vec<Line>, AllocError>
    requires { length lines.now ≤ room }
    ensures same { IfOk result (λ v. words_of v.items ≡ words_of lines.now) }
    ensures eight { IfOk result (λ v. EightWords (words_of v.items)) }
    ensures room { IfOk result (λ v. vec_capacity v ≡ room) }
{
    let mut copy = Vec::with_capacity(alloc, room)?;
    for i in 0..lines.len() {
        copy.push_reserved(line_of(lines, i));
    }
    Ok(copy)
}

/// This many lines, those after a front of zeros. The zeros take no memory that is written, until a line behind them is set.
#[derive(Drop)]
pub struct Front {
    front: Vec<Line>,
    count: usize,
}

impl Model for Front {
    ghost use Rattle.std.specs.Prelude.{List, ℕ, length};
    ghost use Rattle.std.specs.Vec.{vec_capacity};
    ghost use Rattle.onll_pmem.specs.Pmem.{words_of};
    ghost use Rattle.onll_pmem.specs.Front.{front_view, FitsRoom};

    ghost Value = { List (List ℕ) };

    ghost view = { λ f. front_view (words_of f.front.items) f.count };

    ghost invariant = { λ f. FitsRoom (length (words_of f.front.items)) f.count (vec_capacity f.front) };
}

impl Front {
    /// This many lines of zeros.
    pub fn zeros(alloc: Global, lines: usize) -> Result<Front, AllocError>
        ensures { IfOk result (λ f. f ≡ zero_lines lines) }
    {
        Ok(Front {
            front: Vec::with_capacity(alloc, lines)?,
            count: lines,
        })
    }

    /// These lines.
    pub fn of_lines(lines: Vec<Line>) -> Front
        ensures { result ≡ words_of lines.items }
    {
        Front {
            count: lines.len(),
            front: lines,
        }
    }

    /// The same lines once more.
    pub fn copy(&self, alloc: Global) -> Result<Front, AllocError>
        ensures same { IfOk result (λ f. f ≡ self.now) }
        ensures eight { IfOk result (λ f. EightWords f) }
    {
        Ok(Front {
            front: copied(alloc, &self.front, self.count)?,
            count: self.count,
        })
    }

    pub fn len(&self) -> usize
        ensures { result ≡ length self.now }
    {
        self.count
    }

    /// The lines of the front, after which all are zero.
    pub fn held(&self) -> &[Line]
        ensures within { length result.now ≤ length self.now }
        ensures zeros { self.now ≡ words_of result.now ++ zero_lines (length self.now - length result.now) }
    {
        &self.front
    }

    /// The line of this number.
    pub fn line(&self, line: usize) -> Line
        requires { line < length self.now }
        ensures { result.w ≡ line_at self.now line }
    {
        if line < self.front.len() {
            line_of(&self.front, line)
        } else {
            ZERO
        }
    }

    pub fn set(&mut self, line: usize, value: Line)
        requires { line < length self.old }
        ensures { self.new ≡ slice_set self.old line value.w }
    {
        if self.front.len() <= line {
            fill(&mut self.front, line);
        }
        self.front[line] = value;
    }
}
