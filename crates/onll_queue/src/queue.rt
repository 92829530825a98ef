//! The queue, on a ring of the kit.

ghost use Rattle.std.specs.Prelude.{◌≡◌, ◌<◌, ◌≤◌, [], length, IfOk, slice_index};
ghost use Rattle.onll_model.specs.Limits.{most_elements};
ghost use Rattle.std.proofs.Common.{rules};
ghost use Rattle.onll_queue.specs.Items.{IsQueue};
ghost use Rattle.onll_queue.specs.Queue.{items_in, queue_reply, queue_next};
ghost use Rattle.onll_queue.specs.Object.{queue};

use crate::operation::{QueueOp, QueueQuery, QueueReply};
use circular_buffer::HeapCircularBuffer;
use onll_model::Object;
use onll_words::{NoMemory, OpRow};
use std::alloc::Global;
use std::marker::Model;

/// Makes a ring equal to another of equal capacity.
fn refill(ring: &mut HeapCircularBuffer<u64>, from: &HeapCircularBuffer<u64>)
    requires { ring.old.capacity ≡ from.now.capacity }
    ensures { ring.new ≡ from.now }
{
    // the items of a ring are within its capacity, so both parts fit
    let _capacity = from.capacity();
    let (front, back) = from.as_slices();
    ring.clear();
    ring.fill_from_slice(front);
    ring.fill_from_slice(back);
}

/// A queue of 64-bit numbers with room for 1 to 4,096, seen as the list of its items, front first, and its room.
#[derive(Drop)]
pub struct Queue {
    ring: HeapCircularBuffer<u64>,
}

impl Model for Queue {
    ghost use Rattle.onll_queue.specs.Items.{Items, IsQueue};

    ghost Value = { Items };

    ghost view = { λ s. record { items = s.ring.items; room = s.ring.capacity } };

    ghost invariant = { λ s. IsQueue (record { items = s.ring.items; room = s.ring.capacity }) };
}

impl Queue {
    /// An empty queue that has room for this many items. The room is taken here, so no later call takes memory.
    pub fn make(alloc: Global, capacity: u64) -> Result<Queue, NoMemory>
        requires { (1 ≤ capacity) × (capacity ≤ most_elements) }
        ensures { IfOk result (λ made. made ≡ items_in capacity []) }
    {
        let ring = HeapCircularBuffer::with_capacity(alloc, capacity as usize)?;
        Ok(Queue { ring })
    }

    /// What every queue keeps. It does nothing when called.
    pub fn consistent(&self)
        ensures { IsQueue self.now }
    {
        let _ = &self.ring;
    }

    /// How many items there are, at most 4,096.
    pub fn length(&self) -> u64
        ensures { result ≡ length self.now.items }
    {
        self.ring.len() as u64
    }

    /// The item at this place, where the front is 0.
    pub fn item(&self, i: u64) -> u64
        requires { i < length self.now.items }
        ensures { result ≡ slice_index self.now.items i }
    {
        match self.ring.get(i as usize) {
            Some(item) => *item,
            None => unreachable!(),
        }
    }

    fn push(&mut self, x: u64) -> QueueReply
        ensures next { self.new ≡ queue_next self.old (QueueOp.Push x) }
        ensures reply { result ≡ queue_reply self.old (QueueOp.Push x) }
    {
        match self.ring.try_push_back(x) {
            Ok(()) => QueueReply::Done,
            Err(_) => QueueReply::Full,
        }
    }

    fn pop(&mut self) -> QueueReply
        ensures next { self.new ≡ queue_next self.old QueueOp.Pop }
        ensures reply { result ≡ queue_reply self.old QueueOp.Pop }
    {
        match self.ring.pop_front() {
            Some(item) => QueueReply::Item(item),
            None => QueueReply::Empty,
        }
    }
}

impl Object for Queue {
    type Op = QueueOp;

    type Query = QueueQuery;

    type Reply = QueueReply;

    const CODE: u64 = 3;

    ghost CODE = { 3 };

    ghost means = { queue };

    fn apply(&mut self, op: QueueOp) -> QueueReply {
        match op {
            QueueOp::Push { x } => self.push(x),
            QueueOp::Pop => self.pop(),
        }
    }

    fn ask(&self, query: QueueQuery) -> QueueReply {
        match query {
            QueueQuery::Front => match self.ring.front() {
                Some(item) => QueueReply::Item(*item),
                None => QueueReply::Empty,
            },
            QueueQuery::Length => QueueReply::Length(self.length()),
        }
    }

    fn op_row(op: QueueOp) -> OpRow {
        let w = match op {
            QueueOp::Push { x } => [1, x, 0, 0, 0, 0, 0],
            QueueOp::Pop => [2, 0, 0, 0, 0, 0, 0],
        };
        OpRow { w }
    }

    fn op_of_row(row: OpRow) -> Option<QueueOp> {
        let [code, a, b, c, d, e, f] = row.w;
        if b != 0 || c != 0 || d != 0 || e != 0 || f != 0 {
            return None;
        }
        match code {
            1 => Some(QueueOp::Push { x: a }),
            2 if a == 0 => Some(QueueOp::Pop),
            _ => None,
        }
    }

    fn copy(&self, alloc: Global) -> Result<Self, NoMemory> {
        let mut ring = HeapCircularBuffer::with_capacity(alloc, self.ring.capacity())?;
        refill(&mut ring, &self.ring);
        Ok(Queue { ring })
    }

    fn restore(&mut self, from: &Self) {
        refill(&mut self.ring, &from.ring);
    }

    fn capacity(&self) -> u64 {
        self.ring.capacity() as u64
    }

    ghost code_in_range = { Prim.search rules };
}
