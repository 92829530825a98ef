//! Tests of a queue.

use crate::rows::{expect_answers, expect_no_operation, expect_one_to_one, expect_replies};
use onll_model::{Object, capacity_kept, undone};
use onll_queue::{Queue, QueueOp, QueueQuery, QueueReply};
use std::test::Fail;
use tests_found::Found;

#[test]
fn replies_in_order(rt: HostRuntime) -> Result<(), Fail> {
    let mut queue = Queue::make(rt.alloc(), 2)?;
    let table = [
        (QueueOp::Pop, QueueReply::Empty),
        (QueueOp::Push { x: 7 }, QueueReply::Done),
        (QueueOp::Push { x: u64::MAX }, QueueReply::Done),
        (QueueOp::Push { x: 9 }, QueueReply::Full),
        (QueueOp::Pop, QueueReply::Item(7)),
        (QueueOp::Push { x: 0 }, QueueReply::Done),
        (QueueOp::Push { x: 9 }, QueueReply::Full),
        (QueueOp::Pop, QueueReply::Item(u64::MAX)),
        (QueueOp::Pop, QueueReply::Item(0)),
        (QueueOp::Pop, QueueReply::Empty),
    ];
    expect_replies(&mut queue, &table)
}

#[test]
fn front_stays(rt: HostRuntime) -> Result<(), Fail> {
    let mut queue = Queue::make(rt.alloc(), 3)?;
    let none = [
        (QueueQuery::Front, QueueReply::Empty),
        (QueueQuery::Length, QueueReply::Length(0)),
    ];
    expect_answers(&queue, &none)?;
    let _ = queue.apply(QueueOp::Push { x: 4 });
    let _ = queue.apply(QueueOp::Push { x: 5 });
    let both = [
        (QueueQuery::Front, QueueReply::Item(4)),
        (QueueQuery::Front, QueueReply::Item(4)),
        (QueueQuery::Length, QueueReply::Length(2)),
    ];
    expect_answers(&queue, &both)?;
    let mut found = Found::new();
    found.must(queue.length() == 2, "the length");
    found.must(queue.capacity() == 3, "the capacity");
    found.ended()
}

/// An item goes in and out of a queue that holds it alone.
fn expect_wrapped(queue: &mut Queue, x: u64, other: u64) -> Result<(), Fail> {
    let full = [
        (QueueOp::Push { x }, QueueReply::Done),
        (QueueOp::Push { x: other }, QueueReply::Full),
    ];
    expect_replies(queue, &full)?;
    expect_answers(queue, &[(QueueQuery::Front, QueueReply::Item(x))])?;
    let empty = [
        (QueueOp::Pop, QueueReply::Item(x)),
        (QueueOp::Pop, QueueReply::Empty),
    ];
    expect_replies(queue, &empty)
}

#[test]
fn one_item_wrapped(rt: HostRuntime) -> Result<(), Fail> {
    let mut queue = Queue::make(rt.alloc(), 1)?;
    for x in 0..1000 {
        expect_wrapped(&mut queue, x, x + 1)?;
    }
    Ok(())
}

#[test]
fn rows_of_no_operation() -> Result<(), Fail> {
    let rows = [
        [0, 0, 0, 0, 0, 0, 0],
        [3, 0, 0, 0, 0, 0, 0],
        [1, 5, 1, 0, 0, 0, 0],
        [1, 5, 0, 0, 0, 0, 1],
        [2, 5, 0, 0, 0, 0, 0],
        [2, 0, 0, 0, 1, 0, 0],
    ];
    expect_no_operation::<Queue>(&rows)
}

#[test]
fn rows_and_operations_are_one_to_one() -> Result<(), Fail> {
    let table = [
        (QueueOp::Push { x: 5 }, [1, 5, 0, 0, 0, 0, 0]),
        (QueueOp::Pop, [2, 0, 0, 0, 0, 0, 0]),
    ];
    expect_one_to_one::<Queue>(&table)
}

/// The items lie in the queue in their order, the first in front.
fn are_in_order(queue: &Queue) -> bool {
    let mut are = queue.length() == 3;
    for i in 0..3 {
        if i < queue.length() {
            are = are && queue.item(i) == i + 2;
        }
    }
    are
}

/// The items come out in their order, and they are all.
fn expect_items(queue: &mut Queue) -> Result<(), Fail> {
    let table = [
        (QueueOp::Pop, QueueReply::Item(2)),
        (QueueOp::Pop, QueueReply::Item(3)),
        (QueueOp::Pop, QueueReply::Item(4)),
        (QueueOp::Pop, QueueReply::Empty),
    ];
    expect_replies(queue, &table)
}

#[test]
fn a_copy_restores(rt: HostRuntime) -> Result<(), Fail> {
    let alloc = rt.alloc();
    let mut queue = Queue::make(alloc, 3)?;
    for x in 1..4 {
        let _ = queue.apply(QueueOp::Push { x });
    }
    // the items now lie round the end of the ring
    let _ = queue.apply(QueueOp::Pop);
    let _ = queue.apply(QueueOp::Push { x: 4 });
    let mut copy = queue.copy(alloc)?;
    let mut found = Found::new();
    found.must(copy.capacity() == 3, "the capacity of the copy");
    found.must(are_in_order(&copy), "the items of the copy");
    found.must(
        copy.apply(QueueOp::Push { x: 5 }) == QueueReply::Full,
        "the copy is full",
    );
    let _ = queue.apply(QueueOp::Pop);
    let _ = queue.apply(QueueOp::Pop);
    queue.restore(&copy);
    expect_items(&mut copy)?;
    undone(alloc, &mut queue, QueueOp::Pop)?;
    undone(alloc, &mut queue, QueueOp::Push { x: 6 })?;
    found.must(
        capacity_kept(&mut queue, QueueOp::Push { x: 6 }),
        "the capacity is kept",
    );
    expect_items(&mut queue)?;
    found.ended()
}
