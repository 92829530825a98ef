//! Tests of a lease table.

use crate::rows::{expect_answers, expect_no_operation, expect_one_to_one, expect_replies};
use onll_lease::{Lease, LeaseEntry, LeaseOp, LeaseQuery, LeaseReply};
use onll_model::{Object, capacity_kept, undone};
use std::test::Fail;
use tests_found::Found;

const LAST: u64 = u64::MAX;

fn grant(r: u64, h: u64, now: u64, ttl: u64) -> LeaseOp {
    LeaseOp::Grant { r, h, now, ttl }
}

fn renew(r: u64, token: u64, now: u64, ttl: u64) -> LeaseOp {
    LeaseOp::Renew { r, token, now, ttl }
}

fn release(r: u64, token: u64) -> LeaseOp {
    LeaseOp::Release { r, token }
}

fn holder(r: u64, now: u64) -> LeaseQuery {
    LeaseQuery::Holder { r, now }
}

fn is_entry(lease: &Lease, r: u64, entry: LeaseEntry) -> bool {
    r < lease.capacity() && lease.entry(r) == entry
}

#[test]
fn a_lease_from_grant_to_grant(rt: HostRuntime) -> Result<(), Fail> {
    let mut lease = Lease::make(rt.alloc(), 2)?;
    let table = [
        (release(0, 0), LeaseReply::Stale),
        (renew(0, 0, 0, 5), LeaseReply::Stale),
        (grant(0, 7, 100, 50), LeaseReply::Granted(1)),
        (grant(0, 8, 149, 50), LeaseReply::HeldUntil(150)),
        (renew(0, 1, 149, 11), LeaseReply::Renewed(160)),
        (renew(0, 1, 160, 10), LeaseReply::Stale),
        (grant(0, 8, 160, 10), LeaseReply::Granted(2)),
        (renew(0, 1, 161, 10), LeaseReply::Stale),
        (release(0, 1), LeaseReply::Stale),
        (release(0, 2), LeaseReply::Released),
        (release(0, 2), LeaseReply::Stale),
        (renew(0, 2, 161, 10), LeaseReply::Stale),
        (grant(0, 9, 0, 0), LeaseReply::Granted(3)),
        (release(0, 3), LeaseReply::Stale),
        (grant(2, 9, 0, 1), LeaseReply::NoResource),
        (renew(2, 0, 0, 1), LeaseReply::NoResource),
        (release(LAST, 0), LeaseReply::NoResource),
    ];
    expect_replies(&mut lease, &table)?;
    let granted = LeaseEntry {
        token: 3,
        holder: 9,
        until: 0,
    };
    let never = LeaseEntry {
        token: 0,
        holder: 0,
        until: 0,
    };
    let mut found = Found::new();
    found.must(lease.capacity() == 2, "the capacity");
    found.must(is_entry(&lease, 0, granted), "the entry that was granted");
    found.must(is_entry(&lease, 1, never), "the entry that never was");
    found.ended()
}

#[test]
fn the_last_moment_and_the_last_token(rt: HostRuntime) -> Result<(), Fail> {
    let mut lease = Lease::make(rt.alloc(), 3)?;
    lease.hold(1, LAST, 4, 10);
    lease.hold(2, LAST - 1, 5, 10);
    let table = [
        (grant(0, 1, LAST, 1), LeaseReply::Late),
        (grant(0, 1, 1, LAST), LeaseReply::Late),
        (grant(0, 1, 1, LAST - 1), LeaseReply::Granted(1)),
        (grant(0, 1, LAST, LAST), LeaseReply::Late),
        (renew(0, 1, 3, LAST - 2), LeaseReply::Late),
        (renew(0, 1, 3, LAST - 3), LeaseReply::Renewed(LAST)),
        (renew(0, 1, LAST, 0), LeaseReply::Stale),
        (grant(1, 1, 9, 1), LeaseReply::HeldUntil(10)),
        (grant(1, 1, 10, LAST), LeaseReply::Late),
        (grant(1, 1, 10, 1), LeaseReply::Spent),
        (grant(2, 1, 10, 1), LeaseReply::Granted(LAST)),
        (grant(2, 1, 11, 1), LeaseReply::Spent),
    ];
    expect_replies(&mut lease, &table)?;
    let held = LeaseReply::HeldBy {
        holder: 4,
        token: LAST,
        until: 10,
    };
    let answers = [
        (holder(1, 9), held),
        (holder(1, 10), LeaseReply::Free),
        (holder(3, 0), LeaseReply::NoResource),
    ];
    expect_answers(&lease, &answers)
}

#[test]
fn rows_of_no_operation() -> Result<(), Fail> {
    let rows = [
        [0, 0, 0, 0, 0, 0, 0],
        [4, 0, 0, 0, 0, 0, 0],
        [1, 0, 7, 1, 2, 1, 0],
        [2, 0, 1, 1, 2, 0, 1],
        [3, 0, 1, 1, 0, 0, 0],
        [3, 0, 1, 0, 1, 0, 0],
    ];
    expect_no_operation::<Lease>(&rows)
}

#[test]
fn rows_and_operations_are_one_to_one() -> Result<(), Fail> {
    let table = [
        (grant(3, 4, 5, 6), [1, 3, 4, 5, 6, 0, 0]),
        (renew(3, 4, 5, 6), [2, 3, 4, 5, 6, 0, 0]),
        (release(3, 4), [3, 3, 4, 0, 0, 0, 0]),
    ];
    expect_one_to_one::<Lease>(&table)
}

#[test]
fn a_copy_restores(rt: HostRuntime) -> Result<(), Fail> {
    let alloc = rt.alloc();
    let mut lease = Lease::make(alloc, 3)?;
    let _ = lease.apply(grant(1, 7, 0, 5));
    let copy = lease.copy(alloc)?;
    let held = LeaseReply::HeldBy {
        holder: 7,
        token: 1,
        until: 5,
    };
    let mut found = Found::new();
    found.must(copy.capacity() == 3, "the capacity of the copy");
    found.must(copy.ask(holder(1, 4)) == held, "held in the copy");
    let _ = lease.apply(release(1, 1));
    lease.restore(&copy);
    found.must(lease.ask(holder(1, 4)) == held, "held again");
    undone(alloc, &mut lease, release(1, 1))?;
    found.must(
        lease.ask(holder(1, 4)) == held,
        "held after what was undone",
    );
    found.must(
        capacity_kept(&mut lease, release(1, 1)),
        "the capacity is kept",
    );
    found.ended()
}
