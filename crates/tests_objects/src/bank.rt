//! Tests of a bank.

use crate::rows::{expect_answers, expect_no_operation, expect_one_to_one, expect_replies};
use onll_bank::{Bank, BankOp, BankQuery, BankReply};
use onll_model::{Object, capacity_kept, undone};
use std::test::Fail;
use tests_found::Found;

#[test]
fn replies_in_order(rt: HostRuntime) -> Result<(), Fail> {
    let mut bank = Bank::make(rt.alloc(), 2)?;
    let table = [
        (BankOp::Deposit { a: 0, x: u64::MAX }, BankReply::Done),
        (BankOp::Deposit { a: 0, x: 1 }, BankReply::Over),
        (BankOp::Deposit { a: 1, x: 1 }, BankReply::Over),
        (BankOp::Deposit { a: 2, x: 1 }, BankReply::NoAccount),
        (BankOp::Withdraw { a: 1, x: 1 }, BankReply::TooLittle),
        (BankOp::Withdraw { a: 0, x: 5 }, BankReply::Done),
        (BankOp::Transfer { a: 0, b: 1, x: 7 }, BankReply::Done),
        (BankOp::Transfer { a: 1, b: 1, x: 7 }, BankReply::Done),
        (BankOp::Transfer { a: 1, b: 0, x: 8 }, BankReply::TooLittle),
        (BankOp::Transfer { a: 1, b: 2, x: 8 }, BankReply::NoAccount),
    ];
    expect_replies(&mut bank, &table)?;
    let answers = [
        (
            BankQuery::Balance { a: 0 },
            BankReply::Amount(u64::MAX - 12),
        ),
        (BankQuery::Balance { a: 1 }, BankReply::Amount(7)),
        (BankQuery::Balance { a: 2 }, BankReply::NoAccount),
        (BankQuery::Total, BankReply::Amount(u64::MAX - 5)),
    ];
    expect_answers(&bank, &answers)
}

#[test]
fn rows_of_no_operation() -> Result<(), Fail> {
    expect_no_operation::<Bank>(&[
        [0, 0, 0, 0, 0, 0, 0],
        [4, 0, 0, 0, 0, 0, 0],
        [1, 0, 5, 1, 0, 0, 0],
        [2, 0, 5, 0, 0, 0, 1],
        [3, 0, 1, 5, 0, 1, 0],
    ])
}

#[test]
fn rows_and_operations_are_one_to_one() -> Result<(), Fail> {
    let op = BankOp::Transfer { a: 3, b: 4, x: 5 };
    expect_one_to_one::<Bank>(&[(op, [3, 3, 4, 5, 0, 0, 0])])
}

#[test]
fn a_copy_restores(rt: HostRuntime) -> Result<(), Fail> {
    let alloc = rt.alloc();
    let mut found = Found::new();
    let mut bank = Bank::make(alloc, 3)?;
    let _ = bank.apply(BankOp::Deposit { a: 1, x: 9 });
    let copy = bank.copy(alloc)?;
    found.must(copy.capacity() == 3, "the capacity of the copy");
    found.must(
        copy.ask(BankQuery::Balance { a: 1 }) == BankReply::Amount(9),
        "the balance in the copy",
    );
    found.must(
        copy.ask(BankQuery::Total) == BankReply::Amount(9),
        "the total in the copy",
    );
    let _ = bank.apply(BankOp::Transfer { a: 1, b: 2, x: 4 });
    bank.restore(&copy);
    found.must(
        bank.ask(BankQuery::Balance { a: 1 }) == BankReply::Amount(9),
        "what was taken is back",
    );
    found.must(
        bank.ask(BankQuery::Balance { a: 2 }) == BankReply::Amount(0),
        "what was given is gone",
    );
    undone(alloc, &mut bank, BankOp::Withdraw { a: 1, x: 2 })?;
    found.must(
        bank.ask(BankQuery::Balance { a: 1 }) == BankReply::Amount(9),
        "the balance after what was undone",
    );
    found.must(
        capacity_kept(&mut bank, BankOp::Withdraw { a: 1, x: 2 }),
        "the capacity is kept",
    );
    found.ended()
}
