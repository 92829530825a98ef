//! Rows of a test's table, for any object: calls with their replies, and rows of words with their operations.

use onll_model::{Object, op_of_its_row, row_of_its_op};
use onll_words::OpRow;
use std::test::Fail;

/// The operations, one after the other, get these replies.
pub(crate) fn expect_replies<O: Object>(
    object: &mut O,
    table: &[(O::Op, O::Reply)],
) -> Result<(), Fail>
where
    O::Reply: PartialEq,
{
    for (i, (op, reply)) in table.iter().enumerate() {
        if object.apply(*op) != *reply {
            return Err(Fail::new(format_args!("another reply to operation {i}")));
        }
    }
    Ok(())
}

/// The queries get these answers.
pub(crate) fn expect_answers<O: Object>(
    object: &O,
    table: &[(O::Query, O::Reply)],
) -> Result<(), Fail>
where
    O::Reply: PartialEq,
{
    for (i, (query, answer)) in table.iter().enumerate() {
        if object.ask(*query) != *answer {
            return Err(Fail::new(format_args!("another answer to query {i}")));
        }
    }
    Ok(())
}

/// The rows are of no operation.
pub(crate) fn expect_no_operation<O: Object>(rows: &[[u64; 7]]) -> Result<(), Fail> {
    for (i, w) in rows.iter().enumerate() {
        if O::op_of_row(OpRow { w: *w }).is_some() {
            return Err(Fail::new(format_args!("row {i} is of an operation")));
        }
    }
    Ok(())
}

/// Each row is of its operation, and the operation of its row.
pub(crate) fn expect_one_to_one<O: Object>(table: &[(O::Op, [u64; 7])]) -> Result<(), Fail>
where
    O::Op: PartialEq,
{
    for (i, (op, w)) in table.iter().enumerate() {
        let row = OpRow { w: *w };
        let there = O::op_row(*op) == row && op_of_its_row::<O>(*op) == Some(*op);
        if !there || row_of_its_op::<O>(row) != Some(row) {
            return Err(Fail::new(format_args!("row {i} is of another operation")));
        }
    }
    Ok(())
}
