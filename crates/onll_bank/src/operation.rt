//! What changes a bank, what it is asked, and what it replies.

/// What changes a bank: `a` and `b` are accounts, numbered from 0, and `x` is an amount of the caller's unit,
/// up to `2^64 - 1`.
#[derive(Clone, Copy, Debug, PartialEq, Eq)]
pub enum BankOp {
    /// Puts x into account a.
    Deposit { a: u64, x: u64 },
    /// Takes x out of account a.
    Withdraw { a: u64, x: u64 },
    /// Takes x out of account a and puts it into account b.
    Transfer { a: u64, b: u64, x: u64 },
}

/// What a bank is asked.
#[derive(Clone, Copy, Debug, PartialEq, Eq)]
pub enum BankQuery {
    /// The balance of account a.
    Balance { a: u64 },
    /// The sum of all balances.
    Total,
}

/// What a bank replies and answers.
#[derive(Clone, Copy, Debug, PartialEq, Eq)]
pub enum BankReply {
    /// It was done.
    Done,
    /// The sum of all balances would exceed `2^64 - 1`.
    Over,
    /// The account's balance is below the amount.
    TooLittle,
    /// There is no such account.
    NoAccount,
    /// The balance or the total that was asked for, at most `2^64 - 1`.
    Amount(u64),
}
