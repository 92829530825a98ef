//! What changes a map, what it is asked, and what it replies.

use onll_words::Short;

/// What changes a map: `k` is a key, `v` is a value, each a text of 1 to 23 bytes.
#[derive(Clone, Copy, Debug, PartialEq, Eq)]
pub enum MapOp {
    /// Gives the key k the value v, in place of what it had.
    Put { k: Short, v: Short },
    /// Takes the key k and its value away.
    Del { k: Short },
}

/// What a map is asked.
#[derive(Clone, Copy, Debug, PartialEq, Eq)]
pub enum MapQuery {
    /// The value at a key.
    Get { k: Short },
    /// The least key not below k.
    Next { k: Short },
    /// How many pairs there are.
    Count,
}

/// What a map replies and answers.
#[derive(Clone, Copy, Debug, PartialEq, Eq)]
pub enum MapReply {
    /// The key was not there and has the value now.
    New,
    /// The key had this value before.
    Old(Short),
    /// The key is not there, and there is no room for it.
    Full,
    /// The key is not there, or no key is as great.
    Absent,
    /// The value that was asked for.
    Value(Short),
    /// The key that was asked for.
    Key(Short),
    /// How many pairs there are, at most 4,096.
    Count(u64),
}
