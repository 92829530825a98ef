//! The limits of a run and of its objects.

/// How many threads a run has at most, and so how many logs.
pub const MOST_THREADS: u64 = 16;

/// How many updates a thread makes at most.
pub const MOST_UPDATES: u64 = 4096;

/// How many accounts, pairs, items or resources an object has room for at most.
pub const MOST_ELEMENTS: u64 = 4096;

/// The greatest code of an object in the head of a log; the least is 1.
pub const GREATEST_CODE: u64 = 4;
