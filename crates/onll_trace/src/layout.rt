//! The words of a trace's table: the tail, and a row for each node that a thread can have.

/// The word that has the name of the newest node above the base, 0 where there is none.
pub(crate) const TAIL: usize = 0;

/// The first word of the first row. No row begins on the cache line of the tail, which all threads change.
pub(crate) const FIRST_ROW: u64 = 8;

/// How many words a row has. The first seven are the row of the node's operation.
pub(crate) const ROW_WORDS: u64 = 10;

/// The word of a row that has the name of the node below, 0 at the base.
pub(crate) const BELOW: usize = 7;

/// The word of a row that has the node's place.
pub(crate) const PLACE: usize = 8;

/// The word of a row that is 1 where the node is available, else 0.
pub(crate) const FLAG: usize = 9;
