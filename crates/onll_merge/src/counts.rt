//! How much the log of an image holds.

/// How much a log holds.
#[derive(Clone, Copy, Debug, PartialEq, Eq)]
pub struct LogCounts {
    /// Whether there is a head; an image of zeros has none.
    pub head: bool,
    /// How many entries are accepted.
    pub entries: u64,
    /// How many lines the head and the accepted entries take.
    pub lines: u64,
}
