/// A turn of a schedule: this many steps of this thread.
#[derive(Clone, Copy, Debug, PartialEq, Eq)]
pub struct Turn {
    /// The thread, from 0.
    pub thread: u64,
    /// How many steps it takes, one after the other; none where it is 0.
    pub count: u64,
}
