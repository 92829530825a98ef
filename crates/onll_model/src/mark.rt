/// Names a fenced segment of the trace that a run goes on from: what one entry of one log holds of it.
#[derive(Clone, Copy, Debug, PartialEq, Eq)]
pub struct Mark {
    /// The thread whose log holds it, from 0.
    pub thread: u64,
    /// The place of its last node in the trace, from 1.
    pub place: u64,
    /// How many nodes it has: those of the places up to `place`.
    pub count: u64,
}
