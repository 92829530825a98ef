/// What the next step of a thread does. Places are those of the trace; place 0 is the initial state.
#[derive(Clone, Copy, Debug, PartialEq, Eq)]
pub enum Phase {
    /// The script's next call begins: its first step loads the tail.
    Idle,
    /// An update whose exchange was lost loads the tail again, which was at place `loaded`.
    Tail { loaded: u64 },
    /// The own node becomes the newest where the tail is still at `loaded`.
    Exchange { loaded: u64 },
    /// The walk of the node at `place` loads the flag of the node at `next`.
    Flag { place: u64, next: u64 },
    /// The entry's line of this number, from 0, is written; the entry holds the nodes above `below` up to `place`.
    Line { place: u64, below: u64, line: u64 },
    /// That line is written back.
    Back { place: u64, below: u64, line: u64 },
    /// The own log is fenced.
    Fence { place: u64, below: u64 },
    /// The own flag is set, and the update returns.
    Set { place: u64, below: u64 },
    /// A read whose tail was at `front` loads the flag of the node at `next`.
    Ask { front: u64, next: u64 },
}
