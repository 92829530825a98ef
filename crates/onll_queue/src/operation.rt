//! What changes a queue, what it is asked, and what it replies.

/// What changes a queue.
#[derive(Clone, Copy, Debug, PartialEq, Eq)]
pub enum QueueOp {
    /// Puts x, any number up to `2^64 - 1`, behind the last item.
    Push { x: u64 },
    /// Takes the first item away.
    Pop,
}

/// What a queue is asked.
#[derive(Clone, Copy, Debug, PartialEq, Eq)]
pub enum QueueQuery {
    /// The first item, which stays.
    Front,
    /// How many items there are.
    Length,
}

/// What a queue replies and answers.
#[derive(Clone, Copy, Debug, PartialEq, Eq)]
pub enum QueueReply {
    /// It was done.
    Done,
    /// There are as many items as there is room for.
    Full,
    /// There is no item.
    Empty,
    /// The item that was taken away, or that is first.
    Item(u64),
    /// How many items there are, at most 4,096.
    Length(u64),
}
