//! What a report says of a thread's calls.

use onll_model::Object;

/// A call that has returned: its place, its reply, and the clock at its first and at its last step.
#[derive(Drop)]
pub struct Returned<O: Object> {
    pub place: u64,
    pub reply: O::Reply,
    pub began: u64,
    pub ended: u64,
}

/// What a thread's next call is about.
#[derive(Clone, Copy, Debug, PartialEq, Eq)]
pub enum Current {
    /// It has taken no step, or there is none.
    Idle,
    /// It has taken a step and has no place in the trace.
    Running,
    /// It is an update that stands at this place.
    Ordered { place: u64 },
}

/// What a step of a thread did.
#[derive(Clone, Copy, Debug, PartialEq, Eq)]
pub enum Stepped {
    Step,
    /// Nothing: the script is at its end.
    Done,
}
