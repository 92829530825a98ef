//! A flag by which threads tell each other to end.

use std::sync::atomic::{AtomicBool, Ordering};

/// A flag that is raised once. Works that go on until they are told look at it.
#[derive(Drop)]
pub struct StopFlag {
    raised: AtomicBool,
}

impl StopFlag {
    pub fn new() -> StopFlag {
        StopFlag {
            raised: AtomicBool::new(false),
        }
    }

    /// Tells all that look at the flag to end.
    pub fn raise(&self) {
        self.raised.store(true, Ordering::SeqCst);
    }

    /// Whether somebody has raised the flag.
    pub fn is_raised(&self) -> bool {
        self.raised.load(Ordering::SeqCst)
    }
}
