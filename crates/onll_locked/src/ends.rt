//! What becomes of a call that is made under the lock.

ghost use Rattle.std.specs.Prelude.{◌≡◌};
ghost use Rattle.onll_locked.specs.Locked.{failed_in, update_end};

use onll_model::Object;

/// What became of a call under the lock. The places of the trace are numbered from 1.
#[derive(Drop)]
pub enum LockedEnd<O: Object> {
    /// It returned this reply: an update stands at the place, a read was answered after it, from the initial state if it is 0.
    Answered { place: u64, reply: O::Reply },
    /// The update stands at this place, and the fence of its log failed.
    FenceFailed { place: u64 },
    /// An update after one of its thread whose fence failed; that one stands at this place, and this one nowhere.
    Broken { place: u64 },
}

impl<O: Object> LockedEnd<O> {
    /// What becomes of an update that stands at this place, by whether its fence succeeded.
    pub(crate) fn of_update(place: u64, reply: O::Reply, fenced: bool) -> LockedEnd<O>
        ensures { result ≡ update_end place reply fenced }
    {
        if fenced {
            LockedEnd::Answered { place, reply }
        } else {
            LockedEnd::FenceFailed { place }
        }
    }

    /// The place of the update, where its fence failed.
    pub(crate) fn failed(&self) -> Option<u64>
        ensures { result ≡ failed_in self.now }
    {
        match self {
            LockedEnd::FenceFailed { place } => Some(*place),
            _ => None,
        }
    }
}

/// What a thread's next call came to.
#[derive(Clone, Copy, Debug, PartialEq, Eq)]
pub enum Next {
    /// It was answered. The thread's last outcome has the reply.
    Answered,
    /// The thread's script is at its end, and nothing was done.
    Done,
    /// The update stands at this place, and the fence of its log failed.
    FenceFailed { place: u64 },
    /// The update was refused, since the fence of the thread's update at this place failed.
    Broken { place: u64 },
}
