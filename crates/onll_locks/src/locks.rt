//! A table of locks, each held by one client at a time, with a token that rises with each grant.

ghost use Rattle.std.specs.Prelude.{◌≡◌};
ghost use Rattle.onll_locks.specs.Locks.{acquire_reply, after_acquire, after_release, holder_answer, release_reply, lock_next, lock_reply, locks};

use onll_rows::PlainState;
use std::alloc::{AllocError, Global};

/// How many locks there are, numbered from 0.
pub const LOCKS: usize = 16;

/// What changes the locks.
#[derive(Clone, Copy, Debug, PartialEq, Eq)]
pub enum LockOp {
    /// Gives the lock to the client, where nobody holds it.
    Acquire { lock: u64, client: u64 },
    /// Ends what the client holds with this token.
    Release { lock: u64, client: u64, token: u64 },
}

/// What is asked: who holds this lock.
#[derive(Clone, Copy, Debug, PartialEq, Eq)]
pub struct LockQuery {
    pub lock: u64,
}

#[derive(Clone, Copy, Debug, PartialEq, Eq)]
pub enum LockReply {
    /// There is no such lock.
    NoLock,
    /// The client holds it from now on, with a token that is greater than all before.
    Granted { token: u64 },
    /// This client holds it, with this token. It may be the one that asks.
    Held { holder: u64, token: u64 },
    /// Nobody holds it, and there is no greater token.
    Spent,
    /// The client holds it no more.
    Released,
    /// The client doesn't hold it with that token.
    Stale,
    /// Nobody holds it.
    Free,
}

/// One lock: the last token that was granted, 0 where none was, and who holds the lock.
#[derive(Clone, Copy)]
pub struct Lock {
    pub token: u64,
    pub holder: Option<u64>,
}

impl Lock {
    fn acquire(&mut self, client: u64) -> LockReply
        ensures next { self.new ≡ after_acquire (acquire_reply self.old) client self.old }
        ensures reply { result ≡ acquire_reply self.old }
    {
        if let Some(holder) = self.holder {
            return LockReply::Held {
                holder,
                token: self.token,
            };
        }
        let Some(token) = self.token.checked_add(1) else {
            return LockReply::Spent;
        };
        *self = Lock {
            token,
            holder: Some(client),
        };
        LockReply::Granted { token }
    }

    fn release(&mut self, client: u64, token: u64) -> LockReply
        ensures next { self.new ≡ after_release (release_reply self.old client token) self.old }
        ensures reply { result ≡ release_reply self.old client token }
    {
        match self.holder {
            Some(holder) if holder == client && self.token == token => {
                self.holder = None;
                LockReply::Released
            }
            _ => LockReply::Stale,
        }
    }

    fn apply(&mut self, op: LockOp) -> LockReply
        ensures next { self.new ≡ lock_next self.old op }
        ensures reply { result ≡ lock_reply self.old op }
    {
        match op {
            LockOp::Acquire { client, .. } => self.acquire(client),
            LockOp::Release { client, token, .. } => self.release(client, token),
        }
    }

    fn holder(&self) -> LockReply
        ensures { result ≡ holder_answer self.now }
    {
        match self.holder {
            Some(holder) => LockReply::Held {
                holder,
                token: self.token,
            },
            None => LockReply::Free,
        }
    }
}

/// The locks.
#[derive(Clone, Copy)]
pub struct Locks {
    pub locks: [Lock; LOCKS],
}

impl PlainState for Locks {
    type Op = LockOp;

    type Query = LockQuery;

    type Reply = LockReply;

    ghost sketch = { locks };

    fn apply(&mut self, op: LockOp) -> LockReply {
        let lock = match op {
            LockOp::Acquire { lock, .. } => lock,
            LockOp::Release { lock, .. } => lock,
        };
        if self.locks.len() as u64 <= lock {
            return LockReply::NoLock;
        }
        let mut it = self.locks[lock as usize];
        let reply = it.apply(op);
        self.locks[lock as usize] = it;
        reply
    }

    fn ask(&self, query: LockQuery) -> LockReply {
        match self.locks.get(query.lock as usize) {
            Some(it) => it.holder(),
            None => LockReply::NoLock,
        }
    }

    fn op_words(op: LockOp) -> [u64; 7] {
        match op {
            LockOp::Acquire { lock, client } => [1, lock, client, 0, 0, 0, 0],
            LockOp::Release {
                lock,
                client,
                token,
            } => [2, lock, client, token, 0, 0, 0],
        }
    }

    fn op_of(words: [u64; 7]) -> Option<LockOp> {
        let [kind, lock, client, token, ..] = words;
        if kind == 1 {
            return Some(LockOp::Acquire { lock, client });
        }
        Some(LockOp::Release {
            lock,
            client,
            token,
        })
    }

    fn describe(&self, alloc: Global) -> Result<String, AllocError> {
        format!(in alloc; "locks 16")
    }
}
