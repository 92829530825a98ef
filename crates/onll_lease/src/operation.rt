//! What changes a lease table, what it is asked, and what it replies.

/// What changes a table of leases: `r` is a resource, numbered from 0, `h` a holder, `now` a moment and `ttl` how long
/// from then on. Holders, moments and tokens are numbers up to `2^64 - 1`; a moment's unit is the caller's.
#[derive(Clone, Copy, Debug, PartialEq, Eq)]
pub enum LeaseOp {
    /// Gives the resource to h until now + ttl, with a new token.
    Grant {
        r: u64,
        h: u64,
        now: u64,
        ttl: u64,
    },
    /// Lets the lease with this token last until now + ttl.
    Renew {
        r: u64,
        token: u64,
        now: u64,
        ttl: u64,
    },
    /// Ends the lease with this token.
    Release {
        r: u64,
        token: u64,
    },
}

/// What a table of leases is asked.
#[derive(Clone, Copy, Debug, PartialEq, Eq)]
pub enum LeaseQuery {
    /// Who holds a resource at a moment.
    Holder { r: u64, now: u64 },
}

/// What a table of leases replies and answers.
#[derive(Clone, Copy, Debug, PartialEq, Eq)]
pub enum LeaseReply {
    /// There is no such resource.
    NoResource,
    /// Another grant holds the resource until this moment.
    HeldUntil(u64),
    /// The lease would end after the moment `2^64 - 1`.
    Late,
    /// The resource's token is `2^64 - 1`, so there is no next one.
    Spent,
    /// It was granted with this token.
    Granted(u64),
    /// It was renewed until this moment.
    Renewed(u64),
    /// The token is not the resource's, or its lease is over.
    Stale,
    /// It was released.
    Released,
    /// Who holds the resource, with which token, and the moment at which the lease ends.
    HeldBy { holder: u64, token: u64, until: u64 },
    /// Nobody holds the resource.
    Free,
}
