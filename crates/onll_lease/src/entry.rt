//! The lease of one resource, and what each call makes of it.

ghost use Rattle.std.specs.Prelude.{◌≡◌, ◌+◌};
ghost use Rattle.onll_lease.specs.Entry.{OfNumbers, is_held, grant_reply, renew_reply, release_reply, holder_answer, left_by_grant, left_by_renew, left_by_release};
ghost use Rattle.onll_lease.specs.Lease.{entry_reply, entry_next};

use crate::operation::{LeaseOp, LeaseReply};

/// The lease of one resource.
#[derive(Clone, Copy, Debug, PartialEq, Eq)]
pub struct LeaseEntry {
    /// The last token given, from 1 on; 0 where none was.
    pub token: u64,
    /// To whom that token was given.
    pub holder: u64,
    /// The moment at which the lease ends: it is held before. 0 where it was released.
    pub until: u64,
}

impl LeaseEntry {
    fn is_held(&self, now: u64) -> bool
        ensures { result ≡ is_held self.now now }
    {
        now < self.until
    }

    fn grant(&mut self, h: u64, now: u64, ttl: u64) -> LeaseReply
        ensures next { self.new ≡ left_by_grant (grant_reply self.old now ttl) h (now + ttl) self.old }
        ensures reply { result ≡ grant_reply self.old now ttl }
        ensures numbers { OfNumbers self.old → OfNumbers self.new }
    {
        if self.is_held(now) {
            return LeaseReply::HeldUntil(self.until);
        }
        let Some(until) = now.checked_add(ttl) else {
            return LeaseReply::Late;
        };
        let Some(token) = self.token.checked_add(1) else {
            return LeaseReply::Spent;
        };
        *self = LeaseEntry {
            token,
            holder: h,
            until,
        };
        LeaseReply::Granted(token)
    }

    fn renew(&mut self, token: u64, now: u64, ttl: u64) -> LeaseReply
        ensures next { self.new ≡ left_by_renew (renew_reply self.old token now ttl) self.old }
        ensures reply { result ≡ renew_reply self.old token now ttl }
        ensures numbers { OfNumbers self.old → OfNumbers self.new }
    {
        if token != self.token || !self.is_held(now) {
            return LeaseReply::Stale;
        }
        let Some(until) = now.checked_add(ttl) else {
            return LeaseReply::Late;
        };
        self.until = until;
        LeaseReply::Renewed(until)
    }

    fn release(&mut self, token: u64) -> LeaseReply
        ensures next { self.new ≡ left_by_release (release_reply self.old token) self.old }
        ensures reply { result ≡ release_reply self.old token }
        ensures numbers { OfNumbers self.old → OfNumbers self.new }
    {
        if token != self.token || self.until == 0 {
            return LeaseReply::Stale;
        }
        self.until = 0;
        LeaseReply::Released
    }

    /// Does an operation on the resource that has this lease.
    pub(crate) fn apply(&mut self, op: LeaseOp) -> LeaseReply
        ensures next { self.new ≡ entry_next self.old op }
        ensures reply { result ≡ entry_reply self.old op }
        ensures numbers { OfNumbers self.old → OfNumbers self.new }
    {
        match op {
            LeaseOp::Grant { h, now, ttl, .. } => self.grant(h, now, ttl),
            LeaseOp::Renew {
                token,
                now,
                ttl,
                ..
            } => self.renew(token, now, ttl),
            LeaseOp::Release { token, .. } => self.release(token),
        }
    }

    /// Who holds the resource at a moment.
    pub(crate) fn holder_at(&self, now: u64) -> LeaseReply
        ensures { result ≡ holder_answer self.now now }
    {
        if !self.is_held(now) {
            return LeaseReply::Free;
        }
        LeaseReply::HeldBy {
            holder: self.holder,
            token: self.token,
            until: self.until,
        }
    }
}
