//! The lease table.

ghost use Rattle.std.specs.Prelude.{◌≡◌, ◌<◌, ◌≤◌, length, replicate, slice_set, IfOk};
ghost use Rattle.onll_model.specs.Limits.{most_elements};
ghost use Rattle.std.proofs.Common.{rules};
ghost use Rattle.onll_lease.specs.Entry.{IsEntry, no_lease};
ghost use Rattle.onll_lease.specs.Lease.{IsLease, entry_at};
ghost use Rattle.onll_lease.specs.Object.{lease};

use crate::entry::LeaseEntry;
use crate::operation::{LeaseOp, LeaseQuery, LeaseReply};
use onll_model::Object;
use onll_words::{NoMemory, OpRow};
use std::alloc::Global;
use std::marker::Model;

/// A table of leases of 1 to 4,096 resources, numbered from 0 and seen as the list of their entries. Each grant of a
/// resource gives a new token. Where a resource's token is 0, its holder and its end are 0.
#[derive(Drop)]
pub struct Lease {
    entries: Vec<LeaseEntry>,
}

impl Model for Lease {
    ghost use Rattle.std.specs.Prelude.{List};
    ghost use Rattle.onll_lease.specs.declared.entry.LeaseEntry.{LeaseEntry};
    ghost use Rattle.onll_lease.specs.Lease.{IsLease};

    ghost Value = { List LeaseEntry };

    ghost view = { λ s. s.entries.items };

    ghost invariant = { λ s. IsLease s.entries.items };
}

impl Lease {
    /// A table of this many resources, none of which was ever granted.
    pub fn make(alloc: Global, capacity: u64) -> Result<Lease, NoMemory>
        requires { (1 ≤ capacity) × (capacity ≤ most_elements) }
        ensures { IfOk result (λ made. made ≡ replicate capacity no_lease) }
    {
        let empty = LeaseEntry {
            token: 0,
            holder: 0,
            until: 0,
        };
        let entries = vec![in alloc; empty; capacity as usize]?;
        Ok(Lease { entries })
    }

    /// What every table keeps. It does nothing when called.
    pub fn consistent(&self)
        ensures { IsLease self.now }
    {
        let _ = &self.entries;
    }

    /// The entry of a resource.
    pub fn entry(&self, r: u64) -> LeaseEntry
        requires { r < length self.now }
        ensures entry { result ≡ entry_at self.now r }
        ensures never_granted { IsEntry result }
    {
        self.entries[r as usize]
    }

    /// Sets the last token given for a resource, its holder and the moment at which its lease ends.
    pub fn hold(&mut self, resource: u64, token: u64, holder: u64, until: u64)
        requires in_range { resource < length self.old }
        requires given { 1 ≤ token }
        ensures { self.new ≡ slice_set self.old resource (record { token = token; holder = holder; until = until }) }
    {
        self.entries[resource as usize] = LeaseEntry {
            token,
            holder,
            until,
        };
    }
}

impl Object for Lease {
    type Op = LeaseOp;

    type Query = LeaseQuery;

    type Reply = LeaseReply;

    const CODE: u64 = 4;

    ghost CODE = { 4 };

    ghost means = { lease };

    fn apply(&mut self, op: LeaseOp) -> LeaseReply {
        let r = match op {
            LeaseOp::Grant { r, .. } => r,
            LeaseOp::Renew { r, .. } => r,
            LeaseOp::Release { r, .. } => r,
        };
        match self.entries.get_mut(r as usize) {
            Some(entry) => entry.apply(op),
            None => LeaseReply::NoResource,
        }
    }

    fn ask(&self, query: LeaseQuery) -> LeaseReply {
        let LeaseQuery::Holder { r, now } = query;
        match self.entries.get(r as usize) {
            Some(entry) => entry.holder_at(now),
            None => LeaseReply::NoResource,
        }
    }

    fn op_row(op: LeaseOp) -> OpRow {
        let w = match op {
            LeaseOp::Grant { r, h, now, ttl } => [1, r, h, now, ttl, 0, 0],
            LeaseOp::Renew { r, token, now, ttl } => [2, r, token, now, ttl, 0, 0],
            LeaseOp::Release { r, token } => [3, r, token, 0, 0, 0, 0],
        };
        OpRow { w }
    }

    fn op_of_row(row: OpRow) -> Option<LeaseOp> {
        let [code, r, b, c, d, e, f] = row.w;
        match code {
            1 if e == 0 && f == 0 => Some(LeaseOp::Grant {
                r,
                h: b,
                now: c,
                ttl: d,
            }),
            2 if e == 0 && f == 0 => Some(LeaseOp::Renew {
                r,
                token: b,
                now: c,
                ttl: d,
            }),
            3 if c == 0 && d == 0 && e == 0 && f == 0 => Some(LeaseOp::Release { r, token: b }),
            _ => None,
        }
    }

    fn copy(&self, alloc: Global) -> Result<Self, NoMemory> {
        let entries = self.entries.to_vec(alloc)?;
        Ok(Lease { entries })
    }

    fn restore(&mut self, from: &Self) {
        self.entries.copy_from_slice(&from.entries);
    }

    fn capacity(&self) -> u64 {
        self.entries.len() as u64
    }

    ghost code_in_range = { Prim.search rules };
}
