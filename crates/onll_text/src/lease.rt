//! The texts of a lease table, which is its own initial state in the making.

ghost use Rattle.std.specs.Prelude.{◌≡◌, ◌++◌, ◌<◌, true, OnOk, OnErr, MatchResult, Ok, Err, ◌≤◌};
ghost use Rattle.onll_model.specs.Limits.{most_elements};
ghost use Rattle.onll_text.specs.Refusal.{Fails};
ghost use Rattle.onll_text.specs.Init.{object_of};
ghost use Rattle.onll_text.specs.declared.any_object.Kind.TheVariants as kinds;
ghost use Rattle.onll_words.specs.Texts.{words_of, line_text};
ghost use Rattle.onll_text.specs.Bytes.{begins_line, with_lines, IsFront};
ghost use Rattle.onll_text.specs.LeaseText.{grant_of, renew_of, release_of, holder_of, held_line, entry_lines, held_lines, with_held, with_held_line};
ghost use Rattle.onll_text.specs.CallKind.{calls_of};
ghost use Rattle.onll_text.specs.ReadBack.{ReadsBack};
ghost use Rattle.onll_text.specs.declared.any_object.AnyObject.TheVariants as objects;

use crate::any_object::AnyObject;
use crate::init::{Initial, add_lines};
use crate::reason::{Reason, TextFault};
use crate::report::{Piece, Report};
use crate::texted::Texted;
use crate::words::{four_numbers, is_text, number_reads_back, two_numbers};
use onll_lease::{Lease, LeaseEntry, LeaseOp, LeaseQuery, LeaseReply};
use onll_model::{Call, Object};
use onll_words::{Cut, Lines, NoMemory, split_word};
use std::alloc::Global;

fn read_grant(args: &[u8]) -> Result<Call<Lease>, Reason>
    ensures { result ≡ grant_of (words_of args.now) }
{
    let (r, h, now, ttl) = four_numbers(args)?;
    Ok(Call::Update(LeaseOp::Grant { r, h, now, ttl }))
}

fn read_renew(args: &[u8]) -> Result<Call<Lease>, Reason>
    ensures { result ≡ renew_of (words_of args.now) }
{
    let (r, token, now, ttl) = four_numbers(args)?;
    Ok(Call::Update(LeaseOp::Renew { r, token, now, ttl }))
}

fn read_release(args: &[u8]) -> Result<Call<Lease>, Reason>
    ensures { result ≡ release_of (words_of args.now) }
{
    let (r, token) = two_numbers(args)?;
    Ok(Call::Update(LeaseOp::Release { r, token }))
}

fn read_holder(args: &[u8]) -> Result<Call<Lease>, Reason>
    ensures { result ≡ holder_of (words_of args.now) }
{
    let (r, now) = two_numbers(args)?;
    Ok(Call::Ask(LeaseQuery::Holder { r, now }))
}

/// The line of one resource.
fn put_held(r: u64, entry: LeaseEntry, out: &mut Report) -> Result<(), NoMemory>
    requires { begins_line out.old ≡ true }
    ensures line { OnOk result (out.new ≡ out.old ++ line_text (held_line r entry)) }
    ensures begins { OnOk result (begins_line out.new ≡ true) }
    ensures keeps { IsFront out.old out.new }
    ensures within { IsFront out.new (out.old ++ line_text (held_line r entry)) }
{
    out.words(&[
        Piece::Text(b"held"),
        Piece::Number(r),
        Piece::Number(entry.token),
        Piece::Number(entry.holder),
        Piece::Number(entry.until),
    ])?;
    out.end_line()
}

/// The line of a resource, where it was ever granted.
#[tactic(auto, using(crate::proofs::LineWords::no_lines, crate::proofs::LineWords::one_line))]
fn put_entry(r: u64, entry: LeaseEntry, out: &mut Report) -> Result<(), NoMemory>
    requires { begins_line out.old ≡ true }
    ensures lines { OnOk result (out.new ≡ with_lines out.old (entry_lines r entry)) }
    ensures begins { OnOk result (begins_line out.new ≡ true) }
    ensures keeps { IsFront out.old out.new }
    ensures within { IsFront out.new (with_lines out.old (entry_lines r entry)) }
{
    if entry.token == 0 {
        return Ok(());
    }
    put_held(r, entry, out)
}

/// The line of each resource that was ever granted, in order.
#[tactic(auto, using(crate::proofs::LeaseReadBack::held_lines_more))]
fn put_table(lease: &Lease, out: &mut Report) -> Result<(), NoMemory>
    requires { begins_line out.old ≡ true }
    ensures ok { OnOk result (out.new ≡ with_lines out.old (held_lines 0 lease.now)) }
    ensures keeps { IsFront out.old out.new }
    ensures within { IsFront out.new (with_lines out.old (held_lines 0 lease.now)) }
{
    for r in 0..lease.capacity() {
        put_entry(r, lease.entry(r), out)?;
    }
    Ok(())
}

/// A law: what is printed of a lease table's state reads as that table. It does nothing when called.
fn lease_reads_back(lease: &Lease)
    ensures { ReadsBack (calls_of kinds.Lease).wording objects.Lease lease.now }
{
    lease.consistent();
}

impl Texted for Lease {
    ghost wording = { (calls_of kinds.Lease).wording };

    ghost object = { objects.Lease };

    fn read_call(line: &[u8]) -> Result<Call<Lease>, Reason> {
        let Some(Cut { word, rest }) = split_word(line) else {
            return Err(Reason::UnknownWord);
        };
        if is_text(word, b"grant") {
            read_grant(rest)
        } else if is_text(word, b"renew") {
            read_renew(rest)
        } else if is_text(word, b"release") {
            read_release(rest)
        } else if is_text(word, b"holder") {
            read_holder(rest)
        } else {
            Err(Reason::UnknownWord)
        }
    }

    fn put_op(op: LeaseOp, out: &mut Report) -> Result<(), NoMemory> {
        match op {
            LeaseOp::Grant { r, h, now, ttl } => out.words(&[
                Piece::Text(b"grant"),
                Piece::Number(r),
                Piece::Number(h),
                Piece::Number(now),
                Piece::Number(ttl),
            ]),
            LeaseOp::Renew { r, token, now, ttl } => out.words(&[
                Piece::Text(b"renew"),
                Piece::Number(r),
                Piece::Number(token),
                Piece::Number(now),
                Piece::Number(ttl),
            ]),
            LeaseOp::Release { r, token } => out.words(&[
                Piece::Text(b"release"),
                Piece::Number(r),
                Piece::Number(token),
            ]),
        }
    }

    fn put_query(query: LeaseQuery, out: &mut Report) -> Result<(), NoMemory> {
        let LeaseQuery::Holder { r, now } = query;
        out.words(&[Piece::Text(b"holder"), Piece::Number(r), Piece::Number(now)])
    }

    fn put_reply(reply: LeaseReply, out: &mut Report) -> Result<(), NoMemory> {
        match reply {
            LeaseReply::NoResource => out.word(b"no-resource"),
            LeaseReply::HeldUntil(u) => out.words(&[
                Piece::Text(b"held"),
                Piece::Text(b"until"),
                Piece::Number(u),
            ]),
            LeaseReply::Late => out.word(b"late"),
            LeaseReply::Spent => out.word(b"spent"),
            LeaseReply::Granted(token) => {
                out.words(&[Piece::Text(b"granted"), Piece::Number(token)])
            }
            LeaseReply::Renewed(u) => out.words(&[Piece::Text(b"renewed"), Piece::Number(u)]),
            LeaseReply::Stale => out.word(b"stale"),
            LeaseReply::Released => out.word(b"released"),
            LeaseReply::HeldBy {
                holder,
                token,
                until,
            } => out.words(&[
                Piece::Text(b"by"),
                Piece::Number(holder),
                Piece::Text(b"token"),
                Piece::Number(token),
                Piece::Text(b"until"),
                Piece::Number(until),
            ]),
            LeaseReply::Free => out.word(b"free"),
        }
    }

    fn put_state(&self, out: &mut Report) -> Result<(), NoMemory> {
        out.words(&[Piece::Text(b"lease"), Piece::Number(self.capacity())])?;
        out.end_line()?;
        put_table(self, out)
    }

    fn op_reads_back(op: LeaseOp) {
        match op {
            LeaseOp::Grant { r, h, now, ttl } => {
                number_reads_back(r);
                number_reads_back(h);
                number_reads_back(now);
                number_reads_back(ttl);
            }
            LeaseOp::Renew { r, token, now, ttl } => {
                number_reads_back(r);
                number_reads_back(token);
                number_reads_back(now);
                number_reads_back(ttl);
            }
            LeaseOp::Release { r, token } => {
                number_reads_back(r);
                number_reads_back(token);
            }
        }
    }

    fn query_reads_back(query: LeaseQuery) {
        let LeaseQuery::Holder { r, now } = query;
        number_reads_back(r);
        number_reads_back(now);
    }

    fn reply_reads_back(reply: LeaseReply) {
        match reply {
            LeaseReply::NoResource => {}
            LeaseReply::HeldUntil(until) => number_reads_back(until),
            LeaseReply::Late => {}
            LeaseReply::Spent => {}
            LeaseReply::Granted(token) => number_reads_back(token),
            LeaseReply::Renewed(until) => number_reads_back(until),
            LeaseReply::Stale => {}
            LeaseReply::Released => {}
            LeaseReply::HeldBy {
                holder,
                token,
                until,
            } => {
                number_reads_back(holder);
                number_reads_back(token);
                number_reads_back(until);
            }
            LeaseReply::Free => {}
        }
    }

    fn state_reads_back(&self) {
        lease_reads_back(self);
    }
}

/// Puts the entry of a resource of an initial table in. A token that was given is never 0.
fn add_held(lease: &mut Lease, r: u64, entry: LeaseEntry) -> Result<(), Reason>
    ensures added { MatchResult result (λ _. with_held lease.old r entry ≡ Ok lease.new) (λ e. with_held lease.old r entry ≡ Err e) }
    ensures refused { OnErr result (lease.new ≡ lease.old) }
{
    if r >= lease.capacity() || entry.token == 0 {
        return Err(Reason::OutOfRange);
    }
    if lease.entry(r).token != 0 {
        return Err(Reason::Repeated);
    }
    lease.hold(r, entry.token, entry.holder, entry.until);
    Ok(())
}

impl Initial for Lease {
    ghost with_line = { with_held_line };

    fn add_line(&mut self, line: &[u8]) -> Result<(), Reason> {
        let Some(Cut { word, rest }) = split_word(line) else {
            return Err(Reason::UnknownWord);
        };
        if !is_text(word, b"held") {
            return Err(Reason::UnknownWord);
        }
        let (r, token, holder, until) = four_numbers(rest)?;
        let entry = LeaseEntry {
            token,
            holder,
            until,
        };
        add_held(self, r, entry)
    }
}

/// The leases of this many resources, with the lines that are left.
pub(crate) fn read_lease(
    alloc: Global,
    capacity: u64,
    lines: &mut Lines<'_>,
) -> Result<AnyObject, TextFault>
    requires { (1 ≤ capacity) × (capacity ≤ most_elements) }
    ensures { MatchResult result (λ object. object_of kinds.Lease capacity lines.old ≡ Ok object)
        (λ fault. Fails fault (object_of kinds.Lease capacity lines.old)) }
{
    let mut lease = Lease::make(alloc, capacity)?;
    add_lines(&mut lease, lines)?;
    Ok(AnyObject::Lease(lease))
}
