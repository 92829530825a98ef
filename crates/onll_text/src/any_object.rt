//! The kinds of object with the one list of their names, and an object of any kind.

ghost use Rattle.std.specs.Prelude.{◌≡◌, ◌≤◌, MatchResult, Ok};
ghost use Rattle.onll_model.specs.Limits.{most_elements};
ghost use Rattle.onll_text.specs.Refusal.{Fails};
ghost use Rattle.onll_text.specs.Init.{kind_of, object_name, object_of};

use crate::bank_init::read_bank;
use crate::lease::read_lease;
use crate::map::read_map;
use crate::queue::read_queue;
use crate::reason::{Reason, TextFault};
use crate::words::is_text;
use onll_bank::Bank;
use onll_lease::Lease;
use onll_map::Map;
use onll_queue::Queue;
use onll_words::Lines;
use std::alloc::Global;

/// A kind of object, as the first word of an initial state names it.
#[derive(Clone, Copy, Debug, PartialEq, Eq)]
pub enum Kind {
    Bank,
    Map,
    Queue,
    Lease,
}

/// An object of any kind.
#[derive(Drop)]
pub enum AnyObject {
    Bank(Bank),
    Map(Map),
    Queue(Queue),
    Lease(Lease),
}

/// The kinds in the order of their codes, the first of which is 1, each with the word that names it.
const KINDS: &[(Kind, &[u8])] = &[
    (Kind::Bank, b"bank"),
    (Kind::Map, b"map"),
    (Kind::Queue, b"queue"),
    (Kind::Lease, b"lease"),
];

/// The kind of object that the first word of an initial state names.
pub(crate) fn read_kind(word: &[u8]) -> Result<Kind, Reason>
    ensures { result ≡ kind_of word.now }
{
    for (kind, name) in KINDS {
        if is_text(word, name) {
            return Ok(*kind);
        }
    }
    Err(Reason::UnknownObject)
}

/// The name of the object of a code, as a log's head holds it; `unknown` where no kind has the code.
pub fn object_name(code: u64) -> &'static [u8]
    ensures { result.now ≡ object_name code }
{
    let mut next = 1;
    for (_, name) in KINDS {
        if code == next {
            return name;
        }
        next += 1;
    }
    b"unknown"
}

/// Does the same with the object of whatever kind.
#[macro_export]
macro_rules! with_object {
    ($any:expr, $object:ident => $done:expr) => {
        match $any {
            $crate::AnyObject::Bank($object) => $done,
            $crate::AnyObject::Map($object) => $done,
            $crate::AnyObject::Queue($object) => $done,
            $crate::AnyObject::Lease($object) => $done,
        }
    };
}

/// The object of this kind and capacity, with the lines that are left.
pub(crate) fn read_object(
    alloc: Global,
    kind: Kind,
    capacity: u64,
    lines: &mut Lines<'_>,
) -> Result<AnyObject, TextFault>
    requires { (1 ≤ capacity) × (capacity ≤ most_elements) }
    ensures { MatchResult result (λ object. object_of kind capacity lines.old ≡ Ok object)
        (λ fault. Fails fault (object_of kind capacity lines.old)) }
{
    match kind {
        Kind::Bank => read_bank(alloc, capacity, lines),
        Kind::Map => read_map(alloc, capacity, lines),
        Kind::Queue => read_queue(alloc, capacity, lines),
        Kind::Lease => read_lease(alloc, capacity, lines),
    }
}
