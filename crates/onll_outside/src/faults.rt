//! The count of a store's failed calls, and the last of them.

ghost use Rattle.std.specs.Prelude.{◌≡◌, None, Some, MatchOption, string_bytes};
ghost use Rattle.onll_outside.specs.Views.{CountOf};
ghost use Rattle.onll_outside.specs.Faults.{Raises};

use crate::{FaultKind, OutsideFault};
use std::alloc::Global;
use std::fmt::{Display, Formatter};
use std::marker::Model;
use std::{fmt, io};

/// A failed call.
#[derive(Drop)]
struct Failure {
    kind: FaultKind,
    name: String,
    number: Option<i32>,
}

/// A call that failed, as a message tells it: `read shop.0: No such file or directory (os error 2)`.
#[derive(Clone, Copy, Debug, PartialEq, Eq)]
pub struct FailedCall<'a> {
    pub kind: FaultKind,
    /// The name handed in.
    pub name: &'a str,
    /// The system's number of the error, where the system refused the call.
    pub number: Option<i32>,
}

/// What a call does, in a word.
const fn verb(kind: FaultKind) -> &'static str {
    match kind {
        FaultKind::Read => "read",
        FaultKind::Write => "write",
        FaultKind::Device => "make",
        FaultKind::Reopen => "reopen",
        FaultKind::Keep => "keep",
    }
}

impl Display for FailedCall<'_> {
    fn fmt<W: fmt::Write>(&self, f: &mut Formatter<W>) -> fmt::Result {
        f.write_str(verb(self.kind))?;
        f.write_str(" ")?;
        f.write_str(self.name)?;
        match self.number {
            Some(number) => {
                f.write_str(": ")?;
                Display::fmt(&io::Error::from_raw_os_error(number), f)
            }
            None => Ok(()),
        }
    }
}

/// How many of a store's calls failed, and the last of them.
#[derive(Drop)]
pub(crate) struct Faults {
    count: u64,
    last: Option<Failure>,
}

impl Model for Faults {
    ghost use Rattle.onll_outside.specs.Faults.{FaultsSeen};

    ghost Value = { FaultsSeen };

    ghost use Rattle.onll_outside.specs.Failures.{last_of};

    ghost view = { λ f. record { count = f.count; last = last_of f.last } };
}

impl Faults {
    pub(crate) fn new() -> Faults
        ensures { result ≡ record { count = 0; last = None } }
    {
        Faults {
            count: 0,
            last: None,
        }
    }

    /// How many calls failed.
    pub(crate) fn count(&self) -> u64
        ensures { result ≡ self.now.count }
    {
        self.count
    }

    /// The last call that failed.
    pub(crate) fn last(&self) -> Option<FailedCall<'_>>
        ensures { MatchOption result (self.now.last ≡ None)
            (λ f. self.now.last ≡ Some (record { kind = f.kind; name = f.name.now })) }
    {
        match &self.last {
            Some(failure) => Some(FailedCall {
                kind: failure.kind,
                name: failure.name.as_str(),
                number: failure.number,
            }),
            None => None,
        }
    }

    /// Counts a fault, which is then the last one. It takes no memory.
    pub(crate) fn raise_named(
        &mut self,
        kind: FaultKind,
        name: String,
        number: Option<i32>,
    ) -> OutsideFault
        ensures failed { result ≡ OutsideFault.Failed }
        ensures raises { Raises (record { kind = kind; name = string_bytes name }) self.old self.new result }
        ensures counts { CountOf result self.old.count self.new.count }
    {
        self.count = self.count.saturating_add(1);
        self.last = Some(Failure { kind, name, number });
        OutsideFault::Failed
    }

    /// Counts a fault, which is then the last one, unless there is no memory to keep its name.
    pub(crate) fn raise(
        &mut self,
        alloc: Global,
        kind: FaultKind,
        name: &str,
        number: Option<i32>,
    ) -> OutsideFault
        ensures raises { Raises (record { kind = kind; name = name.now }) self.old self.new result }
        ensures counts { CountOf result self.old.count self.new.count }
    {
        match String::from_str(alloc, name) {
            Ok(name) => self.raise_named(kind, name, number),
            Err(_) => OutsideFault::NoMemory,
        }
    }
}
