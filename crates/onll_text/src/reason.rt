//! Why a text is refused, and why it was not read.

ghost use Rattle.std.specs.Prelude.{◌≡◌};
ghost use Rattle.onll_text.specs.Refusal.{reason_text};
ghost use Rattle.onll_text.specs.declared.reason.TextFault.TheVariants.{NoMemory};

use onll_words::NoMemory;
use std::alloc::AllocFailed;
use thiserror::Error;

/// Why a text is refused.
#[derive(Clone, Copy, Debug, PartialEq, Eq, Error)]
pub enum Reason {
    /// The file has more than 1,048,576 bytes.
    #[error("too long")]
    TooLong,
    /// The file lacks the line that it needs.
    #[error("missing")]
    Missing,
    /// The first word is no kind of object.
    #[error("unknown object")]
    UnknownObject,
    /// The first word is none that can stand there.
    #[error("unknown word")]
    UnknownWord,
    /// The line has too many or too few words.
    #[error("wrong count")]
    WrongCount,
    /// A word is no number of at most 20 digits and 64 bits.
    #[error("bad number")]
    BadNumber,
    /// A word is no text of 1 to 23 bytes from 0x21 to 0x7E.
    #[error("bad word")]
    BadWord,
    /// A number is outside its range.
    #[error("out of range")]
    OutOfRange,
    /// The account, key or resource was named before.
    #[error("repeated")]
    Repeated,
    /// There are more than there is room for.
    #[error("too many")]
    TooMany,
    /// The balances sum to more than `2^64 - 1`.
    #[error("too large")]
    TooLarge,
    /// A line stands after the crash line.
    #[error("after crash")]
    AfterCrash,
    /// The line is none that a report of a run has there.
    #[error("bad line")]
    BadLine,
}

impl Reason {
    /// The reason as it is printed.
    pub fn text(self) -> &'static [u8]
        ensures { result.now ≡ reason_text self }
    {
        match self {
            Reason::TooLong => b"too long",
            Reason::Missing => b"missing",
            Reason::UnknownObject => b"unknown object",
            Reason::UnknownWord => b"unknown word",
            Reason::WrongCount => b"wrong count",
            Reason::BadNumber => b"bad number",
            Reason::BadWord => b"bad word",
            Reason::OutOfRange => b"out of range",
            Reason::Repeated => b"repeated",
            Reason::TooMany => b"too many",
            Reason::TooLarge => b"too large",
            Reason::AfterCrash => b"after crash",
            Reason::BadLine => b"bad line",
        }
    }
}

/// Why a text was not read.
#[derive(Clone, Copy, Debug, PartialEq, Eq, Error)]
pub enum TextFault {
    /// The text is outside its grammar. The line is the first refused one, from 1, or 0 for the whole file.
    #[error("line {line}: {reason}")]
    Refused { line: u64, reason: Reason },
    #[error("out of memory")]
    NoMemory,
}

impl From<NoMemory> for TextFault {
    ghost from_gives = { λ _ e. e ≡ NoMemory };

    fn from(_e: NoMemory) -> TextFault {
        TextFault::NoMemory
    }
}

impl<T: Drop> From<AllocFailed<T>> for TextFault {
    ghost from_gives = { λ _ e. e ≡ NoMemory };

    fn from(_e: AllocFailed<T>) -> TextFault {
        TextFault::NoMemory
    }
}
