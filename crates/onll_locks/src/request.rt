//! Requests, as lines say them.

ghost use Rattle.std.specs.Prelude.{◌≡◌, Ok, Err, MatchResult};
ghost use Rattle.std.specs.Str.{bytes_eq};
ghost use Rattle.onll_words.specs.Texts.{words_of};
ghost use Rattle.onll_locks.specs.Requests.{acquire_of, asked_in, asked_of, holder_of, no_more, number_first, release_of, request_of};

use crate::locks::{LockOp, LockQuery};
use onll_words::{Cut, split_word, whole_number};
use thiserror::Error;

/// What a client asks for.
#[derive(Clone, Copy, Debug, PartialEq, Eq)]
pub enum Request {
    Update(LockOp),
    Ask(LockQuery),
}

/// A request of a client: `CLIENT acquire LOCK`, `CLIENT release LOCK TOKEN` or `CLIENT holder LOCK`, where all but the second word are
/// numbers.
#[derive(Clone, Copy, Debug, PartialEq, Eq)]
pub struct Asked {
    pub client: u64,
    pub request: Request,
}

/// Why a line is no request: the first thing from the left that is not as it should be. Nothing was done.
#[derive(Clone, Copy, Debug, PartialEq, Eq, Error)]
pub enum BadLine {
    /// The input ends within the line.
    #[error("refused: cut short")]
    CutShort,
    /// The first word is no number, or there is none.
    #[error("refused: no client")]
    NoClient,
    /// The second word is no request, or there is none.
    #[error("{client} refused: no request")]
    NoRequest { client: u64 },
    /// The third word is no number, or there is none.
    #[error("{client} refused: bad lock")]
    BadLock { client: u64 },
    /// The fourth word of a release is no number, or there is none.
    #[error("{client} refused: bad token")]
    BadToken { client: u64 },
    /// There is a word too many.
    #[error("{client} refused: more words")]
    MoreWords { client: u64 },
}

/// A number, and what stands after it.
#[derive(Clone, Copy)]
struct Number<'a> {
    value: u64,
    rest: &'a [u8],
}

/// The first word as a number, else this refusal.
fn next_number(line: &[u8], bad: BadLine) -> Result<Number<'_>, BadLine>
    ensures { MatchResult result (λ n. number_first bad (words_of line.now) ≡ Ok (n.value, words_of n.rest.now))
        (λ e. number_first bad (words_of line.now) ≡ Err e) }
{
    let Some(Cut { word, rest }) = split_word(line) else {
        return Err(bad);
    };
    match whole_number(word) {
        Some(value) => Ok(Number { value, rest }),
        None => Err(bad),
    }
}

/// The end of a client's line.
fn no_more(rest: &[u8], client: u64) -> Result<(), BadLine>
    ensures { result ≡ no_more client (words_of rest.now) }
{
    match split_word(rest) {
        Some(_) => Err(BadLine::MoreWords { client }),
        None => Ok(()),
    }
}

fn read_acquire(client: u64, args: &[u8]) -> Result<Request, BadLine>
    ensures { result ≡ acquire_of client (words_of args.now) }
{
    let lock = next_number(args, BadLine::BadLock { client })?;
    no_more(lock.rest, client)?;
    Ok(Request::Update(LockOp::Acquire {
        lock: lock.value,
        client,
    }))
}

fn read_release(client: u64, args: &[u8]) -> Result<Request, BadLine>
    ensures { result ≡ release_of client (words_of args.now) }
{
    let lock = next_number(args, BadLine::BadLock { client })?;
    let token = next_number(lock.rest, BadLine::BadToken { client })?;
    no_more(token.rest, client)?;
    Ok(Request::Update(LockOp::Release {
        lock: lock.value,
        client,
        token: token.value,
    }))
}

fn read_holder(client: u64, args: &[u8]) -> Result<Request, BadLine>
    ensures { result ≡ holder_of client (words_of args.now) }
{
    let lock = next_number(args, BadLine::BadLock { client })?;
    no_more(lock.rest, client)?;
    Ok(Request::Ask(LockQuery { lock: lock.value }))
}

/// Whether a word is this text.
fn is_text(word: &[u8], text: &[u8]) -> bool
    ensures { result ≡ bytes_eq word.now text.now }
{
    word == text
}

/// What a client asks for, by the words after its number.
fn read_words(client: u64, line: &[u8]) -> Result<Request, BadLine>
    ensures { result ≡ request_of client (words_of line.now) }
{
    let Some(Cut { word, rest }) = split_word(line) else {
        return Err(BadLine::NoRequest { client });
    };
    if is_text(word, b"acquire") {
        read_acquire(client, rest)
    } else if is_text(word, b"release") {
        read_release(client, rest)
    } else if is_text(word, b"holder") {
        read_holder(client, rest)
    } else {
        Err(BadLine::NoRequest { client })
    }
}

fn read_line(line: &[u8]) -> Result<Asked, BadLine>
    ensures { result ≡ asked_of (words_of line.now) }
{
    let client = next_number(line, BadLine::NoClient)?;
    let request = read_words(client.value, client.rest)?;
    Ok(Asked {
        client: client.value,
        request,
    })
}

/// The request of a line, which has its end.
pub fn read_request(bytes: &[u8]) -> Result<Asked, BadLine>
    ensures { result ≡ asked_in bytes.now }
{
    let count = bytes.len();
    if count == 0 || bytes[count - 1] != b'\n' {
        return Err(BadLine::CutShort);
    }
    read_line(&bytes[..count - 1])
}
