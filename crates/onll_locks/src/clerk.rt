//! A clerk, who takes requests by turns with others and answers each.

ghost use Rattle.std.specs.Prelude.{◌≡◌};
ghost use Rattle.onll_locks.specs.Clerks.{DoesRequest, going_on, is_good};

use crate::locks::{LockOp, LockQuery, LockReply, Locks};
use crate::request::{Asked, Request, read_request};
use onll_pmem::Pmem;
use onll_rows::Plain;
use onll_serve::Reported;
use onll_shared::UpdateFault;
use onll_threads::{Begun, Seat, Work};
use std::alloc::Global;
use std::fmt::Display;
use std::io::{BufRead, Lock, Stdin};
use std::sync::{Mutex, Wait};
use std::{fmt, io};
use thiserror::Error;

/// Why a clerk ended.
#[derive(Clone, Copy, Debug, PartialEq, Eq, Error)]
pub enum Ending {
    /// There are no more requests.
    #[error("no more requests")]
    NoMore,
    /// Another clerk ended, and not since there were no more requests.
    #[error("told to end")]
    Told,
    /// A request could not be read.
    #[error("could not read")]
    NotRead,
    /// The clerk's log is full.
    #[error("its log is full")]
    Full,
    /// A fence failed: the last update may be lost.
    #[error("a fence failed")]
    Broken,
    /// A reply could not be said.
    #[error("could not say it")]
    NotSaid,
}

impl Reported for Ending {
    ghost good = { is_good };

    fn is_good(&self) -> bool {
        matches!(self, Ending::NoMore)
    }
}

/// What a client is told: its number, the lock's, and the reply.
#[derive(Clone, Copy)]
struct Said {
    asked: Asked,
    done: Result<LockReply, UpdateFault>,
}

impl Display for LockReply {
    fn fmt<W: fmt::Write>(&self, f: &mut fmt::Formatter<W>) -> fmt::Result {
        match *self {
            LockReply::NoLock => write!(f, "no lock"),
            LockReply::Granted { token } => write!(f, "granted {token}"),
            LockReply::Held { holder, token } => write!(f, "held {holder} {token}"),
            LockReply::Spent => write!(f, "spent"),
            LockReply::Released => write!(f, "released"),
            LockReply::Stale => write!(f, "stale"),
            LockReply::Free => write!(f, "free"),
        }
    }
}

impl Display for Said {
    fn fmt<W: fmt::Write>(&self, f: &mut fmt::Formatter<W>) -> fmt::Result {
        let client = self.asked.client;
        let lock = match self.asked.request {
            Request::Update(LockOp::Acquire { lock, .. }) => lock,
            Request::Update(LockOp::Release { lock, .. }) => lock,
            Request::Ask(LockQuery { lock }) => lock,
        };
        match self.done {
            Ok(reply) => write!(f, "{client} {lock} {reply}"),
            Err(UpdateFault::FenceFailed { .. }) => write!(f, "{client} {lock} in doubt"),
            Err(fault) => write!(f, "{client} {lock} not done: {fault}"),
        }
    }
}

/// Whether a clerk goes on after this.
fn goes_on(done: Result<LockReply, UpdateFault>) -> Result<(), Ending>
    ensures { result ≡ going_on done }
{
    match done {
        Ok(_) => Ok(()),
        Err(UpdateFault::NodesFull) => Err(Ending::Full),
        Err(UpdateFault::LogFull { .. }) => Err(Ending::Full),
        Err(UpdateFault::FenceFailed { .. }) => Err(Ending::Broken),
        Err(UpdateFault::Broken { .. }) => Err(Ending::Broken),
    }
}

/// Does what is asked for; an update's reply is given once it is durable.
fn do_request<R: Wait, P: Pmem, B: Begun<Plain<Locks>, P>>(
    rt: &R,
    seat: &mut Seat<'_, Plain<Locks>, P, B>,
    request: Request,
) -> Result<LockReply, UpdateFault>
    ensures { DoesRequest P.means B.first request result seat.old seat.new }
{
    match request {
        Request::Update(op) => seat.update(rt, op),
        Request::Ask(query) => Ok(seat.read(query)),
    }
}

/// What clerks share: one at a time takes a line, and one at a time says a reply.
#[derive(Drop)]
pub struct Desk {
    alloc: Global,
    input: Mutex<Stdin>,
    output: Mutex<()>,
}

impl Desk {
    pub fn new(alloc: Global, input: Stdin) -> Desk {
        Desk {
            alloc,
            input: Mutex::new(input),
            output: Mutex::new(()),
        }
    }
}

/// The next line, with its end where it has one; an empty one where there is none.
fn read_line(alloc: Global, input: Stdin) -> io::Result<Vec<u8>> {
    let mut line = Vec::new(alloc);
    let mut reader = input.lock();
    reader.read_until(b'\n', &mut line)?;
    Ok(line)
}

/// Who answers requests.
#[derive(Drop)]
pub struct Clerk<'a, R: Wait> {
    pub rt: &'a R,
    pub desk: &'a Desk,
}

impl<'a, R: Print + Wait> Clerk<'a, R> {
    /// The next line, once it is this clerk's turn.
    fn take_line<P: Pmem, B: Begun<Plain<Locks>, P>>(
        &self,
        seat: &Seat<'_, Plain<Locks>, P, B>,
    ) -> Result<Vec<u8>, Ending> {
        let turn = self.desk.input.lock(self.rt);
        if seat.is_stopping() {
            return Err(Ending::Told);
        }
        match read_line(self.desk.alloc, *turn) {
            Ok(line) if line.is_empty() => Err(Ending::NoMore),
            Ok(line) => Ok(line),
            Err(_) => Err(Ending::NotRead),
        }
    }

    fn say<D: Display>(&self, said: &D) -> Result<(), Ending> {
        let _turn = self.desk.output.lock(self.rt);
        match println!(self.rt; "{said}") {
            Ok(()) => Ok(()),
            Err(_) => Err(Ending::NotSaid),
        }
    }

    /// Does what a line asks for, and says the reply, or why the line is no request.
    fn answer<P: Pmem, B: Begun<Plain<Locks>, P>>(
        &self,
        seat: &mut Seat<'_, Plain<Locks>, P, B>,
        line: &[u8],
    ) -> Result<(), Ending> {
        match read_request(line) {
            Ok(asked) => {
                let done = do_request(self.rt, seat, asked.request);
                self.say(&Said { asked, done })?;
                goes_on(done)
            }
            Err(bad) => self.say(&bad),
        }
    }

    /// Takes and answers one request.
    fn serve_one<P: Pmem, B: Begun<Plain<Locks>, P>>(
        &self,
        seat: &mut Seat<'_, Plain<Locks>, P, B>,
    ) -> Result<(), Ending> {
        let line = self.take_line(seat)?;
        self.answer(seat, &line)
    }

    fn serve_all<P: Pmem, B: Begun<Plain<Locks>, P>>(
        &self,
        seat: &mut Seat<'_, Plain<Locks>, P, B>,
    ) -> Ending {
        for _ in self.rt.forever() {
            if let Err(ending) = self.serve_one(seat) {
                return ending;
            }
        }
        unreachable!()
    }
}

impl<'a, R: Print + Wait + Sync> Work<Plain<Locks>> for Clerk<'a, R> {
    type Answer = Ending;

    ghost promise = { λ old new calls ends answer. Unit {0} };

    fn work<P: Pmem, B: Begun<Plain<Locks>, P>>(
        &mut self,
        seat: &mut Seat<'_, Plain<Locks>, P, B>,
    ) -> Ending {
        let ending = self.serve_all(seat);
        if !ending.is_good() {
            seat.stop();
        }
        seat.done();
        ending
    }
}
