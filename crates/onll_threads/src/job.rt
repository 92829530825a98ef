//! One thread's work, before it is done and after.

ghost use Rattle.std.specs.Prelude.{◌≡◌, Some};
ghost use Rattle.onll_threads.specs.Acts.{IsUnused, seat_of};
ghost use Rattle.onll_threads.specs.Crews.{WasDone, JobIsReady, JobIsDone};

use crate::seat::{Begun, Place, Seat};
use crate::work::Work;
use onll_model::Object;
use onll_pmem::Pmem;
use onll_shared::Pass;
use std::marker::{Brand, PhantomData};

/// A work with its pass, and its answer once it is done.
#[derive(Drop)]
pub struct Job<'a, O: Object, P: Pmem, W, A> {
    pub at: &'a Place<O>,
    pub work: W,
    pub pass: Option<Pass<O, P>>,
    pub answer: Option<A>,
}

/// Does a work at the seat that it picks.
fn sit<O: Object + Drop, P: Pmem + Drop, W: Work<O>, B: Begun<O, P>>(
    at: &Place<O>,
    work: &mut W,
    pass: Pass<O, P>,
) -> (Pass<O, P>, W::Answer)
    requires first { B.first ≡ Some (seat_of at.now.onll pass) }
    requires unused { IsUnused O.means P.means at.now.onll pass }
    ensures { WasDone O.means P.means at.now.onll (W.promise work.old work.new) pass result.0 result.1 }
{
    let mut seat: Seat<'_, O, P, B> = Seat {
        at,
        pass,
        of: PhantomData,
    };
    let answer = work.work(&mut seat);
    let Seat { at: _, pass, of: _ } = seat;
    (pass, answer)
}

/// Does a work on a pass.
fn do_work<O: Object + Drop, P: Pmem + Drop, W: Work<O>>(
    at: &Place<O>,
    work: &mut W,
    pass: Pass<O, P>,
) -> (Pass<O, P>, W::Answer)
    requires { IsUnused O.means P.means at.now.onll pass }
    ensures { WasDone O.means P.means at.now.onll (W.promise work.old work.new) pass result.0 result.1 }
{
    sit::<O, P, W, Brand>(at, work, pass)
}

/// Does one thread's work.
pub fn do_job<O: Object + Drop, P: Pmem + Drop, W: Work<O>>(job: &mut Job<'_, O, P, W, W::Answer>)
    requires { JobIsReady O.means P.means job.old }
    ensures { JobIsDone O.means P.means W.promise job.old job.new }
{
    let Some(pass) = job.pass.take() else {
        unreachable!()
    };
    let (pass, answer) = do_work(job.at, &mut job.work, pass);
    job.pass = Some(pass);
    job.answer = Some(answer);
}
