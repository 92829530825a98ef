//! Threads that each do a work of their own on a pass.

ghost use Rattle.std.specs.Prelude.{◌≡◌, ◌<◌, ◌≤◌, ℕ, [], length, vec_capacity, slice_index_or, IfOk};
ghost use Rattle.std.specs.List.{AllByRecursion};
ghost use Rattle.onll_shared.specs.Passes.{IsTied};
ghost use Rattle.onll_shared.specs.Starts.{IsNewcomer};
ghost use Rattle.onll_threads.specs.Crews.{AllDone, AreJobs, AreTaken, JobHasEnded, HasSpace, HasSpaceFor, JobIsDone, JobIsReady};

use crate::job::{Job, do_job};
use crate::seat::Place;
use crate::work::Work;
use onll_model::Object;
use onll_pmem::Pmem;
use onll_shared::Pass;
use std::alloc::{AllocError, Global};
use std::thread;
use std::thread::Threads;

/// The memory that works on threads take, had before any of them begins.
#[derive(Drop)]
pub struct Space<'a, O: Object, P: Pmem, W, A> {
    pub(crate) jobs: Vec<Job<'a, O, P, W, A>>,
    pub(crate) done: DoneWorks<O, P, W, A>,
}

/// Works that were done, in their order, with their passes and answers.
#[derive(Drop)]
pub struct DoneWorks<O: Object, P: Pmem, W, A> {
    pub works: Vec<W>,
    pub passes: Vec<Pass<O, P>>,
    pub answers: Vec<A>,
}

/// The memory that so many works take.
pub fn reserve<'a, O: Object + Drop, P: Pmem + Drop, W: Drop, A: Drop>(
    alloc: Global,
    count: usize,
) -> Result<Space<'a, O, P, W, A>, AllocError>
    ensures { IfOk result (HasSpace count) }
{
    Ok(Space {
        jobs: Vec::with_capacity(alloc, count)?,
        done: DoneWorks {
            works: Vec::with_capacity(alloc, count)?,
            passes: Vec::with_capacity(alloc, count)?,
            answers: Vec::with_capacity(alloc, count)?,
        },
    })
}

/// A job for each work and pass, in a list that has room for them.
fn make_jobs<'a, O: Object + Drop, P: Pmem + Drop, W: Drop, A: Drop>(
    at: &'a Place<O>,
    mut works: Vec<W>,
    mut passes: Vec<Pass<O, P>>,
    mut jobs: Vec<Job<'a, O, P, W, A>>,
) -> Vec<Job<'a, O, P, W, A>>
    requires many { length works.items ≡ length passes.items }
    requires room { (jobs.items ≡ []) × (length passes.items ≤ vec_capacity jobs) }
    ensures { AreJobs at.now.onll works.items passes.items result.items }
{
    works.reverse();
    passes.reverse();
    while let Some(pass) = passes.pop() {
        let Some(work) = works.pop() else {
            unreachable!()
        };
        jobs.push_reserved(Job {
            at,
            work,
            pass: Some(pass),
            answer: None,
        });
    }
    jobs
}

/// Does the work of each job, in a thread of its own where one can be started.
fn do_jobs<
    R: Threads + Sync,
    O: Object + Drop + Send + Sync,
    P: Pmem + Drop + Send,
    W: Work<O> + Send + Drop,
>(rt: &R, jobs: &mut [Job<'_, O, P, W, W::Answer>])
    requires { AllByRecursion (JobIsReady O.means P.means) jobs.old }
    ensures len { length jobs.new ≡ length jobs.old }
    ensures done { (i : ℕ) (d : _) → i < length jobs.old →
        JobIsDone O.means P.means W.promise (slice_index_or jobs.old i d) (slice_index_or jobs.new i d) }
{
    let threads = jobs.len().max(1);
    thread::for_each_mut(
        rt,
        jobs,
        threads,
        &|_place: usize, job: &mut Job<'_, O, P, W, W::Answer>|
            requires { JobIsReady O.means P.means job.old }
            ensures { JobIsDone O.means P.means W.promise job.old job.new }
        { do_job(job) },
    );
}

/// What jobs that were done give, in their order.
fn take_apart<O: Object + Drop, P: Pmem + Drop, W: Drop, A: Drop>(
    mut jobs: Vec<Job<'_, O, P, W, A>>,
    mut all: DoneWorks<O, P, W, A>,
) -> DoneWorks<O, P, W, A>
    requires space { HasSpaceFor (length jobs.items) all }
    requires ended { AllByRecursion JobHasEnded jobs.items }
    ensures { AreTaken jobs.entry.items result.works.items result.passes.items result.answers.items }
{
    jobs.reverse();
    while let Some(job) = jobs.pop() {
        let Job {
            work,
            pass,
            answer,
            ..
        } = job;
        let Some(pass) = pass else { unreachable!() };
        let Some(answer) = answer else { unreachable!() };
        all.works.push_reserved(work);
        all.passes.push_reserved(pass);
        all.answers.push_reserved(answer);
    }
    all
}

/// Does each work on the pass at its place, in a thread of its own, where one can be started, else after another.
pub fn run_works<
    'a,
    R: Threads + Sync,
    O: Object + Drop + Send + Sync,
    P: Pmem + Drop + Send,
    W: Work<O> + Send + Drop,
>(
    rt: &R,
    place: &'a Place<O>,
    works: Vec<W>,
    passes: Vec<Pass<O, P>>,
    space: Space<'a, O, P, W, W::Answer>,
) -> DoneWorks<O, P, W, W::Answer>
    requires many { length works.items ≡ length passes.items }
    requires tied { AllByRecursion (IsTied O.means P.means place.now.onll) passes.items }
    requires fresh { AllByRecursion IsNewcomer passes.items }
    requires space { HasSpace (length works.items) space }
    ensures { AllDone O.means P.means W.promise place.now.onll works.items passes.items
        result.works.items result.passes.items result.answers.items }
{
    let Space { jobs, done } = space;
    let mut jobs = make_jobs(place, works, passes, jobs);
    do_jobs(rt, &mut jobs);
    take_apart(jobs, done)
}
