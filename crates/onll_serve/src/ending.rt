//! What a program says once its service has ended.

ghost use Rattle.std.specs.Prelude.{◌≡◌, Bool, IfOk};
ghost use Rattle.std.specs.List.{list_all};
ghost use Rattle.std.specs.Process.{exit_status};
ghost use Rattle.onll_serve.specs.Ending.{status_of, went_well};

use crate::fault::NotServed;
use crate::service::Served;
use onll_model::Object;
use onll_open::CloseFault;
use onll_pmem::Pmem;
use std::fmt::Display;
use std::io;
use std::process::ExitCode;

/// What a work gives back, as a program says it.
pub trait Reported: Display {
    ghost good: { Self → Bool };

    /// Whether the work ended well.
    fn is_good(&self) -> bool
        ensures { result ≡ good self.now };
}

/// Whether each of these ended well.
fn all_good<A: Reported>(answers: &[A]) -> bool
    ensures { result ≡ list_all A.good answers.now }
{
    answers.iter().all(|answer| answer.is_good())
}

/// Says this last. The status is 0 where all is good, else 1.
fn ended<R: Print, D: Display + Drop>(rt: &R, said: D, good: bool) -> io::Result<ExitCode>
    ensures { IfOk result (λ code. exit_status code ≡ status_of good) }
{
    println!(rt; "{said}")?;
    Ok(ExitCode::from(if good { 0 } else { 1 }))
}

/// Says how a service over the logs of this name went: from how many updates it went on, a line for each work, which begins with `who` and
/// its thread, and whether the logs were kept; or why it didn't begin. The status is 0 where each work ended well and all logs were kept,
/// else 1.
pub fn report<R: Print, O: Object, P: Pmem, W, A: Reported>(
    rt: &R,
    name: &str,
    who: &str,
    went: &Result<Served<O, P, W, A>, NotServed<W>>,
) -> io::Result<ExitCode>
    ensures { IfOk result (λ code. exit_status code ≡ status_of (went_well A.good went.now)) }
{
    let served = match went {
        Ok(served) => served,
        Err(refused) => return ended(rt, refused.fault.named(name), false),
    };
    println!(rt; "went on from {}", served.before)?;
    for (thread, answer) in served.answers.iter().enumerate() {
        println!(rt; "{who} {thread}: {answer}")?;
    }
    match &served.kept {
        Ok(()) => ended(rt, "kept", all_good(&served.answers)),
        Err(CloseFault::NotKept(fault)) => ended(rt, fault.named(name), false),
        Err(CloseFault::NoMemory(_)) => ended(rt, "out of memory", false),
    }
}
