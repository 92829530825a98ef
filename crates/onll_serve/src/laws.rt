//! What stays of a service, however often it ends.

ghost use Rattle.std.specs.Prelude.{◌≡◌, is_some};
ghost use Rattle.onll_serve.specs.Linking.{FilesLifeLaw, LeavesInFiles, NextLaw};
ghost use Rattle.onll_serve.specs.Lives.{LeavesFronts, LifeLaw};
ghost use Rattle.onll_serve.specs.Moments.{KilledLaw, MomentLaw};

use onll_model::Object;
use onll_outside::Store;
use onll_pmem::Pmem;
use onll_threads::Work;

/// Whatever the newest generation of threads left, each call that was answered in any of them stands in it. It does nothing when called.
pub fn life_law<O: Object>()
    ensures { LifeLaw O O.Op O.Query O.Reply }
{}

/// Whatever a crash leaves of an object that was closed recovers to a front of its history, from which a next generation goes on. It does
/// nothing when called.
pub fn fronts_law<O: Object, P: Pmem>()
    ensures { (onll : _) (runs : _) (h : _) → LeavesFronts O.means P.means onll runs h }
{}

/// Where the files of an object's logs hold what a crash left of it, what they give is a front of its history, with each answered call.
/// It does nothing when called.
pub fn files_law<O: Object, P: Pmem>()
    ensures { (onll : _) (runs : _) (h : _) → LeavesInFiles O.means P.means onll runs h }
{}

/// A device tells its fenced words by its type.
fn told_law<P: Pmem>()
    ensures { (device : P) → is_some (P.means device).told ≡ P.tells }
{}

/// What a service kept is what the next one finds: where the store tells its files, whatever they give after it is a front of its
/// threads' history, with each answered call. It does nothing when called.
pub fn next_law<O: Object, S: Store, W: Work<O>>()
    ensures { NextLaw O.means S.Dev.means S.seen W.promise }
{
    told_law::<S::Dev>();
}

/// Over any number of services, one after the other over the same files, each answered call of every one stands in what the files give
/// after the last. It does nothing when called.
pub fn files_life_law<O: Object>()
    ensures { (logs : _) (heads : _) → FilesLifeLaw O.means logs heads }
{}

/// Whatever a crash leaves at any moment, while threads work at an object or between their calls, recovers to a front of its trace with
/// each call that was answered so far. Where the files of an object that was opened hold it, it is what the next opening finds. It does
/// nothing when called.
pub fn moment_law<O: Object, P: Pmem>()
    ensures moment { MomentLaw O.means P.means }
    ensures killed { KilledLaw O.means P.means }
{}
