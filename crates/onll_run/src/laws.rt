//! What threads that each did a script made, whatever code ran them.
ghost use Rattle.onll_run.specs.Ended.{RunLaw};
ghost use Rattle.onll_run.specs.Crew.{PassesLaw, ReadyLaw};

use onll_model::Object;
use onll_pmem::Pmem;

/// What threads made is one legal history in which each call is over; a node's flag is unset exactly where its update's fence failed;
/// and whatever a crash leaves of their logs recovers to a front of the trace with every answered call.
pub fn run_law<O: Object, P: Pmem>()
    ensures { (onll : _) → RunLaw O.means P.means onll }
{}

/// What scripts made that were done on the passes of an object, from its beginning on: the object can be closed over these passes, and
/// each thread has done its own script.
pub fn passes_law<O: Object, P: Pmem>()
    ensures { PassesLaw O.means P.means }
{}

/// The passes that a shared object begins with are ready for scripts that have room in their passes and lines in their logs.
pub fn ready_law<O: Object, P: Pmem>()
    ensures { ReadyLaw O.means P.means }
{}
