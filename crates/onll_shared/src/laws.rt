//! What a crash leaves of a shared object, whatever code shows it.
ghost use Rattle.onll_shared.specs.Crash.{SharedCrashLaw, LogLaw, SharedImageLaw};

use onll_model::Object;
use onll_pmem::Pmem;

/// An update that was answered survives a crash. At any moment, between calls and within them, whatever a crash leaves of the logs
/// merges to the first nodes of the trace, and these have every available place and all that any pass has seen.
pub fn crash_law<O: Object, P: Pmem>()
    ensures crash { SharedCrashLaw O P }
{}

/// What a device may leave of the log of a pass between its calls.
pub fn image_law<O: Object, P: Pmem>()
    ensures log { LogLaw O.means P.means }
    ensures image { SharedImageLaw O.means P.means }
{}
