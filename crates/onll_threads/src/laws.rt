//! What threads made, each of which did a work of its own.

ghost use Rattle.onll_threads.specs.Ended.{WorksLaw};

use crate::work::Work;
use onll_model::Object;
use onll_pmem::Pmem;

/// What threads made is a run, as if each had had a script of the calls that it made; what each work promises is so of its own; and the
/// object can be closed. It does nothing when called.
pub fn works_law<O: Object, P: Pmem, W: Work<O>>()
    ensures { WorksLaw O.means P.means W.promise }
{}
