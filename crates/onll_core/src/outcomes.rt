//! What holds of the calls of a core, for every object and whatever threads take steps.

ghost use Rattle.onll_core.specs.OutcomeLaws.{FirstReachedLaw, CreatedReachedLaw, ResumedReachedLaw, FreshReachedLaw, StepReachedLaw, StepsReachedLaw, ReachedConsistentLaw, ReportLaw, OrderLaw, ReturnLaw};

use onll_model::Object;

/// The first state of a core is reached, of one that begins anew and of one that goes on, and so is what steps lead to from a
/// state that is reached; all of them are consistent.
pub fn reached_law<O: Object>()
    ensures first { FirstReachedLaw O.means }
    ensures created { CreatedReachedLaw O.means }
    ensures resumed { ResumedReachedLaw O.means }
    ensures fresh { FreshReachedLaw O.means }
    ensures step { StepReachedLaw O.means }
    ensures steps { StepsReachedLaw O.means }
    ensures consistent { ReachedConsistentLaw O.means }
{}

/// The outcomes and the trace of a core are one legal history of the object.
pub fn report_law<O: Object>()
    ensures { ReportLaw O.means }
{}

/// The calls of a core, in flight too, stand in one order that agrees with the time at which they were made.
pub fn order_law<O: Object>()
    ensures { OrderLaw O.means }
{}

/// An ordered update returns within three steps for each thread and four more, all of its own thread.
pub fn return_law<O: Object>()
    ensures { ReturnLaw O.means }
{}
