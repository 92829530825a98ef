//! What a run prints is judged legal, and is no longer than a report may be, for every object.

ghost use Rattle.onll_audit.specs.Printed.{PrintedLaw, ReportShortLaw};

use onll_text::Texted;

/// A law: a report of one legal history of the object, each call of which is over, is judged legal where it is printed. It does
/// nothing when called.
#[tactic(auto, using(crate::proofs::Formed::printed_legal))]
pub fn printed_law<O: Texted>()
    ensures { PrintedLaw O.means O.wording }
{}

/// A law: a report of as many nodes as all threads can have updates is no longer than `longest_report`. It does nothing when called.
#[tactic(auto, using(crate::proofs::Lengths::report_short))]
pub fn report_short_law<O: Texted>()
    ensures { ReportShortLaw O.means O.wording }
{}
