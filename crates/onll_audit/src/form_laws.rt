//! Which texts are reports, for every object.

ghost use Rattle.onll_audit.specs.ReportLines.{ReportLinesLaw};

use onll_text::Texted;

/// A law: a text is read as a report, and says what it does, just where it has the lines of one. It does nothing when called.
pub fn form_law<O: Texted>()
    ensures { ReportLinesLaw O.means O.wording }
{}
