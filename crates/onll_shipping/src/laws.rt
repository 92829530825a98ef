//! The law of shipping and following, as a call that does nothing.

ghost use Rattle.onll_shipping.specs.Laws.{ShippedLaw};

use onll_model::Object;

/// What is shipped of logs that recovery gives a state for is followed to that state, over the same trace.
pub fn shipped_law<O: Object>()
    ensures { ShippedLaw O.means }
{}
