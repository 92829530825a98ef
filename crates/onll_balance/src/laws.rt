//! What measures and floors of objects keep.

ghost use Rattle.onll_balance.specs.Floor.{Exact, Floor};
ghost use Rattle.onll_balance.specs.Measure.{Measure};
ghost use Rattle.onll_balance.specs.Balance.{FrontBalanceLaw, FrontExactLaw, FrontFloorLaw, WholeBalanceLaw, WholeExactLaw, WholeFloorLaw};

use onll_model::Object;

/// In any legal history, and in whatever is recovered of one, no more is taken out than there was and what was put in. It does nothing
/// when called.
pub fn balance_law<O: Object>()
    ensures front { (m : Measure O.means) → FrontBalanceLaw O.means m }
    ensures whole { (m : Measure O.means) → WholeBalanceLaw O.means m }
{}

/// In any legal history, and in whatever is recovered of one, nothing is lost: what there was and what was put in is taken out or still
/// there. It does nothing when called.
pub fn floor_law<O: Object>()
    ensures front { (f : Floor O.means) → FrontFloorLaw O.means f }
    ensures whole { (f : Floor O.means) → WholeFloorLaw O.means f }
{}

/// Where no fence failed, both are one equation. It does nothing when called.
pub fn exact_law<O: Object>()
    ensures front { (e : Exact O.means) → FrontExactLaw O.means e }
    ensures whole { (e : Exact O.means) → WholeExactLaw O.means e }
{
    balance_law::<O>();
    floor_law::<O>();
}
