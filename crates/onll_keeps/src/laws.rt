//! What works say of their calls is even, over a service and over a life.

ghost use Rattle.onll_balance.specs.Floor.{Floor};
ghost use Rattle.onll_balance.specs.Measure.{Measure};
ghost use Rattle.onll_keeps.specs.Accounts.{Account, ServesEvenly};
ghost use Rattle.onll_keeps.specs.Lifetimes.{LifeBalanceLaw, LifeFloorLaw};

use onll_balance::{balance_law, floor_law};
use onll_model::Object;
use onll_pmem::Pmem;
use onll_threads::Work;

/// What works that were served say that they took out, and what is left, are no more than what the files left and what they say that they
/// put in; also of whatever a crash leaves. It does nothing when called.
pub fn account_law<O: Object, P: Pmem, W: Work<O>>()
    ensures { (m : Measure O.means) (a : Account m W.promise) (store : _) (logs : _) (heads : _) (state : _) (works : _) (new : _)
        (served : _) → ServesEvenly m W.promise P.means a store logs heads state works new served }
{
    balance_law::<O>();
}

/// The same of the calls of all generations, killed or ended. It does nothing when called.
pub fn life_balance_law<O: Object>()
    ensures { (first : _) (m : Measure O.means) → LifeBalanceLaw O.means first m }
{
    balance_law::<O>();
}

/// Over all generations nothing is lost: what there was and what was put in is taken out or still there. It does nothing when called.
pub fn life_floor_law<O: Object>()
    ensures { (first : _) (f : Floor O.means) → LifeFloorLaw O.means first f }
{
    floor_law::<O>();
}
