//! What services in one era after the other add up to, and what a cut between two eras leaves.

ghost use Rattle.onll_balance.specs.Floor.{Floor};
ghost use Rattle.onll_balance.specs.Measure.{Measure};
ghost use Rattle.onll_live.specs.Balances.{ErasBalanceLaw, ErasFloorLaw};
ghost use Rattle.onll_live.specs.Cuts.{EraCutLaw, EraStandsLaw};
ghost use Rattle.onll_live.specs.Killed.{EraKilledLaw};
ghost use Rattle.onll_live.specs.Lifetime.{ErasLaw};

use crate::settling::told_law;
use onll_balance::{balance_law, floor_law};
use onll_model::Object;
use onll_outside::Store;
use onll_pmem::Pmem;
use onll_serve::moment_law;
use onll_threads::Work;

/// Where the store tells its files, the newest era began in the state that all earlier ones made, one after the other, and each call that
/// was answered in any of them is counted in it. It does nothing when called.
pub fn eras_law<O: Object, S: Store, W: Work<O>>()
    ensures { ErasLaw O.means S.Dev.means S.seen W.promise }
{
    told_law::<S::Dev>();
}

/// What was taken out over eras, and what is left where the newest began, are no more than what there was at first and what was put in;
/// and of that nothing is lost. It does nothing when called.
pub fn eras_balance_law<O: Object, P: Pmem, W: Work<O>>()
    ensures balance { (m : Measure O.means) (code : _) (description : _) (name : _)
        → ErasBalanceLaw O.means P.means W.promise code description name m }
    ensures floor { (f : Floor O.means) (code : _) (description : _) (name : _)
        → ErasFloorLaw O.means P.means W.promise code description name f }
{
    balance_law::<O>();
    floor_law::<O>();
}

/// Where the store tells its files: files that held an object hold it after as many updates, and in the same state, where the power failed
/// and the beginning of its next era left what `IsEraCut` says; and whatever `begin_next` answers. It does nothing when called.
pub fn era_cut_law<O: Object>()
    ensures cut { EraCutLaw O.means }
    ensures stands { EraStandsLaw O.means }
{}

/// Where the store tells its files, and works that are served in an era are killed, at any moment, within their calls too: the object is in
/// this era still, and whatever its logs then give is a front of what was done, with what they held before and each answered call. The next
/// life goes on from it. It does nothing when called.
pub fn era_killed_law<O: Object, P: Pmem>()
    ensures { EraKilledLaw O.means P.means }
{
    moment_law::<O, P>();
}
