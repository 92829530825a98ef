//! What files of eras promise, whatever code writes them.

ghost use Rattle.onll_eras.specs.Laws.{RestoreSaysLaw, RestorePrintsLaw, OneStateLaw, SameStateLaw, CheckpointCutLaw, NextEraLaw, DoneLaw};

/// What `restore` prints is what the files of an era give; a checkpoint changes neither the place nor the state that they give,
/// however it ends; and where it is done the next era has begun. It does nothing when called.
pub fn era_laws()
    ensures says { RestoreSaysLaw }
    ensures prints { RestorePrintsLaw }
    ensures one { OneStateLaw }
    ensures same { SameStateLaw }
    ensures cut { CheckpointCutLaw }
    ensures next { NextEraLaw }
    ensures done { DoneLaw }
{}
