//! How a checkpoint ends where a fence fails or a file can't be made, whatever the store.

ghost use Rattle.onll_eras.specs.EndingLaws.{FenceFaultLaw, FileFaultLaw};

/// A fence that failed, and a file that could not be made, are said and counted.
pub fn ending_laws()
    ensures fence { FenceFaultLaw }
    ensures file { FileFaultLaw }
{}
