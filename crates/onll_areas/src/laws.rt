//! What the files of areas promise, whatever code keeps and reads them.

ghost use Rattle.onll_areas.specs.Laws.{BlankAreaLaw, WholeAreaLaw};

/// A file of zeros, as a device leaves it that was given up, holds no checkpoint; and one of a checkpoint's lines holds that one.
pub fn area_laws()
    ensures blank { BlankAreaLaw }
    ensures whole { WholeAreaLaw }
{}
