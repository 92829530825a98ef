//! The laws of a map.

ghost use Rattle.onll_map.specs.Lookups.{PutLaw, DelLaw, OthersLaw, FullLaw, NextKeyLaw, NoNextLaw, KeptLaw};

/// Laws of any map: after a put that is not refused its key has its value, after a delete its key has none, and other keys
/// keep what they had; the next key is the least that is not below. It does nothing when called.
pub fn map_laws()
    ensures put { PutLaw }
    ensures del { DelLaw }
    ensures others { OthersLaw }
    ensures full { FullLaw }
    ensures next { NextKeyLaw }
    ensures no_next { NoNextLaw }
    ensures kept { KeptLaw }
{}
