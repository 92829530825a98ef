//! The laws of a bank.

ghost use Rattle.onll_bank.specs.Totals.{TotalLaw, TransferLaw, RefusedLaw, BoundLaw};

/// Laws of any operations on any bank: no money is made or lost, a transfer keeps the total, what is refused changes
/// nothing, and the bounds stay. It does nothing when called.
#[tactic(auto, using(crate::proofs::Totals::total_law, crate::proofs::Totals::transfer_law, crate::proofs::Totals::refused_law))]
pub fn bank_laws()
    ensures total { TotalLaw }
    ensures transfer { TransferLaw }
    ensures refused { RefusedLaw }
    ensures bound { BoundLaw }
{}
