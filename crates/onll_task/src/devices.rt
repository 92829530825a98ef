//! Devices kept as files, and what is said where one could not be kept.

ghost use Rattle.std.specs.Prelude.{◌≤◌, ℕ, List, [], ◌∷◌, length, map};
ghost use Rattle.onll_words.specs.Texts.{AreWords, line_text};
ghost use Rattle.onll_outside.specs.Views.{StoreView, SameOthers};
ghost use Rattle.onll_areas.specs.Keeping.{KeepEnds};
ghost use Rattle.onll_text.specs.Pieces.{piece_word};
ghost use Rattle.onll_task.specs.Doing.{DoesStage, keep_stage};

use crate::answer::Stop;
use crate::ending::Ending;
use onll_areas::KeepFault;
use onll_outside::OutsideFault;
use onll_text::Piece;
use std::alloc::Global;

/// What comes of a device that was to be kept as the file `name`: nothing more where it was. It stops with the line `said` where a fence
/// failed, and names the file where the store failed.
pub fn kept_or(
    alloc: Global,
    name: &str,
    said: &[Piece<'_>],
    kept: Result<(), KeepFault>,
) -> Result<(), Stop>
    requires some { 1 ≤ length said.now }
    requires words { AreWords (map piece_word said.now) }
    ensures { (store after : StoreView) (lines : List (List ℕ)) (fences : ℕ) → KeepEnds store after name.now lines fences kept
        → SameOthers name.now store after
        → let stage = keep_stage name.now lines fences (line_text (map piece_word said.now)) in
        DoesStage (name.now ∷ []) store after stage (λ done. done) result }
{
    match kept {
        Ok(()) => Ok(()),
        Err(KeepFault::Outside(OutsideFault::Failed)) => Err(Stop::unwritten(alloc, name)),
        Err(KeepFault::Outside(OutsideFault::NoMemory)) => Err(Stop::NoMemory),
        Err(KeepFault::FenceFailed) => Err(Stop::says_line(alloc, Ending::Faulty, said)),
    }
}
