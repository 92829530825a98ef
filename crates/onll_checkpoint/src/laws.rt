//! What checkpoints in lines promise, whatever code reads and writes them.

ghost use Rattle.onll_checkpoint.specs.Laws.{FoundLaw, NoneLaw, TornFirstLaw, TextCrashLaw, FirstCrashLaw, GuardLaw};

/// What is written is read back, and a last word is that of a first line exactly where its bits are those of the format.
pub fn format_laws()
    ensures found { FoundLaw }
    ensures guard { GuardLaw }
{}

/// A checkpoint whose first line misses a word is not there; so a crash at any moment of a save leaves none, or the whole.
pub fn crash_laws()
    ensures none { NoneLaw }
    ensures torn { TornFirstLaw }
    ensures text { TextCrashLaw }
    ensures first { FirstCrashLaw }
{}
