//! What the grammar of logs promises, whatever code reads and writes them.

ghost use Rattle.onll_log.specs.Laws.{HeadLaw, EntriesLaw, ZerosLaw, ContentLaw, EmptyLaw, MoreLaw, EightLaw, LinesLaw, WrittenLaw, NoHeadLaw, MasksLaw, TornLaw, PartLaw, LogCrashLaw, FrontLaw, AppendLaw, LeavesLaw, WipedLaw, CutLaw, UsedLaw, CursorEndLaw};

/// What is encoded is read back, in either format.
pub fn encoded_laws()
    ensures head { HeadLaw }
    ensures entries { EntriesLaw }
    ensures zeros { ZerosLaw }
    ensures content { ContentLaw }
    ensures empty { EmptyLaw }
    ensures more { MoreLaw }
    ensures eight { EightLaw }
    ensures lines { LinesLaw }
{}

/// What is read was written, in either format, whatever lines are read.
pub fn written_laws()
    ensures written { WrittenLaw }
    ensures no_head { NoHeadLaw }
{}

/// The bits of an entry's masks, in format 2.
pub fn masks_law()
    ensures masks { MasksLaw }
{}

/// An entry of format 2 of which a changed word is missing is not there, and those before it are.
pub fn torn_laws()
    ensures torn { TornLaw }
    ensures part { PartLaw }
    ensures crash { LogCrashLaw }
    ensures front { FrontLaw }
    ensures append { AppendLaw }
{}

/// What a torn entry of format 2 leaves can be wiped word by word, in any order.
pub fn remains_laws()
    ensures leaves { LeavesLaw }
    ensures wiped { WipedLaw }
    ensures cut { CutLaw }
    ensures used { UsedLaw }
{}

/// A cursor that shows no entry went past everything that the image holds.
pub fn cursor_law()
    ensures end { CursorEndLaw }
{}
