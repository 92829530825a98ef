//! What steps of a core keep, for every object and whatever threads take them.

ghost use Rattle.onll_core.specs.Laws.{FirstLaw, FirstFencesLaw, CreatedCoreLaw, CreatedFencesLaw, ResumedCoreLaw, ResumedFencesLaw, StepEventLaw, CoreStepLaw, StepsLaw, StaysLaw, FencesLaw, EntryBoundLaw};

use onll_model::Object;

/// Each step of a thread is one event of its frame, or leaves the frame.
pub fn step_event_law<O: Object>()
    ensures { StepEventLaw O.means }
{}

/// The first state of a core is consistent, of one that begins anew and of one that goes on; each step keeps it so.
pub fn consistency_law<O: Object>()
    ensures first { FirstLaw O O.Op O.Query O.Reply }
    ensures created { CreatedCoreLaw O O.Op O.Query O.Reply }
    ensures resumed { ResumedCoreLaw O O.Op O.Query O.Reply }
    ensures step { CoreStepLaw O.means }
    ensures steps { StepsLaw O.means }
{}

/// An update fences once and a read never, and no entry holds more nodes than there are threads.
pub fn fence_law<O: Object>()
    ensures first { FirstFencesLaw O O.Op O.Query O.Reply }
    ensures created { CreatedFencesLaw O O.Op O.Query O.Reply }
    ensures resumed { ResumedFencesLaw O O.Op O.Query O.Reply }
    ensures fences { FencesLaw O.means }
    ensures entries { EntryBoundLaw O O.Op O.Query O.Reply }
{}

/// Steps take nothing back: nodes stay where they are, a flag that is set stays set, and so do returned calls.
pub fn stays_law<O: Object>()
    ensures { StaysLaw O.means }
{}
