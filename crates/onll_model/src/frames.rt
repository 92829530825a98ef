//! The laws of frames, of looks and of the order of updates and reads.

ghost use Rattle.onll_model.specs.FrameLaws.{EventLaw, StepLaw, ResumedLaw, CreatedLaw};
ghost use Rattle.onll_model.specs.Looks.{LookLaw};
ghost use Rattle.onll_model.specs.RealTime.{StandOrder};

/// Soundness is an invariant of frames: each event that may come keeps it, and the base. An event is a step of its thread alone:
/// the trace and the set flags only grow, and the parts of other threads stay.
pub fn event_laws()
    ensures sound { EventLaw }
    ensures step { StepLaw }
{}

/// The first frame is sound, of a run that goes on from a base and of one that begins anew.
pub fn first_frame_laws()
    ensures resumed { ResumedLaw }
    ensures created { CreatedLaw }
{}

/// What a call learns from its loads, of the tail and then of flags from there down to the first that is set or the base: all
/// places above the one where it ends were loaded as unset, and that one as set unless it is the base.
pub fn look_law()
    ensures { LookLaw }
{}

/// The points at which updates and reads take effect, nodes and the reads that have returned, are in a strict total order.
pub fn total_order_law()
    ensures { StandOrder }
{}
