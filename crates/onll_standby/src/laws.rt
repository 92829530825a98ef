//! The laws of streams, as calls that do nothing.

ghost use Rattle.onll_standby.specs.Laws.{BytesLaw, StreamPartLaw, StreamCutLaw, LineLaw, LastingLaw, CleanLaw, FaultLaw, CoveredLaw, SoundStreamLaw, RecoveredStreamLaw};

use onll_model::Object;

/// However a stream is cut, what it comes to is the same.
pub fn cut_law<O: Object>()
    ensures cut { StreamCutLaw O.means }
    ensures line { LineLaw O.means }
    ensures bytes { BytesLaw }
    ensures part { StreamPartLaw }
    ensures lasting { LastingLaw O.means }
    ensures clean { CleanLaw O.means }
{}

/// Want of memory is no fault of a stream, and without a fault all that the entries cover is followed.
pub fn course_law<O: Object>()
    ensures fault { FaultLaw O.means }
    ensures covered { CoveredLaw O.means }
{}

/// A stream of fronts of the logs of a sound frame is followed along the frame's trace.
pub fn sound_stream_law<O: Object>()
    ensures { SoundStreamLaw O.means }
{}

/// A stream of all entries of what a crash leaves of a sound frame's threads is followed as far as recovery goes, to the same nodes.
pub fn recovered_stream_law<O: Object>()
    ensures { RecoveredStreamLaw O.means }
{}
