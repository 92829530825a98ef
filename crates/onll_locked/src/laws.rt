//! The laws of the object under one lock: its logs merge to its trace.

ghost use Rattle.onll_locked.specs.Laws.{BegunLaw, MergedLaw, WholeLogsLaw, AnswerLaw, FirstLogLaw};

use onll_model::Object;
use onll_pmem::Pmem;

/// Logs that began empty merge, as read, to the trace: before any call they hold the whole trace, each call keeps that, and
/// logs that hold the whole trace merge to it.
pub fn whole_laws<O: Object, P: Pmem>()
    ensures begun { BegunLaw }
    ensures kept { WholeLogsLaw O.means P }
    ensures merged { MergedLaw }
{}

/// When a call is answered with Done, Broken and FenceFailed.
pub fn answer_law<O: Object, P: Pmem>()
    ensures answers { AnswerLaw O.means P }
{}

/// A new log with lines for all updates of a thread's script is one that the thread's first call takes.
pub fn first_log_law<O: Object, P: Pmem>()
    ensures first { FirstLogLaw O O.Op O.Query O.Reply P }
{}
