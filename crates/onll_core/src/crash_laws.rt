//! What a crash of a core leaves and what is recovered from it, for every object, whatever threads take steps.

ghost use Rattle.onll_start.specs.Based.{BaseLaw};
ghost use Rattle.onll_core.specs.Based.{SameRefusalLaw, SameBaseLaw};
ghost use Rattle.onll_core.specs.Durable.{DurableLaw};
ghost use Rattle.onll_core.specs.Generations.{GenerationsLaw, PrefixLaw, OnlyTooManyLaw};
ghost use Rattle.onll_core.specs.CrashLaws.{CoreImageLaw, RestLaw, PickedLaw, RecoveryLaw, HeadsLaw, LaterCrashLaw, CoreCrashLaw, ResumedCrashLaw, ReachedCrashLaw, GoOnLaw, MoreNodesLaw, NextCrashLaw};

use onll_model::Object;

/// Each image of a thread's device, in which each word by itself is fenced or as read, is a log with the thread's head
/// and its fenced entries, and with the entry that is being written exactly where that is whole. Behind them are zeros, or
/// what is left of that entry. Every number picks such images.
pub fn image_law<O: Object>()
    ensures holds { CoreImageLaw O O.Op O.Query O.Reply }
    ensures rest { RestLaw O O.Op O.Query O.Reply }
    ensures picked { PickedLaw O O.Op O.Query O.Reply }
{}

/// All images of a consistent core, and of those that steps lead to, recover with the heads that its logs had at first.
pub fn recovery_law<O: Object>()
    ensures recovery { RecoveryLaw O O.Op O.Query O.Reply }
    ensures heads { HeadsLaw O.means }
    ensures later { LaterCrashLaw O.means }
{}

/// A crash at any step leaves logs whose recovery is a prefix of the trace and holds every returned update and all that
/// returned reads saw; where the core goes on from recovered nodes, the prefix begins with these.
pub fn crash_law<O: Object>()
    ensures begun { CoreCrashLaw O.means }
    ensures resumed { ResumedCrashLaw O.means }
    ensures reached { ReachedCrashLaw O.means }
{}

/// A core can go on from what is recovered after a crash, with any scripts that have room, and what returned before that
/// crash is recovered after the next one, and so after every later one.
pub fn next_crash_law<O: Object>()
    ensures on { GoOnLaw O O.Op O.Query O.Reply }
    ensures more { MoreNodesLaw O.means }
    ensures next { NextCrashLaw O.means }
{}

/// What ONLL promises, in one place, of a core that begins anew and of one that goes on from any images: in every interleaving of any
/// scripts, at every step, the trace is the base and then one legal history in real time, an update has fenced its log once in this
/// generation and a read never, and whatever a crash leaves recovers to a prefix of the trace that holds the base, every returned
/// update and all that returned reads saw.
pub fn durable_law<O: Object>()
    ensures { DurableLaw O.means }
{}

/// Of any number of generations, each of which went on from what a crash left of the one before, the newest leaves logs that recover
/// to a prefix of its trace with every returned update, all that returned reads saw, and all nodes from which it went on. So what is
/// recovered of one is a prefix of what is recovered of the next, and the next is refused only for too many updates of a thread.
pub fn generations_law<O: Object>()
    ensures leaves { GenerationsLaw O.means }
    ensures prefix { PrefixLaw O.means }
    ensures refused { OnlyTooManyLaw O.means }
{}

/// What images give to scripts that go on from them: logs of one run, which merge to nodes of operations, and room for each script.
/// A core goes on from the same images, and is refused for the same reason.
pub fn base_law<O: Object>()
    ensures base { BaseLaw O.means }
    ensures same { SameBaseLaw O.means }
    ensures refused { SameRefusalLaw O.means }
{}
