//! The command `fold`: a script done in order on an initial state.

ghost use Rattle.std.specs.Prelude.{◌≡◌, ◌+◌, ◌++◌, ◌∷◌, ◌<◌, ◌^◌, [], true, IfOk, OnOk};
ghost use Rattle.onll_model.specs.Fold.{fold_trace, fold_ends, fold_state};
ghost use Rattle.onll_text.specs.Bytes.{begins_line, with_lines};
ghost use Rattle.onll_text.specs.Lines.{call_lines};
ghost use Rattle.onll_text.specs.Reports.{EndsRead, FoldDataReads};
ghost use Rattle.onll_jobs.specs.Fold.{fold_report};
ghost use Rattle.onll_jobs.specs.FoldJob.{fold_data, script_task};
ghost use Rattle.onll_task.specs.Doing.{Fulfils};

use onll_model::{Call, CallEnd, Node};
use onll_outside::Store;
use onll_task::{Stop, put_nodes, script_file};
use onll_text::{Report, Texted};
use onll_words::NoMemory;
use std::alloc::Global;

/// Does one call after so many updates, and puts its node into the trace.
fn fold_call<O: Texted>(
    object: &mut O,
    call: &Call<O>,
    updates: u64,
    trace: &mut Vec<Node>,
) -> Result<CallEnd<O>, NoMemory>
    requires { updates + 1 < 2 ^ 64 }
    ensures state { OnOk result (object.new ≡ fold_state O.means object.old (call.now ∷ [])) }
    ensures trace { OnOk result (trace.new.items ≡ trace.old.items ++ fold_trace O.means updates (call.now ∷ [])) }
    ensures end { IfOk result (λ end. end ∷ [] ≡ fold_ends O.means object.old updates (call.now ∷ [])) }
{
    match call {
        Call::Update(op) => {
            let number = updates + 1;
            let node = Node {
                thread: 0,
                number,
                row: O::op_row(*op),
            };
            trace.push(node)?;
            Ok(CallEnd::Answered {
                reply: object.apply(*op),
                place: number,
            })
        }
        Call::Ask(query) => Ok(CallEnd::Answered {
            reply: object.ask(*query),
            place: updates,
        }),
    }
}

/// Does the calls of thread 0 in order, and appends the line of each.
fn put_calls<O: Texted>(
    object: &mut O,
    script: &[Call<O>],
    trace: &mut Vec<Node>,
    out: &mut Report,
) -> Result<(), NoMemory>
    requires fresh { trace.old.items ≡ [] }
    requires begins { begins_line out.old ≡ true }
    ensures state { OnOk result (object.new ≡ fold_state O.means object.old script.now) }
    ensures trace { OnOk result (trace.new.items ≡ fold_trace O.means 0 script.now) }
    ensures lines { let ends = fold_ends O.means object.old 0 script.now in
        OnOk result (out.new ≡ with_lines out.old (call_lines O.wording 0 0 script.now ends)) }
    ensures ends { OnOk result (EndsRead O.wording script.now (fold_ends O.means object.old 0 script.now)) }
{
    let mut number = 0;
    for call in script {
        number += 1;
        let end = fold_call(object, call, trace.len() as u64, trace)?;
        out.call_line(0, number, call, &end)?;
    }
    Ok(())
}

/// The report of a script that is done in order on the object. That its outcomes and its trace are a legal history is `fold_law`
/// of `onll_model`. All that it says reads back.
#[tactic(auto, using(onll_text::proofs::Appending::beginning))]
fn fold_script<O: Texted>(
    alloc: Global,
    object: &mut O,
    script: &[Call<O>],
) -> Result<Vec<u8>, NoMemory>
    ensures report { IfOk result (λ bytes. bytes.items ≡ fold_report O.means O.wording object.old script.now) }
    ensures reads { OnOk result (FoldDataReads O.means O.wording script.now (fold_data O.means object.old script.now)) }
{
    let mut out = Report::new(alloc);
    let mut trace = Vec::new(alloc);
    put_calls(object, script, &mut trace, &mut out)?;
    out.trace_line(trace.len() as u64)?;
    put_nodes::<O>(&trace, &mut out)?;
    out.state_lines(object)?;
    Ok(out.into_bytes())
}

/// Folds the script of a file on an object.
pub(crate) fn fold_object<O: Texted, S: Store>(
    alloc: Global,
    object: &mut O,
    script: &str,
    store: &mut S,
) -> Result<Vec<u8>, Stop>
    ensures { let task = script_task O.means O.wording object.old script.now in
        Fulfils [] (S.seen store.old) (S.seen store.new) task result }
{
    match script_file::<O, S>(alloc, script, store) {
        Ok(calls) => Ok(fold_script(alloc, object, &calls)?),
        Err(stop) => Err(stop),
    }
}
