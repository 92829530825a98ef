//! The command `recover`: the trace and the state that the logs of one run give.

ghost use Rattle.std.specs.Prelude.{[], ◌≡◌, ◌≤◌, true, IfOk, OnOk, All};
ghost use Rattle.onll_model.specs.Limits.{most_threads};
ghost use Rattle.std.specs.List.{flat_map};
ghost use Rattle.onll_words.specs.Texts.{line_text};
ghost use Rattle.onll_model.specs.Recovered.{operations_front};
ghost use Rattle.onll_merge.specs.Recovered.{recovered_in};
ghost use Rattle.onll_text.specs.Bytes.{begins_line, with_lines};
ghost use Rattle.onll_text.specs.Lines.{node_lines, state_lines};
ghost use Rattle.onll_text.specs.Reports.{NodeReads, StateReads};
ghost use Rattle.onll_task.specs.Doing.{Fulfils};
ghost use Rattle.onll_text.specs.Kinds.{kind_by};
ghost use Rattle.onll_recovery.specs.RecoverJob.{lines_with, recover_task};
ghost use Rattle.onll_task.specs.RecoverySaid.{RecoverReads, data_with};

use onll_merge::Recovery;
use onll_model::Node;
use onll_outside::Store;
use onll_task::{Stop, put_count, put_logs, put_nodes, recover_files};
use onll_text::{Report, Texted};
use onll_words::NoMemory;
use std::alloc::Global;

/// The lines of nodes, and of the object after them.
fn put_trace<O: Texted>(object: &O, nodes: &[Node], out: &mut Report) -> Result<(), NoMemory>
    requires begins { begins_line out.old ≡ true }
    requires rows { operations_front O.means nodes.now ≡ nodes.now }
    ensures lines { OnOk result (out.new ≡ with_lines (with_lines out.old (node_lines O.means O.wording 0 nodes.now))
        (state_lines O.wording object.now)) }
    ensures nodes { OnOk result (All (NodeReads O.means O.wording) nodes.now) }
    ensures state { OnOk result (StateReads O.wording object.now) }
{
    put_nodes::<O>(nodes, out)?;
    out.state_lines(object)
}

/// The report of what logs give, with the object after it. All that it says reads back.
fn report<O: Texted>(alloc: Global, object: &O, recovery: &Recovery) -> Result<Vec<u8>, NoMemory>
    requires { operations_front O.means recovery.now.nodes.items ≡ recovery.now.nodes.items }
    ensures report { let lines = lines_with O.means O.wording (recovered_in recovery.now) object.now in
        IfOk result (λ bytes. bytes.items ≡ flat_map line_text lines) }
    ensures reads { OnOk result (RecoverReads O.means O.wording (data_with (recovered_in recovery.now) object.now)) }
{
    let mut out = Report::new(alloc);
    put_logs(&recovery.logs, &mut out)?;
    put_count(recovery.nodes.len() as u64, &mut out)?;
    put_trace(object, &recovery.nodes, &mut out)?;
    Ok(out.into_bytes())
}

/// Recovers an object, whose initial state these bytes say, from the images of the logs of so many threads, and says what they give.
pub fn recover_on<O: Texted, S: Store>(
    alloc: Global,
    object: &mut O,
    init: &[u8],
    logs: &str,
    threads: u64,
    store: &mut S,
) -> Result<Vec<u8>, Stop>
    requires { (1 ≤ threads) × (threads ≤ most_threads) }
    ensures { let task = recover_task (kind_by O.means O.wording O.CODE) init.now logs.now threads object.old in
        Fulfils [] (S.seen store.old) (S.seen store.new) task result }
{
    match recover_files(alloc, object, init, logs, threads, store) {
        Ok(recovery) => Ok(report(alloc, object, &recovery)?),
        Err(stop) => Err(stop),
    }
}
