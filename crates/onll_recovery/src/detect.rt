//! The command `detect`: which updates of scripts took effect, by the logs of their run.

ghost use Rattle.std.specs.Prelude.{[], ◌∷◌, ◌≡◌, ◌+◌, ◌<◌, ◌≤◌, ◌^◌, ◌++◌, length, true, map, string_bytes, slice_get, IfOk, OnOk};
ghost use Rattle.std.specs.List.{AllByRecursion, flat_map};
ghost use Rattle.onll_model.specs.Calls.{updates_in};
ghost use Rattle.onll_model.specs.Limits.{most_threads};
ghost use Rattle.onll_model.specs.Recovered.{operations_front};
ghost use Rattle.onll_model.specs.Trace.{IsNumbered};
ghost use Rattle.onll_words.specs.Texts.{line_text};
ghost use Rattle.onll_detect.specs.Outcomes.{table_of, numbered_in};
ghost use Rattle.onll_outside.specs.Views.{StoreView};
ghost use Rattle.onll_text.specs.Bytes.{begins_line, with_lines};
ghost use Rattle.onll_text.specs.Kinds.{kind_by};
ghost use Rattle.onll_task.specs.Doing.{Fulfils};
ghost use Rattle.onll_task.specs.Stop.{StopSays};
ghost use Rattle.onll_recovery.specs.DetectJob.{outcome_line, update_lines, scripts_lines, detect_lines, update_rows, is_in_script, stranger, stranger_to, stranger_line, lines_task, nodes_task, detect_logs_task, detect_task};

use onll_detect::{DetectFault, Outcome, Outcomes};
use onll_model::{Call, CallEnd, Node, Object};
use onll_outside::Store;
use onll_task::{Ending, Stop, put_count, recover_files, script_files};
use onll_text::{Piece, Report, Texted};
use onll_words::{NoMemory, OpRow};
use std::alloc::{AllocError, Global};

/// The rows of a script's updates, in order.
fn update_rows<O: Object>(alloc: Global, script: &[Call<O>]) -> Result<Vec<OpRow>, AllocError>
    ensures { IfOk result (λ rows. rows.items ≡ update_rows O.means script.now) }
{
    let mut rows = Vec::new(alloc);
    for call in script {
        match call {
            Call::Update(op) => rows.push(O::op_row(*op))?,
            Call::Ask(_) => {}
        }
    }
    Ok(rows)
}

/// Those of each script.
fn all_rows<O: Object>(
    alloc: Global,
    scripts: &[Vec<Call<O>>],
) -> Result<Vec<Vec<OpRow>>, AllocError>
    ensures { let calls = map (λ script. script.items) scripts.now in
        IfOk result (λ rows. map (λ own. own.items) rows.items ≡ map (update_rows O.means) calls) }
{
    let mut rows = Vec::new(alloc);
    for script in scripts {
        rows.push(update_rows(alloc, script)?)?;
    }
    Ok(rows)
}

/// The row of the update of this number of a thread, from 1.
fn own_row(rows: &[Vec<OpRow>], thread: u64, number: u64) -> Option<OpRow>
    ensures { result ≡ numbered_in (slice_get (map (λ own. own.items) rows.now) thread) number }
{
    let own = rows.get(thread as usize)?;
    if number == 0 {
        return None;
    }
    own.get((number - 1) as usize).copied()
}

/// Whether a node is the update of its number in its thread's script.
fn is_in_script(rows: &[Vec<OpRow>], node: &Node) -> bool
    ensures { result ≡ is_in_script (map (λ own. own.items) rows.now) node.now }
{
    match own_row(rows, node.thread, node.number) {
        Some(row) => row == node.row,
        None => false,
    }
}

/// The first place whose node is none.
fn first_stranger(rows: &[Vec<OpRow>], nodes: &[Node]) -> Option<u64>
    ensures { result ≡ stranger (map (λ own. own.items) rows.now) 0 nodes.now }
{
    let mut place = 0;
    for node in nodes {
        place += 1;
        if !is_in_script(rows, node) {
            return Some(place);
        }
    }
    None
}

/// The first place whose node is no update of these scripts.
fn stranger_to<O: Object>(
    alloc: Global,
    scripts: &[Vec<Call<O>>],
    nodes: &[Node],
) -> Result<Option<u64>, AllocError>
    ensures { let calls = map (λ script. script.items) scripts.now in
        IfOk result (λ place. place ≡ stranger_to O.means calls nodes.now) }
{
    let rows = all_rows(alloc, scripts)?;
    Ok(first_stranger(&rows, nodes))
}

/// What is said where the node of a place is no update of the scripts.
fn not_in_script(alloc: Global, place: u64) -> Stop
    ensures { StopSays result (λ end said. (end ≡ Ending.BadLog) × (said ≡ line_text (stranger_line place))) }
{
    let mut out = Report::new(alloc);
    let line = out.line(&[
        Piece::Text(b"place"),
        Piece::Number(place),
        Piece::Text(b"not"),
        Piece::Text(b"in"),
        Piece::Text(b"the"),
        Piece::Text(b"script"),
    ]);
    match line {
        Ok(()) => Stop::Says {
            ending: Ending::BadLog,
            text: out.into_bytes(),
        },
        Err(_) => Stop::NoMemory,
    }
}

/// The line of an update that is lost.
fn put_lost<O: Texted>(
    thread: u64,
    number: u64,
    op: O::Op,
    out: &mut Report,
) -> Result<(), NoMemory>
    requires { begins_line out.old ≡ true }
    ensures { OnOk result (out.new ≡ out.old ++ line_text (outcome_line O.wording thread number op Outcome.Lost)) }
{
    out.words(&[
        Piece::Text(b"call"),
        Piece::Number(thread),
        Piece::Number(number),
    ])?;
    O::put_op(op, out)?;
    out.words(&[Piece::Text(b"->"), Piece::Text(b"lost")])?;
    out.end_line()
}

/// The line of an update, which is this call of a thread, and of what became of it.
fn put_outcome<O: Texted>(
    thread: u64,
    number: u64,
    op: O::Op,
    outcome: Outcome<O::Reply>,
    out: &mut Report,
) -> Result<(), NoMemory>
    requires { begins_line out.old ≡ true }
    ensures { OnOk result (out.new ≡ out.old ++ line_text (outcome_line O.wording thread number op outcome)) }
{
    match outcome {
        Outcome::Took { place, reply } => {
            let call = Call::<O>::Update(op);
            out.call_line(thread, number, &call, &CallEnd::Answered { reply, place })
        }
        Outcome::Lost => put_lost::<O>(thread, number, op, out),
    }
}

/// The line of a call of a thread, where it is an update; and how many updates there are with it, where there were so
/// many among so many calls.
fn put_call<O: Texted + Drop>(
    thread: u64,
    calls: u64,
    updates: u64,
    call: &Call<O>,
    outcomes: &Outcomes<O>,
    out: &mut Report,
) -> Result<u64, NoMemory>
    requires begins { begins_line out.old ≡ true }
    requires calls { calls + 1 < 2 ^ 64 }
    requires updates { updates ≤ calls }
    ensures lines { IfOk result (λ count. out.new
        ≡ with_lines out.old (update_lines O.wording outcomes.now thread calls updates (call.now ∷ []))) }
    ensures begins { IfOk result (λ count. begins_line out.new ≡ true) }
    ensures count { IfOk result (λ count. count ≡ updates + updates_in (call.now ∷ [])) }
{
    match call {
        Call::Update(op) => {
            let outcome = outcomes.find(thread, updates + 1);
            put_outcome::<O>(thread, calls + 1, *op, outcome, out)?;
            Ok(updates + 1)
        }
        Call::Ask(_) => Ok(updates),
    }
}

/// The lines of a thread's updates.
fn put_updates<O: Texted + Drop>(
    thread: u64,
    script: &[Call<O>],
    outcomes: &Outcomes<O>,
    out: &mut Report,
) -> Result<(), NoMemory>
    requires { begins_line out.old ≡ true }
    ensures lines { OnOk result (out.new ≡ with_lines out.old (update_lines O.wording outcomes.now thread 0 0 script.now)) }
    ensures begins { OnOk result (begins_line out.new ≡ true) }
{
    let mut updates = 0;
    for (calls, call) in script.iter().enumerate() {
        updates = put_call(thread, calls as u64, updates, call, outcomes, out)?;
    }
    Ok(())
}

/// The lines of all threads' updates.
fn put_scripts<O: Texted + Drop>(
    scripts: &[Vec<Call<O>>],
    outcomes: &Outcomes<O>,
    out: &mut Report,
) -> Result<(), NoMemory>
    requires { begins_line out.old ≡ true }
    ensures lines { let calls = map (λ script. script.items) scripts.now in
        OnOk result (out.new ≡ with_lines out.old (scripts_lines O.wording outcomes.now 0 calls)) }
    ensures begins { OnOk result (begins_line out.new ≡ true) }
{
    for (thread, script) in scripts.iter().enumerate() {
        put_updates(thread as u64, script, outcomes, out)?;
    }
    Ok(())
}

/// The report of the outcomes of these scripts' updates, and of how many nodes were recovered.
fn report<O: Texted + Drop>(
    alloc: Global,
    scripts: &[Vec<Call<O>>],
    outcomes: &Outcomes<O>,
    nodes: u64,
) -> Result<Vec<u8>, NoMemory>
    ensures { let lines = detect_lines O.wording outcomes.now (map (λ script. script.items) scripts.now) nodes in
        IfOk result (λ bytes. bytes.items ≡ flat_map line_text lines) }
{
    let mut out = Report::new(alloc);
    put_scripts(scripts, outcomes, &mut out)?;
    put_count(nodes, &mut out)?;
    Ok(out.into_bytes())
}

/// What became of the updates of these scripts, each of whose numbers has one node at most, over the initial object.
fn tell<O: Texted + Drop>(
    alloc: Global,
    object: O,
    scripts: &[Vec<Call<O>>],
    nodes: &[Node],
) -> Result<Vec<u8>, Stop>
    requires numbered { IsNumbered nodes.now }
    requires threads { AllByRecursion (λ node. node.thread < most_threads) nodes.now }
    requires rows { operations_front O.means nodes.now ≡ nodes.now }
    ensures { let calls = map (λ script. script.items) scripts.now in
        let task = lines_task (detect_lines O.wording (table_of O.means object nodes.now) calls (length nodes.now)) in
        (store : StoreView) → Fulfils [] store store task result }
{
    match Outcomes::of(alloc, object, nodes) {
        Ok(outcomes) => Ok(report(alloc, scripts, &outcomes, nodes.len() as u64)?),
        Err(DetectFault::NotOp { .. }) => unreachable!(),
        Err(DetectFault::NoMemory) => Err(Stop::NoMemory),
    }
}

/// What is said of recovered nodes, over the initial object.
fn detect_nodes<O: Texted + Drop>(
    alloc: Global,
    object: O,
    scripts: &[Vec<Call<O>>],
    nodes: &[Node],
) -> Result<Vec<u8>, Stop>
    requires few { length scripts.now ≤ most_threads }
    requires numbered { IsNumbered nodes.now }
    requires rows { operations_front O.means nodes.now ≡ nodes.now }
    ensures { let calls = map (λ script. script.items) scripts.now in
        let task = nodes_task O.means O.wording object calls nodes.now (stranger_to O.means calls nodes.now) in
        (store : StoreView) → Fulfils [] store store task result }
{
    match stranger_to(alloc, scripts, nodes)? {
        Some(place) => Err(not_in_script(alloc, place)),
        None => tell(alloc, object, scripts, nodes),
    }
}

/// Says what the logs of these scripts' threads give of the updates.
fn detect_scripts<O: Texted + Drop, S: Store>(
    alloc: Global,
    object: O,
    init: &[u8],
    logs: &str,
    scripts: &[Vec<Call<O>>],
    store: &mut S,
) -> Result<Vec<u8>, Stop>
    requires { length scripts.now ≤ most_threads }
    ensures { let calls = map (λ script. script.items) scripts.now in
        let task = detect_logs_task (kind_by O.means O.wording O.CODE) init.now object logs.now calls in
        Fulfils [] (S.seen store.old) (S.seen store.new) task result }
{
    let mut recovered = object.copy(alloc)?;
    match recover_files(
        alloc,
        &mut recovered,
        init,
        logs,
        scripts.len() as u64,
        store,
    ) {
        Ok(recovery) => detect_nodes(alloc, object, scripts, &recovery.nodes),
        Err(stop) => Err(stop),
    }
}

/// Says of each update of these scripts whether it took effect, by the logs of a run of theirs on an object, whose initial state these
/// bytes say.
pub fn detect_on<O: Texted + Drop, S: Store>(
    alloc: Global,
    object: O,
    init: &[u8],
    logs: &str,
    scripts: &[String],
    store: &mut S,
) -> Result<Vec<u8>, Stop>
    requires { length scripts.now ≤ most_threads }
    ensures { let names = map string_bytes scripts.now in
        let task = detect_task (kind_by O.means O.wording O.CODE) init.now logs.now names object in
        Fulfils [] (S.seen store.old) (S.seen store.new) task result }
{
    match script_files::<O, S>(alloc, scripts, store) {
        Ok(calls) => detect_scripts(alloc, object, init, logs, &calls, store),
        Err(stop) => Err(stop),
    }
}
