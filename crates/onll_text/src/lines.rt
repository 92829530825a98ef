//! The lines of a report: calls, traces, nodes, logs and states. What they say of values that a program has reads back.

ghost use Rattle.std.specs.Prelude.{◌≡◌, ◌<◌, ◌^◌, ◌++◌, true, IsSome, OnOk};
ghost use Rattle.onll_words.specs.Texts.{line_text};
ghost use Rattle.onll_text.specs.Bytes.{begins_line, with_words, with_lines, IsFront};
ghost use Rattle.onll_text.specs.Lines.{call_words, at_words, end_words, call_line, trace_line, node_line, flag_words, fence_words, log_line, state_lines};
ghost use Rattle.onll_text.specs.Reports.{EndReads, NodeReads, StateReads};

use crate::report::{Piece, Report};
use crate::report_laws::{end_reads_back, node_reads_back};
use crate::texted::Texted;
use onll_model::{Call, CallEnd, Node};
use onll_words::NoMemory;

fn put_call<O: Texted>(call: &Call<O>, out: &mut Report) -> Result<(), NoMemory>
    ensures ok { OnOk result (out.new ≡ with_words out.old (call_words O.wording call.now)) }
    ensures keeps { IsFront out.old out.new }
    ensures within { IsFront out.new (with_words out.old (call_words O.wording call.now)) }
{
    match call {
        Call::Update(op) => O::put_op(*op, out),
        Call::Ask(query) => O::put_query(*query, out),
    }
}

#[tactic(auto, using(crate::proofs::Keeping::keeping))]
fn put_place(place: u64, out: &mut Report) -> Result<(), NoMemory>
    ensures ok { OnOk result (out.new ≡ with_words out.old (at_words place)) }
    ensures keeps { IsFront out.old out.new }
    ensures within { IsFront out.new (with_words out.old (at_words place)) }
{
    out.word(b"at")?;
    out.number(place)
}

#[tactic(auto, using(crate::proofs::LineWords::appending))]
fn put_end<O: Texted>(end: &CallEnd<O>, out: &mut Report) -> Result<(), NoMemory>
    ensures ok { OnOk result (out.new ≡ with_words out.old (end_words O.wording end.now)) }
    ensures keeps { IsFront out.old out.new }
    ensures within { IsFront out.new (with_words out.old (end_words O.wording end.now)) }
{
    match end {
        CallEnd::Answered { reply, place } => {
            O::put_reply(*reply, out)?;
            put_place(*place, out)
        }
        CallEnd::Running => out.word(b"running"),
        CallEnd::Ordered { place } => {
            out.word(b"ordered")?;
            put_place(*place, out)
        }
        CallEnd::FenceFailed { place } => {
            out.words(&[Piece::Text(b"fence"), Piece::Text(b"failed")])?;
            put_place(*place, out)
        }
        CallEnd::Broken { place } => {
            out.word(b"broken")?;
            put_place(*place, out)
        }
    }
}

fn put_flag(flag: Option<bool>, out: &mut Report) -> Result<(), NoMemory>
    ensures ok { OnOk result (out.new ≡ with_words out.old (flag_words flag)) }
    ensures keeps { IsFront out.old out.new }
    ensures within { IsFront out.new (with_words out.old (flag_words flag)) }
{
    match flag {
        Some(true) => out.word(b"set"),
        Some(false) => out.word(b"unset"),
        None => Ok(()),
    }
}

fn put_fences(fences: Option<u64>, out: &mut Report) -> Result<(), NoMemory>
    ensures ok { OnOk result (out.new ≡ with_words out.old (fence_words fences)) }
    ensures keeps { IsFront out.old out.new }
    ensures within { IsFront out.new (with_words out.old (fence_words fences)) }
{
    match fences {
        Some(fences) => out.words(&[Piece::Text(b"fences"), Piece::Number(fences)]),
        None => Ok(()),
    }
}

impl Report {
    /// The line of a call and what became of it: call number `number` of the thread, from 1.
    pub fn call_line<O: Texted>(
        &mut self,
        thread: u64,
        number: u64,
        call: &Call<O>,
        end: &CallEnd<O>,
    ) -> Result<(), NoMemory>
        requires { begins_line self.old ≡ true }
        ensures ok { OnOk result (self.new ≡ self.old ++ line_text (call_line O.wording thread number call.now end.now)) }
        ensures keeps { IsFront self.old self.new }
        ensures within { IsFront self.new (self.old ++ line_text (call_line O.wording thread number call.now end.now)) }
        ensures reads { OnOk result (EndReads O.wording end.now) }
    {
        end_reads_back(end);
        self.words(&[
            Piece::Text(b"call"),
            Piece::Number(thread),
            Piece::Number(number),
        ])?;
        put_call(call, self)?;
        self.word(b"->")?;
        put_end(end, self)?;
        self.end_line()
    }

    /// The line that counts the nodes of a trace.
    pub fn trace_line(&mut self, count: u64) -> Result<(), NoMemory>
        requires { begins_line self.old ≡ true }
        ensures ok { OnOk result (self.new ≡ self.old ++ line_text (trace_line count)) }
        ensures keeps { IsFront self.old self.new }
        ensures within { IsFront self.new (self.old ++ line_text (trace_line count)) }
    {
        self.words(&[Piece::Text(b"trace"), Piece::Number(count)])?;
        self.end_line()
    }

    /// The line of the node at a place, with its flag where there is one.
    pub fn node_line<O: Texted>(
        &mut self,
        place: u64,
        node: Node,
        flag: Option<bool>,
    ) -> Result<(), NoMemory>
        requires begins { begins_line self.old ≡ true }
        requires operation { IsSome (O.means.op_at node.row) }
        ensures ok { OnOk result (self.new ≡ self.old ++ line_text (node_line O.means O.wording place node flag)) }
        ensures keeps { IsFront self.old self.new }
        ensures within { IsFront self.new (self.old ++ line_text (node_line O.means O.wording place node flag)) }
        ensures reads { OnOk result (NodeReads O.means O.wording node) }
    {
        node_reads_back::<O>(node);
        self.words(&[
            Piece::Text(b"node"),
            Piece::Number(place),
            Piece::Number(node.thread),
            Piece::Number(node.number),
        ])?;
        put_flag(flag, self)?;
        match O::op_of_row(node.row) {
            Some(op) => O::put_op(op, self)?,
            None => unreachable!(),
        }
        self.end_line()
    }

    /// The line of a thread's log: its accepted entries, its used lines, and its fences where they are counted.
    pub fn log_line(
        &mut self,
        thread: u64,
        entries: u64,
        lines: u64,
        fences: Option<u64>,
    ) -> Result<(), NoMemory>
        requires { begins_line self.old ≡ true }
        ensures ok { OnOk result (self.new ≡ self.old ++ line_text (log_line thread entries lines fences)) }
        ensures keeps { IsFront self.old self.new }
        ensures within { IsFront self.new (self.old ++ line_text (log_line thread entries lines fences)) }
        ensures reads { OnOk result ((entries < 2 ^ 64) × (lines < 2 ^ 64)) }
    {
        self.words(&[
            Piece::Text(b"log"),
            Piece::Number(thread),
            Piece::Text(b"entries"),
            Piece::Number(entries),
            Piece::Text(b"lines"),
            Piece::Number(lines),
        ])?;
        put_fences(fences, self)?;
        self.end_line()
    }

    /// The line `state`, and the lines of the state.
    pub fn state_lines<O: Texted>(&mut self, object: &O) -> Result<(), NoMemory>
        requires { begins_line self.old ≡ true }
        ensures ok { OnOk result (self.new ≡ with_lines self.old (state_lines O.wording object.now)) }
        ensures keeps { IsFront self.old self.new }
        ensures within { IsFront self.new (with_lines self.old (state_lines O.wording object.now)) }
        ensures reads { OnOk result (StateReads O.wording object.now) }
    {
        object.state_reads_back();
        self.word(b"state")?;
        self.end_line()?;
        object.put_state(self)
    }
}
