//! The texts of a queue, which is its own initial state in the making.

ghost use Rattle.std.specs.Prelude.{◌≡◌, ◌++◌, true, OnOk, OnErr, MatchResult, Ok, Err, ◌≤◌};
ghost use Rattle.onll_model.specs.Limits.{most_elements};
ghost use Rattle.onll_text.specs.Refusal.{Fails};
ghost use Rattle.onll_text.specs.Init.{object_of};
ghost use Rattle.onll_text.specs.declared.any_object.Kind.TheVariants as kinds;
ghost use Rattle.onll_words.specs.Texts.{words_of, line_text};
ghost use Rattle.onll_text.specs.Bytes.{begins_line, with_lines, IsFront};
ghost use Rattle.onll_text.specs.QueueText.{push_of, pop_of, front_of, length_of, item_line, item_lines, with_item, with_item_line};
ghost use Rattle.onll_text.specs.CallKind.{calls_of};
ghost use Rattle.onll_text.specs.ReadBack.{ReadsBack};
ghost use Rattle.onll_text.specs.declared.any_object.AnyObject.TheVariants as objects;

use crate::any_object::AnyObject;
use crate::init::{Initial, add_lines};
use crate::reason::{Reason, TextFault};
use crate::report::{Piece, Report};
use crate::texted::Texted;
use crate::words::{is_text, no_word, number_reads_back, one_number};
use onll_model::{Call, Object};
use onll_queue::{Queue, QueueOp, QueueQuery, QueueReply};
use onll_words::{Cut, Lines, NoMemory, split_word};
use std::alloc::Global;

fn read_push(args: &[u8]) -> Result<Call<Queue>, Reason>
    ensures { result ≡ push_of (words_of args.now) }
{
    let x = one_number(args)?;
    Ok(Call::Update(QueueOp::Push { x }))
}

fn read_pop(args: &[u8]) -> Result<Call<Queue>, Reason>
    ensures { result ≡ pop_of (words_of args.now) }
{
    no_word(args)?;
    Ok(Call::Update(QueueOp::Pop))
}

fn read_front(args: &[u8]) -> Result<Call<Queue>, Reason>
    ensures { result ≡ front_of (words_of args.now) }
{
    no_word(args)?;
    Ok(Call::Ask(QueueQuery::Front))
}

fn read_length(args: &[u8]) -> Result<Call<Queue>, Reason>
    ensures { result ≡ length_of (words_of args.now) }
{
    no_word(args)?;
    Ok(Call::Ask(QueueQuery::Length))
}

/// The line of one item.
fn put_item(x: u64, out: &mut Report) -> Result<(), NoMemory>
    requires { begins_line out.old ≡ true }
    ensures line { OnOk result (out.new ≡ out.old ++ line_text (item_line x)) }
    ensures begins { OnOk result (begins_line out.new ≡ true) }
    ensures keeps { IsFront out.old out.new }
    ensures within { IsFront out.new (out.old ++ line_text (item_line x)) }
{
    out.words(&[Piece::Text(b"item"), Piece::Number(x)])?;
    out.end_line()
}

/// The line of each item, from the front.
#[tactic(auto, using(crate::proofs::QueueReadBack::item_lines_more))]
fn put_items(queue: &Queue, out: &mut Report) -> Result<(), NoMemory>
    requires { begins_line out.old ≡ true }
    ensures ok { OnOk result (out.new ≡ with_lines out.old (item_lines queue.now.items)) }
    ensures keeps { IsFront out.old out.new }
    ensures within { IsFront out.new (with_lines out.old (item_lines queue.now.items)) }
{
    for i in 0..queue.length() {
        put_item(queue.item(i), out)?;
    }
    Ok(())
}

/// A law: what is printed of a queue's state reads as that queue. It does nothing when called.
fn queue_reads_back(queue: &Queue)
    ensures { ReadsBack (calls_of kinds.Queue).wording objects.Queue queue.now }
{
    queue.consistent();
}

impl Texted for Queue {
    ghost wording = { (calls_of kinds.Queue).wording };

    ghost object = { objects.Queue };

    fn read_call(line: &[u8]) -> Result<Call<Queue>, Reason> {
        let Some(Cut { word, rest }) = split_word(line) else {
            return Err(Reason::UnknownWord);
        };
        if is_text(word, b"push") {
            read_push(rest)
        } else if is_text(word, b"pop") {
            read_pop(rest)
        } else if is_text(word, b"front") {
            read_front(rest)
        } else if is_text(word, b"length") {
            read_length(rest)
        } else {
            Err(Reason::UnknownWord)
        }
    }

    fn put_op(op: QueueOp, out: &mut Report) -> Result<(), NoMemory> {
        match op {
            QueueOp::Push { x } => out.words(&[Piece::Text(b"push"), Piece::Number(x)]),
            QueueOp::Pop => out.word(b"pop"),
        }
    }

    fn put_query(query: QueueQuery, out: &mut Report) -> Result<(), NoMemory> {
        match query {
            QueueQuery::Front => out.word(b"front"),
            QueueQuery::Length => out.word(b"length"),
        }
    }

    fn put_reply(reply: QueueReply, out: &mut Report) -> Result<(), NoMemory> {
        match reply {
            QueueReply::Done => out.word(b"ok"),
            QueueReply::Full => out.word(b"full"),
            QueueReply::Empty => out.word(b"empty"),
            QueueReply::Item(x) => out.words(&[Piece::Text(b"item"), Piece::Number(x)]),
            QueueReply::Length(n) => out.words(&[Piece::Text(b"length"), Piece::Number(n)]),
        }
    }

    fn put_state(&self, out: &mut Report) -> Result<(), NoMemory> {
        out.words(&[Piece::Text(b"queue"), Piece::Number(self.capacity())])?;
        out.end_line()?;
        put_items(self, out)
    }

    fn op_reads_back(op: QueueOp) {
        match op {
            QueueOp::Push { x } => number_reads_back(x),
            QueueOp::Pop => {}
        }
    }

    fn query_reads_back(query: QueueQuery) {
        match query {
            QueueQuery::Front => {}
            QueueQuery::Length => {}
        }
    }

    fn reply_reads_back(reply: QueueReply) {
        match reply {
            QueueReply::Done => {}
            QueueReply::Full => {}
            QueueReply::Empty => {}
            QueueReply::Item(x) => number_reads_back(x),
            QueueReply::Length(n) => number_reads_back(n),
        }
    }

    fn state_reads_back(&self) {
        queue_reads_back(self);
    }
}

/// Puts the next item of an initial queue in.
fn add_item(queue: &mut Queue, x: u64) -> Result<(), Reason>
    ensures added { MatchResult result (λ _. with_item queue.old x ≡ Ok queue.new) (λ e. with_item queue.old x ≡ Err e) }
    ensures refused { OnErr result (queue.new ≡ queue.old) }
{
    match queue.apply(QueueOp::Push { x }) {
        QueueReply::Full => Err(Reason::TooMany),
        _ => Ok(()),
    }
}

impl Initial for Queue {
    ghost with_line = { with_item_line };

    fn add_line(&mut self, line: &[u8]) -> Result<(), Reason> {
        let Some(Cut { word, rest }) = split_word(line) else {
            return Err(Reason::UnknownWord);
        };
        if !is_text(word, b"item") {
            return Err(Reason::UnknownWord);
        }
        let x = one_number(rest)?;
        add_item(self, x)
    }
}

/// The queue of at most so many items, with the lines that are left.
pub(crate) fn read_queue(
    alloc: Global,
    capacity: u64,
    lines: &mut Lines<'_>,
) -> Result<AnyObject, TextFault>
    requires { (1 ≤ capacity) × (capacity ≤ most_elements) }
    ensures { MatchResult result (λ object. object_of kinds.Queue capacity lines.old ≡ Ok object)
        (λ fault. Fails fault (object_of kinds.Queue capacity lines.old)) }
{
    let mut queue = Queue::make(alloc, capacity)?;
    add_lines(&mut queue, lines)?;
    Ok(AnyObject::Queue(queue))
}
