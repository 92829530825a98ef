//! The texts of a map, which is its own initial state in the making.

ghost use Rattle.std.specs.Prelude.{◌≡◌, ◌++◌, true, OnOk, OnErr, MatchResult, Ok, Err, ◌≤◌};
ghost use Rattle.onll_model.specs.Limits.{most_elements};
ghost use Rattle.onll_text.specs.Refusal.{Fails};
ghost use Rattle.onll_text.specs.Init.{object_of};
ghost use Rattle.onll_text.specs.declared.any_object.Kind.TheVariants as kinds;
ghost use Rattle.onll_words.specs.Texts.{words_of, line_text};
ghost use Rattle.onll_text.specs.Bytes.{begins_line, with_lines, IsFront};
ghost use Rattle.onll_text.specs.MapText.{put_of, del_of, get_of, next_of, count_of, pair_line, pair_lines, with_pair, with_pair_line};
ghost use Rattle.onll_text.specs.CallKind.{calls_of};
ghost use Rattle.onll_text.specs.ReadBack.{ReadsBack};
ghost use Rattle.onll_text.specs.declared.any_object.AnyObject.TheVariants as objects;

use crate::any_object::AnyObject;
use crate::init::{Initial, add_lines};
use crate::reason::{Reason, TextFault};
use crate::report::{Piece, Report};
use crate::texted::Texted;
use crate::words::{is_text, no_word, number_reads_back, one_short, short_reads_back, two_shorts};
use onll_map::{Map, MapOp, MapQuery, MapReply};
use onll_model::{Call, Object};
use onll_words::{Cut, Lines, NoMemory, Short, split_word};
use std::alloc::Global;

fn read_put(args: &[u8]) -> Result<Call<Map>, Reason>
    ensures { result ≡ put_of (words_of args.now) }
{
    let (k, v) = two_shorts(args)?;
    Ok(Call::Update(MapOp::Put { k, v }))
}

fn read_del(args: &[u8]) -> Result<Call<Map>, Reason>
    ensures { result ≡ del_of (words_of args.now) }
{
    let k = one_short(args)?;
    Ok(Call::Update(MapOp::Del { k }))
}

fn read_get(args: &[u8]) -> Result<Call<Map>, Reason>
    ensures { result ≡ get_of (words_of args.now) }
{
    let k = one_short(args)?;
    Ok(Call::Ask(MapQuery::Get { k }))
}

fn read_next(args: &[u8]) -> Result<Call<Map>, Reason>
    ensures { result ≡ next_of (words_of args.now) }
{
    let k = one_short(args)?;
    Ok(Call::Ask(MapQuery::Next { k }))
}

fn read_count(args: &[u8]) -> Result<Call<Map>, Reason>
    ensures { result ≡ count_of (words_of args.now) }
{
    no_word(args)?;
    Ok(Call::Ask(MapQuery::Count))
}

/// The line of one pair.
fn put_pair(pair: (Short, Short), out: &mut Report) -> Result<(), NoMemory>
    requires { begins_line out.old ≡ true }
    ensures line { OnOk result (out.new ≡ out.old ++ line_text (pair_line pair)) }
    ensures begins { OnOk result (begins_line out.new ≡ true) }
    ensures keeps { IsFront out.old out.new }
    ensures within { IsFront out.new (out.old ++ line_text (pair_line pair)) }
{
    let (key, value) = pair;
    out.words(&[Piece::Text(b"pair"), Piece::Short(key), Piece::Short(value)])?;
    out.end_line()
}

/// The line of each pair.
#[tactic(auto, using(crate::proofs::MapReadBack::pair_lines_more))]
fn put_pairs(map: &Map, out: &mut Report) -> Result<(), NoMemory>
    requires { begins_line out.old ≡ true }
    ensures ok { OnOk result (out.new ≡ with_lines out.old (pair_lines map.now.pairs)) }
    ensures keeps { IsFront out.old out.new }
    ensures within { IsFront out.new (with_lines out.old (pair_lines map.now.pairs)) }
{
    for i in 0..map.count() {
        put_pair(map.pair(i), out)?;
    }
    Ok(())
}

/// A law: what is printed of a map's state reads as that map. It does nothing when called.
fn map_reads_back(map: &Map)
    ensures { ReadsBack (calls_of kinds.Map).wording objects.Map map.now }
{
    map.consistent();
}

impl Texted for Map {
    ghost wording = { (calls_of kinds.Map).wording };

    ghost object = { objects.Map };

    fn read_call(line: &[u8]) -> Result<Call<Map>, Reason> {
        let Some(Cut { word, rest }) = split_word(line) else {
            return Err(Reason::UnknownWord);
        };
        if is_text(word, b"put") {
            read_put(rest)
        } else if is_text(word, b"del") {
            read_del(rest)
        } else if is_text(word, b"get") {
            read_get(rest)
        } else if is_text(word, b"next") {
            read_next(rest)
        } else if is_text(word, b"count") {
            read_count(rest)
        } else {
            Err(Reason::UnknownWord)
        }
    }

    fn put_op(op: MapOp, out: &mut Report) -> Result<(), NoMemory> {
        match op {
            MapOp::Put { k, v } => out.words(&[
                Piece::Text(b"put"),
                Piece::Short(k),
                Piece::Short(v),
            ]),
            MapOp::Del { k } => out.words(&[Piece::Text(b"del"), Piece::Short(k)]),
        }
    }

    fn put_query(query: MapQuery, out: &mut Report) -> Result<(), NoMemory> {
        match query {
            MapQuery::Get { k } => out.words(&[Piece::Text(b"get"), Piece::Short(k)]),
            MapQuery::Next { k } => out.words(&[Piece::Text(b"next"), Piece::Short(k)]),
            MapQuery::Count => out.words(&[Piece::Text(b"count")]),
        }
    }

    fn put_reply(reply: MapReply, out: &mut Report) -> Result<(), NoMemory> {
        match reply {
            MapReply::New => out.word(b"new"),
            MapReply::Old(v) => out.words(&[Piece::Text(b"old"), Piece::Short(v)]),
            MapReply::Full => out.word(b"full"),
            MapReply::Absent => out.word(b"none"),
            MapReply::Value(v) => out.words(&[Piece::Text(b"value"), Piece::Short(v)]),
            MapReply::Key(k) => out.words(&[Piece::Text(b"key"), Piece::Short(k)]),
            MapReply::Count(n) => out.words(&[Piece::Text(b"count"), Piece::Number(n)]),
        }
    }

    fn put_state(&self, out: &mut Report) -> Result<(), NoMemory> {
        out.words(&[Piece::Text(b"map"), Piece::Number(self.capacity())])?;
        out.end_line()?;
        put_pairs(self, out)
    }

    fn op_reads_back(op: MapOp) {
        match op {
            MapOp::Put { k, v } => {
                short_reads_back(k);
                short_reads_back(v);
            }
            MapOp::Del { k } => short_reads_back(k),
        }
    }

    fn query_reads_back(query: MapQuery) {
        match query {
            MapQuery::Get { k } => short_reads_back(k),
            MapQuery::Next { k } => short_reads_back(k),
            MapQuery::Count => {}
        }
    }

    fn reply_reads_back(reply: MapReply) {
        match reply {
            MapReply::New => {}
            MapReply::Old(v) => short_reads_back(v),
            MapReply::Full => {}
            MapReply::Absent => {}
            MapReply::Value(v) => short_reads_back(v),
            MapReply::Key(k) => short_reads_back(k),
            MapReply::Count(n) => number_reads_back(n),
        }
    }

    fn state_reads_back(&self) {
        map_reads_back(self);
    }
}

/// Puts a pair of an initial map in.
fn add_pair(map: &mut Map, k: Short, v: Short) -> Result<(), Reason>
    ensures added { MatchResult result (λ _. with_pair map.old (k, v) ≡ Ok map.new) (λ e. with_pair map.old (k, v) ≡ Err e) }
    ensures refused { OnErr result (map.new ≡ map.old) }
{
    match map.ask(MapQuery::Get { k }) {
        MapReply::Absent => {}
        _ => return Err(Reason::Repeated),
    }
    match map.apply(MapOp::Put { k, v }) {
        MapReply::Full => Err(Reason::TooMany),
        _ => Ok(()),
    }
}

impl Initial for Map {
    ghost with_line = { with_pair_line };

    fn add_line(&mut self, line: &[u8]) -> Result<(), Reason> {
        let Some(Cut { word, rest }) = split_word(line) else {
            return Err(Reason::UnknownWord);
        };
        if !is_text(word, b"pair") {
            return Err(Reason::UnknownWord);
        }
        let (k, v) = two_shorts(rest)?;
        add_pair(self, k, v)
    }
}

/// The map of at most so many pairs, with the lines that are left.
pub(crate) fn read_map(
    alloc: Global,
    capacity: u64,
    lines: &mut Lines<'_>,
) -> Result<AnyObject, TextFault>
    requires { (1 ≤ capacity) × (capacity ≤ most_elements) }
    ensures { MatchResult result (λ object. object_of kinds.Map capacity lines.old ≡ Ok object)
        (λ fault. Fails fault (object_of kinds.Map capacity lines.old)) }
{
    let mut map = Map::make(alloc, capacity)?;
    add_lines(&mut map, lines)?;
    Ok(AnyObject::Map(map))
}
