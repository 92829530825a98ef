//! The map.

ghost use Rattle.std.specs.Prelude.{◌≡◌, ◌≢◌, ◌<◌, ◌≤◌, [], length, IfOk, IfErr, MatchOption, Some, slice_get};
ghost use Rattle.onll_model.specs.Limits.{most_elements};
ghost use Rattle.std.proofs.Common.{rules};
ghost use Rattle.onll_map.specs.Map.{IsMap, Sets, IsLeastFrom, NoneFrom, value_at, key_from, map_next, map_reply};
ghost use Rattle.onll_map.specs.Object.{map_object};
ghost use Rattle.onll_map.specs.Places.{IsPlace, IsGap};

use crate::operation::{MapOp, MapQuery, MapReply};
use onll_model::Object;
use onll_words::{NoMemory, OpRow, Short};
use std::alloc::Global;
use std::marker::Model;

/// A map from short texts to short texts with room for 1 to 4,096 pairs, seen as its pairs in the order of the keys and
/// its room.
#[derive(Drop)]
pub struct Map {
    pairs: Vec<(Short, Short)>,
    room: u64,
}

impl Model for Map {
    ghost use Rattle.std.specs.Prelude.{◌≡◌, ◌≤◌};
    ghost use Rattle.std.specs.Vec.{vec_capacity};
    ghost use Rattle.onll_map.specs.Map.{Entries, IsMap};

    ghost Value = { Entries };

    ghost view = { λ s. record { pairs = s.pairs.items; room = s.room } };

    ghost invariant = { λ s. IsMap (record { pairs = s.pairs.items; room = s.room }) × (s.room ≤ vec_capacity s.pairs) };
}

impl Map {
    /// An empty map with room for this many pairs.
    pub fn make(alloc: Global, capacity: u64) -> Result<Map, NoMemory>
        requires { (1 ≤ capacity) × (capacity ≤ most_elements) }
        ensures { IfOk result (λ made. made ≡ record { pairs = []; room = capacity }) }
    {
        Ok(Map {
            pairs: Vec::with_capacity(alloc, capacity as usize)?,
            room: capacity,
        })
    }

    /// What every map keeps. It does nothing when called.
    pub fn consistent(&self)
        ensures { IsMap self.now }
    {
        let _ = &self.pairs;
    }

    /// How many pairs there are, at most 4,096.
    pub fn count(&self) -> u64
        ensures { result ≡ length self.now.pairs }
    {
        self.pairs.len() as u64
    }

    /// A key and its value by their place in the order of the keys, from 0.
    pub fn pair(&self, i: u64) -> (Short, Short)
        requires { i < length self.now.pairs }
        ensures { slice_get self.now.pairs i ≡ Some result }
    {
        self.pairs[i as usize]
    }

    /// Where the key is, or where it would go.
    fn place(&self, key: Short) -> Result<usize, usize>
        ensures found { IfOk result (IsPlace self.now.pairs key) }
        ensures absent { IfErr result (IsGap self.now.pairs key) }
    {
        self.pairs.binary_search_by_key(&key, |pair| pair.0)
    }

    fn value(&self, key: Short) -> Option<Short>
        ensures { result ≡ value_at self.now.pairs key }
    {
        match self.place(key) {
            Ok(at) => Some(self.pairs[at].1),
            Err(_) => None,
        }
    }

    /// The least key that is not below this one.
    fn key_from(&self, key: Short) -> Option<Short>
        ensures key { result ≡ key_from self.now.pairs key }
        ensures least { MatchOption result (NoneFrom self.now.pairs key) (IsLeastFrom self.now.pairs key) }
    {
        match self.place(key) {
            Ok(at) => Some(self.pairs[at].0),
            Err(at) if at < self.pairs.len() => Some(self.pairs[at].0),
            Err(_) => None,
        }
    }

    fn put(&mut self, k: Short, v: Short) -> MapReply
        ensures next { self.new ≡ map_next self.old (MapOp.Put k v) }
        ensures reply { result ≡ map_reply self.old (MapOp.Put k v) }
        ensures sets { result ≢ MapReply.Full → Sets self.old.pairs self.new.pairs k (Some v) }
        ensures full { result ≡ MapReply.Full → self.new ≡ self.old }
    {
        match self.place(k) {
            Ok(at) => {
                let old = self.pairs[at].1;
                self.pairs[at].1 = v;
                MapReply::Old(old)
            }
            Err(at) => {
                if self.pairs.len() as u64 == self.room {
                    return MapReply::Full;
                }
                match self.pairs.insert(at, (k, v)) {
                    Ok(()) => MapReply::New,
                    Err(_) => unreachable!(),
                }
            }
        }
    }

    fn del(&mut self, k: Short) -> MapReply
        ensures next { self.new ≡ map_next self.old (MapOp.Del k) }
        ensures reply { result ≡ map_reply self.old (MapOp.Del k) }
        ensures sets { Sets self.old.pairs self.new.pairs k None }
    {
        match self.place(k) {
            Ok(at) => MapReply::Old(self.pairs.remove(at).1),
            Err(_) => MapReply::Absent,
        }
    }
}

impl Object for Map {
    type Op = MapOp;

    type Query = MapQuery;

    type Reply = MapReply;

    const CODE: u64 = 2;

    ghost CODE = { 2 };

    ghost means = { map_object };

    fn apply(&mut self, op: MapOp) -> MapReply {
        match op {
            MapOp::Put { k, v } => self.put(k, v),
            MapOp::Del { k } => self.del(k),
        }
    }

    fn ask(&self, query: MapQuery) -> MapReply {
        match query {
            MapQuery::Get { k } => match self.value(k) {
                Some(v) => MapReply::Value(v),
                None => MapReply::Absent,
            },
            MapQuery::Next { k } => match self.key_from(k) {
                Some(key) => MapReply::Key(key),
                None => MapReply::Absent,
            },
            MapQuery::Count => MapReply::Count(self.count()),
        }
    }

    fn op_row(op: MapOp) -> OpRow {
        match op {
            MapOp::Put { k, v } => {
                let [a, b, c] = k.words();
                let [d, e, f] = v.words();
                OpRow {
                    w: [1, a, b, c, d, e, f],
                }
            }
            MapOp::Del { k } => {
                let [a, b, c] = k.words();
                OpRow {
                    w: [2, a, b, c, 0, 0, 0],
                }
            }
        }
    }

    fn op_of_row(row: OpRow) -> Option<MapOp> {
        let [code, a, b, c, d, e, f] = row.w;
        match code {
            1 => {
                let k = Short::of_words([a, b, c])?;
                let v = Short::of_words([d, e, f])?;
                Some(MapOp::Put { k, v })
            }
            2 if d == 0 && e == 0 && f == 0 => {
                let k = Short::of_words([a, b, c])?;
                Some(MapOp::Del { k })
            }
            _ => None,
        }
    }

    fn copy(&self, alloc: Global) -> Result<Self, NoMemory> {
        let mut copy = Map::make(alloc, self.room)?;
        copy.restore(self);
        Ok(copy)
    }

    fn restore(&mut self, from: &Self) {
        self.pairs.clear();
        match self.pairs.extend_from_slice(&from.pairs) {
            Ok(()) => {}
            Err(_) => unreachable!(),
        }
    }

    fn capacity(&self) -> u64 {
        self.room
    }

    ghost code_in_range = { Prim.search rules };
}
