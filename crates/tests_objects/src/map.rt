//! Tests of a map.

use crate::rows::{expect_answers, expect_no_operation, expect_one_to_one, expect_replies};
use onll_map::{Map, MapOp, MapQuery, MapReply};
use onll_model::{Object, capacity_kept, undone};
use onll_words::Short;
use std::test::Fail;
use tests_found::Found;

fn short(text: &[u8]) -> Result<Short, Fail> {
    Ok(Short::read(text).ok_or("no short text")?)
}

#[test]
fn replies_in_order(rt: HostRuntime) -> Result<(), Fail> {
    let [a, b, c, x, y, z] = [
        short(b"a")?,
        short(b"b")?,
        short(b"c")?,
        short(b"x")?,
        short(b"y")?,
        short(b"z")?,
    ];
    let mut map = Map::make(rt.alloc(), 2)?;
    let table = [
        (MapOp::Del { k: a }, MapReply::Absent),
        (MapOp::Put { k: b, v: y }, MapReply::New),
        (MapOp::Put { k: a, v: x }, MapReply::New),
        (MapOp::Put { k: c, v: z }, MapReply::Full),
        (MapOp::Put { k: a, v: z }, MapReply::Old(x)),
        (MapOp::Del { k: c }, MapReply::Absent),
        (MapOp::Del { k: b }, MapReply::Old(y)),
        (MapOp::Put { k: c, v: x }, MapReply::New),
        (MapOp::Put { k: b, v: y }, MapReply::Full),
        (MapOp::Put { k: c, v: y }, MapReply::Old(x)),
    ];
    expect_replies(&mut map, &table)?;
    let answers = [
        (MapQuery::Get { k: a }, MapReply::Value(z)),
        (MapQuery::Get { k: b }, MapReply::Absent),
        (MapQuery::Get { k: c }, MapReply::Value(y)),
        (MapQuery::Count, MapReply::Count(2)),
    ];
    expect_answers(&map, &answers)?;
    let mut found = Found::new();
    found.must(map.capacity() == 2, "the capacity");
    found.ended()
}

/// A pair is put in whose key is new.
fn put_new(map: &mut Map, key: &[u8], value: &[u8]) -> Result<(), Fail> {
    let op = MapOp::Put {
        k: short(key)?,
        v: short(value)?,
    };
    expect_replies(map, &[(op, MapReply::New)])
}

/// The least key that isn't below this one is the one that is wanted.
fn expect_next(map: &Map, from: &[u8], next: &[u8]) -> Result<(), Fail> {
    let query = MapQuery::Next { k: short(from)? };
    expect_answers(map, &[(query, MapReply::Key(short(next)?))])
}

/// No key is as great as this one.
fn expect_past(map: &Map, from: &[u8]) -> Result<(), Fail> {
    let query = MapQuery::Next { k: short(from)? };
    expect_answers(map, &[(query, MapReply::Absent)])
}

/// Keys, and the next key from each on.
const NEXT_KEYS: &[(&[u8], &[u8])] = &[
    (b"!", b"abc"),
    (b"abc", b"abc"),
    (b"abca", b"b"),
    (b"b", b"b"),
    (b"c", b"d"),
    (b"d!", b"dd"),
    (b"e", b"f"),
    (b"f", b"f"),
];

fn expect_next_keys(map: &mut Map) -> Result<(), Fail> {
    expect_past(map, b"v")?;
    for key in [b"d".as_slice(), b"b", b"abc", b"f", b"dd"] {
        put_new(map, key, b"v")?;
    }
    for (from, next) in NEXT_KEYS {
        expect_next(map, from, next)?;
    }
    expect_past(map, b"f!")
}

#[test]
fn next_keys(rt: HostRuntime) -> Result<(), Fail> {
    let mut map = Map::make(rt.alloc(), 9)?;
    expect_next_keys(&mut map)
}

/// The pair at a place has this key and this value.
fn expect_pair(map: &Map, i: u64, key: &[u8], value: &[u8]) -> Result<(), Fail> {
    let pair = (short(key)?, short(value)?);
    if i < map.count() && map.pair(i) == pair {
        Ok(())
    } else {
        Err(Fail::new(format_args!("another pair at {i}")))
    }
}

fn expect_pairs(map: &mut Map) -> Result<(), Fail> {
    put_new(map, b"b", b"1")?;
    put_new(map, b"aa", b"2")?;
    put_new(map, b"a", b"3")?;
    expect_pair(map, 0, b"a", b"3")?;
    expect_pair(map, 1, b"aa", b"2")?;
    expect_pair(map, 2, b"b", b"1")?;
    let mut found = Found::new();
    found.must(map.count() == 3, "the count");
    found.ended()
}

#[test]
fn pairs_in_the_order_of_bytes(rt: HostRuntime) -> Result<(), Fail> {
    let mut map = Map::make(rt.alloc(), 4)?;
    expect_pairs(&mut map)
}

#[test]
fn rows_and_operations_are_one_to_one() -> Result<(), Fail> {
    let put = MapOp::Put {
        k: short(b"ab")?,
        v: short(b"!2345678901234567890123")?,
    };
    let put_row = [
        1,
        0x6162_0000_0000_0000,
        0,
        2,
        0x2132_3334_3536_3738,
        0x3930_3132_3334_3536,
        0x3738_3930_3132_3317,
    ];
    let del = MapOp::Del { k: short(b"ab")? };
    let del_row = [2, 0x6162_0000_0000_0000, 0, 2, 0, 0, 0];
    expect_one_to_one::<Map>(&[(put, put_row), (del, del_row)])
}

#[test]
fn rows_of_no_operation() -> Result<(), Fail> {
    let a = 0x61 << 56;
    expect_no_operation::<Map>(&[
        [0, a, 0, 1, a, 0, 1],
        [3, a, 0, 1, a, 0, 1],
        [1, a, 0, 1, 0, 0, 0],
        [1, 0, 0, 0, a, 0, 1],
        [1, a, 0, 1, a, 0, 2],
        [1, a, 0, 1, a, 1, 1],
        [1, 0x20 << 56, 0, 1, a, 0, 1],
        [1, a, 0, 24, a, 0, 1],
        [2, a, 0, 1, a, 0, 1],
        [2, a, 0, 1, 0, 0, 1],
        [2, a, 0, 1, 0, 1, 0],
        [2, a, 0, 0, 0, 0, 0],
        [2, 0, 0, 0, 0, 0, 0],
    ])
}

#[test]
fn a_copy_restores(rt: HostRuntime) -> Result<(), Fail> {
    let alloc = rt.alloc();
    let [a, b, c, x, y] = [
        short(b"a")?,
        short(b"b")?,
        short(b"c")?,
        short(b"x")?,
        short(b"y")?,
    ];
    let mut found = Found::new();
    let mut map = Map::make(alloc, 2)?;
    let _ = map.apply(MapOp::Put { k: b, v: x });
    let mut copy = map.copy(alloc)?;
    found.must(copy.capacity() == 2, "the capacity of the copy");
    found.must(
        copy.ask(MapQuery::Get { k: b }) == MapReply::Value(x),
        "the pair in the copy",
    );
    found.must(
        copy.apply(MapOp::Put { k: a, v: x }) == MapReply::New,
        "a pair more in the copy",
    );
    found.must(
        copy.apply(MapOp::Put { k: c, v: x }) == MapReply::Full,
        "the copy is full",
    );
    let _ = map.apply(MapOp::Put { k: b, v: y });
    map.restore(&copy);
    let restored = [
        (MapQuery::Count, MapReply::Count(2)),
        (MapQuery::Get { k: b }, MapReply::Value(x)),
    ];
    expect_answers(&map, &restored)?;
    undone(alloc, &mut map, MapOp::Del { k: a })?;
    found.must(
        map.ask(MapQuery::Get { k: a }) == MapReply::Value(x),
        "the pair after what was undone",
    );
    found.must(
        capacity_kept(&mut map, MapOp::Del { k: a }),
        "the capacity is kept",
    );
    found.must(
        map.apply(MapOp::Del { k: b }) == MapReply::Old(x),
        "the pair goes",
    );
    found.must(
        map.ask(MapQuery::Next { k: a }) == MapReply::Absent,
        "no pair is left",
    );
    found.ended()
}
