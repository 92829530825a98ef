//! The uses that the roots of the crates show, each run as a test.

use onll_areas::{keep_checkpoint, newest, read_area};
use onll_bank::{Bank, BankOp, BankQuery, BankReply};
use onll_checkpoint::{Checkpoint, lines_for, load, save};
use onll_core::Core;
use onll_detect::{Outcome, Outcomes};
use onll_lease::{Lease, LeaseOp, LeaseQuery, LeaseReply};
use onll_log::{LogHead, ThreadLog, decode, entry_head};
use onll_map::{Map, MapOp, MapQuery, MapReply};
use onll_merge::{apply_images, recover_state};
use onll_model::{Call, Node, Object, fold_nodes, node_line};
use onll_outside::{FreeGate, MemSink, MemStore, Sink};
use onll_pmem::{MemPmem, Pmem};
use onll_queue::{Queue, QueueOp, QueueQuery, QueueReply};
use onll_run::{Surroundings, run_scripts};
use onll_shared::Onll;
use onll_standby::Standby;
use onll_words::{Line, Short, line_bytes, line_of_bytes, whole_number};
use std::alloc::{AllocError, Global};
use std::test::Fail;

#[test]
fn words(rt: HostRuntime) -> Result<(), Fail> {
    let line = Line {
        w: [1, 2, 3, 4, 5, 6, 7, 8],
    };
    assert!(rt; line_of_bytes(line_bytes(line)) == line);
    assert!(rt; whole_number(b"42") == Some(42));
    assert!(rt; whole_number(b"4 2") == None);
    Ok(())
}

#[test]
fn model(rt: HostRuntime) -> Result<(), Fail> {
    let alloc = rt.alloc();
    let row = Bank::op_row(BankOp::Deposit { a: 0, x: 5 });
    let node = Node {
        thread: 0,
        number: 1,
        row,
    };
    let mut bank = Bank::make(alloc, 1)?;
    assert!(rt; fold_nodes(&mut bank, &[node]).is_ok());
    assert!(rt; bank.ask(BankQuery::Balance { a: 0 }) == BankReply::Amount(5));
    Ok(())
}

#[test]
fn detect(rt: HostRuntime) -> Result<(), Fail> {
    let alloc = rt.alloc();
    let row = Bank::op_row(BankOp::Deposit { a: 0, x: 5 });
    let node = Node {
        thread: 0,
        number: 1,
        row,
    };
    let Ok(outcomes) = Outcomes::of(alloc, Bank::make(alloc, 1)?, &[node]) else {
        return Err("the row is an operation".into());
    };
    let took = Outcome::Took {
        place: 1,
        reply: BankReply::Done,
    };
    assert!(rt; outcomes.find(0, 1) == took);
    assert!(rt; outcomes.find(0, 2) == Outcome::Lost);
    Ok(())
}

#[test]
fn pmem(rt: HostRuntime) -> Result<(), Fail> {
    let alloc = rt.alloc();
    let line = Line {
        w: [1, 2, 3, 4, 5, 6, 7, 8],
    };
    let mut device = MemPmem::new(alloc, 2, Vec::new(alloc))?;
    device.write(0, line);
    device.write_back(0);
    assert!(rt; device.fence().is_ok());
    let image = device.image(alloc, 0)?;
    assert!(rt; image[0] == line);
    Ok(())
}

#[test]
fn log(rt: HostRuntime) -> Result<(), Fail> {
    let alloc = rt.alloc();
    let row = Bank::op_row(BankOp::Deposit { a: 0, x: 5 });
    let node = Node {
        thread: 0,
        number: 1,
        row,
    };
    let head = LogHead::new(0, 1, Bank::CODE, b"bank 1\n");
    let device = MemPmem::new(alloc, 8, Vec::new(alloc))?;
    let Ok(mut log) = ThreadLog::make(device, head) else {
        return Err("no log".into());
    };
    assert!(rt; log.append(1, &[node]).is_ok());
    let image = log.image(alloc)?;
    let Ok(decoded) = decode(alloc, image.as_slice()) else {
        return Err("no log".into());
    };
    assert!(rt; decoded.head == Some(head));
    assert!(rt; decoded.entries.as_slice().len() == 1);
    Ok(())
}

/// The lines of a log with one entry.
fn lines_of_log(alloc: Global) -> Result<Vec<Line>, AllocError> {
    let row = Bank::op_row(BankOp::Deposit { a: 0, x: 5 });
    let node = Node {
        thread: 0,
        number: 1,
        row,
    };
    let head = LogHead::new(0, 1, Bank::CODE, b"bank 1\n");
    let entry = entry_head(head, 1, 1, &[node]);
    Vec::from_slice(alloc, &[head.line(), entry, node_line(node)])
}

#[test]
fn merge(rt: HostRuntime) -> Result<(), Fail> {
    let alloc = rt.alloc();
    let lines = lines_of_log(alloc)?;
    let images = vec![in alloc; lines]?;
    let heads = [LogHead::new(0, 1, Bank::CODE, b"bank 1\n")];
    let mut bank = Bank::make(alloc, 1)?;
    let Ok(recovery) = recover_state(alloc, &mut bank, &heads, &images) else {
        return Err("no logs of one run".into());
    };
    assert!(rt; recovery.nodes.len() == 1);
    assert!(rt; bank.ask(BankQuery::Total) == BankReply::Amount(5));
    Ok(())
}

#[test]
fn applied(rt: HostRuntime) -> Result<(), Fail> {
    let alloc = rt.alloc();
    let lines = lines_of_log(alloc)?;
    let images = vec![in alloc; lines]?;
    let heads = [LogHead::new(0, 1, Bank::CODE, b"bank 1\n")];
    let mut bank = Bank::make(alloc, 1)?;
    if recover_state(alloc, &mut bank, &heads, &images).is_err() {
        return Err("no logs of one run".into());
    }
    let mut again = Bank::make(alloc, 1)?;
    let applied = apply_images(alloc, &mut again, &heads, &images)?;
    assert!(rt; applied.nodes == 1);
    assert!(rt; again.ask(BankQuery::Total) == BankReply::Amount(5));
    Ok(())
}

#[test]
fn core(rt: HostRuntime) -> Result<(), Fail> {
    let alloc = rt.alloc();
    let script = vec![in alloc; Call::Update(BankOp::Deposit { a: 0, x: 5 })]?;
    let mut core = Core::create(
        alloc,
        Bank::make(alloc, 1)?,
        b"bank 1\n",
        vec![in alloc; script]?,
    )?;
    for _step in 0..8 {
        core.step(0);
    }
    let images = core.crash(alloc, 0)?;
    let Ok(nodes) = core.recover_from(alloc, &images) else {
        return Err("not recovered".into());
    };
    assert!(rt; nodes.len() == 1);
    Ok(())
}

#[test]
fn shared(rt: HostRuntime) -> Result<(), Fail> {
    let alloc = rt.alloc();
    let head = LogHead::new(0, 1, Bank::CODE, b"bank 1\n");
    let Ok(log) = ThreadLog::make(MemPmem::new(alloc, 8, Vec::new(alloc))?, head) else {
        return Err("no log".into());
    };
    let (onll, mut passes) = Onll::create(alloc, Bank::make(alloc, 1)?, vec![in alloc; log]?, 2)?;
    let Some(mut pass) = passes.pop() else {
        return Err("no pass".into());
    };
    let done = onll.update(&rt, &mut pass, BankOp::Deposit { a: 0, x: 5 }, &FreeGate);
    assert!(rt; done.is_ok());
    let read = onll.read(&mut pass, BankQuery::Balance { a: 0 });
    assert!(rt; read.reply == BankReply::Amount(5));
    assert!(rt; read.place == 1);
    Ok(())
}

#[test]
fn run(rt: HostRuntime) -> Result<(), Fail> {
    let alloc = rt.alloc();
    let heads = [LogHead::new(0, 1, Bank::CODE, b"bank 1\n")];
    let script = vec![in alloc; Call::Update(BankOp::Deposit { a: 0, x: 5 })]?;
    let devices = vec![in alloc; MemPmem::new(alloc, 3, Vec::new(alloc))?]?;
    let bank = Bank::make(alloc, 1)?;
    let gate = FreeGate;
    let around = Surroundings {
        rt: &rt,
        alloc,
        gate: &gate,
    };
    let Ok(ran) = run_scripts(&around, bank, &heads, vec![in alloc; script]?, devices) else {
        return Err("not run".into());
    };
    assert!(rt; ran.trace.len() == 1);
    assert!(rt; ran.logs[0].fences() == 1);
    Ok(())
}

#[test]
fn bank(rt: HostRuntime) -> Result<(), Fail> {
    let alloc = rt.alloc();
    let mut bank = Bank::make(alloc, 2)?;
    assert!(rt; bank.apply(BankOp::Deposit { a: 0, x: 5 }) == BankReply::Done);
    assert!(rt; bank.apply(BankOp::Transfer { a: 0, b: 1, x: 7 }) == BankReply::TooLittle);
    assert!(rt; bank.ask(BankQuery::Total) == BankReply::Amount(5));
    Ok(())
}

#[test]
fn map(rt: HostRuntime) -> Result<(), Fail> {
    let alloc = rt.alloc();
    let (Some(k), Some(v)) = (Short::read(b"door"), Short::read(b"open")) else {
        return Err("no text".into());
    };
    let mut map = Map::make(alloc, 4)?;
    assert!(rt; map.apply(MapOp::Put { k, v }) == MapReply::New);
    assert!(rt; map.ask(MapQuery::Count) == MapReply::Count(1));
    Ok(())
}

#[test]
fn queue(rt: HostRuntime) -> Result<(), Fail> {
    let alloc = rt.alloc();
    let mut queue = Queue::make(alloc, 1)?;
    assert!(rt; queue.apply(QueueOp::Push { x: 7 }) == QueueReply::Done);
    assert!(rt; queue.apply(QueueOp::Push { x: 8 }) == QueueReply::Full);
    assert!(rt; queue.ask(QueueQuery::Length) == QueueReply::Length(1));
    Ok(())
}

#[test]
fn lease(rt: HostRuntime) -> Result<(), Fail> {
    let alloc = rt.alloc();
    let mut lease = Lease::make(alloc, 1)?;
    let first = LeaseOp::Grant {
        r: 0,
        h: 1,
        now: 10,
        ttl: 5,
    };
    assert!(rt; lease.apply(first) == LeaseReply::Granted(1));
    let second = LeaseOp::Grant {
        r: 0,
        h: 2,
        now: 12,
        ttl: 5,
    };
    assert!(rt; lease.apply(second) == LeaseReply::HeldUntil(15));
    assert!(rt;
        lease.ask(LeaseQuery::Holder { r: 0, now: 12 })
            == LeaseReply::HeldBy {
                holder: 1,
                token: 1,
                until: 15
            }
    );
    Ok(())
}

#[test]
fn outside(rt: HostRuntime) -> Result<(), Fail> {
    let alloc = rt.alloc();
    let mut sink = MemSink::new(alloc, vec![in alloc; 2]?);
    assert!(rt; sink.put(b"first").is_ok());
    assert!(rt; sink.put(b"second").is_err());
    assert!(rt; sink.taken() == b"first".as_slice());
    assert!(rt; sink.faults() == 1);
    Ok(())
}

#[test]
fn checkpoint(rt: HostRuntime) -> Result<(), Fail> {
    let alloc = rt.alloc();
    let mut text = Vec::new(alloc);
    text.extend_from_slice(b"bank 1\naccount 0 5\n")?;
    let checkpoint = Checkpoint::of(1, 2, text);
    let lines = lines_for(checkpoint.text().len() as u64);
    let device = MemPmem::new(alloc, lines, Vec::new(alloc))?;
    let Ok(device) = save(device, &checkpoint) else {
        return Err("not saved".into());
    };
    let image = device.image(alloc, 0)?;
    let Some(found) = load(alloc, image.as_slice())? else {
        return Err("no checkpoint".into());
    };
    assert!(rt; found.place() == 2);
    assert!(rt; found.text() == checkpoint.text());
    Ok(())
}

#[test]
fn areas(rt: HostRuntime) -> Result<(), Fail> {
    let alloc = rt.alloc();
    let mut store = MemStore::new(Vec::new(alloc), Vec::new(alloc), Vec::new(alloc));
    let mut text = Vec::new(alloc);
    text.extend_from_slice(b"bank 1\naccount 0 5\n")?;
    let checkpoint = Checkpoint::of(1, 2, text);
    assert!(rt; keep_checkpoint(alloc, "k.1", &checkpoint, &mut store).is_ok());
    let Ok(odd) = read_area(alloc, "k.1", &mut store) else {
        return Err("no area".into());
    };
    let Some(found) = newest(None, odd) else {
        return Err("no checkpoint".into());
    };
    assert!(rt; found.number() == 1);
    Ok(())
}

#[test]
fn standby(rt: HostRuntime) -> Result<(), Fail> {
    let alloc = rt.alloc();
    let row = Bank::op_row(BankOp::Deposit { a: 0, x: 5 });
    let node = Node {
        thread: 0,
        number: 1,
        row,
    };
    let head = LogHead::new(0, 1, Bank::CODE, b"bank 1\n");
    let heads = vec![in alloc; head]?;
    let mut standby = Standby::begin(alloc, Bank::make(alloc, 1)?, heads)?;
    assert!(rt; standby.feed(&line_bytes(head.line())).is_ok());
    assert!(rt;
        standby
            .feed(&line_bytes(entry_head(head, 1, 1, &[node])))
            .is_ok()
    );
    assert!(rt; standby.feed(&line_bytes(node_line(node))).is_ok());
    assert!(rt; standby.taken() == 192);
    assert!(rt; standby.followed() == 1);
    assert!(rt; standby.state().ask(BankQuery::Balance { a: 0 }) == BankReply::Amount(5));
    Ok(())
}
