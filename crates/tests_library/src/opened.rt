//! Counters that are opened, used, closed and recovered: each refusal, and files that are emptied, replaced, swapped or missing.

ghost use Rattle.std.specs.Prelude.{◌≡◌, ◌≤◌, length, map};
ghost use Rattle.std.specs.List.{AllByRecursion};
ghost use Rattle.onll_model.specs.Limits.{most_threads};
ghost use Rattle.onll_trace.specs.Closing.{AreAll};
ghost use Rattle.onll_shared.specs.Passes.{IsTied, spot_of};
ghost use Rattle.onll_rows.specs.Sketch.{behaviour_of};
ghost use Rattle.onll_counter.specs.Counter.{counter};

use onll_counter::{Count, CounterOp};
use onll_log::LogHead;
use onll_open::{CloseFault, FilesFault, OpenFault, Opened, close, open, open_with_rooms, recover};
use onll_outside::{Directory, FenceAt, FileStore, FreeGate, MemStore, OutsideFault};
use onll_pmem::Pmem;
use onll_rows::Plain;
use onll_shared::{Onll, Pass};
use std::alloc::Global;
use std::fs;
use std::sync::Wait;
use std::test::Fail;
use tests_found::Found;

/// The object of the tests.
type Counter = Plain<Count>;

/// What the counter says of itself before it counts.
const BEGUN: &[u8] = b"counter 0";

const NAME: &str = "onll_tests_open/count";

const FIRST: &str = "onll_tests_open/count.0";

const SECOND: &str = "onll_tests_open/count.1";

const LOCK: &str = "onll_tests_open/count.lock";

/// How it went to open a counter, add 1 and close it.
#[derive(Clone, Copy, Debug, PartialEq, Eq)]
enum Went {
    /// It went on from so many updates, and was kept.
    OnFrom(u64),
    NotOpened(OpenFault),
    /// The log of this thread was not kept.
    NotKept(u64),
    NoMemory,
}

/// The files gave nothing.
fn refused(fault: FilesFault) -> Went {
    Went::NotOpened(OpenFault::Files(fault))
}

/// The files held logs that are not those of one run.
fn is_not_one_run(went: Went) -> bool {
    matches!(
        went,
        Went::NotOpened(OpenFault::Files(FilesFault::NotOneRun(_)))
    )
}

/// Adds 1 in the last thread.
fn add_last<R: Wait, P: Pmem + Drop>(
    rt: &R,
    onll: &Onll<Counter>,
    mut passes: Vec<Pass<Counter, P>>,
) -> Vec<Pass<Counter, P>>
    requires all { AreAll onll.now.trace (map spot_of passes.items) }
    requires tied { AllByRecursion (IsTied (behaviour_of counter) P.means onll.now) passes.items }
    ensures all { AreAll onll.now.trace (map spot_of result.items) }
    ensures tied { AllByRecursion (IsTied (behaviour_of counter) P.means onll.now) result.items }
    ensures count { length result.items ≡ length passes.items }
{
    match passes.pop() {
        Some(mut pass) => {
            let _done = onll.update(rt, &mut pass, CounterOp::Add { more: 1 }, &FreeGate);
            passes.push_reserved(pass);
            passes
        }
        None => passes,
    }
}

/// Opens a counter that began at this count, adds 1 and closes it.
fn count_on<R: Wait, S: Directory>(
    rt: &R,
    alloc: Global,
    store: &mut S,
    count: u64,
    rooms: &[u64],
) -> Went
    requires some_thread { 1 ≤ length rooms.now }
    requires few { length rooms.now ≤ most_threads }
{
    let counter = Plain::of(Count { count });
    match open_with_rooms(alloc, store, NAME, counter, rooms) {
        Ok(opened) => {
            let Opened {
                onll,
                passes,
                recovered,
            } = opened;
            let passes = add_last(rt, &onll, passes);
            match close(alloc, store, NAME, onll, passes) {
                Ok(()) => Went::OnFrom(recovered),
                Err(CloseFault::NotKept(fault)) => Went::NotKept(fault.thread),
                Err(CloseFault::NoMemory(_)) => Went::NoMemory,
            }
        }
        Err(fault) => Went::NotOpened(fault),
    }
}

/// The same with two threads.
fn count_two<R: Wait, S: Directory>(rt: &R, alloc: Global, store: &mut S) -> Went {
    count_on(rt, alloc, store, 0, &[8, 8])
}

/// How many updates the files of so many threads give.
fn left_in<S: Directory>(alloc: Global, store: &mut S, threads: u64) -> Result<usize, FilesFault>
    requires { threads ≤ most_threads }
{
    let counter = Plain::of(Count { count: 0 });
    let found = recover(alloc, store, NAME, threads, counter)?;
    Ok(found.recovery.nodes.len())
}

/// Refused while the counter is open already, and opened with all the room that its logs have left.
fn expect_in_use<R: Wait, S: Directory>(rt: &R, alloc: Global, store: &mut S, found: &mut Found) {
    let counter = Plain::of(Count { count: 0 });
    match open(alloc, store, NAME, counter, 2) {
        Ok(opened) => {
            let Opened {
                onll,
                passes,
                recovered,
            } = opened;
            found.must(recovered == 2, "opened with all room");
            let in_use = FilesFault::InUse;
            found.must(
                count_two(rt, alloc, store) == refused(in_use),
                "opened twice",
            );
            found.must(
                left_in(alloc, store, 2) == Err(in_use),
                "recovered while it is open",
            );
            found.must(
                close(alloc, store, NAME, onll, passes).is_ok(),
                "closed again",
            );
        }
        Err(_) => found.must(false, "opened once"),
    }
    found.must(left_in(alloc, store, 2) == Ok(2), "given back");
}

/// Begun where one file has no byte and the other is not there, and gone on with.
fn expect_opened<R: Wait, S: Directory>(rt: &R, alloc: Global, store: &mut S, found: &mut Found) {
    found.must(left_in(alloc, store, 2) == Ok(0), "nothing to recover");
    found.must(
        store.size(alloc, FIRST) == Ok(None),
        "no file made to recover",
    );
    found.must(store.write(alloc, FIRST, &[]).is_ok(), "a file of no byte");
    found.must(count_two(rt, alloc, store) == Went::OnFrom(0), "begun");
    found.must(count_two(rt, alloc, store) == Went::OnFrom(1), "gone on");
    found.must(left_in(alloc, store, 2) == Ok(2), "recovered");
}

/// Refused by what is asked.
fn expect_refused<R: Wait, S: Directory>(rt: &R, alloc: Global, store: &mut S, found: &mut Found) {
    let threads = FilesFault::Threads { were: 2 };
    found.must(
        left_in(alloc, store, 1) == Err(threads),
        "one thread of two",
    );
    found.must(
        count_on(rt, alloc, store, 0, &[8]) == refused(threads),
        "one room of two",
    );
    let full = Went::NotOpened(OpenFault::NoRoom { thread: 1 });
    found.must(count_on(rt, alloc, store, 0, &[8, 4095]) == full, "no room");
    found.must(
        is_not_one_run(count_on(rt, alloc, store, 5, &[8, 8])),
        "another initial state",
    );
}

/// How it goes where the file of a log was made these bytes.
fn with_file<R: Wait, S: Directory>(
    rt: &R,
    alloc: Global,
    store: &mut S,
    name: &str,
    bytes: &[u8],
) -> Went {
    match store.write(alloc, name, bytes) {
        Ok(()) => count_two(rt, alloc, store),
        Err(_) => Went::NoMemory,
    }
}

/// Refused by what files hold that were replaced, emptied and swapped, and gone on with where they are put back.
fn expect_changed<R: Wait, S: Directory>(
    rt: &R,
    alloc: Global,
    store: &mut S,
    found: &mut Found,
) -> Result<(), OutsideFault> {
    let first = store.read(alloc, FIRST, 1_000_000)?;
    let second = store.read(alloc, SECOND, 1_000_000)?;
    let gone = refused(FilesFault::Gone { log: 0 });
    found.must(
        with_file(rt, alloc, store, FIRST, &[0; 64]) == gone,
        "replaced",
    );
    found.must(with_file(rt, alloc, store, FIRST, &[]) == gone, "emptied");
    let none = refused(FilesFault::NotLog { log: 0 });
    found.must(
        with_file(rt, alloc, store, FIRST, &[7; 64]) == none,
        "no log",
    );
    found.must(
        with_file(rt, alloc, store, FIRST, &[0; 63]) == none,
        "no whole line",
    );
    let swapped = with_file(rt, alloc, store, FIRST, &second);
    found.must(is_not_one_run(swapped), "swapped");
    let back = with_file(rt, alloc, store, FIRST, &first);
    found.must(back == Went::OnFrom(2), "put back");
    // The second log alone has entries, so nothing tells that they are gone.
    found.must(
        with_file(rt, alloc, store, SECOND, &[]) == Went::OnFrom(0),
        "the only one with entries emptied",
    );
    let older = with_file(rt, alloc, store, SECOND, &second);
    found.must(older == Went::OnFrom(2), "an older file put back");
    Ok(())
}

/// Refused by a head of the first format.
fn expect_old<R: Wait, S: Directory>(rt: &R, alloc: Global, store: &mut S, found: &mut Found) {
    let head = LogHead::of_format(1, 0, 2, 4, BEGUN).line();
    found.must(
        store.write_lines(alloc, FIRST, &[head], 1).is_ok(),
        "an old head",
    );
    let old = refused(FilesFault::OldFormat { log: 0 });
    found.must(count_two(rt, alloc, store) == old, "the first format");
}

/// All of these over one store.
fn expect_all<R: Wait, S: Directory>(rt: &R, alloc: Global, store: &mut S, found: &mut Found) {
    expect_opened(rt, alloc, store, found);
    expect_in_use(rt, alloc, store, found);
    expect_refused(rt, alloc, store, found);
    let changed = expect_changed(rt, alloc, store, found);
    found.must(changed.is_ok(), "files read");
    expect_old(rt, alloc, store, found);
}

#[test]
fn in_memory(rt: HostRuntime) -> Result<(), Fail> {
    let alloc = rt.alloc();
    let mut found = Found::new();
    let mut store = MemStore::new(Vec::new(alloc), Vec::new(alloc), Vec::new(alloc));
    expect_all(&rt, alloc, &mut store, &mut found);
    found.ended()
}

#[test]
fn header(rt: HostRuntime) -> Result<(), Fail> {
    let alloc = rt.alloc();
    let mut found = Found::new();
    let fences = vec![in alloc;
        FenceAt {
            device: 1,
            fence: 1
        },
    ]?;
    let mut store = MemStore::new(Vec::new(alloc), Vec::new(alloc), fences);
    let failed = Went::NotOpened(OpenFault::HeaderFailed { thread: 1 });
    found.must(count_two(&rt, alloc, &mut store) == failed, "header");
    found.must(
        count_two(&rt, alloc, &mut store) == Went::OnFrom(0),
        "begun",
    );
    found.ended()
}

/// Of two threads an opening locks, asks for both sizes and makes both devices, and closing keeps both. Over logs that are begun each file
/// is read after its size is told, and made a device again.
#[test]
fn devices(rt: HostRuntime) -> Result<(), Fail> {
    let alloc = rt.alloc();
    let mut found = Found::new();
    let failing = vec![in alloc; 3, 7, 21]?;
    let mut store = MemStore::new(Vec::new(alloc), failing, Vec::new(alloc));
    let not_read = refused(FilesFault::NotRead { thread: 1 });
    found.must(
        count_two(&rt, alloc, &mut store) == not_read,
        "the second size",
    );
    let not_made = Went::NotOpened(OpenFault::NotMade { thread: 0 });
    found.must(
        count_two(&rt, alloc, &mut store) == not_made,
        "the first device",
    );
    found.must(
        count_two(&rt, alloc, &mut store) == Went::OnFrom(0),
        "begun",
    );
    let not_reopened = Went::NotOpened(OpenFault::NotReopened { thread: 1 });
    found.must(
        count_two(&rt, alloc, &mut store) == not_reopened,
        "the second device",
    );
    found.must(
        count_two(&rt, alloc, &mut store) == Went::OnFrom(1),
        "gone on",
    );
    found.ended()
}

#[test]
fn keep(rt: HostRuntime) -> Result<(), Fail> {
    let alloc = rt.alloc();
    let mut found = Found::new();
    let mut store = MemStore::new(Vec::new(alloc), vec![in alloc; 7]?, Vec::new(alloc));
    found.must(
        count_two(&rt, alloc, &mut store) == Went::NotKept(1),
        "the seventh call",
    );
    found.must(
        count_two(&rt, alloc, &mut store) == Went::OnFrom(0),
        "begun again",
    );
    found.ended()
}

#[test]
fn over_files(rt: HostRuntime) -> Result<(), Fail> {
    let mut found = Found::new();
    fs::create_dir(&rt, "onll_tests_open")?;
    let mut store = FileStore::new(&rt);
    expect_all(&rt, rt.alloc(), &mut store, &mut found);
    fs::remove_file(&rt, FIRST)?;
    fs::remove_file(&rt, SECOND)?;
    fs::remove_file(&rt, LOCK)?;
    fs::remove_dir(&rt, "onll_tests_open")?;
    found.ended()
}
