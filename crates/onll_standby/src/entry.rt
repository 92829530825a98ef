//! A whole entry of a stream.

ghost use Rattle.std.specs.Prelude.{◌≡◌, ℕ, ◌+◌, ◌-◌, ◌*◌, ◌<◌, ◌≤◌, ◌^◌, ◌==◌, ◌&&◌, nat_le, List, ◌∷◌, length};
ghost use Rattle.std.specs.List.{slice_get};
ghost use Rattle.onll_model.specs.Limits.{most_threads, most_updates};
ghost use Rattle.onll_log.specs.declared.head.LogHead.{LogHead};
ghost use Rattle.onll_pmem.specs.Pmem.{words_of};
ghost use Rattle.onll_log.specs.Head.{word, head_line};
ghost use Rattle.onll_log.specs.Grammar.{same_words};
ghost use Rattle.onll_standby.specs.Held.{HeldEntry, greatest_place};
ghost use Rattle.onll_standby.specs.Stream.{AreStreamHeads, is_header, byte_at, entries_course};
ghost use Rattle.onll_standby.specs.Holdings.{KeepsEntries};
ghost use Rattle.onll_standby.specs.Entry.{EntryBegins, TookEntry};

use crate::fault::FeedFault;
use crate::holdings::Holdings;
use crate::open_entry::nodes_of;
use onll_log::{LogHead, is_entry};
use onll_model::{MOST_UPDATES, Object};
use onll_words::Line;

/// The first word of an entry: the bytes `ONLLENT1`.
const ENTRY_MAGIC: u64 = 0x3154_4e45_4c4c_4e4f;

/// Whether a line is the first line of the log of this head.
pub fn is_line_of(line: &Line, head: &LogHead) -> bool
    ensures { result ≡ same_words line.now.w (head_line head.now) }
{
    line.w == head.line().w
}

/// The head of a thread's log, None where there is no such thread.
pub fn head_at(heads: &[LogHead], thread: u64) -> Option<LogHead>
    ensures { result ≡ slice_get heads.now thread }
{
    if thread < heads.len() as u64 {
        Some(heads[thread as usize])
    } else {
        None
    }
}

/// Whether a number is the one after these.
fn is_next(before: u64, number: u64) -> bool
    ensures { result ≡ (number == before + 1) }
{
    number > before && number - before == 1
}

/// Whether an entry of so many threads can have this count of nodes and this place.
fn is_placed(threads: u64, count: u64, place: u64) -> bool
    requires { threads ≤ most_threads }
    ensures { result ≡ nat_le 1 count && (nat_le count threads && (nat_le count place && nat_le place (most_updates * threads))) }
{
    1 <= count && count <= threads && count <= place && place <= MOST_UPDATES * threads
}

/// Whether a header line can begin the next entry of the log of this head, of which so many entries are held.
pub fn is_header(head: &LogHead, before: u64, line: &Line) -> bool
    requires { head.now.threads ≤ most_threads }
    ensures { result ≡ is_header head.now before line.now.w }
{
    let [magic, _, sequence, place, count, ..] = line.w;
    magic == ENTRY_MAGIC && (is_next(before, sequence) && is_placed(head.threads, count, place))
}

/// Takes an entry, whose lines these are. It begins at the byte `begins`.
pub fn take_entry<O: Object>(
    holdings: &mut Holdings<O>,
    heads: &[LogHead],
    header: &Line,
    rest: &[Line],
    begins: u64,
) -> Result<(), FeedFault>
    requires heads { AreStreamHeads heads.now }
    requires begun { EntryBegins heads.now holdings.old.logs header.now.w }
    requires whole { length rest.now ≡ word header.now.w 4 }
    requires room { length holdings.old.places ≡ greatest_place (length heads.now) }
    requires few { holdings.old.held < 2 ^ 64 - 1 }
    ensures places { length holdings.new.places ≡ length holdings.old.places }
    ensures held { holdings.new.held ≤ holdings.old.held + 1 }
    ensures taken { (start : O) (es : List HeldEntry) (at : ℕ) → byte_at at ≡ begins
        → KeepsEntries O.means start (length heads.now) es holdings.old
        → TookEntry O.means start heads.now at (header.now.w ∷ words_of rest.now)
        (entries_course O.means heads.now es at 0 (header.now.w ∷ words_of rest.now)) result holdings.new }
{
    let [_, thread, _, place, count, ..] = header.w;
    let before = holdings.logs[thread as usize].entries;
    if !is_entry(&heads[thread as usize], before, header, rest) {
        return Err(FeedFault::Refused { at: begins });
    }
    let all = nodes_of(rest);
    let nodes = &all[..count as usize];
    if let Some(fault) = holdings.fault_of(begins, thread, place, nodes) {
        return Err(fault);
    }
    holdings.admit(thread, place, nodes)
}
