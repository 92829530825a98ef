//! The log of a thread over its device.

ghost use Rattle.std.specs.Prelude.{◌≡◌, ℕ, ◌+◌, ◌-◌, ◌*◌, ◌^◌, ◌<◌, ◌≤◌, ◌⊎◌, [], ◌∷◌, ◌++◌, length, take, false, is_err, IfNone, IfSome, IfOk, IfErr, OnOk, OnErr, Some};
ghost use Rattle.std.specs.Cow.{cow_slice_items};
ghost use Rattle.onll_model.specs.Limits.{most_threads, most_updates};
ghost use Rattle.std.specs.List.{All};
ghost use Rattle.onll_model.specs.Segment.{Segment, last_place};
ghost use Rattle.onll_pmem.specs.Device.{line_at, zero_line, zero_lines};
ghost use Rattle.onll_pmem.specs.Pmem.{words_of, ToldBacked, ToldSettled};
ghost use Rattle.onll_log.specs.Head.{FitsHead};
ghost use Rattle.onll_log.specs.Decoded.{segments_in, content_in};
ghost use Rattle.onll_log.specs.Encoding.{log_lines, node_lines, entry_lines, CanHold};
ghost use Rattle.onll_log.specs.Grammar.{content_of, lines_in};
ghost use Rattle.onll_log.specs.Log.{free_of, IsNewest, EndsInZeros, HoldsLog, PutsLines, IsDirty, IsClean, IsMade, IsHeaderPending, NotMade, Appends};

use crate::cause::MakeCause;
use crate::decoded::{Decoded, Entry};
use crate::entry::entry_head;
use crate::head::LogHead;
use crate::image::is_zero;
use crate::survey::LogSurvey;
use crate::tested::TestedImage;
use onll_model::{Node, node_line};
use onll_pmem::{FenceFailed, Pmem};
use onll_words::{Line, NoMemory};
use std::alloc::Global;
use std::borrow::CowSlice;
use std::marker::Model;

/// How many lines of a device, from the first on, may be other than zero.
fn lines_to_test<P: Pmem>(device: &P) -> u64
    ensures within { result ≤ length (P.means device.now).read }
    ensures zeros { (line : ℕ) → result ≤ line → line < length (P.means device.now).read
        → line_at (P.means device.now).read line ≡ zero_line }
{
    match device.held() {
        Some(front) => front.len() as u64,
        None => device.lines(),
    }
}

/// The first line of a device that isn't zero.
pub fn first_dirty<P: Pmem>(device: &P) -> Option<u64>
    ensures clean { IfNone result ((P.means device.now).read ≡ zero_lines (length (P.means device.now).read)) }
    ensures dirty { IfSome result (λ line. IsDirty (P.means device.now).read line) }
{
    for line in 0..lines_to_test(device) {
        if !is_zero(&device.read(line)) {
            return Some(line);
        }
    }
    None
}

/// The first lines of a device, as read.
fn first_lines<P: Pmem>(alloc: Global, device: &P, count: u64) -> Result<Vec<Line>, NoMemory>
    requires { count ≤ length (P.means device.now).read }
    ensures { IfOk result (λ lines. words_of lines.items ≡ take count (P.means device.now).read) }
{
    let mut lines = Vec::with_capacity(alloc, count as usize)?;
    for line in 0..count {
        lines.push_reserved(device.read(line));
    }
    Ok(lines)
}

/// The first lines of a device, as read: those that it holds, where it does, and else a copy of them.
fn front_of<P: Pmem>(
    alloc: Global,
    device: &P,
    count: u64,
) -> Result<CowSlice<'_, Line, Global>, NoMemory>
    requires { count ≤ length (P.means device.now).read }
    ensures { IfOk result (λ lines. words_of (cow_slice_items lines) ≡ take count (P.means device.now).read) }
{
    if let Some(front) = device.held() {
        if count <= front.len() as u64 {
            return Ok(CowSlice::Borrowed(&front[..count as usize]));
        }
    }
    Ok(CowSlice::Owned(first_lines(alloc, device, count)?))
}

/// Writes a line that reads as zero, and hands it over to the next fence.
pub fn put<P: Pmem>(device: &mut P, line: u64, value: Line)
    requires within { line < length (P.means device.old).read }
    requires zero { line_at (P.means device.old).read line ≡ zero_line }
    ensures { PutsLines (P.means device.old) (P.means device.new) line (value.w ∷ []) }
{
    device.write(line, value);
    device.write_back(line);
}

/// Writes the lines of nodes from this line on, and hands them over to the next fence.
fn put_nodes<P: Pmem>(device: &mut P, from: u64, nodes: &[Node])
    requires within { from + length nodes.now ≤ length (P.means device.old).read }
    requires few { from + length nodes.now < 2 ^ 64 }
    requires zeros { (line : ℕ) → from ≤ line → line < from + length nodes.now → line_at (P.means device.old).read line ≡ zero_line }
    requires nodes { All (CanHold most_threads) nodes.now }
    ensures lines { PutsLines (P.means device.old) (P.means device.new) from (node_lines nodes.now) }
    ensures rows { All (λ n. length n.row.w ≡ 7) nodes.now }
{
    for (i, node) in nodes.iter().enumerate() {
        put(device, from + i as u64, node_line(*node));
    }
}

/// Writes the lines of an entry from this line on, and hands them over to the next fence.
fn put_entry<P: Pmem>(device: &mut P, from: u64, first: Line, nodes: &[Node])
    requires within { from + 1 + length nodes.now ≤ length (P.means device.old).read }
    requires few { from + 1 + length nodes.now < 2 ^ 64 }
    requires zeros { (line : ℕ) → from ≤ line → line < from + 1 + length nodes.now → line_at (P.means device.old).read line ≡ zero_line }
    requires nodes { All (CanHold most_threads) nodes.now }
    ensures lines { PutsLines (P.means device.old) (P.means device.new) from (first.w ∷ node_lines nodes.now) }
    ensures rows { All (λ n. length n.row.w ≡ 7) nodes.now }
{
    put(device, from, first);
    put_nodes(device, from + 1, nodes);
}

/// The place of the last of these entries, 0 where there is none.
fn last_of(entries: &[Entry]) -> u64
    ensures { result ≡ last_place 0 (segments_in entries.now) }
{
    match entries.last() {
        Some(entry) => entry.place,
        None => 0,
    }
}

/// No log was made. The device is handed back.
#[derive(Drop)]
pub struct MakeFault<P> {
    pub device: P,
    pub cause: MakeCause,
}

/// The log of one thread over a device: a header, and the entries that were appended.
#[derive(Drop)]
pub struct ThreadLog<P: Pmem> {
    device: P,
    head: LogHead,
    /// What the entries are as a whole, as read.
    survey: LogSurvey,
    /// The place of the last entry.
    last: u64,
    /// The fences since the header's.
    fences: u64,
    broken: bool,
}

impl<P: Pmem> Model for ThreadLog<P> {
    ghost use Rattle.onll_log.specs.Log.{LogState, entries_read};
    ghost use Rattle.onll_log.specs.Kept.{KeepsWhole};

    ghost Value = { LogState P };

    ghost view = { λ l. record {
      head = l.head;
      entries = entries_read l.head (P.means l.device).read;
      fences = l.fences;
      broken = l.broken;
      device = l.device;
    } };

    ghost invariant = { λ l. KeepsWhole (P.means l.device) l.head
        (entries_read l.head (P.means l.device).read) l.survey l.last l.fences l.broken };
}

impl<P: Pmem> ThreadLog<P> {
    /// Writes the header of a log, with one fence, on a device of zeros.
    pub fn make(device: P, head: LogHead) -> Result<ThreadLog<P>, MakeFault<P>>
        requires head { FitsHead head }
        requires few { (P.means device).fences < 2 ^ 32 }
        requires settled { ToldSettled (P.means device).told (P.means device).read }
        ensures head { IfOk result (λ log. log.head ≡ head) }
        ensures entries { IfOk result (λ log. log.entries ≡ []) }
        ensures fences { IfOk result (λ log. log.fences ≡ 0) }
        ensures whole { IfOk result (λ log. log.broken ≡ false) }
        ensures made { IfOk result (λ log. IsMade (P.means device) (P.means log.device) head) }
        ensures refused { IfErr result (λ fault. NotMade fault.cause (P.means device) (P.means fault.device) head) }
        ensures unchanged { IfErr result (λ fault. (fault.cause ≡ MakeCause.FenceFailed) ⊎ (fault.device ≡ device)) }
    {
        if device.lines() == 0 {
            return Err(MakeFault {
                device,
                cause: MakeCause::Small,
            });
        }
        match first_dirty(&device) {
            Some(line) => Err(MakeFault {
                device,
                cause: MakeCause::Dirty { line },
            }),
            None => ThreadLog::begin(device, head),
        }
    }

    /// Writes the header of a log, with one fence, on a device that is known to have lines, all of zeros.
    fn begin(mut device: P, head: LogHead) -> Result<ThreadLog<P>, MakeFault<P>>
        requires head { FitsHead head }
        requires few { (P.means device).fences < 2 ^ 32 }
        requires lines { length (P.means device).read < 2 ^ 64 }
        requires clean { IsClean (P.means device).read }
        requires settled { ToldSettled (P.means device).told (P.means device).read }
        requires backed { ToldBacked (P.means device).told (P.means device).read }
        ensures head { IfOk result (λ log. log.head ≡ head) }
        ensures entries { IfOk result (λ log. log.entries ≡ []) }
        ensures fences { IfOk result (λ log. log.fences ≡ 0) }
        ensures whole { IfOk result (λ log. log.broken ≡ false) }
        ensures made { IfOk result (λ log. IsMade (P.means device) (P.means log.device) head) }
        ensures cause { IfErr result (λ fault. fault.cause ≡ MakeCause.FenceFailed) }
        ensures refused { IfErr result (λ fault. IsHeaderPending (P.means device) (P.means fault.device) head) }
    {
        put(&mut device, 0, head.line());
        match device.fence() {
            Ok(()) => Ok(ThreadLog {
                device,
                head,
                survey: LogSurvey {
                    entries: 0,
                    lines: 1,
                    top: 0,
                    disorder: None,
                },
                last: 0,
                fences: 0,
                broken: false,
            }),
            Err(FenceFailed) => Err(MakeFault {
                device,
                cause: MakeCause::FenceFailed,
            }),
        }
    }

    /// Goes on in the log that a device holds, with no fence. Where a crash tore its last entry, what is left of it was wiped before.
    pub fn open(device: P, log: &Decoded) -> ThreadLog<P>
        requires found { content_of (P.means device).read ≡ Some (content_in log.now) }
        requires format { IsNewest log.now.head }
        requires rest { EndsInZeros (P.means device).read (content_in log.now) }
        requires few { (P.means device).fences < 2 ^ 32 }
        requires settled { ToldSettled (P.means device).told (P.means device).read }
        ensures head { log.now.head ≡ Some result.head }
        ensures entries { result.entries ≡ segments_in log.now.entries }
        ensures fences { result.fences ≡ 0 }
        ensures whole { result.broken ≡ false }
        ensures device { result.device ≡ device }
    {
        let Some(head) = log.head else { unreachable!() };
        let lines = device.lines();
        let survey = log.survey();
        prove!(survey.lines <= lines);
        ThreadLog {
            device,
            head,
            survey,
            last: last_of(log.entries.as_slice()),
            fences: 0,
            broken: false,
        }
    }

    /// The head of the log.
    pub fn head(&self) -> LogHead
        ensures { result ≡ self.now.head }
    {
        self.head
    }

    /// How many lines the device has.
    pub fn lines(&self) -> u64
        ensures { result ≡ length (P.means self.now.device).read }
    {
        self.device.lines()
    }

    /// How many lines are free.
    pub fn free_lines(&self) -> u64
        ensures { result ≡ free_of (length (P.means self.now.device).read) self.now.entries }
    {
        self.device.lines() - self.survey.lines
    }

    /// The lines of the log as read: its header's and those of its entries, all of them known to be accepted. Zeros stand behind them
    /// on the device. Where the device holds its lines, none is copied.
    pub fn image(&self, alloc: Global) -> Result<TestedImage<'_>, NoMemory>
        ensures lines { IfOk result (λ image. image ≡ log_lines self.now.head self.now.entries) }
        ensures content { IfOk result (λ image. content_of image
            ≡ Some (record { head = Some self.now.head; entries = self.now.entries })) }
    {
        let lines = front_of(alloc, &self.device, self.survey.lines)?;
        Ok(TestedImage::known(lines, self.survey))
    }

    /// How many entries there are as read, a pending one among them.
    pub fn entries(&self) -> u64
        ensures { result ≡ length self.now.entries }
    {
        self.survey.entries
    }

    /// The place of the last entry as read, 0 where there is none.
    pub fn last_place(&self) -> u64
        ensures { result ≡ last_place 0 self.now.entries }
    {
        self.last
    }

    /// How many fences were made since the header's.
    pub fn fences(&self) -> u64
        ensures { result ≡ self.now.fences }
    {
        self.fences
    }

    /// Whether the last append's fence failed.
    pub fn broken(&self) -> bool
        ensures { result ≡ self.now.broken }
    {
        self.broken
    }

    /// The device under the log.
    pub fn device(&self) -> &P
        ensures device { result.now ≡ self.now.device }
        ensures holds { HoldsLog (P.means self.now.device) self.now.head self.now.entries self.now.broken }
    {
        &self.device
    }

    /// Hands the device back.
    pub fn into_device(self) -> P
        ensures device { result ≡ self.device }
        ensures holds { HoldsLog (P.means self.device) self.head self.entries self.broken }
    {
        let ThreadLog { device, .. } = self;
        device
    }

    /// Appends an entry that holds these nodes, the last of them at this place, with one fence. Where the fence fails the
    /// entry reads as appended and isn't durable, and the log takes no more.
    pub fn append(&mut self, place: u64, nodes: &[Node]) -> Result<(), FenceFailed>
        requires whole { self.old.broken ≡ false }
        requires some_nodes { 1 ≤ length nodes.now }
        requires few_nodes { length nodes.now ≤ self.old.head.threads }
        requires room { length nodes.now + 1 ≤ free_of (length (P.means self.old.device).read) self.old.entries }
        requires after { last_place 0 self.old.entries + length nodes.now ≤ place }
        requires place { place ≤ most_updates * self.old.head.threads }
        requires nodes { All (CanHold self.old.head.threads) nodes.now }
        ensures head { self.new.head ≡ self.old.head }
        ensures entries { self.new.entries ≡ self.old.entries ++ record { place = place; nodes = nodes.now } ∷ [] }
        ensures fences { self.new.fences ≡ self.old.fences + 1 }
        ensures broken { self.new.broken ≡ is_err result }
        ensures lines { let s : Segment = record { place = place; nodes = nodes.now } in
            Appends (P.means self.old.device) (P.means self.new.device) (1 + lines_in self.old.entries)
            (entry_lines self.old.head (length self.old.entries) s) }
        ensures faults { OnOk result ((P.means self.new.device).faults ≡ (P.means self.old.device).faults) }
        ensures settled { OnOk result (ToldSettled (P.means self.new.device).told (P.means self.new.device).read) }
        ensures failed { OnErr result ((P.means self.new.device).faults ≡ (P.means self.old.device).faults + 1) }
        ensures pending { OnErr result (ToldSettled (P.means self.new.device).told (P.means self.old.device).read) }
    {
        let first = entry_head(self.head, self.survey.entries + 1, place, nodes);
        put_entry(&mut self.device, self.survey.lines, first, nodes);
        let fenced = self.device.fence();
        self.survey = self.survey.with_entry(place, nodes.len() as u64);
        self.last = place;
        self.fences += 1;
        self.broken = fenced.is_err();
        fenced
    }
}
