//! A thread of the core: its script, what has returned, its phase, its log and its device.

ghost use Rattle.std.specs.Prelude.{◌≡◌, ◌+◌, ◌<◌, ◌≤◌, ◌++◌, suc, [], length, take, IfOk};
ghost use Rattle.onll_model.specs.Limits.{most_threads, most_updates};
ghost use Rattle.onll_model.specs.Calls.{updates_in};
ghost use Rattle.onll_pmem.specs.Device.{fenced_device, line_at, zero_lines, FillsWords, after_step, Write, WriteBack};
ghost use Rattle.onll_pmem.specs.Pmem.{words_of};
ghost use Rattle.std.specs.Vec.{vec_capacity};
ghost use Rattle.onll_core.specs.First.{first_device, first_thread};
ghost use Rattle.onll_core.specs.Found.{front_lines, found_thread, HasLogRoom};
ghost use Rattle.onll_core.specs.Step.{turned, begun, on_device, logged, returning, next_call};

use crate::phase::Phase;
use crate::returned::Returned;
use onll_log::LogHead;
use onll_merge::LogCounts;
use onll_model::{Call, Object, count_updates};
use onll_pmem::{MemPmem, Pmem};
use onll_words::{Line, NoMemory};
use std::alloc::{AllocError, Global};
use std::marker::Model;

/// An empty list with room for this many.
pub fn with_room<T: Drop>(alloc: Global, count: usize) -> Result<Vec<T>, NoMemory>
    ensures { IfOk result (λ v. (v.items ≡ []) × (vec_capacity v ≡ count)) }
{
    Vec::with_capacity(alloc, count).map_err(|_| NoMemory)
}

/// A device of this many lines that holds the head of a log, made durable.
fn first_device(alloc: Global, head: &LogHead, lines: u64) -> Result<MemPmem, NoMemory>
    requires some_line { 1 ≤ lines }
    requires few { lines ≤ 1000000 }
    ensures { IfOk result (λ device. device ≡ record { device = first_device head.now lines; failing = [] }) }
{
    let mut device = MemPmem::new(alloc, lines, Vec::new(alloc))?;
    device.write(0, head.line());
    device.write_back(0);
    let _ = device.fence();
    Ok(device)
}

/// These lines, and then this many lines of zeros.
fn with_zeros(alloc: Global, front: &[Line], room: usize) -> Result<Vec<Line>, AllocError>
    requires { length front.now + room ≤ 1000000 }
    ensures { IfOk result (λ v. words_of v.items ≡ words_of front.now ++ zero_lines room) }
{
    let mut lines = Vec::with_capacity(alloc, front.len() + room)?;
    lines.extend_from_slice(front)?;
    lines.resize(front.len() + room, Line { w: [0; 8] })?;
    Ok(lines)
}

/// A device that was found with these lines and then this many lines of zeros, all of them fenced.
fn device_of(alloc: Global, front: &[Line], room: u64) -> Result<MemPmem, NoMemory>
    requires { length front.now + room ≤ 1000000 }
    ensures { IfOk result (λ device. device
        ≡ record { device = fenced_device (words_of front.now ++ zero_lines room); failing = [] }) }
{
    match with_zeros(alloc, front, room as usize) {
        Ok(lines) => MemPmem::of_image(alloc, lines, Vec::new(alloc)),
        Err(_) => Err(NoMemory),
    }
}

/// The first lines of an image.
fn used_lines(image: &[Line], lines: u64) -> &[Line]
    requires { lines ≤ length image.now }
    ensures { words_of result.now ≡ take lines (words_of image.now) }
{
    let (used, _) = image.split_at(lines as usize);
    used
}

/// The device of a log that is gone on in: the used lines of its image, or the head's line where there are none, and then lines of
/// zeros.
fn found_device(
    alloc: Global,
    head: &LogHead,
    lines: u64,
    image: &[Line],
    room: u64,
) -> Result<MemPmem, NoMemory>
    requires within { lines ≤ length image.now }
    requires few { lines + 1 + room ≤ 1000000 }
    ensures { IfOk result (λ device. device ≡ record {
      device = fenced_device (front_lines head.now lines (words_of image.now) ++ zero_lines room);
      failing = [];
    }) }
{
    if lines == 0 {
        device_of(alloc, &[head.line()], room)
    } else {
        device_of(alloc, used_lines(image, lines), room)
    }
}

/// One thread of a core, and its log's device, whose fences never fail.
#[derive(Drop)]
pub struct Worker<O: Object> {
    head: LogHead,
    script: Vec<Call<O>>,
    returned: Vec<Returned<O>>,
    phase: Phase,
    began: u64,
    used: u64,
    logged: u64,
    before: u64,
    device: MemPmem,
}

impl<O: Object> Model for Worker<O> {
    ghost use Rattle.std.specs.Vec.{vec_capacity};
    ghost use Rattle.onll_core.specs.Core.{CoreThread};
    ghost use Rattle.onll_core.specs.Kept.{KeepsWorker};

    ghost Value = { CoreThread O O.Op O.Query O.Reply };

    ghost view = { λ w. record {
      head = w.head;
      script = w.script.items;
      returned = w.returned.items;
      phase = w.phase;
      began = w.began;
      used = w.used;
      logged = w.logged;
      before = w.before;
      device = w.device.device;
    } };

    ghost invariant = { λ w. KeepsWorker w.device.failing (vec_capacity w.returned)
        (record {
          head = w.head;
          script = w.script.items;
          returned = w.returned.items;
          phase = w.phase;
          began = w.began;
          used = w.used;
          logged = w.logged;
          before = w.before;
          device = w.device.device;
        }) };
}

impl<O: Object> Worker<O> {
    /// A thread that has done nothing, with a log that holds its head and has room for an entry of each update.
    pub fn new(alloc: Global, head: LogHead, script: Vec<Call<O>>) -> Result<Worker<O>, NoMemory>
        requires threads { head.threads ≤ most_threads }
        requires updates { updates_in script.items ≤ most_updates }
        ensures { IfOk result (λ worker. worker ≡ first_thread head script.items) }
    {
        let lines = 1 + count_updates(&script) * (head.threads + 1);
        let returned = with_room(alloc, script.len())?;
        let device = first_device(alloc, &head, lines)?;
        Ok(Worker {
            head,
            script,
            returned,
            phase: Phase::Idle,
            began: 0,
            used: 1,
            logged: 0,
            before: 1,
            device,
        })
    }

    /// A thread that goes on in the log of this image, with room for an entry of each update; an image of zeros has a log that
    /// holds its head.
    pub fn resume(
        alloc: Global,
        head: LogHead,
        image: &[Line],
        log: LogCounts,
        script: Vec<Call<O>>,
    ) -> Result<Worker<O>, NoMemory>
        requires { HasLogRoom head (words_of image.now) log script.items }
        ensures { IfOk result (λ worker. worker ≡ found_thread head (words_of image.now) log script.items) }
    {
        let room = count_updates(&script) * (head.threads + 1);
        let returned = with_room(alloc, script.len())?;
        let device = found_device(alloc, &head, log.lines, image, room)?;
        Ok(Worker {
            head,
            script,
            returned,
            phase: Phase::Idle,
            began: 0,
            used: log.lines.max(1),
            logged: log.entries,
            before: 0,
            device,
        })
    }

    pub fn head(&self) -> LogHead
        ensures { result ≡ self.now.head }
    {
        self.head
    }

    pub fn phase(&self) -> Phase
        ensures { result ≡ self.now.phase }
    {
        self.phase
    }

    pub fn began(&self) -> u64
        ensures { result ≡ self.now.began }
    {
        self.began
    }

    /// How many entries of its log are fenced.
    pub fn logged(&self) -> u64
        ensures { result ≡ self.now.logged }
    {
        self.logged
    }

    /// How many fences it has made in this generation.
    pub fn fences(&self) -> u64
        ensures { result + self.now.before ≡ self.now.device.fences }
    {
        self.device.fences() - self.before
    }

    pub fn returned(&self) -> &[Returned<O>]
        ensures { result.now ≡ self.now.returned }
    {
        &self.returned
    }

    pub fn device(&self) -> &MemPmem
        ensures { result.now ≡ record { device = self.now.device; failing = [] } }
    {
        &self.device
    }

    pub fn script(&self) -> &[Call<O>]
        ensures { result.now ≡ self.now.script }
    {
        &self.script
    }

    /// The next call of the script, the running one or the one to begin.
    pub fn next_call(&self) -> Option<Call<O>>
        ensures { result ≡ next_call self.now }
    {
        match self.script.get(self.returned.len()) {
            Some(Call::Update(op)) => Some(Call::Update(*op)),
            Some(Call::Ask(query)) => Some(Call::Ask(*query)),
            None => None,
        }
    }

    /// The next step is of another kind.
    pub fn turn(&mut self, phase: Phase)
        ensures { self.new ≡ turned self.old phase }
    {
        self.phase = phase;
    }

    /// A call begins at this moment.
    pub fn begin(&mut self, now: u64, phase: Phase)
        ensures { self.new ≡ begun self.old now phase }
    {
        self.phase = phase;
        self.began = now;
    }

    /// Writes the line of this number of the entry.
    pub fn write(&mut self, line: u64, value: Line, phase: Phase)
        requires within { self.old.used + line < length self.old.device.read }
        requires fills { FillsWords (line_at self.old.device.read (self.old.used + line)) value.w }
        ensures { self.new ≡ on_device self.old (after_step self.old.device (Write (self.old.used + line) value.w)) phase }
    {
        self.device.write(self.used + line, value);
        self.phase = phase;
    }

    /// Writes that line back.
    pub fn write_back(&mut self, line: u64, phase: Phase)
        requires { self.old.used + line < length self.old.device.read }
        ensures { self.new ≡ on_device self.old (after_step self.old.device (WriteBack (self.old.used + line))) phase }
    {
        self.device.write_back(self.used + line);
        self.phase = phase;
    }

    /// Fences the log, whose last entry has this many nodes.
    pub fn fence(&mut self, nodes: u64, phase: Phase)
        requires { self.old.used + suc nodes ≤ length self.old.device.read }
        ensures { self.new ≡ logged self.old nodes phase }
    {
        let _ = self.device.fence();
        self.used += nodes + 1;
        self.logged += 1;
        self.phase = phase;
    }

    /// The running call returns.
    pub fn put_returned(&mut self, returned: Returned<O>)
        requires { length self.old.returned < length self.old.script }
        ensures { self.new ≡ returning self.old returned.place returned.reply returned.began returned.ended }
    {
        self.returned.push_reserved(returned);
        self.phase = Phase::Idle;
    }
}
