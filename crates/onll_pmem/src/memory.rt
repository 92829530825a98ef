//! A device in memory, with fences that fail as told.

ghost use Rattle.std.specs.Prelude.{◌≡◌, ◌+◌, ◌-◌, ◌^◌, ◌<◌, ◌≤◌, ◌++◌, not, is_ok, true, refl, length, IfOk, OnOk, OnErr};
ghost use Rattle.onll_pmem.specs.Device.{new_device, fenced_device, image_of, IsImage, zero_lines, line_at, FillsWords, settled, Write, WriteBack, Fence, FailedFence};
ghost use Rattle.onll_pmem.specs.Pmem.{words_of};
ghost use Rattle.std.specs.Cow.{cow_slice_items};
ghost use Rattle.onll_pmem.specs.Memory.{MemoryState, fails, faults_in_le, stepped, memory_view, EvenBut};

use crate::front::{Front, ZERO};
use crate::image::{are_alike, kept_front};
use crate::marks::Marks;
use crate::pmem::{FenceFailed, Pmem};
use crate::waiting::Waiting;
use onll_words::{Line, NoMemory};
use std::alloc::{AllocError, Global};
use std::borrow::CowSlice;
use std::marker::Model;

/// Whether the fence of this number fails.
fn is_failing(failing: &[u64], number: u64) -> bool
    ensures { result ≡ fails failing.now number }
{
    failing.contains(&number)
}

/// Makes the lines durable that are written back and wait.
fn settle(fenced: &mut Front, read: &Front, backed: &Marks, waiting: &mut Waiting)
    requires as_fenced { length fenced.old ≡ length read.now }
    requires as_backed { length backed.now ≡ length read.now }
    requires as_marked { length waiting.old.marks ≡ length read.now }
    requires even { EvenBut waiting.old.marks fenced.old read.now backed.now }
    ensures settled { fenced.new ≡ settled backed.now fenced.old read.now }
    ensures even { EvenBut waiting.new.marks fenced.new read.now backed.now }
    ensures lines { length fenced.new ≡ length read.now }
    ensures marks { length waiting.new.marks ≡ length read.now }
{
    while let Some(line) = waiting.take() {
        if backed.get(line as usize) {
            fenced.set(line as usize, read.line(line as usize));
        }
    }
}

/// A device in memory, whose fences fail as told beforehand.
#[derive(Drop)]
pub struct MemPmem {
    fenced: Front,
    read: Front,
    backed: Marks,
    waiting: Waiting,
    failing: Vec<u64>,
    fences: u64,
    faults: u64,
}

impl Model for MemPmem {
    ghost use Rattle.onll_pmem.specs.Memory.{MemoryState, memory_of, KeepsMemory};

    ghost Value = { MemoryState };

    ghost view = { λ m. memory_of m.fenced m.read m.backed m.fences m.failing.items };

    ghost invariant = { λ m. KeepsMemory (memory_of m.fenced m.read m.backed m.fences m.failing.items) m.waiting.marks m.faults };
}

impl MemPmem {
    fn try_new(alloc: Global, lines: usize, failing: Vec<u64>) -> Result<MemPmem, AllocError>
        requires { lines ≤ 1000000 }
        ensures { IfOk result (λ m. m ≡ record { device = new_device lines; failing = failing.items }) }
    {
        Ok(MemPmem {
            fenced: Front::zeros(alloc, lines)?,
            read: Front::zeros(alloc, lines)?,
            backed: Marks::none(alloc, lines)?,
            waiting: Waiting::new(alloc, lines)?,
            failing,
            fences: 0,
            faults: 0,
        })
    }

    /// A device of zeros, whose fences fail that have these numbers, from 1.
    pub fn new(alloc: Global, lines: u64, failing: Vec<u64>) -> Result<MemPmem, NoMemory>
        requires { lines ≤ 1000000 }
        ensures { IfOk result (λ m. m ≡ record { device = new_device lines; failing = failing.items }) }
    {
        MemPmem::try_new(alloc, lines as usize, failing).map_err(|_| NoMemory)
    }

    fn try_of_image(
        alloc: Global,
        lines: Vec<Line>,
        failing: Vec<u64>,
    ) -> Result<MemPmem, AllocError>
        requires { length lines.items ≤ 1000000 }
        ensures { IfOk result (λ m. m ≡ record { device = fenced_device (words_of lines.items); failing = failing.items }) }
    {
        let read = Front::of_lines(lines);
        let count = read.len();
        Ok(MemPmem {
            fenced: read.copy(alloc)?,
            read,
            backed: Marks::none(alloc, count)?,
            waiting: Waiting::new(alloc, count)?,
            failing,
            fences: 0,
            faults: 0,
        })
    }

    /// A device of these lines, all of them fenced, as after a crash. Its fences fail that have these numbers, from 1.
    pub fn of_image(alloc: Global, lines: Vec<Line>, failing: Vec<u64>) -> Result<MemPmem, NoMemory>
        requires { length lines.items ≤ 1000000 }
        ensures { IfOk result (λ m. m ≡ record { device = fenced_device (words_of lines.items); failing = failing.items }) }
    {
        MemPmem::try_of_image(alloc, lines, failing).map_err(|_| NoMemory)
    }

    /// The same as `image_front`, in lines of its own.
    fn mixed_front(&self, alloc: Global, keep: u64) -> Result<Vec<Line>, AllocError>
        ensures within { IfOk result (λ front. length front.items ≤ length self.now.device.read) }
        ensures exact { IfOk result (λ front. image_of self.now.device keep
            ≡ words_of front.items ++ zero_lines (length self.now.device.read - length front.items)) }
        ensures member { IfOk result (λ front. IsImage self.now.device
            (words_of front.items ++ zero_lines (length self.now.device.read - length front.items))) }
    {
        kept_front(alloc, keep, &self.fenced, &self.read)
    }

    /// The image that `image` makes of `keep`, but for those of its lines at the end that are zero since neither what is fenced
    /// nor what was written reaches so far. Where nothing is pending no line is copied.
    pub fn image_front(
        &self,
        alloc: Global,
        keep: u64,
    ) -> Result<CowSlice<'_, Line, Global>, NoMemory>
        ensures within { IfOk result (λ front. length (cow_slice_items front) ≤ length self.now.device.read) }
        ensures exact { IfOk result (λ front. image_of self.now.device keep
            ≡ words_of (cow_slice_items front) ++ zero_lines (length self.now.device.read - length (cow_slice_items front))) }
        ensures member { IfOk result (λ front. IsImage self.now.device
            (words_of (cow_slice_items front) ++ zero_lines (length self.now.device.read - length (cow_slice_items front)))) }
    {
        let held = self.read.held();
        if are_alike(self.fenced.held(), held) {
            return Ok(CowSlice::Borrowed(held));
        }
        match self.mixed_front(alloc, keep) {
            Ok(front) => Ok(CowSlice::Owned(front)),
            Err(_) => Err(NoMemory),
        }
    }

    /// What a crash leaves: a pending word, one that reads otherwise than it is fenced, is as it reads where `keep` has
    /// the bit of its number modulo 64, and else as fenced. Pending words are numbered from 0 by line and then by word.
    pub fn image(&self, alloc: Global, keep: u64) -> Result<Vec<Line>, NoMemory>
        ensures exact { IfOk result (λ image. words_of image.items ≡ image_of self.now.device keep) }
        ensures member { IfOk result (λ image. IsImage self.now.device (words_of image.items)) }
    {
        let mut image = self.mixed_front(alloc, keep)?;
        image.resize(self.read.len(), ZERO)?;
        Ok(image)
    }
}

impl Pmem for MemPmem {
    ghost means = { memory_view };

    ghost tells = { true };

    fn lines(&self) -> u64 {
        self.read.len() as u64
    }

    fn read(&self, line: u64) -> Line {
        self.read.line(line as usize)
    }

    fn held(&self) -> Option<&[Line]> {
        Some(self.read.held())
    }

    fn write(&mut self, line: u64, value: Line)
        requires within { line < length self.old.device.read }
        requires fills { FillsWords (line_at self.old.device.read line) value.w }
        ensures { self.new ≡ stepped self.old (Write line value.w) }
    {
        self.read.set(line as usize, value);
        self.backed.set(line as usize, false);
    }

    fn write_back(&mut self, line: u64)
        requires { line < length self.old.device.read }
        ensures { self.new ≡ stepped self.old (WriteBack line) }
    {
        if !self.backed.get(line as usize) {
            self.backed.set(line as usize, true);
            self.waiting.add(line);
        }
    }

    fn fence(&mut self) -> Result<(), FenceFailed>
        requires { self.old.device.fences < 2 ^ 64 - 1 }
        ensures ok { OnOk result (self.new ≡ stepped self.old Fence) }
        ensures failed { OnErr result (self.new ≡ stepped self.old FailedFence) }
        ensures answer { is_ok result ≡ not (fails self.old.failing (self.old.device.fences + 1)) }
    {
        self.fences += 1;
        if is_failing(&self.failing, self.fences) {
            self.faults += 1;
            return Err(FenceFailed);
        }
        settle(
            &mut self.fenced,
            &self.read,
            &self.backed,
            &mut self.waiting,
        );
        Ok(())
    }

    fn fences(&self) -> u64 {
        self.fences
    }

    fn faults(&self) -> u64 {
        self.faults
    }

    ghost few_faults = { λ device. faults_in_le device.failing device.device.fences };

    ghost told_by_type = { λ device. refl };
}
