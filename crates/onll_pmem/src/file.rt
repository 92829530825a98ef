//! A device over a file.

ghost use Rattle.std.specs.Prelude.{◌≡◌, ◌+◌, ◌-◌, ◌^◌, ◌<◌, ◌≤◌, ◌++◌, false, refl, length, IfOk, OnOk, OnErr};
ghost use Rattle.onll_pmem.specs.Device.{zero_lines, line_at, FillsWords, is_marked};
ghost use Rattle.onll_pmem.specs.Pmem.{words_of};
ghost use Rattle.onll_pmem.specs.File.{FileState, file_view, few_faults, words_in_file, written, passed, failed};

use crate::pmem::{FenceFailed, Pmem};
use onll_words::{Line, NoMemory, line_bytes, line_of_bytes};
use std::alloc::{AllocError, Global};
use std::fs::OpenFile;
use std::io;
use std::marker::Model;
use std::os::unix::fs::FileExt;

/// The bytes of lines.
fn bytes_of(alloc: Global, lines: &[Line]) -> Result<Vec<[u8; 64]>, AllocError>
    ensures { IfOk result (λ v. words_in_file v.items ≡ words_of lines.now) }
{
    let mut bytes = Vec::with_capacity(alloc, lines.len())?;
    for i in 0..lines.len() {
        bytes.push(line_bytes(lines[i]))?;
    }
    Ok(bytes)
}

/// The bytes of these lines, and then those of lines of zeros, this many in all.
fn bytes_with_zeros(
    alloc: Global,
    front: &[Line],
    lines: usize,
) -> Result<Vec<[u8; 64]>, AllocError>
    requires { length front.now ≤ lines }
    ensures { IfOk result (λ v. words_in_file v.items ≡ words_of front.now ++ zero_lines (lines - length front.now)) }
{
    let mut bytes = bytes_of(alloc, front)?;
    bytes.resize(lines, line_bytes(Line { w: [0; 8] }))?;
    Ok(bytes)
}

/// The first line from this one on, and before `to`, that waits, or doesn't, as is wanted; `to` where there is none.
fn first_of(waiting: &[bool], from: usize, to: usize, wanted: bool) -> usize
    requires within { to ≤ length waiting.now }
    requires order { from ≤ to }
    ensures from { from ≤ result }
    ensures to { result ≤ to }
    ensures met { result < to → is_marked waiting.now result ≡ wanted }
{
    for line in from..to {
        if waiting[line] == wanted {
            return line;
        }
    }
    to
}

/// Writes the lines that wait from one line on and before another, neighbours in one write.
fn write_waiting<F: FileExt>(
    file: &F,
    bytes: &[[u8; 64]],
    waiting: &[bool],
    from: usize,
    to: usize,
) -> io::Result<()>
    requires within { to ≤ length waiting.now }
    requires as_marked { length bytes.now ≡ length waiting.now }
    requires few { length bytes.now ≤ 1000000 }
{
    let mut at = from;
    while at < to {
        let begin = first_of(waiting, at, to, true);
        let end = first_of(waiting, begin, to, false);
        if begin < end {
            file.write_all_at(bytes[begin..end].as_flattened(), begin as u64 * 64)?;
        }
        at = end;
    }
    Ok(())
}

/// Lets none of the lines from one on and before another wait.
fn unmark(waiting: &mut Vec<bool>, from: usize, to: usize)
    requires within { to ≤ length waiting.old.items }
    ensures same { length waiting.new.items ≡ length waiting.old.items }
{
    for line in from..to {
        waiting[line] = false;
    }
}

/// A device over a file of eight words a line, each word with its lowest byte first. It holds its words in memory too, and reads
/// only those. What the file holds is not told: a fence hands lines over to the system and asks it to make them durable.
#[derive(Drop)]
pub struct FilePmem<F: FileExt + OpenFile + Drop> {
    file: F,
    /// The lines as the file is to have them, so that a fence takes no memory.
    bytes: Vec<[u8; 64]>,
    /// The lines that were written back since they were last written, and not fenced with success since.
    waiting: Vec<bool>,
    /// No line before this one waits.
    from: usize,
    /// No line waits from this one on.
    to: usize,
    passed: u64,
    failed: u64,
}

impl<F: FileExt + OpenFile + Drop> Model for FilePmem<F> {
    ghost use Rattle.onll_pmem.specs.File.{FileState, KeepsFile, words_in_file};

    ghost Value = { FileState };

    ghost view = { λ d. record { read = words_in_file d.bytes.items; passed = d.passed; failed = d.failed } };

    ghost invariant = { λ d. KeepsFile (words_in_file d.bytes.items) d.waiting.items d.to d.passed d.failed };
}

impl<F: FileExt + OpenFile + Drop> FilePmem<F> {
    fn try_reading(
        alloc: Global,
        file: F,
        front: &[Line],
        lines: usize,
    ) -> Result<FilePmem<F>, AllocError>
        requires front { length front.now ≤ lines }
        requires few { lines ≤ 1000000 }
        ensures { IfOk result (λ d. d ≡ record {
          read = words_of front.now ++ zero_lines (lines - length front.now);
          passed = 0;
          failed = 0;
        }) }
    {
        Ok(FilePmem {
            file,
            bytes: bytes_with_zeros(alloc, front, lines)?,
            waiting: vec![in alloc; false; lines]?,
            from: 0,
            to: 0,
            passed: 0,
            failed: 0,
        })
    }

    /// A device of so many lines over a file that holds as many lines of zeros.
    pub fn over(alloc: Global, file: F, lines: u64) -> Result<FilePmem<F>, NoMemory>
        requires { lines ≤ 1000000 }
        ensures { IfOk result (λ d. d ≡ record { read = zero_lines lines; passed = 0; failed = 0 }) }
    {
        FilePmem::reading(alloc, file, &[], lines)
    }

    /// A device of so many lines over a file that holds these lines and then zeros.
    pub fn reading(
        alloc: Global,
        file: F,
        front: &[Line],
        lines: u64,
    ) -> Result<FilePmem<F>, NoMemory>
        requires front { length front.now ≤ lines }
        requires few { lines ≤ 1000000 }
        ensures { IfOk result (λ d. d ≡ record {
          read = words_of front.now ++ zero_lines (lines - length front.now);
          passed = 0;
          failed = 0;
        }) }
    {
        FilePmem::try_reading(alloc, file, front, lines as usize).map_err(|_| NoMemory)
    }

    /// The file. All that was fenced with success stands in it.
    pub fn file(&self) -> &F {
        &self.file
    }

    /// Writes the lines that wait, and has the system make them durable.
    fn write_through(&self) -> io::Result<()> {
        write_waiting(&self.file, &self.bytes, &self.waiting, self.from, self.to)?;
        self.file.sync_data()
    }
}

impl<F: FileExt + OpenFile + Drop> Pmem for FilePmem<F> {
    ghost means = { file_view };

    ghost tells = { false };

    fn lines(&self) -> u64 {
        self.bytes.len() as u64
    }

    fn read(&self, line: u64) -> Line {
        line_of_bytes(self.bytes[line as usize])
    }

    fn write(&mut self, line: u64, value: Line)
        requires within { line < length self.old.read }
        requires fills { FillsWords (line_at self.old.read line) value.w }
        ensures { self.new ≡ written self.old line value.w }
    {
        self.bytes[line as usize] = line_bytes(value);
        self.waiting[line as usize] = false;
    }

    fn write_back(&mut self, line: u64)
        requires { line < length self.old.read }
        ensures { self.new ≡ self.old }
    {
        let line = line as usize;
        self.waiting[line] = true;
        if self.from < self.to {
            self.from = self.from.min(line);
            self.to = self.to.max(line + 1);
        } else {
            self.from = line;
            self.to = line + 1;
        }
    }

    fn fence(&mut self) -> Result<(), FenceFailed>
        requires { self.old.passed + self.old.failed < 2 ^ 64 - 1 }
        ensures ok { OnOk result (self.new ≡ passed self.old) }
        ensures failed { OnErr result (self.new ≡ failed self.old) }
    {
        match self.write_through() {
            Ok(()) => {
                unmark(&mut self.waiting, self.from, self.to);
                self.from = 0;
                self.to = 0;
                self.passed += 1;
                Ok(())
            }
            Err(_) => {
                self.failed += 1;
                Err(FenceFailed)
            }
        }
    }

    fn fences(&self) -> u64 {
        self.passed + self.failed
    }

    fn faults(&self) -> u64 {
        self.failed
    }

    ghost few_faults = { few_faults };

    ghost told_by_type = { λ device. refl };
}
