//! Files of the system that are filled, cut and made durable.

ghost use Rattle.std.specs.Prelude.{◌+◌, ◌*◌, ◌^◌, ◌<◌, ◌≤◌, length, IfOk, OnOk};
ghost use Rattle.onll_pmem.specs.Pmem.{words_of};
ghost use Rattle.onll_outside.specs.LineFiles.{IsFileFront, IsGathered};

use crate::FileLines;
use crate::beside::{Opened, create_beside, settle, sync_folder, take_name};
use crate::gather::{ZEROS, ended, gather};
use onll_pmem::{FilePmem, Pmem};
use onll_words::{Line, line_bytes};
use std::alloc::{AllocError, Global};
use std::fs::{OpenFile, OpenOptions};
use std::io::{ErrorKind, Read, Write};
use std::os::unix::fs::{FileExt, MetadataExt};
use std::rt::Files;
use std::{fs, io};

/// The bytes of a line.
const LINE: u64 = 64;

/// The lines of the parts in which a file is read and written.
const PART: usize = 1024;

/// Writes zeros from one byte of a file on and before another.
fn fill<F: FileExt>(file: &F, from: u64, to: u64) -> io::Result<()> {
    let zeros = [0; 16_384];
    let mut at = from;
    while at < to {
        let count = (to - at).min(16_384);
        file.write_all_at(&zeros[..count as usize], at)?;
        at += count;
    }
    Ok(())
}

/// How many of the first `limit` bytes a file has; none where it does not tell.
pub fn length_of<R: Files>(files: &R, name: &str, limit: u64) -> u64 {
    match fs::metadata(files, name) {
        Ok(data) => data.len().min(limit),
        Err(_) => 0,
    }
}

/// Reads until a buffer is full or the file ends, and gives how many bytes were read.
fn fill_buffer<F: Read>(file: &mut F, buffer: &mut [u8]) -> io::Result<usize>
    ensures { IfOk result (λ n. n ≤ length buffer.new) }
{
    let mut filled = 0;
    for _ in 0..u64::MAX {
        match file.read(&mut buffer[filled..]) {
            Ok(0) => break,
            Ok(count) => filled += count,
            Err(e) if e.kind() == ErrorKind::Interrupted => {}
            Err(e) => return Err(e),
        }
    }
    Ok(filled)
}

/// Adds the lines of the next `limit` bytes of a file to those that were read before.
fn read_parts<F: Read>(
    file: &mut F,
    buffer: &mut [u8],
    lines: &mut FileLines,
    limit: u64,
) -> io::Result<()>
    requires some { 0 < length buffer.old }
    requires gathered { IsGathered (words_of lines.old.front.items) lines.old.count }
    requires few { 64 * lines.old.count + limit < 2 ^ 64 }
    ensures gathered { OnOk result (IsGathered (words_of lines.new.front.items) lines.new.count) }
    ensures few { OnOk result (64 * lines.new.count ≤ 64 * lines.old.count + limit) }
{
    let mut left = limit;
    while left > 0 {
        let room = left.min(buffer.len() as u64);
        let filled = fill_buffer(file, &mut buffer[..room as usize])?;
        let (chunks, _) = buffer[..filled].as_chunks::<64>();
        gather(lines, chunks)?;
        if (filled as u64) < room {
            return Ok(());
        }
        left -= room;
    }
    Ok(())
}

/// The whole lines of the first `limit` bytes of a file. Room for them is taken before they are read, so that none is copied.
pub fn read_lines<R: Files>(
    files: &R,
    alloc: Global,
    name: &str,
    limit: u64,
) -> io::Result<FileLines>
    ensures front { IfOk result (λ l. IsFileFront (words_of l.front.items) l.count) }
    ensures few { IfOk result (λ l. 64 * l.count ≤ limit) }
{
    let mut buffer = vec![in alloc; 0; PART * LINE as usize]?;
    let room = length_of(files, name, limit) / LINE;
    let mut lines = FileLines {
        front: Vec::with_capacity(alloc, room as usize)?,
        count: 0,
    };
    let mut file = fs::open(files, name)?;
    read_parts(&mut file, &mut buffer, &mut lines, limit)?;
    Ok(ended(lines)?)
}

/// These lines without those of zeros at their end.
fn without_zeros(lines: &[Line]) -> &[Line] {
    let mut count = lines.len();
    while count > 0 {
        if lines[count - 1] != ZEROS {
            break;
        }
        count -= 1;
    }
    &lines[..count]
}

/// Appends the bytes of these lines.
fn put_bytes(buffer: &mut Vec<u8>, lines: &[Line]) -> Result<(), AllocError> {
    for line in lines {
        buffer.extend_from_slice(&line_bytes(*line))?;
    }
    Ok(())
}

/// Writes these lines through an empty buffer.
fn write_parts<F: Write>(file: &mut F, buffer: &mut Vec<u8>, lines: &[Line]) -> io::Result<()> {
    for part in lines.chunks(PART) {
        buffer.clear();
        put_bytes(buffer, part)?;
        file.write_all(buffer)?;
    }
    Ok(())
}

/// Room for the bytes of a part.
pub fn part_buffer(alloc: Global) -> Result<Vec<u8>, AllocError> {
    Vec::with_capacity(alloc, PART * LINE as usize)
}

/// Writes these lines, and then lines of zeros, `count` in all, into an empty file, durably. Zeros at the end are not written: the file
/// is only made longer.
fn fill_lines<F: Write + OpenFile>(
    file: &mut F,
    buffer: &mut Vec<u8>,
    front: &[Line],
    count: u64,
) -> io::Result<()> {
    let written = without_zeros(front);
    write_parts(file, buffer, written)?;
    if count > written.len() as u64 {
        file.set_len(count.saturating_mul(LINE))?;
    }
    file.sync_all()
}

/// Writes these bytes into an empty file, durably.
fn fill_bytes<F: Write + OpenFile>(file: &mut F, bytes: &[u8]) -> io::Result<()> {
    file.write_all(bytes)?;
    file.sync_all()
}

/// Makes a file of so many lines of zeros. It has its whole length before this answers, durably, so that no later
/// fence has to make it longer.
pub fn make_file<R: Files>(files: &R, name: &str, lines: u64) -> io::Result<R::File>
where
    R::File: FileExt,
    requires { lines ≤ 1000000 }
{
    let file = fs::create(files, name)?;
    fill(&file, 0, lines * LINE)?;
    file.sync_all()?;
    sync_folder(files, name)?;
    Ok(file)
}

/// Cuts a file after its first lines, which are these, and fills it with zeros up to so many lines, durably. The first lines are
/// written again: one whose sync failed may read as written and be lost with the power, and a sync alone writes it no more. Where
/// none is to stay the file's first line is never cut off, so that whatever ends this leaves a file with a line.
pub fn cut_file<R: Files>(
    files: &R,
    name: &str,
    buffer: &mut Vec<u8>,
    front: &[Line],
    lines: u64,
) -> io::Result<R::File>
where
    R::File: FileExt,
    requires front { length front.now ≤ lines }
    requires few { lines ≤ 1000000 }
{
    let kept = front.len() as u64;
    let mut file = OpenOptions::new().write(true).open(files, name)?;
    write_parts(&mut file, buffer, front)?;
    file.set_len(kept.max(lines.min(1)) * LINE)?;
    fill(&file, kept * LINE, lines * LINE)?;
    file.sync_all()?;
    Ok(file)
}

/// Whether this is the file of that name. Where the system does not tell, its error: another file's is never assumed.
fn is_named<R: Files>(files: &R, name: &str, file: &R::File) -> io::Result<bool> {
    match fs::metadata(files, name) {
        Ok(named) => {
            let own = file.metadata()?;
            Ok(own.dev() == named.dev() && own.ino() == named.ino())
        }
        Err(e) if e.kind() == ErrorKind::NotFound => Ok(false),
        Err(e) => Err(e),
    }
}

/// Whether a file may take this name: none is there, or a regular one.
fn is_replaceable<R: Files>(files: &R, name: &str) -> bool {
    match fs::metadata(files, name) {
        Ok(data) => data.is_file(),
        Err(e) => e.kind() == ErrorKind::NotFound,
    }
}

/// Makes these lines, and then lines of zeros, `count` in all, the file of this name, durably. Whatever ends this leaves the old file or
/// the new one whole, where it was opened beside.
pub fn fill_with_lines<R: Files>(
    files: &R,
    name: &str,
    opened: Opened<R::File>,
    buffer: &mut Vec<u8>,
    front: &[Line],
    count: u64,
) -> io::Result<()> {
    let Opened { mut file, beside } = opened;
    let filled = fill_lines(&mut file, buffer, front, count);
    settle(files, name, beside, filled)
}

/// Makes these bytes the file of this name, durably, as `fill_with_lines` does.
pub fn fill_with<R: Files>(
    files: &R,
    name: &str,
    opened: Opened<R::File>,
    bytes: &[u8],
) -> io::Result<()> {
    let Opened { mut file, beside } = opened;
    let filled = fill_bytes(&mut file, bytes);
    settle(files, name, beside, filled)
}

/// Makes the lines of a device, as they read, the whole of an empty file, durably.
fn write_device<R: Files>(file: &mut R::File, device: &FilePmem<R::File>) -> io::Result<()>
where
    R::File: FileExt,
{
    for line in 0..device.lines() {
        file.write_all(&line_bytes(device.read(line)))?;
    }
    file.sync_all()
}

/// Makes the lines of a device, as they read, a file of another name than its own, durably. They are written beside that file and
/// then take its name, so that whatever ends this leaves the old file or the new one whole.
fn copy_device<R: Files>(
    files: &R,
    alloc: Global,
    name: &str,
    device: &FilePmem<R::File>,
) -> io::Result<()>
where
    R::File: FileExt,
{
    if !is_replaceable(files, name) {
        return Err(io::Error::from(ErrorKind::AlreadyExists));
    }
    let (beside, mut file) = create_beside(files, alloc, name)?;
    let filled = write_device::<R>(&mut file, device);
    take_name(files, name, beside.as_str(), filled)
}

/// Makes the file of that name hold an image of a device, durably. Where it is the device's own it does so already.
pub fn keep_device<R: Files>(
    files: &R,
    alloc: Global,
    name: &str,
    device: &FilePmem<R::File>,
) -> io::Result<()>
where
    R::File: FileExt,
{
    if is_named(files, name, device.file())? {
        return device.file().sync_all();
    }
    copy_device(files, alloc, name, device)
}
