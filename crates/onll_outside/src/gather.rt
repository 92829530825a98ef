//! Lines that are gathered from the bytes of a file, a part after the other. Zeros at the end are counted alone.

ghost use Rattle.std.specs.Prelude.{◌≡◌, ◌+◌, ◌-◌, ◌*◌, ◌^◌, ◌<◌, ◌≤◌, ◌++◌, length, map, take, IfOk, OnOk};
ghost use Rattle.std.specs.List.{AllByRecursion};
ghost use Rattle.std.specs.Vec.{vec_capacity};
ghost use Rattle.onll_words.specs.Lines.{words_of_bytes};
ghost use Rattle.onll_pmem.specs.Device.{zero_lines};
ghost use Rattle.onll_pmem.specs.Pmem.{words_of};
ghost use Rattle.onll_outside.specs.Views.{with_zeros};
ghost use Rattle.onll_outside.specs.LineFiles.{IsWholeLine, EndsInWords, IsFileFront, IsGathered, HasLines};

use crate::FileLines;
use onll_words::{Line, line_of_bytes};
use std::alloc::{AllocError, Global};

/// A line of zeros.
pub(crate) const ZEROS: Line = Line { w: [0; 8] };

/// How many of these lines there are without those of zeros at their end.
fn front_count(chunks: &[[u8; 64]]) -> usize
    ensures within { result ≤ length chunks.now }
    ensures zeros { let lines = map words_of_bytes chunks.now in lines ≡ take result lines ++ zero_lines (length chunks.now - result) }
    ensures least { EndsInWords (take result (map words_of_bytes chunks.now)) }
{
    let mut count = chunks.len();
    while count > 0 {
        let line = line_of_bytes(chunks[count - 1]);
        if line != ZEROS {
            return count;
        }
        count -= 1;
    }
    0
}

/// The line of these bytes.
fn line_of(chunk: &[u8; 64]) -> Line
    ensures words { result.w ≡ words_of_bytes chunk.now }
    ensures whole { IsWholeLine result.w }
{
    line_of_bytes(*chunk)
}

/// Appends lines of zeros up to so many lines in all. There is room for them.
fn put_zeros(lines: &mut Vec<Line>, count: usize)
    requires behind { length lines.old.items ≤ count }
    requires room { count ≤ vec_capacity lines.old }
    ensures words { words_of lines.new.items ≡ with_zeros (words_of lines.old.items) count }
    ensures many { length lines.new.items ≡ count }
    ensures capacity { vec_capacity lines.new ≡ vec_capacity lines.old }
{
    while lines.len() < count {
        lines.push_reserved(ZEROS);
    }
}

/// Appends the lines of these bytes. There is room for them.
fn put_lines(lines: &mut Vec<Line>, chunks: &[[u8; 64]])
    requires { length lines.old.items + length chunks.now ≤ vec_capacity lines.old }
    ensures words { words_of lines.new.items ≡ words_of lines.old.items ++ map words_of_bytes chunks.now }
    ensures whole { AllByRecursion IsWholeLine (words_of lines.old.items) → AllByRecursion IsWholeLine (words_of lines.new.items) }
{
    for chunk in chunks {
        lines.push_reserved(line_of(chunk));
    }
}

/// Appends lines of zeros up to so many lines in all, and then the lines of these bytes.
fn put_front(lines: &mut Vec<Line>, count: usize, chunks: &[[u8; 64]]) -> Result<(), AllocError>
    requires behind { length lines.old.items ≤ count }
    requires few { count + length chunks.now < 2 ^ 64 }
    ensures words { OnOk result (words_of lines.new.items ≡ with_zeros (words_of lines.old.items) count ++ map words_of_bytes chunks.now) }
    ensures whole { OnOk result (AllByRecursion IsWholeLine (words_of lines.old.items)
        → AllByRecursion IsWholeLine (words_of lines.new.items)) }
{
    lines.reserve(count - lines.len() + chunks.len())?;
    put_zeros(lines, count);
    put_lines(lines, chunks);
    Ok(())
}

/// Adds the lines of these bytes to those that were read before.
pub(crate) fn gather(lines: &mut FileLines, chunks: &[[u8; 64]]) -> Result<(), AllocError>
    requires gathered { IsGathered (words_of lines.old.front.items) lines.old.count }
    requires few { lines.old.count + length chunks.now < 2 ^ 64 }
    ensures gathered { OnOk result (IsGathered (words_of lines.new.front.items) lines.new.count) }
    ensures count { OnOk result (lines.new.count ≡ lines.old.count + length chunks.now) }
    ensures lines { OnOk result (with_zeros (words_of lines.new.front.items) lines.new.count
        ≡ with_zeros (words_of lines.old.front.items) lines.old.count ++ map words_of_bytes chunks.now) }
{
    let count = front_count(chunks);
    let before = lines.count;
    lines.count += chunks.len() as u64;
    if count == 0 {
        return Ok(());
    }
    put_front(&mut lines.front, before as usize, &chunks[..count])?;
    Ok(())
}

/// The lines of a file that ends here: one of zeros stays where there is no other line.
pub(crate) fn ended(mut lines: FileLines) -> Result<FileLines, AllocError>
    requires { IsGathered (words_of lines.front.items) lines.count }
    ensures front { IfOk result (λ l. IsFileFront (words_of l.front.items) l.count) }
    ensures count { IfOk result (λ l. l.count ≡ lines.count) }
    ensures lines { IfOk result (λ l. with_zeros (words_of l.front.items) l.count ≡ with_zeros (words_of lines.front.items) lines.count) }
{
    if lines.count == 0 || !lines.front.is_empty() {
        return Ok(lines);
    }
    lines.front.push(ZEROS)?;
    Ok(lines)
}

/// The whole lines of bytes.
pub(crate) fn lines_of(alloc: Global, bytes: &[u8]) -> Result<FileLines, AllocError>
    ensures lines { IfOk result (λ l. HasLines bytes.now (words_of l.front.items) l.count) }
    ensures front { IfOk result (λ l. IsFileFront (words_of l.front.items) l.count) }
    ensures few { IfOk result (λ l. 64 * l.count ≤ length bytes.now) }
{
    let (chunks, _) = bytes.as_chunks::<64>();
    let mut lines = FileLines {
        front: Vec::new(alloc),
        count: 0,
    };
    gather(&mut lines, chunks)?;
    ended(lines)
}
