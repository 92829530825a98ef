//! A text as lines, and the text that lines hold.

ghost use Rattle.std.specs.Prelude.{◌≡◌, ◌-◌, ◌≤◌, ◌++◌, length, take, replicate, IfOk};
ghost use Rattle.onll_words.specs.Lines.{words_of_bytes};
ghost use Rattle.onll_pmem.specs.Pmem.{words_of};
ghost use Rattle.onll_checkpoint.specs.Checkpoint.{longest_saved};
ghost use Rattle.onll_checkpoint.specs.Text.{lines_of_text, lines_for, text_in};

use onll_words::{Line, NoMemory, line_bytes, line_of_bytes};
use std::alloc::Global;

/// How many lines a text of so many bytes takes.
pub fn lines_of_text(bytes: usize) -> usize
    requires { bytes ≤ longest_saved }
    ensures { result ≡ lines_of_text bytes }
{
    (bytes + 63) / 64
}

/// How many lines a checkpoint with a text of so many bytes takes.
pub fn lines_for(length: u64) -> u64
    requires { length ≤ longest_saved }
    ensures { result ≡ lines_for length }
{
    1 + (length + 63) / 64
}

/// The first line of a text, with zeros after the text's end.
pub fn front_line(text: &[u8]) -> Line
    ensures { result.w ≡ words_of_bytes (take 64 text.now ++ replicate (64 - length text.now) 0) }
{
    let mut bytes = [0; 64];
    let count = text.len().min(64);
    for i in 0..count {
        bytes[i] = text[i];
    }
    line_of_bytes(bytes)
}

/// The text of so many bytes that lines begin with.
pub fn text_in(alloc: Global, lines: &[Line], bytes: usize) -> Result<Vec<u8>, NoMemory>
    requires few { bytes ≤ longest_saved }
    requires lines { lines_of_text bytes ≤ length lines.now }
    ensures { IfOk result (λ text. text.items ≡ text_in bytes (words_of lines.now)) }
{
    let mut text = Vec::with_capacity(alloc, lines_of_text(bytes) * 64)?;
    for line in &lines[..lines_of_text(bytes)] {
        text.extend_from_slice(&line_bytes(*line))?;
    }
    text.truncate(bytes);
    Ok(text)
}
