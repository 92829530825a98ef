//! A stream as it is made of the lines of logs: their header lines, and then their entries in turns.

ghost use Rattle.std.specs.Prelude.{◌≡◌, ◌+◌, ◌*◌, ◌<◌, ◌++◌, List, ℕ, Ok, length, map, take, drop, IfOk, OnOk};
ghost use Rattle.std.specs.List.{AllByRecursion, flat_map};
ghost use Rattle.onll_pmem.specs.Device.{line_at};
ghost use Rattle.onll_pmem.specs.Pmem.{words_of};
ghost use Rattle.onll_log.specs.Grammar.{content_of};
ghost use Rattle.onll_log.specs.Torn.{AreLines};
ghost use Rattle.onll_outside.specs.Views.{image_bytes};
ghost use Rattle.onll_shipping.specs.ShipJob.{HeadedLog, contents_of, most_entries, ready, shipped_bytes, shipped_entries};
ghost use Rattle.onll_shipping.specs.Turns.{IsUsedUp, IsCountable, HasMore, entries_held, if_some_line, first_entry, after_entry, put_in_turns};

use onll_log::{LogImage, TestedImage};
use onll_words::{Line, line_bytes};
use std::alloc::{AllocError, Global};
use std::marker::Model;

/// The lines of a log that are not in a stream yet: those of whole entries.
#[derive(Drop)]
pub struct EntriesLeft<'a> {
    lines: &'a [Line],
}

impl<'a> Model for EntriesLeft<'a> {
    ghost use Rattle.std.specs.Prelude.{List, ℕ};
    ghost use Rattle.onll_pmem.specs.Pmem.{words_of};

    ghost Value = { List (List ℕ) };

    ghost view = { λ left. words_of left.lines.now };
}

impl<'a> EntriesLeft<'a> {
    /// The lines of the first entry, none where there is none, and what is left after it.
    fn split(&self) -> (&'a [Line], EntriesLeft<'a>)
        ensures first { first_entry self.now ≡ if_some_line (words_of result.0.now) }
        ensures rest { result.1 ≡ after_entry self.now }
    {
        match self.lines.split_first() {
            Some((line, rest)) => {
                let count = line.w[4].min(rest.len() as u64) as usize;
                let (entry, lines) = self.lines.split_at(1 + count);
                (entry, EntriesLeft { lines })
            }
            None => (self.lines, EntriesLeft { lines: self.lines }),
        }
    }
}

/// Puts the bytes of lines.
fn put_lines(lines: &[Line], out: &mut Vec<u8>) -> Result<(), AllocError>
    ensures bytes { OnOk result (out.new.items ≡ out.old.items ++ image_bytes (words_of lines.now)) }
    ensures many { OnOk result (length out.new.items ≡ length out.old.items + 64 * length lines.now) }
{
    for line in lines {
        out.extend_from_slice(&line_bytes(*line))?;
    }
    Ok(())
}

/// A stream as far as it is made.
#[derive(Drop)]
pub struct Stream {
    pub bytes: Vec<u8>,
    /// How many entries it has.
    pub entries: u64,
}

impl Stream {
    ghost use Rattle.onll_shipping.specs.declared.turns.Stream.{Stream};

    /// Puts the next entry of a log, if there is one, and gives what is left of the log.
    fn put_next<'a>(&mut self, log: &EntriesLeft<'a>) -> Result<EntriesLeft<'a>, AllocError>
        requires { IsCountable self.old }
        ensures few { OnOk result (IsCountable self.new) }
        ensures more { OnOk result (HasMore self.old self.new (first_entry log.now)) }
        ensures left { IfOk result (λ left. left ≡ after_entry log.now) }
    {
        let (entry, left) = log.split();
        if entry.is_empty() {
            return Ok(left);
        }
        put_lines(entry, &mut self.bytes)?;
        self.entries += 1;
        Ok(left)
    }

    /// Puts the next entry of each log that has one, and gives what is left of the logs.
    fn put_turn<'a>(
        &mut self,
        alloc: Global,
        logs: &[EntriesLeft<'a>],
    ) -> Result<Vec<EntriesLeft<'a>>, AllocError>
        requires { IsCountable self.old }
        ensures few { OnOk result (IsCountable self.new) }
        ensures more { OnOk result (HasMore self.old self.new (flat_map first_entry logs.now)) }
        ensures left { IfOk result (λ left. left.items ≡ map after_entry logs.now) }
    {
        let mut left = Vec::new(alloc);
        for log in logs {
            left.push(self.put_next(log)?)?;
        }
        Ok(left)
    }

    /// Puts the entries of logs in so many turns.
    fn put_turns<'a>(
        &mut self,
        alloc: Global,
        logs: Vec<EntriesLeft<'a>>,
        turns: u64,
    ) -> Result<(), AllocError>
        requires { IsCountable self.old }
        ensures { OnOk result (HasMore self.old self.new (put_in_turns turns logs.entry.items)) }
    {
        let mut left = logs;
        for _ in 0..turns {
            left = self.put_turn(alloc, &left)?;
        }
        Ok(())
    }
}

/// How many entries a log has.
fn entries_of(image: &TestedImage<'_>) -> u64
    ensures { result ≡ length (entries_held (content_of image.now)) }
{
    match image.open() {
        Some(mut cursor) => cursor.survey().entries,
        None => 0,
    }
}

/// How many entries the longest log has.
fn most_entries(images: &[TestedImage<'_>]) -> u64
    ensures { result ≡ most_entries (map entries_held (contents_of images.now)) }
{
    let mut most = 0;
    for image in images {
        most = most.max(entries_of(image));
    }
    most
}

/// The line of this number.
fn line_of(lines: &[Line], i: usize) -> Line
    requires { i < length lines.now }
    ensures { result.w ≡ line_at (words_of lines.now) i }
{
    lines[i]
}

/// Lines are of eight words.
fn eight_words(lines: &[Line])
    ensures { AreLines (words_of lines.now) }
{
    for i in 0..lines.len() {
        line_of(lines, i);
    }
}

/// The first line of an image, and the lines after it.
fn split_head<'a>(image: &'a TestedImage<'_>) -> (&'a [Line], EntriesLeft<'a>)
    ensures head { words_of result.0.now ≡ take 1 image.now }
    ensures rest { result.1 ≡ drop 1 image.now }
    ensures lines { AreLines image.now }
{
    let lines = image.as_slice();
    eight_words(lines);
    let (head, lines) = lines.split_at(lines.len().min(1));
    (head, EntriesLeft { lines })
}

/// Puts the first line of each image, and gives the lines after them.
fn put_heads<'a>(
    alloc: Global,
    images: &'a [TestedImage<'_>],
    out: &mut Vec<u8>,
) -> Result<Vec<EntriesLeft<'a>>, AllocError>
    ensures heads { OnOk result (out.new.items ≡ out.old.items ++ image_bytes (flat_map (take 1) images.now)) }
    ensures rest { IfOk result (λ left. left.items ≡ map (drop 1) images.now) }
    ensures lines { OnOk result (AllByRecursion AreLines images.now) }
{
    let mut left = Vec::new(alloc);
    for image in images {
        let (head, rest) = split_head(image);
        put_lines(head, out)?;
        left.push(rest)?;
    }
    Ok(left)
}

/// The stream of the logs of these images, where one is made of them.
pub fn stream_of(alloc: Global, images: &[TestedImage<'_>]) -> Result<Stream, AllocError>
    requires { AllByRecursion IsUsedUp images.now }
    ensures { (logs : List HeadedLog) → ready images.now ≡ Ok logs
        → IfOk result (λ stream. (stream.bytes.items ≡ shipped_bytes logs) × (stream.entries ≡ length (shipped_entries logs))) }
{
    let mut bytes = Vec::new(alloc);
    let logs = put_heads(alloc, images, &mut bytes)?;
    let mut stream = Stream { bytes, entries: 0 };
    stream.put_turns(alloc, logs, most_entries(images))?;
    Ok(stream)
}
