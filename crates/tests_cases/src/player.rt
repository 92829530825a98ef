//! Plays cases, line by line.

use crate::bytes::{grown, log_word, no_form, number, numbers, unescaped, word};
use crate::call::call;
use crate::case::{Block, Case};
use itoa::Buffer;
use onll_outside::{FenceAt, Named};
use onll_words::{Line, line_bytes};
use std::alloc::Global;
use std::io::Print;
use std::sync::Wait;
use std::thread::Threads;
use std::{io, mem, str};

/// How many bytes a line of a log has.
const LINE: usize = 64;

/// What plays cases: the bytes that have names, the case that is read, how many were, and of how many something was otherwise.
#[derive(Drop)]
pub(crate) struct Player<'a, R: Threads + Wait + Sync + Print> {
    rt: &'a R,
    alloc: Global,
    names: Vec<Named>,
    case: Case,
    cases: u64,
    wrong: u64,
}

impl<'a, R: Threads + Wait + Sync + Print> Player<'a, R> {
    pub(crate) fn new(rt: &'a R, alloc: Global) -> Player<'a, R> {
        Player {
            rt,
            alloc,
            names: Vec::new(alloc),
            case: Case::new(alloc, String::new(alloc)),
            cases: 0,
            wrong: 0,
        }
    }

    /// Takes a line, without its end.
    pub(crate) fn take(&mut self, line: &str) -> io::Result<()> {
        match line.as_bytes() {
            [] | [b'#', ..] => Ok(()),
            [b'|', text @ ..] => {
                self.put(text)?;
                self.case.bytes.push(b'\n')?;
                Ok(())
            }
            [b':', text @ ..] => self.put(text),
            [b'*', text @ ..] => self.put_copies(text),
            [b'>', text @ ..] => self.expect_line(text),
            _ => self.take_words(line),
        }
    }

    /// Says how many cases were played, and of how many something was otherwise.
    pub(crate) fn end(&mut self) -> io::Result<()> {
        self.end_case()?;
        println!(self.rt; "{} cases, {} otherwise", self.cases, self.wrong)
    }

    /// Adds what a text stands for to the bytes of the block.
    fn put(&mut self, text: &[u8]) -> io::Result<()> {
        let bytes = unescaped(self.alloc, text)?;
        self.case.bytes.extend_from_slice(&bytes)?;
        Ok(())
    }

    /// Takes a line that is no text of a block.
    fn take_words(&mut self, line: &str) -> io::Result<()> {
        let mut words = Vec::new(self.alloc);
        for word in line.split(' ') {
            words.push(word)?;
        }
        match words.as_slice() {
            ["=", name] if self.has_name(name) => self.put_named(name),
            ["=", words @ ..] => self.put_line(line_of(words)?),
            ["zeros", count] => self.put_zeros(number(count)?),
            ["pad"] => self.pad(),
            ["cut", count] => self.cut(number(count)?),
            ["case", ..] => self.begin(line),
            words => {
                self.end_block()?;
                self.take_rule(words)
            }
        }
    }

    /// Takes what comes behind the bytes of a block.
    fn take_rule(&mut self, words: &[&str]) -> io::Result<()> {
        match words {
            ["name", name] => {
                self.case.block = Block::Named {
                    name: word(self.alloc, name)?,
                }
            }
            ["calls", calls @ ..] if self.case.store.is_none() => {
                self.case.failing_calls = numbers(self.alloc, calls)?
            }
            ["fence", device, fence] if self.case.store.is_none() => {
                self.case.failing_fences.push(FenceAt {
                    device: number(device)?,
                    fence: number(fence)?,
                })?
            }
            ["puts", puts @ ..] => self.case.failing_puts = numbers(self.alloc, puts)?,
            ["file", name] => {
                self.case.block = Block::File {
                    name: word(self.alloc, name)?,
                }
            }
            ["held", name] => {
                self.case.block = Block::Held {
                    name: word(self.alloc, name)?,
                }
            }
            ["gone", name] => self.expect_gone(name)?,
            ["kept", name] => self.keep_output(name)?,
            ["call", status, words @ ..] => {
                self.call(status, words)?;
                self.case.block = Block::Output;
            }
            ["ends", status, words @ ..] => self.call(status, words)?,
            _ => return Err(no_form()),
        }
        Ok(())
    }

    /// Ends a case, which has made a call of the program.
    fn end_case(&mut self) -> io::Result<()> {
        self.end_block()?;
        if self.cases != 0 && self.case.store.is_none() {
            return Err(no_form());
        }
        Ok(())
    }

    /// Begins a case, whose name is the line without its first word.
    fn begin(&mut self, line: &str) -> io::Result<()> {
        self.end_case()?;
        let (_, name) = line.split_once(' ').ok_or(no_form())?;
        self.cases = self.cases.saturating_add(1);
        self.case = Case::new(self.alloc, String::from_str(self.alloc, name)?);
        Ok(())
    }

    /// Whether some bytes have this name.
    fn has_name(&self, name: &str) -> bool {
        self.names.iter().any(|named| named.name.as_str() == name)
    }

    /// Adds the bytes of this name.
    fn put_named(&mut self, name: &str) -> io::Result<()> {
        for named in &self.names {
            if named.name.as_str() == name {
                self.case.bytes.extend_from_slice(&named.bytes)?;
            }
        }
        Ok(())
    }

    /// Gives bytes a name.
    fn name_bytes(&mut self, name: String, bytes: Vec<u8>) -> io::Result<()> {
        if self.has_name(&name) {
            return Err(no_form());
        }
        self.names.push(Named { name, bytes })?;
        Ok(())
    }

    fn put_line(&mut self, line: Line) -> io::Result<()> {
        self.case.bytes.extend_from_slice(&line_bytes(line))?;
        Ok(())
    }

    /// Adds copies of what a text stands for; how many stands before it.
    fn put_copies(&mut self, text: &[u8]) -> io::Result<()> {
        let text = str::from_utf8(text).map_err(|_| no_form())?;
        let (count, text) = text.split_once(' ').ok_or(no_form())?;
        match text.split_once('{') {
            None => self.put_same(number(count)?, text),
            Some((before, numbered)) => self.put_numbered(number(count)?, before, numbered),
        }
    }

    /// Adds so many copies, which are the same.
    fn put_same(&mut self, count: u64, text: &str) -> io::Result<()> {
        let bytes = unescaped(self.alloc, text.as_bytes())?;
        for _ in 0..count {
            self.case.bytes.extend_from_slice(&bytes)?;
        }
        Ok(())
    }

    /// Adds so many copies of a text and of what comes behind it with its numbers.
    fn put_numbered(&mut self, count: u64, before: &str, numbered: &str) -> io::Result<()> {
        for turn in 0..count {
            self.put(before.as_bytes())?;
            self.put_turn(numbered, turn)?;
        }
        Ok(())
    }

    /// Adds what comes behind the first brace of a text, with each number between braces as it is at this turn.
    fn put_turn(&mut self, numbered: &str, turn: u64) -> io::Result<()> {
        for part in numbered.split('{') {
            let (start, behind) = part.split_once('}').ok_or(no_form())?;
            self.put_number(grown(start, turn)?)?;
            self.put(behind.as_bytes())?;
        }
        Ok(())
    }

    /// Adds a number in decimal digits.
    fn put_number(&mut self, number: u64) -> io::Result<()> {
        let mut digits = Buffer::new();
        self.case
            .bytes
            .extend_from_slice(digits.format(number).as_bytes())?;
        Ok(())
    }

    /// Adds so many lines of zeros.
    fn put_zeros(&mut self, count: u64) -> io::Result<()> {
        for _ in 0..count {
            self.put_line(Line { w: [0; 8] })?;
        }
        Ok(())
    }

    /// Adds zeros up to a whole line.
    fn pad(&mut self) -> io::Result<()> {
        let past = self.case.bytes.len() % LINE;
        if past != 0 {
            for _ in past..LINE {
                self.case.bytes.push(0)?;
            }
        }
        Ok(())
    }

    /// Leaves so many bytes of the block.
    fn cut(&mut self, count: u64) -> io::Result<()> {
        self.case
            .bytes
            .truncate(usize::try_from(count).map_err(|_| no_form())?);
        Ok(())
    }

    /// Does what the lines of the block are for.
    fn end_block(&mut self) -> io::Result<()> {
        let bytes = mem::replace(&mut self.case.bytes, Vec::new(self.alloc));
        match mem::replace(&mut self.case.block, Block::Nothing) {
            Block::Nothing if bytes.is_empty() => Ok(()),
            Block::Nothing => Err(no_form()),
            Block::Named { name } => self.name_bytes(name, bytes),
            Block::File { name } => self.case.put_file(self.alloc, &name, &bytes),
            Block::Held { name } => self.expect_held(&name, &bytes),
            Block::Output => self.expect_output(&bytes),
        }
    }

    /// Runs the program with these words; the status that it is to end with is a number, or `?`.
    fn call(&mut self, status: &str, texts: &[&str]) -> io::Result<()> {
        let mut words = Vec::new(self.alloc);
        for text in texts {
            words.push(word(self.alloc, text)?)?;
        }
        let puts = mem::replace(&mut self.case.failing_puts, Vec::new(self.alloc));
        let mut store = self.case.take_store(self.alloc);
        let ended = call(self.rt, self.alloc, &words, &mut store, puts)?;
        self.case.store = Some(store);
        self.case.printed = ended.printed;
        if ended.failed != matches!(ended.status, 5 | 6) {
            self.say_otherwise("faults", "counted")?;
        }
        if status != "?" && number(status)? != u64::from(ended.status) {
            self.say_otherwise("status", status)?;
        }
        Ok(())
    }

    /// The last call printed these bytes.
    fn expect_output(&mut self, bytes: &[u8]) -> io::Result<()> {
        if self.case.printed.as_slice() == bytes {
            return Ok(());
        }
        self.count_wrong();
        println!(self.rt; "{}: printed {}", self.case.name, self.printed())
    }

    /// The last call printed this line.
    fn expect_line(&mut self, line: &[u8]) -> io::Result<()> {
        let line = str::from_utf8(line).map_err(|_| no_form())?;
        if self.printed().lines().any(|printed| printed == line) {
            return Ok(());
        }
        self.say_otherwise("not printed", line)
    }

    /// A file holds these bytes.
    fn expect_held(&mut self, name: &str, bytes: &[u8]) -> io::Result<()> {
        if self.case.file(name) == Some(bytes) {
            return Ok(());
        }
        self.say_otherwise("other bytes in", name)
    }

    /// There is no such file.
    fn expect_gone(&mut self, name: &str) -> io::Result<()> {
        if self.case.file(name).is_none() {
            return Ok(());
        }
        self.say_otherwise("there is", name)
    }

    /// Makes what the last call printed a file.
    fn keep_output(&mut self, name: &str) -> io::Result<()> {
        let printed = Vec::from_slice(self.alloc, &self.case.printed)?;
        self.case.put_file(self.alloc, name, &printed)
    }

    fn printed(&self) -> &str {
        str::from_utf8(&self.case.printed).unwrap_or("no text")
    }

    /// Counts the case, once, among those of which something is otherwise.
    fn count_wrong(&mut self) {
        if !self.case.is_wrong {
            self.case.is_wrong = true;
            self.wrong = self.wrong.saturating_add(1);
        }
    }

    /// Says what is otherwise, and counts the case.
    fn say_otherwise(&mut self, what: &str, which: &str) -> io::Result<()> {
        self.count_wrong();
        println!(self.rt; "{}: {what} {which}", self.case.name)
    }
}

/// A line that begins with these words, behind which zeros stand.
fn line_of(texts: &[&str]) -> io::Result<Line> {
    let mut line = Line { w: [0; 8] };
    for (place, text) in texts.iter().enumerate() {
        if line.w.len() <= place {
            return Err(no_form());
        }
        line.w[place] = log_word(text)?;
    }
    Ok(line)
}
