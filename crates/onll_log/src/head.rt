//! The head of a log, and its line.

ghost use Rattle.std.specs.Prelude.{◌≡◌, ◌≤◌, ◌<◌, ◌==◌, ◌&&◌, ◌||◌, nat_lt, nat_le, if◌then◌else◌, Option, Some, None, IfSome};
ghost use Rattle.onll_model.specs.Limits.{most_threads, greatest_code};
ghost use Rattle.onll_pmem.specs.Pmem.{words_of};
ghost use Rattle.onll_log.specs.Head.{head_for, head_line, head_of, is_head, FitsHead, log_magic};
ghost use Rattle.onll_log.specs.Grammar.{format_in};

use crate::digest::Message;
use onll_model::{GREATEST_CODE, MOST_THREADS};
use onll_words::Line;

/// The first word of a log: the bytes `ONLLLOG1`.
const LOG_MAGIC: u64 = 0x3147_4f4c_4c4c_4e4f;

/// The format of new logs.
const NEWEST: u64 = 2;

/// The head of a log: what its first line says.
#[derive(Clone, Copy, Debug, PartialEq, Eq)]
pub struct LogHead {
    pub thread: u64,
    pub threads: u64,
    /// The object's code.
    pub object: u64,
    /// The log digest: which initial state the log is of.
    pub digest: [u64; 3],
    /// 1, whose entries carry digests, or 2, whose entries carry masks.
    pub format: u64,
}

impl LogHead {
    /// The head of a new log of this thread, over the bytes of the object's initial state.
    pub fn new(thread: u64, threads: u64, object: u64, init: &[u8]) -> LogHead
        requires thread { thread < threads }
        requires threads { threads ≤ most_threads }
        requires object { (1 ≤ object) × (object ≤ greatest_code) }
        ensures head { result ≡ head_for 2 thread threads object init.now }
        ensures fits { FitsHead result }
    {
        LogHead::of_format(NEWEST, thread, threads, object, init)
    }

    /// The head of a log of this format and thread, over the bytes of the object's initial state.
    pub fn of_format(format: u64, thread: u64, threads: u64, object: u64, init: &[u8]) -> LogHead
        requires format { (1 ≤ format) × (format ≤ 2) }
        requires thread { thread < threads }
        requires threads { threads ≤ most_threads }
        requires object { (1 ≤ object) × (object ≤ greatest_code) }
        ensures head { result ≡ head_for format thread threads object init.now }
        ensures fits { FitsHead result }
    {
        let mut message = Message::new();
        message.add_words(&[LOG_MAGIC, format, thread, threads, object]);
        message.add_bytes(init);
        LogHead {
            thread,
            threads,
            object,
            digest: message.digest(),
            format,
        }
    }

    /// The log's first line.
    pub fn line(&self) -> Line
        ensures { result.w ≡ head_line self.now }
    {
        let [a, b, c] = self.digest;
        Line {
            w: [
                LOG_MAGIC,
                self.format,
                self.thread,
                self.threads,
                self.object,
                a,
                b,
                c,
            ],
        }
    }

    /// The head that a line says, None where it is no log's first line.
    pub fn of_line(line: &Line) -> Option<LogHead>
        ensures exact { result ≡ (if is_head line.now.w then Some (head_of line.now.w) else None) }
        ensures fits { IfSome result (λ head. FitsHead head) }
    {
        let [magic, format, thread, threads, object, a, b, c] = line.w;
        if is_first(magic, format) && are_in_range(thread, threads, object) {
            Some(LogHead {
                thread,
                threads,
                object,
                digest: [a, b, c],
                format,
            })
        } else {
            None
        }
    }
}

/// Whether a log of either format begins with these words.
fn is_first(magic: u64, format: u64) -> bool
    ensures { result ≡ (magic == log_magic) && ((format == 1) || (format == 2)) }
{
    magic == LOG_MAGIC && (format == 1 || format == 2)
}

/// Whether a head can say these numbers.
fn are_in_range(thread: u64, threads: u64, object: u64) -> bool
    ensures { result ≡ nat_lt thread threads && (nat_le threads most_threads && (nat_le 1 object && nat_le object greatest_code)) }
{
    thread < threads && threads <= MOST_THREADS && 1 <= object && object <= GREATEST_CODE
}

/// The format by which an image is read: 2 where its first line says so, and else 1.
pub fn format_of(lines: &[Line]) -> u64
    ensures { result ≡ format_in (words_of lines.now) }
{
    match lines.first() {
        Some(line) if line.w[1] == 2 => 2,
        _ => 1,
    }
}
