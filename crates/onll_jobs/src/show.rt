//! The command `show`: what an image of a log holds.

ghost use Rattle.std.specs.Prelude.{◌≡◌, ◌++◌, ◌+◌, ◌-◌, ◌<◌, ◌≤◌, ◌^◌, [], length, true, IfOk, OnOk, Some, IfSome, All, map, decimal};
ghost use Rattle.onll_model.specs.Limits.{greatest_code};
ghost use Rattle.std.specs.List.{AllByRecursion};
ghost use Rattle.onll_words.specs.Texts.{line_text};
ghost use Rattle.onll_log.specs.Grammar.{content_of, used_by};
ghost use Rattle.onll_log.specs.Cursor.{entries_left, lines_passed, first_nodes};
ghost use Rattle.onll_text.specs.Bytes.{begins_line, with_words, with_lines};
ghost use Rattle.onll_outside.specs.Views.{StoreView};
ghost use Rattle.onll_jobs.specs.ShowJob.{head_line, row_line, row_lines, entry_lines, entries_lines, count_words, content_lines, show_report, RowReads, EntryReads, ShowReads, show_data, shown_task, show_work, IsPlacedEntry};
ghost use Rattle.onll_task.specs.Doing.{Fulfils};

use onll_log::{EntryView, LogCursor, LogHead, LogImage, TestedImage};
use onll_model::Node;
use onll_outside::Store;
use onll_task::{Ending, Stop, image_file};
use onll_text::{Piece, Report, object_name};
use onll_words::NoMemory;
use std::alloc::Global;

/// What is said of an image that is no log.
const NOT_A_LOG: &[u8] = b"not a log\n";

/// The line of a log's head.
fn put_head(thread: u64, threads: u64, object: u64, out: &mut Report) -> Result<(), NoMemory>
    requires { begins_line out.old ≡ true }
    ensures line { OnOk result (out.new ≡ out.old ++ line_text (head_line thread threads object)) }
    ensures reads { OnOk result ((thread < 2 ^ 64) × (threads < 2 ^ 64)) }
{
    let name = object_name(object);
    out.line(&[
        Piece::Text(b"log"),
        Piece::Text(b"thread"),
        Piece::Number(thread),
        Piece::Text(b"threads"),
        Piece::Number(threads),
        Piece::Text(b"object"),
        Piece::Text(name),
    ])
}

/// Numbers, as words.
fn put_numbers(numbers: &[u64], out: &mut Report) -> Result<(), NoMemory>
    ensures words { OnOk result (out.new ≡ with_words out.old (map decimal numbers.now)) }
    ensures reads { OnOk result (All (λ n. n < 2 ^ 64) numbers.now) }
{
    for number in numbers {
        out.number(*number)?;
    }
    Ok(())
}

/// The line of the node at a place.
fn put_row(place: u64, node: Node, out: &mut Report) -> Result<(), NoMemory>
    requires { begins_line out.old ≡ true }
    ensures line { OnOk result (out.new ≡ out.old ++ line_text (row_line place node)) }
    ensures reads { OnOk result (RowReads node) }
{
    out.words(&[
        Piece::Text(b"row"),
        Piece::Number(place),
        Piece::Number(node.thread),
        Piece::Number(node.number),
    ])?;
    put_numbers(&node.row.w, out)?;
    out.end_line()
}

/// The lines of the nodes of the next entry, the first of them at the place above `below`.
fn put_rows(
    below: u64,
    count: u64,
    cursor: &LogCursor<'_>,
    out: &mut Report,
) -> Result<(), NoMemory>
    requires begins { begins_line out.old ≡ true }
    requires count { count ≡ length (first_nodes (entries_left cursor.now)) }
    requires places { below + count < 2 ^ 64 }
    ensures lines { OnOk result (out.new ≡ with_lines out.old (row_lines below (first_nodes (entries_left cursor.now)))) }
    ensures begins { OnOk result (begins_line out.new ≡ true) }
    ensures reads { OnOk result (All RowReads (first_nodes (entries_left cursor.now))) }
{
    for i in 0..count {
        put_row(below + i + 1, cursor.node(i), out)?;
    }
    Ok(())
}

/// The lines of the next entry, which the cursor shows so.
fn put_entry(
    number: u64,
    entry: EntryView,
    cursor: &LogCursor<'_>,
    out: &mut Report,
) -> Result<(), NoMemory>
    requires begins { begins_line out.old ≡ true }
    requires count { entry.count ≡ length (first_nodes (entries_left cursor.now)) }
    requires placed { entry.count ≤ entry.place }
    ensures lines { OnOk result (out.new ≡ with_lines out.old
        (entry_lines number (record { place = entry.place; nodes = first_nodes (entries_left cursor.now) }))) }
    ensures begins { OnOk result (begins_line out.new ≡ true) }
    ensures reads { OnOk result (EntryReads (record { place = entry.place; nodes = first_nodes (entries_left cursor.now) })) }
{
    out.line(&[
        Piece::Text(b"entry"),
        Piece::Number(number),
        Piece::Text(b"place"),
        Piece::Number(entry.place),
        Piece::Text(b"count"),
        Piece::Number(entry.count),
    ])?;
    put_rows(entry.place - entry.count, entry.count, cursor, out)
}

/// The lines of all entries, which the cursor goes past.
fn put_entries(cursor: &mut LogCursor<'_>, out: &mut Report) -> Result<(), NoMemory>
    requires begins { begins_line out.old ≡ true }
    requires first { cursor.old.passed ≡ 0 }
    requires placed { AllByRecursion IsPlacedEntry cursor.old.content.entries }
    ensures lines { OnOk result (out.new ≡ with_lines out.old (entries_lines 0 cursor.old.content.entries)) }
    ensures begins { OnOk result (begins_line out.new ≡ true) }
    ensures reads { OnOk result (All EntryReads cursor.old.content.entries) }
    ensures passed { OnOk result (cursor.new.passed ≡ length cursor.old.content.entries) }
    ensures used { OnOk result (lines_passed cursor.new ≡ used_by cursor.old.content) }
{
    while let Some(entry) = cursor.peek() {
        put_entry(cursor.passed() + 1, entry, cursor, out)?;
        cursor.advance();
    }
    Ok(())
}

/// How many entries there are, and how many lines are used.
fn put_counts(entries: u64, lines: u64, out: &mut Report) -> Result<(), NoMemory>
    requires { begins_line out.old ≡ true }
    ensures line { OnOk result (out.new ≡ out.old ++ line_text (count_words entries lines)) }
    ensures few { OnOk result (lines < 2 ^ 64) }
{
    out.line(&[
        Piece::Text(b"entries"),
        Piece::Number(entries),
        Piece::Text(b"lines"),
        Piece::Number(lines),
    ])
}

/// The lines of a log with this head.
fn put_log(head: LogHead, mut cursor: LogCursor<'_>, out: &mut Report) -> Result<(), NoMemory>
    requires begins { begins_line out.old ≡ true }
    requires first { cursor.passed ≡ 0 }
    requires head { cursor.content.head ≡ Some head }
    requires object { IfSome cursor.content.head (λ head. (1 ≤ head.object) × (head.object ≤ greatest_code)) }
    requires placed { AllByRecursion IsPlacedEntry cursor.content.entries }
    ensures lines { let content = cursor.entry.content in
        OnOk result (out.new ≡ with_lines out.old (content_lines content.head content.entries (used_by content))) }
    ensures reads { OnOk result (ShowReads (show_data cursor.entry.content)) }
{
    put_head(head.thread, head.threads, head.object, out)?;
    put_entries(&mut cursor, out)?;
    put_counts(cursor.passed(), cursor.used(), out)
}

/// The lines of what an image holds.
fn put_content(cursor: LogCursor<'_>, out: &mut Report) -> Result<(), NoMemory>
    requires begins { begins_line out.old ≡ true }
    requires first { cursor.passed ≡ 0 }
    requires object { IfSome cursor.content.head (λ head. (1 ≤ head.object) × (head.object ≤ greatest_code)) }
    requires placed { AllByRecursion IsPlacedEntry cursor.content.entries }
    ensures lines { let content = cursor.entry.content in
        OnOk result (out.new ≡ with_lines out.old (content_lines content.head content.entries (used_by content))) }
    ensures reads { OnOk result (ShowReads (show_data cursor.entry.content)) }
{
    match cursor.head() {
        None => out.line(&[Piece::Text(b"empty")]),
        Some(head) => put_log(head, cursor, out),
    }
}

/// The report of what an image holds. All that it says reads back.
fn report(alloc: Global, cursor: LogCursor<'_>) -> Result<Vec<u8>, NoMemory>
    requires first { cursor.passed ≡ 0 }
    requires object { IfSome cursor.content.head (λ head. (1 ≤ head.object) × (head.object ≤ greatest_code)) }
    requires placed { AllByRecursion IsPlacedEntry cursor.content.entries }
    ensures report { IfOk result (λ bytes. bytes.items ≡ show_report cursor.entry.content) }
    ensures reads { OnOk result (ShowReads (show_data cursor.entry.content)) }
{
    let mut out = Report::new(alloc);
    put_content(cursor, &mut out)?;
    Ok(out.into_bytes())
}

/// What is said of an image.
fn shown(alloc: Global, image: &TestedImage<'_>) -> Result<Vec<u8>, Stop>
    ensures { (store : StoreView) → Fulfils [] store store (shown_task (content_of image.now)) result }
{
    match image.open() {
        Some(cursor) => Ok(report(alloc, cursor)?),
        None => Err(Stop::says(alloc, Ending::BadLog, NOT_A_LOG)),
    }
}

/// Shows the image of a file. It stops where the file can't be read, and where what it holds is no log.
pub(crate) fn answer<S: Store>(alloc: Global, image: &str, store: &mut S) -> Result<Vec<u8>, Stop>
    ensures { Fulfils [] (S.seen store.old) (S.seen store.new) (show_work image.now).task result }
{
    match image_file(alloc, image, store) {
        Ok(image) => shown(alloc, &image),
        Err(stop) => Err(stop),
    }
}
