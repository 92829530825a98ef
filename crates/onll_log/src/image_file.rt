//! The lines of a log's image in the bytes of a file.

ghost use Rattle.std.specs.Prelude.{◌≡◌, take, IfOk};
ghost use Rattle.onll_pmem.specs.Pmem.{words_of};
ghost use Rattle.onll_log.specs.ImageFile.{longest_image, whole_lines, image_lines};

use onll_words::{Line, NoMemory, line_of_bytes};
use std::alloc::Global;

/// How many bytes of an image are read at most: those of the greatest log, with 69,633 lines.
pub const LONGEST_IMAGE: usize = 4_456_512;

/// The lines of bytes. Bytes after the last whole line are ignored.
fn lines_of(alloc: Global, bytes: &[u8]) -> Result<Vec<Line>, NoMemory>
    ensures { IfOk result (λ lines. words_of lines.items ≡ whole_lines bytes.now) }
{
    let (chunks, _) = bytes.as_chunks::<64>();
    let mut lines = Vec::new(alloc);
    lines.try_reserve_exact(chunks.len())?;
    for chunk in chunks {
        lines.push(line_of_bytes(*chunk))?;
    }
    Ok(lines)
}

/// The bytes of an image's file that are read.
pub fn read_part(bytes: &[u8]) -> &[u8]
    ensures { result.now ≡ take longest_image bytes.now }
{
    if bytes.len() > LONGEST_IMAGE {
        &bytes[..LONGEST_IMAGE]
    } else {
        bytes
    }
}

/// The lines of an image's file.
pub fn image_lines(alloc: Global, bytes: &[u8]) -> Result<Vec<Line>, NoMemory>
    ensures { IfOk result (λ lines. words_of lines.items ≡ image_lines bytes.now) }
{
    lines_of(alloc, read_part(bytes))
}
