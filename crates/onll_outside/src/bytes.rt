//! Lines as the bytes of a file, and the first bytes of one.

ghost use Rattle.std.specs.Prelude.{◌≡◌, ◌≤◌, length, IfOk, take};
ghost use Rattle.onll_pmem.specs.Pmem.{words_of};
ghost use Rattle.onll_outside.specs.Views.{with_zeros, image_bytes};

use onll_words::{Line, line_bytes};
use std::alloc::{AllocError, Global};

/// The first bytes of a file, this many at most.
pub(crate) fn front_of(bytes: &[u8], limit: u64) -> &[u8]
    ensures { result.now ≡ take limit bytes.now }
{
    let count = bytes.len().min(limit as usize);
    &bytes[..count]
}

/// The bytes of an image's file.
pub(crate) fn image_bytes(alloc: Global, lines: &[Line]) -> Result<Vec<u8>, AllocError>
    ensures { IfOk result (λ bytes. bytes.items ≡ image_bytes (words_of lines.now)) }
{
    let mut bytes = Vec::new(alloc);
    for line in lines {
        bytes.extend_from_slice(&line_bytes(*line))?;
    }
    Ok(bytes)
}

/// These lines, and then lines of zeros, this many in all.
pub(crate) fn with_zeros(alloc: Global, front: &[Line], lines: u64) -> Result<Vec<Line>, AllocError>
    requires { length front.now ≤ lines }
    ensures { IfOk result (λ v. words_of v.items ≡ with_zeros (words_of front.now) lines) }
{
    let mut image = Vec::from_slice(alloc, front)?;
    image.resize(lines as usize, Line { w: [0; 8] })?;
    Ok(image)
}

/// The bytes of the file of these lines, and then lines of zeros, this many in all.
pub(crate) fn file_bytes(alloc: Global, front: &[Line], lines: u64) -> Result<Vec<u8>, AllocError>
    requires { length front.now ≤ lines }
    ensures { IfOk result (λ bytes. bytes.items ≡ image_bytes (with_zeros (words_of front.now) lines)) }
{
    let image = with_zeros(alloc, front, lines)?;
    image_bytes(alloc, &image)
}
