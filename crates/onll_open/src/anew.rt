//! Logs that are begun anew, whatever their files hold.

ghost use Rattle.std.specs.Prelude.{◌≡◌, [], length, replicate, IfOk};
ghost use Rattle.onll_pmem.specs.Device.{zero_lines};
ghost use Rattle.onll_open.specs.Devices.{no_counts};

use crate::over_files::FoundLogs;
use crate::reading::empty_image;
use onll_log::{LogHead, TestedImage};
use onll_merge::{LogCounts, Recovery};
use std::alloc::{AllocError, Global};

/// So many logs that are not begun.
fn empty_images(alloc: Global, count: usize) -> Result<Vec<TestedImage<'static>>, AllocError>
    ensures { IfOk result (λ images. images.items ≡ replicate count (zero_lines 1)) }
{
    let mut images = Vec::with_capacity(alloc, count)?;
    for _ in 0..count {
        images.push_reserved(empty_image(alloc)?);
    }
    Ok(images)
}

/// They hold nothing.
fn empty_counts(alloc: Global, count: usize) -> Result<Vec<LogCounts>, AllocError>
    ensures { IfOk result (λ counts. counts.items ≡ replicate count no_counts) }
{
    let none = LogCounts {
        head: false,
        entries: 0,
        lines: 0,
    };
    vec![in alloc; none; count]
}

/// What is found in logs of these heads that are begun anew.
pub fn new_found(alloc: Global, heads: Vec<LogHead>) -> Result<FoundLogs, AllocError>
    ensures heads { IfOk result (λ f. f.heads.items ≡ heads.items) }
    ensures images { IfOk result (λ f. f.images.items ≡ replicate (length heads.items) (zero_lines 1)) }
    ensures counts { IfOk result (λ f. f.recovery.logs.items ≡ replicate (length heads.items) no_counts) }
    ensures nodes { IfOk result (λ f. f.recovery.nodes.items ≡ []) }
{
    let images = empty_images(alloc, heads.len())?;
    let logs = empty_counts(alloc, heads.len())?;
    Ok(FoundLogs {
        heads,
        images,
        recovery: Recovery {
            logs,
            nodes: Vec::new(alloc),
        },
    })
}
