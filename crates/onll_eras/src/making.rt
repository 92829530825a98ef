//! The command `areas`: both areas are made.

ghost use Rattle.std.specs.Prelude.{◌≡◌, IfOk};
ghost use Rattle.onll_open.specs.Names.{log_names};
ghost use Rattle.onll_task.specs.Doing.{DoesStage, Fulfils};
ghost use Rattle.onll_eras.specs.EraReports.{areas_text};
ghost use Rattle.onll_eras.specs.EraJob.{empty_stage, areas_work};

use onll_open::log_name;
use onll_outside::Store;
use onll_task::{Stop, write_bytes};
use std::alloc::{AllocError, Global};

/// Makes both areas empty files, the even one first. It stops at the first that can't be written.
fn write_areas<S: Store>(alloc: Global, ckpt: &str, store: &mut S) -> Result<(), Stop>
    ensures { DoesStage (log_names ckpt.now 0 2) (S.seen store.old) (S.seen store.new) (empty_stage ckpt.now) (λ done. done) result }
{
    let even = log_name(alloc, ckpt, 0)?;
    match write_bytes(alloc, &even, &[], store) {
        Ok(()) => {}
        Err(stop) => return Err(stop),
    }
    let odd = log_name(alloc, ckpt, 1)?;
    write_bytes(alloc, &odd, &[], store)
}

/// What is said of areas that were made.
fn areas_text(alloc: Global, ckpt: &str) -> Result<Vec<u8>, AllocError>
    ensures { IfOk result (λ text. text.items ≡ areas_text ckpt.now) }
{
    let mut text = Vec::new(alloc);
    text.extend_from_slice(b"areas ")?;
    text.extend_from_slice(ckpt.as_bytes())?;
    text.extend_from_slice(b"\n")?;
    Ok(text)
}

/// Makes both areas of this name empty files, and says so. It stops at the first that can't be written, and names it.
pub fn make_areas<S: Store>(alloc: Global, ckpt: &str, store: &mut S) -> Result<Vec<u8>, Stop>
    ensures { let work = areas_work ckpt.now in
        Fulfils work.writes (S.seen store.old) (S.seen store.new) work.task result }
{
    match write_areas(alloc, ckpt, store) {
        Ok(()) => {}
        Err(stop) => return Err(stop),
    }
    let text = areas_text(alloc, ckpt)?;
    Ok(text)
}
