//! Checkpoints: the state of an object at a place, over a device or in the lines of one, so that logs can begin anew after it.
//!
//! ```rust
//! let mut text = Vec::new(alloc);
//! text.extend_from_slice(b"bank 1\naccount 0 5\n")?;
//! let checkpoint = Checkpoint::of(1, 2, text);
//! let lines = lines_for(checkpoint.text().len() as u64);
//! let device = MemPmem::new(alloc, lines, Vec::new(alloc))?;
//! let Ok(device) = save(device, &checkpoint) else {
//!     return Err("not saved".into());
//! };
//! let image = device.image(alloc, 0)?;
//! let Some(found) = load(alloc, image.as_slice())? else {
//!     return Err("no checkpoint".into());
//! };
//! assert!(rt; found.place() == 2);
//! assert!(rt; found.text() == checkpoint.text());
//! ```
//!
//! The test `checkpoint` of `tests_uses` runs this.
#![tactic(auto)]

mod cause;
mod first_line;
mod laws;
mod loading;
mod saving;
mod state;
mod text_lines;

pub use cause::SaveCause;
pub use laws::{crash_laws, format_laws};
pub use loading::load;
pub use saving::{SaveFault, save};
pub use state::{Checkpoint, LONGEST_SAVED};
pub use text_lines::lines_for;
