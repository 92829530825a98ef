//! Checkpoints as files: logs that are begun and checkpoints that are saved over devices of a store, and the newest of two areas.
//!
//! ```rust
//! let mut store = MemStore::new(Vec::new(alloc), Vec::new(alloc), Vec::new(alloc));
//! let mut text = Vec::new(alloc);
//! text.extend_from_slice(b"bank 1\naccount 0 5\n")?;
//! let checkpoint = Checkpoint::of(1, 2, text);
//! assert!(rt; keep_checkpoint(alloc, "k.1", &checkpoint, &mut store).is_ok());
//! let Ok(odd) = read_area(alloc, "k.1", &mut store) else {
//!     return Err("no area".into());
//! };
//! let Some(found) = newest(None, odd) else {
//!     return Err("no checkpoint".into());
//! };
//! assert!(rt; found.number() == 1);
//! ```
//!
//! The test `areas` of `tests_uses` runs this.
#![tactic(auto)]

mod area;
mod fault;
mod keeping;
mod laws;

pub use area::{LONGEST_AREA, newest, read_area};
pub use fault::KeepFault;
pub use keeping::{keep_checkpoint, keep_header};
pub use laws::area_laws;
