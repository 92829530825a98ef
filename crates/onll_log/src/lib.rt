//! The log of one thread: its lines, the grammar by which any image of a log is read, and the log over a device.
//!
//! ```rust
//! let row = Bank::op_row(BankOp::Deposit { a: 0, x: 5 });
//! let node = Node {
//!     thread: 0,
//!     number: 1,
//!     row,
//! };
//! let head = LogHead::new(0, 1, Bank::CODE, b"bank 1\n");
//! let device = MemPmem::new(alloc, 8, Vec::new(alloc))?;
//! let Ok(mut log) = ThreadLog::make(device, head) else {
//!     return Err("no log".into());
//! };
//! assert!(rt; log.append(1, &[node]).is_ok());
//! let image = log.image(alloc)?;
//! let Ok(decoded) = decode(alloc, image.as_slice()) else {
//!     return Err("no log".into());
//! };
//! assert!(rt; decoded.head == Some(head));
//! assert!(rt; decoded.entries.as_slice().len() == 1);
//! ```
//!
//! The test `log` of `tests_uses` runs this.
#![tactic(auto)]

mod cause;
mod cursor;
mod decoded;
mod digest;
mod entry;
mod head;
mod heads;
mod image;
mod image_file;
mod laws;
mod log;
mod mask;
mod survey;
mod tested;

pub use cause::MakeCause;
pub use cursor::{EntryView, LogCursor};
pub use decoded::{Decoded, Entries, Entry, Nodes};
pub use entry::{entry_head, is_entry};
pub use head::{LogHead, format_of};
pub use heads::new_heads;
pub use image::{DecodeFault, decode, is_zero, node_of};
pub use image_file::{LONGEST_IMAGE, image_lines, read_part};
pub use laws::{cursor_law, encoded_laws, masks_law, remains_laws, torn_laws, written_laws};
pub use log::{MakeFault, ThreadLog, first_dirty, put};
pub use survey::LogSurvey;
pub use tested::{LogImage, TestedImage};
