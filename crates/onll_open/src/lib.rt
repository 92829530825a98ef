//! Objects that threads share over the files of their logs: opened from what the files hold, used, and kept.
#![tactic(auto)]

mod anew;
mod devices;
mod fault;
mod keeping;
mod locking;
mod misfits;
mod named;
mod names;
mod over_files;
mod reading;
mod recovery;
mod rooms;

pub use anew::new_found;
pub use devices::{decode_logs, give_up_all, open_devices};
pub use fault::{DeviceFault, FileFault, FilesFault, NotKept, OpenFault};
pub use keeping::{CloseFault, close, keep_devices};
pub use named::{NamedFilesFault, NamedNotKept, NamedOpenFault};
pub use names::{log_lock_name, log_name};
pub use onll_rows::Described;
pub use over_files::{FoundLogs, Opened, find, open, open_with_rooms};
pub use reading::read_images;
pub use recovery::{RecoveredObject, recover};
pub use rooms::{first_empty, first_full, lines_for, rooms_left};
