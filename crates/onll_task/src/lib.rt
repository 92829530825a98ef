//! What every command does, and how it ends: files are read, files are written, devices are kept as files, and a report is made or
//! something else is said in its place.
#![tactic(auto)]

mod answer;
mod devices;
mod ending;
mod faults;
mod images;
mod nodes;
mod recovered;
mod texts;

pub use answer::Stop;
pub use devices::kept_or;
pub use ending::{Ending, Exit};
pub use faults::{bad_logs, not_resumed};
pub use images::{KeptImages, into_lines, read_images, write_image};
pub use nodes::{put_count, put_logs, put_nodes, put_resumed};
pub use recovered::{recover_files, recover_logs, recover_tested};
pub use texts::{
    InitText, image_file, init_file, read_bytes, read_lines, schedule_file, script_file,
    script_files, write_bytes,
};
