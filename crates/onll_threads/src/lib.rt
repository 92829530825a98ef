//! Threads that share an object, each of which decides its next call after the last reply.
#![tactic(auto)]

mod acts;
mod crew;
mod job;
mod laws;
mod missing;
mod seat;
mod stop;
mod work;

pub use crew::{DoneWorks, Space, reserve, run_works};
pub use laws::works_law;
pub use missing::missing_thread;
pub use seat::{Begun, Place, Seat};
pub use stop::StopFlag;
pub use work::Work;
