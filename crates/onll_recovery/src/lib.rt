//! The commands over the logs of one run: an object is recovered from them, or a schedule is played, crashes, and is recovered.
#![tactic(auto)]

mod again;
mod crashed;
mod detect;
mod playing;
mod recover;
mod replay;

pub use again::again_on;
pub use detect::detect_on;
pub use playing::PlayTexts;
pub use recover::recover_on;
pub use replay::replay_on;
