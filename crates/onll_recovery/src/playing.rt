//! What a schedule is played on.

use onll_model::{Call, Object};
use onll_text::Schedule;

/// The bytes that say an object's initial state, and the names of the files of a play on it.
#[derive(Clone, Copy, Debug)]
pub struct PlayTexts<'a> {
    /// The bytes that say the object's initial state.
    pub init: &'a [u8],
    /// The name of the schedule's file.
    pub schedule: &'a str,
    /// The name of the logs' files.
    pub logs: &'a str,
    /// The names of the scripts' files.
    pub scripts: &'a [String],
}

/// Scripts, and the schedule by which they are played.
#[derive(Drop)]
pub(crate) struct Play<O: Object> {
    pub scripts: Vec<Vec<Call<O>>>,
    pub plan: Schedule,
}
