//! What is asked of the files of eras, and the newest era as it was read.

ghost use Rattle.std.specs.Prelude.{◌≡◌, ◌<◌};
ghost use Rattle.onll_eras.specs.EraReports.{newest_in, number_in, place_in};

use crate::names::EraFiles;
use onll_checkpoint::Checkpoint;

/// What is asked of the newest era.
#[derive(Clone, Copy, Debug, PartialEq, Eq)]
pub(crate) enum Asked {
    /// What its logs give.
    Restore,
    /// That the next one begins with that.
    Checkpoint,
}

/// What is asked, of which files, with the logs of how many threads.
#[derive(Clone, Copy, Debug)]
pub(crate) struct EraCall<'a> {
    pub(crate) asked: Asked,
    pub(crate) files: EraFiles<'a>,
    pub(crate) threads: u64,
}

/// The newest era: its checkpoint, where there is one, the text of its initial state, and the name of its logs.
#[derive(Clone, Copy)]
pub(crate) struct NewestEra<'a> {
    pub(crate) newest: &'a Option<Checkpoint>,
    pub(crate) text: &'a [u8],
    pub(crate) source: &'a str,
    pub(crate) logs: &'a str,
}

impl NewestEra<'_> {
    /// Its number, from 0.
    pub(crate) fn number(&self) -> u64
        ensures { result ≡ number_in (newest_in self.now.newest.now) }
    {
        match self.newest {
            Some(checkpoint) => checkpoint.number(),
            None => 0,
        }
    }

    /// How many updates the eras before it had.
    pub(crate) fn place(&self) -> u64
        ensures { result ≡ place_in (newest_in self.now.newest.now) }
    {
        match self.newest {
            Some(checkpoint) => checkpoint.place(),
            None => 0,
        }
    }
}
