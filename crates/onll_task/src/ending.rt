//! How a call of the program ends, and its exit status.

ghost use Rattle.std.specs.Prelude.{◌≡◌};
ghost use Rattle.onll_task.specs.Printed.{status_of, exit_status};

/// What a text that was put says of the call.
#[derive(Clone, Copy, Debug, PartialEq, Eq)]
pub enum Ending {
    /// Everything was done; the text is the report.
    Done,
    /// The words are no command; the text is the usage.
    Usage,
    /// A text that was read is outside its grammar.
    Refused,
    /// An image is no log, or the logs give no state.
    BadLog,
    /// A file could not be read.
    ReadFault,
    /// A file could not be written.
    WriteFault,
    /// A fence failed; the text is the report, or the one line of a header whose fence failed.
    Faulty,
    /// A report that was read is wrong; the text is the line that says where.
    Judged,
}

impl Ending {
    /// The exit status.
    pub fn status(self) -> u8
        ensures { result ≡ status_of self }
    {
        match self {
            Ending::Done => 0,
            Ending::Usage => 2,
            Ending::Refused => 3,
            Ending::BadLog => 4,
            Ending::ReadFault => 5,
            Ending::WriteFault => 6,
            Ending::Faulty => 7,
            Ending::Judged => 8,
        }
    }
}

/// How a call of the program ends.
#[derive(Clone, Copy, Debug, PartialEq, Eq)]
pub enum Exit {
    /// A text with this ending was put.
    Said(Ending),
    /// The sink failed.
    SinkFault,
    NoMemory,
}

impl Exit {
    /// The exit status.
    pub fn status(self) -> u8
        ensures { result ≡ exit_status self }
    {
        match self {
            Exit::Said(ending) => ending.status(),
            Exit::SinkFault => 6,
            Exit::NoMemory => 9,
        }
    }
}
