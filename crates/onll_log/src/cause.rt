//! Why a log is not made on a device.

use thiserror::Error;

/// Why a log was not made on a device.
#[derive(Clone, Copy, Debug, PartialEq, Eq, Error)]
pub enum MakeCause {
    /// The device has no line.
    #[error("the device has no line")]
    Small,
    /// This line is the first that isn't zero.
    #[error("line {line} of the device isn't zero")]
    Dirty { line: u64 },
    /// The fence failed: the header is written and not durable.
    #[error("the fence of the header failed")]
    FenceFailed,
}
