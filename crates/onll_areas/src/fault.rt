//! Why a device was not kept as a file.

use onll_outside::OutsideFault;
use thiserror::Error;

/// Why a device with lines that are to be durable was not kept as a file.
#[derive(Clone, Copy, Debug, PartialEq, Eq, Error)]
pub enum KeepFault {
    /// A call of the store failed, or memory could not be had.
    #[error("the device could not be made or kept")]
    Outside(OutsideFault),
    /// A fence failed, and the device was given up.
    #[error("a fence failed")]
    FenceFailed,
}
