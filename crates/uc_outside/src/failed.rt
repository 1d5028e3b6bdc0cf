//! The one error of a device.
use thiserror::Error;

/// A device failed. Its count of faults rose in the call that answers this.
#[derive(Clone, Copy, Debug, PartialEq, Eq, Drop, Error)]
#[error("the device failed")]
pub struct Failed;
