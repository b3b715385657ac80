//! Why a bitmap is not written.
ghost use Rattle.std.specs.Prelude.{◌≡◌};
ghost use Rattle.jbig2_writer.specs.declared.error.WriteError.TheVariants.{OutOfMemory};

use std::alloc::{AllocError, AllocFailed};
use thiserror::Error;

/// Why a bitmap is not written.
#[derive(Clone, Copy, Debug, PartialEq, Eq, Error)]
pub enum WriteError {
    /// The width or the height is 0 or above 65535.
    #[error("a side of the bitmap is 0 or above 65535")]
    InvalidSides,
    /// A request for memory was refused.
    #[error("out of memory")]
    OutOfMemory,
}

impl From<AllocError> for WriteError {
    ghost from_gives = { λ _ error. error ≡ OutOfMemory };

    fn from(_refusal: AllocError) -> WriteError {
        WriteError::OutOfMemory
    }
}

impl<T: Drop> From<AllocFailed<T>> for WriteError {
    ghost from_gives = { λ _ error. error ≡ OutOfMemory };

    fn from(_refusal: AllocFailed<T>) -> WriteError {
        WriteError::OutOfMemory
    }
}
