//! The errors of a decoder that takes its input from a reader.
ghost use Rattle.std.specs.Prelude.{◌≡◌};
ghost use Rattle.jbig2_base.specs.declared.error.DecodeError.TheVariants.{OutOfMemory};
ghost use Rattle.hayro_jbig2.specs.declared.jbig2_error.Jbig2Error.TheVariants.{Decode};

use jbig2_base::error::DecodeError;
use std::alloc::AllocError;
use std::io;
use thiserror::Error;

/// Why a decoder over a reader could not be made, or could not give its page.
#[derive(Debug, Drop, Error)]
pub enum Jbig2Error {
    /// The reader failed, or it never came to an end.
    #[error(transparent)]
    Io(io::Error),
    /// What was read is no page, or memory ran out.
    #[error(transparent)]
    Decode(DecodeError),
}

impl From<DecodeError> for Jbig2Error {
    ghost from_gives = { λ inner error. error ≡ Decode inner };

    fn from(inner: DecodeError) -> Jbig2Error {
        Jbig2Error::Decode(inner)
    }
}

impl From<AllocError> for Jbig2Error {
    ghost from_gives = { λ _ error. error ≡ Decode OutOfMemory };

    fn from(_refusal: AllocError) -> Jbig2Error {
        Jbig2Error::Decode(DecodeError::OutOfMemory)
    }
}
