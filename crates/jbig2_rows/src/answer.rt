//! What is expected of a case, and in which modes.
use crate::call::Call;
use hayro_jbig2::{DecodeError, Result};

/// The modes that a case is run in.
#[derive(Clone, Copy, Debug, PartialEq, Eq)]
pub enum Modes {
    Strict,
    Lenient,
    Both,
}

impl Modes {
    pub fn has(self, strict: bool) -> bool {
        match self {
            Modes::Strict => strict,
            Modes::Lenient => !strict,
            Modes::Both => true,
        }
    }
}

/// The expected result of a page.
pub enum Answer {
    /// It is drawn by exactly these calls.
    Calls(&'static [Call]),
    /// Its constructor returns this error.
    Refused(DecodeError),
    /// Decoding returns this error and makes no call.
    Undrawn(DecodeError),
}

/// Whether this error was expected. An unexpected `OutOfMemory` is returned.
pub fn refused_as(error: DecodeError, expected: Option<&DecodeError>) -> Result<bool> {
    if expected == Some(&error) {
        return Ok(true);
    }
    if error == DecodeError::OutOfMemory {
        return Err(error);
    }
    Ok(false)
}
