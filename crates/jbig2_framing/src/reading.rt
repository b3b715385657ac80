//! How strictly bytes are read.
ghost use Rattle.std.specs.Prelude.{◌≡◌, false};
ghost use Rattle.jbig2_framing.specs.Reading.{is_strict, is_salvaged, reading_of};
ghost use Rattle.jbig2_base.specs.declared.error.DecodeError.TheVariants.{OutOfMemory};

use jbig2_base::error::DecodeError;

/// How strictly bytes are read.
#[derive(Clone, Copy, Debug, PartialEq, Eq)]
pub enum Reading {
    /// Each fault is an error.
    Strict,
    /// Faults that do not stop a decoder are accepted.
    Lenient,
    /// As `Lenient`, and whatever is refused is left out.
    Salvage,
}

impl Reading {
    /// `Strict` if `strict` is true, else `Lenient`.
    pub fn of(strict: bool) -> Reading
        ensures { result ≡ reading_of strict }
    {
        if strict {
            Reading::Strict
        } else {
            Reading::Lenient
        }
    }

    /// Whether each fault is an error.
    pub fn is_strict(self) -> bool
        ensures { result ≡ is_strict self }
    {
        matches!(self, Reading::Strict)
    }

    /// Whether this error leaves out what it refuses: only in salvage, never when memory ran out.
    pub fn is_salvaged(self, error: &DecodeError) -> bool
        ensures value { result ≡ is_salvaged self error.now }
        ensures memory { is_salvaged self OutOfMemory ≡ false }
    {
        matches!(self, Reading::Salvage) && !matches!(error, DecodeError::OutOfMemory)
    }
}
