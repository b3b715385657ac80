//! The faults of a run.
ghost use Rattle.std.specs.Prelude.{◌≡◌, Some};
ghost use Rattle.jbig2_base.specs.declared.error.DecodeError.TheVariants.{OutOfMemory};
ghost use Rattle.jbig2_program.specs.Printed.{fault_text};
ghost use Rattle.jbig2_program.specs.declared.fault.Fault.TheVariants.{Decode};

use hayro_jbig2::DecodeError;
use std::alloc::AllocError;
use std::fmt;
use thiserror::Error;

/// Why a run stops before its end.
#[derive(Debug, Drop, PartialEq, Eq, Error)]
pub enum Fault {
    Unreadable,
    NoSuchPage,
    Decode(DecodeError),
    /// The output could not be written: nothing more is printed.
    Unwritable,
}

impl fmt::Display for Fault {
    ghost output = { λ fault. Some (fault_text fault) };

    fn fmt<W: fmt::Write>(&self, f: &mut fmt::Formatter<W>) -> fmt::Result {
        match self {
            Fault::Unreadable => f.write_str("cannot read file"),
            Fault::NoSuchPage => f.write_str("no such page"),
            Fault::Decode(error) => fmt::Display::fmt(error, f),
            Fault::Unwritable => f.write_str("cannot write output"),
        }
    }
}

impl From<DecodeError> for Fault {
    ghost from_gives = { λ error fault. fault ≡ Decode error };

    fn from(error: DecodeError) -> Fault {
        Fault::Decode(error)
    }
}

impl From<AllocError> for Fault {
    ghost from_gives = { λ _ fault. fault ≡ Decode OutOfMemory };

    fn from(_refusal: AllocError) -> Fault {
        Fault::Decode(DecodeError::OutOfMemory)
    }
}
