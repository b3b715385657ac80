//! How the runs of the programs end: their status, and what they write to standard error.
ghost use Rattle.std.specs.Prelude.{◌≡◌, ◌≤◌};

use hayro_jbig2::DecodeError;
use std::alloc::AllocError;
use std::io;
use std::io::Write;

/// Why a run stops before its end.
#[derive(Clone, Copy)]
pub(crate) enum Fault {
    OutOfMemory,
    Unwritable,
}

impl From<DecodeError> for Fault {
    fn from(_refusal: DecodeError) -> Fault {
        Fault::OutOfMemory
    }
}

impl From<AllocError> for Fault {
    fn from(_refusal: AllocError) -> Fault {
        Fault::OutOfMemory
    }
}

impl From<io::Error> for Fault {
    fn from(_error: io::Error) -> Fault {
        Fault::Unwritable
    }
}

/// The status of a run: 0 where everything holds, else 1.
pub(crate) fn status_of<E: Write>(outcome: Result<bool, Fault>, err: &mut E) -> u8
    ensures { result ≤ 1 }
{
    match outcome {
        Ok(true) => 0,
        Ok(false) | Err(Fault::Unwritable) => 1,
        Err(Fault::OutOfMemory) => refused_memory(err),
    }
}

/// The status of a run that could not get its words: memory ran out, or they are no text.
pub fn status_without_words<E: Write>(refused: bool, usage: &str, err: &mut E) -> u8 {
    if refused {
        return refused_memory(err);
    }
    refused_words(usage, err)
}

/// The status where the words are not those of a run. Writes the usage to standard error.
pub(crate) fn refused_words<E: Write>(usage: &str, err: &mut E) -> u8
    ensures { result ≡ 2 }
{
    let _ = writeln!(err, "{usage}");
    2
}

fn refused_memory<E: Write>(err: &mut E) -> u8
    ensures { result ≡ 1 }
{
    let _ = writeln!(err, "error: out of memory");
    1
}
