//! How runs end: their status, and what is written to standard error.
ghost use Rattle.std.specs.Prelude.{◌≡◌, Ok, Err, if◌then◌else◌};
ghost use Rattle.jbig2_base.specs.declared.error.DecodeError.TheVariants.{OutOfMemory};
ghost use Rattle.jbig2_program.specs.Printed.{WritesLine, fault_line, status_of, error_line, usage_line};
ghost use Rattle.jbig2_program.specs.declared.fault.Fault.TheVariants.{Decode};

use crate::fault::Fault;
use hayro_jbig2::DecodeError;
use std::io::Write;

const USAGE: &str = "usage: jbig2-decode [--strict] pages|embedded FILE | calls|pbm FILE INDEX";

/// How a run ends.
#[derive(Drop)]
pub struct RunEnd {
    /// The status of the process: 0, 1 after a fault, 2 where the words are not those of a run.
    pub status: u8,
    /// Whether all of the run's message to standard error was written.
    pub is_written: bool,
}

impl RunEnd {
    /// The end where the words are not those of a run: writes the usage to standard error.
    pub fn wrong_words<E: Write>(err: &mut E) -> RunEnd
        ensures status { result.status ≡ 2 }
        ensures line { WritesLine result.is_written usage_line
            (E.contents err.old) (E.contents err.new) }
    {
        let is_written = writeln!(err, "{USAGE}").is_ok();
        RunEnd {
            status: 2,
            is_written,
        }
    }

    /// The end of a run that could not get its words: memory ran out, or they are no text.
    pub fn without_words<E: Write>(refused: bool, err: &mut E) -> RunEnd
        ensures status { result.status ≡ if refused then 1 else 2 }
        ensures line { WritesLine result.is_written
            (if refused then fault_line (Decode OutOfMemory) else usage_line)
            (E.contents err.old) (E.contents err.new) }
    {
        if refused {
            return RunEnd::of(Err(Fault::Decode(DecodeError::OutOfMemory)), err);
        }
        RunEnd::wrong_words(err)
    }

    /// The end of a run with this result: writes its fault to standard error.
    pub fn of<E: Write>(ended: Result<(), Fault>, err: &mut E) -> RunEnd
        ensures status { result.status ≡ status_of ended }
        ensures line { WritesLine result.is_written (error_line ended)
            (E.contents err.old) (E.contents err.new) }
    {
        match ended {
            Ok(()) => RunEnd {
                status: 0,
                is_written: true,
            },
            // A failing output is not reported on standard error.
            Err(Fault::Unwritable) => RunEnd {
                status: 1,
                is_written: true,
            },
            Err(fault) => {
                let is_written = writeln!(err, "error: {fault}").is_ok();
                RunEnd {
                    status: 1,
                    is_written,
                }
            }
        }
    }
}
