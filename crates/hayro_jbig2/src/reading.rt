//! Reads all bytes of a reader.
ghost use Rattle.std.specs.Prelude.{IfErr};
ghost use Rattle.hayro_jbig2.specs.Readers.{ReadsAll, IsLasting};

use crate::jbig2_error::Jbig2Error;
use std::alloc::Allocator;
use std::io;
use std::io::{ErrorKind, Read};

/// How many bytes one read asks for.
const BLOCK: usize = 4096;

/// Reads up to the end, and goes on after an interruption.
///
/// Returns the reader's error, or `ErrorKind::TimedOut` where no end comes within 2^64 - 1 reads.
/// If memory runs out here, the error is `Jbig2Error::Decode`. If the reader reports that its own
/// memory ran out, it is `Jbig2Error::Io`. `Read::read_to_end` cannot distinguish the two.
pub fn read_all<A: Allocator, R: Read>(alloc: A, reader: &mut R) -> Result<Vec<u8, A>, Jbig2Error>
    ensures bytes { ReadsAll (λ v. v.items) (R.remaining reader.old) result }
    ensures lasting { IfErr result IsLasting }
{
    let mut bytes = Vec::new(alloc);
    let mut block = [0; BLOCK];
    for _turn in 0..u64::MAX {
        match reader.read(&mut block) {
            Ok(0) => return Ok(bytes),
            Ok(count) => bytes.extend_from_slice(&block[..count])?,
            Err(error) => {
                if error.kind() != ErrorKind::Interrupted {
                    return Err(Jbig2Error::Io(error));
                }
            }
        }
    }
    Err(Jbig2Error::Io(io::Error::from(ErrorKind::TimedOut)))
}
