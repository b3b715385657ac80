//! The cases of MMR data.
ghost use Rattle.std.specs.Prelude.{◌≡◌};

use crate::answer::{Modes, refused_as};
use crate::spelling::bytes_of;
use hayro_jbig2::Result;
use hayro_jbig2::parts::bitmap::{Bitmap, Steps};
use hayro_jbig2::parts::mmr::decode;
use jbig2_permit::Permit;
use std::alloc::Allocator;
use std::marker::Brand;
use std::sync::ledger::{Blank, Ledger};

/// The expected result of `mmr::decode` in these modes.
pub struct MmrCase {
    pub modes: Modes,
    /// At most 8.
    pub width: u32,
    pub height: u32,
    pub bytes: &'static str,
    pub answer: Result<ExpectedRows>,
}

/// The expected result of MMR data.
#[derive(Clone, Copy)]
pub struct ExpectedRows {
    /// The number of bytes that are used.
    pub used: usize,
    /// The rows, a byte with eight pixels for each, the first in the highest bit, 1 for black.
    pub rows: &'static [u8],
}

/// Whether a case holds. The only error is `DecodeError::OutOfMemory`.
pub fn mmr_holds<A: Allocator + Clone>(alloc: &A, case: &MmrCase) -> Result<bool> {
    let Some(bytes) = bytes_of(alloc, case.bytes)? else {
        return Ok(false);
    };
    for strict in [true, false] {
        if case.modes.has(strict) {
            if !data_holds::<A, Brand>(alloc, Blank::new(7), case, &bytes, strict)? {
                return Ok(false);
            }
        }
    }
    Ok(true)
}

/// Whether the bytes of a case have its result in one mode.
fn data_holds<A: Allocator + Clone, L: Ledger>(
    alloc: &A,
    blank: Blank,
    case: &MmrCase,
    bytes: &[u8],
    strict: bool,
) -> Result<bool>
    requires name { blank.name ≡ L.name }
    requires parts { blank.parts ≡ L.parts }
    requires enough { blank.parts ≡ 7 }
{
    let mut steps = Steps::<L>::new(Permit::grant(), blank);
    let mut bitmap = match Bitmap::new(alloc.clone()?, case.width, case.height, &mut steps) {
        Ok(bitmap) => bitmap,
        Err(error) => return refused_as(error, None),
    };
    let used = match decode(&mut bitmap, bytes, strict, &mut steps) {
        Ok(used) => used,
        Err(error) => return refused_as(error, case.answer.as_ref().err()),
    };
    let Ok(expected) = &case.answer else {
        return Ok(false);
    };
    Ok(used == expected.used && rows_are(&bitmap, expected.rows, &mut steps))
}

/// Whether a bitmap of at most eight columns has these rows and no others.
fn rows_are<A: Allocator + Clone, L: Ledger>(
    bitmap: &Bitmap<A>,
    rows: &[u8],
    steps: &mut Steps<L>,
) -> bool {
    if bitmap.width() > 8 || rows.len() != bitmap.height() as usize {
        return false;
    }
    (0..bitmap.height()).zip(rows).all(|(y, row)| bitmap.load_pixels(0, y, 8, steps)
        == u64::from(*row))
}
