//! Cases of combined bitmaps.
ghost use Rattle.std.specs.Prelude.{◌≡◌};

use hayro_jbig2::Result;
use hayro_jbig2::parts::bitmap::operator::CombinationOperator;
use hayro_jbig2::parts::bitmap::{Bitmap, Steps};
use jbig2_permit::Permit;
use std::alloc::Allocator;
use std::marker::Brand;
use std::sync::ledger::{Blank, Ledger};

/// Whether a white bitmap of 8 by 8 stays white after a black one of 8 by 8 is combined with it by Or at this place.
pub fn stays_white<A: Allocator + Clone>(alloc: &A, x: i32, y: i32) -> Result<bool> {
    is_white_after::<A, Brand>(alloc, x, y, Blank::new(7))
}

fn is_white_after<A: Allocator + Clone, L: Ledger>(
    alloc: &A,
    x: i32,
    y: i32,
    blank: Blank,
) -> Result<bool>
    requires name { blank.name ≡ L.name }
    requires parts { blank.parts ≡ L.parts }
    requires enough { blank.parts ≡ 7 }
{
    let mut steps: Steps<L> = Steps::new(Permit::grant(), blank);
    let mut page = Bitmap::new(alloc.clone()?, 8, 8, &mut steps)?;
    let black = Bitmap::new_with(alloc.clone()?, 8, 8, true, &mut steps)?;
    page.combine(&black, x, y, CombinationOperator::Or, &mut steps);
    for row in 0..8 {
        if page.load_pixels(0, row, 8, &mut steps) != 0 {
            return Ok(false);
        }
    }
    Ok(true)
}
