//! Tests the generic regions of the example of T.88, H.1.
ghost use Rattle.std.specs.Prelude.{◌≡◌};

use jbig2_base::bitmap::Bitmap;
use jbig2_base::error::{DecodeError, Result};
use jbig2_base::reader::Reader;
use jbig2_permit::Permit;
use jbig2_region::generic::{decode, parse};
use jbig2_steps::Steps;
use std::alloc::Global;
use std::marker::Brand;
use std::sync::ledger::{Blank, Ledger};

/// By MMR.
const MMR: &[u8] = &[
    0, 0, 0, 0x36, 0, 0, 0, 0x2C, 0, 0, 0, 4, 0, 0, 0, 0x0B, 0, 1, 0x26, 0xA0, 0x71, 0xCE, 0xA7,
    0xFF, 0xFF, 0xFF, 0xFF, 0xFF, 0xFF, 0xFF, 0xFF, 0xFF, 0xFF, 0xFF, 0xFF, 0xFF, 0xFF, 0xFF, 0xFF,
    0xFF, 0xFF, 0xFF, 0xF8, 0xF0,
];

/// By the arithmetic coder, with typical prediction.
const ARITHMETIC: &[u8] = &[
    0, 0, 0, 0x36, 0, 0, 0, 0x2C, 0, 0, 0, 4, 0, 0, 0, 0x0B, 0, 8, 3, 0xFF, 0xFD, 0xFF, 2, 0xFE,
    0xFE, 0xFE, 4, 0xEE, 0xED, 0x87, 0xFB, 0xCB, 0x2B, 0xFF, 0xAC,
];

/// A row of 54 black pixels, and one whose first two and last two pixels are black.
const EDGE: u64 = (1 << 54) - 1;

const SIDES: u64 = (0b11 << 52) | 0b11;

/// Whether a bitmap of 54 by 44 has a black frame, two pixels wide, and is white inside it.
fn is_frame<L: Ledger>(bitmap: &Bitmap<Global>, steps: &mut Steps<L>) -> bool {
    for y in 0..44 {
        let row = if y < 2 || y >= 42 { EDGE } else { SIDES };
        if bitmap.load_pixels(0, y, 54, steps) != row {
            return false;
        }
    }
    bitmap.width() == 54 && bitmap.height() == 44
}

/// Whether a region's data gives the frame.
fn draws_frame<L: Ledger>(alloc: Global, data: &[u8], steps: &mut Steps<L>) -> Result<bool> {
    let header = parse(&mut Reader::new(data), false, true)?;
    let mut contexts = Vec::new(alloc);
    let region = decode(alloc, &header, &mut contexts, steps)?;
    Ok(is_frame(&region.bitmap, steps))
}

/// Whether both regions give the frame.
fn frames_hold<L: Ledger>(alloc: Global, blank: Blank) -> Result<bool>
    requires name { blank.name ≡ L.name }
    requires parts { blank.parts ≡ L.parts }
    requires enough { blank.parts ≡ 7 }
{
    let mut steps: Steps<L> = Steps::new(Permit::grant(), blank);
    Ok(draws_frame(alloc, MMR, &mut steps)? && draws_frame(alloc, ARITHMETIC, &mut steps)?)
}

#[test]
fn frames_of_the_example(rt: HostRuntime) {
    let mut hold = frames_hold::<Brand>(rt.alloc(), Blank::new(7));
    if hold == Err(DecodeError::OutOfMemory) {
        hold = frames_hold::<Brand>(rt.alloc(), Blank::new(7));
    }
    assert!(rt; hold == Ok(true));
}
