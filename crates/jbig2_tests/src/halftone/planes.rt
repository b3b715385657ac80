//! Tests an image of several planes by the arithmetic coder, with a pixel that is skipped.
//!
//! The planes are given as their decisions, each with the number of its context. In template 3 with its nominal
//! adaptive pixel, bits 0 to 3 of that number are the four pixels to the left, the nearest first. Bits 4 to 9 are those
//! of the row above, from two columns to the right to three to the left (T.88, Figure 6).
ghost use Rattle.std.specs.Prelude.{◌≡◌};

use jbig2_base::bitmap::Bitmap;
use jbig2_base::error::{DecodeError, Result};
use jbig2_coder::mq::encode_list;
use jbig2_halftone::gray_scale::{GrayScaleParams, decode_gray_scale_image};
use jbig2_permit::Permit;
use jbig2_region::template::Template;
use jbig2_steps::Steps;
use std::alloc::Global;
use std::marker::Brand;
use std::sync::ledger::{Blank, Ledger};

// An image of 3 by 2 whose pixel in the middle of the lower row is skipped:
//
//     values   high plane   low plane, as it is coded
//     3 0 1    # . .        . . #
//     2   3    #   #        #   .
const PLANES: &[(u16, bool)] = &[
    (0, true),
    (0b1, false),
    (0b10, false),
    (0b100_0000, true),
    (0b1_0000_0010, true),
    (0, false),
    (0, false),
    (0, true),
    (0b1_0000, true),
    (0b100_0010, false),
];

const VALUES: &[u32] = &[3, 0, 1, 2, 0, 3];

/// Whether bytes are decoded to `VALUES`, where the pixels of `skip` are skipped.
fn values_hold<L: Ledger>(
    alloc: Global,
    bytes: &[u8],
    skip: &Bitmap<Global>,
    steps: &mut Steps<L>,
) -> Result<bool> {
    let params = GrayScaleParams {
        use_mmr: false,
        bits_per_pixel: 2,
        width: 3,
        height: 2,
        template: Template::Template3,
        skip_mask: Some(skip),
        strict: true,
    };
    let mut contexts = Vec::new(alloc);
    let values = decode_gray_scale_image(alloc, bytes, &params, &mut contexts, steps)?;
    Ok(values.as_slice() == VALUES)
}

/// Whether the image of `PLANES` has the values `VALUES`.
fn image_holds<L: Ledger>(alloc: Global, blank: Blank, bytes: &[u8]) -> Result<bool>
    requires name { blank.name ≡ L.name }
    requires parts { blank.parts ≡ L.parts }
    requires enough { blank.parts ≡ 7 }
{
    let mut steps: Steps<L> = Steps::new(Permit::grant(), blank);
    let mut skip = Bitmap::new(alloc, 3, 2, &mut steps)?;
    skip.set_pixel(1, 1, true, &mut steps);
    values_hold(alloc, bytes, &skip, &mut steps)
}

fn planes_hold(alloc: Global) -> Result<bool> {
    let bytes = encode_list(alloc, PLANES)?;
    image_holds::<Brand>(alloc, Blank::new(7), &bytes)
}

#[test]
fn planes_with_a_skipped_pixel(rt: HostRuntime) {
    let mut holds = planes_hold(rt.alloc());
    if holds == Err(DecodeError::OutOfMemory) {
        holds = planes_hold(rt.alloc());
    }
    assert!(rt; holds == Ok(true));
}
