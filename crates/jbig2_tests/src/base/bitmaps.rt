//! Tests combinations of bitmaps: row R10.1.
ghost use Rattle.std.specs.Prelude.{◌≡◌};

use jbig2_base::bitmap::Bitmap;
use jbig2_base::bitmap::operator::CombinationOperator;
use jbig2_base::error::{DecodeError, Result};
use jbig2_permit::Permit;
use jbig2_steps::Steps;
use std::alloc::Global;
use std::marker::Brand;
use std::sync::ledger::{Blank, Ledger};

const OPERATORS: [CombinationOperator; 5] = [
    CombinationOperator::Or,
    CombinationOperator::And,
    CombinationOperator::Xor,
    CombinationOperator::Xnor,
    CombinationOperator::Replace,
];

const WIDTHS: [u32; 9] = [7, 8, 9, 31, 32, 33, 63, 64, 65];

/// The number of rows of both bitmaps.
const HEIGHT: u32 = 3;

/// The seeds for the pixels of the page and of the source.
const PAGE: u32 = 0x9E37_79B9;

const SOURCE: u32 = 0x7F4A_7C15;

/// Whether a pixel is black; the pixels look random.
fn is_black(seed: u32, x: u32, y: u32) -> bool {
    let mixed = (x.wrapping_mul(40503) ^ y.wrapping_mul(25717)).wrapping_mul(seed);
    (mixed >> 17) % 2 == 1
}

/// Draws these pixels onto a bitmap.
fn speckle<L: Ledger>(
    bitmap: &mut Bitmap<Global>,
    width: u32,
    seed: u32,
    steps: &mut Steps<L>,
) -> Result<()> {
    bitmap.reinitialize(width, HEIGHT, false, steps)?;
    for y in 0..HEIGHT {
        for x in 0..width {
            bitmap.set_pixel(x, y, is_black(seed, x, y), steps);
        }
    }
    Ok(())
}

/// The pixel of a source of this width, at a place that may lie outside.
fn source_pixel(width: u32, x: i64, y: i64) -> Option<bool> {
    let column = u32::try_from(x).ok()?;
    let row = u32::try_from(y).ok()?;
    if column >= width || row >= HEIGHT {
        return None;
    }
    Some(is_black(SOURCE, column, row))
}

/// The pixel of the page after it is combined with this pixel of the source, if there is one.
fn combined_pixel(operator: CombinationOperator, page: bool, source: Option<bool>) -> bool {
    let Some(source) = source else {
        return page;
    };
    match operator {
        CombinationOperator::Or => page | source,
        CombinationOperator::And => page & source,
        CombinationOperator::Xor => page ^ source,
        CombinationOperator::Xnor => page == source,
        CombinationOperator::Replace => source,
    }
}

/// Whether the page is what combining pixel by pixel gives.
fn is_combined<L: Ledger>(
    page: &Bitmap<Global>,
    operator: CombinationOperator,
    place: (i32, i32),
    steps: &mut Steps<L>,
) -> bool {
    let (left, top) = (i64::from(place.0), i64::from(place.1));
    for y in 0..page.height() {
        for x in 0..page.width() {
            let source = source_pixel(page.width(), i64::from(x) - left, i64::from(y) - top);
            let wanted = combined_pixel(operator, is_black(PAGE, x, y), source);
            if (page.get_pixel(x, y, steps) == 1) != wanted {
                return false;
            }
        }
    }
    true
}

/// Whether each operator gives the same as combining pixel by pixel, with the source at one place.
fn each_operator_agrees<L: Ledger>(
    page: &mut Bitmap<Global>,
    source: &Bitmap<Global>,
    place: (i32, i32),
    steps: &mut Steps<L>,
) -> Result<bool> {
    for operator in OPERATORS {
        speckle(page, source.width(), PAGE, steps)?;
        page.combine(source, place.0, place.1, operator, steps);
        if !is_combined(page, operator, place, steps) {
            return Ok(false);
        }
    }
    Ok(true)
}

/// Whether that is so at each place of the source.
fn each_place_agrees<L: Ledger>(
    page: &mut Bitmap<Global>,
    source: &Bitmap<Global>,
    steps: &mut Steps<L>,
) -> Result<bool> {
    for x in -70..71 {
        for y in -4..5 {
            if !each_operator_agrees(page, source, (x, y), steps)? {
                return Ok(false);
            }
        }
    }
    Ok(true)
}

/// Whether that is so for each width. Both bitmaps are made anew for each.
fn each_width_agrees<L: Ledger>(
    page: &mut Bitmap<Global>,
    source: &mut Bitmap<Global>,
    blank: Blank,
) -> Result<bool>
    requires name { blank.name ≡ L.name }
    requires parts { blank.parts ≡ L.parts }
    requires enough { blank.parts ≡ 7 }
{
    let mut steps: Steps<L> = Steps::new(Permit::grant(), blank);
    for width in WIDTHS {
        speckle(source, width, SOURCE, &mut steps)?;
        if !each_place_agrees(page, source, &mut steps)? {
            return Ok(false);
        }
    }
    Ok(true)
}

/// Compares combinations with a copy pixel by pixel. If memory runs out, everything is done once more.
#[test]
fn combinations_agree_with_a_copy_by_pixels(rt: HostRuntime) {
    let mut page = Bitmap::new_empty(rt.alloc());
    let mut source = Bitmap::new_empty(rt.alloc());
    let mut agree = each_width_agrees::<Brand>(&mut page, &mut source, Blank::new(7));
    if agree == Err(DecodeError::OutOfMemory) {
        agree = each_width_agrees::<Brand>(&mut page, &mut source, Blank::new(7));
    }
    assert!(rt; agree == Ok(true));
}
