//! Adds a plane to the values of an image, row by row, in groups of eight lanes.
ghost use Rattle.std.specs.Prelude.{◌≡◌, ◌*◌, ◌^◌, ◌<◌, length};
ghost use Rattle.std.specs.List.{All};
ghost use Rattle.jbig2_halftone.specs.inner.NextValues.{TakesPlane, TakesRow};
ghost use Rattle.jbig2_halftone.specs.inner.FunctionResults.{after_lane_rows, after_lanes};

use crate::gray_scale::groups::{LANES, next_group, next_pixel};
use jbig2_base::bitmap::Bitmap;
use jbig2_steps::Steps;
use std::alloc::Allocator;
use std::simd::prelude::*;
use std::sync::ledger::Ledger;

/// Adds row `y` of the next lower coded plane to a row of values. A value's new lowest bit is the
/// plane's pixel, inverted if the bit above it is set (T.88, C.5).
fn add_row<A: Allocator, L: Ledger>(
    plane: &Bitmap<A>,
    y: u32,
    values: &mut [u32],
    steps: &mut Steps<L>,
)
    requires row { y < plane.now.height }
    requires sized { length values.old ≡ plane.now.width }
    requires small { All (λ v. v < 2 ^ 31) values.old }
    ensures value { TakesRow plane.now y values.old values.new }
    ensures steps { steps.new ≡ after_lanes plane.now.width steps.old }
{
    let width = plane.width();
    let words = plane.row_words(y);
    let groups = width / LANES;
    for group in 0..groups {
        let place = (LANES * group) as usize;
        let shift = 56 - LANES * (group % 8);
        let byte = (words.load(group as usize / 8, steps) >> shift) % 256;
        let lanes = u32x8::from_slice(&values[place..]);
        next_group(byte as u32, lanes, steps).copy_to_slice(&mut values[place..]);
    }
    for x in LANES * groups..width {
        let black = plane.get_pixel(x, y, steps) == 1;
        let place = x as usize;
        values[place] = next_pixel(black, values[place], steps);
    }
}

/// Adds the next lower coded plane to the values of all its pixels, row by row (T.88, C.5).
pub fn add_plane<A: Allocator, L: Ledger>(
    plane: &Bitmap<A>,
    values: &mut [u32],
    steps: &mut Steps<L>,
)
    requires sized { length values.old ≡ plane.now.width * plane.now.height }
    requires small { All (λ v. v < 2 ^ 31) values.old }
    ensures value { TakesPlane plane.now values.old values.new }
    ensures steps { steps.new ≡ after_lane_rows plane.now.height plane.now.width steps.old }
{
    let columns = plane.width() as usize;
    for y in 0..plane.height() {
        let start = y as usize * columns;
        add_row(plane, y, &mut values[start..start + columns], steps);
    }
}
