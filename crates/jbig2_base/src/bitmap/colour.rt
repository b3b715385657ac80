//! Finds the next pixel of a colour in a row, word by word.
ghost use Rattle.std.specs.Prelude.{◌≡◌, ℕ, ◌-◌, ◌^◌, ◌<◌, ◌≤◌, not};
ghost use Rattle.jbig2_base.specs.Counts.{words_loaded, words_searched};
ghost use Rattle.jbig2_base.specs.Grid.{pixel_at};
ghost use Rattle.jbig2_base.specs.Colour.{IsFirst};
ghost use Rattle.jbig2_base.specs.Bits.{bit};

use crate::bitmap::Bitmap;
use jbig2_steps::Steps;
use std::alloc::Allocator;
use std::sync::ledger::Ledger;

/// The first column from `from` on and before `to` whose pixel in row `y` is black, or white if
/// `black` is false; else `to`. A row outside is white. Each 64 columns that are searched take one
/// load.
pub fn find_colour<A: Allocator, L: Ledger>(
    bitmap: &Bitmap<A>,
    y: u32,
    from: u32,
    to: u32,
    black: bool,
    steps: &mut Steps<L>,
) -> u32
    requires order { from ≤ to }
    requires inside { to ≤ bitmap.now.width }
    ensures value { IsFirst (λ x. pixel_at bitmap.now x y) black from to result }
    ensures steps { steps.new ≡ words_loaded (words_searched from to result) steps.old }
{
    let mut x = from;
    while x < to {
        let count = (to - x).min(64);
        let pixels = bitmap.load_pixels(x, y, count, steps);
        let others = leading_others(pixels, count, black);
        x += others;
        if others < count {
            return x;
        }
    }
    to
}

/// How many of the lowest `count` bits come before the first of the colour, from the high end.
#[inline(always)]
fn leading_others(pixels: u64, count: u32, black: bool) -> u32
    requires some { 1 ≤ count }
    requires few { count ≤ 64 }
    requires bound { pixels < 2 ^ count }
    ensures within { result ≤ count }
    ensures before { (k : ℕ) → k < result → bit pixels (count - 1 - k) ≡ not black }
    ensures found { result < count → bit pixels (count - 1 - result) ≡ black }
{
    let of_colour = if black {
        pixels
    } else {
        pixels ^ (u64::MAX >> (64 - count))
    };
    of_colour.leading_zeros() - (64 - count)
}
