//! The changing elements of rows (T.6, 2.2.1), found word by word.
ghost use Rattle.std.specs.Prelude.{◌≡◌, ◌+◌, ◌/◌, ◌<◌, ◌≤◌, ◌-◌, not, false, if◌then◌else◌};
ghost use Rattle.jbig2_base.specs.Search.{place_from};
ghost use Rattle.jbig2_mmr.specs.T6.{is_change, is_change_from};
ghost use Rattle.jbig2_mmr.specs.inner.T6Reading.{pixels_of_row};

use jbig2_base::bitmap::Bitmap;
use jbig2_base::bitmap::colour::find_colour;
use jbig2_steps::Steps;
use std::alloc::Allocator;
use std::sync::ledger::Ledger;

/// The state of a row (T.6, 2.2.1).
#[derive(Clone, Copy)]
pub struct Place {
    /// The place a0; 0 before the first mode.
    pub a0: u32,
    /// Whether a mode was written.
    pub past_start: bool,
    /// The colour from a0 on.
    pub black: bool,
    /// The place a1: the next pixel of the row that has the other colour, or the width.
    pub a1: u32,
}

/// b1, if it is left of column `to`, else `to`: the first change of row `above` right of a0, from the colour `black` to
/// the other one. The first mode looks at a0 too.
pub fn find_b1<A: Allocator, L: Ledger>(
    bitmap: &Bitmap<A>,
    above: u32,
    place: Place,
    to: u32,
    steps: &mut Steps<L>,
) -> u32
    requires order { place.a0 < to }
    requires inside { to ≤ bitmap.now.width }
    requires first { place.past_start ≡ false → (place.a0 ≡ 0) × (place.black ≡ false) }
    ensures value { result ≡ place_from (is_change_from (pixels_of_row bitmap.now above) place.black)
        (if place.past_start then place.a0 + 1 else 0) to }
    ensures forward { place.a0 ≤ result }
    ensures within { result ≤ to }
    ensures colour { result < to → pixels_of_row bitmap.now above result ≡ not place.black }
    ensures steps { steps.new ≡ record steps.old { loads = steps.new.loads } }
    ensures loads { steps.new.loads ≤ steps.old.loads + (2 + (result - place.a0) / 64) }
{
    if !place.past_start {
        return find_colour(bitmap, above, 0, to, !place.black, steps);
    }
    let of_colour = find_colour(bitmap, above, place.a0, to, place.black, steps);
    find_colour(bitmap, above, of_colour, to, !place.black, steps)
}

/// b2, if it is left of column `to`, else `to`: the first change of row `above` right of b1. The colour `black` comes
/// before b1.
pub fn find_b2<A: Allocator, L: Ledger>(
    bitmap: &Bitmap<A>,
    above: u32,
    b1: u32,
    to: u32,
    black: bool,
    steps: &mut Steps<L>,
) -> u32
    requires inside { to ≤ bitmap.now.width }
    requires colour { b1 < to → pixels_of_row bitmap.now above b1 ≡ not black }
    ensures value { result ≡ place_from (is_change (pixels_of_row bitmap.now above)) (b1 + 1) to }
    ensures forward { result < to → b1 ≤ result }
    ensures within { result ≤ to }
    ensures steps { steps.new ≡ record steps.old { loads = steps.new.loads } }
    ensures loads { steps.new.loads ≤ steps.old.loads + (1 + (result - b1) / 64) }
{
    if b1 >= to {
        return to;
    }
    find_colour(bitmap, above, b1, to, black, steps)
}
