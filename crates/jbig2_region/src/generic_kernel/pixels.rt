//! Decodes rows of a template with adaptive pixels, which are read one by one.
ghost use Rattle.std.specs.Prelude.{◌≡◌, ℕ, ◌+◌, ◌-◌, ◌*◌, ◌/◌, ◌%◌, ◌^◌, ◌<◌, ◌≤◌, false, length};
ghost use Rattle.jbig2_base.specs.Grid.{max_side};
ghost use Rattle.jbig2_base.specs.Counts.{KeepsLanes};
ghost use Rattle.jbig2_region.specs.Generic.{context_at};
ghost use Rattle.jbig2_region.specs.inner.Neighbours.{DecodesPixels, IsMixed, adaptive_count, mixed_count, mixed_pixels};
ghost use Rattle.jbig2_region.specs.inner.RegionStates.{region_state};
ghost use Rattle.jbig2_region.specs.inner.Windows.{IsLeft, Shows};

use crate::generic_kernel::windows::{Place, Windows, stretch_bits, windows_at};
use crate::pixel_context::context_at;
use crate::template::layouts::Adaptives;
use crate::template::neighbours::{Neighbours, join};
use jbig2_base::bitmap::Bitmap;
use jbig2_coder::arithmetic_decoder::{ArithmeticDecoder, ArithmeticDecoderContext};
use jbig2_steps::Steps;
use std::alloc::Allocator;
use std::sync::ledger::Ledger;

/// The number of the context `offset` columns right of the place, around whose first column the
/// windows lie.
/// `left` has the pixels on the left, the nearest in bit 0.
#[inline(always)]
fn mixed_context<A: Allocator, L: Ledger>(
    neighbours: Neighbours,
    adaptive: &Adaptives<'_>,
    place: Place,
    left: u32,
    windows: Windows,
    offset: u32,
    bitmap: &Bitmap<A>,
    steps: &mut Steps<L>,
) -> u32
    requires mixed { IsMixed neighbours adaptive.now }
    requires offset { offset < 32 }
    requires column { place.x + offset < 65536 }
    requires row { place.y < 65536 }
    requires shows { Shows bitmap.now place.x place.y 64 windows }
    requires left { IsLeft bitmap.now (place.x + offset) place.y left }
    ensures value { result ≡ context_at (mixed_pixels neighbours adaptive.now) bitmap.now
        (place.x + offset) place.y }
    ensures bound { result < 2 ^ mixed_count neighbours adaptive.now }
    ensures steps { steps.new ≡
        record steps.old { loads = steps.old.loads + adaptive_count adaptive.now } }
{
    let first = context_at(adaptive.first, bitmap, place.x + offset, place.y, steps);
    let middle = context_at(adaptive.middle, bitmap, place.x + offset, place.y, steps);
    let last = context_at(adaptive.last, bitmap, place.x + offset, place.y, steps);
    let above = stretch_bits(neighbours.above, windows.above, offset);
    let top = stretch_bits(neighbours.top, windows.top, offset);
    let after_middle = join(top, last, neighbours.top.count);
    let after_above = join(middle, after_middle, adaptive.middle.len() as u32);
    let after_first = join(above, after_above, neighbours.above.count);
    let after_left = join(first, after_first, adaptive.first.len() as u32);
    join(left % (1 << neighbours.left), after_left, neighbours.left)
}

/// Decodes the pixels of a place, at most 32. Returns the four pixels left of the next column.
#[inline(always)]
fn decode_pixels<A: Allocator, L: Ledger>(
    neighbours: Neighbours,
    adaptive: &Adaptives<'_>,
    place: Place,
    bitmap: &mut Bitmap<A>,
    decoder: &mut ArithmeticDecoder<'_>,
    contexts: &mut [ArithmeticDecoderContext],
    steps: &mut Steps<L>,
) -> u32
    requires mixed { IsMixed neighbours adaptive.now }
    requires contexts { length contexts.old ≡ 2 ^ mixed_count neighbours adaptive.now }
    requires few { place.count ≤ 32 }
    requires aligned { place.x % 8 ≡ 0 }
    requires columns { place.x + place.count ≤ bitmap.old.width }
    requires row { place.y < bitmap.old.height }
    requires widths { bitmap.old.width ≤ max_side }
    requires heights { bitmap.old.height ≤ max_side }
    requires left { IsLeft bitmap.old place.x place.y place.left }
    requires small { place.left < 16 }
    ensures pixels { DecodesPixels (mixed_pixels neighbours adaptive.now) false
        place.x place.y place.count (region_state bitmap.old decoder.old contexts.old)
        (region_state bitmap.new decoder.new contexts.new) }
    ensures left { IsLeft bitmap.new (place.x + place.count) place.y result }
    ensures small { result < 16 }
    ensures width { bitmap.new.width ≡ bitmap.old.width }
    ensures height { bitmap.new.height ≡ bitmap.old.height }
    ensures bytes { decoder.new.bytes ≡ decoder.old.bytes }
    ensures contexts { length contexts.new ≡ length contexts.old }
    ensures decisions { steps.new.decisions ≡ steps.old.decisions + place.count }
    ensures run_tests { steps.new.run_tests ≡ steps.old.run_tests }
    ensures loads { steps.new.loads ≡
        steps.old.loads + (2 + place.count * adaptive_count adaptive.now) }
    ensures words { steps.new.words ≡ steps.old.words + place.count }
    ensures lanes { KeepsLanes steps.old steps.new }
{
    let windows = windows_at(bitmap, place.x, place.y, steps);
    let mut left = place.left;
    for offset in 0..place.count {
        let context = mixed_context(
            neighbours, adaptive, place, left, windows, offset, bitmap, steps,
        );
        let symbol = decoder.decode(&mut contexts[context as usize], steps);
        bitmap.store_pixels(place.x + offset, place.y, 1, u64::from(symbol), steps);
        left = (left * 2 + symbol) % 16;
    }
    left
}

/// Decodes row `y`, whose rows above are decoded.
pub fn decode_row_by_pixels<A: Allocator, L: Ledger>(
    neighbours: Neighbours,
    adaptive: &Adaptives<'_>,
    bitmap: &mut Bitmap<A>,
    y: u32,
    decoder: &mut ArithmeticDecoder<'_>,
    contexts: &mut [ArithmeticDecoderContext],
    steps: &mut Steps<L>,
)
    requires mixed { IsMixed neighbours adaptive.now }
    requires contexts { length contexts.old ≡ 2 ^ mixed_count neighbours adaptive.now }
    requires row { y < bitmap.old.height }
    requires widths { bitmap.old.width ≤ max_side }
    requires heights { bitmap.old.height ≤ max_side }
    ensures pixels { DecodesPixels (mixed_pixels neighbours adaptive.now) false 0 y bitmap.old.width
        (region_state bitmap.old decoder.old contexts.old)
        (region_state bitmap.new decoder.new contexts.new) }
    ensures width { bitmap.new.width ≡ bitmap.old.width }
    ensures height { bitmap.new.height ≡ bitmap.old.height }
    ensures bytes { decoder.new.bytes ≡ decoder.old.bytes }
    ensures contexts { length contexts.new ≡ length contexts.old }
    ensures decisions { steps.new.decisions ≡ steps.old.decisions + bitmap.old.width }
    ensures run_tests { steps.new.run_tests ≡ steps.old.run_tests }
    ensures loads { steps.new.loads ≤ steps.old.loads +
        (2 * (bitmap.old.width / 32 + 1) + bitmap.old.width * adaptive_count adaptive.now) }
    ensures words { steps.new.words ≡ steps.old.words + bitmap.old.width }
    ensures lanes { KeepsLanes steps.old steps.new }
{
    let width = bitmap.width();
    let mut left = 0;
    for index in 0..width.div_ceil(32) {
        let x = index * 32;
        let count = (width - x).min(32);
        let place = Place { x, y, count, left };
        left = decode_pixels(
            neighbours, adaptive, place, bitmap, decoder, contexts, steps,
        );
    }
}
