//! Decodes rows with skipped pixels, in a template without adaptive pixels. Contexts come from
//! windows on the rows above, and a window on the mask says which of 32 pixels are skipped.
ghost use Rattle.std.specs.Prelude.{◌≡◌, ℕ, ◌+◌, ◌-◌, ◌*◌, ◌/◌, ◌%◌, ◌^◌, ◌<◌, ◌≤◌, false, length, Some, None, if◌then◌else◌};
ghost use Rattle.jbig2_base.specs.Grid.{max_side};
ghost use Rattle.jbig2_base.specs.Counts.{KeepsLanes};
ghost use Rattle.jbig2_region.specs.Steps.{CountsSkipping, skipping_loads, skipping_words};
ghost use Rattle.jbig2_region.specs.inner.RegionViews.{skip_of};
ghost use Rattle.jbig2_region.specs.Generic.{skipping_coding};
ghost use Rattle.jbig2_region.specs.inner.DecodedPixels.{DecodesPixels, TakesPixel};
ghost use Rattle.jbig2_region.specs.inner.RegionStates.{DecodesRegion, IsReady, counted_decoder, counted_region, region_state};
ghost use Rattle.jbig2_region.specs.inner.Neighbours.{IsNear, neighbour_count, nominal_pixels};
ghost use Rattle.jbig2_region.specs.inner.Masks.{IsMask, plain_context};
ghost use Rattle.jbig2_region.specs.inner.Windows.{IsLeft};

use crate::generic_kernel::windows::{Place, Windows, stretch_bits, windows_at};
use crate::template::neighbours::{Neighbours, join};
use jbig2_base::bitmap::Bitmap;
use jbig2_coder::arithmetic_decoder::{ArithmeticDecoder, ArithmeticDecoderContext};
use jbig2_steps::Steps;
use std::alloc::Allocator;
use std::sync::ledger::Ledger;

/// Which of the 32 pixels from column `x` of row `y` on are skipped; bit 31 is the first.
#[inline(always)]
fn mask_at<M: Allocator, L: Ledger>(
    skip: Option<&Bitmap<M>>,
    x: u32,
    y: u32,
    steps: &mut Steps<L>,
) -> u64
    ensures value { IsMask (skip_of skip.entry) x y result }
    ensures loads { steps.new.loads ≤ steps.old.loads + 1 }
    ensures steps { steps.new ≡ record steps.old { loads = steps.new.loads } }
{
    let Some(mask) = skip else {
        return 0;
    };
    mask.load_pixels(x, y, 32, steps)
}

/// The number of the context at the column `offset` columns right of the windows' column. `left`
/// has the pixels on the left, the nearest in bit 0.
#[inline(always)]
fn plain_context(neighbours: Neighbours, windows: Windows, left: u32, offset: u32) -> u32
    requires near { IsNear neighbours }
    requires offset { offset < 32 }
    ensures value { result ≡ plain_context neighbours windows left offset }
    ensures bound { result < 2 ^ neighbour_count neighbours }
{
    let above = stretch_bits(neighbours.above, windows.above, offset);
    let top = stretch_bits(neighbours.top, windows.top, offset);
    let higher = join(above, top, neighbours.above.count);
    join(left % (1 << neighbours.left), higher, neighbours.left)
}

/// Decodes the next pixel, 1 for black. A skipped pixel is white.
#[inline(always)]
fn decode_pixel<L: Ledger>(
    skipped: bool,
    context: u32,
    decoder: &mut ArithmeticDecoder<'_>,
    contexts: &mut [ArithmeticDecoderContext],
    steps: &mut Steps<L>,
) -> u32
    requires context { context < length contexts.old }
    ensures takes { TakesPixel (if skipped then Some false else None) context
        (counted_decoder decoder.old contexts.old steps.old) result
        (counted_decoder decoder.new contexts.new steps.new) }
    ensures digit { result < 2 }
    ensures contexts { length contexts.new ≡ length contexts.old }
{
    if skipped {
        return 0;
    }
    decoder.decode(&mut contexts[context as usize], steps)
}

/// Decodes the pixels of a place, at most 32. Returns the four pixels left of the next column.
#[inline(always)]
fn decode_block<M: Allocator, A: Allocator, L: Ledger>(
    neighbours: Neighbours,
    skip: Option<&Bitmap<M>>,
    place: Place,
    bitmap: &mut Bitmap<A>,
    decoder: &mut ArithmeticDecoder<'_>,
    contexts: &mut [ArithmeticDecoderContext],
    steps: &mut Steps<L>,
) -> u32
    requires near { IsNear neighbours }
    requires contexts { length contexts.old ≡ 2 ^ neighbour_count neighbours }
    requires some { 1 ≤ place.count }
    requires few { place.count ≤ 32 }
    requires aligned { place.x % 32 ≡ 0 }
    requires columns { place.x + place.count ≤ bitmap.old.width }
    requires row { place.y < bitmap.old.height }
    requires left { IsLeft bitmap.old place.x place.y place.left }
    requires small { place.left < 16 }
    ensures decoded { DecodesPixels
        (skipping_coding (nominal_pixels neighbours) (skip_of skip.entry)) false
        place.x place.y place.count (counted_region bitmap.old decoder.old contexts.old steps.old)
        (counted_region bitmap.new decoder.new contexts.new steps.new) }
    ensures left { IsLeft bitmap.new (place.x + place.count) place.y result }
    ensures small { result < 16 }
    ensures contexts { length contexts.new ≡ length contexts.old }
    ensures loads { steps.new.loads ≤ steps.old.loads + 3 }
    ensures words { steps.new.words ≡ steps.old.words + 1 }
    ensures lanes { KeepsLanes steps.old steps.new }
{
    let windows = windows_at(bitmap, place.x, place.y, steps);
    let mask = mask_at(skip, place.x, place.y, steps);
    let mut pixels = u64::from(place.left);
    for offset in 0..place.count {
        let left = (pixels % 16) as u32;
        let context = plain_context(neighbours, windows, left, offset);
        let skipped = (mask >> (31 - offset)) % 2 == 1;
        let symbol = decode_pixel(skipped, context, decoder, contexts, steps);
        pixels = pixels * 2 + u64::from(symbol);
    }
    bitmap.store_pixels(place.x, place.y, place.count, pixels, steps);
    (pixels % 16) as u32
}

/// Decodes row `y`, whose rows above are decoded.
#[inline(always)]
fn decode_row<M: Allocator, A: Allocator, L: Ledger>(
    neighbours: Neighbours,
    skip: Option<&Bitmap<M>>,
    bitmap: &mut Bitmap<A>,
    y: u32,
    decoder: &mut ArithmeticDecoder<'_>,
    contexts: &mut [ArithmeticDecoderContext],
    steps: &mut Steps<L>,
)
    requires near { IsNear neighbours }
    requires contexts { length contexts.old ≡ 2 ^ neighbour_count neighbours }
    requires row { y < bitmap.old.height }
    requires widths { bitmap.old.width ≤ max_side }
    ensures decoded { DecodesPixels
        (skipping_coding (nominal_pixels neighbours) (skip_of skip.entry)) false 0 y
        bitmap.old.width (counted_region bitmap.old decoder.old contexts.old steps.old)
        (counted_region bitmap.new decoder.new contexts.new steps.new) }
    ensures contexts { length contexts.new ≡ length contexts.old }
    ensures loads { steps.new.loads ≤ steps.old.loads + skipping_loads bitmap.old.width }
    ensures words { steps.new.words ≤ steps.old.words + skipping_words bitmap.old.width }
    ensures lanes { KeepsLanes steps.old steps.new }
{
    let width = bitmap.width();
    let mut left = 0;
    for index in 0..width.div_ceil(32) {
        let x = index * 32;
        let count = (width - x).min(32);
        let place = Place { x, y, count, left };
        left = decode_block(neighbours, skip, place, bitmap, decoder, contexts, steps);
    }
}

/// Decodes a whole region into a white bitmap of its size.
pub fn decode_rows<M: Allocator, A: Allocator, L: Ledger>(
    neighbours: Neighbours,
    skip: Option<&Bitmap<M>>,
    bitmap: &mut Bitmap<A>,
    decoder: &mut ArithmeticDecoder<'_>,
    contexts: &mut [ArithmeticDecoderContext],
    steps: &mut Steps<L>,
)
    requires near { IsNear neighbours }
    requires ready { IsReady (neighbour_count neighbours) bitmap.old contexts.old }
    ensures region { DecodesRegion
        (skipping_coding (nominal_pixels neighbours) (skip_of skip.entry))
        (region_state bitmap.old decoder.old contexts.old)
        (region_state bitmap.new decoder.new contexts.new) }
    ensures steps { CountsSkipping (skip_of skip.entry) bitmap.old.width bitmap.old.height
        steps.old steps.new }
{
    if bitmap.width() == 0 {
        return;
    }
    for y in 0..bitmap.height() {
        decode_row(neighbours, skip, bitmap, y, decoder, contexts, steps);
    }
}
