//! Decodes regions pixel by pixel (T.88, 6.2.5 and 6.3.5): the common part of generic regions and
//! refinements.
ghost use Rattle.std.specs.Prelude.{◌≡◌, ℕ, ◌+◌, ◌*◌, ◌^◌, ◌<◌, ◌≤◌, length, IfSome, false, Some, pos, ◌<ℤ◌};
ghost use Rattle.jbig2_base.specs.Grid.{pixel, max_side};
ghost use Rattle.jbig2_base.specs.Bits.{bit_number};
ghost use Rattle.jbig2_region.specs.Steps.{CountsDecided, CountsWholeRows};
ghost use Rattle.jbig2_region.specs.Raster.{Coding};
ghost use Rattle.jbig2_region.specs.inner.RegionStates.{DecodesRegion, IsReady, counted_region, region_state, source_of};
ghost use Rattle.jbig2_region.specs.WholeRows.{whole_rows};
ghost use Rattle.jbig2_region.specs.inner.DecodedPixels.{DecodesPixels};

use crate::row_decision::begin_row;
use jbig2_base::bitmap::Bitmap;
use jbig2_coder::arithmetic_decoder::{ArithmeticDecoder, ArithmeticDecoderContext};
use jbig2_steps::Steps;
use std::alloc::Allocator;
use std::sync::ledger::Ledger;

/// A row during decoding.
#[derive(Clone, Copy)]
pub struct Row {
    pub y: u32,
    /// Whether typical prediction predicts it from what is known already.
    pub predicted: bool,
}

/// How the pixels of a region are coded.
pub trait PixelCoding {
    ghost coding: { Self → Coding };

    ghost bits: { Self → ℕ };

    ghost known_loads: { Self → ℕ };

    /// The number of the context of the pixel at column `x` of row `y`.
    fn context<A: Allocator, L: Ledger>(
        &self,
        bitmap: &Bitmap<A>,
        x: u32,
        y: u32,
        steps: &mut Steps<L>,
    ) -> u32
        requires column { x < 65536 }
        requires row { y < 65536 }
        ensures value { result ≡ (coding self.now).context bitmap.now x y }
        ensures small { result < 2 ^ bits self.now }
        ensures steps { steps.new
            ≡ record steps.old { loads = steps.old.loads + bits self.now } };

    /// The colour that the pixel at column `x` of a row takes without a decision, if any (`true` is
    /// black).
    fn known_colour<A: Allocator, L: Ledger>(
        &self,
        row: Row,
        x: u32,
        bitmap: &Bitmap<A>,
        steps: &mut Steps<L>,
    ) -> Option<bool>
        requires column { x < 65536 }
        requires row { row.y < 65536 }
        ensures value { result ≡ (coding self.now).known row.predicted bitmap.now x row.y }
        ensures loads { steps.new.loads ≤ steps.old.loads + known_loads self.now }
        ensures steps { steps.new ≡ record steps.old { loads = steps.new.loads } };

    /// With typical prediction, the number of the context of the decision that begins a row.
    fn row_context(&self) -> Option<u32>
        ensures value { result ≡ (coding self.now).row_context }
        ensures small { IfSome result (λ k. k < 2 ^ bits self.now) };
}

/// The pixel at a place that may lie outside, 1 for black; 0 outside.
#[inline(always)]
pub fn pixel_at<A: Allocator, L: Ledger>(
    bitmap: &Bitmap<A>,
    column: i32,
    row: i32,
    steps: &mut Steps<L>,
) -> u8
    ensures value { result ≡ bit_number (pixel bitmap.now column row) }
    ensures steps { steps.new ≡ record steps.old { loads = steps.old.loads + 1 } }
{
    far_pixel(bitmap, i64::from(column), i64::from(row), steps)
}

/// The pixel at a place that may lie outside, also far away, 1 for black; 0 outside.
#[inline(always)]
pub fn far_pixel<A: Allocator, L: Ledger>(
    bitmap: &Bitmap<A>,
    column: i64,
    row: i64,
    steps: &mut Steps<L>,
) -> u8
    requires column { column <ℤ pos 4294967296 }
    requires row { row <ℤ pos 4294967296 }
    ensures value { result ≡ bit_number (pixel bitmap.now column row) }
    ensures steps { steps.new ≡ record steps.old { loads = steps.old.loads + 1 } }
{
    if column < 0 || row < 0 {
        steps.load();
        return 0;
    }
    bitmap.get_pixel(column as u32, row as u32, steps)
}

/// Decodes the next pixel of a region, at column `x` of a row.
#[inline(always)]
fn decode_pixel<C: PixelCoding, A: Allocator, L: Ledger>(
    coding: &C,
    row: Row,
    x: u32,
    bitmap: &mut Bitmap<A>,
    decoder: &mut ArithmeticDecoder<'_>,
    contexts: &mut [ArithmeticDecoderContext],
    steps: &mut Steps<L>,
)
    requires column { x < bitmap.old.width }
    requires row { row.y < bitmap.old.height }
    requires columns { bitmap.old.width ≤ max_side }
    requires rows { bitmap.old.height ≤ max_side }
    requires contexts { length contexts.old ≡ 2 ^ C.bits coding.now }
    ensures decoded { DecodesPixels (C.coding coding.now) row.predicted x row.y 1
        (counted_region bitmap.old decoder.old contexts.old steps.old)
        (counted_region bitmap.new decoder.new contexts.new steps.new) }
    ensures words { steps.new.words ≡ steps.old.words + 1 }
    ensures loads { steps.new.loads
        ≤ steps.old.loads + (C.bits coding.now + C.known_loads coding.now) }
{
    if let Some(colour) = coding.known_colour(row, x, bitmap, steps) {
        bitmap.set_pixel(x, row.y, colour, steps);
        return;
    }
    let context = coding.context(bitmap, x, row.y, steps);
    let symbol = decoder.decode(&mut contexts[context as usize], steps);
    bitmap.set_pixel(x, row.y, symbol == 1, steps);
}

/// Decodes a row of a region. The rows above it are decoded already.
fn decode_row<C: PixelCoding, A: Allocator, L: Ledger>(
    coding: &C,
    row: Row,
    bitmap: &mut Bitmap<A>,
    decoder: &mut ArithmeticDecoder<'_>,
    contexts: &mut [ArithmeticDecoderContext],
    steps: &mut Steps<L>,
)
    requires row { row.y < bitmap.old.height }
    requires columns { bitmap.old.width ≤ max_side }
    requires rows { bitmap.old.height ≤ max_side }
    requires contexts { length contexts.old ≡ 2 ^ C.bits coding.now }
    ensures decoded { DecodesPixels (C.coding coding.now) row.predicted 0 row.y bitmap.old.width
        (counted_region bitmap.old decoder.old contexts.old steps.old)
        (counted_region bitmap.new decoder.new contexts.new steps.new) }
    ensures words { steps.new.words ≡ steps.old.words + bitmap.old.width }
    ensures loads { steps.new.loads ≤ steps.old.loads
        + bitmap.old.width * (C.bits coding.now + C.known_loads coding.now) }
{
    for x in 0..bitmap.width() {
        decode_pixel(coding, row, x, bitmap, decoder, contexts, steps);
    }
}

/// Decodes a whole region into a white bitmap of its size.
pub fn decode_region<C: PixelCoding, A: Allocator, L: Ledger>(
    coding: &C,
    bitmap: &mut Bitmap<A>,
    decoder: &mut ArithmeticDecoder<'_>,
    contexts: &mut [ArithmeticDecoderContext],
    steps: &mut Steps<L>,
)
    requires { IsReady (C.bits coding.now) bitmap.old contexts.old }
    ensures region { DecodesRegion (C.coding coding.now)
        (region_state bitmap.old decoder.old contexts.old)
        (region_state bitmap.new decoder.new contexts.new) }
    ensures empty { bitmap.old.width * bitmap.old.height ≡ 0 → steps.new ≡ steps.old }
    ensures steps { CountsDecided (C.coding coding.now)
        (bitmap.old.width * (C.bits coding.now + C.known_loads coding.now))
        (source_of (region_state bitmap.old decoder.old contexts.old)) steps.old steps.new }
{
    if bitmap.width() == 0 {
        return;
    }
    let mut predicted = false;
    for y in 0..bitmap.height() {
        predicted = begin_row(coding.row_context(), predicted, decoder, contexts, steps);
        decode_row(
            coding,
            Row { y, predicted },
            bitmap,
            decoder,
            contexts,
            steps,
        );
    }
}

/// Decodes a region into a white bitmap of its size, up to the first row that is not whole, and
/// returns how many rows are whole: when such a row ended, the coder had not read beyond the last
/// byte.
pub fn count_whole_rows<C: PixelCoding, A: Allocator, L: Ledger>(
    coding: &C,
    bitmap: &mut Bitmap<A>,
    decoder: &mut ArithmeticDecoder<'_>,
    contexts: &mut [ArithmeticDecoderContext],
    steps: &mut Steps<L>,
) -> u32
    requires ready { IsReady (C.bits coding.now) bitmap.old contexts.old }
    requires some { 1 ≤ bitmap.old.width }
    ensures rows { result ≡ whole_rows (C.coding coding.now)
        (source_of (region_state bitmap.old decoder.old contexts.old)) bitmap.old.height }
    ensures steps { CountsWholeRows
        (bitmap.old.width * (C.bits coding.now + C.known_loads coding.now))
        (source_of (region_state bitmap.old decoder.old contexts.old)) steps.old steps.new }
{
    let mut predicted = false;
    for y in 0..bitmap.height() {
        predicted = begin_row(coding.row_context(), predicted, decoder, contexts, steps);
        decode_row(
            coding,
            Row { y, predicted },
            bitmap,
            decoder,
            contexts,
            steps,
        );
        if !decoder.is_within_data() {
            return y;
        }
    }
    bitmap.height()
}
