//! Decodes refinements (T.88, 6.3) whose template's pixels are all next to the pixel that is decoded.
//! Contexts and predicted colours come from windows on the rows.
ghost use Rattle.std.specs.Prelude.{◌≡◌, ℕ, ◌+◌, ◌-◌, ◌*◌, ◌/◌, ◌%◌, ◌^◌, ◌<◌, ◌≤◌, length, false, None};
ghost use Rattle.jbig2_base.specs.Grid.{pixel_at, max_side};
ghost use Rattle.jbig2_base.specs.Bits.{bit};
ghost use Rattle.jbig2_region.specs.Steps.{CountsDecided, window_loads};
ghost use Rattle.jbig2_region.specs.RefinementTemplates.{refinement_bits};
ghost use Rattle.jbig2_region.specs.inner.DecodedPixels.{DecodesPixels, TakesPixel};
ghost use Rattle.jbig2_region.specs.inner.RegionStates.{DecodesRegion, IsReady, counted_decoder, counted_region, region_state, source_of};
ghost use Rattle.jbig2_region.specs.inner.RefinementBlocks.{MovesBlock};
ghost use Rattle.jbig2_region.specs.inner.ReferenceViews.{reference_view};
ghost use Rattle.jbig2_region.specs.inner.RefinementWindows.{SeesRows, nine_of, three_of, windowed_coding};
ghost use Rattle.jbig2_region.specs.inner.Windows.{IsLeft};

mod lanes;
mod windows;

use crate::raster::Row;
use crate::reference_bitmap::ReferenceBitmap;
use crate::refinement_kernel::lanes::{lanes_at, lanes_context};
use crate::refinement_kernel::windows::{
    RefinementWindows, leading_ones, leading_zeros, windows_at,
};
use crate::row_decision::begin_row;
use crate::template::RefinementTemplate;
use crate::template::refinement::typical_context;
use jbig2_base::bitmap::Bitmap;
use jbig2_coder::arithmetic_decoder::{ArithmeticDecoder, ArithmeticDecoderContext};
use jbig2_steps::Steps;
use std::alloc::Allocator;
use std::sync::ledger::Ledger;

/// How a region is refined whose adaptive pixels, if it has any, are nominal.
#[derive(Clone, Copy, Drop)]
pub struct WindowedCoding<'a, B: Allocator> {
    pub template: RefinementTemplate,
    /// Whether typical prediction is on.
    pub typical: bool,
    pub reference: &'a ReferenceBitmap<'a, B>,
}

/// Decodes the next pixel, 1 for black, in the context with this number.
#[inline(always)]
fn decide_pixel<L: Ledger>(
    context: u32,
    decoder: &mut ArithmeticDecoder<'_>,
    contexts: &mut [ArithmeticDecoderContext],
    steps: &mut Steps<L>,
) -> u32
    requires context { context < length contexts.old }
    ensures takes { TakesPixel None context (counted_decoder decoder.old contexts.old steps.old) result
        (counted_decoder decoder.new contexts.new steps.new) }
    ensures digit { result < 2 }
    ensures contexts { length contexts.new ≡ length contexts.old }
{
    decoder.decode(&mut contexts[context as usize], steps)
}

/// Decodes the next `count` pixels, at most thirteen, none of whose colours is known. They begin
/// `offset` columns right of the windows' column. `pixels` are the pixels on the left; the new ones
/// are added at the low end.
#[inline(always)]
fn push_pixels<L: Ledger>(
    template: RefinementTemplate,
    windows: RefinementWindows,
    offset: u32,
    count: u32,
    pixels: u64,
    decoder: &mut ArithmeticDecoder<'_>,
    contexts: &mut [ArithmeticDecoderContext],
    steps: &mut Steps<L>,
) -> u64
    requires few { count ≤ 13 }
    requires within { offset + count ≤ 32 }
    requires room { pixels < 16 * 2 ^ offset }
    requires contexts { length contexts.old ≡ 2 ^ refinement_bits template }
    ensures block { MovesBlock template windows offset count pixels
        (counted_decoder decoder.old contexts.old steps.old) result
        (counted_decoder decoder.new contexts.new steps.new) }
    ensures contexts { length contexts.new ≡ length contexts.old }
{
    let mut lanes = lanes_at(windows, offset);
    let mut context = lanes_context(template, lanes, (pixels % 2) as u32);
    let mut pixels = pixels;
    for _ in 0..count {
        let symbol = decide_pixel(context, decoder, contexts, steps);
        lanes <<= 1;
        context = lanes_context(template, lanes, symbol);
        pixels = pixels * 2 + u64::from(symbol);
    }
    pixels
}

/// How many of `count` columns are decided without a look at the prediction: all, unless the row is
/// predicted.
#[inline(always)]
fn decided_columns(predicted: bool, count: u32) -> u32
    ensures most { result ≤ count }
    ensures plain { 0 < result → predicted ≡ false }
{
    if predicted {
        return 0;
    }
    count
}

/// How many of `count` columns `white_columns` finds; none if `look` is false.
#[inline(always)]
fn looked_for(look: bool, windows: RefinementWindows, count: u32) -> u32
    ensures most { result ≤ count }
    ensures nine { 0 < result → (k : ℕ) → k < 32 → nine_of windows k ≡ 0 }
    ensures region { 0 < result → (k : ℕ) → k < 32 → three_of windows.region k ≡ 0 }
{
    if look {
        return windows.white_columns(count);
    }
    0
}

/// Columns of a row that are decoded next.
#[derive(Clone, Copy)]
struct Stretch {
    /// The first column.
    x: u32,
    count: u32,
    /// The four pixels on the left, the nearest in the lowest bit.
    left: u32,
    /// What is above, and in the reference.
    windows: RefinementWindows,
    /// Whether columns where all is white are looked for.
    look: bool,
}

/// Decodes a stretch of a row, at most 32 pixels. They are the lowest bits of the result, and the pixels on the left are
/// above them.
#[inline(always)]
fn decode_block<A: Allocator, B: Allocator, L: Ledger>(
    coding: &WindowedCoding<'_, B>,
    row: Row,
    stretch: Stretch,
    bitmap: &mut Bitmap<A>,
    decoder: &mut ArithmeticDecoder<'_>,
    contexts: &mut [ArithmeticDecoderContext],
    steps: &mut Steps<L>,
) -> u64
    requires contexts { length contexts.old ≡ 2 ^ refinement_bits coding.now.template }
    requires some { 1 ≤ stretch.count }
    requires few { stretch.count ≤ 32 }
    requires aligned { stretch.x % 32 ≡ 0 }
    requires columns { stretch.x + stretch.count ≤ bitmap.old.width }
    requires row { row.y < bitmap.old.height }
    requires left { IsLeft bitmap.old stretch.x row.y stretch.left }
    requires small { stretch.left < 16 }
    requires sees { let reference = reference_view coding.now.reference.now in
        SeesRows bitmap.old reference stretch.x row.y stretch.windows }
    ensures decoded { DecodesPixels (windowed_coding coding.now) row.predicted
        stretch.x row.y stretch.count (counted_region bitmap.old decoder.old contexts.old steps.old)
        (counted_region bitmap.new decoder.new contexts.new steps.new) }
    ensures left { IsLeft bitmap.new (stretch.x + stretch.count) row.y (result % 16) }
    ensures value { (k : ℕ) → k < stretch.count
        → bit result (stretch.count - 1 - k) ≡ pixel_at bitmap.new (stretch.x + k) row.y }
    ensures contexts { length contexts.new ≡ length contexts.old }
    ensures loads { steps.new.loads ≡ steps.old.loads }
    ensures words { steps.new.words ≡ steps.old.words + 1 }
{
    let template = coding.template;
    let count = stretch.count;
    let windows = stretch.windows;
    let decided = decided_columns(row.predicted, count);
    let white = looked_for(stretch.look, windows, decided);
    let known = windows.known_columns(row.predicted);
    let mut pixels = u64::from(stretch.left);
    let mut done = 0;
    while done < white && pixels % 2 == 0 {
        let symbol = decide_pixel(0, decoder, contexts, steps);
        pixels = pixels * 2 + u64::from(symbol);
        done += 1;
    }
    while done < decided {
        let more = (decided - done).min(13);
        pixels = push_pixels(
            template, windows, done, more, pixels, decoder, contexts, steps,
        );
        done += more;
    }
    while done < count {
        let copied = leading_ones(known << (done + 1), count - done);
        pixels = windows.copied_pixels(done, copied, pixels);
        done += copied;
        let more = leading_zeros(known << (done + 1), count - done).min(13);
        pixels = push_pixels(
            template, windows, done, more, pixels, decoder, contexts, steps,
        );
        done += more;
    }
    bitmap.store_pixels(stretch.x, row.y, count, pixels, steps);
    pixels
}

/// Decodes a row. The rows above it are decoded already.
#[inline(always)]
fn decode_row<A: Allocator, B: Allocator, L: Ledger>(
    coding: &WindowedCoding<'_, B>,
    row: Row,
    bitmap: &mut Bitmap<A>,
    decoder: &mut ArithmeticDecoder<'_>,
    contexts: &mut [ArithmeticDecoderContext],
    steps: &mut Steps<L>,
)
    requires contexts { length contexts.old ≡ 2 ^ refinement_bits coding.now.template }
    requires row { row.y < bitmap.old.height }
    requires widths { bitmap.old.width ≤ max_side }
    requires heights { bitmap.old.height ≤ max_side }
    ensures decoded { DecodesPixels (windowed_coding coding.now) row.predicted 0 row.y
        bitmap.old.width (counted_region bitmap.old decoder.old contexts.old steps.old)
        (counted_region bitmap.new decoder.new contexts.new steps.new) }
    ensures contexts { length contexts.new ≡ length contexts.old }
    ensures loads { steps.new.loads ≤ steps.old.loads + window_loads bitmap.old.width }
    ensures words { steps.new.words ≤ steps.old.words + bitmap.old.width }
{
    let width = bitmap.width();
    let mut left = 0;
    for index in 0..width.div_ceil(32) {
        let x = index * 32;
        let count = (width - x).min(32);
        let windows = windows_at(bitmap, coding.reference, x, row.y, steps);
        let stretch = Stretch {
            x,
            count,
            left,
            windows,
            look: true,
        };
        let pixels = decode_block(coding, row, stretch, bitmap, decoder, contexts, steps);
        left = (pixels % 16) as u32;
    }
}

/// Decodes a whole region of at most 32 columns into a white bitmap of its size. Each row's windows
/// are made from those of the row above.
#[inline(always)]
fn decode_narrow<A: Allocator, B: Allocator, L: Ledger>(
    coding: &WindowedCoding<'_, B>,
    bitmap: &mut Bitmap<A>,
    decoder: &mut ArithmeticDecoder<'_>,
    contexts: &mut [ArithmeticDecoderContext],
    steps: &mut Steps<L>,
)
    requires ready { IsReady (refinement_bits coding.now.template) bitmap.old contexts.old }
    requires some { 1 ≤ bitmap.old.width }
    requires few { bitmap.old.width ≤ 32 }
    requires rows { 1 ≤ bitmap.old.height }
    ensures region { DecodesRegion (windowed_coding coding.now)
        (region_state bitmap.old decoder.old contexts.old)
        (region_state bitmap.new decoder.new contexts.new) }
    ensures steps { CountsDecided (windowed_coding coding.now)
        (window_loads bitmap.old.width)
        (source_of (region_state bitmap.old decoder.old contexts.old)) steps.old steps.new }
{
    let width = bitmap.width();
    let row_context = typical_context(coding.template, coding.typical);
    let mut predicted = false;
    let mut windows = windows_at(bitmap, coding.reference, 0, 0, steps);
    for y in 0..bitmap.height() {
        predicted = begin_row(row_context, predicted, decoder, contexts, steps);
        let row = Row { y, predicted };
        let stretch = Stretch {
            x: 0,
            count: width,
            left: 0,
            windows,
            look: false,
        };
        let pixels = decode_block(coding, row, stretch, bitmap, decoder, contexts, steps);
        windows = windows.on_next_row(coding.reference, y + 1, pixels, width, steps);
    }
}

/// Decodes a whole region into a white bitmap of its size.
#[inline(always)]
pub fn decode_windowed<A: Allocator, B: Allocator, L: Ledger>(
    coding: &WindowedCoding<'_, B>,
    bitmap: &mut Bitmap<A>,
    decoder: &mut ArithmeticDecoder<'_>,
    contexts: &mut [ArithmeticDecoderContext],
    steps: &mut Steps<L>,
)
    requires { IsReady (refinement_bits coding.now.template) bitmap.old contexts.old }
    ensures region { DecodesRegion (windowed_coding coding.now)
        (region_state bitmap.old decoder.old contexts.old)
        (region_state bitmap.new decoder.new contexts.new) }
    ensures steps { CountsDecided (windowed_coding coding.now)
        (window_loads bitmap.old.width)
        (source_of (region_state bitmap.old decoder.old contexts.old)) steps.old steps.new }
{
    if bitmap.width() == 0 {
        return;
    }
    if bitmap.width() <= 32 && bitmap.height() > 0 {
        decode_narrow(coding, bitmap, decoder, contexts, steps);
        return;
    }
    let row_context = typical_context(coding.template, coding.typical);
    let mut predicted = false;
    for y in 0..bitmap.height() {
        predicted = begin_row(row_context, predicted, decoder, contexts, steps);
        decode_row(
            coding,
            Row { y, predicted },
            bitmap,
            decoder,
            contexts,
            steps,
        );
    }
}
