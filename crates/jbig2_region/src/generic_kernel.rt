//! The kernels of generic regions (T.88, 6.2.5). They take their contexts from windows on the rows
//! above. If the adaptive pixels are nominal, they work by whole bytes.
ghost use Rattle.std.specs.Prelude.{◌≡◌, ℕ, ◌+◌, ◌-◌, ◌*◌, ◌/◌, ◌^◌, ◌<◌, ◌≤◌, false, true, length, pos, negsuc, ◌+ℤ◌, List, IfSome, None, if◌then◌else◌};
ghost use Rattle.jbig2_base.specs.Counts.{KeepsLanes};
ghost use Rattle.jbig2_base.specs.Grid.{blank, max_side};
ghost use Rattle.jbig2_coder.specs.Coder.{Coder, Context};
ghost use Rattle.jbig2_region.specs.inner.RegionStates.{DecodesRegion, region_state, source_of};
ghost use Rattle.jbig2_region.specs.inner.Neighbours.{DecodesPixels};
ghost use Rattle.jbig2_region.specs.Raster.{decoded_region};
ghost use Rattle.jbig2_region.specs.Steps.{CountsRegion, row_loads, row_tests, row_words};
ghost use Rattle.jbig2_region.specs.inner.RowCounts.{CountsRow};
ghost use Rattle.jbig2_region.specs.inner.Layouts.{is_nominal_layout, IsLayout, layout_coding, layout_count, layout_loads, layout_pixels};
ghost use Rattle.jbig2_region.specs.declared.template.AdaptiveTemplatePixel.{AdaptiveTemplatePixel};

mod bytes;
mod constant_templates;
mod narrow;
mod nominal;
mod pixels;
mod runs;
pub(crate) mod windows;
mod words;

use crate::generic_kernel::narrow::decode_narrow;
use crate::generic_kernel::nominal::decode_nominal_row;
use crate::generic_kernel::pixels::decode_row_by_pixels;
use crate::generic_kernel::windows::pixels_above;
use crate::row_decision::begin_row;
use crate::template::layouts::Layout;
use jbig2_base::bitmap::Bitmap;
use jbig2_coder::arithmetic_decoder::{ArithmeticDecoder, ArithmeticDecoderContext};
use jbig2_steps::Steps;
use std::alloc::Allocator;
use std::sync::ledger::Ledger;

/// Copies the row above row `y` to row `y`.
fn copy_row<A: Allocator, L: Ledger>(bitmap: &mut Bitmap<A>, y: u32, steps: &mut Steps<L>)
    requires row { y < bitmap.old.height }
    ensures pixels { (template : List AdaptiveTemplatePixel) (coder : Coder)
        (states : List Context) → DecodesPixels template true 0 y bitmap.old.width
        (region_state bitmap.old coder states) (region_state bitmap.new coder states) }
    ensures width { bitmap.new.width ≡ bitmap.old.width }
    ensures height { bitmap.new.height ≡ bitmap.old.height }
    ensures loads { steps.new.loads ≡ steps.old.loads + (bitmap.old.width + 63) / 64 }
    ensures words { steps.new.words ≡ steps.old.words + (bitmap.old.width + 63) / 64 }
    ensures decisions { steps.new.decisions ≡ steps.old.decisions }
    ensures run_tests { steps.new.run_tests ≡ steps.old.run_tests }
    ensures lanes { KeepsLanes steps.old steps.new }
{
    let width = bitmap.width();
    for index in 0..width.div_ceil(64) {
        let x = index * 64;
        let count = (width - x).min(64);
        let bits = pixels_above(bitmap, x, y, 1, count, steps);
        bitmap.store_pixels(x, y, count, bits, steps);
    }
}

/// Decodes row `y`, whose rows above are decoded. If `predicted` is true, copies the row above.
#[inline(always)]
fn decode_row<A: Allocator, L: Ledger>(
    layout: &Layout<'_>,
    bitmap: &mut Bitmap<A>,
    y: u32,
    predicted: bool,
    decoder: &mut ArithmeticDecoder<'_>,
    contexts: &mut [ArithmeticDecoderContext],
    steps: &mut Steps<L>,
)
    requires fits { IsLayout layout.now.neighbours layout.now.adaptive }
    requires contexts { length contexts.old ≡
        2 ^ layout_count layout.now.neighbours layout.now.adaptive }
    requires some { 1 ≤ bitmap.old.width }
    requires row { y < bitmap.old.height }
    requires columns { bitmap.old.width ≤ max_side }
    requires rows { bitmap.old.height ≤ max_side }
    ensures pixels { DecodesPixels (layout_pixels layout.now) predicted 0 y bitmap.old.width
        (region_state bitmap.old decoder.old contexts.old)
        (region_state bitmap.new decoder.new contexts.new) }
    ensures width { bitmap.new.width ≡ bitmap.old.width }
    ensures height { bitmap.new.height ≡ bitmap.old.height }
    ensures bytes { decoder.new.bytes ≡ decoder.old.bytes }
    ensures contexts { length contexts.new ≡ length contexts.old }
    ensures decisions { CountsRow (layout_pixels layout.now)
        (is_nominal_layout layout.now.adaptive) predicted y
        (region_state bitmap.old decoder.old contexts.old) steps.old.decisions steps.new.decisions }
    ensures run_tests { steps.new.run_tests ≤
        steps.old.run_tests + row_tests (is_nominal_layout layout.now.adaptive) bitmap.old.width }
    ensures words { steps.new.words ≤ steps.old.words +
        row_words (is_nominal_layout layout.now.adaptive) bitmap.old.width }
    ensures loads { steps.new.loads ≤ steps.old.loads +
        (row_loads (is_nominal_layout layout.now.adaptive) bitmap.old.width + bitmap.old.width *
        (if predicted then 0 else layout_loads layout.now.adaptive)) }
    ensures lanes { KeepsLanes steps.old steps.new }
{
    if predicted {
        copy_row(bitmap, y, steps);
        return;
    }
    let neighbours = layout.neighbours;
    let Some(adaptive) = &layout.adaptive else {
        decode_nominal_row(neighbours, bitmap, y, decoder, contexts, steps);
        return;
    };
    decode_row_by_pixels(neighbours, adaptive, bitmap, y, decoder, contexts, steps);
}

/// Whether a region has few columns, no adaptive pixels that are read one by one, and no typical
/// prediction.
fn is_narrow(layout: &Layout<'_>, row_context: Option<u32>, width: u32) -> bool
    ensures few { result ≡ true → width ≤ 48 }
    ensures nominal { result ≡ true → layout.now.adaptive ≡ None }
    ensures plain { result ≡ true → row_context ≡ None }
{
    width <= 48 && (layout.adaptive.is_none() && row_context.is_none())
}

/// Decodes a whole region into a white bitmap of its size. With typical prediction `row_context` is
/// the context of the decision that begins a row.
pub fn decode_layout<A: Allocator, L: Ledger>(
    layout: &Layout<'_>,
    row_context: Option<u32>,
    bitmap: &mut Bitmap<A>,
    decoder: &mut ArithmeticDecoder<'_>,
    contexts: &mut [ArithmeticDecoderContext],
    steps: &mut Steps<L>,
)
    requires fits { IsLayout layout.now.neighbours layout.now.adaptive }
    requires contexts { length contexts.old ≡
        2 ^ layout_count layout.now.neighbours layout.now.adaptive }
    requires context { IfSome row_context (λ k. k < length contexts.old) }
    requires columns { bitmap.old.width ≤ max_side }
    requires rows { bitmap.old.height ≤ max_side }
    requires white { bitmap.old ≡ blank bitmap.old.width bitmap.old.height false }
    ensures region { DecodesRegion (layout_coding layout.now row_context)
        (region_state bitmap.old decoder.old contexts.old)
        (region_state bitmap.new decoder.new contexts.new) }
    ensures steps { CountsRegion (layout_pixels layout.now) (is_nominal_layout layout.now.adaptive)
        (layout_loads layout.now.adaptive) (layout_coding layout.now row_context)
        (source_of (region_state bitmap.old decoder.old contexts.old)) steps.old steps.new }
{
    if bitmap.width() == 0 {
        return;
    }
    if is_narrow(layout, row_context, bitmap.width()) {
        decode_narrow(layout.neighbours, bitmap, decoder, contexts, steps);
        return;
    }
    let mut predicted = false;
    for y in 0..bitmap.height() {
        predicted = begin_row(row_context, predicted, decoder, contexts, steps);
        decode_row(layout, bitmap, y, predicted, decoder, contexts, steps);
    }
}
