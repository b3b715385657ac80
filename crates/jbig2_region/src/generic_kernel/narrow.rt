//! Decodes narrow regions without adaptive pixels and without typical prediction. The windows on the
//! two rows above are made from the rows as they are decoded, and each row is stored at once.
ghost use Rattle.std.specs.Prelude.{◌≡◌, ℕ, ◌+◌, ◌-◌, ◌*◌, ◌/◌, ◌%◌, ◌^◌, ◌<◌, ◌≤◌, length};
ghost use Rattle.jbig2_base.specs.Counts.{KeepsLanes};
ghost use Rattle.jbig2_base.specs.Grid.{Grid, pixel_at};
ghost use Rattle.jbig2_base.specs.Bits.{bit};
ghost use Rattle.jbig2_region.specs.inner.RegionStates.{DecodesRegion, decoder_state, region_state};
ghost use Rattle.jbig2_region.specs.Templates.{template_of};
ghost use Rattle.jbig2_region.specs.inner.Layouts.{nominal_neighbours};
ghost use Rattle.jbig2_region.specs.inner.NominalRows.{CountsNarrow, FitsNarrow};
ghost use Rattle.jbig2_region.specs.inner.PushedPixels.{CountsByte, CountsRowPixels, PushesPixels, PushesRow};
ghost use Rattle.jbig2_region.specs.inner.Neighbours.{IsNear, SameAbove, neighbour_count, nominal_pixels, row_coding};
ghost use Rattle.jbig2_region.specs.inner.Windows.{Shows};

use crate::generic_kernel::bytes::{push_bytes, push_pixels};
use crate::generic_kernel::constant_templates::by_template;
use crate::generic_kernel::windows::{WideWindows, Windows};
use crate::template::Template;
use crate::template::layouts::nominal_neighbours;
use crate::template::neighbours::Neighbours;
use jbig2_base::bitmap::Bitmap;
use jbig2_coder::arithmetic_decoder::{ArithmeticDecoder, ArithmeticDecoderContext};
use jbig2_steps::Steps;
use std::alloc::Allocator;
use std::sync::ledger::Ledger;

/// Decodes the next byte of a row, which is not its last, from the windows' column on: as a run, or
/// else pixel by pixel.
#[inline(always)]
fn push_byte<L: Ledger>(
    neighbours: Neighbours,
    left: u32,
    windows: Windows,
    decoder: &mut ArithmeticDecoder<'_>,
    contexts: &mut [ArithmeticDecoderContext],
    steps: &mut Steps<L>,
) -> u64
    requires near { IsNear neighbours }
    requires contexts { length contexts.old ≡ 2 ^ neighbour_count neighbours }
    requires small { left < 16 }
    ensures pixels { PushesPixels neighbours 9 left windows 8 result
        (decoder_state decoder.old contexts.old) (decoder_state decoder.new contexts.new) }
    ensures decisions { CountsByte neighbours left windows
        (decoder_state decoder.old contexts.old) steps.old.decisions steps.new.decisions }
    ensures bound { result < 256 }
    ensures bytes { decoder.new.bytes ≡ decoder.old.bytes }
    ensures contexts { length contexts.new ≡ length contexts.old }
    ensures run_tests { steps.new.run_tests ≤ steps.old.run_tests + 1 }
    ensures loads { steps.new.loads ≡ steps.old.loads }
    ensures words { steps.new.words ≡ steps.old.words }
    ensures lanes { KeepsLanes steps.old steps.new }
{
    let shown = WideWindows {
        first: windows,
        second: windows,
    };
    push_bytes(neighbours, 1, left, shown, decoder, contexts, steps).pixels
}

/// Decodes a row of `width` pixels by the windows around its first column. The first pixel is in
/// the highest of the lowest `width` bits.
#[inline(always)]
fn push_row<L: Ledger>(
    neighbours: Neighbours,
    width: u32,
    windows: Windows,
    decoder: &mut ArithmeticDecoder<'_>,
    contexts: &mut [ArithmeticDecoderContext],
    steps: &mut Steps<L>,
) -> u64
    requires near { IsNear neighbours }
    requires contexts { length contexts.old ≡ 2 ^ neighbour_count neighbours }
    requires some { 1 ≤ width }
    requires few { width ≤ 48 }
    ensures pixels { PushesRow neighbours width windows width result
        (decoder_state decoder.old contexts.old) (decoder_state decoder.new contexts.new) }
    ensures decisions { CountsRowPixels neighbours width windows width
        (decoder_state decoder.old contexts.old) steps.old.decisions steps.new.decisions }
    ensures bound { result < 2 ^ width }
    ensures bytes { decoder.new.bytes ≡ decoder.old.bytes }
    ensures contexts { length contexts.new ≡ length contexts.old }
    ensures run_tests { steps.new.run_tests ≤ steps.old.run_tests + (width - 1) / 8 }
    ensures loads { steps.new.loads ≡ steps.old.loads }
    ensures words { steps.new.words ≡ steps.old.words }
    ensures lanes { KeepsLanes steps.old steps.new }
{
    let whole = (width - 1) / 8;
    let mut pixels = 0;
    let mut shown = windows;
    for _ in 0..whole {
        let left = (pixels % 16) as u32;
        let byte = push_byte(neighbours, left, shown, decoder, contexts, steps);
        pixels = pixels * 256 + byte;
        shown = shown.right_by(8);
    }
    let count = width - 8 * whole;
    let left = (pixels % 16) as u32;
    let last = push_pixels(neighbours, count, left, shown, decoder, contexts, steps);
    pixels * (1 << count) + last
}

/// The windows around the first column of the next row, from those of a row and its `width` pixels.
#[inline(always)]
fn windows_below(windows: Windows, width: u32, pixels: u64) -> Windows
    requires some { 1 ≤ width }
    requires few { width ≤ 48 }
    requires bound { pixels < 2 ^ width }
    ensures { (g g' : Grid) (y : ℕ) → g'.width ≡ width → SameAbove g g' y →
        ((k : ℕ) → k < width → bit pixels (width - 1 - k) ≡ pixel_at g' k y) →
        Shows g 0 y 64 windows → Shows g' 0 (y + 1) 64 result }
{
    Windows {
        above: pixels << (56 - width),
        top: windows.above,
    }
}

/// Decodes all rows of a region into a white bitmap of its size.
#[inline(always)]
fn decode_rows<A: Allocator, L: Ledger>(
    neighbours: Neighbours,
    bitmap: &mut Bitmap<A>,
    decoder: &mut ArithmeticDecoder<'_>,
    contexts: &mut [ArithmeticDecoderContext],
    steps: &mut Steps<L>,
)
    requires { FitsNarrow neighbours bitmap.old contexts.old }
    ensures region { DecodesRegion (row_coding (nominal_pixels neighbours))
        (region_state bitmap.old decoder.old contexts.old)
        (region_state bitmap.new decoder.new contexts.new) }
    ensures steps { CountsNarrow neighbours (region_state bitmap.old decoder.old contexts.old)
        steps.old steps.new }
{
    let width = bitmap.width();
    let mut windows = Windows { above: 0, top: 0 };
    for y in 0..bitmap.height() {
        let pixels = push_row(neighbours, width, windows, decoder, contexts, steps);
        bitmap.store_pixels(0, y, width, pixels, steps);
        windows = windows_below(windows, width, pixels);
    }
}

/// The same for the template with the number `TEMPLATE`.
#[inline(never)]
fn decode_constant_rows<A: Allocator, L: Ledger, const TEMPLATE: u8>(
    neighbours: Neighbours,
    bitmap: &mut Bitmap<A>,
    decoder: &mut ArithmeticDecoder<'_>,
    contexts: &mut [ArithmeticDecoderContext],
    steps: &mut Steps<L>,
)
    requires same { neighbours ≡ nominal_neighbours (template_of (TEMPLATE % 4)) }
    requires fits { FitsNarrow neighbours bitmap.old contexts.old }
    ensures region { DecodesRegion (row_coding (nominal_pixels neighbours))
        (region_state bitmap.old decoder.old contexts.old)
        (region_state bitmap.new decoder.new contexts.new) }
    ensures steps { CountsNarrow neighbours (region_state bitmap.old decoder.old contexts.old)
        steps.old steps.new }
{
    let constant = nominal_neighbours(Template::from_byte(TEMPLATE));
    decode_rows(constant, bitmap, decoder, contexts, steps);
}

/// Decodes a whole region of 1 to 48 columns into a white bitmap of its size.
pub fn decode_narrow<A: Allocator, L: Ledger>(
    neighbours: Neighbours,
    bitmap: &mut Bitmap<A>,
    decoder: &mut ArithmeticDecoder<'_>,
    contexts: &mut [ArithmeticDecoderContext],
    steps: &mut Steps<L>,
)
    requires { FitsNarrow neighbours bitmap.old contexts.old }
    ensures region { DecodesRegion (row_coding (nominal_pixels neighbours))
        (region_state bitmap.old decoder.old contexts.old)
        (region_state bitmap.new decoder.new contexts.new) }
    ensures steps { CountsNarrow neighbours (region_state bitmap.old decoder.old contexts.old)
        steps.old steps.new }
{
    by_template!(
        neighbours,
        decode_constant_rows(neighbours, bitmap, decoder, contexts, steps)
    );
    decode_rows(neighbours, bitmap, decoder, contexts, steps);
}
