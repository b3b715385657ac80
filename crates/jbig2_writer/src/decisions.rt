//! Codes the pixels of a generic region, each in its context (T.88, 6.2.5).
ghost use Rattle.std.specs.Prelude.{◌≡◌, ℕ, ◌+◌, ◌-◌, ◌*◌, ◌/◌, ◌^◌, ◌<◌, ◌≤◌, IfOk, OnOk};
ghost use Rattle.jbig2_base.specs.Grid.{max_side, pixel_at};
ghost use Rattle.jbig2_base.specs.Bits.{bit};
ghost use Rattle.jbig2_coder.specs.Encoder.{Codes, encoded_bytes};
ghost use Rattle.jbig2_inverses.specs.RegionWriter.{row_above, same_rows};
ghost use Rattle.jbig2_writer.specs.inner.Rows.{decisions_of_pixels, decisions_of_row, decisions_of_rows, typical_row};
ghost use Rattle.jbig2_writer.specs.inner.Windows.{CodesGroup, IsNarrow};
ghost use Rattle.jbig2_region.specs.inner.Neighbours.{nominal_pixels};

use crate::settings::ArithmeticCoding;
use crate::windows::{Windows, windows_at};
use jbig2_base::bitmap::Bitmap;
use jbig2_base::error::Result;
use jbig2_coder::mq::ListEncoder;
use jbig2_region::template::{Neighbours, nominal_neighbours};
use jbig2_steps::Steps;
use std::alloc::Allocator;
use std::sync::ledger::Ledger;

/// The 64 pixels from column `x` on in the row above row `y`. Above row 0 all is white.
fn pixels_above<B: Allocator, L: Ledger>(
    bitmap: &Bitmap<B>,
    x: u32,
    y: u32,
    steps: &mut Steps<L>,
) -> u64
    ensures bits { (k : ℕ) → k < 64
        → bit result (63 - k) ≡ row_above (pixel_at bitmap.now) y (x + k) }
    ensures bound { result < 2 ^ 64 }
    ensures steps { steps.new ≡ record steps.old { loads = steps.new.loads } }
    ensures loads { steps.new.loads ≤ steps.old.loads + 1 }
{
    if y == 0 {
        return 0;
    }
    bitmap.load_pixels(x, y - 1, 64, steps)
}

/// Whether row `y` is as the row above it. Above row 0 all is white.
fn is_as_above<B: Allocator, L: Ledger>(bitmap: &Bitmap<B>, y: u32, steps: &mut Steps<L>) -> bool
    ensures value { result ≡ same_rows bitmap.now.width (λ x. pixel_at bitmap.now x y)
        (row_above (pixel_at bitmap.now) y) }
    ensures steps { steps.new ≡ record steps.old { loads = steps.new.loads } }
    ensures loads { steps.new.loads ≤ steps.old.loads + 2 * ((bitmap.now.width + 63) / 64) }
{
    let width = bitmap.width();
    for index in 0..width.div_ceil(64) {
        let x = index * 64;
        let above = pixels_above(bitmap, x, y, steps);
        if bitmap.load_pixels(x, y, 64, steps) != above {
            return false;
        }
    }
    true
}

/// Codes `count` pixels from the windows' column on, each in its context.
#[inline(always)]
fn push_each<A: Allocator + Clone>(
    encoder: &mut ListEncoder<A>,
    neighbours: Neighbours,
    windows: Windows,
    count: u32,
) -> Result<()>
    requires near { IsNarrow neighbours }
    requires few { count ≤ 32 }
    ensures { OnOk result (CodesGroup neighbours windows count encoder.old encoder.new) }
{
    for offset in 0..count {
        let context = windows.context(neighbours, offset);
        encoder.push(context, windows.is_black(offset))?;
    }
    Ok(())
}

/// Codes `count` pixels from the windows' column on. Where all is white, the compiler knows that each context is 0.
#[inline(always)]
fn push_group<A: Allocator + Clone>(
    encoder: &mut ListEncoder<A>,
    neighbours: Neighbours,
    windows: Windows,
    count: u32,
) -> Result<()>
    requires near { IsNarrow neighbours }
    requires few { count ≤ 32 }
    ensures { OnOk result (CodesGroup neighbours windows count encoder.old encoder.new) }
{
    if windows.row == 0 && windows.above == 0 && windows.top == 0 {
        let white = Windows {
            row: 0,
            above: 0,
            top: 0,
        };
        return push_each(encoder, neighbours, white, count);
    }
    push_each(encoder, neighbours, windows, count)
}

/// Codes the pixels of row `y`.
#[inline(always)]
fn push_pixels<A: Allocator + Clone, B: Allocator, L: Ledger>(
    encoder: &mut ListEncoder<A>,
    neighbours: Neighbours,
    bitmap: &Bitmap<B>,
    y: u32,
    steps: &mut Steps<L>,
) -> Result<()>
    requires near { IsNarrow neighbours }
    requires columns { bitmap.now.width ≤ max_side }
    ensures pixels { OnOk result (Codes encoder.old encoder.new
        (decisions_of_pixels (nominal_pixels neighbours) bitmap.now y bitmap.now.width)) }
    ensures steps { steps.new ≡ record steps.old { loads = steps.new.loads } }
    ensures loads { steps.new.loads ≤ steps.old.loads + 3 * ((bitmap.now.width + 31) / 32) }
{
    let width = bitmap.width();
    for index in 0..width.div_ceil(32) {
        let x = index * 32;
        let count = (width - x).min(32);
        let windows = windows_at(bitmap, x, y, steps);
        push_group(encoder, neighbours, windows, count)?;
    }
    Ok(())
}

/// Codes row `y`, and returns whether the row is typical. `predicted` is that of the row before it.
fn push_row<A: Allocator + Clone, B: Allocator, L: Ledger>(
    encoder: &mut ListEncoder<A>,
    coding: &ArithmeticCoding,
    bitmap: &Bitmap<B>,
    y: u32,
    predicted: bool,
    steps: &mut Steps<L>,
) -> Result<bool>
    requires columns { bitmap.now.width ≤ max_side }
    ensures row { OnOk result
        (Codes encoder.old encoder.new (decisions_of_row coding.now bitmap.now y predicted)) }
    ensures typical { IfOk result (λ typical. typical ≡ typical_row coding.now bitmap.now y) }
    ensures steps { steps.new ≡ record steps.old { loads = steps.new.loads } }
    ensures loads { steps.new.loads ≤ steps.old.loads + 5 * ((bitmap.now.width + 31) / 32) }
{
    let neighbours = nominal_neighbours(coding.template);
    if !coding.typical {
        push_pixels(encoder, neighbours, bitmap, y, steps)?;
        return Ok(false);
    }
    let typical = is_as_above(bitmap, y, steps);
    encoder.push(coding.template.row_context(), typical != predicted)?;
    if typical {
        return Ok(true);
    }
    push_pixels(encoder, neighbours, bitmap, y, steps)?;
    Ok(false)
}

/// The coded bytes of the whole bitmap, as a generic region.
pub fn coded_rows<A: Allocator + Clone, B: Allocator, L: Ledger>(
    alloc: A,
    bitmap: &Bitmap<B>,
    coding: &ArithmeticCoding,
    steps: &mut Steps<L>,
) -> Result<Vec<u8, A>>
    requires columns { bitmap.now.width ≤ max_side }
    ensures bytes { IfOk result (λ v. v.items
        ≡ encoded_bytes (decisions_of_rows coding.now bitmap.now bitmap.now.height)) }
    ensures steps { steps.new ≡ record steps.old { loads = steps.new.loads } }
    ensures loads { steps.new.loads
        ≤ steps.old.loads + 5 * ((bitmap.now.width + 31) / 32 * bitmap.now.height) }
{
    let mut encoder = ListEncoder::new(alloc)?;
    let mut predicted = false;
    for y in 0..bitmap.height() {
        predicted = push_row(&mut encoder, coding, bitmap, y, predicted, steps)?;
    }
    encoder.finish()
}
