//! The whole rows of a gray-scale image whose data is cut off (our own rule).
ghost use Rattle.std.specs.Prelude.{◌≡◌, ◌≤◌, ◌-◌, ◌*◌, ◌^◌, false, true, length, max, Ok, OnOk};
ghost use Rattle.jbig2_steps.specs.Work.{CountsWithin, price_of_bitmap};
ghost use Rattle.jbig2_base.specs.Grid.{max_side};
ghost use Rattle.jbig2_base.specs.Results.{Gives};
ghost use Rattle.jbig2_coder.specs.Coder.{fresh_contexts};
ghost use Rattle.jbig2_region.specs.Templates.{context_bits};
ghost use Rattle.jbig2_halftone.specs.Steps.{price_of_image};
ghost use Rattle.jbig2_halftone.specs.WholeCells.{whole_image_rows};
ghost use Rattle.jbig2_halftone.specs.inner.FunctionResults.{whole_coded_rows, mmr_rows_left};
ghost use Rattle.jbig2_halftone.specs.inner.GrayScaleViews.{gray_view};

use crate::gray_scale::GrayScaleParams;
use crate::gray_scale::planes::{decode_plane, read_mmr_plane};
use jbig2_base::bitmap::Bitmap;
use jbig2_base::error::Result;
use jbig2_coder::arithmetic_decoder::{
    ArithmeticDecoder, ArithmeticDecoderContext, fresh_contexts,
};
use jbig2_mmr::mmr;
use jbig2_region::generic::count_regular_rows;
use jbig2_steps::Steps;
use std::alloc::Allocator;
use std::sync::ledger::Ledger;

/// Counts the whole rows of the last plane that the arithmetic coder wrote.
fn count_coded_rows<M: Allocator, A: Allocator + Clone, L: Ledger>(
    alloc: A,
    bytes: &[u8],
    params: &GrayScaleParams<'_, M>,
    contexts: &mut [ArithmeticDecoderContext],
    steps: &mut Steps<L>,
) -> Result<u32>
    requires planes { 1 ≤ params.now.bits_per_pixel }
    requires some { 1 ≤ params.now.width }
    requires columns { params.now.width ≤ max_side }
    requires rows { params.now.height ≤ max_side }
    requires fresh { contexts.old ≡ fresh_contexts (context_bits params.now.template) }
    ensures value { Gives (λ rows. rows) result
        (Ok (whole_coded_rows (gray_view params.now) bytes.now (params.now.bits_per_pixel - 1))) }
    ensures paid { CountsWithin
        (price_of_bitmap params.now.width params.now.height * params.now.bits_per_pixel)
        steps.old steps.new }
{
    let mut decoder = ArithmeticDecoder::new(bytes);
    for _ in 0..params.bits_per_pixel - 1 {
        let mut plane = Bitmap::new(alloc.clone()?, params.width, params.height, steps)?;
        decode_plane(params, &mut plane, &mut decoder, contexts, steps);
    }
    let mut last = Bitmap::new(alloc, params.width, params.height, steps)?;
    let rows = count_regular_rows(
        params.template,
        false,
        &params.template.nominal_pixels(),
        params.skip_mask,
        &mut last,
        &mut decoder,
        contexts,
        steps,
    );
    Ok(rows)
}

/// Counts the whole rows of the last plane of MMR data.
fn count_mmr_rows<M: Allocator, A: Allocator + Clone, L: Ledger>(
    alloc: A,
    bytes: &[u8],
    params: &GrayScaleParams<'_, M>,
    steps: &mut Steps<L>,
) -> Result<u32>
    requires mmr { params.now.use_mmr ≡ true }
    requires lenient { params.now.strict ≡ false }
    requires planes { 1 ≤ params.now.bits_per_pixel }
    requires columns { params.now.width ≤ max_side }
    requires rows { params.now.height ≤ max_side }
    ensures value { Gives (λ rows. rows) result
        (Ok (mmr_rows_left (gray_view params.now) bytes.now (params.now.bits_per_pixel - 1))) }
    ensures paid { CountsWithin (price_of_image (gray_view params.now) bytes.now)
        steps.old steps.new }
{
    let mut rest = bytes;
    for _ in 0..params.bits_per_pixel - 1 {
        let (_plane, others) = match read_mmr_plane(alloc.clone()?, rest, params, steps) {
            Ok(read) => read,
            Err(error) => return Err(error),
        };
        rest = others;
    }
    let mut last = Bitmap::new(alloc, params.width, params.height, steps)?;
    Ok(mmr::count_rows(&mut last, rest, steps))
}

/// How many rows of a gray-scale image (T.88, Annex C) are whole: those of its last plane. An image
/// without planes or without columns has all its rows. Decodes each plane into a bitmap of its own. MMR
/// data must be read leniently. `contexts` then hold any state. The counts are within the price of an
/// image.
///
/// Returns `OutOfMemory` if there is no memory for a plane or the contexts.
pub fn whole_image_rows<M: Allocator, A: Allocator + Clone, B: Allocator, L: Ledger>(
    alloc: A,
    bytes: &[u8],
    params: &GrayScaleParams<'_, M>,
    contexts: &mut Vec<ArithmeticDecoderContext, B>,
    steps: &mut Steps<L>,
) -> Result<u32>
    requires lenient { params.now.strict ≡ false }
    requires columns { params.now.width ≤ max_side }
    requires rows { params.now.height ≤ max_side }
    ensures value { Gives (λ rows. rows) result
        (Ok (whole_image_rows (gray_view params.now) bytes.now)) }
    ensures few { OnOk result
        (length contexts.new.items ≤ max (length contexts.old.items) (2 ^ 16)) }
    ensures paid { CountsWithin (price_of_image (gray_view params.now) bytes.now)
        steps.old steps.new }
{
    if params.bits_per_pixel == 0 || params.width == 0 {
        return Ok(params.height);
    }
    if params.use_mmr {
        return count_mmr_rows(alloc, bytes, params, steps);
    }
    fresh_contexts(contexts, params.template.context_bits())?;
    count_coded_rows(alloc, bytes, params, contexts, steps)
}
