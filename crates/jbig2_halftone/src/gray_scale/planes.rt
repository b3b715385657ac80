//! The coded planes of a gray-scale image, the highest first (T.88, C.5).
ghost use Rattle.std.specs.Prelude.{◌≡◌, ◌+◌, ◌*◌, ◌^◌, ◌≤◌, [], false, length, IfOk, OnOk, OnErr};
ghost use Rattle.jbig2_base.specs.Results.{Gives, Leaves};
ghost use Rattle.jbig2_base.specs.Counts.{KeepsLanes, bitmap_made, words_made};
ghost use Rattle.jbig2_base.specs.Grid.{blank, max_side};
ghost use Rattle.jbig2_region.specs.Raster.{no_pixels};
ghost use Rattle.jbig2_coder.specs.Coder.{fresh_contexts};
ghost use Rattle.jbig2_region.specs.Templates.{context_bits};
ghost use Rattle.jbig2_region.specs.inner.RegionStates.{DecodesRegion, region_state};
ghost use Rattle.jbig2_halftone.specs.GrayScale.{after_planes, gray_values, image_is_too_large, mmr_plane, planes_of};
ghost use Rattle.jbig2_halftone.specs.Steps.{CountsImage, StopsImage, cleared_by_planes, words_of_plane};
ghost use Rattle.jbig2_halftone.specs.inner.GrayScaleViews.{gray_view};
ghost use Rattle.jbig2_halftone.specs.inner.FunctionResults.{plane_coding, planes_by_coder, planes_by_mmr, planes_contexts, values_of, CountsCoded, CountsMmr, CountsOne, MovesByMmr, StopsCoded, StopsMmr};

use crate::gray_scale::GrayScaleParams;
use crate::gray_scale::lanes::add_plane;
use jbig2_base::bitmap::Bitmap;
use jbig2_base::error::Result;
use jbig2_coder::arithmetic_decoder::{
    ArithmeticDecoder, ArithmeticDecoderContext, fresh_contexts,
};
use jbig2_mmr::mmr;
use jbig2_region::generic::decode_coded;
use jbig2_region::skipping::decode_skipping;
use jbig2_region::template::GenericTemplatePixels;
use jbig2_steps::Steps;
use std::alloc::Allocator;
use std::sync::ledger::Ledger;

/// Decodes the next plane with the arithmetic coder, into a white bitmap of its size.
pub(crate) fn decode_plane<M: Allocator, A: Allocator, L: Ledger>(
    params: &GrayScaleParams<'_, M>,
    plane: &mut Bitmap<A>,
    decoder: &mut ArithmeticDecoder<'_>,
    contexts: &mut [ArithmeticDecoderContext],
    steps: &mut Steps<L>,
)
    requires columns { plane.old.width ≤ max_side }
    requires rows { plane.old.height ≤ max_side }
    requires white { plane.old ≡ blank plane.old.width plane.old.height false }
    requires contexts { length contexts.old ≡ 2 ^ context_bits params.now.template }
    ensures region { DecodesRegion (plane_coding (gray_view params.now))
        (region_state plane.old decoder.old contexts.old)
        (region_state plane.new decoder.new contexts.new) }
    ensures steps { CountsOne (gray_view params.now) plane.old.width plane.old.height
        decoder.old.bytes (no_pixels decoder.old.registers contexts.old) steps.old steps.new }
{
    // Table C.4
    let adaptive = params.template.nominal_pixels();
    if params.skip_mask.is_none() {
        let adaptive = GenericTemplatePixels::Regular(adaptive);
        decode_coded(
            params.template,
            false,
            &adaptive,
            plane,
            decoder,
            contexts,
            steps,
        );
        return;
    }
    decode_skipping(
        params.template,
        &adaptive,
        params.skip_mask,
        plane,
        decoder,
        contexts,
        steps,
    );
}

/// Decodes the planes with the arithmetic coder, and adds each to the values.
fn add_coded_planes<M: Allocator, A: Allocator + Clone, L: Ledger>(
    alloc: A,
    bytes: &[u8],
    params: &GrayScaleParams<'_, M>,
    contexts: &mut [ArithmeticDecoderContext],
    values: &mut [u32],
    steps: &mut Steps<L>,
) -> Result<()>
    requires sides { image_is_too_large (gray_view params.now) ≡ false }
    requires few { params.now.bits_per_pixel ≤ 32 }
    requires fresh { contexts.old ≡ fresh_contexts (context_bits params.now.template) }
    requires none { values.old ≡ gray_values params.now.width params.now.height [] }
    ensures value { Gives (λ _. values.new) result
        (values_of (gray_view params.now) (planes_by_coder (gray_view params.now) bytes.now)) }
    ensures contexts { Leaves result contexts.new
        (after_planes (gray_view params.now) bytes.now params.now.bits_per_pixel).contexts }
    ensures steps { OnOk result (CountsCoded (gray_view params.now) bytes.now
        params.now.bits_per_pixel steps.old steps.new) }
    ensures stopped { OnErr result
        (StopsCoded (gray_view params.now) bytes.now steps.old steps.new) }
    ensures cleared { OnOk result (steps.new.cleared
        ≡ steps.old.cleared + cleared_by_planes (gray_view params.now)) }
    ensures most { steps.new.cleared
        ≤ steps.old.cleared + cleared_by_planes (gray_view params.now) }
    ensures no_planes { params.now.bits_per_pixel ≡ 0 → steps.new ≡ steps.old }
{
    let mut decoder = ArithmeticDecoder::new(bytes);
    for _ in 0..params.bits_per_pixel {
        let mut plane = Bitmap::new(alloc.clone()?, params.width, params.height, steps)?;
        decode_plane(params, &mut plane, &mut decoder, contexts, steps);
        add_plane(&plane, values, steps);
    }
    Ok(())
}

/// Decodes the next plane with MMR, and gives the bytes after it.
pub(crate) fn read_mmr_plane<'a, M: Allocator, A: Allocator, L: Ledger>(
    alloc: A,
    bytes: &'a [u8],
    params: &GrayScaleParams<'_, M>,
    steps: &mut Steps<L>,
) -> Result<(Bitmap<A>, &'a [u8])>
    requires columns { params.now.width ≤ max_side }
    requires rows { params.now.height ≤ max_side }
    ensures value { Gives (λ read. (read.0, read.1.now)) result
        (mmr_plane (gray_view params.now) bytes.now) }
    ensures work { IfOk result (λ read. MovesByMmr (words_of_plane (gray_view params.now)) 1
        (length bytes.now) (length read.1.now) 0 steps.old steps.new) }
    ensures stopped { OnErr result (MovesByMmr (words_of_plane (gray_view params.now)) 1
        (length bytes.now) 0 0 steps.old steps.new) }
    ensures lanes { KeepsLanes (bitmap_made params.now.width params.now.height steps.old)
        steps.new }
{
    let mut plane = Bitmap::new(alloc, params.width, params.height, steps)?;
    let used = match mmr::decode(&mut plane, bytes, params.strict, steps) {
        Ok(used) => used,
        Err(error) => return Err(error),
    };
    Ok((plane, &bytes[used..]))
}

/// Decodes the planes with MMR, each after the bytes that those before it used, and adds each to the
/// values.
fn add_mmr_planes<M: Allocator, A: Allocator + Clone, L: Ledger>(
    alloc: A,
    bytes: &[u8],
    params: &GrayScaleParams<'_, M>,
    values: &mut [u32],
    steps: &mut Steps<L>,
) -> Result<()>
    requires sides { image_is_too_large (gray_view params.now) ≡ false }
    requires few { params.now.bits_per_pixel ≤ 32 }
    requires none { values.old ≡ gray_values params.now.width params.now.height [] }
    ensures value { Gives (λ _. values.new) result
        (values_of (gray_view params.now) (planes_by_mmr (gray_view params.now) bytes.now)) }
    ensures steps { OnOk result (CountsMmr (gray_view params.now) bytes.now
        params.now.bits_per_pixel steps.old steps.new) }
    ensures stopped { OnErr result
        (StopsMmr (gray_view params.now) bytes.now steps.old steps.new) }
    ensures cleared { OnOk result (steps.new.cleared
        ≡ steps.old.cleared + cleared_by_planes (gray_view params.now)) }
    ensures most { steps.new.cleared
        ≤ steps.old.cleared + cleared_by_planes (gray_view params.now) }
    ensures no_planes { params.now.bits_per_pixel ≡ 0 → steps.new ≡ steps.old }
{
    let mut rest = bytes;
    for _ in 0..params.bits_per_pixel {
        let (plane, others) = match read_mmr_plane(alloc.clone()?, rest, params, steps) {
            Ok(read) => read,
            Err(error) => return Err(error),
        };
        rest = others;
        add_plane(&plane, values, steps);
    }
    Ok(())
}

/// Decodes the planes of an image, and adds each to the values, which must all be 0 before. So one
/// plane is kept at a time. Afterwards `contexts` holds what the last plane leaves; MMR data does not
/// change it.
pub fn add_planes<M: Allocator, A: Allocator + Clone, B: Allocator, L: Ledger>(
    alloc: A,
    bytes: &[u8],
    params: &GrayScaleParams<'_, M>,
    contexts: &mut Vec<ArithmeticDecoderContext, B>,
    values: &mut [u32],
    steps: &mut Steps<L>,
) -> Result<()>
    requires sides { image_is_too_large (gray_view params.now) ≡ false }
    requires few { params.now.bits_per_pixel ≤ 32 }
    requires none { values.old ≡ gray_values params.now.width params.now.height [] }
    ensures value { Gives (λ _. values.new) result
        (values_of (gray_view params.now) (planes_of (gray_view params.now) bytes.now)) }
    ensures contexts { Leaves result contexts.new.items
        (planes_contexts (gray_view params.now) bytes.now contexts.old.items) }
    ensures steps { OnOk result (CountsImage (gray_view params.now) bytes.now
        steps.old steps.new) }
    ensures stopped { OnErr result
        (StopsImage (gray_view params.now) bytes.now steps.old steps.new) }
    ensures cleared { OnOk result (steps.new.cleared
        ≡ steps.old.cleared + cleared_by_planes (gray_view params.now)) }
    ensures most { steps.new.cleared
        ≤ steps.old.cleared + cleared_by_planes (gray_view params.now) }
    ensures no_planes { params.now.bits_per_pixel ≡ 0 → steps.new ≡ steps.old }
{
    if params.use_mmr {
        return add_mmr_planes(alloc, bytes, params, values, steps);
    }
    fresh_contexts(contexts, params.template.context_bits())?;
    add_coded_planes(alloc, bytes, params, contexts, values, steps)
}
