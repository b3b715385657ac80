//! The part that is there of a refinement whose data is cut off (our own rule).
ghost use Rattle.std.specs.Prelude.{◌≡◌, ◌≤◌, ◌*◌, ◌^◌, length, max, OnOk, Ok};
ghost use Rattle.jbig2_steps.specs.Work.{CountsWithin, price_of_bitmap};
ghost use Rattle.jbig2_base.specs.Results.{Gives};
ghost use Rattle.jbig2_region.specs.Refinement.{offset};
ghost use Rattle.jbig2_region.specs.RefinementHeader.{IsRefinement};
ghost use Rattle.jbig2_region.specs.WholeRows.{refined_part, whole_refined_rows};
ghost use Rattle.jbig2_region.specs.inner.RefinementHeaderViews.{header_view};
ghost use Rattle.jbig2_region.specs.inner.RegionViews.{region_view};

use crate::decoded_region::DecodedRegion;
use crate::generic_refinement::header::GenericRefinementRegionHeader;
use crate::generic_refinement::{decode, offset};
use crate::reference_bitmap::ReferenceBitmap;
use crate::refinement_coding::count_refined_rows;
use jbig2_base::bitmap::Bitmap;
use jbig2_base::bitmap::operator::CombinationOperator;
use jbig2_base::error::Result;
use jbig2_coder::arithmetic_decoder::{
    ArithmeticDecoder, ArithmeticDecoderContext, fresh_contexts,
};
use jbig2_steps::Steps;
use std::alloc::Allocator;
use std::sync::ledger::Ledger;

/// How many rows of a refinement are whole. `place` is the reference's place, seen from the region.
fn whole_rows<A: Allocator, B: Allocator, C: Allocator, L: Ledger>(
    alloc: A,
    header: &GenericRefinementRegionHeader<'_>,
    reference: &DecodedRegion<B>,
    place: (i32, i32),
    contexts: &mut Vec<ArithmeticDecoderContext, C>,
    steps: &mut Steps<L>,
) -> Result<u32>
    requires parsed { IsRefinement (header_view header.now) }
    requires near { offset (region_view reference.now) header.now.region_info ≡ Ok place }
    ensures value { Gives (λ rows. rows) result
        (Ok (whole_refined_rows (header_view header.now) (region_view reference.now))) }
    ensures paid { let info = header.now.region_info in
        CountsWithin (price_of_bitmap info.width info.height) steps.old steps.new }
{
    let region_info = &header.region_info;
    if region_info.width == 0 {
        return Ok(region_info.height);
    }
    let (dx, dy) = place;
    let refined = ReferenceBitmap {
        bitmap: &reference.bitmap,
        dx,
        dy,
    };
    let mut bitmap = Bitmap::new(alloc, region_info.width, region_info.height, steps)?;
    fresh_contexts(contexts, header.template.context_bits())?;
    let mut decoder = ArithmeticDecoder::new(header.bytes);
    Ok(count_refined_rows(
        header.template,
        header.tpgron,
        &header.adaptive_template_pixels,
        &refined,
        &mut bitmap,
        &mut decoder,
        contexts,
        steps,
    ))
}

/// What is there of a refinement whose data is cut off: the rows that are whole, and the reference
/// below them. The counts are within the price of four bitmaps of the region's size.
///
/// Returns `RegionError::InvalidDimension` and `OverflowError::ReferenceOffset` as `decode_into`
/// does, or `OutOfMemory` if there is no memory for a bitmap or the contexts. `contexts` then hold
/// any state.
#[tactic(auto, unfolding(crate::specs::WholeRows::refined_part))]
pub fn decode_part<A: Allocator + Clone, B: Allocator, C: Allocator, L: Ledger>(
    alloc: A,
    header: &GenericRefinementRegionHeader<'_>,
    reference: &DecodedRegion<B>,
    contexts: &mut Vec<ArithmeticDecoderContext, C>,
    steps: &mut Steps<L>,
) -> Result<DecodedRegion<A>>
    requires { IsRefinement (header_view header.now) }
    ensures value { Gives region_view result
        (refined_part (header_view header.now) (region_view reference.now)) }
    ensures paid { let info = header.now.region_info in
        CountsWithin (4 * price_of_bitmap info.width info.height) steps.old steps.new }
{
    let region_info = &header.region_info;
    let place = offset(reference, region_info)?;
    let rows = whole_rows(alloc.clone()?, header, reference, place, contexts, steps)?;
    let (width, height) = (region_info.width, region_info.height);
    let mut bitmap = Bitmap::new(alloc.clone()?, width, height, steps)?;
    let (dx, dy) = place;
    bitmap.combine(
        &reference.bitmap,
        dx,
        dy,
        CombinationOperator::Replace,
        steps,
    );
    let mut whole = *header;
    whole.region_info.height = rows;
    let refined = match decode(alloc, &whole, reference, contexts, steps) {
        Ok(refined) => refined,
        Err(error) => return Err(error),
    };
    bitmap.combine(&refined.bitmap, 0, 0, CombinationOperator::Replace, steps);
    Ok(DecodedRegion::new(region_info, bitmap))
}
