//! Reads and decodes refinement regions (T.88, 6.3 and 7.4.7).
ghost use Rattle.std.specs.Prelude.{◌≡◌, OnErr, OnOk};
ghost use Rattle.jbig2_steps.specs.Work.{CountsBeside, CountsWithin, paid_words, price_of_bitmap};
ghost use Rattle.jbig2_base.specs.Results.{Returns, Gives, Leaves};
ghost use Rattle.jbig2_region.specs.RegionInfo.{IsWhiteFor, is_far};
ghost use Rattle.jbig2_region.specs.inner.RegionViews.{region_view};
ghost use Rattle.jbig2_region.specs.Refinement.{is_smaller, offset, refined_result, refined_contexts, refined_decoded};
ghost use Rattle.jbig2_region.specs.Steps.{CountsRefined, region_made};
ghost use Rattle.jbig2_region.specs.RefinementHeader.{IsRefinement};
ghost use Rattle.jbig2_region.specs.inner.RefinementHeaderViews.{header_view};
ghost use Rattle.jbig2_base.specs.Causes.{HasCause};
ghost use Rattle.jbig2_region.specs.Causes.{BreaksOffset};

pub mod header;
mod part;

use crate::decoded_region::DecodedRegion;
pub use crate::reference_bitmap::ReferenceBitmap;
pub use crate::refinement_coding::decode_bitmap;
use crate::region_info::RegionSegmentInfo;
pub use crate::template::adaptive::parse_template_pixels;
pub use header::{GenericRefinementRegionHeader, parse};
use jbig2_base::bitmap::Bitmap;
use jbig2_base::error::{OverflowError, RegionError, Result};
use jbig2_coder::arithmetic_decoder::{
    ArithmeticDecoder, ArithmeticDecoderContext, fresh_contexts,
};
use jbig2_steps::Steps;
pub use part::decode_part;
use std::alloc::Allocator;
use std::sync::ledger::Ledger;

/// Whether the reference is narrower or lower than the region.
fn is_smaller<B: Allocator>(reference: &DecodedRegion<B>, region_info: &RegionSegmentInfo) -> bool
    ensures { result ≡ is_smaller (region_view reference.now) region_info.now }
{
    reference.bitmap.width() < region_info.width || reference.bitmap.height() < region_info.height
}

fn is_far(location: u32) -> bool
    ensures { result ≡ is_far location }
{
    location >= 0x8000_0000
}

/// The place of the reference, seen from the region: columns to the right and rows down.
#[tactic(auto, using(crate::proofs::HeaderCauses::offset_cause), unfolding(crate::specs::Refinement::offset))]
fn offset<B: Allocator>(
    reference: &DecodedRegion<B>,
    region_info: &RegionSegmentInfo,
) -> Result<(i32, i32)>
    ensures value { Returns (λ d. d) result (offset (region_view reference.now) region_info.now) }
    ensures causes { HasCause result
        (BreaksOffset (region_view reference.now) region_info.now) }
{
    if is_smaller(reference, region_info) {
        return Err(RegionError::InvalidDimension.into());
    }
    if is_far(reference.x_location)
        || is_far(region_info.x_location)
        || is_far(reference.y_location)
        || is_far(region_info.y_location)
    {
        return Err(OverflowError::ReferenceOffset.into());
    }
    Ok((
        reference.x_location as i32 - region_info.x_location as i32,
        reference.y_location as i32 - region_info.y_location as i32,
    ))
}

/// Refines `reference` (T.88, 6.3) into a white bitmap of the region's size. The contexts begin
/// fresh, whatever `contexts` held. Afterwards `contexts` holds them as the region leaves them.
///
/// Returns `RegionError::InvalidDimension` if the reference is narrower or lower than the region,
/// `OverflowError::ReferenceOffset` if a place of either is 2^31 or more, or `OutOfMemory` if there
/// is no memory for the contexts. An error leaves the bitmap as it was, and the contexts too unless
/// memory ran out. It takes no step. The counts are within the price of a bitmap of this size, which
/// also pays for making it.
pub fn decode_into<A: Allocator, B: Allocator, C: Allocator, L: Ledger>(
    header: &GenericRefinementRegionHeader<'_>,
    reference: &DecodedRegion<B>,
    bitmap: &mut Bitmap<A>,
    contexts: &mut Vec<ArithmeticDecoderContext, C>,
    steps: &mut Steps<L>,
) -> Result<()>
    requires parsed { IsRefinement (header_view header.now) }
    requires white { IsWhiteFor header.now.region_info bitmap.old }
    ensures value { Gives (λ _. bitmap.new) result
        (refined_result (header_view header.now) (region_view reference.now)) }
    ensures contexts { Leaves result contexts.new.items
        (refined_contexts (header_view header.now) (region_view reference.now) contexts.old.items) }
    ensures same { OnErr result (bitmap.new ≡ bitmap.old) }
    ensures steps { OnOk result
        (CountsRefined (header_view header.now) (region_view reference.now) steps.old steps.new) }
    ensures stopped { OnErr result (steps.new ≡ steps.old) }
    ensures paid { let info = header.now.region_info in
        CountsBeside (paid_words info.width info.height)
        (price_of_bitmap info.width info.height) steps.old steps.new }
{
    let region_info = &header.region_info;
    let (dx, dy) = offset(reference, region_info)?;
    let refined = ReferenceBitmap {
        bitmap: &reference.bitmap,
        dx,
        dy,
    };
    fresh_contexts(contexts, header.template.context_bits())?;
    let mut decoder = ArithmeticDecoder::new(header.bytes);
    decode_bitmap(
        header.template,
        header.tpgron,
        &header.adaptive_template_pixels,
        &refined,
        bitmap,
        &mut decoder,
        contexts,
        steps,
    );
    Ok(())
}

/// Refines `reference` (T.88, 6.3), as `decode_into` does, into a new bitmap.
///
/// `OutOfMemory` if there is no memory for the bitmap or the contexts, or an error of
/// `decode_into`.
pub fn decode<A: Allocator, B: Allocator, C: Allocator, L: Ledger>(
    alloc: A,
    header: &GenericRefinementRegionHeader<'_>,
    reference: &DecodedRegion<B>,
    contexts: &mut Vec<ArithmeticDecoderContext, C>,
    steps: &mut Steps<L>,
) -> Result<DecodedRegion<A>>
    requires { IsRefinement (header_view header.now) }
    ensures value { Gives region_view result
        (refined_decoded (header_view header.now) (region_view reference.now)) }
    ensures contexts { Leaves result contexts.new.items
        (refined_contexts (header_view header.now) (region_view reference.now) contexts.old.items) }
    ensures steps { OnOk result
        (CountsRefined (header_view header.now) (region_view reference.now)
        (region_made header.now.region_info steps.old) steps.new) }
    ensures stopped { OnErr result
        (steps.new ≡ region_made header.now.region_info steps.old) }
    ensures paid { let info = header.now.region_info in
        CountsWithin (price_of_bitmap info.width info.height) steps.old steps.new }
{
    let region_info = &header.region_info;
    let mut bitmap = Bitmap::new(alloc, region_info.width, region_info.height, steps)?;
    decode_into(header, reference, &mut bitmap, contexts, steps)?;
    Ok(DecodedRegion::new(region_info, bitmap))
}
