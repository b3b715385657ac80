//! Parses refinement regions, and finds the region or the part of the page that each refines (T.88, 7.4.7).
ghost use Rattle.std.specs.Prelude.{◌≡◌, ◌≤◌, ◌*◌, IfOk, if◌then◌else◌};
ghost use Rattle.jbig2_base.specs.Grid.{max_side};
ghost use Rattle.jbig2_base.specs.Results.{Returns, Gives};
ghost use Rattle.jbig2_framing.specs.inner.SegmentViews.{segment_view};
ghost use Rattle.jbig2_region.specs.inner.RegionViews.{region_view};
ghost use Rattle.jbig2_region.specs.Refinement.{refined_decoded};
ghost use Rattle.jbig2_region.specs.WholeRows.{refined_part};
ghost use Rattle.jbig2_region.specs.RefinementHeader.{IsRefinement};
ghost use Rattle.jbig2_region.specs.inner.RefinementHeaderViews.{header_view};
ghost use Rattle.jbig2_page.specs.Names.{first_kept};
ghost use Rattle.jbig2_page.specs.Regions.{page_area, referred_region, refinement_at};
ghost use Rattle.jbig2_page.specs.inner.KeptViews.{found_value, kept_values};
ghost use Rattle.jbig2_page.specs.inner.PageViews.{near_area};
ghost use Rattle.jbig2_page.specs.inner.ParsedRegions.{IsDecodable, DecodesTo};
ghost use Rattle.jbig2_page.specs.Causes.{BreaksRefinement};
ghost use Rattle.jbig2_base.specs.Causes.{HasCauseOrNoMemory};
ghost use Rattle.jbig2_page.specs.declared.kept.Kept.{Kept};
ghost use Rattle.jbig2_steps.specs.Work.{Paid, PaidBut, price_of_bitmap};

use crate::kept::{Kept, first_under};
use crate::region::parsed_region::ParsedRegion;
use crate::region::partial::refined_part;
use crate::region::references::References;
use crate::workspace::Workspace;
use jbig2_base::bitmap::Bitmap;
use jbig2_base::bitmap::part::Area;
use jbig2_base::error::{OverflowError, Result, SegmentError};
use jbig2_base::reader::Reader;
use jbig2_framing::segment::{Segment, is_partial};
use jbig2_region::decoded_region::DecodedRegion;
use jbig2_region::generic_refinement::{self, GenericRefinementRegionHeader};
use jbig2_region::region_info::RegionSegmentInfo;
use jbig2_steps::Work;
use std::alloc::Allocator;
use std::sync::ledger::Ledger;

/// The region that a number names: the first one that was kept under it.
fn region_named<'a, A: Allocator>(
    regions: &'a [Kept<DecodedRegion<A>>],
    number: u32,
) -> Option<&'a DecodedRegion<A>>
    ensures { found_value region_view result
        ≡ first_kept number (kept_values region_view regions.now) }
{
    first_under(regions, number)
}

/// The region that a segment's first referred number names, if it has one. Strict reading refuses a
/// number that names no region.
fn referred_region<'a, A: Allocator>(
    strict: bool,
    numbers: &[u32],
    regions: &'a [Kept<DecodedRegion<A>>],
) -> Result<Option<&'a DecodedRegion<A>>>
    ensures { Returns (λ r. found_value region_view r) result
        (referred_region strict numbers.now (kept_values region_view regions.now)) }
{
    let Some(number) = numbers.first() else {
        return Ok(None);
    };
    let region = region_named(regions, *number);
    if strict && region.is_none() {
        return Err(SegmentError::InvalidReference.into());
    }
    Ok(region)
}

/// The area of the page that a region covers, white outside the page. A coordinate of 2^31 or more
/// is refused.
fn page_area<A: Allocator, B: Allocator, L: Ledger>(
    alloc: A,
    page: &Bitmap<B>,
    region_info: &RegionSegmentInfo,
    work: &mut Work<L>,
) -> Result<DecodedRegion<A>>
    requires columns { region_info.now.width ≤ max_side }
    requires rows { region_info.now.height ≤ max_side }
    ensures value { Gives (λ area. region_view area) result (near_area page.now region_info.now) }
    ensures paid { let info = region_info.now in
        PaidBut (32 * price_of_bitmap info.width info.height) work.old work.new }
{
    let x = region_info.x_location;
    let y = region_info.y_location;
    if x >= 0x8000_0000 || y >= 0x8000_0000 {
        return Err(OverflowError::ReferenceOffset.into());
    }
    let area = Area {
        left: x,
        top: y,
        width: region_info.width,
        height: region_info.height,
    };
    Ok(DecodedRegion {
        bitmap: page.part(alloc, area, &mut work.steps)?,
        x_location: x,
        y_location: y,
        combination_operator: region_info.combination_operator,
    })
}

/// Parses a refinement of the page's area (T.88, 7.4.7.4).
fn parse_page_refinement<'a, 'n, 'r, A: Allocator + Clone, L: Ledger>(
    is_partial: bool,
    header: GenericRefinementRegionHeader<'a>,
    references: &References<'n, 'r, '_, A>,
    workspace: &Workspace<A>,
    work: &mut Work<L>,
) -> Result<ParsedRegion<'a, 'n, 'r, A>>
    requires parsed { IsRefinement (header_view header) }
    ensures value { DecodesTo result
        (let area = page_area references.now.page.now header.entry.region_info in
        if is_partial then refined_part (header_view header.entry) area
        else refined_decoded (header_view header.entry) area) }
    ensures parsed { IfOk result (λ region. IsDecodable region) }
    ensures paid { Paid work.old work.new }
{
    let info = &header.region_info;
    work.pay_bitmap(info.width, info.height)?;
    let area = page_area(
        workspace.alloc.clone()?,
        references.page,
        &header.region_info,
        work,
    )?;
    if is_partial {
        return refined_part(&header, &area, workspace, work);
    }
    Ok(ParsedRegion::PageRefinement { header, area })
}

/// Parses a refinement, of the region that it refers to or else of the page so far (T.88, 7.4.7).
#[tactic(auto, using(crate::proofs::SegmentCauses::refinement_cause), unfolding(crate::specs::Regions::refinement_at))]
pub(crate) fn parse_refinement<'a, 'n, 'r, A: Allocator + Clone, L: Ledger>(
    references: &References<'n, 'r, '_, A>,
    is_intermediate: bool,
    segment: &Segment<'a, A>,
    workspace: &Workspace<A>,
    work: &mut Work<L>,
) -> Result<ParsedRegion<'a, 'n, 'r, A>>
    ensures value { DecodesTo result
        (refinement_at references.now.names.strict is_intermediate references.now.page.now
        (kept_values region_view references.now.regions.now) (segment_view segment.now)) }
    ensures parsed { IfOk result (λ region. IsDecodable region) }
    ensures causes { HasCauseOrNoMemory result
        (BreaksRefinement references.now.names.strict is_intermediate references.now.page.now
        (kept_values region_view references.now.regions.now) (segment_view segment.now)) }
    ensures paid { Paid work.old work.new }
{
    let strict = references.names.strict;
    let numbers = &segment.header.referred_to_segments;
    let referred = referred_region(strict, numbers, references.regions)?;
    if strict && is_intermediate && referred.is_none() {
        return Err(SegmentError::InvalidReference.into());
    }
    let mut reader = Reader::new(segment.bytes);
    let header = generic_refinement::parse(&mut reader)?;
    let is_partial = is_partial(segment);
    let Some(reference) = referred else {
        return parse_page_refinement(is_partial, header, references, workspace, work);
    };
    if is_partial {
        return refined_part(&header, reference, workspace, work);
    }
    Ok(ParsedRegion::Refinement { header, reference })
}
