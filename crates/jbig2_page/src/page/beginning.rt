//! Finds number, size and colour of a page before its first segment is drawn (T.88, 7.4.8).
ghost use Rattle.std.specs.Prelude.{◌≡◌, ◌≤◌, IfOk, min};
ghost use Rattle.jbig2_base.specs.Grid.{max_side};
ghost use Rattle.jbig2_base.specs.Results.{Returns};
ghost use Rattle.jbig2_framing.specs.inner.SegmentViews.{segment_view, segment_views};
ghost use Rattle.jbig2_page.specs.Page.{beginning_of, end_of, info_at, region_height, regions_height, known_height};

use crate::region::is_immediate_region;
use jbig2_base::bitmap::MAX_DIMENSION;
use jbig2_base::error::Result;
use jbig2_base::reader::Reader;
use jbig2_framing::page_info::{InitialPage, stripes_height};
use jbig2_framing::reading::Reading;
use jbig2_framing::segment::{Segment, SegmentType};
use jbig2_region::generic;
use jbig2_region::region_info::{RegionSegmentInfo, parse_region_segment_info};
use std::alloc::Allocator;

/// The row below the lowest row of a region, at most 65535. The region's y is read as a signed number (T.88, 7.4.1).
fn end_of(info: &RegionSegmentInfo) -> u32
    ensures { result ≡ min max_side (end_of info.now) }
{
    let above = info.y_location.wrapping_neg();
    if info.y_location >= 0x8000_0000 {
        return info.height.saturating_sub(above).min(MAX_DIMENSION);
    }
    info.y_location
        .saturating_add(info.height)
        .min(MAX_DIMENSION)
}

/// The information of a region (T.88, 7.4.1). A generic region of unknown length has the number of its rows after its
/// data (7.4.6.4).
fn info_at<A: Allocator>(segment: &Segment<'_, A>) -> Result<RegionSegmentInfo>
    ensures { Returns (λ info. info) result (info_at (segment_view segment.now)) }
{
    let mut reader = Reader::new(segment.bytes);
    let is_generic = matches!(
        segment.header.segment_type,
        SegmentType::ImmediateGenericRegion | SegmentType::ImmediateLosslessGenericRegion
    );
    if is_generic && segment.header.data_length.is_none() {
        let header = generic::parse(&mut reader, true, false)?;
        return Ok(header.region_info);
    }
    parse_region_segment_info(&mut reader)
}

/// How high a page is that ends with this region. It is 0 for all but an immediate region that can be read and drawn.
fn region_height<A: Allocator>(segment: &Segment<'_, A>) -> u32
    ensures { result ≡ region_height (segment_view segment.now) }
{
    if !is_immediate_region(segment.header.segment_type) {
        return 0;
    }
    let Ok(info) = info_at(segment) else {
        return 0;
    };
    if info.width > MAX_DIMENSION || info.height > MAX_DIMENSION {
        return 0;
    }
    end_of(&info)
}

fn regions_height<A: Allocator>(segments: &[Segment<'_, A>]) -> u32
    ensures { result ≡ regions_height (segment_views segments.now) }
{
    let mut height = 0;
    for segment in segments {
        height = region_height(segment).max(height);
    }
    height
}

/// How high a page with these segments is, where its page information leaves that open; 0 where nothing gives a height.
fn known_height<A: Allocator>(reading: Reading, segments: &[Segment<'_, A>]) -> u32
    ensures { result ≡ known_height reading (segment_views segments.now) }
{
    let stripes = stripes_height(segments);
    if stripes == 0 && matches!(reading, Reading::Salvage) {
        return regions_height(segments);
    }
    stripes
}

/// How a page with these segments begins. In salvage, where page information and stripes leave the height open, the
/// page ends with its lowest immediate region.
#[tactic(auto, unfolding(crate::specs::Page::beginning_of))]
pub(crate) fn beginning_of<A: Allocator>(
    reading: Reading,
    segments: &[Segment<'_, A>],
) -> Result<InitialPage>
    ensures value { Returns (λ initial_page. initial_page) result
        (beginning_of reading (segment_views segments.now)) }
    ensures fits { IfOk result
        (λ initial_page. (initial_page.width ≤ max_side) × (initial_page.height ≤ max_side)) }
{
    InitialPage::with_height(segments, known_height(reading, segments))
}
