//! Regions that are decoded.
ghost use Rattle.std.specs.Prelude.{◌≡◌};
ghost use Rattle.jbig2_region.specs.RegionInfo.{at_location};
ghost use Rattle.jbig2_region.specs.inner.RegionViews.{region_view};

use crate::region_info::RegionSegmentInfo;
use jbig2_base::bitmap::Bitmap;
use jbig2_base::bitmap::operator::CombinationOperator;
use std::alloc::Allocator;

/// A region that is decoded, its place on the page and how it is combined with the page.
#[derive(Drop)]
pub struct DecodedRegion<A: Allocator> {
    pub bitmap: Bitmap<A>,
    pub x_location: u32,
    pub y_location: u32,
    pub combination_operator: CombinationOperator,
}

impl<A: Allocator> DecodedRegion<A> {
    /// This bitmap, at the place that the region's information gives.
    pub fn new(region_info: &RegionSegmentInfo, bitmap: Bitmap<A>) -> DecodedRegion<A>
        ensures { region_view result ≡ at_location region_info.now bitmap }
    {
        DecodedRegion {
            bitmap,
            x_location: region_info.x_location,
            y_location: region_info.y_location,
            combination_operator: region_info.combination_operator,
        }
    }
}
