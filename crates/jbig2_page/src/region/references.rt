//! The names and the regions that a region of a page may refer to (T.88, 7.3.1).

use crate::kept::Kept;
use crate::kept::names::Lookup;
use jbig2_base::bitmap::Bitmap;
use jbig2_region::decoded_region::DecodedRegion;
use std::alloc::Allocator;

/// Where a region's numbers are looked up, and the page so far. A refinement without numbers
/// refines the page.
#[derive(Drop)]
pub(crate) struct References<'n, 'r, 'p, A: Allocator> {
    pub(crate) names: Lookup<'n, A>,
    pub(crate) regions: &'r [Kept<DecodedRegion<A>>],
    pub(crate) page: &'p Bitmap<A>,
}
