//! Sorts segments by their numbers.
ghost use Rattle.std.specs.Prelude.{◌≡◌, OnErr, Ok};
ghost use Rattle.jbig2_base.specs.Results.{Gives};
ghost use Rattle.jbig2_framing.specs.inner.SegmentViews.{segment_views};
ghost use Rattle.jbig2_framing.specs.Sequential.{by_number};

use crate::segment::Segment;
use jbig2_base::error::Result;
use std::alloc::Allocator;

/// Sorts the segments by their numbers (T.88, 7.2.2). Segments of equal number keep their order.
///
/// The sort takes a buffer from the collection's allocator. If it gets none, it returns
/// `DecodeError::OutOfMemory`, and nothing has moved.
pub fn sort_segments<A: Allocator>(segments: &mut Vec<Segment<'_, A>, A>) -> Result<()>
    ensures value { Gives (λ _. segment_views segments.new.items) result
        (Ok (by_number (segment_views segments.old.items))) }
    ensures unchanged { OnErr result (segments.new.items ≡ segments.old.items) }
{
    segments.sort_by_key(|segment| segment.header.segment_number)?;
    Ok(())
}
