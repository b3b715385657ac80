//! The part that is there of a segment whose data is cut off.
ghost use Rattle.std.specs.Prelude.{◌≡◌, ◌++◌, Ok};
ghost use Rattle.jbig2_base.specs.Results.{Gives};
ghost use Rattle.jbig2_framing.specs.inner.SegmentViews.{partial_view, segment_views};
ghost use Rattle.jbig2_page.specs.Files.{with_part};
ghost use Rattle.jbig2_page.specs.Page.{drawn_part, part_of_list};

use crate::region::is_immediate_region;
use jbig2_base::error::Result;
use jbig2_framing::reading::Reading;
use jbig2_framing::segment::Segment;
use jbig2_framing::sort::sort_segments;
use std::alloc::Allocator;

/// In salvage, what is there of a segment, if it is an immediate region.
fn drawn_part<A: Allocator>(
    reading: Reading,
    partial: Option<Segment<'_, A>>,
) -> Option<Segment<'_, A>>
    ensures { partial_view result ≡ drawn_part reading (partial_view partial.entry) }
{
    let segment = partial?;
    if matches!(reading, Reading::Salvage) && is_immediate_region(segment.header.segment_type) {
        return Some(segment);
    }
    None
}

/// Adds to the segments what is there of the one at which their list ends early, if it is drawn.
pub(crate) fn add_part<'a, A: Allocator>(
    segments: &mut Vec<Segment<'a, A>, A>,
    partial: Option<Segment<'a, A>>,
    reading: Reading,
) -> Result<()>
    ensures { Gives (λ _. segment_views segments.new.items) result
        (Ok (segment_views segments.old.items
        ++ part_of_list reading (partial_view partial.entry))) }
{
    if let Some(part) = drawn_part(reading, partial) {
        segments.push(part)?;
    }
    Ok(())
}

/// The same, where the segments are sorted by their numbers, and stay so.
pub(crate) fn insert_part<'a, A: Allocator>(
    segments: &mut Vec<Segment<'a, A>, A>,
    partial: Option<Segment<'a, A>>,
    reading: Reading,
) -> Result<()>
    ensures { Gives (λ _. segment_views segments.new.items) result
        (Ok (with_part (part_of_list reading (partial_view partial.entry))
        (segment_views segments.old.items))) }
{
    let Some(part) = drawn_part(reading, partial) else {
        return Ok(());
    };
    segments.push(part)?;
    sort_segments(segments)
}
