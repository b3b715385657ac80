//! The segments that a page is drawn from.
ghost use Rattle.std.specs.Prelude.{◌≡◌};
ghost use Rattle.jbig2_page.specs.inner.SegmentLists.{segment_list};

use jbig2_framing::segment::Segment;
use std::alloc::Allocator;

/// The segments of a page in order: its own, or those that its file holds.
#[derive(Drop)]
pub(crate) enum PageSegments<'a, A: Allocator> {
    Owned(Vec<Segment<'a, A>, A>),
    Borrowed(&'a Vec<Segment<'a, A>, A>),
}

impl<'a, A: Allocator> PageSegments<'a, A> {
    pub(crate) fn as_vec(&self) -> &Vec<Segment<'a, A>, A>
        ensures { result.now.items ≡ segment_list self.now }
    {
        match self {
            PageSegments::Owned(segments) => segments,
            PageSegments::Borrowed(segments) => segments,
        }
    }
}
