//! The segments of a file by their pages (T.88, 7.2.6).
ghost use Rattle.std.specs.Prelude.{◌≡◌, List, [], ◌∷◌, ◌++◌, Ok, MatchResult};
ghost use Rattle.jbig2_base.specs.Results.{Gives};
ghost use Rattle.jbig2_framing.specs.Segment.{SegmentView};
ghost use Rattle.jbig2_framing.specs.inner.SegmentViews.{segment_view, segment_views};
ghost use Rattle.jbig2_base.specs.declared.error.DecodeError.TheVariants.{OutOfMemory};
ghost use Rattle.jbig2_page.specs.inner.ByPages.{HasSegments, by_page_view};
ghost use Rattle.jbig2_page.specs.Files.{by_pages, of_page};

use jbig2_base::error::Result;
use jbig2_framing::segment::Segment;
use std::alloc::Allocator;
use std::collections::BTreeMap;

/// The segments of a file, each of them once: the segments of no page, and those of each page.
#[derive(Drop)]
pub(crate) struct SegmentsByPage<'a, A: Allocator> {
    /// The segments of association 0.
    pub(crate) shared: Vec<Segment<'a, A>, A>,
    /// The segments of each page, in the order in which the pages' numbers first occur.
    pub(crate) pages: Vec<Vec<Segment<'a, A>, A>, A>,
    /// The index in `pages` of the page with this number.
    places: BTreeMap<u32, usize, A>,
}

impl<'a, A: Allocator + Clone> SegmentsByPage<'a, A> {
    /// Sorts the segments of a file by their pages, and keeps their order.
    pub(crate) fn new(alloc: A, segments: Vec<Segment<'a, A>, A>) -> Result<SegmentsByPage<'a, A>>
        ensures { Gives by_page_view result
            (Ok (
              of_page 0 (segment_views segments.entry.items),
              by_pages (segment_views segments.entry.items),
            )) }
    {
        let mut by_page = SegmentsByPage {
            shared: Vec::new(alloc.clone()?),
            pages: Vec::new(alloc.clone()?),
            places: BTreeMap::new(alloc),
        };
        for segment in segments {
            match by_page.add(segment) {
                Ok(()) => {}
                Err(error) => return Err(error),
            }
        }
        Ok(by_page)
    }

    /// Adds a segment at the end of those of its page, or of association 0.
    fn add(&mut self, segment: Segment<'a, A>) -> Result<()>
        requires { (ps : List SegmentView) × HasSegments self.old ps }
        ensures { (ps : List SegmentView) → HasSegments self.old ps
            → MatchResult result (λ _. HasSegments self.new (ps ++ segment_view segment.entry ∷ []))
            (λ e. e ≡ OutOfMemory) }
    {
        let number = segment.header.page_association;
        if number == 0 {
            self.shared.push(segment)?;
            return Ok(());
        }
        match self.places.get(&number) {
            Some(place) => self.pages[*place].push(segment)?,
            None => {
                let mut own = Vec::new(self.pages.allocator().clone()?);
                own.push(segment)?;
                self.places.insert(number, self.pages.len())?;
                self.pages.push(own)?;
            }
        }
        Ok(())
    }
}
