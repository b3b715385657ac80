//! Reads an embedded page (T.88, 7.4.8 and D.3), and gives its number and its size.
ghost use Rattle.std.specs.Prelude.{◌≡◌, IfErr};
ghost use Rattle.jbig2_base.specs.Results.{Gives};
ghost use Rattle.jbig2_page.specs.Page.{HasSides, IsSide, ReadPage, page_from};
ghost use Rattle.jbig2_page.specs.inner.KeptViews.{found_value};
ghost use Rattle.jbig2_page.specs.Causes.{IsFromInput};
ghost use Rattle.jbig2_page.specs.Returned.{IsReturned};
ghost use Rattle.jbig2_page.specs.inner.PageViews.{given_names, kept_names};
ghost use Rattle.jbig2_page.specs.inner.SegmentLists.{segment_list};
ghost use Rattle.jbig2_framing.specs.inner.SegmentViews.{segment_views};

pub(crate) mod beginning;
mod calls;
pub mod decoder;
pub mod form;
mod image;
mod output;
mod page_segments;
pub(crate) mod part;

use crate::globals::GlobalsContent;
use crate::page::beginning::beginning_of;
use crate::page::page_segments::PageSegments;
use crate::page::part::add_part;
use jbig2_base::error::Result;
use jbig2_framing::cut_off::CutOff;
use jbig2_framing::page_info::InitialPage;
use jbig2_framing::reading::Reading;
use jbig2_framing::segment::Segment;
use jbig2_framing::segment_list::parse_segments_sequential;
use jbig2_framing::sort::sort_segments;
use std::alloc::Allocator;
use std::marker::Model;

/// What is read of a page: its segments, and how it begins. It borrows the bytes that it was read from.
#[derive(Drop)]
pub struct PageContent<'a, A: Allocator> {
    reading: Reading,
    initial_page: InitialPage,
    segments: PageSegments<'a, A>,
    globals: Result<Option<&'a GlobalsContent<A>>>,
    cut_off: Option<CutOff>,
}

impl<'a, A: Allocator> Model for PageContent<'a, A> {
    ghost use Rattle.std.specs.Prelude.{IfErr};
    ghost use Rattle.jbig2_framing.specs.inner.SegmentViews.{segment_views};
    ghost use Rattle.jbig2_page.specs.Causes.{IsFromInput};
    ghost use Rattle.jbig2_page.specs.Page.{HasSides, ReadPage};
    ghost use Rattle.jbig2_page.specs.inner.PageViews.{kept_names};
    ghost use Rattle.jbig2_page.specs.inner.SegmentLists.{segment_list};

    ghost Value = { ReadPage };

    ghost view = { λ page. record {
      reading = page.reading;
      initial_page = page.initial_page;
      segments = segment_views (segment_list page.segments);
      globals = kept_names page.globals;
      cut_off = page.cut_off;
    } };

    ghost invariant = { λ page. HasSides page.initial_page
        × IfErr (kept_names page.globals) IsFromInput };
}

impl<'a, A: Allocator> PageContent<'a, A> {
    /// A page of a file. The file holds the segments and the result of decoding the globals.
    pub(crate) fn of_file(
        reading: Reading,
        initial_page: InitialPage,
        segments: &'a Vec<Segment<'a, A>, A>,
        globals: Result<Option<&'a GlobalsContent<A>>>,
        cut_off: Option<CutOff>,
    ) -> PageContent<'a, A>
        requires sides { HasSides initial_page }
        requires from_input { IfErr (kept_names globals) IsFromInput }
        ensures { result ≡ record {
          reading = reading;
          initial_page = initial_page;
          segments = segment_views segments.now.items;
          globals = kept_names globals.entry;
          cut_off = cut_off;
        } }
    {
        PageContent {
            reading,
            initial_page,
            segments: PageSegments::Borrowed(segments),
            globals,
            cut_off,
        }
    }

    /// The allocator of the page's memory.
    pub fn allocator(&self) -> &A {
        self.segments.as_vec().allocator()
    }

    /// The page's number, which is its segments' page association.
    pub fn number(&self) -> u32
        ensures { result ≡ self.now.initial_page.number }
    {
        self.initial_page.number
    }

    /// The segment at which the list of the page's segments ended early, if it did: lenient reading drops one that is
    /// cut off, salvage any that is refused. Of a page in a file it is the file's, if the page may lack something of it.
    pub fn cut_off(&self) -> Option<&CutOff>
        ensures { found_value (λ c. c) result ≡ self.now.cut_off }
    {
        self.cut_off.as_ref()
    }

    /// The width in pixels, 1 to 65535.
    pub fn width(&self) -> u32
        ensures value { result ≡ self.now.initial_page.width }
        ensures side { IsSide result }
    {
        self.initial_page.width
    }

    /// The height in pixels, 1 to 65535.
    pub fn height(&self) -> u32
        ensures value { result ≡ self.now.initial_page.height }
        ensures side { IsSide result }
    {
        self.initial_page.height
    }

    /// The width and the height in pixels, 1 to 65535 each.
    pub fn dimensions(&self) -> (u32, u32)
        ensures value { result ≡ (self.now.initial_page.width, self.now.initial_page.height) }
        ensures sides { IsSide result.0 × IsSide result.1 }
    {
        (self.initial_page.width, self.initial_page.height)
    }
}

impl<'a, A: Allocator + Clone> PageContent<'a, A> {
    /// A page as in a PDF file: `bytes` hold its segments one after the other, without a file header. The segments may
    /// also refer to those of `globals`.
    #[tactic(auto, unfolding(crate::specs::Page::page_from))]
    pub fn read(
        alloc: A,
        bytes: &'a [u8],
        globals: Option<&'a GlobalsContent<A>>,
        reading: Reading,
    ) -> Result<PageContent<'a, A>>
        ensures value { Gives (λ page. page) result
            (page_from reading (given_names globals.entry) bytes.now) }
        ensures errors { IfErr result IsReturned }
    {
        let mut list = parse_segments_sequential(alloc, bytes, reading)?;
        let partial = list.partial;
        add_part(&mut list.segments, partial, reading)?;
        sort_segments(&mut list.segments)?;
        let initial_page = beginning_of(reading, &list.segments)?;
        Ok(PageContent {
            reading,
            initial_page,
            segments: PageSegments::Owned(list.segments),
            globals: Ok(globals),
            cut_off: list.cut_off,
        })
    }
}
