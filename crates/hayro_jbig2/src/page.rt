//! `Page`: a page of a file or an embedded one, its number and its size.
ghost use Rattle.std.specs.Prelude.{◌≡◌, IfErr};
ghost use Rattle.jbig2_base.specs.Results.{Gives};
ghost use Rattle.jbig2_page.specs.Page.{IsSide, page_from};
ghost use Rattle.jbig2_framing.specs.Reading.{reading_of};
ghost use Rattle.jbig2_framing.specs.declared.reading.Reading.TheVariants.{Salvage};
ghost use Rattle.jbig2_page.specs.inner.KeptViews.{found_value};
ghost use Rattle.jbig2_page.specs.Returned.{IsReturned};
ghost use Rattle.jbig2_page.specs.inner.PageViews.{given_names};

mod image;
mod output;

use crate::globals::{Globals, content_of};
use crate::settings::DecodeSettings;
use jbig2_base::error::Result;
use jbig2_framing::cut_off::CutOff;
use jbig2_framing::reading::Reading;
use jbig2_page::page::PageContent;
use std::alloc::Allocator;
use std::marker::Model;

/// A page: its segments, and how it begins. It borrows the bytes that it was read from.
#[derive(Drop)]
pub struct Page<'a, A: Allocator> {
    content: PageContent<'a, A>,
}

impl<'a, A: Allocator> Model for Page<'a, A> {
    ghost use Rattle.jbig2_page.specs.Page.{ReadPage};

    ghost Value = { ReadPage };

    ghost view = { λ page. page.content };
}

impl<'a, A: Allocator> Page<'a, A> {
    /// A page with this content.
    pub(crate) fn of_content(content: PageContent<'a, A>) -> Page<'a, A>
        ensures { result ≡ content.entry }
    {
        Page { content }
    }

    /// The page's number, which is its segments' page association.
    pub fn number(&self) -> u32
        ensures { result ≡ self.now.initial_page.number }
    {
        self.content.number()
    }

    /// The segment at which the list of the page's segments ended early, if it did. Lenient reading drops one that is
    /// cut off, salvage any that is refused. Of a page in a file it is the file's, if the page may lack something of it.
    /// After the page is drawn, the segment is among those that were passed over.
    pub fn cut_off(&self) -> Option<&CutOff>
        ensures { found_value (λ c. c) result ≡ self.now.cut_off }
    {
        self.content.cut_off()
    }

    /// The width in pixels, 1 to 65535.
    pub fn width(&self) -> u32
        ensures value { result ≡ self.now.initial_page.width }
        ensures side { IsSide result }
    {
        self.content.width()
    }

    /// The height in pixels, 1 to 65535.
    pub fn height(&self) -> u32
        ensures value { result ≡ self.now.initial_page.height }
        ensures side { IsSide result }
    {
        self.content.height()
    }

    /// The width and the height in pixels, 1 to 65535 each.
    pub fn dimensions(&self) -> (u32, u32)
        ensures value { result ≡ (self.now.initial_page.width, self.now.initial_page.height) }
        ensures sides { IsSide result.0 × IsSide result.1 }
    {
        self.content.dimensions()
    }
}

impl<'a, A: Allocator + Clone> Page<'a, A> {
    /// A page as in a PDF file: `bytes` hold its segments one after the other, without a file
    /// header. The segments may also refer to those of `globals`.
    ///
    /// Returns the first fault of the segments, or of the page's size.
    pub fn new_embedded(
        alloc: A,
        bytes: &'a [u8],
        globals: Option<&'a Globals<A>>,
        settings: &DecodeSettings,
    ) -> Result<Page<'a, A>>
        ensures value { Gives (λ page. page) result
            (page_from (reading_of settings.now.strict) (given_names globals.entry) bytes.now) }
        ensures errors { IfErr result IsReturned }
    {
        let content = PageContent::read(alloc, bytes, content_of(globals), settings.reading())?;
        Ok(Page { content })
    }

    /// The page as lenient reading has it, but damage leaves out as little as possible. The list of its segments ends
    /// at the first one that is refused. A segment that fails is passed over. Where page information and stripes leave
    /// the height open, the page ends with its lowest region.
    ///
    /// Where lenient reading gives a page, this gives the same. It is refused only where the segments have no page
    /// information with a possible size, or where memory runs out.
    pub fn salvaged_embedded(
        alloc: A,
        bytes: &'a [u8],
        globals: Option<&'a Globals<A>>,
    ) -> Result<Page<'a, A>>
        ensures value { Gives (λ page. page) result
            (page_from Salvage (given_names globals.entry) bytes.now) }
        ensures errors { IfErr result IsReturned }
    {
        let content = PageContent::read(alloc, bytes, content_of(globals), Reading::Salvage)?;
        Ok(Page { content })
    }
}
