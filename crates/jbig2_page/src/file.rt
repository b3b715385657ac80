//! Reads a file of pages (T.88, Annex D), in the work that a caller's counter allows.
ghost use Rattle.std.specs.Prelude.{◌≡◌, ◌+◌, ◌*◌, ◌≤◌, ◌++◌, Ok, OnOk, IfErr, IfOk};
ghost use Rattle.jbig2_base.specs.Results.{Returns, Gives};
ghost use Rattle.jbig2_framing.specs.CutOff.{file_cut_off};
ghost use Rattle.jbig2_framing.specs.inner.SegmentViews.{file_view, header_view, segment_views};
ghost use Rattle.jbig2_page.specs.inner.ByPages.{pages_view};
ghost use Rattle.jbig2_page.specs.Files.{needs_page, lacks_page, association_check, cut_off_of, is_end_of_page, ends_of, may_lack, page_in_file, pages_in_file, left_out_of, miscounts, book_at, segments_at, shared_by};
ghost use Rattle.jbig2_page.specs.Returned.{IsReturned};
ghost use Rattle.jbig2_page.specs.inner.PageViews.{kept_names};
ghost use Rattle.jbig2_page.specs.Causes.{BreaksBook, IsFromInput};
ghost use Rattle.jbig2_page.specs.SharedWork.{PaysShared, shared_count};
ghost use Rattle.jbig2_base.specs.Causes.{HasCauseOrNoMemory};
ghost use Rattle.jbig2_steps.specs.Work.{Paid, budget};
ghost use Rattle.jbig2_steps.specs.declared.prices.TheConstants as prices;

mod segments_by_page;

use crate::file::segments_by_page::SegmentsByPage;
use crate::globals::GlobalsContent;
use crate::page::PageContent;
use crate::page::beginning::beginning_of;
use crate::page::part::insert_part;
use jbig2_base::error::{DecodeError, FormatError, Result, SegmentError};
use jbig2_framing::cut_off::CutOff;
use jbig2_framing::file::{File, FileOrganization, parse_file};
use jbig2_framing::page_info::InitialPage;
use jbig2_framing::reading::Reading;
use jbig2_framing::segment::{Segment, SegmentHeader, SegmentType};
use jbig2_steps::Work;
use std::alloc::Allocator;
use std::marker::Model;
use std::sync::ledger::Ledger;

/// A page in a file.
#[derive(Drop)]
pub struct FilePage<'a, A: Allocator> {
    initial_page: InitialPage,
    segments: Vec<Segment<'a, A>, A>,
}

impl<'a, A: Allocator> Model for FilePage<'a, A> {
    ghost use Rattle.jbig2_framing.specs.inner.SegmentViews.{segment_views};
    ghost use Rattle.jbig2_page.specs.Files.{PageInFile};
    ghost use Rattle.jbig2_page.specs.Page.{HasSides};

    ghost Value = { PageInFile };

    ghost view = { λ page. record {
      initial_page = page.initial_page;
      segments = segment_views page.segments.items;
    } };

    ghost invariant = { λ page. HasSides page.initial_page };
}

/// What is read of a file: its pages, and what they share. It borrows the bytes that it was read from.
#[derive(Drop)]
pub struct FileContent<'a, A: Allocator> {
    pub reading: Reading,
    pub organization: FileOrganization,
    pub pages: Vec<FilePage<'a, A>, A>,
    /// What the segments of no page keep, or their error.
    pub globals: Result<GlobalsContent<A>>,
    /// Why pages were left out, in salvage: an error for each.
    pub left_out: Vec<DecodeError, A>,
    /// The segment at which the list of segments ended early, if it did.
    pub cut_off: Option<CutOff>,
}

impl<'a, A: Allocator> Model for FileContent<'a, A> {
    ghost use Rattle.std.specs.Prelude.{IfErr};
    ghost use Rattle.jbig2_page.specs.Causes.{IsFromInput};
    ghost use Rattle.jbig2_page.specs.Files.{ReadFile};

    ghost Value = { ReadFile };

    ghost view = { λ file. record {
      reading = file.reading;
      organization = file.organization;
      pages = file.pages.items;
      globals = file.globals;
      left_out = file.left_out.items;
      cut_off = file.cut_off;
    } };

    ghost invariant = { λ file. IfErr file.globals IsFromInput };
}

impl<'a, A: Allocator> FilePage<'a, A> {
    /// Whether the page may lack something of the segment at which the file's list of segments ends early.
    fn may_lack(&self, organization: FileOrganization) -> bool
        ensures { result ≡ may_lack organization self.now }
    {
        matches!(organization, FileOrganization::RandomAccess) || count_ends(&self.segments) == 0
    }

    /// The cut-off that the page has from its file.
    pub fn cut_off(
        &self,
        organization: FileOrganization,
        cut_off: &Option<CutOff>,
    ) -> Option<CutOff>
        ensures { result ≡ cut_off_of organization self.now cut_off.now }
    {
        match cut_off {
            None => None,
            Some(cut_off) => {
                if self.may_lack(organization) {
                    Some(cut_off.duplicate())
                } else {
                    None
                }
            }
        }
    }

    /// The page, with the result of decoding the globals of its file, and its cut-off.
    pub fn content<'p>(
        &'p self,
        reading: Reading,
        globals: Result<Option<&'p GlobalsContent<A>>>,
        cut_off: Option<CutOff>,
    ) -> PageContent<'p, A>
        requires { IfErr (kept_names globals) IsFromInput }
        ensures { result ≡ record {
          reading = reading;
          initial_page = self.now.initial_page;
          segments = self.now.segments;
          globals = kept_names globals.entry;
          cut_off = cut_off;
        } }
    {
        PageContent::of_file(reading, self.initial_page, &self.segments, globals, cut_off)
    }
}

fn needs_page(kind: SegmentType) -> bool
    ensures { result ≡ needs_page kind }
{
    !matches!(
        kind,
        SegmentType::SymbolDictionary
            | SegmentType::PatternDictionary
            | SegmentType::EndOfFile
            | SegmentType::Profiles
            | SegmentType::Tables
            | SegmentType::ColourPalette
            | SegmentType::Extension
            | SegmentType::Reserved
    )
}

fn lacks_page<A: Allocator>(strict: bool, header: &SegmentHeader<A>) -> bool
    ensures { result ≡ lacks_page strict (header_view header.now) }
{
    strict && header.page_association == 0 && needs_page(header.segment_type)
}

fn check_associations<A: Allocator>(strict: bool, segments: &[Segment<'_, A>]) -> Result<()>
    ensures { Returns (λ known. known) result
        (association_check strict (segment_views segments.now)) }
{
    for segment in segments {
        if lacks_page(strict, &segment.header) {
            return Err(SegmentError::MissingPageAssociation.into());
        }
    }
    Ok(())
}

fn is_end_of_page(kind: SegmentType) -> bool
    ensures { result ≡ is_end_of_page kind }
{
    matches!(kind, SegmentType::EndOfPage)
}

fn count_ends<A: Allocator>(segments: &[Segment<'_, A>]) -> usize
    ensures { result ≡ ends_of (segment_views segments.now) }
{
    let mut count = 0;
    for segment in segments {
        if is_end_of_page(segment.header.segment_type) {
            count += 1;
        }
    }
    count
}

/// The header of a file, and its segments in the order of their numbers. In salvage what is there of the segment at
/// which their list ends early is among them, if it is drawn.
#[tactic(auto, unfolding(crate::specs::Files::segments_at))]
fn read_segments<'a, A: Allocator + Clone>(
    alloc: A,
    bytes: &'a [u8],
    reading: Reading,
) -> Result<File<'a, A>>
    ensures value { Gives file_view result (segments_at reading bytes.now) }
    ensures cut_off { IfOk result (λ file. file.cut_off ≡ file_cut_off reading bytes.now) }
{
    let file = parse_file(alloc, bytes, reading)?;
    let mut segments = file.segments;
    insert_part(&mut segments, file.partial, reading)?;
    Ok(File {
        header: file.header,
        segments,
        cut_off: file.cut_off,
        partial: None,
    })
}

#[tactic(auto, unfolding(crate::specs::Files::page_in_file))]
fn read_page<'a, A: Allocator>(
    reading: Reading,
    own: Vec<Segment<'a, A>, A>,
) -> Result<FilePage<'a, A>>
    ensures { Returns (λ page. page) result (page_in_file reading (segment_views own.entry.items)) }
{
    if reading.is_strict() && count_ends(&own) != 1 {
        return Err(FormatError::InvalidEndOfPage.into());
    }
    let initial_page = beginning_of(reading, &own)?;
    Ok(FilePage {
        initial_page,
        segments: own,
    })
}

/// The pages with these segments, in order. Salvage adds the error of a page whose beginning fails to `left_out`.
fn read_pages<'a, A: Allocator>(
    alloc: A,
    reading: Reading,
    segments: Vec<Vec<Segment<'a, A>, A>, A>,
    left_out: &mut Vec<DecodeError, A>,
) -> Result<Vec<FilePage<'a, A>, A>>
    ensures value { Gives (λ v. v.items) result
        (pages_in_file reading (pages_view segments.entry.items)) }
    ensures left_out { OnOk result (left_out.new.items
        ≡ left_out.old.items ++ left_out_of reading (pages_view segments.entry.items)) }
{
    let mut pages = Vec::new(alloc);
    for own in segments {
        match read_page(reading, own) {
            Ok(page) => pages.push(page)?,
            Err(error) => {
                if !reading.is_salvaged(&error) {
                    return Err(error);
                }
                left_out.push(error)?;
            }
        }
    }
    Ok(pages)
}

fn miscounts(number_of_pages: Option<u32>, count: usize) -> bool
    ensures { result ≡ miscounts number_of_pages count }
{
    match number_of_pages {
        None => false,
        Some(number) => number as usize != count,
    }
}

/// What decoding the globals of these pages returns. If memory runs out, this call itself fails. Without pages the
/// globals are not decoded, since no page shows them.
#[tactic(auto, using(crate::proofs::Books::shares_none, crate::proofs::Books::shares_some))]
fn kept_globals<A: Allocator + Clone, L: Ledger>(
    alloc: A,
    reading: Reading,
    pages: &[FilePage<'_, A>],
    shared: &[Segment<'_, A>],
    work: &mut Work<L>,
) -> Result<Result<GlobalsContent<A>>>
    ensures value { Gives (λ kept. kept) result
        (Ok (shared_by reading pages.now (segment_views shared.now))) }
    ensures paid { Paid work.old work.new }
    ensures taken { IfOk result (λ kept. IfOk kept (λ _. budget work.new
        + 32 * (prices.SEGMENT * shared_count pages.now (segment_views shared.now)) ≤ budget work.old)) }
{
    if pages.is_empty() {
        return Ok(Ok(GlobalsContent::empty(alloc, None)?));
    }
    match GlobalsContent::of_segments(alloc, reading, shared, None, work) {
        Ok(globals) => Ok(Ok(globals)),
        Err(DecodeError::OutOfMemory) => Err(DecodeError::OutOfMemory),
        Err(error) => Ok(Err(error)),
    }
}

impl<'a, A: Allocator + Clone> FileContent<'a, A> {
    /// The file that `bytes` hold.
    ///
    /// Returns the first fault of the segments, then of their associations, of the count of pages, and of each page's
    /// end and size. Where there is a page, the segments of no page are decoded too, and at most 32 steps are counted
    /// for each unit of work that is left in `work`.
    #[tactic(auto, unfolding(crate::specs::Files::book_at))]
    pub fn read<L: Ledger>(
        alloc: A,
        bytes: &'a [u8],
        reading: Reading,
        work: &mut Work<L>,
    ) -> Result<FileContent<'a, A>>
        ensures value { Gives (λ file. file) result (book_at reading bytes.now) }
        ensures causes { HasCauseOrNoMemory result (BreaksBook reading bytes.now) }
        ensures errors { IfErr result IsReturned }
        ensures paid { Paid work.old work.new }
        ensures taken { let read = segments_at reading bytes.now in
            IfOk result (λ file. PaysShared read file work.old work.new) }
    {
        let strict = reading.is_strict();
        let file = read_segments(alloc.clone()?, bytes, reading)?;
        check_associations(strict, &file.segments)?;
        let segments = SegmentsByPage::new(alloc.clone()?, file.segments)?;
        if strict && miscounts(file.header.number_of_pages, segments.pages.len()) {
            return Err(FormatError::PageCountMismatch.into());
        }
        let mut left_out = Vec::new(alloc.clone()?);
        let pages = read_pages(alloc.clone()?, reading, segments.pages, &mut left_out)?;
        let globals = kept_globals(alloc, reading, &pages, &segments.shared, work)?;
        Ok(FileContent {
            reading,
            organization: file.header.organization,
            pages,
            globals,
            left_out,
            cut_off: file.cut_off,
        })
    }
}
