//! `File`: a file of pages (T.88, Annex D), and its pages by index.
ghost use Rattle.std.specs.Prelude.{◌≡◌, ℕ, IfErr, IfOk, length, slice_get};
ghost use Rattle.std.specs.Map.Iter.{GivesInOrder};
ghost use Rattle.jbig2_base.specs.Results.{Returns, Gives};
ghost use Rattle.jbig2_page.specs.Files.{book_at, page_of, pages_of, segments_at, PagesStandAlone};
ghost use Rattle.jbig2_framing.specs.Reading.{reading_of};
ghost use Rattle.jbig2_framing.specs.declared.reading.Reading.TheVariants.{Salvage};
ghost use Rattle.jbig2_page.specs.inner.KeptViews.{found_value};
ghost use Rattle.jbig2_page.specs.Page.{ReadPage};
ghost use Rattle.jbig2_page.specs.Returned.{IsReturned};
ghost use Rattle.jbig2_page.specs.inner.PageViews.{kept_names};
ghost use Rattle.jbig2_page.specs.Causes.{BreaksBook};
ghost use Rattle.jbig2_page.specs.Globals.{names_of};
ghost use Rattle.hayro_jbig2.specs.WorkLimit.{TakesUnits, TakesShared};
ghost use Rattle.jbig2_base.specs.Causes.{HasCauseOrNoMemory};

pub(crate) mod pages;

use crate::file::pages::Pages;
use crate::globals::Globals;
use crate::page::Page;
use crate::settings::DecodeSettings;
use crate::work_limit::WorkLimit;
use jbig2_base::error::{DecodeError, Result};
use jbig2_framing::cut_off::CutOff;
use jbig2_framing::file::FileOrganization;
use jbig2_framing::reading::Reading;
use jbig2_page::file::{FileContent, FilePage};
use jbig2_page::globals::GlobalsContent;
use std::alloc::Allocator;
use std::marker::{Brand, Model};
use std::sync::ledger::{Blank, Ledger};

/// A file: its pages, and what they share. It borrows the bytes that it was read from.
#[derive(Drop)]
pub struct File<'a, A: Allocator> {
    reading: Reading,
    organization: FileOrganization,
    pages: Vec<FilePage<'a, A>, A>,
    globals: Result<Globals<A>>,
    left_out: Vec<DecodeError, A>,
    cut_off: Option<CutOff>,
}

impl<'a, A: Allocator> Model for File<'a, A> {
    ghost use Rattle.std.specs.Prelude.{IfErr};
    ghost use Rattle.jbig2_page.specs.Causes.{IsFromInput};
    ghost use Rattle.jbig2_page.specs.Files.{ReadFile};

    ghost Value = { ReadFile };

    ghost view = { λ file. record {
      reading = file.reading;
      organization = file.organization;
      pages = file.pages.items;
      globals = file.globals;
      left_out = file.left_out.items;
      cut_off = file.cut_off;
    } };

    ghost invariant = { λ file. IfErr file.globals IsFromInput };
}

impl<'a, A: Allocator + Clone> File<'a, A> {
    /// The file that `bytes` hold (T.88, Annex D).
    ///
    /// Returns the first fault of the segments, then of their associations, of the count of pages,
    /// and of each page's end and size. Where there is a page, the segments of no page are decoded
    /// too; decoding a page returns a fault of theirs.
    pub fn new(alloc: A, bytes: &'a [u8], settings: &DecodeSettings) -> Result<File<'a, A>>
        ensures value { Gives (λ file. file) result
            (book_at (reading_of settings.now.strict) bytes.now) }
        ensures errors { IfErr result IsReturned }
    {
        File::new_within(alloc, bytes, settings, &mut WorkLimit::new(None))
    }

    /// The file as `new` has it. Decoding the segments of no page takes its work from this limit.
    pub fn new_within(
        alloc: A,
        bytes: &'a [u8],
        settings: &DecodeSettings,
        work: &mut WorkLimit,
    ) -> Result<File<'a, A>>
        ensures value { Gives (λ file. file) result
            (book_at (reading_of settings.now.strict) bytes.now) }
        ensures causes { HasCauseOrNoMemory result
            (BreaksBook (reading_of settings.now.strict) bytes.now) }
        ensures errors { IfErr result IsReturned }
        ensures limit { TakesUnits 0 work.old work.new }
        ensures taken { let read = segments_at (reading_of settings.now.strict) bytes.now in
            IfOk result (λ file. TakesShared read file work.old work.new) }
    {
        File::read(alloc, bytes, settings.reading(), work)
    }

    /// The file as lenient reading has it, but damage leaves out as little as possible. The list of segments ends at
    /// the first one that is refused. A page whose beginning fails is left out. A segment of no page that fails is
    /// passed over. Decoding the segments of no page takes its work from this limit.
    ///
    /// Where lenient reading gives a file, this gives the same. It is refused only for a fault of the file's header, or
    /// where memory or work runs out.
    pub fn salvaged(alloc: A, bytes: &'a [u8], work: &mut WorkLimit) -> Result<File<'a, A>>
        ensures value { Gives (λ file. file) result (book_at Salvage bytes.now) }
        ensures causes { HasCauseOrNoMemory result (BreaksBook Salvage bytes.now) }
        ensures errors { IfErr result IsReturned }
        ensures limit { TakesUnits 0 work.old work.new }
        ensures taken { let read = segments_at Salvage bytes.now in
            IfOk result (λ file. TakesShared read file work.old work.new) }
    {
        File::read(alloc, bytes, Reading::Salvage, work)
    }

    /// The file that `bytes` hold.
    fn read(
        alloc: A,
        bytes: &'a [u8],
        reading: Reading,
        work: &mut WorkLimit,
    ) -> Result<File<'a, A>>
        ensures value { Gives (λ file. file) result (book_at reading bytes.now) }
        ensures causes { HasCauseOrNoMemory result (BreaksBook reading bytes.now) }
        ensures errors { IfErr result IsReturned }
        ensures limit { TakesUnits 0 work.old work.new }
        ensures taken { let read = segments_at reading bytes.now in
            IfOk result (λ file. TakesShared read file work.old work.new) }
    {
        match read_counted::<A, Brand>(alloc, bytes, reading, work, Blank::new(7)) {
            Ok(content) => Ok(File::of_content(content)),
            Err(error) => Err(error),
        }
    }
}

/// What is read of the file, by a counter that may take what is left of the limit.
fn read_counted<'a, A: Allocator + Clone, L: Ledger>(
    alloc: A,
    bytes: &'a [u8],
    reading: Reading,
    limit: &mut WorkLimit,
    blank: Blank,
) -> Result<FileContent<'a, A>>
    requires name { blank.name ≡ L.name }
    requires parts { blank.parts ≡ L.parts }
    requires enough { blank.parts ≡ 7 }
    ensures value { Gives (λ file. file) result (book_at reading bytes.now) }
    ensures causes { HasCauseOrNoMemory result (BreaksBook reading bytes.now) }
    ensures errors { IfErr result IsReturned }
    ensures limit { TakesUnits 0 limit.old limit.new }
    ensures taken { let read = segments_at reading bytes.now in
        IfOk result (λ file. TakesShared read file limit.old limit.new) }
{
    let mut work = limit.counter::<L>(blank);
    let read = FileContent::read(alloc, bytes, reading, &mut work);
    limit.end(&work);
    read
}

/// What the pages of a file share, or its error.
fn shared_of<A: Allocator>(content: Result<GlobalsContent<A>>) -> Result<Globals<A>>
    ensures { result ≡ content }
{
    match content {
        Ok(content) => Ok(Globals { content }),
        Err(error) => Err(error),
    }
}

impl<'a, A: Allocator> File<'a, A> {
    /// A file with this content.
    fn of_content(content: FileContent<'a, A>) -> File<'a, A>
        ensures { result ≡ content.entry }
    {
        let FileContent {
            reading,
            organization,
            pages,
            globals,
            left_out,
            cut_off,
        } = content;
        File {
            reading,
            organization,
            pages,
            globals: shared_of(globals),
            left_out,
            cut_off,
        }
    }

    /// The number of pages.
    pub fn page_count(&self) -> usize
        ensures { result ≡ length self.now.pages }
    {
        self.pages.len()
    }

    /// Why pages were left out, in salvage: an error for each.
    pub fn left_out(&self) -> &[DecodeError]
        ensures { result.now ≡ self.now.left_out }
    {
        &self.left_out
    }

    /// The segment at which the list of segments ended early, if it did. Lenient reading drops one that is cut off,
    /// salvage any that is refused.
    pub fn cut_off(&self) -> Option<&CutOff>
        ensures { found_value (λ c. c) result ≡ self.now.cut_off }
    {
        self.cut_off.as_ref()
    }

    /// What the segments of no page keep, or their error.
    pub fn shared(&self) -> Result<&Globals<A>>
        ensures { Returns (λ globals. globals.now) result self.now.globals }
    {
        match &self.globals {
            Ok(globals) => Ok(globals),
            Err(error) => Err(error.duplicate()),
        }
    }

    /// The result of decoding the globals.
    fn globals(&self) -> Result<Option<&GlobalsContent<A>>>
        ensures { kept_names result ≡ names_of self.now.globals }
    {
        match &self.globals {
            Ok(globals) => Ok(Some(&globals.content)),
            Err(error) => Err(error.duplicate()),
        }
    }

    /// The page at this index, from 0; `None` after the last page.
    pub fn page(&self, index: usize) -> Option<Page<'_, A>>
        ensures value { result ≡ page_of self.now index }
        ensures alone { PagesStandAlone }
    {
        match self.pages.get(index) {
            Some(page) => {
                let cut_off = page.cut_off(self.organization, &self.cut_off);
                let content = page.content(self.reading, self.globals(), cut_off);
                Some(Page::of_content(content))
            }
            None => None,
        }
    }

    /// The pages in order: `page(index)` for each index below `page_count()`, from 0 on.
    pub fn pages(&self) -> Pages<'_, A>
        ensures all { result ≡ pages_of self.now }
        ensures each { (index : ℕ) → slice_get result index ≡ page_of self.now index }
        ensures runs { GivesInOrder ReadPage }
    {
        Pages::of_file(self)
    }
}
