//! The first page of a file that a reader gives.
ghost use Rattle.std.specs.Prelude.{◌≡◌, ◌*◌, Ok, IfErr, IfOk, IfSome, OnErr, length};
ghost use Rattle.jbig2_base.specs.Results.{Returns, Gives, some_or};
ghost use Rattle.jbig2_base.specs.Causes.{HasCause};
ghost use Rattle.jbig2_page.specs.Causes.{BreaksFirstPage};
ghost use Rattle.jbig2_page.specs.Files.{page_of};
ghost use Rattle.jbig2_page.specs.Page.{IsSide};
ghost use Rattle.jbig2_page.specs.Returned.{IsReturned};
ghost use Rattle.hayro_jbig2.specs.Readers.{IsLasting, IsReturnedOrIo, Opens, GivesAgain};
ghost use Rattle.hayro_jbig2.specs.WorkLimit.{TakesUnits};
ghost use Rattle.jbig2_page.specs.FirstPage.{first_image, first_packed, first_size};
ghost use Rattle.jbig2_page.specs.Image.{packed_size};

use crate::file::File;
use crate::jbig2_error::Jbig2Error;
use crate::page::Page;
use crate::reading::read_all;
use crate::settings::DecodeSettings;
use crate::work_limit::WorkLimit;
use jbig2_base::error::{DecodeError, FormatError};
use std::alloc::Allocator;
use std::io::Read;
use std::marker::Model;

const LENIENT: DecodeSettings = DecodeSettings { strict: false };

/// A decoder of the first page of a file, which is read leniently. It keeps the file's bytes.
#[derive(Drop)]
pub struct Jbig2Decoder<A: Allocator> {
    bytes: Vec<u8, A>,
    width: u32,
    height: u32,
    /// The units of work that each reading of the page may take.
    work: Option<u64>,
}

impl<A: Allocator> Model for Jbig2Decoder<A> {
    ghost use Rattle.std.specs.Prelude.{◌≡◌, Ok};
    ghost use Rattle.hayro_jbig2.specs.Readers.{Scan};
    ghost use Rattle.jbig2_page.specs.FirstPage.{first_size};

    ghost Value = { Scan };

    ghost view = { λ decoder.
        record { bytes = decoder.bytes.items; width = decoder.width; height = decoder.height } };

    ghost invariant = { λ decoder. first_size decoder.bytes.items
        ≡ Ok (decoder.width, decoder.height) };
}

/// The first page of a file.
#[tactic(auto, using(jbig2_page::proofs::Causes::first_page_cause))]
fn first_page_of<'f, A: Allocator>(file: &'f File<'_, A>) -> jbig2_base::error::Result<Page<'f, A>>
    ensures value { Returns (λ page. page) result
        (some_or (DecodeError.Format FormatError.MissingPageInfo) (page_of file.now 0)) }
    ensures causes { HasCause result (BreaksFirstPage file.now) }
{
    match file.page(0) {
        Some(page) => Ok(page),
        None => Err(FormatError::MissingPageInfo.into()),
    }
}

/// The width and the height of the first page.
#[tactic(auto, unfolding(jbig2_page::specs::FirstPage::first_page))]
fn first_size<A: Allocator + Clone>(
    alloc: A,
    bytes: &[u8],
    work: &mut WorkLimit,
) -> jbig2_base::error::Result<(u32, u32)>
    ensures value { Gives (λ size. size) result (first_size bytes.now) }
    ensures errors { IfErr result IsReturned }
    ensures limit { TakesUnits 0 work.old work.new }
{
    let file = File::new_within(alloc, bytes, &LENIENT, work)?;
    let page = first_page_of(&file)?;
    Ok(page.dimensions())
}

/// Writes the first page into `buf`, as `Page::read_image` does.
#[tactic(auto, unfolding(jbig2_page::specs::FirstPage::first_page))]
fn first_image<A: Allocator + Clone>(
    alloc: A,
    bytes: &[u8],
    work: &mut WorkLimit,
    buf: &mut [u8],
) -> jbig2_base::error::Result<()>
    requires { IfOk (first_size bytes.now) (λ size. length buf.old ≡ size.0 * size.1) }
    ensures value { Gives (λ _. buf.new) result (first_image bytes.now) }
    ensures unchanged { OnErr result (buf.new ≡ buf.old) }
    ensures errors { IfErr result IsReturned }
    ensures limit { TakesUnits 0 work.old work.new }
{
    let file = File::new_within(alloc, bytes, &LENIENT, work)?;
    let page = first_page_of(&file)?;
    page.read_image_within(buf, work)
}

/// Writes the first page into `buf`, as `Page::read_packed` does.
#[tactic(auto, unfolding(jbig2_page::specs::FirstPage::first_page))]
fn first_packed<A: Allocator + Clone>(
    alloc: A,
    bytes: &[u8],
    work: &mut WorkLimit,
    buf: &mut [u8],
) -> jbig2_base::error::Result<()>
    requires { IfOk (first_size bytes.now) (λ size. length buf.old ≡ packed_size size.0 size.1) }
    ensures value { Gives (λ _. buf.new) result (first_packed bytes.now) }
    ensures unchanged { OnErr result (buf.new ≡ buf.old) }
    ensures errors { IfErr result IsReturned }
    ensures limit { TakesUnits 0 work.old work.new }
{
    let file = File::new_within(alloc, bytes, &LENIENT, work)?;
    let page = first_page_of(&file)?;
    page.read_packed_within(buf, work)
}

impl<A: Allocator + Clone> Jbig2Decoder<A> {
    /// Reads the whole input, goes on after an interruption, and finds the first page.
    ///
    /// Returns `Jbig2Error::Io` where the reader fails in any other way, or where no end comes
    /// within 2^64 - 1 reads. Returns `Jbig2Error::Decode` for a fault of the file, or where memory
    /// runs out. The reader is dropped.
    pub fn new<R: Read + Drop>(alloc: A, reader: R) -> Result<Jbig2Decoder<A>, Jbig2Error>
        ensures opens { IfSome (R.remaining reader) (λ bytes. Opens bytes result) }
        ensures lasting { IfErr result IsLasting }
        ensures errors { IfErr result IsReturnedOrIo }
    {
        Jbig2Decoder::new_within(alloc, reader, &mut WorkLimit::new(None))
    }

    /// Reads the input as `new` does, within a limit of work. Later each reading of the page may take as many units as
    /// are left before this call. Where more are needed, the error is `DecodeError::OutOfMemory`.
    pub fn new_within<R: Read + Drop>(
        alloc: A,
        mut reader: R,
        work: &mut WorkLimit,
    ) -> Result<Jbig2Decoder<A>, Jbig2Error>
        ensures opens { IfSome (R.remaining reader) (λ bytes. Opens bytes result) }
        ensures lasting { IfErr result IsLasting }
        ensures errors { IfErr result IsReturnedOrIo }
        ensures limit { TakesUnits 0 work.old work.new }
    {
        let units = work.left();
        let bytes = read_all(alloc.clone()?, &mut reader)?;
        let (width, height) = first_size(alloc, &bytes, work)?;
        Ok(Jbig2Decoder {
            bytes,
            width,
            height,
            work: units,
        })
    }

    /// Writes the page into `buf`, which holds a byte for each pixel: rows from the top, 0 for
    /// black and 255 for white.
    ///
    /// Its only error is `Jbig2Error::Decode`; `buf` is then as it was.
    pub fn read_image(&self, buf: &mut [u8]) -> Result<(), Jbig2Error>
        requires { length buf.old ≡ self.now.width * self.now.height }
        ensures value { GivesAgain (λ _. buf.new) result (first_image self.now.bytes) }
        ensures unchanged { OnErr result (buf.new ≡ buf.old) }
        ensures errors { IfErr result IsReturnedOrIo }
    {
        let alloc = self.bytes.allocator().clone()?;
        let work = &mut WorkLimit::new(self.work);
        first_image(alloc, &self.bytes, work, buf)?;
        Ok(())
    }

    /// Writes the page into `buf` as packed rows, as `Page::read_packed` does.
    ///
    /// Its only error is `Jbig2Error::Decode`; `buf` is then as it was.
    pub fn read_packed(&self, buf: &mut [u8]) -> Result<(), Jbig2Error>
        requires { length buf.old ≡ packed_size self.now.width self.now.height }
        ensures value { GivesAgain (λ _. buf.new) result (first_packed self.now.bytes) }
        ensures unchanged { OnErr result (buf.new ≡ buf.old) }
        ensures errors { IfErr result IsReturnedOrIo }
    {
        let alloc = self.bytes.allocator().clone()?;
        let work = &mut WorkLimit::new(self.work);
        first_packed(alloc, &self.bytes, work, buf)?;
        Ok(())
    }
}

impl<A: Allocator> Jbig2Decoder<A> {
    /// The width and the height of the page in pixels, 1 to 65535 each.
    pub fn dimensions(&self) -> (u32, u32)
        ensures value { result ≡ (self.now.width, self.now.height) }
        ensures sides { IsSide result.0 × IsSide result.1 }
        ensures first { first_size self.now.bytes ≡ Ok result }
    {
        (self.width, self.height)
    }
}
