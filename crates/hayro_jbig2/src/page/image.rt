//! Writes a page into a buffer: a byte or a bit for each pixel.
ghost use Rattle.std.specs.Prelude.{◌≡◌, ◌+◌, ◌*◌, ◌≤◌, IfErr, IfOk, OnErr, length};
ghost use Rattle.jbig2_base.specs.Results.{Gives};
ghost use Rattle.jbig2_page.specs.Forms.{bytes_of_page, size_in};
ghost use Rattle.jbig2_page.specs.Image.{image_of_page, packed_of_page, packed_size};
ghost use Rattle.jbig2_page.specs.Returned.{IsReturned};
ghost use Rattle.hayro_jbig2.specs.WorkLimit.{TakesUnits};
ghost use Rattle.jbig2_steps.specs.Work.{IsWithinLimit, Paid, price_of_bitmap, budget};

use crate::page::Page;
use crate::work_limit::WorkLimit;
use jbig2_base::error::Result;
use jbig2_page::page::form::Form;
use jbig2_steps::Work;
use std::alloc::Allocator;
use std::marker::Brand;
use std::sync::ledger::{Blank, Ledger};

impl<'a, A: Allocator + Clone> Page<'a, A> {
    /// Writes the page into `buf`, which holds a byte for each pixel: rows from the top, 0 for
    /// black and 255 for white.
    ///
    /// Returns the first fault that lenient reading does not pass over; `buf` is then as it was.
    pub fn read_image(&self, buf: &mut [u8]) -> Result<()>
        requires { length buf.old ≡ self.now.initial_page.width * self.now.initial_page.height }
        ensures value { Gives (λ _. buf.new) result (image_of_page self.now) }
        ensures unchanged { OnErr result (buf.new ≡ buf.old) }
        ensures errors { IfErr result IsReturned }
    {
        self.read_image_within(buf, &mut WorkLimit::new(None))
    }

    /// Writes the page as `read_image` does, within a limit of work.
    pub fn read_image_within(&self, buf: &mut [u8], work: &mut WorkLimit) -> Result<()>
        requires { length buf.old ≡ self.now.initial_page.width * self.now.initial_page.height }
        ensures value { Gives (λ _. buf.new) result (image_of_page self.now) }
        ensures unchanged { OnErr result (buf.new ≡ buf.old) }
        ensures errors { IfErr result IsReturned }
        ensures limit { TakesUnits 0 work.old work.new }
        ensures taken { let page = self.now.initial_page in
            IfOk result (λ _. TakesUnits (price_of_bitmap page.width page.height) work.old work.new) }
    {
        self.read_counted::<Brand>(Form::Image, buf, work, Blank::new(7))
    }

    /// Writes the page in this form, by a counter that may take what is left of the limit.
    fn read_counted<L: Ledger>(
        &self,
        form: Form,
        buf: &mut [u8],
        limit: &mut WorkLimit,
        blank: Blank,
    ) -> Result<()>
        requires sized { let page = self.now.initial_page in
            length buf.old ≡ size_in form page.width page.height }
        requires name { blank.name ≡ L.name }
        requires parts { blank.parts ≡ L.parts }
        requires enough { blank.parts ≡ 7 }
        ensures value { Gives (λ _. buf.new) result (bytes_of_page form self.now) }
        ensures unchanged { OnErr result (buf.new ≡ buf.old) }
        ensures errors { IfErr result IsReturned }
        ensures limit { TakesUnits 0 limit.old limit.new }
        ensures taken { let page = self.now.initial_page in
            IfOk result (λ _. TakesUnits (price_of_bitmap page.width page.height) limit.old limit.new) }
    {
        let mut work = limit.counter::<L>(blank);
        let read = self.content.read_into(form, buf, &mut work);
        limit.end(&work);
        read
    }

    /// Writes the page as `read_image` does, with the caller's counter.
    ///
    /// At most 32 steps are counted for each unit of work that is left in `work`. Where more are needed, the error is
    /// `DecodeError::OutOfMemory`.
    pub fn read_within<L: Ledger>(&self, buf: &mut [u8], work: &mut Work<L>) -> Result<()>
        requires { length buf.old ≡ self.now.initial_page.width * self.now.initial_page.height }
        ensures value { Gives (λ _. buf.new) result (image_of_page self.now) }
        ensures unchanged { OnErr result (buf.new ≡ buf.old) }
        ensures errors { IfErr result IsReturned }
        ensures limit { IsWithinLimit work.old work.new }
        ensures paid { Paid work.old work.new }
        ensures taken { let page = self.now.initial_page in
            let price = price_of_bitmap page.width page.height in
            IfOk result (λ _. budget work.new + 32 * price ≤ budget work.old) }
    {
        self.content.read_into(Form::Image, buf, work)
    }

    /// Writes the page into `buf` as packed rows, from the top: a bit for each pixel, 1 for black, the leftmost pixel
    /// in the highest bit of its byte. A row takes `width.div_ceil(8)` bytes, and the bits after the width are 0, as in
    /// PBM, TIFF and PDF.
    ///
    /// Returns the first fault of a segment that lenient reading does not pass over; `buf` is then as it was.
    pub fn read_packed(&self, buf: &mut [u8]) -> Result<()>
        requires { length buf.old ≡ packed_size self.now.initial_page.width
            self.now.initial_page.height }
        ensures value { Gives (λ _. buf.new) result (packed_of_page self.now) }
        ensures unchanged { OnErr result (buf.new ≡ buf.old) }
        ensures errors { IfErr result IsReturned }
    {
        self.read_packed_within(buf, &mut WorkLimit::new(None))
    }

    /// Writes the page as `read_packed` does, within a limit of work.
    pub fn read_packed_within(&self, buf: &mut [u8], work: &mut WorkLimit) -> Result<()>
        requires { length buf.old ≡ packed_size self.now.initial_page.width
            self.now.initial_page.height }
        ensures value { Gives (λ _. buf.new) result (packed_of_page self.now) }
        ensures unchanged { OnErr result (buf.new ≡ buf.old) }
        ensures errors { IfErr result IsReturned }
        ensures limit { TakesUnits 0 work.old work.new }
        ensures taken { let page = self.now.initial_page in
            IfOk result (λ _. TakesUnits (price_of_bitmap page.width page.height) work.old work.new) }
    {
        self.read_counted::<Brand>(Form::Packed, buf, work, Blank::new(7))
    }
}
