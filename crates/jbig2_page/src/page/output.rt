//! Decodes a page: to calls on a `Decoder`, to a byte or a bit for each pixel, or onto a canvas that lends its rows. Each
//! call takes the caller's counter, and at most 32 steps are counted for each unit of work that is left in it. Where more
//! are needed, the error is `DecodeError::OutOfMemory`.
ghost use Rattle.std.specs.Prelude.{◌≡◌, ◌+◌, ◌*◌, ◌≤◌, IfErr, IfOk, OnErr, length};
ghost use Rattle.jbig2_base.specs.Results.{Gives, Leaves};
ghost use Rattle.jbig2_page.specs.Calls.{Decodes, IsCountable};
ghost use Rattle.jbig2_page.specs.Forms.{bytes_of_page, size_in};
ghost use Rattle.jbig2_page.specs.Image.{image_of_page, packed_of_page, packed_size};
ghost use Rattle.jbig2_page.specs.Page.{drawing_of_page, drawing_with, grid_of_page};
ghost use Rattle.jbig2_page.specs.Returned.{IsReturned};
ghost use Rattle.jbig2_steps.specs.Work.{IsWithinLimit, Paid, paid_words, price_of_bitmap, budget};

use crate::drawing::Drawer;
use crate::drawing::canvas::Canvas;
use crate::kept::names::KeptNames;
use crate::page::PageContent;
use crate::page::calls::push_bitmap;
use crate::page::decoder::Decoder;
use crate::page::form::Form;
use crate::page::image::write_image;
use jbig2_base::error::Result;
use jbig2_steps::Work;
use std::alloc::Allocator;
use std::sync::ledger::Ledger;

impl<'a, A: Allocator + Clone> PageContent<'a, A> {
    /// Writes the page into `buf` in this form.
    ///
    /// Returns the first fault of a segment that lenient reading does not pass over; `buf` is then as it was.
    pub fn read_into<L: Ledger>(&self, form: Form, buf: &mut [u8], work: &mut Work<L>) -> Result<()>
        requires { let page = self.now.initial_page in
            length buf.old ≡ size_in form page.width page.height }
        ensures value { Gives (λ _. buf.new) result (bytes_of_page form self.now) }
        ensures unchanged { OnErr result (buf.new ≡ buf.old) }
        ensures errors { IfErr result IsReturned }
        ensures limit { IsWithinLimit work.old work.new }
        ensures paid { Paid work.old work.new }
        ensures taken { let page = self.now.initial_page in
            let price = price_of_bitmap page.width page.height in
            IfOk result (λ _. budget work.new + 32 * price ≤ budget work.old) }
    {
        match form {
            Form::Image => self.read_image(buf, work),
            Form::Packed => self.read_packed(buf, work),
        }
    }

    /// Writes the page into `buf`, which holds a byte for each pixel: rows from the top, 0 for
    /// black and 255 for white.
    ///
    /// Returns the first fault that lenient reading does not pass over; `buf` is then as it was.
    fn read_image<L: Ledger>(&self, buf: &mut [u8], work: &mut Work<L>) -> Result<()>
        requires { length buf.old ≡ self.now.initial_page.width * self.now.initial_page.height }
        ensures value { Gives (λ _. buf.new) result (image_of_page self.now) }
        ensures unchanged { OnErr result (buf.new ≡ buf.old) }
        ensures errors { IfErr result IsReturned }
        ensures limit { IsWithinLimit work.old work.new }
        ensures paid { Paid work.old work.new }
        ensures taken { let page = self.now.initial_page in
            let price = price_of_bitmap page.width page.height in
            IfOk result (λ _. budget work.new + 32 * price ≤ budget work.old) }
    {
        let canvas = self.draw_new_canvas(work)?;
        write_image(canvas.page(), &self.initial_page, buf, &mut work.steps);
        Ok(())
    }

    /// Writes the page into `buf` as packed rows, from the top: a bit for each pixel, 1 for black, the leftmost pixel
    /// in the highest bit of its byte. A row takes `width.div_ceil(8)` bytes, and the bits after the width are 0, as in
    /// PBM, TIFF and PDF.
    ///
    /// Returns the first fault of a segment that lenient reading does not pass over; `buf` is then as it was.
    fn read_packed<L: Ledger>(&self, buf: &mut [u8], work: &mut Work<L>) -> Result<()>
        requires { length buf.old ≡ packed_size self.now.initial_page.width
            self.now.initial_page.height }
        ensures value { Gives (λ _. buf.new) result (packed_of_page self.now) }
        ensures unchanged { OnErr result (buf.new ≡ buf.old) }
        ensures errors { IfErr result IsReturned }
        ensures limit { IsWithinLimit work.old work.new }
        ensures paid { Paid work.old work.new }
        ensures taken { let page = self.now.initial_page in
            let price = price_of_bitmap page.width page.height in
            IfOk result (λ _. budget work.new + 32 * price ≤ budget work.old) }
    {
        let canvas = self.draw_new_canvas(work)?;
        canvas.drawn_rows().read_at(0, buf, &mut work.steps);
        Ok(())
    }

    /// Makes the calls that draw the page, from a canvas that earlier pages may have used.
    ///
    /// Returns the first fault of a segment that lenient reading does not pass over, or the
    /// Decoder's own refusal. It decodes all segments before it makes the first call.
    pub fn decode_onto<D: Decoder, L: Ledger>(
        &self,
        decoder: &mut D,
        canvas: &mut Canvas<A>,
        work: &mut Work<L>,
    ) -> Result<()>
        requires { IsCountable D.conduct decoder.old }
        ensures calls { Decodes D.conduct (grid_of_page self.now) result decoder.old decoder.new }
        ensures drawing { IfOk (drawing_of_page self.now) (Leaves result canvas.new) }
        ensures errors { D.conduct.refusals decoder.new ≡ D.conduct.refusals decoder.old
            → IfErr result IsReturned }
        ensures limit { IsWithinLimit work.old work.new }
        ensures paid { Paid work.old work.new }
    {
        let _globals = &self.globals;
        match self.draw_onto(canvas, work) {
            Ok(()) => push_bitmap(canvas.page(), decoder, &mut work.steps),
            Err(error) => Err(error),
        }
    }

    /// Draws the page onto a canvas, which earlier pages may have used. The work of handing the page out is paid here
    /// too. Of what is paid only the cleared words of the page are counted.
    ///
    /// Returns the first fault of a segment that lenient reading does not pass over.
    pub fn draw_onto<L: Ledger>(&self, canvas: &mut Canvas<A>, work: &mut Work<L>) -> Result<()>
        ensures drawing { Gives (λ _. canvas.new) result (drawing_of_page self.now) }
        ensures errors { IfErr result IsReturned }
        ensures limit { IsWithinLimit work.old work.new }
        ensures paid { Paid work.old work.new }
        ensures ahead { let page = self.now.initial_page in
            let price = price_of_bitmap page.width page.height in
            IfOk result (λ _. budget work.new + 64 * price
            ≤ budget work.old + paid_words page.width page.height) }
    {
        let _globals = &self.globals;
        self.draw_with_globals(canvas, work)
    }

    /// Draws the page on a fresh canvas.
    fn draw_new_canvas<L: Ledger>(&self, work: &mut Work<L>) -> Result<Canvas<A>>
        ensures value { Gives (λ canvas. canvas.grid) result (grid_of_page self.now) }
        ensures errors { IfErr result IsReturned }
        ensures paid { Paid work.old work.new }
        ensures ahead { let page = self.now.initial_page in
            let price = price_of_bitmap page.width page.height in
            IfOk result (λ _. budget work.new + 64 * price
            ≤ budget work.old + paid_words page.width page.height) }
    {
        let _globals = &self.globals;
        let mut canvas = Canvas::new(self.allocator().clone()?)?;
        self.draw_onto(&mut canvas, work)?;
        Ok(canvas)
    }

    /// Draws the page, whose segments may also refer to what its globals keep.
    fn draw_with_globals<L: Ledger>(&self, canvas: &mut Canvas<A>, work: &mut Work<L>) -> Result<()>
        ensures value { Gives (λ _. canvas.new) result (drawing_of_page self.now) }
        ensures paid { Paid work.old work.new }
        ensures ahead { let page = self.now.initial_page in
            let price = price_of_bitmap page.width page.height in
            IfOk result (λ _. budget work.new + 64 * price
            ≤ budget work.old + paid_words page.width page.height) }
    {
        match &self.globals {
            Ok(Some(globals)) => self.draw_with(globals.names(), canvas, work),
            Ok(None) => {
                let none = KeptNames::new(self.allocator().clone()?)?;
                self.draw_with(&none, canvas, work)
            }
            Err(error) => Err(error.duplicate()),
        }
    }

    /// Draws the page, whose segments may also refer to what `globals` keeps.
    fn draw_with<L: Ledger>(
        &self,
        globals: &KeptNames<A>,
        canvas: &mut Canvas<A>,
        work: &mut Work<L>,
    ) -> Result<()>
        ensures value { Gives (λ _. canvas.new) result
            (drawing_with globals.now self.now) }
        ensures paid { Paid work.old work.new }
        ensures ahead { let page = self.now.initial_page in
            let price = price_of_bitmap page.width page.height in
            IfOk result (λ _. budget work.new + 64 * price
            ≤ budget work.old + paid_words page.width page.height) }
    {
        let page = &self.initial_page;
        // One bitmap for clearing the page, one for handing it out.
        work.pay_bitmaps(2, page.width, page.height)?;
        canvas.begin(page, work)?;
        let drawer = Drawer {
            reading: self.reading,
            globals,
        };
        drawer.draw_segments(self.segments.as_vec(), canvas, work)?;
        canvas.tell_cut_off(&self.cut_off);
        Ok(())
    }
}
