//! `DrawnRows`: lends a page that was drawn as packed rows.
ghost use Rattle.std.specs.Prelude.{◌≡◌, ◌+◌, ◌≤◌, drop, false, length, take, true};
ghost use Rattle.jbig2_page.specs.Image.{packed_of};
ghost use Rattle.jbig2_page.specs.inner.WholePages.{IsBlankPage};
ghost use Rattle.jbig2_steps.specs.Work.{sum_of_counts};

use crate::packed::write_packed;
use jbig2_base::bitmap::Bitmap;
use jbig2_steps::Steps;
use std::alloc::Allocator;
use std::marker::Model;
use std::sync::ledger::Ledger;

/// A drawn page, lent by the canvas that it was drawn on. It gives the packed rows from the top, and needs no memory
/// besides the page's own. A row has a bit for each pixel, 1 for black, the leftmost pixel in the highest bit of its
/// byte. It has `width.div_ceil(8)` bytes, and the bits after the width are 0, as in PBM, TIFF and PDF.
#[derive(Drop)]
pub struct DrawnRows<'c, A: Allocator> {
    bitmap: &'c Bitmap<A>,
    width: u32,
    height: u32,
    /// Whether nothing was drawn on a white page. Its rows need not be read then.
    white: bool,
}

impl<'c, A: Allocator> Model for DrawnRows<'c, A> {
    ghost use Rattle.std.specs.Prelude.{List, ℕ, ◌≡◌, ◌≤◌, false, true};
    ghost use Rattle.jbig2_page.specs.Image.{packed_of};
    ghost use Rattle.jbig2_page.specs.inner.WholePages.{IsBlankPage};

    ghost Value = { List ℕ };

    ghost view = { λ page. packed_of page.width page.height page.bitmap.now };

    ghost invariant = { λ page. (page.height ≤ 4294967295)
        × (page.white ≡ true → IsBlankPage false page.bitmap.now) };
}

impl<'c, A: Allocator> DrawnRows<'c, A> {
    pub(crate) fn new(bitmap: &'c Bitmap<A>, white: bool) -> DrawnRows<'c, A>
        requires { white ≡ true → IsBlankPage false bitmap.now }
        ensures { result ≡ packed_of bitmap.now.width bitmap.now.height bitmap.now }
    {
        DrawnRows {
            bitmap,
            width: bitmap.width(),
            height: bitmap.height(),
            white,
        }
    }

    /// The number of bytes of all rows together.
    pub fn size(&self) -> usize
        ensures { result ≡ length self.now }
    {
        self.width.div_ceil(8) as usize * self.height as usize
    }

    /// Fills `buf` with bytes of the rows, from byte `place` of all rows on. At most one step is counted for each byte.
    pub fn read_at<L: Ledger>(&self, place: usize, buf: &mut [u8], steps: &mut Steps<L>)
        requires { place + length buf.old ≤ length self.now }
        ensures bytes { buf.new ≡ take (length buf.old) (drop place self.now) }
        ensures steps { sum_of_counts steps.new ≤ sum_of_counts steps.old + length buf.old }
    {
        if self.white {
            buf.fill(0);
            return;
        }
        write_packed(self.bitmap, self.width, place, buf, steps);
    }
}
