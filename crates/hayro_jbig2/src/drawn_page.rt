//! `DrawnPage`: lends a page that was drawn as packed rows.
ghost use Rattle.std.specs.Prelude.{◌≡◌, ◌+◌, ◌≤◌, [], drop, length, take};

use jbig2_page::packed::drawn_rows::DrawnRows;
use jbig2_permit::Permit;
use jbig2_steps::Steps;
use std::alloc::Allocator;
use std::marker::{Brand, Model};
use std::sync::ledger::{Blank, Ledger};

/// A drawn page, lent by the context that it was drawn in. It gives the packed rows from the top, and needs no memory
/// besides the page's own. A row has a bit for each pixel, 1 for black, the leftmost pixel in the highest bit of its
/// byte. It has `width.div_ceil(8)` bytes, and the bits after the width are 0, as in PBM, TIFF and PDF.
#[derive(Drop)]
pub struct DrawnPage<'c, A: Allocator> {
    /// None where there is no page.
    rows: Option<DrawnRows<'c, A>>,
}

impl<'c, A: Allocator> Model for DrawnPage<'c, A> {
    ghost use Rattle.std.specs.Prelude.{List, ℕ, [], unwrap_or};

    ghost Value = { List ℕ };

    ghost view = { λ page. unwrap_or page.rows [] };
}

impl<'c, A: Allocator> DrawnPage<'c, A> {
    pub(crate) fn of_rows(rows: DrawnRows<'c, A>) -> DrawnPage<'c, A>
        ensures { result ≡ rows.entry }
    {
        DrawnPage { rows: Some(rows) }
    }

    /// No page.
    pub(crate) fn of_no_rows() -> DrawnPage<'c, A>
        ensures { result ≡ [] }
    {
        DrawnPage { rows: None }
    }

    /// The number of bytes of all rows together.
    pub fn size(&self) -> usize
        ensures { result ≡ length self.now }
    {
        match &self.rows {
            Some(rows) => rows.size(),
            None => 0,
        }
    }

    /// Fills `buf` with bytes of the rows, from byte `place` of all rows on.
    pub fn read_at(&self, place: usize, buf: &mut [u8])
        requires { place + length buf.old ≤ length self.now }
        ensures { buf.new ≡ take (length buf.old) (drop place self.now) }
    {
        self.read_counted::<Brand>(place, buf, Blank::new(7));
    }

    fn read_counted<L: Ledger>(&self, place: usize, buf: &mut [u8], blank: Blank)
        requires inside { place + length buf.old ≤ length self.now }
        requires name { blank.name ≡ L.name }
        requires parts { blank.parts ≡ L.parts }
        requires enough { blank.parts ≡ 7 }
        ensures { buf.new ≡ take (length buf.old) (drop place self.now) }
    {
        if let Some(rows) = &self.rows {
            let mut steps = Steps::<L>::new(Permit::grant(), blank);
            rows.read_at(place, buf, &mut steps);
        }
    }
}
