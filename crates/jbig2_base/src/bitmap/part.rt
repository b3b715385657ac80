//! Cuts parts out of bitmaps: the symbols of a collective bitmap (T.88, 6.5.9), the patterns of a
//! collective bitmap (6.7.5), and the area of the page that a refinement takes (7.4.7.4).
ghost use Rattle.std.specs.Prelude.{◌≡◌, ◌+◌, ◌/◌, ◌<◌, ◌≤◌, OnErr, OnOk};
ghost use Rattle.jbig2_base.specs.Results.{Gives};
ghost use Rattle.jbig2_base.specs.Counts.{bitmap_made, words_copied, words_of};
ghost use Rattle.jbig2_base.specs.Grid.{part_of, part_or_overflow};
ghost use Rattle.jbig2_base.specs.inner.GridsBefore.{grid_before, pixel_of_part};

use crate::bitmap::Bitmap;
use crate::error::Result;
use jbig2_steps::Steps;
use std::alloc::Allocator;
use std::sync::ledger::Ledger;

/// A rectangle of pixels, which may go past the sides of a bitmap.
#[derive(Clone, Copy, Debug)]
pub struct Area {
    /// The leftmost column.
    pub left: u32,
    /// The highest row.
    pub top: u32,
    /// In pixels.
    pub width: u32,
    /// In pixels.
    pub height: u32,
}

/// Copies row `y` of a part. The rows above it are copied already.
fn copy_row<A: Allocator, B: Allocator, L: Ledger>(
    bitmap: &Bitmap<A>,
    area: Area,
    y: u32,
    part: &mut Bitmap<B>,
    steps: &mut Steps<L>,
)
    requires columns { area.left + area.width ≤ 4294967295 }
    requires rows { area.top + area.height ≤ 4294967295 }
    requires row { y < area.height }
    requires above { part.old
        ≡ grid_before area.width area.height (pixel_of_part bitmap.now area) y 0 }
    ensures value { part.new
        ≡ grid_before area.width area.height (pixel_of_part bitmap.now area) (y + 1) 0 }
    ensures steps { steps.new ≡ words_copied ((area.width + 63) / 64) steps.old }
{
    for word in 0..area.width.div_ceil(64) {
        let x = 64 * word;
        let count = (area.width - x).min(64);
        let bits = bitmap.load_pixels(area.left + x, area.top + y, count, steps);
        part.store_pixels(x, y, count, bits, steps);
    }
}

impl<A: Allocator> Bitmap<A> {
    /// The part of this bitmap in `area`, white outside, in new memory. A side above 65535 is refused
    /// (`OverflowError::BitmapDimension`). The part is made, which counts its words as
    /// cleared, and then each of its words is written once, with one load.
    pub fn part<B: Allocator, L: Ledger>(
        &self,
        alloc: B,
        area: Area,
        steps: &mut Steps<L>,
    ) -> Result<Bitmap<B>>
        requires columns { area.left + area.width ≤ 4294967295 }
        requires rows { area.top + area.height ≤ 4294967295 }
        ensures value { Gives (λ part. part) result (part_or_overflow self.now area) }
        ensures steps { OnOk result
            (steps.new ≡ words_copied (words_of (part_of self.now area))
            (bitmap_made area.width area.height steps.old)) }
        ensures refused { OnErr result
            (steps.new ≡ bitmap_made area.width area.height steps.old) }
    {
        let mut part = Bitmap::new(alloc, area.width, area.height, steps)?;
        for y in 0..area.height {
            copy_row(self, area, y, &mut part, steps);
        }
        Ok(part)
    }
}
