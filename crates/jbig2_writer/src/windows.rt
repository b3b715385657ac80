//! Windows on the rows, from which the contexts of 32 pixels are made.
//!
//! A window around column x of a row:
//!
//! ```text
//! bit     63   ...  56   55   54   ...  0
//! column  x-8  ...  x-1  x    x+1  ...  x+55
//! ```
ghost use Rattle.std.specs.Prelude.{◌≡◌, ℕ, ◌+◌, ◌-◌, ◌/◌, ◌%◌, ◌^◌, ◌<◌, ◌≤◌, pos, ◌-ℤ◌};
ghost use Rattle.jbig2_base.specs.Grid.{Grid, pixel_at};
ghost use Rattle.jbig2_region.specs.Generic.{context_at};
ghost use Rattle.jbig2_region.specs.inner.Windows.{IsWindow};
ghost use Rattle.jbig2_writer.specs.inner.Windows.{IsNarrow, AreWindows};
ghost use Rattle.jbig2_region.specs.inner.Neighbours.{nominal_pixels};

use jbig2_base::bitmap::Bitmap;
use jbig2_region::template::{Neighbours, Stretch};
use jbig2_steps::Steps;
use std::alloc::Allocator;
use std::sync::ledger::Ledger;

/// Windows around one column, on a row and on the two rows above it.
#[derive(Clone, Copy)]
pub struct Windows {
    pub row: u64,
    pub above: u64,
    pub top: u64,
}

/// The window around column `x` in the row `back` rows above row `y`. All is white above row 0.
fn window<A: Allocator, L: Ledger>(
    bitmap: &Bitmap<A>,
    x: u32,
    y: u32,
    back: u32,
    steps: &mut Steps<L>,
) -> u64
    requires aligned { x % 8 ≡ 0 }
    ensures value { IsWindow bitmap.now x (pos y -ℤ pos back) 64 result }
    ensures steps { steps.new ≡ record steps.old { loads = steps.new.loads } }
    ensures loads { steps.new.loads ≤ steps.old.loads + 1 }
{
    if y < back {
        return 0;
    }
    if x == 0 {
        return bitmap.load_pixels(0, y - back, 56, steps);
    }
    bitmap.load_pixels(x - 8, y - back, 64, steps)
}

/// The windows around column `x` of row `y`.
pub fn windows_at<A: Allocator, L: Ledger>(
    bitmap: &Bitmap<A>,
    x: u32,
    y: u32,
    steps: &mut Steps<L>,
) -> Windows
    requires aligned { x % 8 ≡ 0 }
    ensures value { AreWindows bitmap.now x y result }
    ensures steps { steps.new ≡ record steps.old { loads = steps.new.loads } }
    ensures loads { steps.new.loads ≤ steps.old.loads + 3 }
{
    let row = window(bitmap, x, y, 0, steps);
    let above = window(bitmap, x, y, 1, steps);
    let top = window(bitmap, x, y, 2, steps);
    Windows { row, above, top }
}

/// So many bits of a window, from bit `shift` up.
#[inline(always)]
fn bits(window: u64, shift: u32, count: u32) -> u32
    requires shift { shift < 64 }
    requires few { count ≤ 7 }
    ensures value { result ≡ window / 2 ^ shift % 2 ^ count }
    ensures bound { result < 2 ^ count }
{
    ((window >> shift) % (1 << count)) as u32
}

/// A stretch's pixels in a window, seen from `offset` columns right of the window's column.
#[inline(always)]
fn stretch_bits(stretch: Stretch, window: u64, offset: u32) -> u32
    requires reach { stretch.reach ≤ 3 }
    requires few { stretch.count ≤ 7 }
    requires offset { offset < 32 }
    ensures value { result ≡ window / 2 ^ (55 - offset - stretch.reach) % 2 ^ stretch.count }
    ensures bound { result < 2 ^ stretch.count }
{
    bits(window, 55 - offset - stretch.reach, stretch.count)
}

impl Windows {
    /// The number of the context of the pixel `offset` columns right of the windows' column.
    #[inline(always)]
    pub fn context(self, neighbours: Neighbours, offset: u32) -> u16
        requires near { IsNarrow neighbours }
        requires offset { offset < 32 }
        ensures { (g : Grid) (x y : ℕ) → AreWindows g x y self
            → result ≡ context_at (nominal_pixels neighbours) g (x + offset) y }
    {
        let left = bits(self.row, 56 - offset, neighbours.left);
        let above = stretch_bits(neighbours.above, self.above, offset);
        let top = stretch_bits(neighbours.top, self.top, offset);
        let stretches = above + top * (1 << neighbours.above.count);
        (left + stretches * (1 << neighbours.left)) as u16
    }

    /// Whether the pixel `offset` columns right of the windows' column is black.
    #[inline(always)]
    pub fn is_black(self, offset: u32) -> bool
        requires { offset < 32 }
        ensures { (g : Grid) (x y : ℕ) → AreWindows g x y self → result ≡ pixel_at g (x + offset) y }
    {
        bits(self.row, 55 - offset, 1) == 1
    }
}
