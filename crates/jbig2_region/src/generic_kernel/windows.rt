//! Windows on the rows above. Each shows 64 pixels, so one load serves many contexts.
//!
//! A window around column x, in row y - 1 (`above`) or row y - 2 (`top`):
//!
//! ```text
//! bit     63   ...  56   55   54   ...  0
//! column  x-8  ...  x-1  x    x+1  ...  x+55
//! ```
//!
//! A stretch takes `count` bits from bit 55 - `reach` up: columns x + reach - count + 1 to x + reach.
ghost use Rattle.std.specs.Prelude.{◌≡◌, ℕ, ◌+◌, ◌-◌, ◌%◌, ◌^◌, ◌<◌, ◌≤◌, pos, ◌-ℤ◌};
ghost use Rattle.jbig2_region.specs.inner.Neighbours.{stretch_bits};
ghost use Rattle.jbig2_region.specs.inner.Windows.{IsWindow, Shows};
ghost use Rattle.jbig2_base.specs.Grid.{Grid, pixel};
ghost use Rattle.jbig2_base.specs.Bits.{bit};

use crate::template::neighbours::Stretch;
use jbig2_base::bitmap::Bitmap;
use jbig2_steps::Steps;
use std::alloc::Allocator;
use std::sync::ledger::Ledger;

/// The pixels around one column, in the row above and in the row above that. Bit 55 is the pixel at
/// the column, and pixels to the right of it are in lower bits.
#[derive(Clone, Copy)]
pub struct Windows {
    pub above: u64,
    pub top: u64,
}

/// `count` pixels of row `y` that are decoded together, from column `x` on. `left` has the pixels on
/// their left, the nearest in bit 0.
#[derive(Clone, Copy)]
pub struct Place {
    pub x: u32,
    pub y: u32,
    pub count: u32,
    pub left: u32,
}

/// Windows around a column, and around the column 32 to the right of it.
#[derive(Clone, Copy)]
pub struct WideWindows {
    pub first: Windows,
    pub second: Windows,
}

/// `count` pixels from column `x` on in the row `back` rows above row `y`; 0 above row 0.
#[inline(always)]
pub fn pixels_above<A: Allocator, L: Ledger>(
    bitmap: &Bitmap<A>,
    x: u32,
    y: u32,
    back: u32,
    count: u32,
    steps: &mut Steps<L>,
) -> u64
    requires some { 1 ≤ count }
    requires few { count ≤ 64 }
    ensures bits { (k : ℕ) → k < count →
        bit result (count - 1 - k) ≡ pixel bitmap.now (pos (x + k)) (pos y -ℤ pos back) }
    ensures bound { result < 2 ^ count }
    ensures steps { steps.new ≡ record steps.old { loads = steps.old.loads + 1 } }
{
    if y < back {
        steps.load();
        return 0;
    }
    bitmap.load_pixels(x, y - back, count, steps)
}

/// The window around column `x` in the row `back` rows above row `y`.
#[inline(always)]
fn window<A: Allocator, L: Ledger>(
    bitmap: &Bitmap<A>,
    x: u32,
    y: u32,
    back: u32,
    steps: &mut Steps<L>,
) -> u64
    requires aligned { x % 8 ≡ 0 }
    ensures value { IsWindow bitmap.now x (pos y -ℤ pos back) 64 result }
    ensures steps { steps.new ≡ record steps.old { loads = steps.old.loads + 1 } }
{
    if x == 0 {
        return pixels_above(bitmap, 0, y, back, 56, steps);
    }
    pixels_above(bitmap, x - 8, y, back, 64, steps)
}

/// The windows around column `x` on the two rows above row `y`.
#[inline(always)]
pub fn windows_at<A: Allocator, L: Ledger>(
    bitmap: &Bitmap<A>,
    x: u32,
    y: u32,
    steps: &mut Steps<L>,
) -> Windows
    requires aligned { x % 8 ≡ 0 }
    ensures value { Shows bitmap.now x y 64 result }
    ensures steps { steps.new ≡ record steps.old { loads = steps.old.loads + 2 } }
{
    let above = window(bitmap, x, y, 1, steps);
    let top = window(bitmap, x, y, 2, steps);
    Windows { above, top }
}

/// A stretch's part of a context, seen from `offset` columns right of the window's column.
#[inline(always)]
pub fn stretch_bits(stretch: Stretch, window: u64, offset: u32) -> u32
    requires reach { stretch.reach ≤ 3 }
    requires count { stretch.count ≤ 7 }
    requires offset { offset < 32 }
    ensures value { result ≡ stretch_bits stretch window offset }
    ensures bound { result < 2 ^ stretch.count }
{
    ((window >> (55 - offset - stretch.reach)) % (1 << stretch.count)) as u32
}

impl Windows {
    /// The windows around the column this many pixels to the right. They show as many columns less.
    #[inline(always)]
    pub fn right_by(self, pixels: u32) -> Windows
        requires few { pixels ≤ 32 }
        ensures { (g : Grid) (x y seen : ℕ) → seen ≤ 64 → Shows g x y seen self →
            Shows g (x + pixels) y (seen - pixels) result }
    {
        Windows {
            above: self.above << pixels,
            top: self.top << pixels,
        }
    }
}
