//! Windows on the rows from which a refinement takes its pixels. Each shows 64 pixels, so one load
//! serves 32 columns.
//!
//! The windows that serve column x of row y, where the reference has column u = x - dx and row
//! v = y - dy:
//!
//! ```text
//! bit     63   62   61   ...  0
//! region  x-1  x    x+1  ...  x+62  row y-1 of the region
//! above   u-1  u    u+1  ...  u+62  row v-1 of the reference
//! here    u-1  u    u+1  ...  u+62  row v of the reference
//! below   u-1  u    u+1  ...  u+62  row v+1 of the reference
//! ```
//!
//! The context of column x + k takes bits 63 - k to 61 - k of each.
ghost use Rattle.std.specs.Prelude.{◌≡◌, ℕ, ◌+◌, ◌-◌, ◌*◌, ◌/◌, ◌%◌, ◌^◌, ◌<◌, ◌≤◌, pos, negsuc, ◌+ℤ◌, ◌-ℤ◌, ◌<ℤ◌, true, false};
ghost use Rattle.jbig2_base.specs.Grid.{Grid, pixel_at};
ghost use Rattle.jbig2_base.specs.Bits.{bit};
ghost use Rattle.jbig2_region.specs.inner.ReferenceViews.{reference_view};
ghost use Rattle.jbig2_region.specs.inner.RefinementWindows.{Sees, SeesRows, known_of, nine_of, three_of, known_at};

use crate::reference_bitmap::ReferenceBitmap;
use jbig2_base::bitmap::Bitmap;
use jbig2_steps::Steps;
use std::alloc::Allocator;
use std::sync::ledger::Ledger;

/// 64 pixels of each row, from one column left of some column on, the first in bit 63.
#[derive(Clone, Copy)]
pub struct RefinementWindows {
    /// In the region: the row above the one that is decoded.
    pub region: u64,
    /// In the reference: the row above it, its own row and the row below.
    pub above: u64,
    pub here: u64,
    pub below: u64,
}

/// The window on a row from a column on. Both may lie outside, also far away.
#[inline(always)]
fn window<A: Allocator, L: Ledger>(
    bitmap: &Bitmap<A>,
    column: i64,
    row: i64,
    steps: &mut Steps<L>,
) -> u64
    requires column { column <ℤ pos (2 ^ 32) }
    requires row { row <ℤ pos (2 ^ 32) }
    ensures value { Sees bitmap.now column row result }
    ensures steps { steps.new ≡ record steps.old { loads = steps.old.loads + 1 } }
{
    if row < 0 || column < -63 {
        steps.load();
        return 0;
    }
    if column < 0 {
        return bitmap.load_pixels(0, row as u32, (64 + column) as u32, steps);
    }
    bitmap.load_pixels(column as u32, row as u32, 64, steps)
}

/// The windows around row `y` that serve column `x` of the region and the 31 columns after it.
#[inline(always)]
pub fn windows_at<A: Allocator, B: Allocator, L: Ledger>(
    bitmap: &Bitmap<A>,
    reference: &ReferenceBitmap<'_, B>,
    x: u32,
    y: u32,
    steps: &mut Steps<L>,
) -> RefinementWindows
    requires column { x < 65536 }
    requires row { y < 65536 }
    ensures value { SeesRows bitmap.now (reference_view reference.now) x y result }
    ensures steps { steps.new ≡ record steps.old { loads = steps.old.loads + 4 } }
{
    let column = i64::from(x) - i64::from(reference.dx) - 1;
    let row = i64::from(y) - i64::from(reference.dy);
    RefinementWindows {
        region: window(bitmap, i64::from(x) - 1, i64::from(y) - 1, steps),
        above: window(reference.bitmap, column, row - 1, steps),
        here: window(reference.bitmap, column, row, steps),
        below: window(reference.bitmap, column, row + 1, steps),
    }
}

/// Only the last of these windows.
#[inline(always)]
fn window_below<B: Allocator, L: Ledger>(
    reference: &ReferenceBitmap<'_, B>,
    x: u32,
    y: u32,
    steps: &mut Steps<L>,
) -> u64
    requires column { x < 65536 }
    requires row { y < 65536 }
    ensures value { Sees reference.now.bitmap.now (pos x -ℤ reference.now.dx +ℤ negsuc 0)
        (pos y -ℤ reference.now.dy +ℤ pos 1) result }
    ensures steps { steps.new ≡ record steps.old { loads = steps.old.loads + 1 } }
{
    let column = i64::from(x) - i64::from(reference.dx) - 1;
    let row = i64::from(y) - i64::from(reference.dy);
    window(reference.bitmap, column, row + 1, steps)
}

/// The window from one column left of a row on. Its pixels are the lowest `width` bits of `pixels`.
#[inline(always)]
fn row_window(pixels: u64, width: u32) -> u64
    requires some { 1 ≤ width }
    requires few { width ≤ 32 }
    ensures { (g : Grid) (y : ℕ) → g.width ≡ width
        → ((k : ℕ) → k < width → bit pixels (width - 1 - k) ≡ pixel_at g k y)
        → Sees g (negsuc 0) (pos y) result }
{
    (pixels << (64 - width)) >> 1
}

impl RefinementWindows {
    /// The windows that serve column 0 of row `y`, from those of the row above. The pixels of that row
    /// are the lowest `width` bits of `pixels`.
    #[inline(always)]
    pub fn on_next_row<B: Allocator, L: Ledger>(
        self,
        reference: &ReferenceBitmap<'_, B>,
        y: u32,
        pixels: u64,
        width: u32,
        steps: &mut Steps<L>,
    ) -> RefinementWindows
        requires row { y < 65536 }
        requires some { 1 ≤ width }
        requires few { width ≤ 32 }
        ensures value { (g g' : Grid) (above : ℕ) → y ≡ above + 1
            → SeesRows g (reference_view reference.now) 0 above self → g'.width ≡ width
            → ((k : ℕ) → k < width → bit pixels (width - 1 - k) ≡ pixel_at g' k above)
            → SeesRows g' (reference_view reference.now) 0 y result }
        ensures steps { steps.new ≡ record steps.old { loads = steps.old.loads + 1 } }
    {
        RefinementWindows {
            region: row_window(pixels, width),
            above: self.here,
            here: self.below,
            below: window_below(reference, 0, y, steps),
        }
    }

    /// All of `count` columns if all pixels that their contexts see are white, else none.
    #[inline(always)]
    pub fn white_columns(self, count: u32) -> u32
        ensures most { result ≤ count }
        ensures nine { 0 < result → (k : ℕ) → k < 32 → nine_of self k ≡ 0 }
        ensures region { 0 < result → (k : ℕ) → k < 32 → three_of self.region k ≡ 0 }
    {
        let reference = self.above.max(self.here).max(self.below);
        if self.region.max(reference) >> 30 == 0 {
            return count;
        }
        0
    }

    /// The columns whose colour is known; bit 62 is the windows' column. In a predicted row they are
    /// those around which the reference's nine pixels all have one colour.
    #[inline(always)]
    pub fn known_columns(self, predicted: bool) -> u64
        ensures { (k : ℕ) → k < 32
            → known_of predicted (nine_of self k) ≡ known_at result self.here (62 - k) }
    {
        if !predicted {
            return 0;
        }
        let all = self.above & self.here & self.below;
        let any = self.above | self.here | self.below;
        let black = all & (all << 1) & (all >> 1);
        let mixed = any | (any << 1) | (any >> 1);
        black | !mixed
    }

    /// `pixels`, and then the reference's pixels of `count` columns, from the one `offset` right of
    /// the windows' column on.
    #[inline(always)]
    pub fn copied_pixels(self, offset: u32, count: u32, pixels: u64) -> u64
        requires within { offset + count ≤ 32 }
        requires room { pixels < 16 * 2 ^ offset }
        ensures { result
            ≡ pixels * 2 ^ count + self.here / 2 ^ (63 - (offset + count)) % 2 ^ count }
    {
        (pixels << count) + (self.here >> (63 - (offset + count))) % (1 << count)
    }
}

/// How many of the highest `most` bits come before the first that isn't set.
#[inline(always)]
pub fn leading_ones(word: u64, most: u32) -> u32
    requires { most < 64 }
    ensures most { result ≤ most }
    ensures before { (k : ℕ) → k < result → bit word (63 - k) ≡ true }
    ensures next { result < most → bit word (63 - result) ≡ false }
{
    word.leading_ones().min(most)
}

/// How many of the highest `most` bits come before the first that is set.
#[inline(always)]
pub fn leading_zeros(word: u64, most: u32) -> u32
    requires { most < 64 }
    ensures most { result ≤ most }
    ensures before { (k : ℕ) → k < result → bit word (63 - k) ≡ false }
    ensures next { result < most → bit word (63 - result) ≡ true }
{
    word.leading_zeros().min(most)
}
