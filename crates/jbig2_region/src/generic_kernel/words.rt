//! The words of the two rows above, for rows that are decoded eight bytes at a time, and the windows between them.
ghost use Rattle.std.specs.Prelude.{◌≡◌, ℕ, ◌+◌, ◌-◌, ◌*◌, ◌/◌, ◌%◌, ◌^◌, ◌<◌, ◌≤◌, bit_or};
ghost use Rattle.jbig2_region.specs.inner.Windows.{AreAtByte, Shows, ShowsBefore, ShowsGroup};
ghost use Rattle.jbig2_base.specs.Grid.{Grid};

use crate::generic_kernel::windows::{WideWindows, Windows, pixels_above};
use jbig2_base::bitmap::Bitmap;
use jbig2_steps::Steps;
use std::alloc::Allocator;
use std::sync::ledger::Ledger;

/// The words from column `x` on of the two rows above row `y`. They are windows around the column
/// eight further to the right.
#[inline(always)]
pub fn words_at<A: Allocator, L: Ledger>(
    bitmap: &Bitmap<A>,
    x: u32,
    y: u32,
    steps: &mut Steps<L>,
) -> Windows
    ensures value { Shows bitmap.now (x + 8) y 64 result }
    ensures steps { steps.new ≡ record steps.old { loads = steps.old.loads + 2 } }
{
    let above = pixels_above(bitmap, x, y, 1, 64, steps);
    let top = pixels_above(bitmap, x, y, 2, 64, steps);
    Windows { above, top }
}

/// The words after those from column `x` on; white if the rows end before.
#[inline(always)]
pub fn words_after<A: Allocator, L: Ledger>(
    bitmap: &Bitmap<A>,
    x: u32,
    y: u32,
    steps: &mut Steps<L>,
) -> Windows
    requires column { x < bitmap.now.width }
    ensures value { Shows bitmap.now (x + 72) y 64 result }
    ensures few { steps.new.loads ≤ steps.old.loads + 2 }
    ensures none { bitmap.now.width ≤ x + 64 → steps.new.loads ≡ steps.old.loads }
    ensures steps { steps.new ≡ record steps.old { loads = steps.new.loads } }
{
    if bitmap.width() - x <= 64 {
        return Windows { above: 0, top: 0 };
    }
    words_at(bitmap, x + 64, y, steps)
}

/// The windows around a column, and around the column 32 further to the right, from the words
/// before, at and after the first of these columns.
#[inline(always)]
pub fn windows_between(before: Windows, here: Windows, after: Windows) -> WideWindows
    ensures { (g : Grid) (x y bytes : ℕ) → ShowsBefore g x y before → Shows g (x + 8) y 64 here →
        Shows g (x + 72) y 64 after → ShowsGroup g x y bytes result }
{
    let first = Windows {
        above: (before.above << 56) | (here.above >> 8),
        top: (before.top << 56) | (here.top >> 8),
    };
    let second = Windows {
        above: (here.above << 24) | (after.above >> 40),
        top: (here.top << 24) | (after.top >> 40),
    };
    WideWindows { first, second }
}

/// 64 bits of two words side by side, from bit `pixels` on, counted from the highest.
#[inline(always)]
fn cut(word: u64, next: u64, pixels: u32) -> u64
    requires few { pixels ≤ 56 }
    ensures { result ≡ bit_or (word * 2 ^ pixels % 2 ^ 64) (next / 2 ^ (64 - pixels)) }
{
    (word << pixels) | ((next >> 8) >> (56 - pixels))
}

/// The windows around the column of a row's last byte, from the words at the byte before it and the
/// words after these. In a row of one byte they come from white words and the first words.
#[inline(always)]
pub fn last_windows(words: Windows, after: Windows, whole: u32) -> Windows
    requires fits { whole + 7 < 2 ^ 32 }
    ensures alone { (g : Grid) (y : ℕ) → whole ≡ 0 → ShowsBefore g 0 y words →
        Shows g 8 y 64 after → Shows g 0 y 64 result }
    ensures more { (g : Grid) (y x : ℕ) → x + 8 * ((whole + 7) % 8) ≡ 8 * whole →
        Shows g x y 64 words → Shows g (x + 64) y 64 after → Shows g (8 * whole) y 64 result }
{
    let pixels = 8 * ((whole + 7) % 8);
    Windows {
        above: cut(words.above, after.above, pixels),
        top: cut(words.top, after.top, pixels),
    }
}

impl WideWindows {
    /// The windows at byte `done` of the bytes that these windows serve.
    #[inline(always)]
    fn at_byte(self, done: u32) -> WideWindows
        requires few { done < 8 }
        ensures { (bytes : ℕ) → done < bytes → AreAtByte bytes done self result }
    {
        let second = self.second;
        let nearest = if done >= 4 { second } else { self.first };
        let first = nearest.right_by(8 * (done % 4));
        WideWindows { first, second }
    }

    /// The windows at byte `done` that a group's windows serve, from those at the byte before.
    #[inline(always)]
    fn next_byte(self, group: WideWindows, done: u32) -> WideWindows
        ensures { (bytes before : ℕ) → bytes ≤ 8 → done < bytes → before + 1 ≡ done →
            AreAtByte bytes before group self → AreAtByte bytes done group result }
    {
        let second = group.second;
        let moved = self.first.right_by(8);
        let first = if done == 4 { second } else { moved };
        WideWindows { first, second }
    }

    /// The windows at byte `done` of a group of `bytes`, from those at the first of the `taken` bytes
    /// before it. Only after several bytes they are cut out of the group's windows again.
    #[inline(always)]
    pub fn moved_on(self, group: WideWindows, taken: u32, done: u32, bytes: u32) -> WideWindows
        requires few { bytes ≤ 8 }
        ensures { (before : ℕ) → before + taken ≡ done → done < bytes →
            AreAtByte bytes before group self → AreAtByte bytes done group result }
    {
        if taken == 1 {
            return self.next_byte(group, done);
        }
        if done < bytes {
            return group.at_byte(done);
        }
        self
    }
}
