//! Fills spans of one colour in a row of a bitmap, word by word.
ghost use Rattle.std.specs.Prelude.{◌≡◌, ℕ, ◌<◌, ◌≤◌};
ghost use Rattle.jbig2_base.specs.Counts.{KeepsLanes};
ghost use Rattle.jbig2_base.specs.Bits.{bit};
ghost use Rattle.jbig2_base.specs.Grid.{IsTable};
ghost use Rattle.jbig2_mmr.specs.inner.T6Reading.{IsSpan};
ghost use Rattle.jbig2_mmr.specs.inner.T6Steps.{span_words};
ghost use Rattle.jbig2_mmr.specs.Steps.{MovesWithin};

use jbig2_base::bitmap::Bitmap;
use jbig2_steps::Steps;
use std::alloc::Allocator;
use std::sync::ledger::Ledger;

/// Gives one colour to the pixels of row `y` from column `from` to column `to` - 1.
#[inline(always)]
pub fn fill_span<A: Allocator, L: Ledger>(
    bitmap: &mut Bitmap<A>,
    y: u32,
    from: u32,
    to: u32,
    black: bool,
    steps: &mut Steps<L>,
)
    requires table { IsTable bitmap.old }
    requires row { y < bitmap.old.height }
    requires order { from ≤ to }
    requires columns { to ≤ bitmap.old.width }
    ensures value { IsSpan bitmap.old bitmap.new y from to black }
    ensures lanes { KeepsLanes steps.old steps.new }
    ensures work { MovesWithin (span_words from to) steps.old steps.new }
{
    let mut x = from;
    while x < to {
        let count = (to - x).min(64 - x % 64);
        bitmap.store_pixels(x, y, count, word_of(black, count), steps);
        x += count;
    }
}

/// `count` pixels of one colour.
#[inline(always)]
fn word_of(black: bool, count: u32) -> u64
    requires some { 1 ≤ count }
    requires few { count ≤ 64 }
    ensures { (k : ℕ) → k < count → bit result k ≡ black }
{
    if black { u64::MAX } else { 0 }
}
