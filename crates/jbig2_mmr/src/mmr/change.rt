//! Finds the next changing element of a row (T.6, 2.2.1), word by word.
ghost use Rattle.std.specs.Prelude.{◌≡◌, ℕ, ◌+◌, ◌*◌, ◌/◌, ◌^◌, ◌<◌, ◌≤◌, ◌&&◌, if◌then◌else◌};
ghost use Rattle.jbig2_base.specs.Counts.{KeepsLanes, words_loaded, words_searched};
ghost use Rattle.jbig2_base.specs.Search.{place_from};
ghost use Rattle.jbig2_base.specs.Bits.{bit};
ghost use Rattle.jbig2_base.specs.Grid.{differ};
ghost use Rattle.jbig2_mmr.specs.T6.{left_of, is_change_from};
ghost use Rattle.jbig2_mmr.specs.inner.T6Reading.{pixels_of_row};
ghost use Rattle.jbig2_mmr.specs.Steps.{MovesWithin};
ghost use Rattle.jbig2_mmr.specs.inner.T6Calls.{IsWordOf};

use jbig2_base::bitmap::Bitmap;
use jbig2_steps::Steps;
use std::alloc::Allocator;
use std::sync::ledger::Ledger;

/// Word `index` of a row, and its changes to either colour: the bits of pixels that have that colour while their left
/// neighbours have the other one. Left of the word is white.
#[derive(Clone, Copy)]
pub struct RowWord {
    pub index: u32,
    pub pixels: u64,
    to_white: u64,
    to_black: u64,
}

impl RowWord {
    /// Word `index` of row `y`.
    pub fn load<A: Allocator, L: Ledger>(
        bitmap: &Bitmap<A>,
        y: u32,
        index: u32,
        steps: &mut Steps<L>,
    ) -> RowWord
        requires { 64 * index < 2 ^ 32 }
        ensures value { IsWordOf (pixels_of_row bitmap.now y) result }
        ensures index { result.index ≡ index }
        ensures lanes { KeepsLanes steps.old steps.new }
        ensures steps { steps.new ≡ words_loaded 1 steps.old }
    {
        let pixels = bitmap.load_pixels(64 * index, y, 64, steps);
        let left = left_neighbours(pixels, 0);
        RowWord {
            index,
            pixels,
            to_white: changes_from(pixels, left, true),
            to_black: changes_from(pixels, left, false),
        }
    }

    /// The word of row `y` in which column `x` lies; it is this one, if `x` lies here.
    #[inline(always)]
    pub fn at<A: Allocator, L: Ledger>(
        self,
        bitmap: &Bitmap<A>,
        y: u32,
        x: u32,
        steps: &mut Steps<L>,
    ) -> RowWord
        requires { IsWordOf (pixels_of_row bitmap.now y) self }
        ensures value { IsWordOf (pixels_of_row bitmap.now y) result }
        ensures index { result.index ≡ x / 64 }
        ensures lanes { KeepsLanes steps.old steps.new }
        ensures work { MovesWithin 1 steps.old steps.new }
    {
        if self.index == x / 64 {
            return self;
        }
        RowWord::load(bitmap, y, x / 64, steps)
    }

    /// The changes from the colour `black` to the other one.
    #[inline(always)]
    pub fn changes(self, black: bool) -> u64
        ensures { result ≡ (if black then self.to_white else self.to_black) }
    {
        if black { self.to_white } else { self.to_black }
    }
}

/// The first column from word `first` on where row `y` changes from the colour `black` to the other
/// one, else the width. The lowest bit of `before` is the pixel left of that word. Left of column 0
/// is white, and a row outside is white too. Each word that is searched takes one load.
pub fn find_change<A: Allocator, L: Ledger>(
    bitmap: &Bitmap<A>,
    y: u32,
    first: u32,
    before: u64,
    black: bool,
    steps: &mut Steps<L>,
) -> u32
    requires { bit before 0 ≡ left_of (pixels_of_row bitmap.now y) (64 * first) }
    ensures value { result ≡ place_from (is_change_from (pixels_of_row bitmap.now y) black) (64 * first)
        bitmap.now.width }
    ensures lanes { KeepsLanes steps.old steps.new }
    ensures steps { steps.new
        ≡ words_loaded (words_searched (64 * first) bitmap.now.width result) steps.old }
{
    let width = bitmap.width();
    let mut before = before;
    for index in first..width.div_ceil(64) {
        let pixels = bitmap.load_pixels(64 * index, y, 64, steps);
        let changes = changes_from(pixels, left_neighbours(pixels, before), black);
        if changes != 0 {
            return (64 * index + changes.leading_zeros()).min(width);
        }
        before = pixels;
    }
    width
}

/// The left neighbours of the pixels of a word; the lowest bit of `before` is the first one's.
#[inline(always)]
pub fn left_neighbours(pixels: u64, before: u64) -> u64
    ensures first { bit result 63 ≡ bit before 0 }
    ensures others { (k : ℕ) → k < 63 → bit result k ≡ bit pixels (k + 1) }
{
    (pixels >> 1) | (before << 63)
}

/// The bits of pixels that do not have the colour `black` while their left neighbours have it.
#[inline(always)]
pub fn changes_from(pixels: u64, left: u64, black: bool) -> u64
    ensures { (k : ℕ) →
        bit result k ≡ (differ (bit pixels k) (bit left k) && differ (bit pixels k) black) }
{
    if black {
        (pixels ^ left) & left
    } else {
        (pixels ^ left) & pixels
    }
}
