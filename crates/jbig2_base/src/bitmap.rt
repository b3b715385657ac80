//! Packed bitmaps (T.88, 6): rows of pixels, which a few calls read and write.
ghost use Rattle.std.specs.Prelude.{◌≡◌, ℕ, ◌+◌, ◌-◌, ◌*◌, ◌/◌, ◌^◌, ◌<◌, ◌≤◌, OnErr, Ok, false, length, slice_index};
ghost use Rattle.jbig2_base.specs.Results.{Gives, Returns};
ghost use Rattle.jbig2_base.specs.Counts.{words_cleared, words_copied};
ghost use Rattle.jbig2_base.specs.Grid.{Grid, blank, pixel_at, part_or_overflow, blank_or_overflow, wide_or_overflow, IsTable};
ghost use Rattle.jbig2_base.specs.Counts.{words_of, wide_words_made, bitmap_made};
ghost use Rattle.jbig2_base.specs.Causes.{HasCauseOrNoMemory, BreaksSides, BreaksArea};
ghost use Rattle.jbig2_base.specs.Bits.{bit, bit_number};
ghost use Rattle.jbig2_base.specs.Writes.{with_pixel, with_pixels};

pub mod colour;
mod combine;
pub mod operator;
pub mod part;
mod rows;

use crate::error::{OverflowError, Result};
pub use jbig2_steps::Steps;
pub use operator::CombinationOperator;
use rows::PackedRows;
pub use rows::words::Words;
use std::alloc::Allocator;
use std::marker::Model;
use std::sync::ledger::Ledger;

/// The longest side, in pixels, of a bitmap that is asked for by its sides (our own rule).
pub const MAX_DIMENSION: u32 = 65535;

/// The most pixels of any bitmap (our own rule).
pub const MAX_AREA: u64 = 65535 * 65535;

/// Refuses a size that a bitmap can't have: a side above 65535 gives
/// `OverflowError::BitmapDimension`.
pub fn check_sides(width: u32, height: u32) -> Result<()>
    ensures { let meant = blank_or_overflow width height false in
        Returns (λ _. blank width height false) result meant }
{
    if width > MAX_DIMENSION || height > MAX_DIMENSION {
        return Err(OverflowError::BitmapDimension.into());
    }
    Ok(())
}

/// A grid of black and white pixels.
#[derive(Debug)]
pub struct Bitmap<A: Allocator> {
    rows: PackedRows<A>,
}

// Not derived: a proof then has one call where a bitmap is dropped, and not a step for each field.
impl<A: Allocator> Drop for Bitmap<A> {
    fn drop(self) {
        let Bitmap { rows: _ } = self;
    }
}

impl<A: Allocator> Model for Bitmap<A> {
    ghost use Rattle.jbig2_base.specs.Grid.{Grid};

    ghost Value = { Grid };

    ghost view = { λ b. b.rows };
}

impl<A: Allocator> Bitmap<A> {
    /// A bitmap of no pixels, which takes no memory.
    pub fn new_empty(alloc: A) -> Bitmap<A>
        ensures { result ≡ blank 0 0 false }
    {
        Bitmap {
            rows: PackedRows::new(alloc),
        }
    }

    /// A white bitmap. A side above 65535 is refused (`OverflowError::BitmapDimension`). The words of the bitmap
    /// count as cleared before memory is asked for.
    pub fn new<L: Ledger>(
        alloc: A,
        width: u32,
        height: u32,
        steps: &mut Steps<L>,
    ) -> Result<Bitmap<A>>
        ensures value { Gives (λ b. b) result (blank_or_overflow width height false) }
        ensures steps { steps.new ≡ bitmap_made width height steps.old }
    {
        Bitmap::new_with(alloc, width, height, false, steps)
    }

    /// A white bitmap. Its sides may have any length if their product is at most 65535 * 65535. A
    /// larger product is refused (`OverflowError::BitmapDimension`). The words of the bitmap count as cleared
    /// before memory is asked for.
    pub fn new_wide<L: Ledger>(
        alloc: A,
        width: u32,
        height: u32,
        steps: &mut Steps<L>,
    ) -> Result<Bitmap<A>>
        ensures value { Gives (λ b. b) result (wide_or_overflow width height) }
        ensures causes { HasCauseOrNoMemory result (BreaksArea width height) }
        ensures steps { steps.new ≡ words_cleared (wide_words_made width height) steps.old }
    {
        if u64::from(width) * u64::from(height) > MAX_AREA {
            return Err(OverflowError::BitmapDimension.into());
        }
        let mut rows = PackedRows::new(alloc);
        rows.refill(width, height, false, steps)?;
        Ok(Bitmap { rows })
    }

    /// A bitmap whose pixels are all `default_pixel` (`true` is black). A side above 65535 is
    /// refused (`OverflowError::BitmapDimension`). The words of the bitmap count as cleared before memory is
    /// asked for.
    pub fn new_with<L: Ledger>(
        alloc: A,
        width: u32,
        height: u32,
        default_pixel: bool,
        steps: &mut Steps<L>,
    ) -> Result<Bitmap<A>>
        ensures value { Gives (λ b. b) result (blank_or_overflow width height default_pixel) }
        ensures steps { steps.new ≡ bitmap_made width height steps.old }
    {
        let mut bitmap = Bitmap::new_empty(alloc);
        bitmap.reinitialize(width, height, default_pixel, steps)?;
        Ok(bitmap)
    }

    /// A copy of this bitmap in new memory. Each of its words counts as loaded and written.
    pub fn duplicate<B: Allocator, L: Ledger>(
        &self,
        alloc: B,
        steps: &mut Steps<L>,
    ) -> Result<Bitmap<B>>
        ensures value { Gives (λ b. b) result (Ok self.now) }
        ensures steps { steps.new ≡ words_copied (words_of self.now) steps.old }
    {
        Ok(Bitmap {
            rows: self.rows.duplicate(alloc, steps)?,
        })
    }

    /// Changes the size and makes all pixels `default_pixel` (`true` is black). A side above 65535
    /// is refused (`OverflowError::BitmapDimension`). A refusal changes no pixel. The words of the new size
    /// count as cleared before memory is asked for.
    #[tactic(auto, using(crate::proofs::BitmapCauses::blank_cause))]
    pub fn reinitialize<L: Ledger>(
        &mut self,
        width: u32,
        height: u32,
        default_pixel: bool,
        steps: &mut Steps<L>,
    ) -> Result<()>
        ensures causes { HasCauseOrNoMemory result (BreaksSides width height) }
        ensures value { Gives (λ _. self.new) result
            (blank_or_overflow width height default_pixel) }
        ensures err { OnErr result (self.new ≡ self.old) }
        ensures steps { steps.new ≡ bitmap_made width height steps.old }
    {
        check_sides(width, height)?;
        self.rows.refill(width, height, default_pixel, steps)
    }

    /// Makes all pixels one colour: black if `black` is true. Each word counts as cleared.
    pub fn fill<L: Ledger>(&mut self, black: bool, steps: &mut Steps<L>)
        ensures value { self.new ≡ blank self.old.width self.old.height black }
        ensures steps { steps.new ≡ words_cleared (words_of self.old) steps.old }
    {
        self.rows.fill(black, steps);
    }

    /// The number of columns.
    #[inline(always)]
    pub fn width(&self) -> u32
        ensures value { result ≡ self.now.width }
        ensures table { IsTable self.now }
    {
        self.rows.width()
    }

    /// The number of rows.
    #[inline(always)]
    pub fn height(&self) -> u32
        ensures value { result ≡ self.now.height }
        ensures table { IsTable self.now }
    {
        self.rows.height()
    }

    /// The pixel at column `x` of row `y`, 1 for black; 0 outside.
    #[inline(always)]
    pub fn get_pixel<L: Ledger>(&self, x: u32, y: u32, steps: &mut Steps<L>) -> u8
        ensures value { result ≡ bit_number (pixel_at self.now x y) }
        ensures steps { steps.new ≡ record steps.old { loads = steps.old.loads + 1 } }
    {
        self.rows.get_pixel(x, y, steps)
    }

    /// Makes the pixel at column `x` of row `y` black if `black` is true, and never white. Outside
    /// nothing changes.
    #[inline(always)]
    pub fn set_pixel<L: Ledger>(&mut self, x: u32, y: u32, black: bool, steps: &mut Steps<L>)
        ensures value { self.new ≡ with_pixel self.old x y black }
        ensures steps { steps.new ≡ record steps.old { words = steps.old.words + 1 } }
    {
        self.rows.set_pixel(x, y, black, steps)
    }

    /// `count` neighbouring pixels of row `y` from column `x` on, 1 to 64 of them. The first is in
    /// the highest of the lowest `count` bits. Pixels outside are 0.
    #[inline(always)]
    pub fn load_pixels<L: Ledger>(&self, x: u32, y: u32, count: u32, steps: &mut Steps<L>) -> u64
        requires some { 1 ≤ count }
        requires few { count ≤ 64 }
        ensures bits { (k : ℕ) → k < count
            → bit result (count - 1 - k) ≡ pixel_at self.now (x + k) y }
        ensures bound { result < 2 ^ count }
        ensures steps { steps.new ≡ record steps.old { loads = steps.old.loads + 1 } }
    {
        self.rows.load_pixels(x, y, count, steps)
    }

    /// The pixels of row `y`, 64 in a word, the leftmost in its highest bit, and 0 past the width. The words are
    /// borrowed for reading one by one, each by a call that counts it.
    #[inline(always)]
    pub fn row_words(&self, y: u32) -> Words<'_>
        requires { y < self.now.height }
        ensures sized { length result.words.now ≡ (self.now.width + 63) / 64 }
        ensures bits { (i k : ℕ) → i < length result.words.now → k < 64
            → bit (slice_index result.words.now i) (63 - k) ≡ pixel_at self.now (64 * i + k) y }
    {
        self.rows.row_words(y)
    }

    /// Sets `count` neighbouring pixels of row `y` from column `x` on to the lowest `count` bits of
    /// `bits`, high bit first. The pixels lie inside the bitmap, and in one block of 64 columns
    /// that begins at a multiple of 64.
    #[inline(always)]
    pub fn store_pixels<L: Ledger>(
        &mut self,
        x: u32,
        y: u32,
        count: u32,
        bits: u64,
        steps: &mut Steps<L>,
    )
        requires some { 1 ≤ count }
        requires columns { x + count ≤ self.old.width }
        requires row { y < self.old.height }
        requires one_word { x / 64 ≡ (x + count - 1) / 64 }
        ensures value { self.new ≡ with_pixels self.old x y count bits }
        ensures steps { steps.new ≡ record steps.old { words = steps.old.words + 1 } }
    {
        self.rows.store_pixels(x, y, count, bits, steps)
    }
}
