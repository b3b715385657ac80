//! Rows of pixels packed into words. Only this module knows the size of a word. It reads and writes words only by the
//! calls of `words`.
ghost use Rattle.std.specs.Prelude.{◌≡◌, ℕ, ◌+◌, ◌-◌, ◌*◌, ◌/◌, ◌%◌, ◌^◌, ◌<◌, ◌≤◌, ◌&&◌, nat_lt, OnErr, Ok, false, length, slice_index};
ghost use Rattle.jbig2_base.specs.Results.{Gives};
ghost use Rattle.jbig2_base.specs.Counts.{words_cleared, words_copied};
ghost use Rattle.jbig2_base.specs.Counts.{words_of};
ghost use Rattle.jbig2_base.specs.Grid.{blank, IsTable, pixel_at};
ghost use Rattle.jbig2_base.specs.inner.Blocks.{LiesOn, CombinesBlock};
ghost use Rattle.jbig2_base.specs.Bits.{bit, bit_number};
ghost use Rattle.jbig2_base.specs.Writes.{with_pixel, with_pixels};

pub mod blocks;
pub mod words;

use crate::bitmap::operator::CombinationOperator;
use crate::error::Result;
use blocks::{Block, Shape};
use jbig2_steps::Steps;
use std::alloc::Allocator;
use std::marker::Model;
use std::sync::ledger::Ledger;
use words::{PackedWords, RowPlace, Words};

/// Pixels, row by row. Each row begins with a new word. The leftmost pixel of a word is its highest
/// bit, and the bits past the width are zero.
#[derive(Debug, Drop)]
pub struct PackedRows<A: Allocator> {
    width: u32,
    height: u32,
    /// Words in a row.
    stride: usize,
    words: PackedWords<A>,
}

impl<A: Allocator> Model for PackedRows<A> {
    ghost use Rattle.jbig2_base.specs.Grid.{Grid, grid_of};
    ghost use Rattle.jbig2_base.specs.inner.Packed.{IsPacked, packed_pixel};

    ghost Value = { Grid };

    ghost view = { λ r. grid_of r.width r.height (packed_pixel r.stride r.words) };

    ghost invariant = { λ r. IsPacked r.width r.height r.stride r.words };
}

impl<A: Allocator> PackedRows<A> {
    /// No rows; takes no memory.
    pub fn new(alloc: A) -> PackedRows<A>
        ensures { result ≡ blank 0 0 false }
    {
        PackedRows {
            width: 0,
            height: 0,
            stride: 0,
            words: PackedWords::new(alloc),
        }
    }

    /// Changes the size and makes all pixels one colour. A refusal changes no pixel. The words of the new size
    /// count as cleared, even if there is no memory for them.
    pub fn refill<L: Ledger>(
        &mut self,
        width: u32,
        height: u32,
        black: bool,
        steps: &mut Steps<L>,
    ) -> Result<()>
        ensures value { Gives (λ _. self.new) result (Ok (blank width height black)) }
        ensures err { OnErr result (self.new ≡ self.old) }
        ensures steps { steps.new ≡ words_cleared ((width + 63) / 64 * height) steps.old }
    {
        self.words.refill(width, height, black, steps)?;
        self.width = width;
        self.height = height;
        self.stride = width.div_ceil(64) as usize;
        Ok(())
    }

    /// Makes all pixels one colour. Each word counts as cleared.
    pub fn fill<L: Ledger>(&mut self, black: bool, steps: &mut Steps<L>)
        ensures value { self.new ≡ blank self.old.width self.old.height black }
        ensures steps { steps.new ≡ words_cleared (words_of self.old) steps.old }
    {
        self.words.fill(self.width, black, steps);
    }

    /// A copy of the rows in new memory. Each word counts as loaded and written.
    pub fn duplicate<B: Allocator, L: Ledger>(
        &self,
        alloc: B,
        steps: &mut Steps<L>,
    ) -> Result<PackedRows<B>>
        ensures value { Gives (λ r. r) result (Ok self.now) }
        ensures steps { steps.new ≡ words_copied (words_of self.now) steps.old }
    {
        let words = self.words.duplicate(alloc, steps)?;
        Ok(PackedRows {
            width: self.width,
            height: self.height,
            stride: self.stride,
            words,
        })
    }

    #[inline(always)]
    pub fn width(&self) -> u32
        ensures value { result ≡ self.now.width }
        ensures table { IsTable self.now }
    {
        self.width
    }

    #[inline(always)]
    pub fn height(&self) -> u32
        ensures value { result ≡ self.now.height }
        ensures table { IsTable self.now }
    {
        self.height
    }

    /// The pixel at column `x` of row `y`, 1 for black; 0 outside.
    #[inline(always)]
    pub fn get_pixel<L: Ledger>(&self, x: u32, y: u32, steps: &mut Steps<L>) -> u8
        ensures value { result ≡ bit_number (pixel_at self.now x y) }
        ensures steps { steps.new ≡ record steps.old { loads = steps.old.loads + 1 } }
    {
        let row = row_place(y, self.width, self.height, self.stride);
        self.words.load_bits(row, x, 1, steps) as u8
    }

    /// Makes the pixel at column `x` of row `y` black if `black` is true. Outside nothing changes.
    #[inline(always)]
    pub fn set_pixel<L: Ledger>(&mut self, x: u32, y: u32, black: bool, steps: &mut Steps<L>)
        ensures value { self.new ≡ with_pixel self.old x y black }
        ensures steps { steps.new ≡ record steps.old { words = steps.old.words + 1 } }
    {
        let row = row_place(y, self.width, self.height, self.stride);
        let index = row.first + (x / 64) as usize;
        let blackens = black_inside(black, x, y, self.width, self.height);
        self.words.blacken(index, x % 64, blackens, steps);
    }

    /// `count` neighbouring pixels of row `y` from column `x` on. The first is in the highest of
    /// the lowest `count` bits. Pixels outside are 0.
    #[inline(always)]
    pub fn load_pixels<L: Ledger>(&self, x: u32, y: u32, count: u32, steps: &mut Steps<L>) -> u64
        requires some { 1 ≤ count }
        requires few { count ≤ 64 }
        ensures bits { (k : ℕ) → k < count
            → bit result (count - 1 - k) ≡ pixel_at self.now (x + k) y }
        ensures bound { result < 2 ^ count }
        ensures steps { steps.new ≡ record steps.old { loads = steps.old.loads + 1 } }
    {
        let row = row_place(y, self.width, self.height, self.stride);
        self.words.load_bits(row, x, count, steps)
    }

    /// The words of row `y`, borrowed for reading one by one.
    #[inline(always)]
    pub fn row_words(&self, y: u32) -> Words<'_>
        requires { y < self.now.height }
        ensures sized { length result.words.now ≡ (self.now.width + 63) / 64 }
        ensures bits { (i k : ℕ) → i < length result.words.now → k < 64
            → bit (slice_index result.words.now i) (63 - k) ≡ pixel_at self.now (64 * i + k) y }
    {
        self.words
            .row(row_place(y, self.width, self.height, self.stride))
    }

    /// Sets `count` neighbouring pixels of row `y` from column `x` on to the lowest `count` bits of
    /// `bits`, high bit first. The pixels lie in one word.
    #[inline(always)]
    pub fn store_pixels<L: Ledger>(
        &mut self,
        x: u32,
        y: u32,
        count: u32,
        bits: u64,
        steps: &mut Steps<L>,
    )
        requires some { 1 ≤ count }
        requires columns { x + count ≤ self.old.width }
        requires row { y < self.old.height }
        requires one_word { x / 64 ≡ (x + count - 1) / 64 }
        ensures value { self.new ≡ with_pixels self.old x y count bits }
        ensures steps { steps.new ≡ record steps.old { words = steps.old.words + 1 } }
    {
        let index = y as usize * self.stride + (x / 64) as usize;
        self.words
            .write_field(index, 64 - x % 64 - count, count, bits, steps);
    }

    /// Combines a block with the source's pixels on it. Each row of the block lies in one word of
    /// the source, or it begins at the same place of a word in both and takes at least two words.
    #[inline(always)]
    pub fn combine_block<B: Allocator, L: Ledger>(
        &mut self,
        source: &PackedRows<B>,
        operator: CombinationOperator,
        block: Block,
        steps: &mut Steps<L>,
    )
        requires inside { LiesOn self.old source.now block }
        requires aligned { block.from / 64 < (block.from + block.columns - 1) / 64
            → block.left % 64 ≡ block.from % 64 }
        ensures { CombinesBlock operator block self.old source.now self.new steps.old steps.new }
    {
        let shape = Shape {
            width: self.width,
            height: self.height,
            stride: self.stride,
        };
        let source_shape = Shape {
            width: source.width,
            height: source.height,
            stride: source.stride,
        };
        self.words
            .combine(shape, &source.words, source_shape, operator, block, steps);
    }
}

/// The words of row `y`, none below the last row.
#[inline(always)]
fn row_place(y: u32, width: u32, height: u32, stride: usize) -> RowPlace
    requires { stride ≡ (width + 63) / 64 }
    ensures inside { y < height → (result.first ≡ y * stride) × (result.stride ≡ stride) }
    ensures below { height ≤ y → (result.first ≡ 0) × (result.stride ≡ 0) }
{
    if y >= height {
        return RowPlace {
            first: 0,
            stride: 0,
        };
    }
    RowPlace {
        first: y as usize * stride,
        stride,
    }
}

/// Whether `black` is true and the pixel is inside.
#[inline(always)]
fn black_inside(black: bool, x: u32, y: u32, width: u32, height: u32) -> bool
    ensures { result ≡ (black && nat_lt x width && nat_lt y height) }
{
    black && x < width && y < height
}
