//! Writes a page as packed rows, with a bit for each pixel.
ghost use Rattle.std.specs.Prelude.{◌≡◌, ◌+◌, ◌-◌, ◌*◌, ◌/◌, ◌<◌, ◌≤◌, ℕ, length};
ghost use Rattle.jbig2_base.specs.Bits.{bit};
ghost use Rattle.jbig2_base.specs.Counts.{words_loaded};
ghost use Rattle.jbig2_page.specs.Image.{packed_byte, packed_part, row_bytes};
ghost use Rattle.jbig2_page.specs.inner.BufferBytes.{top_byte, word_byte, Fills};
ghost use Rattle.jbig2_steps.specs.Work.{sum_of_counts};

pub mod drawn_rows;

use crate::row_places::next_place;
use jbig2_base::bitmap::Bitmap;
use jbig2_steps::Steps;
use std::alloc::Allocator;
use std::sync::ledger::Ledger;

/// Takes the highest byte off a word.
#[inline(always)]
fn take_byte(word: &mut u64) -> u8
    ensures value { result ≡ top_byte (bit word.old) }
    ensures rest { (k : ℕ) → 8 ≤ k → k < 64 → bit word.new k ≡ bit word.old (k - 8) }
{
    let byte = (*word >> 56) as u8;
    *word = *word << 8;
    byte
}

/// Puts the highest `count` bytes of a word at a place of `buf`.
#[inline(always)]
fn put_bytes(buf: &mut [u8], place: usize, count: usize, word: u64)
    requires few { count ≤ 8 }
    requires inside { place + count ≤ length buf.old }
    ensures { Fills (word_byte (bit word)) place count buf.old buf.new }
{
    let mut rest = word;
    for i in 0..count {
        buf[place + i] = take_byte(&mut rest);
    }
}

/// Puts the rest of a word of row `y`, from byte `column` on, at a place of `buf`: at most `most` bytes. Returns the
/// number of bytes.
#[inline(always)]
fn put_rest<A: Allocator, L: Ledger>(
    bitmap: &Bitmap<A>,
    column: usize,
    y: u32,
    most: usize,
    buf: &mut [u8],
    place: usize,
    steps: &mut Steps<L>,
) -> usize
    requires column { column < 536870912 }
    requires some { 1 ≤ most }
    requires inside { place + most ≤ length buf.old }
    ensures some { 1 ≤ result }
    ensures most { result ≤ most }
    ensures steps { steps.new ≡ words_loaded 1 steps.old }
    ensures bytes { Fills (λ i. packed_byte bitmap.now (column + i) y) place result buf.old buf.new }
{
    let word = bitmap.load_pixels(8 * column as u32, y, 64, steps);
    let count = most.min(8 - column % 8);
    put_bytes(buf, place, count, word);
    count
}

/// Puts words of row `y`, from byte `column` on, at a place of `buf`: as many as the row has and `most` bytes hold, of
/// the last one its first bytes where no more of them are wanted, and none if `column` isn't the first byte of a word.
/// Returns how many bytes. Each word is loaded once.
#[inline(always)]
fn put_words<A: Allocator, L: Ledger>(
    bitmap: &Bitmap<A>,
    column: usize,
    y: u32,
    most: usize,
    buf: &mut [u8],
    place: usize,
    steps: &mut Steps<L>,
) -> usize
    requires inside { place + most ≤ length buf.old }
    ensures most { result ≤ most }
    ensures steps { steps.new ≡ words_loaded ((result + 7) / 8) steps.old }
    ensures bytes { Fills (λ i. packed_byte bitmap.now (column + i) y) place result buf.old buf.new }
{
    if column % 8 != 0 || y >= bitmap.height() {
        return 0;
    }
    let words = bitmap.row_words(y);
    let first = column / 8;
    let count = (most / 8).min(words.len().saturating_sub(first));
    for index in 0..count {
        let word = words.load(first + index, steps);
        // A constant length makes this one store.
        put_bytes(buf, place + 8 * index, 8, word);
    }
    let whole = 8 * count;
    let left = most - whole;
    if 0 < left && left < 8 && first + count < words.len() {
        let word = words.load(first + count, steps);
        put_bytes(buf, place + whole, left, word);
        return most;
    }
    whole
}

/// Writes bytes of the packed rows of a bitmap of this width, from byte `start` of all rows on: a bit for each pixel, 1
/// for black, the leftmost pixel in the highest bit, and zeros after the last pixel of a row.
#[tactic(auto, unfolding(crate::specs::Image::packed_part))]
pub(crate) fn write_packed<A: Allocator, L: Ledger>(
    bitmap: &Bitmap<A>,
    width: u32,
    start: usize,
    buf: &mut [u8],
    steps: &mut Steps<L>,
)
    requires { start + length buf.old ≤ row_bytes width * u32.MAX }
    ensures value { buf.new ≡ packed_part width bitmap.now start (length buf.old) }
    ensures steps { sum_of_counts steps.new ≤ sum_of_counts steps.old + length buf.old }
{
    let row_bytes = width.div_ceil(8) as usize;
    let (mut place, mut column, mut y) = (0, 0, 0);
    if place < buf.len() {
        column = start % row_bytes;
        y = (start / row_bytes) as u32;
    }
    while place < buf.len() {
        let most = (row_bytes - column).min(buf.len() - place);
        let mut count = put_words(bitmap, column, y, most, buf, place, steps);
        if count == 0 {
            count = put_rest(bitmap, column, y, most, buf, place, steps);
        }
        place += count;
        (column, y) = next_place(column + count, y, row_bytes);
    }
}
