//! The words of packed rows. Only this module indexes them. Each of its calls reads or writes one word, or reads the
//! two words in which neighbouring pixels lie, and counts that. No other module gets a slice of them.
ghost use Rattle.std.specs.Prelude.{◌≡◌, ℕ, ◌+◌, ◌-◌, ◌*◌, ◌/◌, ◌%◌, ◌^◌, ◌<◌, ◌≤◌, [], OnErr, Ok, true, if◌then◌else◌, length, slice_index, slice_set, bit_or};
ghost use Rattle.jbig2_base.specs.Results.{Gives};
ghost use Rattle.jbig2_base.specs.Bits.{bit};
ghost use Rattle.jbig2_base.specs.Counts.{words_cleared, words_copied};
ghost use Rattle.jbig2_base.specs.inner.Combines.{IsBlockOnBoth, CombinesBlockOfWords};
ghost use Rattle.jbig2_base.specs.inner.Packed.{blank_word, blank_words, row_bit};
ghost use Rattle.jbig2_base.specs.inner.WordBits.{field_bit};

mod lent;

use crate::bitmap::operator::CombinationOperator;
use crate::bitmap::rows::blocks::{Block, Shape, Source, combine_rows};
use crate::error::Result;
use jbig2_steps::Steps;
pub use lent::{Words, WordsMut};
use std::alloc::Allocator;
use std::marker::Model;
use std::sync::ledger::Ledger;

/// The words of a bitmap, row by row.
#[derive(Debug, Drop)]
pub struct PackedWords<A: Allocator> {
    words: Vec<u64, A>,
}

impl<A: Allocator> Model for PackedWords<A> {
    ghost use Rattle.std.specs.Prelude.{List, ℕ};

    ghost Value = { List ℕ };

    ghost view = { λ w. w.words.items };
}

/// Where a row begins, and how many words it has.
#[derive(Clone, Copy)]
pub struct RowPlace {
    pub first: usize,
    pub stride: usize,
}

impl<A: Allocator> PackedWords<A> {
    /// No words; takes no memory.
    pub fn new(alloc: A) -> PackedWords<A>
        ensures { result ≡ [] }
    {
        PackedWords {
            words: Vec::new(alloc),
        }
    }

    /// Changes the size, and makes all pixels one colour. A refusal changes no word. The words of the new size
    /// count as cleared before memory is asked for.
    pub fn refill<L: Ledger>(
        &mut self,
        width: u32,
        height: u32,
        black: bool,
        steps: &mut Steps<L>,
    ) -> Result<()>
        ensures value { Gives (λ _. self.new) result (Ok (blank_words width height black)) }
        ensures err { OnErr result (self.new ≡ self.old) }
        ensures steps { steps.new ≡ words_cleared ((width + 63) / 64 * height) steps.old }
    {
        let count = width.div_ceil(64) as usize * height as usize;
        steps.clear(count as u64);
        self.words
            .reserve_exact(count.saturating_sub(self.words.len()))?;
        self.words.clear();
        self.words.resize(count, 0)?;
        fill_rows(&mut self.words, width, black);
        Ok(())
    }

    /// Makes all pixels one colour, in rows of `width` columns. Each word counts as cleared.
    pub fn fill<L: Ledger>(&mut self, width: u32, black: bool, steps: &mut Steps<L>)
        requires { 0 < length self.old → 0 < width }
        ensures size { length self.new ≡ length self.old }
        ensures value { (k : ℕ) → k < length self.new
            → slice_index self.new k ≡ blank_word width black k }
        ensures steps { steps.new ≡ words_cleared (length self.old) steps.old }
    {
        steps.clear(self.words.len() as u64);
        self.words.fill(0);
        fill_rows(&mut self.words, width, black);
    }

    /// A copy of the words in new memory. Each counts as loaded and written.
    pub fn duplicate<B: Allocator, L: Ledger>(
        &self,
        alloc: B,
        steps: &mut Steps<L>,
    ) -> Result<PackedWords<B>>
        ensures value { Gives (λ w. w) result (Ok self.now) }
        ensures steps { steps.new ≡ words_copied (length self.now) steps.old }
    {
        steps.copy(self.words.len() as u64);
        let mut words = Vec::new(alloc);
        words.extend_from_slice(&self.words)?;
        Ok(PackedWords { words })
    }

    /// `count` neighbouring bits of a row from bit `x` on, 1 to 64 of them. The first is in the highest of the
    /// lowest `count` bits. Bits past the row are 0. Counts one load.
    #[inline(always)]
    pub fn load_bits<L: Ledger>(
        &self,
        row: RowPlace,
        x: u32,
        count: u32,
        steps: &mut Steps<L>,
    ) -> u64
        requires some { 1 ≤ count }
        requires few { count ≤ 64 }
        requires inside { 0 < row.stride → row.first + row.stride ≤ length self.now }
        ensures bits { (k : ℕ) → k < count
            → bit result (count - 1 - k) ≡ row_bit self.now row.first row.stride (x + k) }
        ensures bound { result < 2 ^ count }
        ensures steps { steps.new ≡ record steps.old { loads = steps.old.loads + 1 } }
    {
        steps.load();
        let offset = x % 64;
        let first = self.word(row, x / 64) << offset;
        if offset + count <= 64 {
            return first >> (64 - count);
        }
        let second = self.word(row, x / 64 + 1) >> (64 - offset);
        (first | second) >> (64 - count)
    }

    /// Word `index` of a row; 0 past the row.
    #[inline(always)]
    fn word(&self, row: RowPlace, index: u32) -> u64
        requires { 0 < row.stride → row.first + row.stride ≤ length self.now }
        ensures { (k : ℕ) → k < 64
            → bit result (63 - k) ≡ row_bit self.now row.first row.stride (64 * index + k) }
    {
        if index as usize >= row.stride {
            return 0;
        }
        self.words[row.first + index as usize]
    }

    /// Sets bit `offset` of a word, where the leftmost is 0, if `black` is true. Counts one word.
    #[inline(always)]
    pub fn blacken<L: Ledger>(
        &mut self,
        index: usize,
        offset: u32,
        black: bool,
        steps: &mut Steps<L>,
    )
        requires offset { offset < 64 }
        requires inside { black ≡ true → index < length self.old }
        ensures value { self.new ≡ (if black then slice_set self.old index
            (bit_or (slice_index self.old index) (1 * 2 ^ (63 - offset) % 2 ^ 64)) else self.old) }
        ensures steps { steps.new ≡ record steps.old { words = steps.old.words + 1 } }
    {
        steps.word();
        if black {
            self.words[index] = self.words[index] | (1 << (63 - offset));
        }
    }

    /// Replaces `count` bits of a word from `shift` on by the lowest of `bits`. Counts one word.
    #[inline(always)]
    pub fn write_field<L: Ledger>(
        &mut self,
        index: usize,
        shift: u32,
        count: u32,
        bits: u64,
        steps: &mut Steps<L>,
    )
        requires inside { index < length self.old }
        requires some { 1 ≤ count }
        requires within { shift + count ≤ 64 }
        ensures value { self.new ≡ slice_set self.old index (slice_index self.new index) }
        ensures bits { (b : ℕ) → b < 64 → bit (slice_index self.new index) b
            ≡ field_bit (slice_index self.old index) shift count bits b }
        ensures steps { steps.new ≡ record steps.old { words = steps.old.words + 1 } }
    {
        steps.word();
        self.words[index] = with_field(self.words[index], shift, count, bits);
    }

    /// The words of a row, borrowed for reading one by one.
    #[inline(always)]
    pub fn row(&self, row: RowPlace) -> Words<'_>
        requires { row.first + row.stride ≤ length self.now }
        ensures sized { length result.words.now ≡ row.stride }
        ensures each { (i : ℕ) → i < row.stride
            → slice_index result.words.now i ≡ slice_index self.now (row.first + i) }
    {
        Words {
            words: &self.words[row.first..row.first + row.stride],
        }
    }

    /// Combines a block with the source's pixels on it. Calls `combine_rows` with the words of both.
    #[inline(always)]
    pub fn combine<B: Allocator, L: Ledger>(
        &mut self,
        shape: Shape,
        source: &PackedWords<B>,
        source_shape: Shape,
        operator: CombinationOperator,
        block: Block,
        steps: &mut Steps<L>,
    )
        requires inside { IsBlockOnBoth shape self.old source_shape source.now block }
        requires aligned { block.from / 64 < (block.from + block.columns - 1) / 64
            → block.left % 64 ≡ block.from % 64 }
        ensures { CombinesBlockOfWords operator shape self.old source_shape source.now block
            self.new steps.old steps.new }
    {
        let source = Source {
            words: Words {
                words: &source.words,
            },
            shape: source_shape,
        };
        combine_lent(&mut self.words, shape, source, operator, block, steps);
    }
}

/// Calls `combine_rows` with the words of a page.
#[inline(always)]
fn combine_lent<L: Ledger>(
    words: &mut [u64],
    shape: Shape,
    source: Source,
    operator: CombinationOperator,
    block: Block,
    steps: &mut Steps<L>,
)
    requires inside { IsBlockOnBoth shape words.old source.shape source.words.words.now block }
    requires aligned { block.from / 64 < (block.from + block.columns - 1) / 64
        → block.left % 64 ≡ block.from % 64 }
    ensures { CombinesBlockOfWords operator shape words.old source.entry.shape
        source.entry.words.words.now block words.new steps.old steps.new }
{
    let mut words = WordsMut { words };
    combine_rows(&mut words, shape, source, operator, block, steps);
}

/// `word` with the `count` bits from `shift` on replaced by the lowest `count` bits of `bits`.
#[inline(always)]
fn with_field(word: u64, shift: u32, count: u32, bits: u64) -> u64
    requires some { 1 ≤ count }
    requires within { shift + count ≤ 64 }
    ensures { (b : ℕ) → b < 64 → bit result b ≡ field_bit word shift count bits b }
{
    let mask = (u64::MAX >> (64 - count)) << shift;
    (word & !mask) | ((bits << shift) & mask)
}

/// Makes rows of one colour of words that are zero.
fn fill_rows<A: Allocator>(words: &mut Vec<u64, A>, width: u32, black: bool)
    requires columns { 0 < length words.old.items → 0 < width }
    requires zero { (k : ℕ) → k < length words.old.items → slice_index words.old.items k ≡ 0 }
    ensures size { length words.new.items ≡ length words.old.items }
    ensures value { (k : ℕ) → k < length words.new.items
        → slice_index words.new.items k ≡ blank_word width black k }
{
    if !black {
        return;
    }
    for index in 0..words.len() {
        words[index] = black_word(index, width);
    }
}

/// Word `index` of black rows.
#[inline(always)]
fn black_word(index: usize, width: u32) -> u64
    requires { 0 < width }
    ensures { result ≡ blank_word width true index }
{
    let stride = width.div_ceil(64) as usize;
    if index % stride + 1 == stride {
        return u64::MAX << (64 * stride - width as usize);
    }
    u64::MAX
}
