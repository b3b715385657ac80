//! Combines a block of a page with a source, where the source's pixels on a word of the page lie in
//! one word of the source.
ghost use Rattle.std.specs.Prelude.{◌≡◌, ℕ, ◌+◌, ◌-◌, ◌*◌, ◌/◌, ◌%◌, ◌<◌, ◌≤◌, if◌then◌else◌};
ghost use Rattle.jbig2_base.specs.Combination.{combined_pixel};
ghost use Rattle.jbig2_base.specs.inner.Blocks.{with_run};
ghost use Rattle.jbig2_base.specs.inner.Combines.{IsBlockOnBoth, CombinesBlockOfWords, IsLineOnBoth, CombinesLine};
ghost use Rattle.jbig2_base.specs.inner.Layouts.{IsLaid};
ghost use Rattle.jbig2_base.specs.inner.Shapes.{HasShape, grid_in};
ghost use Rattle.jbig2_base.specs.Bits.{bit};

use crate::bitmap::operator::CombinationOperator;
use crate::bitmap::rows::words::{Words, WordsMut};
use jbig2_steps::Steps;
use std::sync::ledger::Ledger;

/// A block of a page, and the first of the source's pixels on it.
#[derive(Clone, Copy)]
pub struct Block {
    pub left: u32,
    pub top: u32,
    pub columns: u32,
    pub rows: u32,
    pub from: u32,
    pub from_row: u32,
}

/// How rows lie in words, with `stride` words for each row.
#[derive(Clone, Copy)]
pub struct Shape {
    pub width: u32,
    pub height: u32,
    pub stride: usize,
}

/// The words of a source, and how its rows lie in them.
#[derive(Clone, Copy)]
pub struct Source<'a> {
    pub words: Words<'a>,
    pub shape: Shape,
}

/// How each row of a block lies in words.
#[derive(Clone, Copy)]
pub enum Layout {
    /// In one word of the source and in one of the page.
    Near,
    /// In one word of the source.
    Narrow,
    /// Beginning at the same place of a word in page and source, over at least two words.
    Aligned,
}

/// One row of a block.
#[derive(Clone, Copy)]
struct Line {
    left: u32,
    columns: u32,
    y: usize,
    from: u32,
    from_y: usize,
}

/// Neighbouring pixels of row `y` in one of its words, the first `offset` pixels from its left.
#[derive(Clone, Copy)]
struct Run {
    y: usize,
    word: usize,
    offset: u32,
    count: u32,
}

/// Combines a block with the source's pixels on it. Each row of the block lies in one word of the
/// source, or it begins at the same place of a word in both and takes at least two words.
#[inline(always)]
pub fn combine_rows<L: Ledger>(
    words: &mut WordsMut<'_>,
    shape: Shape,
    source: Source,
    operator: CombinationOperator,
    block: Block,
    steps: &mut Steps<L>,
)
    requires inside { IsBlockOnBoth shape words.old.words.now
        source.shape source.words.words.now block }
    requires aligned { block.from / 64 < (block.from + block.columns - 1) / 64
        → block.left % 64 ≡ block.from % 64 }
    ensures same_reference { words.new.words.ghost_name ≡ words.old.words.ghost_name }
    ensures combines { CombinesBlockOfWords operator shape words.old.words.now source.entry.shape
        source.entry.words.words.now block words.new.words.now steps.old steps.new }
{
    // One call for each layout, so that each gets a loop of its own.
    if block.from / 64 != (block.from + block.columns - 1) / 64 {
        combine_laid(
            Layout::Aligned,
            words,
            shape,
            source,
            operator,
            block,
            steps,
        );
    } else if block.left % 64 + block.columns <= 64 {
        combine_laid(Layout::Near, words, shape, source, operator, block, steps);
    } else {
        combine_laid(Layout::Narrow, words, shape, source, operator, block, steps);
    }
}

/// The same, if each row has this layout.
#[inline(always)]
fn combine_laid<L: Ledger>(
    layout: Layout,
    words: &mut WordsMut<'_>,
    shape: Shape,
    source: Source,
    operator: CombinationOperator,
    block: Block,
    steps: &mut Steps<L>,
)
    requires inside { IsBlockOnBoth shape words.old.words.now
        source.shape source.words.words.now block }
    requires laid { IsLaid layout block.left block.columns block.from }
    ensures same_reference { words.new.words.ghost_name ≡ words.old.words.ghost_name }
    ensures combines { CombinesBlockOfWords operator shape words.old.words.now source.entry.shape
        source.entry.words.words.now block words.new.words.now steps.old steps.new }
{
    for row in 0..block.rows {
        let line = Line {
            left: block.left,
            columns: block.columns,
            y: block.top as usize + row as usize,
            from: block.from,
            from_y: block.from_row as usize + row as usize,
        };
        combine_line(layout, words, shape, source, operator, line, steps);
    }
}

/// Combines a row that has this layout.
#[inline(always)]
fn combine_line<L: Ledger>(
    layout: Layout,
    words: &mut WordsMut<'_>,
    shape: Shape,
    source: Source,
    operator: CombinationOperator,
    line: Line,
    steps: &mut Steps<L>,
)
    requires inside { IsLineOnBoth shape words.old.words.now
        source.shape source.words.words.now line }
    requires laid { IsLaid layout line.left line.columns line.from }
    ensures same_reference { words.new.words.ghost_name ≡ words.old.words.ghost_name }
    ensures combines { CombinesLine operator shape words.old.words.now source.entry.shape
        source.entry.words.words.now line words.new.words.now steps.old steps.new }
{
    match layout {
        Layout::Near => near_row(words, shape, source, operator, line, steps),
        Layout::Narrow => narrow_row(words, shape, source, operator, line, steps),
        Layout::Aligned => aligned_row(words, shape, source, operator, line, steps),
    }
}

/// Combines a row that lies in one word of the source and in one of the page.
#[inline(always)]
fn near_row<L: Ledger>(
    words: &mut WordsMut<'_>,
    shape: Shape,
    source: Source,
    operator: CombinationOperator,
    line: Line,
    steps: &mut Steps<L>,
)
    requires inside { IsLineOnBoth shape words.old.words.now
        source.shape source.words.words.now line }
    requires one_word { line.from / 64 ≡ (line.from + line.columns - 1) / 64 }
    requires near { line.left % 64 + line.columns ≤ 64 }
    ensures same_reference { words.new.words.ghost_name ≡ words.old.words.ghost_name }
    ensures combines { CombinesLine operator shape words.old.words.now source.entry.shape
        source.entry.words.words.now line words.new.words.now steps.old steps.new }
{
    let from = line.from_y * source.shape.stride + (line.from / 64) as usize;
    let bits = source.words.load(from, steps) << (line.from % 64);
    let offset = line.left % 64;
    let run = Run {
        y: line.y,
        word: (line.left / 64) as usize,
        offset,
        count: line.columns,
    };
    combine_run(words, shape, operator, run, bits >> offset, steps);
}

/// Combines a row that lies in one word of the source.
#[inline(always)]
fn narrow_row<L: Ledger>(
    words: &mut WordsMut<'_>,
    shape: Shape,
    source: Source,
    operator: CombinationOperator,
    line: Line,
    steps: &mut Steps<L>,
)
    requires inside { IsLineOnBoth shape words.old.words.now
        source.shape source.words.words.now line }
    requires one_word { line.from / 64 ≡ (line.from + line.columns - 1) / 64 }
    ensures same_reference { words.new.words.ghost_name ≡ words.old.words.ghost_name }
    ensures combines { CombinesLine operator shape words.old.words.now source.entry.shape
        source.entry.words.words.now line words.new.words.now steps.old steps.new }
{
    let from = line.from_y * source.shape.stride + (line.from / 64) as usize;
    let bits = source.words.load(from, steps) << (line.from % 64);
    let offset = line.left % 64;
    let near = line.columns.min(64 - offset);
    let first = Run {
        y: line.y,
        word: (line.left / 64) as usize,
        offset,
        count: near,
    };
    combine_run(words, shape, operator, first, bits >> offset, steps);
    if near == line.columns {
        return;
    }
    let rest = Run {
        y: line.y,
        word: (line.left / 64) as usize + 1,
        offset: 0,
        count: line.columns - near,
    };
    combine_run(words, shape, operator, rest, bits << near, steps);
}

/// Combines a row of at least two words that begins at the same place of a word in both.
#[inline(always)]
fn aligned_row<L: Ledger>(
    words: &mut WordsMut<'_>,
    shape: Shape,
    source: Source,
    operator: CombinationOperator,
    line: Line,
    steps: &mut Steps<L>,
)
    requires inside { IsLineOnBoth shape words.old.words.now
        source.shape source.words.words.now line }
    requires aligned { line.left % 64 ≡ line.from % 64 }
    requires wide { line.left / 64 < (line.left + line.columns - 1) / 64 }
    ensures same_reference { words.new.words.ghost_name ≡ words.old.words.ghost_name }
    ensures combines { CombinesLine operator shape words.old.words.now source.entry.shape
        source.entry.words.words.now line words.new.words.now steps.old steps.new }
{
    let offset = line.left % 64;
    let first = (line.left / 64) as usize;
    let last = ((line.left + line.columns - 1) / 64) as usize;
    let from = line.from_y * source.shape.stride + (line.from / 64) as usize;
    let begin = Run {
        y: line.y,
        word: first,
        offset,
        count: 64 - offset,
    };
    let bits = source.words.load(from, steps);
    combine_run(words, shape, operator, begin, bits, steps);
    for word in first + 1..last {
        let whole = Run {
            y: line.y,
            word,
            offset: 0,
            count: 64,
        };
        let bits = source.words.load(from + (word - first), steps);
        combine_run(words, shape, operator, whole, bits, steps);
    }
    let end = Run {
        y: line.y,
        word: last,
        offset: 0,
        count: (line.left + line.columns - 1) % 64 + 1,
    };
    let bits = source.words.load(from + (last - first), steps);
    combine_run(words, shape, operator, end, bits, steps);
}

/// Combines the pixels of a run with the bits at the same places of `bits`.
#[inline(always)]
fn combine_run<L: Ledger>(
    words: &mut WordsMut<'_>,
    shape: Shape,
    operator: CombinationOperator,
    run: Run,
    bits: u64,
    steps: &mut Steps<L>,
)
    requires packed { HasShape shape words.old.words.now }
    requires some { 1 ≤ run.count }
    requires one_word { run.offset + run.count ≤ 64 }
    requires right { 64 * run.word + run.offset + run.count ≤ shape.width }
    requires row { run.y < shape.height }
    ensures same_reference { words.new.words.ghost_name ≡ words.old.words.ghost_name }
    ensures packed { HasShape shape words.new.words.now }
    ensures value { grid_in shape words.new.words.now
        ≡ with_run operator (grid_in shape words.old.words.now)
        (64 * run.word + run.offset) run.y run.count (λ i. bit bits (63 - i % 64)) }
    ensures steps { steps.new
        ≡ record steps.old { loads = steps.old.loads + 1; words = steps.old.words + 1 } }
{
    let place = run.y * shape.stride + run.word;
    let mask = (u64::MAX >> (64 - run.count)) << (64 - run.offset - run.count);
    let page = words.load(place, steps);
    words.write(place, combined_word(operator, page, bits, mask), steps);
}

/// `page`, in which each bit that is set in `mask` is combined with that of `source` by `operator`.
#[inline(always)]
fn combined_word(operator: CombinationOperator, page: u64, source: u64, mask: u64) -> u64
    ensures { (b : ℕ) → b < 64 → bit result b
        ≡ (if bit mask b then combined_pixel operator (bit page b) (bit source b) else bit page b) }
{
    match operator {
        CombinationOperator::Or => page | (source & mask),
        CombinationOperator::And => page & (source | !mask),
        CombinationOperator::Xor => page ^ (source & mask),
        CombinationOperator::Xnor => page ^ (!source & mask),
        CombinationOperator::Replace => (page & !mask) | (source & mask),
    }
}
