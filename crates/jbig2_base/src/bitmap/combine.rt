//! Combines one bitmap with another, word by word (T.88, 7.4.1.5).
ghost use Rattle.std.specs.Prelude.{◌≡◌, ℕ, true, ◌+◌, ◌-◌, ◌*◌, ◌/◌, ◌^◌, ◌<◌, ◌≤◌, min, pos, ◌-ℤ◌};
ghost use Rattle.jbig2_base.specs.inner.Blocks.{CombinesBlock, LiesOn, with_block};
ghost use Rattle.jbig2_base.specs.inner.Combines.{HasEnds, block_of};
ghost use Rattle.jbig2_base.specs.Combination.{combined_grid, combined_pixel};
ghost use Rattle.jbig2_base.specs.Counts.{overlap, most_words, source_combined, WritesWithin};
ghost use Rattle.jbig2_base.specs.Bits.{bit};
ghost use Rattle.jbig2_base.specs.Grid.{IsTable};

use crate::bitmap::Bitmap;
use crate::bitmap::operator::CombinationOperator;
use crate::bitmap::rows::blocks::Block;
use jbig2_steps::Steps;
use std::alloc::Allocator;
use std::sync::ledger::Ledger;

/// One body for each operator. The compiler knows the operator there, so each gets its own loops.
macro_rules! by_operator {
    ($operator:expr, $known:ident => $body:expr) => {
        match $operator {
            CombinationOperator::Or => {
                let $known = CombinationOperator::Or;
                $body
            }
            CombinationOperator::And => {
                let $known = CombinationOperator::And;
                $body
            }
            CombinationOperator::Xor => {
                let $known = CombinationOperator::Xor;
                $body
            }
            CombinationOperator::Xnor => {
                let $known = CombinationOperator::Xnor;
                $body
            }
            CombinationOperator::Replace => {
                let $known = CombinationOperator::Replace;
                $body
            }
        }
    };
}

/// The pixels of one row of a page from column `left` to column `right` - 1, and the first of the
/// source's pixels on them.
#[derive(Clone, Copy)]
struct Span {
    left: u32,
    right: u32,
    row: u32,
    from: u32,
    from_row: u32,
}

impl<A: Allocator> Bitmap<A> {
    /// Combines `other` into this bitmap, with its top left pixel at column `x` of row `y`. Each
    /// pixel of this bitmap under a pixel of `other` becomes the combination of the two by
    /// `operator`. The place may be anywhere, also partly or wholly outside.
    pub fn combine<B: Allocator, L: Ledger>(
        &mut self,
        other: &Bitmap<B>,
        x: i32,
        y: i32,
        operator: CombinationOperator,
        steps: &mut Steps<L>,
    )
        ensures value { self.new ≡ combined_grid operator self.old other.now x y }
        ensures exact { steps.new ≡ source_combined self.old other.now x y steps.old }
        ensures steps { WritesWithin (overlap self.old.height other.now.height y
            * most_words (overlap self.old.width other.now.width x)) steps.old steps.new }
    {
        if x >= 0 && y >= 0 && lies_within(self, other, x as u32, y as u32) {
            stamp(self, other, operator, x as u32, y as u32, steps);
            return;
        }
        combine_part(self, other, x, y, operator, steps);
    }
}

/// Whether a source with one word in each row lies wholly on the page. This makes no block.
#[inline(always)]
fn lies_within<A: Allocator, B: Allocator>(
    page: &Bitmap<A>,
    source: &Bitmap<B>,
    left: u32,
    top: u32,
) -> bool
    ensures inside { result ≡ true → LiesOn page.now source.now (block_of source.now left top) }
    ensures narrow { result ≡ true → source.now.width ≤ 64 }
{
    let columns = source.width();
    if columns == 0 || columns > 64 {
        return false;
    }
    u64::from(left) + u64::from(columns) <= u64::from(page.width())
        && u64::from(top) + u64::from(source.height()) <= u64::from(page.height())
}

/// Combines a source with one word in each row that lies wholly on the page.
fn stamp<A: Allocator, B: Allocator, L: Ledger>(
    page: &mut Bitmap<A>,
    source: &Bitmap<B>,
    operator: CombinationOperator,
    left: u32,
    top: u32,
    steps: &mut Steps<L>,
)
    requires inside { LiesOn page.old source.now (block_of source.now left top) }
    requires narrow { source.now.width ≤ 64 }
    ensures { CombinesBlock operator (block_of source.now left top) page.old source.now page.new
        steps.old steps.new }
{
    let block = Block {
        left,
        top,
        columns: source.width(),
        rows: source.height(),
        from: 0,
        from_row: 0,
    };
    by_operator!(operator, known => {
        page.rows.combine_block(&source.rows, known, block, steps);
    });
}

/// Combines the part of a source that lies on the page. The source may be at any place.
fn combine_part<A: Allocator, B: Allocator, L: Ledger>(
    page: &mut Bitmap<A>,
    source: &Bitmap<B>,
    x: i32,
    y: i32,
    operator: CombinationOperator,
    steps: &mut Steps<L>,
)
    ensures value { page.new ≡ combined_grid operator page.old source.now x y }
    ensures exact { steps.new ≡ source_combined page.old source.now x y steps.old }
    ensures steps { WritesWithin (overlap page.old.height source.now.height y
        * most_words (overlap page.old.width source.now.width x)) steps.old steps.new }
{
    let (left, from) = starts(x);
    let (top, from_row) = starts(y);
    let columns = (source.width().saturating_sub(from)).min(page.width().saturating_sub(left));
    let rows = (source.height().saturating_sub(from_row)).min(page.height().saturating_sub(top));
    if columns == 0 || rows == 0 {
        return;
    }
    let block = Block {
        left,
        top,
        columns,
        rows,
        from,
        from_row,
    };
    combine_block(page, source, operator, block, steps);
}

/// Combines a block of the page with the source's pixels on it.
fn combine_block<A: Allocator, B: Allocator, L: Ledger>(
    page: &mut Bitmap<A>,
    source: &Bitmap<B>,
    operator: CombinationOperator,
    block: Block,
    steps: &mut Steps<L>,
)
    requires table { IsTable page.old }
    requires inside { LiesOn page.old source.now block }
    requires ends { HasEnds block }
    ensures { CombinesBlock operator block page.old source.now page.new steps.old steps.new }
{
    by_operator!(operator, known => combine_by(page, source, known, block, steps));
}

/// The same, for an operator that the compiler knows.
#[inline(always)]
fn combine_by<A: Allocator, B: Allocator, L: Ledger>(
    page: &mut Bitmap<A>,
    source: &Bitmap<B>,
    operator: CombinationOperator,
    block: Block,
    steps: &mut Steps<L>,
)
    requires table { IsTable page.old }
    requires inside { LiesOn page.old source.now block }
    requires ends { HasEnds block }
    ensures { CombinesBlock operator block page.old source.now page.new steps.old steps.new }
{
    let last = block.from + block.columns - 1;
    if block.from / 64 == last / 64 || block.left % 64 == block.from % 64 {
        page.rows
            .combine_block(&source.rows, operator, block, steps);
        return;
    }
    for row in 0..block.rows {
        let span = Span {
            left: block.left,
            right: block.left + block.columns,
            row: block.top + row,
            from: block.from,
            from_row: block.from_row + row,
        };
        combine_row(page, source, operator, span, steps);
    }
}

/// The first column (or row) of the page under a source that begins at `x`, and the first of the
/// source's own on the page.
fn starts(x: i32) -> (u32, u32)
    ensures difference { x ≡ pos result.0 -ℤ pos result.1 }
    ensures one { min result.0 result.1 ≡ 0 }
{
    if x < 0 {
        return (0, x.unsigned_abs());
    }
    (x as u32, 0)
}

/// Combines one span, word by word of the page.
#[inline(always)]
fn combine_row<A: Allocator, B: Allocator, L: Ledger>(
    page: &mut Bitmap<A>,
    source: &Bitmap<B>,
    operator: CombinationOperator,
    span: Span,
    steps: &mut Steps<L>,
)
    requires table { IsTable page.old }
    requires some { span.left < span.right }
    requires inside { span.right ≤ page.old.width }
    requires row { span.row < page.old.height }
    requires fits { span.from + (span.right - span.left) < 2 ^ 32 }
    requires source { span.from + (span.right - span.left) ≤ source.now.width }
    requires source_row { span.from_row < source.now.height }
    ensures value { page.new ≡ with_block operator page.old source.now span.left span.right span.row
        (span.row + 1) span.from span.from_row }
    ensures steps { let words = (span.right - 1) / 64 + 1 - span.left / 64 in
        steps.new ≡ record steps.old {
          words = steps.old.words + words;
          loads = steps.old.loads + 2 * words;
        } }
{
    let left = span.left;
    let right = span.right;
    for index in left / 64..(right - 1) / 64 + 1 {
        let start = left.max(index * 64);
        let count = (right - start).min(64 - start % 64);
        let page_bits = page.load_pixels(start, span.row, count, steps);
        let source_bits = source.load_pixels(
            span.from + (start - left),
            span.from_row,
            count,
            steps,
        );
        let bits = combined_bits(operator, page_bits, source_bits, count);
        page.store_pixels(start, span.row, count, bits, steps);
    }
}

/// The lowest `count` bits of `page` and `source`, combined by `operator`.
#[inline(always)]
fn combined_bits(operator: CombinationOperator, page: u64, source: u64, count: u32) -> u64
    requires some { 1 ≤ count }
    requires few { count ≤ 64 }
    ensures { (k : ℕ) → k < count
        → bit result k ≡ combined_pixel operator (bit page k) (bit source k) }
{
    match operator {
        CombinationOperator::Or => page | source,
        CombinationOperator::And => page & source,
        CombinationOperator::Xor => page ^ source,
        CombinationOperator::Xnor => page ^ source ^ (u64::MAX >> (64 - count)),
        CombinationOperator::Replace => source,
    }
}
