//! What the cells of a halftone region cost (our own rule).
ghost use Rattle.std.specs.Prelude.{◌≡◌, ◌+◌, ◌*◌, IfErr, IfOk};
ghost use Rattle.jbig2_steps.specs.Work.{Paid, budget};
ghost use Rattle.jbig2_halftone.specs.Steps.{price_of_halftone};
ghost use Rattle.jbig2_halftone.specs.inner.HalftoneHeaderViews.{header_view};
ghost use Rattle.jbig2_halftone.specs.inner.DictionaryViews.{dictionary_view};

use jbig2_base::error::{DecodeError, Result};
use jbig2_coder::code_length::code_length;
use jbig2_halftone::halftone::HalftoneRegionHeader;
use jbig2_halftone::pattern::PatternDictionary;
use jbig2_steps::Work;
use std::alloc::Allocator;
use std::sync::ledger::Ledger;

/// Takes the work of a halftone's cells: the planes of their values, a pattern for each cell that is combined with the
/// region, and the coded bytes.
pub(crate) fn pay_cells<A: Allocator, L: Ledger>(
    header: &HalftoneRegionHeader<'_>,
    patterns: &PatternDictionary<A>,
    work: &mut Work<L>,
) -> Result<()>
    ensures memory { IfErr result (λ e. e ≡ DecodeError.OutOfMemory) }
    ensures paid { Paid work.old work.new }
    ensures taken { let dictionary = dictionary_view patterns.now in
        let price = price_of_halftone (header_view header.now) dictionary in
        IfOk result (λ _. budget work.new + 32 * price ≡ budget work.old) }
{
    let grid = &header.grid_position_and_size;
    let planes = u64::from(code_length(patterns.patterns.len()));
    let cells = u64::from(grid.width) * u64::from(grid.height);
    work.pay_bitmaps(planes, grid.width, grid.height)?;
    work.pay_bitmaps(cells, patterns.pattern_width, patterns.pattern_height)?;
    work.pay(header.bytes.len() as u64)?;
    Ok(())
}
