//! The symbols of a text region's instances (T.88, 6.4.10 and 6.4.11).
ghost use Rattle.std.specs.Prelude.{◌≡◌, option_map};
ghost use Rattle.jbig2_base.specs.Results.{Returns, Gives};
ghost use Rattle.jbig2_steps.specs.Work.{PaidBut};
ghost use Rattle.jbig2_coder.specs.Integers.{number_steps};
ghost use Rattle.jbig2_text.specs.Text.{instance_symbol, plain_symbol, symbol_of};
ghost use Rattle.jbig2_text.specs.inner.FunctionResults.{refinement_flag};
ghost use Rattle.jbig2_text.specs.inner.TextViews.{list_view, params_view, symbol_view};

use crate::header::TextRegionFlags;
use crate::params::TextParams;
use crate::readings::ReadInstances;
use crate::refined::read_refined;
use crate::refining::Refining;
use crate::symbol_list::SymbolList;
use jbig2_base::bitmap::{Bitmap, CombinationOperator};
use jbig2_base::error::{Result, SymbolError};
use jbig2_steps::Work;
use std::alloc::Allocator;
use std::sync::ledger::Ledger;

/// The symbol of an instance, as it is in the list or refined.
pub enum InstanceSymbol<'a, A: Allocator> {
    Shared(&'a Bitmap<A>),
    Refined(Bitmap<A>),
}

impl<A: Allocator> Drop for InstanceSymbol<'_, A> {
    fn drop(self) {
        match self {
            InstanceSymbol::Shared(_) => {}
            InstanceSymbol::Refined(_) => {}
        }
    }
}

/// Reads whether the symbol is refined, where symbols may be.
fn read_refinement_flag<R: ReadInstances, L: Ledger>(
    readings: &mut R,
    flags: &TextRegionFlags,
    work: &mut Work<L>,
) -> Result<bool>
    ensures value { let meant = refinement_flag R.readings flags.now (R.state readings.old) in
        Returns (λ b. (b, R.state readings.new)) result meant }
    ensures paid { PaidBut (number_steps 1) work.old work.new }
{
    if !flags.use_refinement {
        return Ok(false);
    }
    readings.is_refined(work)
}

/// The symbol of an id as it is. In lenient mode an id without a symbol gives none.
fn plain_symbol<'a, A: Allocator>(
    params: &TextParams<'a, A>,
    id: i64,
) -> Result<Option<InstanceSymbol<'a, A>>>
    ensures { let symbol = symbol_of (list_view params.now.symbols) id in
        let meant = plain_symbol params.now.strict symbol in
        Returns (λ s. option_map (λ x. symbol_view x) s) result meant }
{
    match params.symbols.symbol(id) {
        Some(bitmap) => Ok(Some(InstanceSymbol::Shared(bitmap))),
        None if params.strict => Err(SymbolError::OutOfRange.into()),
        None => Ok(None),
    }
}

/// Reads the symbol of an instance, after its id.
#[tactic(auto, unfolding(crate::specs::Text::instance_symbol))]
pub fn read_symbol<'a, R: ReadInstances, A: Allocator, L: Ledger>(
    alloc: A,
    readings: &mut R,
    refining: &mut Refining<A>,
    params: &TextParams<'a, A>,
    id: i64,
    work: &mut Work<L>,
) -> Result<Option<InstanceSymbol<'a, A>>>
    ensures value { let state = R.state readings.old in
        let meant = instance_symbol R.readings (params_view params.now) id refining.old state in
        let view = option_map (λ x. symbol_view x) in
        Gives (λ s. (view s, refining.new, R.state readings.new)) result meant }
    ensures paid { PaidBut (number_steps 5) work.old work.new }
{
    if read_refinement_flag(readings, &params.flags, work)? {
        let bitmap = read_refined(alloc, readings, refining, &params.symbols, id, work)?;
        return Ok(Some(InstanceSymbol::Refined(bitmap)));
    }
    plain_symbol(params, id)
}

impl<A: Allocator> InstanceSymbol<'_, A> {
    ghost use Rattle.std.specs.Prelude.{◌≡◌, ◌*◌};
    ghost use Rattle.jbig2_base.specs.Combination.{combined_grid};
    ghost use Rattle.jbig2_steps.specs.Work.{PaidBut, price_of_bitmap};
    ghost use Rattle.jbig2_text.specs.inner.TextViews.{symbol_view};

    /// The number of columns.
    pub fn width(&self) -> u32
        ensures { result ≡ (symbol_view self.now).width }
    {
        match self {
            InstanceSymbol::Shared(bitmap) => bitmap.width(),
            InstanceSymbol::Refined(bitmap) => bitmap.width(),
        }
    }

    /// The number of rows.
    pub fn height(&self) -> u32
        ensures { result ≡ (symbol_view self.now).height }
    {
        match self {
            InstanceSymbol::Shared(bitmap) => bitmap.height(),
            InstanceSymbol::Refined(bitmap) => bitmap.height(),
        }
    }

    /// Combines the symbol with a region, its top left pixel at column `x` of row `y`.
    pub fn draw<L: Ledger>(
        &self,
        region: &mut Bitmap<A>,
        x: i32,
        y: i32,
        operator: CombinationOperator,
        work: &mut Work<L>,
    )
        ensures value { region.new ≡ combined_grid operator region.old (symbol_view self.now) x y }
        ensures paid { let symbol = symbol_view self.now in
            PaidBut (32 * price_of_bitmap symbol.width symbol.height) work.old work.new }
    {
        match self {
            InstanceSymbol::Shared(bitmap) => region.combine(
                bitmap,
                x,
                y,
                operator,
                &mut work.steps,
            ),
            InstanceSymbol::Refined(bitmap) => region.combine(
                bitmap,
                x,
                y,
                operator,
                &mut work.steps,
            ),
        }
    }
}
