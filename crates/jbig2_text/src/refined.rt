//! Symbols that are refined from others while the instances are read (T.88, 6.4.11).
ghost use Rattle.jbig2_base.specs.Results.{Returns, Gives};
ghost use Rattle.jbig2_steps.specs.Work.{PaidBut};
ghost use Rattle.jbig2_coder.specs.Integers.{number_steps};
ghost use Rattle.jbig2_text.specs.Text.{refinement_deltas, refined_outline, refined_symbol};
ghost use Rattle.jbig2_text.specs.inner.TextViews.{list_view};

use crate::coordinates;
use crate::readings::ReadInstances;
use crate::refining::Refining;
use crate::symbol_bitmap::new_symbol;
use crate::symbol_list::SymbolList;
use jbig2_base::bitmap::Bitmap;
use jbig2_base::error::{Result, SymbolError};
use jbig2_region::reference_bitmap::ReferenceBitmap;
use jbig2_steps::Work;
use std::alloc::Allocator;
use std::sync::ledger::Ledger;

/// How much wider and higher a refined symbol is (RDW, RDH), and how far it is moved to the right
/// and down (RDX, RDY).
#[derive(Clone, Copy, Debug)]
pub struct RefinementDeltas {
    pub width: i32,
    pub height: i32,
    pub x: i32,
    pub y: i32,
}

/// The size of a refined symbol, and the offset of its reference.
#[derive(Clone, Copy, Debug)]
pub struct Outline {
    pub width: u32,
    pub height: u32,
    pub dx: i32,
    pub dy: i32,
}

#[tactic(auto, unfolding(crate::specs::Text::refinement_deltas))]
fn read_deltas<R: ReadInstances, L: Ledger>(
    readings: &mut R,
    work: &mut Work<L>,
) -> Result<RefinementDeltas>
    ensures value { let meant = refinement_deltas R.readings (R.state readings.old) in
        Returns (λ deltas. (deltas, R.state readings.new)) result meant }
    ensures paid { PaidBut (number_steps 4) work.old work.new }
{
    let width = readings.width_delta(work)?;
    let height = readings.height_delta(work)?;
    let x = readings.x_delta(work)?;
    let y = readings.y_delta(work)?;
    Ok(RefinementDeltas {
        width,
        height,
        x,
        y,
    })
}

/// The outline of a symbol that is refined from `from`.
#[tactic(auto, unfolding(crate::specs::Text::refined_outline))]
fn outline_of<A: Allocator>(from: &Bitmap<A>, deltas: &RefinementDeltas) -> Result<Outline>
    ensures { Returns (λ o. o) result (refined_outline from.now deltas.now) }
{
    let width = coordinates::refined_side(from.width(), deltas.width)?;
    let height = coordinates::refined_side(from.height(), deltas.height)?;
    let dx = coordinates::reference_offset(deltas.width, deltas.x)?;
    let dy = coordinates::reference_offset(deltas.height, deltas.y)?;
    Ok(Outline {
        width,
        height,
        dx,
        dy,
    })
}

/// Reads a symbol that is refined from that of the id.
#[tactic(auto, unfolding(crate::specs::Text::refined_symbol))]
pub fn read_refined<R: ReadInstances, A: Allocator, L: Ledger>(
    alloc: A,
    readings: &mut R,
    refining: &mut Refining<A>,
    symbols: &SymbolList<'_, A>,
    id: i64,
    work: &mut Work<L>,
) -> Result<Bitmap<A>>
    ensures value { let state = R.state readings.old in
        let meant = refined_symbol R.readings (list_view symbols.now) id refining.old state in
        Gives (λ g. (g, refining.new, R.state readings.new)) result meant }
    ensures paid { PaidBut (number_steps 4) work.old work.new }
{
    let Some(bitmap) = symbols.symbol(id) else {
        return Err(SymbolError::OutOfRange.into());
    };
    let deltas = read_deltas(readings, work)?;
    let outline = outline_of(bitmap, &deltas)?;
    let mut refined = new_symbol(alloc, outline.width, outline.height, work)?;
    let reference = ReferenceBitmap {
        bitmap,
        dx: outline.dx,
        dy: outline.dy,
    };
    readings.refine(&reference, refining, &mut refined, work)?;
    Ok(refined)
}
