//! The decision that begins a row under typical prediction (T.88, 6.2.5.7 and 6.3.5.6).
ghost use Rattle.std.specs.Prelude.{◌≡◌, ℕ, ◌+◌, ◌<◌, length, IfSome, Some};
ghost use Rattle.jbig2_base.specs.Grid.{Grid};
ghost use Rattle.jbig2_region.specs.Raster.{Region, row_decisions};
ghost use Rattle.jbig2_region.specs.inner.RegionStates.{HasDecoded, BeginsRow, region_state};

use jbig2_coder::arithmetic_decoder::{ArithmeticDecoder, ArithmeticDecoderContext};
use jbig2_steps::Steps;
use std::sync::ledger::Ledger;

/// Decodes the decision that begins a row, in the context with this number. Returns whether the row
/// is predicted; `predicted` says whether the row above was.
#[inline(never)]
fn decide_row<L: Ledger>(
    context: u32,
    predicted: bool,
    decoder: &mut ArithmeticDecoder<'_>,
    contexts: &mut [ArithmeticDecoderContext],
    steps: &mut Steps<L>,
) -> bool
    requires context { context < length contexts.old }
    ensures row { (w h : ℕ) (grid : Grid) (r : Region) → r.predicted ≡ predicted
        → HasDecoded w h decoder.old.bytes r (region_state grid decoder.old contexts.old)
        → BeginsRow w h (Some context) r result decoder.old
        (region_state grid decoder.new contexts.new) }
    ensures bytes { decoder.new.bytes ≡ decoder.old.bytes }
    ensures steps { steps.new
        ≡ record steps.old { decisions = steps.old.decisions + row_decisions (Some context) } }
{
    let turned = decoder.decode(&mut contexts[context as usize], steps) == 1;
    if turned {
        return !predicted;
    }
    predicted
}

/// The same, or `predicted` if no decision begins a row.
#[inline(always)]
pub fn begin_row<L: Ledger>(
    row_context: Option<u32>,
    predicted: bool,
    decoder: &mut ArithmeticDecoder<'_>,
    contexts: &mut [ArithmeticDecoderContext],
    steps: &mut Steps<L>,
) -> bool
    requires context { IfSome row_context (λ k. k < length contexts.old) }
    ensures row { (w h : ℕ) (grid : Grid) (r : Region) → r.predicted ≡ predicted
        → HasDecoded w h decoder.old.bytes r (region_state grid decoder.old contexts.old)
        → BeginsRow w h row_context r result decoder.old
        (region_state grid decoder.new contexts.new) }
    ensures bytes { decoder.new.bytes ≡ decoder.old.bytes }
    ensures steps { steps.new
        ≡ record steps.old { decisions = steps.old.decisions + row_decisions row_context } }
{
    let Some(context) = row_context else {
        return predicted;
    };
    decide_row(context, predicted, decoder, contexts, steps)
}
