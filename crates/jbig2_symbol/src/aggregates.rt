//! Symbols that are refined from another one or aggregated from several (T.88, 6.5.8.2).
ghost use Rattle.std.specs.Prelude.{◌≡◌, ◌+◌, ◌*◌, ◌≤◌, length, max};
ghost use Rattle.jbig2_base.specs.Results.{Returns, Gives};
ghost use Rattle.jbig2_steps.specs.Work.{Paid, PaidBut};
ghost use Rattle.jbig2_text.specs.Text.{max_symbols};
ghost use Rattle.jbig2_coder.specs.Integers.{number_steps};
ghost use Rattle.jbig2_symbol.specs.SymbolHeader.{max_new_symbols};
ghost use Rattle.jbig2_symbol.specs.SymbolBitmaps.{aggregate_flags, aggregate_params, id_bits, id_codes, put_together, refined_alone, some_instances, state_bits};
ghost use Rattle.jbig2_base.specs.Causes.{HasCauseOrNoMemory};
ghost use Rattle.jbig2_symbol.specs.Causes.{BreaksIdCodes};
ghost use Rattle.jbig2_symbol.specs.inner.HeaderViews.{header_view};
ghost use Rattle.jbig2_symbol.specs.inner.SymbolViews.{input_view};
ghost use Rattle.jbig2_text.specs.inner.TextViews.{list_view, params_view};

use crate::header::{SymbolDictionaryFlags, SymbolDictionaryHeader};
use crate::input::SymbolInput;
use crate::readings::SymbolSize;
use jbig2_base::bitmap::{Bitmap, CombinationOperator};
use jbig2_base::error::{Result, SymbolError};
use jbig2_coder::code_length::code_length;
use jbig2_coder::huffman_table::HuffmanTable;
use jbig2_region::reference_bitmap::ReferenceBitmap;
use jbig2_steps::Work;
use jbig2_text::header::{ReferenceCorner, TextRegionFlags};
use jbig2_text::{ReadInstances, Refining, SymbolList, TextParams, draw_instances_by, new_symbol};
use std::alloc::Allocator;
use std::sync::ledger::Ledger;

/// The number of bits of a symbol's id. It is enough for all symbols, also the new ones.
pub fn id_bits(header: &SymbolDictionaryHeader<'_>, symbols: usize) -> u32
    requires symbols { symbols ≤ max_symbols }
    requires fresh { header.now.num_new_symbols ≤ max_new_symbols }
    ensures value { result ≡ id_bits (header_view header.now) symbols }
    ensures small { result ≤ 30 }
{
    code_length(symbols + header.num_new_symbols as usize)
}

/// The number of bits of the ids that a dictionary's coder reads; 0 without SDREFAGG.
pub fn state_bits(header: &SymbolDictionaryHeader<'_>, symbols: usize) -> u32
    requires symbols { symbols ≤ max_symbols }
    requires fresh { header.now.num_new_symbols ≤ max_new_symbols }
    ensures value { result ≡ state_bits (header_view header.now) symbols }
    ensures small { result ≤ 30 }
{
    if !header.flags.use_refagg {
        return 0;
    }
    id_bits(header, symbols)
}

/// The codes of the symbols' ids, where symbols are aggregated by prefix codes. These codes are
/// never crowded, so the only error is `OutOfMemory`.
#[tactic(auto, using(crate::proofs::IdCodes::id_codes_cause))]
pub fn id_codes<A: Allocator + Clone>(
    alloc: A,
    header: &SymbolDictionaryHeader<'_>,
    symbols: usize,
) -> Result<HuffmanTable<A>>
    requires symbols { symbols ≤ max_symbols }
    requires fresh { header.now.num_new_symbols ≤ max_new_symbols }
    ensures value { Gives (λ codes. codes) result (id_codes (header_view header.now) symbols) }
    ensures causes { HasCauseOrNoMemory result (BreaksIdCodes (header_view header.now) symbols) }
{
    let count = if header.flags.use_huffman && header.flags.use_refagg {
        symbols as u32 + header.num_new_symbols
    } else {
        0
    };
    HuffmanTable::build_uniform(alloc, count, id_bits(header, symbols).max(1))
}

/// How the instances of a symbol are placed: as in a text region in strips of one row, by their top
/// left pixels (T.88, Table 17).
fn aggregate_flags(flags: &SymbolDictionaryFlags) -> TextRegionFlags
    ensures { result ≡ aggregate_flags flags.now }
{
    TextRegionFlags {
        use_refinement: true,
        log_strip_size: 0,
        reference_corner: ReferenceCorner::TopLeft,
        transposed: false,
        combination_operator: CombinationOperator::Or,
        default_pixel: false,
        delta_s_offset: 0,
        refinement_template: flags.refinement_template,
    }
}

/// The number of a symbol's instances. It must be at least one (T.88, 6.5.8.2.1).
pub fn instance_count(number: Option<i32>) -> Result<u32>
    ensures { Returns (λ count. count) result (some_instances number) }
{
    let Some(number) = number else {
        return Err(SymbolError::UnexpectedOob.into());
    };
    if number < 1 {
        return Err(SymbolError::Invalid.into());
    }
    Ok(number as u32)
}

/// What is needed to read and place this many instances, of the symbols that are referred to and
/// the new ones so far.
pub fn aggregate_params<'a, A: Allocator>(
    input: &SymbolInput<'a, A>,
    new: &'a [Bitmap<A>],
    count: u32,
) -> TextParams<'a, A>
    ensures { params_view result ≡ aggregate_params (input_view input.now) new.now count }
{
    TextParams {
        flags: aggregate_flags(&input.header.flags),
        symbols: SymbolList {
            input_symbols: input.symbols,
            new_symbols: new,
        },
        num_instances: count,
        data_len: input.header.bytes.len(),
        strict: input.header.strict,
    }
}

/// Refines the symbol of an id into one of this size (T.88, 6.5.8.2.2), with the allocator of
/// `refining`.
#[tactic(auto, unfolding(crate::specs::SymbolBitmaps::refined_alone))]
pub fn refine_alone<R: ReadInstances, A: Allocator + Clone, L: Ledger>(
    readings: &mut R,
    refining: &mut Refining<A>,
    symbols: &SymbolList<'_, A>,
    id: i64,
    size: SymbolSize,
    work: &mut Work<L>,
) -> Result<Bitmap<A>>
    ensures value { let state = R.state readings.old in
        let all = list_view symbols.now in
        let meant = refined_alone R.readings all id size.width size.height refining.old state in
        Gives (λ g. (g, refining.new, R.state readings.new)) result meant }
    ensures paid { PaidBut (number_steps 2) work.old work.new }
{
    let alloc = refining.allocator().clone()?;
    let dx = readings.x_delta(work)?;
    let dy = readings.y_delta(work)?;
    let Some(bitmap) = symbols.symbol(id) else {
        return Err(SymbolError::OutOfRange.into());
    };
    let mut refined = new_symbol(alloc, size.width, size.height, work)?;
    let reference = ReferenceBitmap { bitmap, dx, dy };
    readings.refine(&reference, refining, &mut refined, work)?;
    Ok(refined)
}

/// Reads several instances, and draws them into a symbol of this size, with the allocator of
/// `refining`.
#[tactic(auto, unfolding(crate::specs::SymbolBitmaps::put_together))]
pub fn put_together<R: ReadInstances, A: Allocator + Clone, L: Ledger>(
    readings: &mut R,
    refining: &mut Refining<A>,
    params: &TextParams<'_, A>,
    size: SymbolSize,
    work: &mut Work<L>,
) -> Result<Bitmap<A>>
    requires { params.now.flags.log_strip_size ≤ 3 }
    ensures value { let state = R.state readings.old in
        let p = params_view params.now in
        let meant = put_together R.readings p size.width size.height refining.old state in
        Gives (λ g. (g, refining.new, R.state readings.new)) result meant }
    ensures paid { Paid work.old work.new }
{
    let alloc = refining.allocator().clone()?;
    let mut symbol = new_symbol(alloc, size.width, size.height, work)?;
    draw_instances_by(readings, refining, params, &mut symbol, work)?;
    Ok(symbol)
}
