//! Halftone regions (T.88, 6.6 and 7.4.5): draws a pattern for each cell of a grid.
ghost use Rattle.std.specs.Prelude.{◌≡◌, ◌+◌, ◌*◌, ◌<◌, ◌≤◌, length, false, ◌⊎◌, IfErr, IfOk, OnErr, OnOk, FitsSigned, Ok};
ghost use Rattle.std.specs.Int.{w32, int_shr};
ghost use Rattle.jbig2_steps.specs.Work.{CountsWithin, price_of_bitmap};
ghost use Rattle.jbig2_base.specs.Results.{Returns, Gives, Leaves};
ghost use Rattle.jbig2_base.specs.Counts.{WritesWithin, bitmap_made, most_words, overlap, words_cleared, words_made};
ghost use Rattle.jbig2_base.specs.Combination.{combined_grid};
ghost use Rattle.jbig2_base.specs.Grid.{blank, max_side};
ghost use Rattle.jbig2_region.specs.inner.RegionViews.{region_view, skip_of};
ghost use Rattle.jbig2_halftone.specs.inner.GrayScaleViews.{gray_view};
ghost use Rattle.jbig2_halftone.specs.GrayScale.{gray_scale_image};
ghost use Rattle.jbig2_halftone.specs.Halftone.{gray_params, skip_mask, pattern_for, cells_drawn, halftone_result, halftone_contexts, halftone_decoded, decoded_contexts};
ghost use Rattle.jbig2_halftone.specs.HalftoneHeader.{HalftoneHeader};
ghost use Rattle.jbig2_halftone.specs.inner.HalftoneHeaderViews.{header_view};
ghost use Rattle.jbig2_halftone.specs.inner.DictionaryViews.{dictionary_view};
ghost use Rattle.jbig2_halftone.specs.Steps.{CountsImage, CountsHalftone, StopsHalftone, after_mask, cleared_by_cells, cleared_by_mask, words_of_cells, price_of_halftone};
ghost use Rattle.jbig2_region.specs.Steps.{region_made};
ghost use Rattle.jbig2_halftone.specs.inner.CellPlaces.{x_of, y_of};
ghost use Rattle.jbig2_halftone.specs.inner.FunctionResults.{skip_grid, StopsCells};
ghost use Rattle.jbig2_base.specs.Causes.{HasCauseOrNoMemory};
ghost use Rattle.jbig2_halftone.specs.Causes.{BreaksHalftone};
ghost use Rattle.jbig2_halftone.specs.Patterns.{HasSize};

mod cells;
pub mod header;
mod part;

use crate::gray_scale::{GrayScaleParams, decode_gray_scale_image};
use crate::pattern::PatternDictionary;
use cells::{CellPlace, first_place, lies_outside, next_in_row, next_row, whole_pixels};
pub use header::{HalftoneRegionHeader, parse};
use jbig2_base::bitmap::Bitmap;
use jbig2_base::bitmap::operator::CombinationOperator;
use jbig2_base::error::{DecodeError, RegionError, Result};
use jbig2_coder::arithmetic_decoder::ArithmeticDecoderContext;
use jbig2_coder::code_length::code_length;
use jbig2_region::decoded_region::DecodedRegion;
use jbig2_steps::Steps;
pub use part::decode_part;
use std::alloc::Allocator;
use std::sync::ledger::Ledger;

/// The cells that are skipped: the pixel in column `n` of row `m` is black if the pattern of cell
/// (`m`, `n`) lies outside the region (T.88, 6.6.5.1).
fn skip_bitmap<D: Allocator, A: Allocator, L: Ledger>(
    alloc: A,
    header: &HalftoneRegionHeader<'_>,
    dictionary: &PatternDictionary<D>,
    steps: &mut Steps<L>,
) -> Result<Bitmap<A>>
    requires columns { header.now.grid_position_and_size.width ≤ max_side }
    requires rows { header.now.grid_position_and_size.height ≤ max_side }
    ensures value { Gives (λ skip. skip) result
        (Ok (skip_grid (header_view header.now) (dictionary_view dictionary.now))) }
    ensures steps { let grid = header.now.grid_position_and_size in
        OnOk result (steps.new ≡ record (bitmap_made grid.width grid.height steps.old) {
          words = steps.old.words + grid.height * grid.width;
        }) }
    ensures stopped { let grid = header.now.grid_position_and_size in
        OnErr result (steps.new ≡ bitmap_made grid.width grid.height steps.old) }
{
    let grid = &header.grid_position_and_size;
    let mut skip = Bitmap::new(alloc, grid.width, grid.height, steps)?;
    let room = &header.region_info;
    let (width, height) = (dictionary.pattern_width, dictionary.pattern_height);
    let x_vector = header.grid_vector.x_vector;
    let y_vector = header.grid_vector.y_vector;
    let mut first = first_place(header);
    for m in 0..grid.height {
        let mut place = first;
        for n in 0..grid.width {
            let outside = lies_outside(place, width, height, room.width, room.height);
            skip.set_pixel(n, m, outside, steps);
            place = next_in_row(place, x_vector, y_vector);
        }
        first = next_row(first, x_vector, y_vector);
    }
    Ok(skip)
}

/// The pattern of a value. In strict mode a value without a pattern is refused. In other modes it
/// has the last pattern.
fn pattern_for<A: Allocator>(
    strict: bool,
    dictionary: &PatternDictionary<A>,
    value: u32,
) -> Result<&Bitmap<A>>
    ensures value { Returns (λ pattern. pattern.now) result
        (pattern_for strict dictionary.now.patterns.items value) }
    ensures refused { IfErr result (λ e. e ≡ DecodeError.Region RegionError.GrayScaleOutOfRange) }
    ensures sized { IfOk result (λ pattern. HasSize dictionary.now.pattern_width
        dictionary.now.pattern_height pattern.now) }
{
    let patterns = &dictionary.patterns;
    let value = value as usize;
    if value < patterns.len() {
        return Ok(&patterns[value]);
    }
    if strict {
        return Err(RegionError::GrayScaleOutOfRange.into());
    }
    Ok(&patterns[patterns.len() - 1])
}

/// Draws a cell's pattern onto a region, unless it lies wholly outside.
#[inline(always)]
fn draw_cell<D: Allocator, A: Allocator, L: Ledger>(
    place: CellPlace,
    pattern: &Bitmap<D>,
    operator: CombinationOperator,
    bitmap: &mut Bitmap<A>,
    steps: &mut Steps<L>,
)
    requires x { FitsSigned w32 (int_shr place.x 8) }
    requires y { FitsSigned w32 (int_shr place.y 8) }
    ensures value { bitmap.new
        ≡ combined_grid operator bitmap.old pattern.now (int_shr place.x 8) (int_shr place.y 8) }
    ensures steps { WritesWithin (overlap bitmap.old.height pattern.now.height (int_shr place.y 8)
        * most_words (overlap bitmap.old.width pattern.now.width (int_shr place.x 8)))
        steps.old steps.new }
{
    let (width, height) = (pattern.width(), pattern.height());
    if lies_outside(place, width, height, bitmap.width(), bitmap.height()) {
        return;
    }
    let x = whole_pixels(place.x);
    let y = whole_pixels(place.y);
    bitmap.combine(pattern, x, y, operator, steps);
}

/// Draws the patterns of the values of row `m` of the grid onto a region. `first` is the place of the row's first cell
/// (T.88, 6.6.5.2).
fn draw_row<D: Allocator, A: Allocator, L: Ledger>(
    header: &HalftoneRegionHeader<'_>,
    dictionary: &PatternDictionary<D>,
    m: u32,
    first: CellPlace,
    values: &[u32],
    bitmap: &mut Bitmap<A>,
    steps: &mut Steps<L>,
) -> Result<()>
    requires row { m < 65536 }
    requires x { first.x ≡ x_of (header_view header.now) m 0 }
    requires y { first.y ≡ y_of (header_view header.now) m 0 }
    requires x_fits { FitsSigned w32 header.now.grid_position_and_size.horizontal_offset }
    requires y_fits { FitsSigned w32 header.now.grid_position_and_size.vertical_offset }
    requires columns { header.now.grid_position_and_size.width ≤ max_side }
    requires sized { length values.now ≡ header.now.grid_position_and_size.width }
    requires region { HasSize header.now.region_info.width header.now.region_info.height
        bitmap.old }
    ensures value { Returns (λ _. bitmap.new) result
        (cells_drawn (header_view header.now) (dictionary_view dictionary.now)
        (m * header.now.grid_position_and_size.width) values.now bitmap.old) }
    ensures refused { IfErr result (λ e. e ≡ DecodeError.Region RegionError.GrayScaleOutOfRange) }
    ensures size { HasSize bitmap.old.width bitmap.old.height bitmap.new }
    ensures steps { WritesWithin
        (words_of_cells (header_view header.now) (dictionary_view dictionary.now)
        (m * header.now.grid_position_and_size.width) (length values.now))
        steps.old steps.new }
{
    let operator = header.flags.combination_operator;
    let x_vector = header.grid_vector.x_vector;
    let y_vector = header.grid_vector.y_vector;
    let mut place = first;
    for value in values {
        let pattern = match pattern_for(header.strict, dictionary, *value) {
            Ok(pattern) => pattern,
            Err(error) => return Err(error),
        };
        draw_cell(place, pattern, operator, bitmap, steps);
        place = next_in_row(place, x_vector, y_vector);
    }
    Ok(())
}

/// Draws the patterns of the values of the first `rows` rows of cells onto a region, row by row.
fn draw_rows<D: Allocator, A: Allocator, L: Ledger>(
    header: &HalftoneRegionHeader<'_>,
    dictionary: &PatternDictionary<D>,
    rows: u32,
    values: &[u32],
    bitmap: &mut Bitmap<A>,
    steps: &mut Steps<L>,
) -> Result<()>
    requires columns { header.now.grid_position_and_size.width ≤ max_side }
    requires rows { rows ≤ max_side }
    requires sized { length values.now ≡ header.now.grid_position_and_size.width * rows }
    requires region { HasSize header.now.region_info.width header.now.region_info.height
        bitmap.old }
    ensures value { Returns (λ _. bitmap.new) result
        (cells_drawn (header_view header.now) (dictionary_view dictionary.now) 0 values.now
        bitmap.old) }
    ensures refused { IfErr result (λ e. e ≡ DecodeError.Region RegionError.GrayScaleOutOfRange) }
    ensures steps { WritesWithin
        (words_of_cells (header_view header.now) (dictionary_view dictionary.now) 0
        (rows * header.now.grid_position_and_size.width)) steps.old steps.new }
{
    let columns = header.grid_position_and_size.width as usize;
    let x_vector = header.grid_vector.x_vector;
    let y_vector = header.grid_vector.y_vector;
    let mut first = first_place(header);
    for m in 0..rows {
        let start = m as usize * columns;
        let row = &values[start..start + columns];
        match draw_row(header, dictionary, m, first, row, bitmap, steps) {
            Ok(()) => {}
            Err(error) => return Err(error),
        }
        first = next_row(first, x_vector, y_vector);
    }
    Ok(())
}

/// The cells that are skipped, if the header says that cells may be skipped (T.88, 6.6.5.1).
fn skip_mask<D: Allocator, A: Allocator, L: Ledger>(
    alloc: A,
    header: &HalftoneRegionHeader<'_>,
    dictionary: &PatternDictionary<D>,
    steps: &mut Steps<L>,
) -> Result<Option<Bitmap<A>>>
    requires columns { header.now.grid_position_and_size.width ≤ max_side }
    requires rows { header.now.grid_position_and_size.height ≤ max_side }
    ensures value { Gives (λ mask. mask) result
        (Ok (skip_mask (header_view header.now) (dictionary_view dictionary.now))) }
    ensures steps { OnOk result (steps.new ≡
        after_mask (header_view header.now) (dictionary_view dictionary.now) steps.old) }
    ensures stopped { OnErr result (steps.new ≡ words_cleared
        (cleared_by_mask (header_view header.now) (dictionary_view dictionary.now)) steps.old) }
{
    if header.flags.enable_skip && !header.flags.mmr {
        return Ok(Some(skip_bitmap(alloc, header, dictionary, steps)?));
    }
    Ok(None)
}

/// What is needed to decode the cells' values (T.88, Table 23), with this mask of the cells that are
/// skipped.
fn cell_params<'a, D: Allocator, M: Allocator>(
    header: &HalftoneRegionHeader<'_>,
    dictionary: &PatternDictionary<D>,
    skip_mask: Option<&'a Bitmap<M>>,
) -> GrayScaleParams<'a, M>
    ensures params { gray_view result
        ≡ record (gray_params (header_view header.now) (dictionary_view dictionary.now)) {
          skip_mask = skip_of skip_mask.entry;
        } }
    ensures few { result.bits_per_pixel ≤ 32 }
{
    let grid = &header.grid_position_and_size;
    GrayScaleParams {
        use_mmr: header.flags.mmr,
        bits_per_pixel: code_length(dictionary.patterns.len()),
        width: grid.width,
        height: grid.height,
        template: header.flags.template,
        skip_mask,
        strict: header.strict,
    }
}

/// Decodes the cells' values, row by row (T.88, 6.6.5, steps 2 to 4).
fn read_cells<D: Allocator, A: Allocator + Clone, B: Allocator, L: Ledger>(
    alloc: A,
    header: &HalftoneRegionHeader<'_>,
    dictionary: &PatternDictionary<D>,
    contexts: &mut Vec<ArithmeticDecoderContext, B>,
    steps: &mut Steps<L>,
) -> Result<Vec<u32, A>>
    requires columns { header.now.grid_position_and_size.width ≤ max_side }
    requires rows { header.now.grid_position_and_size.height ≤ max_side }
    ensures value { Gives (λ values. values.items) result (gray_scale_image
        (gray_params (header_view header.now) (dictionary_view dictionary.now))
        header.now.bytes.now) }
    ensures contexts { Leaves result contexts.new.items
        (halftone_contexts (header_view header.now) (dictionary_view dictionary.now)
        contexts.old.items) }
    ensures steps { OnOk result (CountsImage
        (gray_params (header_view header.now) (dictionary_view dictionary.now)) header.now.bytes.now
        (after_mask (header_view header.now) (dictionary_view dictionary.now) steps.old)
        steps.new) }
    ensures stopped { OnErr result
        (StopsCells (header_view header.now) (dictionary_view dictionary.now) steps.old steps.new) }
    ensures cleared { OnOk result (steps.new.cleared ≡ steps.old.cleared
        + cleared_by_cells (header_view header.now) (dictionary_view dictionary.now)) }
    ensures most { steps.new.cleared ≤ steps.old.cleared
        + cleared_by_cells (header_view header.now) (dictionary_view dictionary.now) }
{
    let skip = skip_mask(alloc.clone()?, header, dictionary, steps)?;
    let params = cell_params(header, dictionary, skip.as_ref());
    decode_gray_scale_image(alloc, header.bytes, &params, contexts, steps)
}

/// Decodes a halftone region (T.88, 6.6) into a bitmap of its size that is all in its initial colour. The contexts
/// begin fresh, whatever `contexts` held. Afterwards `contexts` holds what the gray-scale image leaves, also where a
/// value is refused. MMR data does not change it. Every error except `RegionError::GrayScaleOutOfRange` leaves the
/// bitmap as it was. After an error, no more steps were taken than for a region that is drawn whole.
/// The words of the skip mask and of the planes count as cleared.
///
/// Returns `RegionError::InvalidMmrData` in strict mode where MMR data has a fault or lacks a row;
/// `RegionError::GrayScaleOutOfRange` in strict mode for a value that has no pattern, also where the cell lies outside;
/// `OutOfMemory` where there is no memory for the values. This last one is the only error in lenient mode. Only after
/// it the content of `contexts` is not specified.
#[tactic(auto, using(crate::proofs::CausesOfRegions::halftone_cause))]
pub fn decode_into<D: Allocator, M: Allocator, A: Allocator + Clone, B: Allocator, L: Ledger>(
    alloc: A,
    header: &HalftoneRegionHeader<'_>,
    dictionary: &PatternDictionary<D>,
    bitmap: &mut Bitmap<M>,
    contexts: &mut Vec<ArithmeticDecoderContext, B>,
    steps: &mut Steps<L>,
) -> Result<()>
    requires columns { header.now.grid_position_and_size.width ≤ max_side }
    requires rows { header.now.grid_position_and_size.height ≤ max_side }
    requires coloured { bitmap.old ≡ blank header.now.region_info.width
        header.now.region_info.height header.now.flags.initial_pixel_color }
    ensures value { Gives (λ _. bitmap.new) result
        (halftone_result (header_view header.now) (dictionary_view dictionary.now)) }
    ensures bitmap { IfErr result (λ e. (e ≡ DecodeError.Region RegionError.GrayScaleOutOfRange) ⊎
        (bitmap.new ≡ bitmap.old)) }
    ensures contexts { Leaves result contexts.new.items
        (halftone_contexts (header_view header.now) (dictionary_view dictionary.now)
        contexts.old.items) }
    ensures lenient { header.now.strict ≡ false → IfErr result (λ e. e ≡ DecodeError.OutOfMemory) }
    ensures causes { HasCauseOrNoMemory result (BreaksHalftone (header_view header.now)
        (dictionary_view dictionary.now)) }
    ensures steps { OnOk result (CountsHalftone (header_view header.now)
        (dictionary_view dictionary.now) steps.old steps.new) }
    ensures stopped { OnErr result (StopsHalftone (header_view header.now)
        (dictionary_view dictionary.now) steps.old steps.new) }
    ensures cleared { OnOk result (steps.new.cleared ≡ steps.old.cleared
        + cleared_by_cells (header_view header.now) (dictionary_view dictionary.now)) }
    ensures most { steps.new.cleared ≤ steps.old.cleared
        + cleared_by_cells (header_view header.now) (dictionary_view dictionary.now) }
    ensures paid { CountsWithin (price_of_halftone (header_view header.now)
        (dictionary_view dictionary.now)) steps.old steps.new }
{
    let values = match read_cells(alloc, header, dictionary, contexts, steps) {
        Ok(values) => values,
        Err(error) => return Err(error),
    };
    let rows = header.grid_position_and_size.height;
    draw_rows(header, dictionary, rows, &values, bitmap, steps)
}

/// Decodes a halftone region (T.88, 6.6), as `decode_into` does, into a bitmap of its own. A side
/// that is refused does not change the contexts.
///
/// Returns `OverflowError::BitmapDimension` for a side above 65535 pixels, `OutOfMemory` where
/// there is no memory for the bitmap, and else the errors of `decode_into`.
#[tactic(auto, unfolding(crate::specs::Halftone::halftone_decoded))]
pub fn decode<D: Allocator, A: Allocator + Clone, B: Allocator, L: Ledger>(
    alloc: A,
    header: &HalftoneRegionHeader<'_>,
    dictionary: &PatternDictionary<D>,
    contexts: &mut Vec<ArithmeticDecoderContext, B>,
    steps: &mut Steps<L>,
) -> Result<DecodedRegion<A>>
    requires columns { header.now.grid_position_and_size.width ≤ max_side }
    requires rows { header.now.grid_position_and_size.height ≤ max_side }
    ensures value { Gives (λ region. region_view region) result
        (halftone_decoded (header_view header.now) (dictionary_view dictionary.now)) }
    ensures contexts { Leaves result contexts.new.items
        (decoded_contexts (header_view header.now) (dictionary_view dictionary.now)
        contexts.old.items) }
    ensures steps { OnOk result (CountsHalftone (header_view header.now)
        (dictionary_view dictionary.now) (region_made header.now.region_info steps.old) steps.new) }
    ensures stopped { OnErr result ((steps.new ≡ steps.old) ⊎ StopsHalftone (header_view header.now)
        (dictionary_view dictionary.now) (region_made header.now.region_info steps.old) steps.new) }
    ensures cleared { let info = header.now.region_info in
        OnOk result (steps.new.cleared ≡ (region_made info steps.old).cleared
        + cleared_by_cells (header_view header.now) (dictionary_view dictionary.now)) }
    ensures most { let info = header.now.region_info in
        steps.new.cleared ≤ (region_made info steps.old).cleared
        + cleared_by_cells (header_view header.now) (dictionary_view dictionary.now) }
    ensures paid { let info = header.now.region_info in
        CountsWithin (price_of_halftone (header_view header.now) (dictionary_view dictionary.now)
        + price_of_bitmap info.width info.height) steps.old steps.new }
{
    let region_info = &header.region_info;
    let mut bitmap = Bitmap::new_with(
        alloc.clone()?,
        region_info.width,
        region_info.height,
        header.flags.initial_pixel_color,
        steps,
    )?;
    decode_into(alloc, header, dictionary, &mut bitmap, contexts, steps)?;
    Ok(DecodedRegion::new(region_info, bitmap))
}
