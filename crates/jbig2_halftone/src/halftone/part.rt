//! Halftone regions whose data is cut off (our own rule).
ghost use Rattle.std.specs.Prelude.{◌≡◌, ◌≤◌, ◌+◌, ◌*◌, ◌^◌, false, length, max, Ok, OnOk};
ghost use Rattle.jbig2_steps.specs.Work.{CountsWithin, price_of_bitmap};
ghost use Rattle.jbig2_base.specs.Grid.{max_side};
ghost use Rattle.jbig2_base.specs.Results.{Gives};
ghost use Rattle.jbig2_region.specs.inner.RegionViews.{region_view};
ghost use Rattle.jbig2_halftone.specs.Halftone.{gray_params};
ghost use Rattle.jbig2_halftone.specs.Steps.{price_of_halftone};
ghost use Rattle.jbig2_halftone.specs.WholeCells.{halftone_part, whole_image_rows};
ghost use Rattle.jbig2_halftone.specs.inner.DictionaryViews.{dictionary_view};
ghost use Rattle.jbig2_halftone.specs.inner.HalftoneHeaderViews.{header_view};

use crate::gray_scale::whole_rows::whole_image_rows;
use crate::halftone::{HalftoneRegionHeader, cell_params, draw_rows, read_cells, skip_mask};
use crate::pattern::PatternDictionary;
use jbig2_base::bitmap::Bitmap;
use jbig2_base::error::Result;
use jbig2_coder::arithmetic_decoder::ArithmeticDecoderContext;
use jbig2_region::decoded_region::DecodedRegion;
use jbig2_steps::Steps;
use std::alloc::Allocator;
use std::sync::ledger::Ledger;

/// How many rows of the grid are whole. MMR data must be read leniently.
fn whole_rows<D: Allocator, A: Allocator + Clone, B: Allocator, L: Ledger>(
    alloc: A,
    header: &HalftoneRegionHeader<'_>,
    dictionary: &PatternDictionary<D>,
    contexts: &mut Vec<ArithmeticDecoderContext, B>,
    steps: &mut Steps<L>,
) -> Result<u32>
    requires lenient { header.now.strict ≡ false }
    requires columns { header.now.grid_position_and_size.width ≤ max_side }
    requires rows { header.now.grid_position_and_size.height ≤ max_side }
    ensures value { Gives (λ rows. rows) result (Ok (whole_image_rows
        (gray_params (header_view header.now) (dictionary_view dictionary.now))
        header.now.bytes.now)) }
    ensures few { OnOk result
        (length contexts.new.items ≤ max (length contexts.old.items) (2 ^ 16)) }
    ensures paid { CountsWithin (price_of_halftone (header_view header.now)
        (dictionary_view dictionary.now)) steps.old steps.new }
{
    let skip = skip_mask(alloc.clone()?, header, dictionary, steps)?;
    let params = cell_params(header, dictionary, skip.as_ref());
    whole_image_rows(alloc, header.bytes, &params, contexts, steps)
}

/// What is there of a halftone region (T.88, 6.6) whose data is cut off, in a bitmap of its own (our
/// own rule). Draws the cells of the whole rows of the grid: those that are whole in the last plane of
/// the gray-scale image (T.88, Annex C). The rest keeps the region's initial colour. Faulty MMR data
/// and values without a pattern are not refused, whatever the header says. The contexts begin fresh,
/// and `contexts` then hold any state. The counts are within twice the price of a region, and that
/// of a bitmap of its size.
///
/// Returns `OverflowError::BitmapDimension` for a side above 65535 pixels, or `OutOfMemory` if there
/// is no memory for the bitmap, the skipped cells, a plane, the values or the contexts.
#[tactic(auto, unfolding(crate::specs::WholeCells::halftone_part))]
pub fn decode_part<D: Allocator, A: Allocator + Clone, B: Allocator, L: Ledger>(
    alloc: A,
    header: &HalftoneRegionHeader<'_>,
    dictionary: &PatternDictionary<D>,
    contexts: &mut Vec<ArithmeticDecoderContext, B>,
    steps: &mut Steps<L>,
) -> Result<DecodedRegion<A>>
    requires columns { header.now.grid_position_and_size.width ≤ max_side }
    requires rows { header.now.grid_position_and_size.height ≤ max_side }
    ensures value { Gives (λ region. region_view region) result
        (halftone_part (header_view header.now) (dictionary_view dictionary.now)) }
    ensures few { OnOk result
        (length contexts.new.items ≤ max (length contexts.old.items) (2 ^ 16)) }
    ensures paid { let info = header.now.region_info in
        CountsWithin (2 * price_of_halftone (header_view header.now)
        (dictionary_view dictionary.now) + price_of_bitmap info.width info.height)
        steps.old steps.new }
{
    let region_info = &header.region_info;
    let mut bitmap = Bitmap::new_with(
        alloc.clone()?,
        region_info.width,
        region_info.height,
        header.flags.initial_pixel_color,
        steps,
    )?;
    let lenient = HalftoneRegionHeader {
        strict: false,
        ..*header
    };
    let rows = whole_rows(alloc.clone()?, &lenient, dictionary, contexts, steps)?;
    let values = read_cells(alloc, &lenient, dictionary, contexts, steps)?;
    let cells = rows as usize * lenient.grid_position_and_size.width as usize;
    let drawn = &values[..cells];
    draw_rows(&lenient, dictionary, rows, drawn, &mut bitmap, steps)?;
    Ok(DecodedRegion::new(region_info, bitmap))
}
