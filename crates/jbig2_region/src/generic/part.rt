//! The part that is there of a generic region whose data is cut off (our own rule).
ghost use Rattle.std.specs.Prelude.{◌≤◌, ◌^◌, length, max, OnOk, Ok};
ghost use Rattle.jbig2_steps.specs.Work.{CountsWithin};
ghost use Rattle.jbig2_base.specs.Results.{Gives};
ghost use Rattle.jbig2_region.specs.GenericSteps.{price_of_region};
ghost use Rattle.jbig2_region.specs.GenericHeader.{IsParsed};
ghost use Rattle.jbig2_region.specs.inner.GenericHeaderViews.{header_view};
ghost use Rattle.jbig2_region.specs.WholeRows.{whole_generic_rows};

use crate::generic::header::GenericRegionHeader;
use crate::generic_coding::count_coded_rows;
use jbig2_base::bitmap::Bitmap;
use jbig2_base::error::Result;
use jbig2_coder::arithmetic_decoder::{
    ArithmeticDecoder, ArithmeticDecoderContext, fresh_contexts,
};
use jbig2_mmr::mmr;
use jbig2_steps::Steps;
use std::alloc::Allocator;
use std::sync::ledger::Ledger;

/// How many rows of a region are whole: its data had not ended when the row was decoded, and MMR data
/// had no fault before its end. A region without columns has all its rows. Decodes the rows into a
/// bitmap of its own. The counts are within the price of a region.
///
/// `OutOfMemory` if there is no memory for the bitmap or the contexts. `contexts` then hold any state.
pub fn whole_rows<A: Allocator, B: Allocator, L: Ledger>(
    alloc: A,
    header: &GenericRegionHeader<'_>,
    contexts: &mut Vec<ArithmeticDecoderContext, B>,
    steps: &mut Steps<L>,
) -> Result<u32>
    requires { IsParsed (header_view header.now) }
    ensures value { Gives (λ rows. rows) result (Ok (whole_generic_rows (header_view header.now))) }
    ensures few { OnOk result
        (length contexts.new.items ≤ max (length contexts.old.items) (2 ^ 16)) }
    ensures paid { CountsWithin (price_of_region (header_view header.now)) steps.old steps.new }
{
    let region_info = &header.region_info;
    if region_info.width == 0 {
        return Ok(region_info.height);
    }
    let mut bitmap = Bitmap::new(alloc, region_info.width, region_info.height, steps)?;
    if header.mmr {
        return Ok(mmr::count_rows(&mut bitmap, header.bytes, steps));
    }
    fresh_contexts(contexts, header.template.context_bits())?;
    let mut decoder = ArithmeticDecoder::new(header.bytes);
    let rows = count_coded_rows(
        header.template,
        header.tpgdon,
        &header.adaptive_template_pixels,
        &mut bitmap,
        &mut decoder,
        contexts,
        steps,
    );
    Ok(rows)
}
