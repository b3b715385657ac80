//! Reads and decodes generic regions (T.88, 6.2 and 7.4.6).
ghost use Rattle.std.specs.Prelude.{◌≡◌, OnErr, OnOk, Ok, true, false};
ghost use Rattle.jbig2_steps.specs.Work.{CountsBeside, CountsWithin, paid_words};
ghost use Rattle.jbig2_base.specs.Results.{Gives, Leaves};
ghost use Rattle.jbig2_base.specs.Counts.{KeepsLanes};
ghost use Rattle.jbig2_region.specs.Generic.{contexts_after, generic_result, generic_decoded, refused_grid};
ghost use Rattle.jbig2_region.specs.RegionInfo.{IsWhiteFor};
ghost use Rattle.jbig2_region.specs.inner.RegionViews.{region_view};
ghost use Rattle.jbig2_region.specs.GenericSteps.{CountsGeneric, price_of_region};
ghost use Rattle.jbig2_region.specs.Steps.{region_made};
ghost use Rattle.jbig2_region.specs.GenericHeader.{IsParsed};
ghost use Rattle.jbig2_region.specs.inner.GenericHeaderViews.{header_view};

pub mod header;
mod part;

pub use crate::decoded_region::DecodedRegion;
pub use crate::generic_coding::{count_regular_rows, decode_coded};
pub use crate::template::adaptive::parse_adaptive_template_pixels;
pub use header::{GenericRegionHeader, parse};
use jbig2_base::bitmap::Bitmap;
use jbig2_base::error::Result;
use jbig2_coder::arithmetic_decoder::{
    ArithmeticDecoder, ArithmeticDecoderContext, fresh_contexts,
};
use jbig2_mmr::mmr;
use jbig2_steps::Steps;
pub use part::whole_rows;
use std::alloc::Allocator;
use std::sync::ledger::Ledger;

/// Decodes a region (T.88, 6.2) into a white bitmap of its size. The contexts begin fresh, whatever
/// `contexts` held. Afterwards `contexts` holds them as the region leaves them. MMR data does not change
/// them, even if it is refused. The counts are within the price of a bitmap of this size and a unit for
/// each coded byte, which also pays for making the bitmap. With nominal adaptive pixels a run of eight likely symbols takes no decision. A
/// refusal takes no step, except with MMR data. MMR data counts no group of lanes and no single pixel.
///
/// Returns `OutOfMemory` if there is no memory for the contexts, or in strict mode
/// `RegionError::InvalidMmrData` if MMR data has a fault or lacks a row. The bitmap is then as it was,
/// but with MMR data it holds the whole rows before the fault.
pub fn decode_into<A: Allocator, B: Allocator, L: Ledger>(
    header: &GenericRegionHeader<'_>,
    bitmap: &mut Bitmap<A>,
    contexts: &mut Vec<ArithmeticDecoderContext, B>,
    steps: &mut Steps<L>,
) -> Result<()>
    requires parsed { IsParsed (header_view header.now) }
    requires white { IsWhiteFor header.now.region_info bitmap.old }
    ensures value { Gives (λ _. bitmap.new) result (generic_result (header_view header.now)) }
    ensures refused { OnErr result (bitmap.new ≡ refused_grid (header_view header.now) bitmap.old) }
    ensures contexts { Leaves result contexts.new.items
        (contexts_after (header_view header.now) contexts.old.items) }
    ensures steps { OnOk result (CountsGeneric (header_view header.now) steps.old steps.new) }
    ensures stopped { header.now.mmr ≡ false → OnErr result (steps.new ≡ steps.old) }
    ensures lanes { header.now.mmr ≡ true → KeepsLanes steps.old steps.new }
    ensures paid { let info = header.now.region_info in
        CountsBeside (paid_words info.width info.height)
        (price_of_region (header_view header.now)) steps.old steps.new }
{
    if header.mmr {
        mmr::decode(bitmap, header.bytes, header.strict, steps)?;
        return Ok(());
    }
    fresh_contexts(contexts, header.template.context_bits())?;
    let mut decoder = ArithmeticDecoder::new(header.bytes);
    decode_coded(
        header.template,
        header.tpgdon,
        &header.adaptive_template_pixels,
        bitmap,
        &mut decoder,
        contexts,
        steps,
    );
    Ok(())
}

/// Decodes a region (T.88, 6.2), as `decode_into` does, into a new bitmap.
///
/// `OutOfMemory` if there is no memory for the bitmap or the contexts, or an error of
/// `decode_into`.
pub fn decode<A: Allocator, B: Allocator, L: Ledger>(
    alloc: A,
    header: &GenericRegionHeader<'_>,
    contexts: &mut Vec<ArithmeticDecoderContext, B>,
    steps: &mut Steps<L>,
) -> Result<DecodedRegion<A>>
    requires { IsParsed (header_view header.now) }
    ensures value { Gives region_view result (generic_decoded (header_view header.now)) }
    ensures contexts { Leaves result contexts.new.items
        (contexts_after (header_view header.now) contexts.old.items) }
    ensures steps { OnOk result (CountsGeneric (header_view header.now)
        (region_made header.now.region_info steps.old) steps.new) }
    ensures stopped { header.now.mmr ≡ false → OnErr result
        (steps.new ≡ region_made header.now.region_info steps.old) }
    ensures lanes { header.now.mmr ≡ true → KeepsLanes
        (region_made header.now.region_info steps.old) steps.new }
    ensures paid { CountsWithin (price_of_region (header_view header.now)) steps.old steps.new }
{
    let region_info = &header.region_info;
    let mut bitmap = Bitmap::new(alloc, region_info.width, region_info.height, steps)?;
    decode_into(header, &mut bitmap, contexts, steps)?;
    Ok(DecodedRegion::new(region_info, bitmap))
}
