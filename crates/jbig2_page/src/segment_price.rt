//! What a segment costs before it is looked at (our own rule; docs/FORMAT.md, 12.6).
ghost use Rattle.std.specs.Prelude.{◌≡◌, ◌+◌, ◌*◌, ◌≤◌, IfErr, IfOk};
ghost use Rattle.jbig2_base.specs.declared.error.DecodeError.TheVariants.{OutOfMemory};
ghost use Rattle.jbig2_framing.specs.inner.SegmentViews.{segment_view};
ghost use Rattle.jbig2_page.specs.SegmentPrices.{capped, price_of_segment, price_of_type};
ghost use Rattle.jbig2_steps.specs.Work.{Paid, budget};
ghost use Rattle.jbig2_steps.specs.declared.prices.TheConstants as prices;

use jbig2_base::error::Result;
use jbig2_framing::segment::{Segment, SegmentType};
use jbig2_steps::{Work, prices};
use std::alloc::Allocator;
use std::sync::ledger::Ledger;

/// The work of the memory that a segment of this type asks for, whatever it holds.
fn price_of_type(kind: SegmentType, length: usize) -> u64
    ensures { result ≡ capped (price_of_type kind length) }
{
    match kind {
        SegmentType::Tables => (length as u64).saturating_mul(prices::TABLE_BYTE),
        SegmentType::SymbolDictionary => prices::SYMBOL_DICTIONARY,
        SegmentType::IntermediateTextRegion
        | SegmentType::ImmediateTextRegion
        | SegmentType::ImmediateLosslessTextRegion
        | SegmentType::PatternDictionary
        | SegmentType::IntermediateHalftoneRegion
        | SegmentType::ImmediateHalftoneRegion
        | SegmentType::ImmediateLosslessHalftoneRegion
        | SegmentType::IntermediateGenericRegion
        | SegmentType::ImmediateGenericRegion
        | SegmentType::ImmediateLosslessGenericRegion
        | SegmentType::IntermediateGenericRefinementRegion
        | SegmentType::ImmediateGenericRefinementRegion
        | SegmentType::ImmediateLosslessGenericRefinementRegion
        | SegmentType::PageInformation
        | SegmentType::EndOfPage
        | SegmentType::EndOfStripe
        | SegmentType::EndOfFile
        | SegmentType::Profiles
        | SegmentType::ColourPalette
        | SegmentType::Extension
        | SegmentType::Reserved => 0,
    }
}

/// The work of the numbers that a segment refers to, where `kept` is how many values a number may name.
fn price_of_references(numbers: usize, kept: usize) -> u64
    ensures { result ≡ capped (numbers * (kept + prices.REFERENCE)) }
{
    let each = (kept as u64).saturating_add(prices::REFERENCE);
    (numbers as u64).saturating_mul(each)
}

/// Takes the work of a segment itself, where `kept` is how many values a number may name.
pub(crate) fn pay_segment<A: Allocator, L: Ledger>(
    segment: &Segment<'_, A>,
    kept: usize,
    work: &mut Work<L>,
) -> Result<()>
    ensures memory { IfErr result (λ e. e ≡ OutOfMemory) }
    ensures paid { Paid work.old work.new }
    ensures taken { IfOk result (λ _. budget work.new + 32 * prices.SEGMENT ≤ budget work.old) }
    ensures price { let price = price_of_segment kept (segment_view segment.now) in
        IfOk result (λ _. budget work.new + 32 * price ≡ budget work.old) }
{
    let numbers = segment.header.referred_to_segments.len();
    let units = price_of_references(numbers, kept).saturating_add(prices::SEGMENT);
    let kind = segment.header.segment_type;
    work.pay(units.saturating_add(price_of_type(kind, segment.bytes.len())))?;
    Ok(())
}
