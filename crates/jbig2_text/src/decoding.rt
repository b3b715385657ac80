//! Decodes a text region, with the coding that its header says (T.88, 6.4).
ghost use Rattle.std.specs.Prelude.{◌≡◌, ◌+◌, ◌≤◌, ◌^◌, length, Ok, OnErr};
ghost use Rattle.jbig2_base.specs.Results.{Returns, Gives};
ghost use Rattle.jbig2_base.specs.Grid.{blank};
ghost use Rattle.jbig2_steps.specs.Work.{Paid, PaidBut, paid_words};
ghost use Rattle.jbig2_text.specs.Text.{max_symbols};
ghost use Rattle.jbig2_coder.specs.Integers.{number_steps};
ghost use Rattle.jbig2_region.specs.inner.RegionViews.{region_view};
ghost use Rattle.jbig2_text.specs.inner.TextViews.{some_pixels, header_view, text_pixels, coded_view, params_view, prefixed_view, symbols_view};
ghost use Rattle.jbig2_text.specs.TextRegion.{coder_of, prefix_codes_of, refining_of, region_from, text_params, text_result, text_decoded};
ghost use Rattle.jbig2_coder.specs.inner.TableViews.{customs_view};
ghost use Rattle.jbig2_base.specs.Causes.{HasCauseOrNoMemory};
ghost use Rattle.jbig2_text.specs.Causes.{BreaksTextRegion};

use crate::coded::CodedReadings;
use crate::header::{TextRegionCoding, TextRegionFlags, TextRegionHeader, TextRegionHuffmanFlags};
use crate::instances::draw_instances_by;
use crate::params::TextParams;
use crate::prefixed::PrefixedReadings;
use crate::readings::ReadInstances;
use crate::refining::{Refining, pixels_of_template};
use crate::symbol_list::SymbolList;
use crate::tables::select_tables;
use jbig2_base::bitmap::{Bitmap, check_sides};
use jbig2_base::error::Result;
use jbig2_base::reader::Reader;
use jbig2_coder::code_length::code_length;
use jbig2_coder::huffman_table::{HuffmanTable, StandardHuffmanTables};
use jbig2_region::decoded_region::DecodedRegion;
use jbig2_region::template::AdaptiveTemplatePixel;
use jbig2_steps::Work;
use std::alloc::Allocator;
use std::sync::ledger::Ledger;

/// What is needed to read and place the instances of a region.
pub(crate) fn params_of<'a, A: Allocator>(
    header: &TextRegionHeader<'_, A>,
    symbols: &'a [&'a Bitmap<A>],
) -> TextParams<'a, A>
    ensures { params_view result ≡ text_params (header_view header.now) (symbols_view symbols.now) }
{
    TextParams {
        flags: header.flags,
        symbols: SymbolList {
            input_symbols: symbols,
            new_symbols: &[],
        },
        num_instances: header.num_instances,
        data_len: header.segment_data_len,
        strict: header.strict,
    }
}

/// The two adaptive pixels of refinements, if these flags have any.
fn pixels_of(
    flags: &TextRegionFlags,
    pixels: [AdaptiveTemplatePixel; 2],
) -> Option<[AdaptiveTemplatePixel; 2]>
    ensures { some_pixels result ≡ text_pixels flags.now pixels }
{
    if flags.use_refinement {
        return pixels_of_template(flags.refinement_template, pixels);
    }
    None
}

/// The refinements of a region's symbols, with fresh contexts.
pub(crate) fn refining_of<A: Allocator>(
    alloc: A,
    header: &TextRegionHeader<'_, A>,
) -> Result<Refining<A>>
    ensures { Gives (λ r. r) result (Ok (refining_of (header_view header.now))) }
{
    let flags = &header.flags;
    let pixels = pixels_of(flags, header.refinement_at_pixels);
    Refining::fresh(alloc, flags.refinement_template, pixels)
}

/// The coder at the start of a region's bytes, with fresh contexts.
pub(crate) fn start_coded<'a, A: Allocator + Clone>(
    alloc: A,
    header: &TextRegionHeader<'a, A>,
    symbols: &[&Bitmap<A>],
) -> Result<CodedReadings<'a, A>>
    requires { length symbols.now ≤ max_symbols }
    ensures { let meant = coder_of (header_view header.now) (symbols_view symbols.now) in
        Gives (λ r. coded_view r) result (Ok meant) }
{
    CodedReadings::new(alloc, header.bytes, code_length(symbols.len()))
}

/// The prefix codes at the start of a region's bytes.
pub(crate) fn start_prefixed<'a, 't, A: Allocator>(
    header: &'t TextRegionHeader<'a, A>,
    numbers: &TextRegionHuffmanFlags,
    ids: &'t HuffmanTable<A>,
    customs: &'t [&'t HuffmanTable<A>],
    standard: &'t StandardHuffmanTables<A>,
) -> Result<PrefixedReadings<'a, 't, A>>
    ensures { let h = header_view header.now in
        let meant = prefix_codes_of h numbers.now ids.now (customs_view customs.now) in
        Returns (λ r. prefixed_view r) result meant }
{
    let tables = select_tables(numbers, customs, standard)?;
    Ok(PrefixedReadings {
        reader: Reader::new(header.bytes),
        tables,
        ids,
    })
}

/// Decodes a region with readings that are at its start.
#[tactic(auto, unfolding(crate::specs::TextRegion::region_from))]
fn decode_by<R: ReadInstances, A: Allocator + Clone, L: Ledger>(
    alloc: A,
    readings: &mut R,
    header: &TextRegionHeader<'_, A>,
    symbols: &[&Bitmap<A>],
    bitmap: &mut Bitmap<A>,
    work: &mut Work<L>,
) -> Result<()>
    requires { header.now.flags.log_strip_size ≤ 3 }
    ensures value { let h = header_view header.now in
        let state = R.state readings.old in
        let meant = region_from R.readings h (symbols_view symbols.now) bitmap.old state in
        Gives (λ _. bitmap.new) result meant }
    ensures same { let info = header.now.region_info in
        bitmap.old ≡ blank info.width info.height header.now.flags.default_pixel
        → OnErr result (bitmap.new ≡ bitmap.old) }
    ensures paid { let words = paid_words bitmap.old.width bitmap.old.height in
        PaidBut (number_steps 1 + words) work.old work.new }
{
    let mut refining = refining_of(alloc, header)?;
    let params = params_of(header, symbols);
    draw_instances_by(readings, &mut refining, &params, bitmap, work)
}

/// Decodes a text region (T.88, 6.4) of these symbols, at most 2^21, into a bitmap of its size that
/// is all in its default colour. `referred_tables` are the custom tables that it refers to. An
/// error leaves the bitmap as it was.
///
/// The errors of the tables come first: `HuffmanError::InvalidSelection` for the number of a table
/// that has no meaning, and `HuffmanError::MissingTables` for too few custom tables. Then come:
/// `SymbolError::TooManyInstances` for more than 32 instances for each byte of the segment, and in
/// strict mode where the last strip does not end; `ParseError::UnexpectedEof` and
/// `HuffmanError::InvalidCode` where the bits end or are no prefix code; an unexpected out of band
/// as `HuffmanError` or `SymbolError`; `SymbolError::InvalidStripDelta`,
/// `OverflowError::PlacementCoordinate`, `OverflowError::BitmapDimension` and
/// `OverflowError::ReferenceOffset` for numbers out of their ranges; `SymbolError::OutOfRange` for
/// an id without a symbol, in lenient mode only where it is refined; `OutOfMemory`.
#[tactic(auto, using(crate::proofs::CausesOfRegions::text_region_cause), unfolding(crate::specs::TextRegion::text_result))]
pub fn decode_into<A: Allocator + Clone, L: Ledger>(
    alloc: A,
    header: &TextRegionHeader<'_, A>,
    symbols: &[&Bitmap<A>],
    referred_tables: &[&HuffmanTable<A>],
    standard_tables: &StandardHuffmanTables<A>,
    bitmap: &mut Bitmap<A>,
    work: &mut Work<L>,
) -> Result<()>
    requires strips { header.now.flags.log_strip_size ≤ 3 }
    requires few { length symbols.now ≤ max_symbols }
    requires coloured { let info = header.now.region_info in
        bitmap.old ≡ blank info.width info.height header.now.flags.default_pixel }
    ensures value { let customs = customs_view referred_tables.now in
        let meant = text_result (header_view header.now) (symbols_view symbols.now) customs in
        Gives (λ _. bitmap.new) result meant }
    ensures same { OnErr result (bitmap.new ≡ bitmap.old) }
    ensures causes { let customs = customs_view referred_tables.now in
        HasCauseOrNoMemory result
        (BreaksTextRegion (header_view header.now) (symbols_view symbols.now) customs) }
    ensures paid { let info = header.now.region_info in
        PaidBut (number_steps 1 + paid_words info.width info.height) work.old work.new }
{
    match &header.coding {
        TextRegionCoding::Arithmetic => {
            let mut readings = start_coded(alloc.clone()?, header, symbols)?;
            decode_by(alloc, &mut readings, header, symbols, bitmap, work)
        }
        TextRegionCoding::Huffman { tables, ids } => {
            let mut readings = start_prefixed(
                header,
                tables,
                ids,
                referred_tables,
                standard_tables,
            )?;
            decode_by(alloc, &mut readings, header, symbols, bitmap, work)
        }
    }
}

/// Decodes a text region (T.88, 6.4), as `decode_into` does, into a bitmap of its own.
///
/// Returns `OverflowError::BitmapDimension` for a side above 65535 pixels, `OutOfMemory` where
/// there is no memory for the bitmap, and else the errors of `decode_into`.
#[tactic(auto, unfolding(crate::specs::TextRegion::text_decoded))]
pub fn decode<A: Allocator + Clone, L: Ledger>(
    alloc: A,
    header: &TextRegionHeader<'_, A>,
    symbols: &[&Bitmap<A>],
    referred_tables: &[&HuffmanTable<A>],
    standard_tables: &StandardHuffmanTables<A>,
    work: &mut Work<L>,
) -> Result<DecodedRegion<A>>
    requires strips { header.now.flags.log_strip_size ≤ 3 }
    requires few { length symbols.now ≤ max_symbols }
    ensures value { let customs = customs_view referred_tables.now in
        let meant = text_decoded (header_view header.now) (symbols_view symbols.now) customs in
        Gives (λ region. region_view region) result meant }
    ensures paid { Paid work.old work.new }
{
    let region_info = &header.region_info;
    check_sides(region_info.width, region_info.height)?;
    work.pay_bitmap(region_info.width, region_info.height)?;
    let mut bitmap = Bitmap::new_with(
        alloc.clone()?,
        region_info.width,
        region_info.height,
        header.flags.default_pixel,
        &mut work.steps,
    )?;
    decode_into(
        alloc,
        header,
        symbols,
        referred_tables,
        standard_tables,
        &mut bitmap,
        work,
    )?;
    Ok(DecodedRegion::new(region_info, bitmap))
}
