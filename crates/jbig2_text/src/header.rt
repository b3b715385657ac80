//! Headers of text regions (T.88, 7.4.3.1).
ghost use Rattle.std.specs.Prelude.{◌≡◌, ◌≤◌, ◌%◌, ◌^◌, IfOk, OnErr, OnOk};
ghost use Rattle.jbig2_base.specs.Bits.{start_of};
ghost use Rattle.jbig2_base.specs.Results.{Returns, Gives};
ghost use Rattle.jbig2_region.specs.inner.PixelArrays.{pixel_array};
ghost use Rattle.jbig2_text.specs.Text.{max_symbols};
ghost use Rattle.jbig2_text.specs.declared.header.TextFields.{TextFields};
ghost use Rattle.jbig2_text.specs.TextHeader.{corner_of, signed_5, text_flags_at, table_numbers, table_numbers_at, text_fields_at, coding_at, text_header_at};
ghost use Rattle.jbig2_text.specs.inner.TextViews.{coding_view, header_view, text_pixels};
ghost use Rattle.jbig2_text.specs.inner.FunctionResults.{other_flags, text_pixels_at};
ghost use Rattle.jbig2_text.specs.inner.TextViews.{fields_view};
ghost use Rattle.jbig2_base.specs.Causes.{HasCauseOrNoMemory};
ghost use Rattle.jbig2_text.specs.Causes.{BreaksTextHeader};

use crate::symbol_codes::parse_symbol_codes;
use jbig2_base::bitmap::CombinationOperator;
use jbig2_base::error::Result;
use jbig2_base::field::{u16_field, u32_field};
use jbig2_base::reader::Reader;
use jbig2_coder::huffman_table::HuffmanTable;
use jbig2_region::generic_refinement::parse_template_pixels;
use jbig2_region::region_info::{RegionSegmentInfo, parse_region_segment_info};
use jbig2_region::template::{AdaptiveTemplatePixel, RefinementTemplate};
use std::alloc::Allocator;

/// The corner of a symbol to which its coordinates refer (T.88, 6.4.5).
#[derive(Clone, Copy, Debug, PartialEq, Eq)]
pub enum ReferenceCorner {
    BottomLeft,
    TopLeft,
    BottomRight,
    TopRight,
}

/// The flags of a text region (T.88, 7.4.3.1.1).
#[derive(Clone, Copy, Debug)]
pub struct TextRegionFlags {
    /// Whether symbols may be refined.
    pub use_refinement: bool,
    /// The strip size is 2 to the power of this.
    pub log_strip_size: u8,
    /// The corner of a symbol that lies at its coordinates.
    pub reference_corner: ReferenceCorner,
    /// Whether S goes down and T to the right, instead of S to the right and T down.
    pub transposed: bool,
    /// How symbols are drawn onto the region.
    pub combination_operator: CombinationOperator,
    /// The region's colour before any symbol is drawn, `true` for black.
    pub default_pixel: bool,
    /// What is added to each difference of S in a strip, -16 to 15.
    pub delta_s_offset: i8,
    pub refinement_template: RefinementTemplate,
}

/// Which tables a text region uses (T.88, 7.4.3.1.2), by their numbers in the flags.
#[derive(Clone, Copy, Debug)]
pub struct TextRegionHuffmanFlags {
    pub first_s_table: u8,
    pub delta_s_table: u8,
    pub delta_t_table: u8,
    pub refinement_width_table: u8,
    pub refinement_height_table: u8,
    pub refinement_x_table: u8,
    pub refinement_y_table: u8,
    pub refinement_size_table: u8,
}

/// How the numbers of a text region are coded (T.88, SBHUFF).
#[derive(Drop)]
pub enum TextRegionCoding<A: Allocator> {
    /// By the arithmetic coder.
    Arithmetic,
    /// By prefix codes, with their tables and the codes of the symbols' ids.
    Huffman {
        tables: TextRegionHuffmanFlags,
        ids: HuffmanTable<A>,
    },
}

/// The fields between the region information and the codes of the symbols' ids.
#[derive(Clone, Copy)]
pub struct TextFields {
    pub flags: TextRegionFlags,
    /// Only with prefix codes.
    pub table_numbers: Option<TextRegionHuffmanFlags>,
    pub refinement_at_pixels: [AdaptiveTemplatePixel; 2],
    pub num_instances: u32,
}

/// What is needed to decode a text region's coded bytes (T.88, 7.4.3.1).
#[derive(Drop)]
pub struct TextRegionHeader<'a, A: Allocator> {
    pub region_info: RegionSegmentInfo,
    pub flags: TextRegionFlags,
    pub coding: TextRegionCoding<A>,
    /// Has no meaning unless symbols may be refined with template 0.
    pub refinement_at_pixels: [AdaptiveTemplatePixel; 2],
    pub num_instances: u32,
    /// The number of bytes in the segment's data.
    pub segment_data_len: usize,
    /// The coded bytes.
    pub bytes: &'a [u8],
    /// Whether ids without a symbol and a strip that does not end are refused.
    pub strict: bool,
}

impl ReferenceCorner {
    /// The corner that the low two bits of `value` name.
    fn from_value(value: u16) -> ReferenceCorner
        ensures { result ≡ corner_of (value % 4) }
    {
        match value % 4 {
            0 => ReferenceCorner::BottomLeft,
            1 => ReferenceCorner::TopLeft,
            2 => ReferenceCorner::BottomRight,
            _ => ReferenceCorner::TopRight,
        }
    }
}

/// The number in the low five bits, in two's complement.
fn signed_5(value: u16) -> i8
    ensures { result ≡ signed_5 (value % 32) }
{
    let low = (value % 32) as i8;
    if low < 16 { low } else { low - 32 }
}

/// The flags after the first bit.
fn other_flags(flags: u16, combination_operator: CombinationOperator) -> TextRegionFlags
    ensures value { result ≡ other_flags flags combination_operator }
    ensures strips { result.log_strip_size ≤ 3 }
{
    TextRegionFlags {
        use_refinement: flags / 2 % 2 == 1,
        log_strip_size: (flags / 4 % 4) as u8,
        reference_corner: ReferenceCorner::from_value(flags / 16),
        transposed: flags / 64 % 2 == 1,
        combination_operator,
        default_pixel: flags / 512 % 2 == 1,
        delta_s_offset: signed_5(flags / 1024),
        refinement_template: RefinementTemplate::from_byte((flags / 32768) as u8),
    }
}

/// Reads whether prefix codes are used, and the other flags.
#[tactic(auto, unfolding(crate::specs::TextHeader::text_flags_at))]
fn parse_flags(reader: &mut Reader<'_>) -> Result<(bool, TextRegionFlags)>
    ensures value { let meant = text_flags_at reader.old.bytes in
        Returns (λ flags. (flags, reader.new.bytes)) result meant }
    ensures strips { IfOk result (λ flags. flags.1.log_strip_size ≤ 3) }
{
    let flags = u16_field(reader)?;
    let combination_operator = CombinationOperator::from_value((flags / 128 % 4) as u8)?;
    Ok((flags % 2 == 1, other_flags(flags, combination_operator)))
}

fn table_numbers(flags: u16) -> TextRegionHuffmanFlags
    ensures { result ≡ table_numbers flags }
{
    TextRegionHuffmanFlags {
        first_s_table: (flags % 4) as u8,
        delta_s_table: (flags / 4 % 4) as u8,
        delta_t_table: (flags / 16 % 4) as u8,
        refinement_width_table: (flags / 64 % 4) as u8,
        refinement_height_table: (flags / 256 % 4) as u8,
        refinement_x_table: (flags / 1024 % 4) as u8,
        refinement_y_table: (flags / 4096 % 4) as u8,
        refinement_size_table: (flags / 16384 % 2) as u8,
    }
}

/// Reads the numbers of the tables, only with prefix codes.
fn parse_table_numbers(
    reader: &mut Reader<'_>,
    use_huffman: bool,
) -> Result<Option<TextRegionHuffmanFlags>>
    ensures value { let meant = table_numbers_at use_huffman reader.old.bytes in
        Returns (λ numbers. (numbers, reader.new.bytes)) result meant }
{
    if !use_huffman {
        return Ok(None);
    }
    let flags = u16_field(reader)?;
    Ok(Some(table_numbers(flags)))
}

/// Reads the adaptive pixels of refinements, where symbols may be refined.
fn parse_refinement_pixels(
    reader: &mut Reader<'_>,
    flags: &TextRegionFlags,
) -> Result<[AdaptiveTemplatePixel; 2]>
    ensures value { let meant = text_pixels_at flags.now.use_refinement
        flags.now.refinement_template reader.old.bytes in
        Returns (λ pixels. (text_pixels flags.now pixels, reader.new.bytes)) result meant }
    ensures unused { IfOk result (λ pixels. pixels ≡ pixel_array 2 (text_pixels flags.now pixels)) }
{
    if flags.use_refinement {
        return parse_template_pixels(reader, flags.refinement_template);
    }
    let unused = AdaptiveTemplatePixel { x: 0, y: 0 };
    Ok([unused, unused])
}

/// Reads the fields after the region information.
#[tactic(auto, unfolding(crate::specs::TextHeader::text_fields_at))]
fn parse_fields(reader: &mut Reader<'_>) -> Result<TextFields>
    ensures value { let meant = text_fields_at reader.old.bytes in
        Returns (λ fields. (fields_view fields, reader.new.bytes)) result meant }
    ensures strips { IfOk result (λ fields. fields.flags.log_strip_size ≤ 3) }
    ensures unused { let used = λ (f : TextFields). text_pixels f.flags f.refinement_at_pixels in
        IfOk result (λ fields. fields.refinement_at_pixels ≡ pixel_array 2 (used fields)) }
{
    let (use_huffman, flags) = parse_flags(reader)?;
    let table_numbers = parse_table_numbers(reader, use_huffman)?;
    let refinement_at_pixels = parse_refinement_pixels(reader, &flags)?;
    let num_instances = u32_field(reader)?;
    Ok(TextFields {
        flags,
        table_numbers,
        refinement_at_pixels,
        num_instances,
    })
}

/// How the numbers are coded. With prefix codes, it reads the codes of the symbols' ids.
fn parse_coding<A: Allocator + Clone>(
    alloc: A,
    reader: &mut Reader<'_>,
    table_numbers: Option<TextRegionHuffmanFlags>,
    num_symbols: u32,
) -> Result<TextRegionCoding<A>>
    requires few { num_symbols ≤ max_symbols }
    ensures value { let meant = coding_at table_numbers num_symbols reader.old.bytes in
        Gives (λ c. (coding_view c, reader.new.bytes)) result meant }
{
    let Some(tables) = table_numbers else {
        return Ok(TextRegionCoding::Arithmetic);
    };
    let ids = parse_symbol_codes(alloc, reader, num_symbols)?;
    Ok(TextRegionCoding::Huffman { tables, ids })
}

/// Reads the header of a text region with this many symbols, at most 2^21 (T.88, 7.4.3.1). The
/// reader is then at the coded bytes, which the header holds too. An error leaves the reader where
/// it was.
///
/// Returns `ParseError::UnexpectedEof` where the bytes do not hold the header; the errors of
/// `parse_region_segment_info`; `HuffmanError::InvalidCode` where the codes of the symbols' ids end
/// early, do not fit or are not as many as the symbols; `OutOfMemory` where there is no memory for
/// them.
#[tactic(auto, unfolding(crate::specs::TextHeader::text_header_at))]
pub fn parse<'a, A: Allocator + Clone>(
    alloc: A,
    reader: &mut Reader<'a>,
    num_symbols: u32,
    strict: bool,
) -> Result<TextRegionHeader<'a, A>>
    requires few { num_symbols ≤ max_symbols }
    ensures value { let meant = text_header_at num_symbols strict reader.old.bytes in
        Gives (λ h. (header_view h, reader.new.bytes)) result meant }
    ensures strips { IfOk result (λ h. h.flags.log_strip_size ≤ 3) }
    ensures unused { IfOk result (λ h. h.refinement_at_pixels
        ≡ pixel_array 2 (header_view h).refinement_pixels) }
    ensures place { OnOk result (reader.new ≡ start_of reader.new.bytes) }
    ensures stays { OnErr result (reader.new ≡ reader.old) }
    ensures causes { HasCauseOrNoMemory result (BreaksTextHeader num_symbols reader.old.bytes) }
{
    let mut ahead = reader.duplicate();
    let segment_data_len = ahead.tail().len();
    let region_info = parse_region_segment_info(&mut ahead)?;
    let fields = parse_fields(&mut ahead)?;
    let refinement_at_pixels = fields.refinement_at_pixels;
    let coding = parse_coding(alloc, &mut ahead, fields.table_numbers, num_symbols)?;
    *reader = Reader::new(ahead.tail());
    Ok(TextRegionHeader {
        region_info,
        flags: fields.flags,
        coding,
        refinement_at_pixels,
        num_instances: fields.num_instances,
        segment_data_len,
        bytes: reader.tail(),
        strict,
    })
}
