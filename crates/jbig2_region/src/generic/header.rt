//! Headers of generic regions (T.88, 7.4.6).
ghost use Rattle.std.specs.Prelude.{IfOk};
ghost use Rattle.jbig2_base.specs.Results.{Returns};
ghost use Rattle.jbig2_base.specs.Fields.{Parses};
ghost use Rattle.jbig2_region.specs.GenericHeader.{rows_at, generic_header_at, IsParsed};
ghost use Rattle.jbig2_region.specs.inner.GenericHeaderViews.{header_view};
ghost use Rattle.jbig2_region.specs.inner.PixelArrays.{IsFilled};
ghost use Rattle.jbig2_base.specs.Causes.{HasCause};
ghost use Rattle.jbig2_region.specs.Causes.{BreaksGenericHeader, BreaksRowCount};

use crate::region_info::{RegionSegmentInfo, parse_region_segment_info};
use crate::template::adaptive::parse_generic_template_pixels;
use crate::template::{GenericTemplatePixels, Template};
use jbig2_base::bitmap::MAX_DIMENSION;
use jbig2_base::error::{OverflowError, RegionError, Result};
use jbig2_base::field::{byte_field, u32_field};
use jbig2_base::reader::Reader;

/// The header of a generic region, with its coded bytes (T.88, 7.4.6).
#[derive(Clone, Copy, Debug)]
pub struct GenericRegionHeader<'a> {
    pub region_info: RegionSegmentInfo,
    /// Whether the bytes are coded with MMR, and not with the arithmetic coder.
    pub mmr: bool,
    pub template: Template,
    /// Whether typical prediction is on.
    pub tpgdon: bool,
    pub adaptive_template_pixels: GenericTemplatePixels,
    /// The coded bytes.
    pub bytes: &'a [u8],
    /// Whether faulty MMR data is refused.
    pub strict: bool,
}

/// The number of rows, which may replace `height`, and the coded bytes.
#[tactic(auto, using(crate::proofs::Causes::rows_have_cause), unfolding(crate::specs::GenericHeader::rows_at))]
fn rows<'a>(unknown_length: bool, height: u32, bytes: &'a [u8]) -> Result<(u32, &'a [u8])>
    ensures value { Returns (λ rows. (rows.0, rows.1.now)) result
        (rows_at unknown_length height bytes.now) }
    ensures causes { HasCause result (BreaksRowCount unknown_length height bytes.now) }
{
    if !unknown_length {
        return Ok((height, bytes));
    }
    let end = bytes.len().saturating_sub(4);
    let rows = u32_field(&mut Reader::new(&bytes[end..]))?;
    if rows > height {
        return Err(RegionError::InvalidDimension.into());
    }
    Ok((rows, &bytes[..end]))
}

/// Reads the header of a generic region at the reader's place. It holds the coded bytes after it
/// (T.88, 7.4.6). With `unknown_length` the last four bytes are the number of rows.
///
/// Returns `ParseError::UnexpectedEof` if there are too few bytes, the errors of
/// `parse_region_segment_info`, `TemplateError::InvalidAtPixel` if an adaptive pixel does not come
/// before the pixel that is decoded, `RegionError::InvalidDimension` if there are more rows than
/// the stated height, or `OverflowError::BitmapDimension` if a side is above 65535 pixels. An error
/// leaves the reader where it was. Takes no memory.
#[tactic(auto, using(crate::proofs::HeaderCauses::generic_header_cause), unfolding(crate::specs::GenericHeader::generic_header_at))]
pub fn parse<'a>(
    reader: &mut Reader<'a>,
    unknown_length: bool,
    strict: bool,
) -> Result<GenericRegionHeader<'a>>
    ensures parses { Parses reader.old reader.new result header_view
        (generic_header_at unknown_length strict reader.old.bytes) }
    ensures parsed { IfOk result (λ h. IsParsed (header_view h)) }
    ensures unused { IfOk result (λ h. IsFilled h.adaptive_template_pixels
        (header_view h).adaptive_template_pixels) }
    ensures causes { HasCause result (BreaksGenericHeader unknown_length reader.old.bytes) }
{
    let mut ahead = reader.duplicate();
    let mut region_info = parse_region_segment_info(&mut ahead)?;
    let flags = byte_field(&mut ahead)?;
    let mmr = flags % 2 == 1;
    let template = Template::from_byte(flags / 2);
    let adaptive_template_pixels = parse_generic_template_pixels(
        &mut ahead,
        mmr,
        flags / 16 % 2 == 1,
        template,
    )?;
    let (height, bytes) = rows(unknown_length, region_info.height, ahead.tail())?;
    if region_info.width > MAX_DIMENSION || height > MAX_DIMENSION {
        return Err(OverflowError::BitmapDimension.into());
    }
    region_info.height = height;
    *reader = Reader::new(ahead.tail());
    Ok(GenericRegionHeader {
        region_info,
        mmr,
        template,
        tpgdon: flags / 8 % 2 == 1,
        adaptive_template_pixels,
        bytes,
        strict,
    })
}
