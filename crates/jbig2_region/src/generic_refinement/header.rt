//! Headers of refinement regions (T.88, 7.4.7).
ghost use Rattle.std.specs.Prelude.{◌≡◌, IfOk};
ghost use Rattle.jbig2_base.specs.Fields.{Parses};
ghost use Rattle.jbig2_region.specs.RefinementHeader.{IsRefinement, refinement_header_at};
ghost use Rattle.jbig2_region.specs.inner.RefinementHeaderViews.{header_view};
ghost use Rattle.jbig2_region.specs.inner.PixelArrays.{pixel_array};
ghost use Rattle.jbig2_base.specs.Causes.{HasCause};
ghost use Rattle.jbig2_region.specs.Causes.{BreaksRefinementHeader};

use crate::region_info::{RegionSegmentInfo, parse_region_segment_info};
use crate::template::adaptive::parse_template_pixels;
use crate::template::{AdaptiveTemplatePixel, RefinementTemplate};
use jbig2_base::bitmap::MAX_DIMENSION;
use jbig2_base::error::{OverflowError, Result};
use jbig2_base::field::byte_field;
use jbig2_base::reader::Reader;

/// The header of a refinement region, with its coded bytes (T.88, 7.4.7).
#[derive(Clone, Copy, Debug)]
pub struct GenericRefinementRegionHeader<'a> {
    pub region_info: RegionSegmentInfo,
    pub template: RefinementTemplate,
    /// Whether typical prediction is on.
    pub tpgron: bool,
    /// Not used at template 1.
    pub adaptive_template_pixels: [AdaptiveTemplatePixel; 2],
    /// The coded bytes.
    pub bytes: &'a [u8],
}

/// Reads the header of a refinement region at the reader's place. It holds the coded bytes after it
/// (T.88, 7.4.7).
///
/// Returns `ParseError::UnexpectedEof` if there are too few bytes, the errors of
/// `parse_region_segment_info`, or `OverflowError::BitmapDimension` if a side is above 65535
/// pixels. An error leaves the reader where it was. The adaptive pixels may lie anywhere. Takes no
/// memory.
#[tactic(auto, using(crate::proofs::HeaderCauses::refinement_header_cause), unfolding(crate::specs::RefinementHeader::refinement_header_at))]
pub fn parse<'a>(reader: &mut Reader<'a>) -> Result<GenericRefinementRegionHeader<'a>>
    ensures parses { Parses reader.old reader.new result header_view
        (refinement_header_at reader.old.bytes) }
    ensures parsed { IfOk result (λ h. IsRefinement (header_view h)) }
    ensures unused { IfOk result (λ h. h.adaptive_template_pixels
        ≡ pixel_array 2 (header_view h).adaptive_template_pixels) }
    ensures causes { HasCause result (BreaksRefinementHeader reader.old.bytes) }
{
    let mut ahead = reader.duplicate();
    let region_info = parse_region_segment_info(&mut ahead)?;
    let flags = byte_field(&mut ahead)?;
    let template = RefinementTemplate::from_byte(flags);
    let adaptive_template_pixels = parse_template_pixels(&mut ahead, template)?;
    if region_info.width > MAX_DIMENSION || region_info.height > MAX_DIMENSION {
        return Err(OverflowError::BitmapDimension.into());
    }
    *reader = ahead;
    Ok(GenericRefinementRegionHeader {
        region_info,
        template,
        tpgron: flags / 2 % 2 == 1,
        adaptive_template_pixels,
        bytes: reader.tail(),
    })
}
