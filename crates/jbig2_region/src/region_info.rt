//! Reads the field that every region segment begins with (T.88, 7.4.1).
ghost use Rattle.jbig2_base.specs.Fields.{Parses};
ghost use Rattle.jbig2_region.specs.RegionInfo.{region_info_at};
ghost use Rattle.jbig2_base.specs.Causes.{HasCause};
ghost use Rattle.jbig2_region.specs.Causes.{BreaksRegionInfo};

use jbig2_base::bitmap::operator::CombinationOperator;
use jbig2_base::error::{DecodeError, Result};
use jbig2_base::field::{byte_field, u32_field};
use jbig2_base::reader::Reader;

/// A region's size, its place on the page and how it is combined with the page.
#[derive(Clone, Copy, Debug)]
pub struct RegionSegmentInfo {
    /// In pixels.
    pub width: u32,
    /// In pixels.
    pub height: u32,
    /// The page's column at which the region's first column lies.
    pub x_location: u32,
    /// The page's row at which the region's first row lies.
    pub y_location: u32,
    pub combination_operator: CombinationOperator,
}

/// The region segment information field at the reader's place (T.88, 7.4.1).
///
/// Returns `ParseError::UnexpectedEof` if there are too few bytes,
/// `RegionError::InvalidCombinationOperator` if the flags have the number of no operator, or
/// `Unsupported` if they ask for colours. An error leaves the reader where it was. Takes no memory.
#[tactic(auto, unfolding(crate::specs::RegionInfo::region_info_at))]
pub fn parse_region_segment_info(reader: &mut Reader<'_>) -> Result<RegionSegmentInfo>
    ensures parses { Parses reader.old reader.new result (λ info. info)
        (region_info_at reader.old.bytes) }
    ensures causes { HasCause result (BreaksRegionInfo reader.old.bytes) }
{
    let mut ahead = reader.duplicate();
    let width = u32_field(&mut ahead)?;
    let height = u32_field(&mut ahead)?;
    let x_location = u32_field(&mut ahead)?;
    let y_location = u32_field(&mut ahead)?;
    let flags = byte_field(&mut ahead)?;
    let combination_operator = CombinationOperator::from_value(flags)?;
    if flags / 8 % 2 == 1 {
        return Err(DecodeError::Unsupported);
    }
    *reader = ahead;
    Ok(RegionSegmentInfo {
        width,
        height,
        x_location,
        y_location,
        combination_operator,
    })
}
