//! Headers of halftone regions (T.88, 7.4.5).
ghost use Rattle.std.specs.Prelude.{◌≡◌, ◌≤◌, IfOk, OnErr, OnOk, Bool};
ghost use Rattle.jbig2_base.specs.Bits.{start_of};
ghost use Rattle.jbig2_base.specs.Grid.{max_side};
ghost use Rattle.jbig2_base.specs.Results.{Returns};
ghost use Rattle.jbig2_base.specs.Fields.{signed_at};
ghost use Rattle.jbig2_halftone.specs.HalftoneHeader.{halftone_flags_at, halftone_grid_at, halftone_header_at};
ghost use Rattle.jbig2_halftone.specs.inner.HalftoneHeaderViews.{header_view};
ghost use Rattle.jbig2_base.specs.Causes.{HasCause};
ghost use Rattle.jbig2_halftone.specs.Causes.{BreaksHalftoneHeader};

use jbig2_base::bitmap::MAX_DIMENSION;
use jbig2_base::bitmap::operator::CombinationOperator;
use jbig2_base::error::{OverflowError, Result};
use jbig2_base::field::{byte_field, i32_field, u16_field, u32_field};
use jbig2_base::reader::Reader;
use jbig2_region::region_info::{RegionSegmentInfo, parse_region_segment_info};
use jbig2_region::template::Template;

/// The flags of a halftone region (T.88, 7.4.5.1.1).
#[derive(Clone, Copy, Debug)]
pub struct HalftoneRegionFlags {
    /// Whether the planes are coded with MMR, instead of the arithmetic coder.
    pub mmr: bool,
    pub template: Template,
    /// Whether cells whose pattern would lie wholly outside are left out of the planes.
    pub enable_skip: bool,
    /// How patterns are drawn onto the region.
    pub combination_operator: CombinationOperator,
    /// The region's colour before any pattern is drawn, `true` for black.
    pub initial_pixel_color: bool,
}

/// A grid's size, and the place of its first cell (T.88, 7.4.5.1.2).
#[derive(Clone, Copy, Debug)]
pub struct HalftoneGridPositionAndSize {
    /// In cells.
    pub width: u32,
    /// In cells.
    pub height: u32,
    /// In 256ths of a pixel.
    pub horizontal_offset: i32,
    /// In 256ths of a pixel.
    pub vertical_offset: i32,
}

/// How far a cell lies from the one before it in its row (T.88, 7.4.5.1.3).
#[derive(Clone, Copy, Debug)]
pub struct HalftoneGridVector {
    /// To the right, in 256ths of a pixel.
    pub x_vector: u16,
    /// Upwards, in 256ths of a pixel.
    pub y_vector: u16,
}

/// What is needed to decode a halftone region's coded bytes (T.88, 7.4.5).
#[derive(Clone, Copy, Debug)]
pub struct HalftoneRegionHeader<'a> {
    pub region_info: RegionSegmentInfo,
    pub flags: HalftoneRegionFlags,
    pub grid_position_and_size: HalftoneGridPositionAndSize,
    pub grid_vector: HalftoneGridVector,
    /// The coded bytes.
    pub bytes: &'a [u8],
    /// Whether faulty MMR data and values without a pattern are refused.
    pub strict: bool,
}

#[tactic(auto, unfolding(crate::specs::HalftoneHeader::halftone_flags_at))]
fn parse_flags(reader: &mut Reader<'_>) -> Result<HalftoneRegionFlags>
    ensures value { Returns (λ flags. (flags, reader.new.bytes)) result
        (halftone_flags_at reader.old.bytes) }
{
    let flags = byte_field(reader)?;
    let combination_operator = CombinationOperator::from_value(flags / 16)?;
    Ok(HalftoneRegionFlags {
        mmr: flags % 2 == 1,
        template: Template::from_byte(flags / 2),
        enable_skip: flags / 8 % 2 == 1,
        combination_operator,
        initial_pixel_color: flags / 128 == 1,
    })
}

#[tactic(auto, unfolding(crate::specs::HalftoneHeader::halftone_grid_at))]
fn parse_grid(reader: &mut Reader<'_>) -> Result<HalftoneGridPositionAndSize>
    ensures value { Returns (λ grid. (grid, reader.new.bytes)) result
        (halftone_grid_at reader.old.bytes) }
    ensures columns { IfOk result (λ grid. grid.width ≤ max_side) }
    ensures rows { IfOk result (λ grid. grid.height ≤ max_side) }
{
    let width = u32_field(reader)?;
    let height = u32_field(reader)?;
    if width > MAX_DIMENSION || height > MAX_DIMENSION {
        return Err(OverflowError::GridDimension.into());
    }
    let horizontal_offset = i32_field(reader)?;
    let vertical_offset = i32_field(reader)?;
    Ok(HalftoneGridPositionAndSize {
        width,
        height,
        horizontal_offset,
        vertical_offset,
    })
}

/// Reads the header of a halftone region (T.88, 7.4.5). The reader is then at the coded bytes,
/// which the header holds too.
///
/// Returns `ParseError::UnexpectedEof` where the bytes do not hold the header; the errors of
/// `parse_region_segment_info`; `RegionError::InvalidCombinationOperator` where the flags name no
/// operator; `OverflowError::GridDimension` for a grid of more than 65535 columns or rows. An error
/// leaves the reader where it was. It takes no memory.
#[tactic(auto, unfolding(crate::specs::HalftoneHeader::halftone_header_at))]
pub fn parse<'a>(reader: &mut Reader<'a>, strict: bool) -> Result<HalftoneRegionHeader<'a>>
    ensures value { Returns (λ h. (header_view h, reader.new.bytes)) result
        (halftone_header_at strict reader.old.bytes) }
    ensures columns { IfOk result (λ h. h.grid_position_and_size.width ≤ max_side) }
    ensures rows { IfOk result (λ h. h.grid_position_and_size.height ≤ max_side) }
    ensures place { OnOk result (reader.new ≡ start_of reader.new.bytes) }
    ensures stays { OnErr result (reader.new ≡ reader.old) }
    ensures causes { HasCause result (BreaksHalftoneHeader reader.old.bytes) }
{
    let mut ahead = reader.duplicate();
    let region_info = parse_region_segment_info(&mut ahead)?;
    let flags = parse_flags(&mut ahead)?;
    let grid_position_and_size = parse_grid(&mut ahead)?;
    let x_vector = u16_field(&mut ahead)?;
    let y_vector = u16_field(&mut ahead)?;
    *reader = ahead;
    Ok(HalftoneRegionHeader {
        region_info,
        flags,
        grid_position_and_size,
        grid_vector: HalftoneGridVector { x_vector, y_vector },
        bytes: reader.tail(),
        strict,
    })
}
