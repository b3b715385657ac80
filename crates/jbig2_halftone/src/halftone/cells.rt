//! The places of the cells of a halftone region's grid (T.88, 6.6.5.1 and 6.6.5.2).
ghost use Rattle.std.specs.Prelude.{◌≡◌, pos, ◌+ℤ◌, ◌-ℤ◌, ◌||◌, FitsSigned};
ghost use Rattle.std.specs.Int.{w32, w64, int_shr};
ghost use Rattle.jbig2_halftone.specs.Halftone.{is_beyond};
ghost use Rattle.jbig2_halftone.specs.inner.HalftoneHeaderViews.{header_view};
ghost use Rattle.jbig2_halftone.specs.inner.CellPlaces.{x_of, y_of};

use super::header::HalftoneRegionHeader;

/// The place of a cell's pattern on the region, in 256ths of a pixel.
#[derive(Clone, Copy)]
pub struct CellPlace {
    pub x: i64,
    pub y: i64,
}

/// The place of the first cell of the first row.
pub fn first_place(header: &HalftoneRegionHeader<'_>) -> CellPlace
    ensures x { result.x ≡ x_of (header_view header.now) 0 0 }
    ensures y { result.y ≡ y_of (header_view header.now) 0 0 }
    ensures x_fits { FitsSigned w32 header.now.grid_position_and_size.horizontal_offset }
    ensures y_fits { FitsSigned w32 header.now.grid_position_and_size.vertical_offset }
{
    let grid = &header.grid_position_and_size;
    CellPlace {
        x: i64::from(grid.horizontal_offset),
        y: i64::from(grid.vertical_offset),
    }
}

/// The place of the next cell of a row.
#[inline(always)]
pub fn next_in_row(place: CellPlace, x_vector: u16, y_vector: u16) -> CellPlace
    requires x { FitsSigned w64 (place.x +ℤ pos x_vector) }
    requires y { FitsSigned w64 (place.y -ℤ pos y_vector) }
    ensures x { result.x ≡ place.x +ℤ pos x_vector }
    ensures y { result.y ≡ place.y -ℤ pos y_vector }
{
    CellPlace {
        x: place.x + i64::from(x_vector),
        y: place.y - i64::from(y_vector),
    }
}

/// The place of the first cell of the next row, from that of this row.
#[inline(always)]
pub fn next_row(place: CellPlace, x_vector: u16, y_vector: u16) -> CellPlace
    requires x { FitsSigned w64 (place.x +ℤ pos y_vector) }
    requires y { FitsSigned w64 (place.y +ℤ pos x_vector) }
    ensures x { result.x ≡ place.x +ℤ pos y_vector }
    ensures y { result.y ≡ place.y +ℤ pos x_vector }
{
    CellPlace {
        x: place.x + i64::from(y_vector),
        y: place.y + i64::from(x_vector),
    }
}

/// A place in 256ths of a pixel as a whole pixel, rounded down.
#[inline(always)]
pub fn whole_pixels(place: i64) -> i32
    requires { FitsSigned w32 (int_shr place 8) }
    ensures { result ≡ int_shr place 8 }
{
    (place >> 8) as i32
}

/// Whether a pattern of this size at this place, in 256ths of a pixel, has no pixel in a region of
/// `room` pixels, along one axis.
#[inline(always)]
fn is_beyond(place: i64, size: u32, room: u32) -> bool
    ensures { result ≡ is_beyond (int_shr place 8) size room }
{
    let pixels = place >> 8;
    pixels + i64::from(size) <= 0 || i64::from(room) <= pixels
}

/// Whether a pattern of `width` by `height` pixels at this place would lie wholly outside a region of
/// this many columns and rows (T.88, 6.6.5.1).
#[inline(always)]
pub fn lies_outside(place: CellPlace, width: u32, height: u32, columns: u32, rows: u32) -> bool
    ensures { result ≡ (is_beyond (int_shr place.x 8) width columns
        || is_beyond (int_shr place.y 8) height rows) }
{
    is_beyond(place.x, width, columns) || is_beyond(place.y, height, rows)
}
