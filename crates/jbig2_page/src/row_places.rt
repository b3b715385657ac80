//! Where a pixel lies in a loaded word, and where the next one lies in rows that follow each other.
ghost use Rattle.std.specs.Prelude.{◌≡◌, ◌+◌, ◌*◌, ◌<◌, ◌≤◌};
ghost use Rattle.jbig2_base.specs.Bits.{bit};

/// The pixel at a place of loaded pixels; the last pixel has place 0.
#[inline(always)]
pub(crate) fn pixel_of(pixels: u64, place: u32) -> bool
    requires { place < 64 }
    ensures { result ≡ bit pixels place }
{
    (pixels >> place) & 1 == 1
}

/// Column `x` of row `y`; after the last column of a row comes the first one of the next row.
#[inline(always)]
pub(crate) fn next_place(x: usize, y: u32, width: usize) -> (usize, u32)
    requires some { 0 < width }
    requires within { x ≤ width }
    requires few { y < u32.MAX }
    ensures place { result.1 * width + result.0 ≡ y * width + x }
    ensures inside { result.0 < width }
{
    if x == width { (0, y + 1) } else { (x, y) }
}
