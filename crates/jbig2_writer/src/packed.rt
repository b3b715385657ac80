//! Bitmaps out of packed rows, as PBM files and /JBIG2Decode streams have them: a bit for each pixel, 1 for black, the
//! leftmost in the highest bit of its byte, and whole bytes for each row.
ghost use Rattle.std.specs.Prelude.{◌≡◌, ℕ, ◌+◌, ◌-◌, ◌*◌, ◌/◌, ◌%◌, ◌^◌, ◌<◌, ◌≤◌, IfOk, length, slice_index};
ghost use Rattle.jbig2_base.specs.Bits.{bit};
ghost use Rattle.jbig2_base.specs.Grid.{max_side};
ghost use Rattle.jbig2_base.specs.inner.GridsBefore.{grid_before};
ghost use Rattle.jbig2_page.specs.Image.{packed_size, row_bytes};
ghost use Rattle.jbig2_writer.specs.Packed.{packed_grid, packed_pixel};

use jbig2_base::bitmap::Bitmap;
use jbig2_base::error::Result;
use jbig2_steps::Steps;
use std::alloc::Allocator;
use std::sync::ledger::Ledger;

/// `count` pixels, 64 at most, from byte `first` on. The first pixel is in the highest of the lowest `count` bits.
fn pixels_at(rows: &[u8], first: usize, count: u32) -> u64
    requires some { 1 ≤ count }
    requires few { count ≤ 64 }
    requires inside { first + (count + 7) / 8 ≤ length rows.now }
    ensures { (k : ℕ) → k < count
        → bit result (count - 1 - k) ≡ bit (slice_index rows.now (first + k / 8)) (7 - k % 8) }
{
    let bytes = count.div_ceil(8);
    let mut pixels: u64 = 0;
    for index in 0..bytes {
        pixels = pixels * 256 + u64::from(rows[first + index as usize]);
    }
    pixels >> (8 * bytes - count)
}

/// Writes row `y` of the packed rows into a bitmap of their size. The rows above are written.
fn write_row<A: Allocator, L: Ledger>(
    rows: &[u8],
    y: u32,
    bitmap: &mut Bitmap<A>,
    steps: &mut Steps<L>,
)
    requires size { length rows.now ≡ packed_size bitmap.old.width bitmap.old.height }
    requires row { y < bitmap.old.height }
    requires columns { bitmap.old.width ≤ max_side }
    requires above { bitmap.old ≡ grid_before bitmap.old.width bitmap.old.height
        (packed_pixel bitmap.old.width rows.now) y 0 }
    ensures value { bitmap.new ≡ grid_before bitmap.old.width bitmap.old.height
        (packed_pixel bitmap.old.width rows.now) (y + 1) 0 }
    ensures steps { steps.new ≡ record steps.old { words = steps.new.words } }
    ensures words { steps.new.words ≤ steps.old.words + (bitmap.old.width + 63) / 64 }
{
    let width = bitmap.width();
    let first = y as usize * width.div_ceil(8) as usize;
    for word in 0..width.div_ceil(64) {
        let x = 64 * word;
        let count = (width - x).min(64);
        let pixels = pixels_at(rows, first + 8 * word as usize, count);
        bitmap.store_pixels(x, y, count, pixels, steps);
    }
}

/// The bitmap of packed rows.
pub fn bitmap_of_rows<A: Allocator, L: Ledger>(
    alloc: A,
    rows: &[u8],
    width: u32,
    height: u32,
    steps: &mut Steps<L>,
) -> Result<Bitmap<A>>
    requires size { length rows.now ≡ packed_size width height }
    requires columns { width ≤ max_side }
    ensures value { IfOk result (λ bitmap. bitmap ≡ packed_grid width height rows.now) }
    ensures steps { steps.new
        ≡ record steps.old { words = steps.new.words; cleared = steps.new.cleared } }
    ensures words { steps.new.words ≤ steps.old.words + (width + 63) / 64 * height }
    ensures cleared { steps.new.cleared ≤ steps.old.cleared + (width + 63) / 64 * height }
{
    let mut bitmap = Bitmap::new(alloc, width, height, steps)?;
    for y in 0..height {
        write_row(rows, y, &mut bitmap, steps);
    }
    Ok(bitmap)
}
