//! The bitmaps of symbols by prefix codes: those of a height class lie side by side in one
//! collective bitmap (T.88, 6.5.9).
ghost use Rattle.std.specs.Prelude.{◌≡◌, ◌+◌, ◌*◌, ◌/◌, ◌<◌, ◌≤◌, false, length, sum, OnOk};
ghost use Rattle.jbig2_base.specs.Bits.{start_of};
ghost use Rattle.jbig2_base.specs.Results.{Returns, Gives};
ghost use Rattle.jbig2_base.specs.Counts.{WritesWithin};
ghost use Rattle.jbig2_base.specs.Grid.{blank, wide_or_overflow};
ghost use Rattle.jbig2_base.specs.inner.GridsBefore.{grid_before};
ghost use Rattle.jbig2_steps.specs.Work.{Paid, price_of_bitmap};
ghost use Rattle.jbig2_symbol.specs.SymbolBitmaps.{symbols_cut, raw_pixel, raw_stride, raw_rows, mmr_bitmap, rows_of_size};
ghost use Rattle.jbig2_symbol.specs.inner.FunctionResults.{bytes_of_rows, symbols_after, with_no_value};

use crate::readings::SymbolSize;
use jbig2_base::bitmap::part::Area;
use jbig2_base::bitmap::{Bitmap, MAX_AREA};
use jbig2_base::error::{OverflowError, RegionError, Result};
use jbig2_base::field::bytes_field;
use jbig2_base::reader::Reader;
use jbig2_mmr::mmr;
use jbig2_steps::{Steps, Work};
use std::alloc::Allocator;
use std::sync::ledger::Ledger;

/// Copies row `y` of rows that are not coded into a bitmap that has the rows above it.
fn fill_row<A: Allocator, L: Ledger>(
    bytes: &[u8],
    y: u32,
    bitmap: &mut Bitmap<A>,
    steps: &mut Steps<L>,
)
    requires row { y < bitmap.old.height }
    requires sized { length bytes.now ≡ bitmap.old.height * raw_stride bitmap.old.width }
    requires above { bitmap.old ≡ grid_before bitmap.old.width bitmap.old.height
        (raw_pixel bytes.now (raw_stride bitmap.old.width)) y 0 }
    ensures value { bitmap.new ≡ grid_before bitmap.old.width bitmap.old.height
        (raw_pixel bytes.now (raw_stride bitmap.old.width)) (y + 1) 0 }
    ensures steps { let words = (bitmap.old.width + 7) / 8 in
        WritesWithin words steps.old steps.new }
{
    let width = bitmap.width();
    let stride = width.div_ceil(8) as usize;
    let start = y as usize * stride;
    for index in 0..stride {
        let x = 8 * index as u32;
        let count = (width - x).min(8);
        let bits = bytes[start + index] >> (8 - count);
        bitmap.store_pixels(x, y, count, u64::from(bits), steps);
    }
}

/// Refuses a size with more pixels than a collective bitmap may have.
fn check_pixels(width: u32, height: u32) -> Result<()>
    ensures { Returns (λ _. blank width height false) result (wide_or_overflow width height) }
{
    if u64::from(width) * u64::from(height) > MAX_AREA {
        return Err(OverflowError::BitmapDimension.into());
    }
    Ok(())
}

/// Reads the bytes of rows that are not coded (T.88, 6.5.9).
fn raw_bytes<'a>(width: u32, height: u32, reader: &mut Reader<'a>) -> Result<&'a [u8]>
    ensures value { let meant = bytes_of_rows width height reader.old.bytes in
        Returns (λ rows. (rows.now, reader.new.bytes)) result meant }
    ensures place { OnOk result (reader.new ≡ start_of reader.new.bytes) }
{
    check_pixels(width, height)?;
    let stride = width.div_ceil(8) as usize;
    bytes_field(reader, height as usize * stride)
}

/// Reads rows that are not coded (T.88, 6.5.9). It takes memory for them only if their bytes are
/// there.
#[tactic(auto, unfolding(crate::specs::SymbolBitmaps::raw_rows))]
fn read_raw_rows<A: Allocator, L: Ledger>(
    alloc: A,
    width: u32,
    height: u32,
    reader: &mut Reader<'_>,
    work: &mut Work<L>,
) -> Result<Bitmap<A>>
    ensures value { let meant = raw_rows width height reader.old.bytes in
        Gives (λ bitmap. (bitmap, reader.new.bytes)) result meant }
    ensures place { OnOk result (reader.new ≡ start_of reader.new.bytes) }
    ensures paid { Paid work.old work.new }
{
    let bytes = raw_bytes(width, height, reader)?;
    if width == 0 {
        let empty = Bitmap::new_wide(alloc, width, height, &mut work.steps)?;
        return Ok(empty);
    }
    work.pay_bitmap(width, height)?;
    let mut bitmap = Bitmap::new_wide(alloc, width, height, &mut work.steps)?;
    for y in 0..height {
        fill_row(bytes, y, &mut bitmap, &mut work.steps);
    }
    Ok(bitmap)
}

/// Reads MMR data of `size` bytes (T.88, 6.5.9).
#[tactic(auto, unfolding(crate::specs::SymbolBitmaps::mmr_bitmap))]
fn read_mmr_rows<A: Allocator, L: Ledger>(
    alloc: A,
    strict: bool,
    size: usize,
    sides: SymbolSize,
    reader: &mut Reader<'_>,
    work: &mut Work<L>,
) -> Result<Bitmap<A>>
    ensures value { let meant = mmr_bitmap strict size sides.width sides.height reader.old.bytes in
        Gives (λ bitmap. (bitmap, reader.new.bytes)) result meant }
    ensures place { OnOk result (reader.new ≡ start_of reader.new.bytes) }
    ensures paid { Paid work.old work.new }
{
    let bytes = bytes_field(reader, size)?;
    check_pixels(sides.width, sides.height)?;
    // Some codes may give no pixel.
    work.pay(size as u64)?;
    work.pay_bitmap(sides.width, sides.height)?;
    let mut bitmap = Bitmap::new_wide(alloc, sides.width, sides.height, &mut work.steps)?;
    mmr::decode(&mut bitmap, bytes, strict, &mut work.steps)?;
    Ok(bitmap)
}

/// Reads the rows of a collective bitmap, which are not coded where `size` is 0 (T.88, 6.5.9).
pub fn read_rows<A: Allocator, L: Ledger>(
    alloc: A,
    strict: bool,
    size: usize,
    sides: SymbolSize,
    reader: &mut Reader<'_>,
    work: &mut Work<L>,
) -> Result<Bitmap<A>>
    ensures value { let bytes = reader.old.bytes in
        let meant = rows_of_size strict size sides.width sides.height bytes in
        Gives (λ bitmap. (bitmap, reader.new.bytes)) result meant }
    ensures place { OnOk result (reader.new ≡ start_of reader.new.bytes) }
    ensures paid { Paid work.old work.new }
{
    if size == 0 {
        return read_raw_rows(alloc, sides.width, sides.height, reader, work);
    }
    read_mmr_rows(alloc, strict, size, sides, reader, work)
}

/// Refuses MMR data of `size` bytes with the same errors as `read_mmr_rows`. It decodes only in
/// strict mode, and only if the bytes are enough for all rows: each row takes at least one bit.
#[tactic(auto, unfolding(crate::specs::SymbolBitmaps::mmr_bitmap))]
fn check_mmr_rows<A: Allocator, L: Ledger>(
    alloc: A,
    strict: bool,
    size: usize,
    sides: SymbolSize,
    reader: &mut Reader<'_>,
    work: &mut Work<L>,
) -> Result<()>
    ensures value { let meant = mmr_bitmap strict size sides.width sides.height reader.old.bytes in
        Gives (λ _. tt) result (with_no_value meant) }
    ensures paid { Paid work.old work.new }
{
    let is_checked = strict && sides.width > 0;
    if is_checked && sides.height.div_ceil(8) as usize <= size {
        read_mmr_rows(alloc, strict, size, sides, reader, work)?;
        return Ok(());
    }
    bytes_field(reader, size)?;
    check_pixels(sides.width, sides.height)?;
    if is_checked {
        return Err(RegionError::InvalidMmrData.into());
    }
    Ok(())
}

/// Refuses the rows of a collective bitmap with the same errors as `read_rows`, where the bitmap
/// itself is not needed (T.88, 6.5.9).
pub fn check_rows<A: Allocator, L: Ledger>(
    alloc: A,
    strict: bool,
    size: usize,
    sides: SymbolSize,
    reader: &mut Reader<'_>,
    work: &mut Work<L>,
) -> Result<()>
    ensures value { let bytes = reader.old.bytes in
        let meant = rows_of_size strict size sides.width sides.height bytes in
        Gives (λ _. tt) result (with_no_value meant) }
    ensures paid { Paid work.old work.new }
{
    if size > 0 {
        return check_mmr_rows(alloc, strict, size, sides, reader, work);
    }
    raw_bytes(sides.width, sides.height, reader)?;
    Ok(())
}

/// Cuts the symbols of these widths, which lie side by side, out of a collective bitmap, and adds
/// them to `symbols`.
pub fn cut_symbols<A: Allocator + Clone, L: Ledger>(
    alloc: A,
    collective: &Bitmap<A>,
    height: u32,
    widths: &[u32],
    symbols: &mut Vec<Bitmap<A>, A>,
    work: &mut Work<L>,
) -> Result<()>
    requires { sum widths.now ≤ 4294967295 }
    ensures value { let cut = symbols_cut collective.now height 0 widths.now in
        let meant = symbols_after symbols.old.items cut in
        Gives (λ _. symbols.new.items) result meant }
    ensures paid { Paid work.old work.new }
    ensures count { OnOk result (length symbols.new.items
        ≡ length symbols.old.items + length widths.now) }
{
    let mut left = 0;
    for width in widths {
        let area = Area {
            left,
            top: 0,
            width: *width,
            height,
        };
        work.pay_bitmap(*width, height)?;
        let symbol = match collective.part(alloc.clone()?, area, &mut work.steps) {
            Ok(symbol) => symbol,
            Err(error) => return Err(error),
        };
        symbols.push(symbol)?;
        left += *width;
    }
    Ok(())
}
