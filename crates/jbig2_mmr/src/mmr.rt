//! Decodes bitmaps that are coded in two dimensions by T.6 (MMR; T.88, 6.2.6).
ghost use Rattle.std.specs.Prelude.{◌≡◌, false, ◌+◌, ◌-◌, ◌*◌, ◌/◌, length};
ghost use Rattle.jbig2_base.specs.Results.{Returns};
ghost use Rattle.jbig2_base.specs.Counts.{KeepsLanes, words_of};
ghost use Rattle.jbig2_base.specs.Grid.{blank};
ghost use Rattle.jbig2_mmr.specs.T6.{mmr_rows, grid_of_rows, rows_of};
ghost use Rattle.jbig2_base.specs.Causes.{HasCause};
ghost use Rattle.jbig2_mmr.specs.Causes.{BreaksMmr};
ghost use Rattle.jbig2_mmr.specs.Steps.{MovesWithin, bytes_taken};

mod bits;
mod change;
pub mod codes;
mod row;
mod span;

use crate::mmr::bits::CodeReader;
use crate::mmr::row::read_row;
use jbig2_base::bitmap::Bitmap;
use jbig2_base::error::{RegionError, Result};
use jbig2_steps::Steps;
use std::alloc::Allocator;
use std::sync::ledger::Ledger;

/// Decodes rows onto a white bitmap, and returns how many of `bytes` they take, the last one whole.
///
/// Strict mode refuses a fault in the data, or an end of block before the last row
/// (`RegionError::InvalidMmrData`). In the other mode a fault takes all bytes. In both modes the
/// whole rows before the fault or end of block stay, and the rest is white. No memory is taken.
/// Only loads and words are counted: at most three together for each word of the bitmap and each
/// bit of the bytes that are taken. If the data is refused, that is each bit of `bytes`.
pub fn decode<A: Allocator, L: Ledger>(
    bitmap: &mut Bitmap<A>,
    bytes: &[u8],
    strict: bool,
    steps: &mut Steps<L>,
) -> Result<usize>
    requires { bitmap.old ≡ blank bitmap.old.width bitmap.old.height false }
    ensures value { Returns (λ count. record { grid = bitmap.new; used = count }) result
        (mmr_rows strict bitmap.old.width bitmap.old.height bytes.now) }
    ensures grid { bitmap.new ≡ grid_of_rows bitmap.old.width bitmap.old.height
        (rows_of bitmap.old.width bitmap.old.height bytes.now).rows }
    ensures causes { HasCause result
        (BreaksMmr strict bitmap.old.width bitmap.old.height bytes.now) }
    ensures lanes { KeepsLanes steps.old steps.new }
    ensures work { MovesWithin
        (3 * (words_of bitmap.old + 8 * bytes_taken result (length bytes.now)))
        steps.old steps.new }
{
    let read = read_rows(bitmap, bytes, steps);
    if strict && !read.whole {
        return Err(RegionError::InvalidMmrData.into());
    }
    Ok(read.used)
}

/// How many rows the bytes hold before the first fault or end of block.
///
/// Decodes them onto a white bitmap. No memory is taken. Only loads and words are counted: at most
/// three together for each word of the bitmap and each bit of `bytes`.
pub fn count_rows<A: Allocator, L: Ledger>(
    bitmap: &mut Bitmap<A>,
    bytes: &[u8],
    steps: &mut Steps<L>,
) -> u32
    requires { bitmap.old ≡ blank bitmap.old.width bitmap.old.height false }
    ensures rows { result ≡ length (rows_of bitmap.old.width bitmap.old.height bytes.now).rows }
    ensures lanes { KeepsLanes steps.old steps.new }
    ensures work { MovesWithin (3 * (words_of bitmap.old + 8 * length bytes.now)) steps.old steps.new }
{
    read_rows(bitmap, bytes, steps).count
}

/// What was read of the rows of a bitmap.
#[derive(Clone, Copy)]
struct RowsRead {
    /// How many rows are whole.
    count: u32,
    /// How many bytes are used, the last one whole; all after a fault.
    used: usize,
    /// Whether no row is missing.
    whole: bool,
}

/// Decodes rows onto a white bitmap, up to the first fault or end of block.
fn read_rows<A: Allocator, L: Ledger>(
    bitmap: &mut Bitmap<A>,
    bytes: &[u8],
    steps: &mut Steps<L>,
) -> RowsRead
    requires { bitmap.old ≡ blank bitmap.old.width bitmap.old.height false }
    ensures count { result.count ≡ length (rows_of bitmap.old.width bitmap.old.height bytes.now).rows }
    ensures used { result.used ≡ length bytes.now
        - length (rows_of bitmap.old.width bitmap.old.height bytes.now).left / 8 }
    ensures whole { result.whole ≡ (rows_of bitmap.old.width bitmap.old.height bytes.now).whole }
    ensures grid { bitmap.new ≡ grid_of_rows bitmap.old.width bitmap.old.height
        (rows_of bitmap.old.width bitmap.old.height bytes.now).rows }
    ensures lanes { KeepsLanes steps.old steps.new }
    ensures work { MovesWithin (3 * (words_of bitmap.old + 8 * result.used)) steps.old steps.new }
{
    let height = bitmap.height();
    if bitmap.width() == 0 || height == 0 {
        return RowsRead {
            count: 0,
            used: 0,
            whole: true,
        };
    }
    let mut reader = CodeReader::new(bytes);
    for y in 0..height {
        if reader.skip_end_of_block() {
            return RowsRead {
                count: y,
                used: reader.bytes_used(),
                whole: false,
            };
        }
        if !read_row(bitmap, y, &mut reader, steps) {
            return RowsRead {
                count: y,
                used: bytes.len(),
                whole: false,
            };
        }
    }
    reader.skip_end_of_block();
    RowsRead {
        count: height,
        used: reader.bytes_used(),
        whole: true,
    }
}
