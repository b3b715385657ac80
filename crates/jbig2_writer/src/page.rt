//! Writes a bitmap as a page (T.88, Annex D).
ghost use Rattle.std.specs.Prelude.{◌≡◌, ◌+◌, ◌*◌, ◌/◌, ◌≤◌, length, IfOk};
ghost use Rattle.jbig2_base.specs.Grid.{max_side, pixel_at};
ghost use Rattle.jbig2_page.specs.Image.{packed_size};
ghost use Rattle.jbig2_page_inverse.specs.PageWriter.{coded_bytes};
ghost use Rattle.jbig2_writer.specs.Packed.{packed_grid};
ghost use Rattle.jbig2_writer.specs.Written.{GivesWritten, ReadsBack, check_size, choice_of, is_side, most_loads, written};

use crate::container::bytes_of_page;
use crate::decisions::coded_rows;
use crate::error::WriteError;
use crate::packed::bitmap_of_rows;
use crate::settings::{RegionCoding, WriteSettings};
use jbig2_base::bitmap::{Bitmap, MAX_DIMENSION};
use jbig2_mmr_writer::coded_mmr;
use jbig2_steps::Steps;
use std::alloc::{AllocError, Allocator};
use std::sync::ledger::Ledger;

/// Whether a page can have a side of this length.
fn is_side(length: u32) -> bool
    ensures { result ≡ is_side length }
{
    1 <= length && length <= MAX_DIMENSION
}

/// Refuses a size that no page has.
fn check_size(width: u32, height: u32) -> Result<(), WriteError>
    ensures { result ≡ check_size width height }
{
    if !(is_side(width) && is_side(height)) {
        return Err(WriteError::InvalidSides);
    }
    Ok(())
}

/// The coded bytes of the bitmap as a generic region.
fn coded_region<A: Allocator + Clone, B: Allocator, L: Ledger>(
    alloc: A,
    bitmap: &Bitmap<B>,
    settings: &WriteSettings,
    steps: &mut Steps<L>,
) -> Result<Vec<u8, A>, AllocError>
    requires some { 1 ≤ bitmap.now.width }
    requires columns { bitmap.now.width ≤ max_side }
    requires rows { bitmap.now.height ≤ max_side }
    ensures coded { let g = bitmap.now in IfOk result
        (λ v. v.items ≡ coded_bytes (choice_of settings.now) g.width g.height (pixel_at g)) }
    ensures steps { steps.new ≡ record steps.old { loads = steps.new.loads } }
    ensures loads { steps.new.loads
        ≤ steps.old.loads + most_loads settings.now.coding bitmap.now.width bitmap.now.height }
{
    match settings.coding {
        RegionCoding::Arithmetic(coding) => {
            coded_rows(alloc, bitmap, &coding, steps).map_err(|_| AllocError)
        }
        RegionCoding::Mmr => coded_mmr(alloc, bitmap, true, steps),
    }
}

/// Writes the bitmap as a page, embedded or in a file: page information, and one immediate generic region of the page's
/// size. `settings` say in what, and how the region is coded. The steps count loads of pixels: at most five for
/// 32 pixels of a row by the arithmetic coder, and by MMR seven for each pixel and seven more.
///
/// Returns `InvalidSides` if a side is 0 or above 65535, and `OutOfMemory` if memory is refused.
pub fn write_page<A: Allocator + Clone, B: Allocator, L: Ledger>(
    alloc: A,
    bitmap: &Bitmap<B>,
    settings: &WriteSettings,
    steps: &mut Steps<L>,
) -> Result<Vec<u8, A>, WriteError>
    ensures bytes { GivesWritten (λ v. v.items) result (written settings.now bitmap.now) }
    // The definition of a page, or of a file, reads back the bitmap and the resolution.
    ensures reads_back { IfOk result (λ v. ReadsBack settings.now v.items bitmap.now) }
    ensures steps { steps.new ≡ record steps.old { loads = steps.new.loads } }
    ensures loads { steps.new.loads
        ≤ steps.old.loads + most_loads settings.now.coding bitmap.now.width bitmap.now.height }
{
    let width = bitmap.width();
    let height = bitmap.height();
    check_size(width, height)?;
    let coded = coded_region(alloc.clone()?, bitmap, settings, steps)?;
    let bytes = bytes_of_page(alloc, width, height, settings, &coded)?;
    Ok(bytes)
}

/// Writes packed rows as a page. They are as PBM files have them: a bit for each pixel, 1 for black, the
/// leftmost in the highest bit of its byte, and whole bytes for each row.
///
/// Returns what `write_page` returns of their bitmap.
pub fn write_packed<A: Allocator + Clone, L: Ledger>(
    alloc: A,
    rows: &[u8],
    width: u32,
    height: u32,
    settings: &WriteSettings,
    steps: &mut Steps<L>,
) -> Result<Vec<u8, A>, WriteError>
    requires size { length rows.now ≡ packed_size width height }
    ensures bytes { GivesWritten (λ v. v.items) result
        (written settings.now (packed_grid width height rows.now)) }
    ensures reads_back { IfOk result
        (λ v. ReadsBack settings.now v.items (packed_grid width height rows.now)) }
    ensures steps { steps.new ≡ record steps.old {
      loads = steps.new.loads;
      words = steps.new.words;
      cleared = steps.new.cleared;
    } }
    ensures loads { steps.new.loads ≤ steps.old.loads + most_loads settings.now.coding width height }
    ensures words { steps.new.words ≤ steps.old.words + (width + 63) / 64 * height }
    ensures cleared { steps.new.cleared ≤ steps.old.cleared + (width + 63) / 64 * height }
{
    check_size(width, height)?;
    let Ok(bitmap) = bitmap_of_rows(alloc.clone()?, rows, width, height, steps) else {
        return Err(WriteError::OutOfMemory);
    };
    write_page(alloc, &bitmap, settings, steps)
}
