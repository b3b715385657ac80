//! Writes a whole bitmap, row by row (T.88, 6.2.6).
ghost use Rattle.std.specs.Prelude.{◌≡◌, ◌+◌, ◌*◌, ◌≤◌, ◌++◌, [], if◌then◌else◌, IfOk, OnOk};
ghost use Rattle.jbig2_base.specs.Grid.{max_side, pixel_at};
ghost use Rattle.jbig2_inverses.specs.MmrWriter.{mmr_bytes};
ghost use Rattle.jbig2_inverses.specs.Digits.{digits};
ghost use Rattle.jbig2_mmr_writer.specs.Written.{ReadsBack};

use crate::bits::BitWriter;
use crate::row::push_row;
use jbig2_base::bitmap::Bitmap;
use jbig2_steps::Steps;
use std::alloc::{AllocError, Allocator};
use std::sync::ledger::Ledger;

/// The code of the end of block (EOFB).
const END_OF_BLOCK: u32 = 0x001001;

/// Adds the end of block, or nothing.
fn push_end<A: Allocator>(writer: &mut BitWriter<A>, end_of_block: bool) -> Result<(), AllocError>
    ensures { OnOk result
        (writer.new ≡ writer.old ++ (if end_of_block then digits 24 0x001001 else [])) }
{
    if end_of_block {
        return writer.push(END_OF_BLOCK, 24);
    }
    Ok(())
}

/// The bitmap as MMR data, with an end of block or without. By the definition of MMR data these bytes give the bitmap.
/// The steps count loads of pixels, at most seven for each pixel of a row and seven more.
///
/// Fails if memory is refused.
pub fn coded_mmr<A: Allocator, B: Allocator, L: Ledger>(
    alloc: A,
    bitmap: &Bitmap<B>,
    end_of_block: bool,
    steps: &mut Steps<L>,
) -> Result<Vec<u8, A>, AllocError>
    requires columns { bitmap.now.width ≤ max_side }
    ensures bytes { let g = bitmap.now in IfOk result
        (λ v. v.items ≡ mmr_bytes end_of_block g.width g.height (pixel_at g)) }
    ensures reads_back { IfOk result (λ v. ReadsBack bitmap.now v.items) }
    ensures steps { steps.new ≡ record steps.old { loads = steps.new.loads } }
    ensures loads { steps.new.loads
        ≤ steps.old.loads + 7 * ((bitmap.now.width + 1) * bitmap.now.height) }
{
    let mut writer = BitWriter::new(alloc);
    for y in 0..bitmap.height() {
        push_row(&mut writer, bitmap, y, steps)?;
    }
    push_end(&mut writer, end_of_block)?;
    writer.finish()
}
