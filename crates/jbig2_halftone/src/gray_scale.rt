//! Gray-scale images (T.88, Annex C).
ghost use Rattle.std.specs.Prelude.{◌≡◌, ◌+◌, ◌≤◌, [], Ok, OnOk, OnErr};
ghost use Rattle.jbig2_steps.specs.Work.{CountsWithin};
ghost use Rattle.jbig2_base.specs.Results.{Gives, Leaves};
ghost use Rattle.jbig2_halftone.specs.GrayScale.{gray_values, gray_scale_image, gray_contexts, GrayScale};
ghost use Rattle.jbig2_halftone.specs.Steps.{CountsImage, CountsLanes, StopsImage, cleared_by_planes, price_of_image};
ghost use Rattle.jbig2_halftone.specs.inner.GrayScaleViews.{gray_view};
ghost use Rattle.jbig2_base.specs.Causes.{HasCauseOrNoMemory};
ghost use Rattle.jbig2_halftone.specs.Causes.{BreaksGrayScale};

mod groups;
mod lanes;
mod planes;
pub(crate) mod whole_rows;

use jbig2_base::bitmap::{Bitmap, MAX_DIMENSION};
use jbig2_base::error::{OverflowError, Result};
use jbig2_coder::arithmetic_decoder::ArithmeticDecoderContext;
use jbig2_region::template::Template;
use jbig2_steps::Steps;
use planes::add_planes;
use std::alloc::Allocator;
use std::sync::ledger::Ledger;

/// What is needed to decode a gray-scale image's coded bytes (T.88, Table C.1).
#[derive(Drop)]
pub struct GrayScaleParams<'a, M: Allocator> {
    /// Whether the bytes are coded with MMR, instead of the arithmetic coder.
    pub use_mmr: bool,
    /// The number of planes, 0 to 32.
    pub bits_per_pixel: u32,
    /// In pixels.
    pub width: u32,
    /// In pixels.
    pub height: u32,
    pub template: Template,
    /// Black where a pixel is skipped: it is white in every coded plane. MMR data skips none.
    pub skip_mask: Option<&'a Bitmap<M>>,
    /// Whether faulty MMR data is refused.
    pub strict: bool,
}

/// The number of values that are set to 0 at once.
const BLOCK: usize = 256;

/// The value 0 for each pixel. They are copied in blocks, since `Vec::resize` writes them one by one.
fn zeros<A: Allocator>(alloc: A, width: u32, height: u32) -> Result<Vec<u32, A>>
    ensures { Gives (λ values. values.items) result (Ok (gray_values width height [])) }
{
    let count = width as usize * height as usize;
    let block = [0; BLOCK];
    let mut values = Vec::with_capacity(alloc, count)?;
    for _ in 0..count / BLOCK {
        values.extend_from_slice(&block)?;
    }
    values.resize(count, 0)?;
    Ok(values)
}

/// Decodes a gray-scale image (T.88, Annex C): a value for each pixel, row by row from the top, each row from the left.
/// With 0 bits for each pixel, it reads nothing and every value is 0, whatever the size. The contexts begin fresh,
/// whatever `contexts` held. Afterwards `contexts` holds what the last plane leaves. MMR data and a side that is
/// refused do not change it. After an error, no more steps were taken than some of the highest planes take, or all.
/// One plane is kept at a time, beside the values. Each plane's bitmap counts its words as cleared.
///
/// Returns `OverflowError::BitmapDimension` for a side above 65535 with at least 1 bit for each pixel; in strict mode
/// `RegionError::InvalidMmrData` where MMR data has a fault or lacks a row; `OutOfMemory`. Only after this last error
/// the content of `contexts` is not specified.
pub fn decode_gray_scale_image<M: Allocator, A: Allocator + Clone, B: Allocator, L: Ledger>(
    alloc: A,
    bytes: &[u8],
    params: &GrayScaleParams<'_, M>,
    contexts: &mut Vec<ArithmeticDecoderContext, B>,
    steps: &mut Steps<L>,
) -> Result<Vec<u32, A>>
    requires { params.now.bits_per_pixel ≤ 32 }
    ensures value { Gives (λ values. values.items) result
        (gray_scale_image (gray_view params.now) bytes.now) }
    ensures contexts { Leaves result contexts.new.items
        (gray_contexts (gray_view params.now) bytes.now contexts.old.items) }
    ensures steps { OnOk result (CountsImage (gray_view params.now) bytes.now steps.old steps.new) }
    ensures stopped { OnErr result
        (StopsImage (gray_view params.now) bytes.now steps.old steps.new) }
    ensures lanes { OnOk result (CountsLanes (gray_view params.now) steps.old steps.new) }
    ensures cleared { OnOk result (steps.new.cleared
        ≡ steps.old.cleared + cleared_by_planes (gray_view params.now)) }
    ensures most { steps.new.cleared
        ≤ steps.old.cleared + cleared_by_planes (gray_view params.now) }
    ensures no_planes { params.now.bits_per_pixel ≡ 0 → steps.new ≡ steps.old }
    ensures paid { let price = price_of_image (gray_view params.now) bytes.now in
        CountsWithin price steps.old steps.new }
    ensures causes { HasCauseOrNoMemory result (BreaksGrayScale (gray_view params.now) bytes.now) }
{
    let too_long = params.width > MAX_DIMENSION || params.height > MAX_DIMENSION;
    if params.bits_per_pixel > 0 && too_long {
        return Err(OverflowError::BitmapDimension.into());
    }
    let mut values = zeros(alloc.clone()?, params.width, params.height)?;
    add_planes(alloc, bytes, params, contexts, &mut values, steps)?;
    Ok(values)
}
