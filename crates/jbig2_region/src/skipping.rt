//! Decodes generic regions with skipped pixels (T.88, 6.2.5.7), such as planes of a gray-scale
//! image.
ghost use Rattle.std.specs.Prelude.{◌≡◌, false, true};
ghost use Rattle.jbig2_region.specs.inner.RegionStates.{DecodesRegion, IsReady, region_state};
ghost use Rattle.jbig2_region.specs.Steps.{CountsSkipping};
ghost use Rattle.jbig2_region.specs.inner.RegionViews.{skip_of};
ghost use Rattle.jbig2_region.specs.Generic.{skipping_coding};
ghost use Rattle.jbig2_region.specs.Templates.{context_bits, is_nominal, template_pixels};
ghost use Rattle.jbig2_region.specs.inner.PixelArrays.{four_pixels};

mod rows;

use crate::generic_coding::GenericCoding;
use crate::raster::decode_region;
use crate::skipping::rows::decode_rows;
use crate::template::layouts::layout_of;
use crate::template::pixels::TemplatePixels;
use crate::template::{AdaptiveTemplatePixel, Template};
use jbig2_base::bitmap::Bitmap;
use jbig2_coder::arithmetic_decoder::{ArithmeticDecoder, ArithmeticDecoderContext};
use jbig2_steps::Steps;
use std::alloc::Allocator;
use std::sync::ledger::Ledger;

/// Decodes a region that the arithmetic coder wrote, without typical prediction, into a white bitmap
/// of its size. A pixel that is black in `skip` stays white and takes no decision. The decoder and
/// the contexts are left as the region leaves them, for what the coder wrote after it. If the
/// adaptive pixels are nominal, contexts come from windows; else they are read pixel by pixel.
pub fn decode_skipping<M: Allocator, A: Allocator, L: Ledger>(
    template: Template,
    adaptive: &[AdaptiveTemplatePixel; 4],
    skip: Option<&Bitmap<M>>,
    bitmap: &mut Bitmap<A>,
    decoder: &mut ArithmeticDecoder<'_>,
    contexts: &mut [ArithmeticDecoderContext],
    steps: &mut Steps<L>,
)
    requires { IsReady (context_bits template) bitmap.old contexts.old }
    ensures region { let used = four_pixels template adaptive.now in
        let pixels = template_pixels false template used in
        DecodesRegion (skipping_coding pixels (skip_of skip.entry))
        (region_state bitmap.old decoder.old contexts.old)
        (region_state bitmap.new decoder.new contexts.new) }
    ensures steps { is_nominal template (four_pixels template adaptive.now) ≡ true
        → CountsSkipping (skip_of skip.entry) bitmap.old.width bitmap.old.height steps.old
        steps.new }
{
    let layout = layout_of(template, adaptive);
    if layout.adaptive.is_none() {
        decode_rows(layout.neighbours, skip, bitmap, decoder, contexts, steps);
        return;
    }
    let pixels = TemplatePixels::regular(template, adaptive);
    let coding = GenericCoding {
        template,
        typical: false,
        pixels: pixels.as_slice(),
        skip,
    };
    decode_region(&coding, bitmap, decoder, contexts, steps);
}
