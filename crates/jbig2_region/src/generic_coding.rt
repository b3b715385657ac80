//! How generic regions are coded (T.88, 6.2.5.3 to 6.2.5.7): their contexts, and the pixels that take no
//! decision.
ghost use Rattle.std.specs.Prelude.{◌≡◌, ◌+◌, ◌*◌, ◌^◌, ◌<◌, ◌≤◌, length, pos, negsuc, ◌+ℤ◌, false};
ghost use Rattle.jbig2_base.specs.Grid.{pixel};
ghost use Rattle.jbig2_base.specs.Bits.{bit_number};
ghost use Rattle.jbig2_region.specs.inner.RegionStates.{DecodesRegion, IsReady, region_state, source_of};
ghost use Rattle.jbig2_region.specs.Generic.{context_at, coding_of, masked_coding, white_if_skipped};
ghost use Rattle.jbig2_region.specs.inner.RegionViews.{skip_of};
ghost use Rattle.jbig2_region.specs.GenericSteps.{CountsCoded, read_pixels};
ghost use Rattle.jbig2_region.specs.Steps.{CountsRegion, CountsWholeRows};
ghost use Rattle.jbig2_region.specs.Templates.{FitsTemplate, context_bits, is_nominal, template_pixels};
ghost use Rattle.jbig2_region.specs.inner.PixelArrays.{four_pixels, is_extended, pixels_view};
ghost use Rattle.jbig2_region.specs.WholeRows.{whole_rows};

use crate::generic_kernel::decode_layout;
use crate::pixel_context::context_at;
use crate::raster::{PixelCoding, Row, count_whole_rows, decode_region, pixel_at};
use crate::template::generic::{extended_template_0, typical_context};
use crate::template::layouts::layout_of;
use crate::template::pixels::TemplatePixels;
use crate::template::{AdaptiveTemplatePixel, GenericTemplatePixels, Template};
use jbig2_base::bitmap::Bitmap;
use jbig2_coder::arithmetic_decoder::{ArithmeticDecoder, ArithmeticDecoderContext};
use jbig2_steps::Steps;
use std::alloc::Allocator;
use std::sync::ledger::Ledger;

/// The colour of the pixel above, which a pixel of a predicted row takes.
#[inline(always)]
fn colour_above<A: Allocator, L: Ledger>(
    bitmap: &Bitmap<A>,
    x: u32,
    y: u32,
    steps: &mut Steps<L>,
) -> bool
    requires column { x < 65536 }
    requires row { y < 65536 }
    ensures value { result ≡ pixel bitmap.now (pos x) (pos y +ℤ negsuc 0) }
    ensures steps { steps.new ≡ record steps.old { loads = steps.old.loads + 1 } }
{
    pixel_at(bitmap, x as i32, y as i32 - 1, steps) == 1
}

/// White if the pixel at column `x` of row `y` is skipped.
#[inline(always)]
fn white_if_skipped<M: Allocator, L: Ledger>(
    skip: Option<&Bitmap<M>>,
    x: u32,
    y: u32,
    steps: &mut Steps<L>,
) -> Option<bool>
    ensures value { result ≡ white_if_skipped (skip_of skip.entry) x y }
    ensures loads { steps.new.loads ≤ steps.old.loads + 1 }
    ensures steps { steps.new ≡ record steps.old { loads = steps.new.loads } }
{
    let mask = skip?;
    if mask.get_pixel(x, y, steps) == 1 {
        return Some(false);
    }
    None
}

/// How a generic region is coded.
#[derive(Drop)]
pub struct GenericCoding<'a, M: Allocator> {
    pub template: Template,
    /// Whether typical prediction is on.
    pub typical: bool,
    /// All of the template's pixels, bit 0 of a context first.
    pub pixels: &'a [AdaptiveTemplatePixel],
    /// Black where a pixel is skipped.
    pub skip: Option<&'a Bitmap<M>>,
    ghost all: { length pixels.now ≡ context_bits template },
}

impl<M: Allocator> PixelCoding for GenericCoding<'_, M> {
    ghost use Rattle.jbig2_region.specs.Generic.{masked_coding};
    ghost use Rattle.jbig2_region.specs.inner.RegionViews.{skip_of};
    ghost use Rattle.jbig2_region.specs.Templates.{context_bits};

    ghost coding = { λ c. masked_coding c.typical c.template c.pixels.now (skip_of c.skip) };

    ghost bits = { λ c. context_bits c.template };

    ghost known_loads = { λ c. 1 };

    #[inline(always)]
    fn context<A: Allocator, L: Ledger>(
        &self,
        bitmap: &Bitmap<A>,
        x: u32,
        y: u32,
        steps: &mut Steps<L>,
    ) -> u32 {
        context_at(self.pixels, bitmap, x, y, steps)
    }

    #[inline(always)]
    fn known_colour<A: Allocator, L: Ledger>(
        &self,
        row: Row,
        x: u32,
        bitmap: &Bitmap<A>,
        steps: &mut Steps<L>,
    ) -> Option<bool> {
        if row.predicted {
            return Some(colour_above(bitmap, x, row.y, steps));
        }
        white_if_skipped(self.skip, x, row.y, steps)
    }

    fn row_context(&self) -> Option<u32> {
        typical_context(self.template, self.typical)
    }
}

/// Decodes a region that the arithmetic coder wrote, into a white bitmap of its size. The coder and the
/// contexts go on from their present state. Takes no memory.
pub fn decode_coded<A: Allocator, L: Ledger>(
    template: Template,
    typical: bool,
    adaptive: &GenericTemplatePixels,
    bitmap: &mut Bitmap<A>,
    decoder: &mut ArithmeticDecoder<'_>,
    contexts: &mut [ArithmeticDecoderContext],
    steps: &mut Steps<L>,
)
    requires fits { FitsTemplate (is_extended adaptive.now) template }
    requires ready { IsReady (context_bits template) bitmap.old contexts.old }
    ensures region { let extended = is_extended adaptive.now in
        let pixels = template_pixels extended template (pixels_view false template adaptive.now) in
        DecodesRegion (coding_of typical template pixels)
        (region_state bitmap.old decoder.old contexts.old)
        (region_state bitmap.new decoder.new contexts.new) }
    ensures steps { let extended = is_extended adaptive.now in
        let used = pixels_view false template adaptive.now in
        let pixels = template_pixels extended template used in
        CountsCoded extended template used (coding_of typical template pixels)
        (source_of (region_state bitmap.old decoder.old contexts.old)) steps.old steps.new }
{
    match adaptive {
        GenericTemplatePixels::Extended(a) => {
            let coding = GenericCoding {
                template,
                typical,
                pixels: &extended_template_0(a),
                skip: None::<&Bitmap<A>>,
            };
            decode_region(&coding, bitmap, decoder, contexts, steps);
        }
        GenericTemplatePixels::Regular(a) => {
            let layout = layout_of(template, a);
            let row_context = typical_context(template, typical);
            decode_layout(&layout, row_context, bitmap, decoder, contexts, steps);
        }
    }
}

/// Counts the whole rows of a region, as `count_whole_rows` does. A pixel that is black in `skip` is
/// skipped.
pub fn count_regular_rows<M: Allocator, A: Allocator, L: Ledger>(
    template: Template,
    typical: bool,
    adaptive: &[AdaptiveTemplatePixel; 4],
    skip: Option<&Bitmap<M>>,
    bitmap: &mut Bitmap<A>,
    decoder: &mut ArithmeticDecoder<'_>,
    contexts: &mut [ArithmeticDecoderContext],
    steps: &mut Steps<L>,
) -> u32
    requires ready { IsReady (context_bits template) bitmap.old contexts.old }
    requires some { 1 ≤ bitmap.old.width }
    ensures rows { let pixels = template_pixels false template (four_pixels template adaptive.now) in
        result ≡ whole_rows (masked_coding typical template pixels (skip_of skip.entry))
        (source_of (region_state bitmap.old decoder.old contexts.old)) bitmap.old.height }
    ensures steps { CountsWholeRows (bitmap.old.width * (context_bits template + 1))
        (source_of (region_state bitmap.old decoder.old contexts.old)) steps.old steps.new }
{
    let pixels = TemplatePixels::regular(template, adaptive);
    let coding = GenericCoding {
        template,
        typical,
        pixels: pixels.as_slice(),
        skip,
    };
    count_whole_rows(&coding, bitmap, decoder, contexts, steps)
}

/// Counts the whole rows of a region, as `count_whole_rows` does.
pub(crate) fn count_coded_rows<A: Allocator, L: Ledger>(
    template: Template,
    typical: bool,
    adaptive: &GenericTemplatePixels,
    bitmap: &mut Bitmap<A>,
    decoder: &mut ArithmeticDecoder<'_>,
    contexts: &mut [ArithmeticDecoderContext],
    steps: &mut Steps<L>,
) -> u32
    requires fits { FitsTemplate (is_extended adaptive.now) template }
    requires ready { IsReady (context_bits template) bitmap.old contexts.old }
    requires some { 1 ≤ bitmap.old.width }
    ensures rows { let extended = is_extended adaptive.now in
        let pixels = template_pixels extended template (pixels_view false template adaptive.now) in
        result ≡ whole_rows (coding_of typical template pixels)
        (source_of (region_state bitmap.old decoder.old contexts.old)) bitmap.old.height }
    ensures steps { CountsWholeRows (bitmap.old.width * (context_bits template + 1))
        (source_of (region_state bitmap.old decoder.old contexts.old)) steps.old steps.new }
{
    match adaptive {
        GenericTemplatePixels::Extended(a) => {
            let coding = GenericCoding {
                template,
                typical,
                pixels: &extended_template_0(a),
                skip: None::<&Bitmap<A>>,
            };
            count_whole_rows(&coding, bitmap, decoder, contexts, steps)
        }
        GenericTemplatePixels::Regular(a) => {
            let pixels = TemplatePixels::regular(template, a);
            let coding = GenericCoding {
                template,
                typical,
                pixels: pixels.as_slice(),
                skip: None::<&Bitmap<A>>,
            };
            count_whole_rows(&coding, bitmap, decoder, contexts, steps)
        }
    }
}
