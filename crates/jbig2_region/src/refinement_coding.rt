//! Decodes refinements, and makes their contexts (T.88, 6.3.5.3 to 6.3.5.6).
ghost use Rattle.std.specs.Prelude.{◌≡◌, ◌+◌, ◌*◌, ◌^◌, ◌<◌, ◌≤◌, ◌++◌, Bool, List, length, map, pos, ◌+ℤ◌, ◌-ℤ◌, ◌<ℤ◌};
ghost use Rattle.jbig2_base.specs.Grid.{pixel};
ghost use Rattle.jbig2_base.specs.Bits.{bit_number, number_of};
ghost use Rattle.jbig2_region.specs.Steps.{CountsDecided, CountsWholeRows};
ghost use Rattle.jbig2_region.specs.Steps.{refinement_loads};
ghost use Rattle.jbig2_region.specs.inner.RegionStates.{DecodesRegion, IsReady, region_state, source_of};
ghost use Rattle.jbig2_region.specs.inner.ReferenceViews.{reference_view};
ghost use Rattle.jbig2_region.specs.Refinement.{nine, common_colour, reference_pixel, refinement_coding};
ghost use Rattle.jbig2_region.specs.RefinementTemplates.{refinement_bits};
ghost use Rattle.jbig2_region.specs.inner.PixelArrays.{two_pixels};
ghost use Rattle.jbig2_region.specs.WholeRows.{whole_rows};

use crate::pixel_context::context_at;
use crate::raster::{PixelCoding, Row, count_whole_rows, decode_region, far_pixel};
use crate::reference_bitmap::ReferenceBitmap;
use crate::refinement_kernel::{WindowedCoding, decode_windowed};
use crate::template::refinement::{
    is_nominal, reference_0, reference_1, region_0, region_1, typical_context,
};
use crate::template::{AdaptiveTemplatePixel, RefinementTemplate, pixel};
use jbig2_base::bitmap::Bitmap;
use jbig2_coder::arithmetic_decoder::{ArithmeticDecoder, ArithmeticDecoderContext};
use jbig2_steps::Steps;
use std::alloc::Allocator;
use std::sync::ledger::Ledger;

/// A pixel and the eight around it.
#[inline(always)]
fn nine() -> [AdaptiveTemplatePixel; 9]
    ensures { result ≡ nine }
{
    [
        pixel(-1, -1),
        pixel(0, -1),
        pixel(1, -1),
        pixel(-1, 0),
        pixel(0, 0),
        pixel(1, 0),
        pixel(-1, 1),
        pixel(0, 1),
        pixel(1, 1),
    ]
}

/// The reference's column (or row) of a template's pixel that lies `apart` columns (or rows) after
/// column (or row) `place` of the region. The reference's first column (or row) lies at column (or
/// row) `offset` of the region.
#[inline(always)]
fn along(place: u32, offset: i32, apart: i16) -> i64
    requires { place < 65536 }
    ensures value { result ≡ pos place -ℤ offset +ℤ apart }
    ensures below { result <ℤ pos (2 ^ 32) }
{
    i64::from(place) - i64::from(offset) + i64::from(apart)
}

/// How a region is refined.
#[derive(Drop)]
struct RefinementCoding<'a, B: Allocator> {
    template: RefinementTemplate,
    /// Whether typical prediction is on.
    typical: bool,
    reference: &'a ReferenceBitmap<'a, B>,
    /// The template's pixels in the reference, bit 0 of a context first.
    in_reference: &'a [AdaptiveTemplatePixel],
    /// The template's pixels in the region, whose bits follow.
    in_region: &'a [AdaptiveTemplatePixel],
    ghost all: { length in_reference.now + length in_region.now ≡ refinement_bits template },
    ghost four: { length in_region.now ≡ 4 },
}

impl<B: Allocator> RefinementCoding<'_, B> {
    /// The template's pixel at `place` in the reference, seen from column `x` of row `y` of the
    /// region.
    #[inline(always)]
    fn reference_pixel<L: Ledger>(
        &self,
        x: u32,
        y: u32,
        place: AdaptiveTemplatePixel,
        steps: &mut Steps<L>,
    ) -> u8
        requires column { x < 65536 }
        requires row { y < 65536 }
        ensures value { result ≡ bit_number
            (reference_pixel (reference_view self.now.reference.now) x y place) }
        ensures steps { steps.new ≡ record steps.old { loads = steps.old.loads + 1 } }
    {
        far_pixel(
            self.reference.bitmap,
            along(x, self.reference.dx, place.x),
            along(y, self.reference.dy, place.y),
            steps,
        )
    }

    /// The number that these pixels of the reference make, bit 0 first, with `high` in the bits
    /// after them.
    #[inline(always)]
    fn number<L: Ledger>(
        &self,
        pixels: &[AdaptiveTemplatePixel],
        high: u32,
        x: u32,
        y: u32,
        steps: &mut Steps<L>,
    ) -> u32
        requires column { x < 65536 }
        requires row { y < 65536 }
        requires few { length pixels.now ≤ 9 }
        requires high { high < 16 }
        ensures value { (bits : List Bool) → high ≡ number_of bits
            → result ≡ number_of
            (map (reference_pixel (reference_view self.now.reference.now) x y) pixels.now ++ bits) }
        ensures steps { steps.new
            ≡ record steps.old { loads = steps.old.loads + length pixels.now } }
    {
        let mut number = high;
        let mut left = pixels.len();
        while left > 0 {
            left -= 1;
            number = 2 * number + u32::from(self.reference_pixel(x, y, pixels[left], steps));
        }
        number
    }

    /// The common colour of the reference's nine pixels around column `x` of row `y` of the region,
    /// if they have one.
    #[inline(always)]
    fn common_colour<L: Ledger>(&self, x: u32, y: u32, steps: &mut Steps<L>) -> Option<bool>
        requires column { x < 65536 }
        requires row { y < 65536 }
        ensures value { result ≡ common_colour (reference_view self.now.reference.now) x y }
        ensures steps { steps.new ≡ record steps.old { loads = steps.old.loads + 9 } }
    {
        match self.number(&nine(), 0, x, y, steps) {
            0x1FF => Some(true),
            0 => Some(false),
            _ => None,
        }
    }
}

impl<B: Allocator> PixelCoding for RefinementCoding<'_, B> {
    ghost use Rattle.jbig2_region.specs.Refinement.{refined_coding};
    ghost use Rattle.jbig2_region.specs.RefinementTemplates.{refinement_bits};
    ghost use Rattle.jbig2_region.specs.inner.ReferenceViews.{reference_view};

    ghost coding = { λ c. refined_coding c.template c.typical c.in_reference.now c.in_region.now
        (reference_view c.reference.now) };

    ghost bits = { λ c. refinement_bits c.template };

    ghost known_loads = { λ c. 9 };

    #[inline(always)]
    fn context<A: Allocator, L: Ledger>(
        &self,
        bitmap: &Bitmap<A>,
        x: u32,
        y: u32,
        steps: &mut Steps<L>,
    ) -> u32 {
        let high = context_at(self.in_region, bitmap, x, y, steps);
        self.number(self.in_reference, high, x, y, steps)
    }

    #[inline(always)]
    fn known_colour<A: Allocator, L: Ledger>(
        &self,
        row: Row,
        x: u32,
        _bitmap: &Bitmap<A>,
        steps: &mut Steps<L>,
    ) -> Option<bool> {
        if !row.predicted {
            return None;
        }
        self.common_colour(x, row.y, steps)
    }

    fn row_context(&self) -> Option<u32> {
        typical_context(self.template, self.typical)
    }
}

/// Refines `reference` (T.88, 6.3) into a white bitmap of the region's size. The coder and the
/// contexts go on from their present state. Takes no memory.
pub fn decode_bitmap<A: Allocator, B: Allocator, L: Ledger>(
    template: RefinementTemplate,
    typical: bool,
    adaptive: &[AdaptiveTemplatePixel; 2],
    reference: &ReferenceBitmap<'_, B>,
    bitmap: &mut Bitmap<A>,
    decoder: &mut ArithmeticDecoder<'_>,
    contexts: &mut [ArithmeticDecoderContext],
    steps: &mut Steps<L>,
)
    requires { IsReady (refinement_bits template) bitmap.old contexts.old }
    ensures region { let from = reference_view reference.now in
        DecodesRegion (refinement_coding template typical (two_pixels template adaptive.now) from)
        (region_state bitmap.old decoder.old contexts.old)
        (region_state bitmap.new decoder.new contexts.new) }
    ensures steps { let pixels = two_pixels template adaptive.now in
        CountsDecided (refinement_coding template typical pixels (reference_view reference.now))
        (refinement_loads template pixels bitmap.old.width)
        (source_of (region_state bitmap.old decoder.old contexts.old)) steps.old steps.new }
{
    let windowed = WindowedCoding {
        template,
        typical,
        reference,
    };
    match template {
        RefinementTemplate::Template0 => {
            if is_nominal(template, adaptive) {
                decode_windowed(&windowed, bitmap, decoder, contexts, steps);
                return;
            }
            let coding = RefinementCoding {
                template,
                typical,
                reference,
                in_reference: &reference_0(adaptive),
                in_region: &region_0(adaptive),
            };
            decode_region(&coding, bitmap, decoder, contexts, steps);
        }
        RefinementTemplate::Template1 => {
            decode_windowed(&windowed, bitmap, decoder, contexts, steps);
        }
    }
}

/// Counts the whole rows of a refinement, as `count_whole_rows` does.
pub(crate) fn count_refined_rows<A: Allocator, B: Allocator, L: Ledger>(
    template: RefinementTemplate,
    typical: bool,
    adaptive: &[AdaptiveTemplatePixel; 2],
    reference: &ReferenceBitmap<'_, B>,
    bitmap: &mut Bitmap<A>,
    decoder: &mut ArithmeticDecoder<'_>,
    contexts: &mut [ArithmeticDecoderContext],
    steps: &mut Steps<L>,
) -> u32
    requires ready { IsReady (refinement_bits template) bitmap.old contexts.old }
    requires some { 1 ≤ bitmap.old.width }
    ensures rows { let from = reference_view reference.now in
        result ≡ whole_rows
        (refinement_coding template typical (two_pixels template adaptive.now) from)
        (source_of (region_state bitmap.old decoder.old contexts.old)) bitmap.old.height }
    ensures steps { CountsWholeRows (bitmap.old.width * (refinement_bits template + 9))
        (source_of (region_state bitmap.old decoder.old contexts.old)) steps.old steps.new }
{
    match template {
        RefinementTemplate::Template0 => {
            let coding = RefinementCoding {
                template,
                typical,
                reference,
                in_reference: &reference_0(adaptive),
                in_region: &region_0(adaptive),
            };
            count_whole_rows(&coding, bitmap, decoder, contexts, steps)
        }
        RefinementTemplate::Template1 => {
            let coding = RefinementCoding {
                template,
                typical,
                reference,
                in_reference: &reference_1(),
                in_region: &region_1(),
            };
            count_whole_rows(&coding, bitmap, decoder, contexts, steps)
        }
    }
}
