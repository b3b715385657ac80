//! Refinements of symbols, with contexts that are lent (T.88, 6.4.11).
ghost use Rattle.std.specs.Prelude.{◌≡◌, ◌*◌, ◌≤◌, ◌^◌, length, false, Ok};
ghost use Rattle.jbig2_base.specs.Results.{Gives};
ghost use Rattle.jbig2_base.specs.Grid.{blank, max_side};
ghost use Rattle.jbig2_region.specs.RefinementTemplates.{refinement_bits};
ghost use Rattle.jbig2_region.specs.inner.PixelArrays.{two_pixels, pixel_array};
ghost use Rattle.jbig2_region.specs.inner.ReferenceViews.{reference_view};
ghost use Rattle.jbig2_steps.specs.Work.{PaidBeside, paid_words, price_of_bitmap};
ghost use Rattle.jbig2_text.specs.Refining.{refined_with};
ghost use Rattle.jbig2_text.specs.inner.TextViews.{some_pixels};
ghost use Rattle.jbig2_text.specs.inner.FunctionResults.{fresh_refining, refining_by};

use jbig2_base::bitmap::Bitmap;
use jbig2_base::error::Result;
use jbig2_coder::arithmetic_decoder::{
    ArithmeticDecoder, ArithmeticDecoderContext, fresh_contexts,
};
use jbig2_region::generic_refinement::decode_bitmap;
use jbig2_region::reference_bitmap::ReferenceBitmap;
use jbig2_region::template::{AdaptiveTemplatePixel, RefinementTemplate};
use jbig2_steps::Work;
use std::alloc::Allocator;
use std::marker::Model;
use std::sync::ledger::Ledger;

/// How symbols are refined, and what the contexts have learned so far.
#[derive(Drop)]
pub struct Refining<A: Allocator> {
    template: RefinementTemplate,
    /// `None` where the template has no adaptive pixels, or no symbol is refined.
    pixels: Option<[AdaptiveTemplatePixel; 2]>,
    contexts: Vec<ArithmeticDecoderContext, A>,
}

impl<A: Allocator> Model for Refining<A> {
    ghost use Rattle.std.specs.Prelude.{◌≡◌, ◌^◌, length};
    ghost use Rattle.jbig2_region.specs.RefinementTemplates.{refinement_bits};
    ghost use Rattle.jbig2_text.specs.Refining.{Refining};
    ghost use Rattle.jbig2_text.specs.inner.TextViews.{some_pixels};

    ghost Value = { Refining };

    ghost view = { λ r.
        let pixels = some_pixels r.pixels in
        record { template = r.template; pixels = pixels; contexts = r.contexts.items } };

    ghost invariant = { λ r. length r.contexts.items ≡ 2 ^ refinement_bits r.template };
}

/// The two adaptive pixels, if the template has any.
pub fn pixels_of_template(
    template: RefinementTemplate,
    pixels: [AdaptiveTemplatePixel; 2],
) -> Option<[AdaptiveTemplatePixel; 2]>
    ensures { some_pixels result ≡ two_pixels template pixels }
{
    match template {
        RefinementTemplate::Template0 => Some(pixels),
        RefinementTemplate::Template1 => None,
    }
}

impl<A: Allocator> Refining<A> {
    /// Refinements with fresh contexts and these adaptive pixels, if there are any.
    ///
    /// # Errors
    /// `OutOfMemory` where there is no memory for the contexts.
    pub fn fresh(
        alloc: A,
        template: RefinementTemplate,
        pixels: Option<[AdaptiveTemplatePixel; 2]>,
    ) -> Result<Refining<A>>
        ensures { let meant = fresh_refining template (some_pixels pixels) in
            Gives (λ r. r) result (Ok meant) }
    {
        let mut contexts = Vec::new(alloc);
        fresh_contexts(&mut contexts, template.context_bits())?;
        Ok(Refining {
            template,
            pixels,
            contexts,
        })
    }

    /// Refinements with contexts that have learned, as many as the template has, and these adaptive
    /// pixels, if any.
    pub fn with_contexts(
        template: RefinementTemplate,
        pixels: Option<[AdaptiveTemplatePixel; 2]>,
        contexts: Vec<ArithmeticDecoderContext, A>,
    ) -> Refining<A>
        requires { length contexts.items ≡ 2 ^ refinement_bits template }
        ensures { result ≡ refining_by template (some_pixels pixels) contexts.items }
    {
        Refining {
            template,
            pixels,
            contexts,
        }
    }

    /// The allocator of its contexts.
    pub fn allocator(&self) -> &A {
        Vec::allocator(&self.contexts)
    }

    /// The template of its contexts.
    pub fn template(&self) -> RefinementTemplate
        ensures { result ≡ self.now.template }
    {
        self.template
    }

    /// The contexts, with what they have learned.
    pub fn into_contexts(self) -> Vec<ArithmeticDecoderContext, A>
        ensures contexts { result.items ≡ self.contexts }
        ensures all { length result.items ≡ 2 ^ refinement_bits self.template }
    {
        self.contexts
    }

    /// Refines `reference` into a white bitmap. The coder and the contexts go on from their states.
    pub fn refine<L: Ledger>(
        &mut self,
        reference: &ReferenceBitmap<'_, A>,
        bitmap: &mut Bitmap<A>,
        decoder: &mut ArithmeticDecoder<'_>,
        work: &mut Work<L>,
    )
        requires columns { bitmap.old.width ≤ max_side }
        requires rows { bitmap.old.height ≤ max_side }
        requires white { bitmap.old ≡ blank bitmap.old.width bitmap.old.height false }
        ensures value { let from = reference_view reference.now in
            refined_with self.old from bitmap.old.width bitmap.old.height decoder.old
            ≡ record { grid = bitmap.new; coder = decoder.new; refining = self.new } }
        ensures paid { PaidBeside (paid_words bitmap.old.width bitmap.old.height)
            (32 * price_of_bitmap bitmap.old.width bitmap.old.height) work.old work.new }
    {
        refine_by(
            self.template,
            self.pixels,
            &mut self.contexts,
            reference,
            bitmap,
            decoder,
            work,
        );
    }
}

/// The two adaptive pixels. Where there are none, these values are never used.
#[tactic(auto, using(crate::proofs::RefiningLemmas::two_filled))]
fn two_of(pixels: Option<[AdaptiveTemplatePixel; 2]>) -> [AdaptiveTemplatePixel; 2]
    ensures { result ≡ pixel_array 2 (some_pixels pixels) }
{
    match pixels {
        Some(pixels) => [pixels[0], pixels[1]],
        None => [AdaptiveTemplatePixel { x: 0, y: 0 }; 2],
    }
}

/// Refines `reference` with these contexts.
fn refine_by<A: Allocator, L: Ledger>(
    template: RefinementTemplate,
    pixels: Option<[AdaptiveTemplatePixel; 2]>,
    contexts: &mut [ArithmeticDecoderContext],
    reference: &ReferenceBitmap<'_, A>,
    bitmap: &mut Bitmap<A>,
    decoder: &mut ArithmeticDecoder<'_>,
    work: &mut Work<L>,
)
    requires size { length contexts.old ≡ 2 ^ refinement_bits template }
    requires columns { bitmap.old.width ≤ max_side }
    requires rows { bitmap.old.height ≤ max_side }
    requires white { bitmap.old ≡ blank bitmap.old.width bitmap.old.height false }
    ensures grid { let f = refining_by template (some_pixels pixels) contexts.old in
        let from = reference_view reference.now in
        bitmap.new ≡ (refined_with f from bitmap.old.width bitmap.old.height decoder.old).grid }
    ensures coder { let f = refining_by template (some_pixels pixels) contexts.old in
        let from = reference_view reference.now in
        decoder.new ≡ (refined_with f from bitmap.old.width bitmap.old.height decoder.old).coder }
    ensures contexts { let f = refining_by template (some_pixels pixels) contexts.old in
        let from = reference_view reference.now in
        let refined = refined_with f from bitmap.old.width bitmap.old.height decoder.old in
        contexts.new ≡ refined.refining.contexts }
    ensures paid { PaidBeside (paid_words bitmap.old.width bitmap.old.height)
        (32 * price_of_bitmap bitmap.old.width bitmap.old.height) work.old work.new }
{
    let adaptive = two_of(pixels);
    decode_bitmap(
        template,
        false,
        &adaptive,
        reference,
        bitmap,
        decoder,
        contexts,
        &mut work.steps,
    );
}
