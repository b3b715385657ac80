//! The pixels of refinements' templates (T.88, 6.3.5.3), in the reference and in the region, and the
//! contexts of the decisions that begin their rows (6.3.5.6).
ghost use Rattle.std.specs.Prelude.{◌≡◌, ◌^◌, ◌<◌, true, [], IfSome, None, Some, if◌then◌else◌};
ghost use Rattle.jbig2_region.specs.RefinementTemplates.{is_nominal};
ghost use Rattle.jbig2_region.specs.RefinementTemplates.{reference_pixels, refinement_bits, refinement_row_context, region_pixels};
ghost use Rattle.jbig2_region.specs.inner.PixelArrays.{two_pixels};
ghost use Rattle.jbig2_region.specs.inner.RefinementWindows.{corners};
ghost use Rattle.jbig2_region.specs.declared.template.RefinementTemplate.TheVariants.{Template0, Template1};

use crate::template::{AdaptiveTemplatePixel, RefinementTemplate, lies_at, pixel};

/// The reference's pixels in template 0, bit 0 of a context first (Figure 12).
pub fn reference_0(a: &[AdaptiveTemplatePixel; 2]) -> [AdaptiveTemplatePixel; 9]
    ensures { result ≡ reference_pixels Template0 (two_pixels Template0 a.now) }
{
    [
        pixel(1, 1),
        pixel(0, 1),
        pixel(-1, 1),
        pixel(1, 0),
        pixel(0, 0),
        pixel(-1, 0),
        pixel(1, -1),
        pixel(0, -1),
        a[1],
    ]
}

/// The region's pixels in template 0. Their bits follow.
pub fn region_0(a: &[AdaptiveTemplatePixel; 2]) -> [AdaptiveTemplatePixel; 4]
    ensures { result ≡ region_pixels Template0 (two_pixels Template0 a.now) }
{
    [pixel(-1, 0), pixel(1, -1), pixel(0, -1), a[0]]
}

/// The reference's pixels in template 1 (Figure 13).
pub fn reference_1() -> [AdaptiveTemplatePixel; 6]
    ensures { result ≡ reference_pixels Template1 [] }
{
    [
        pixel(1, 1),
        pixel(0, 1),
        pixel(1, 0),
        pixel(0, 0),
        pixel(-1, 0),
        pixel(0, -1),
    ]
}

/// The region's pixels in template 1.
pub fn region_1() -> [AdaptiveTemplatePixel; 4]
    ensures { result ≡ region_pixels Template1 [] }
{
    [pixel(-1, 0), pixel(1, -1), pixel(0, -1), pixel(-1, -1)]
}

/// Whether the adaptive pixels lie where the standard has them by default (Figure 12). Template 1 has
/// none.
pub fn is_nominal(template: RefinementTemplate, a: &[AdaptiveTemplatePixel; 2]) -> bool
    ensures value { result ≡ is_nominal template (two_pixels template a.now) }
    ensures reference { result ≡ true
        → reference_pixels template (two_pixels template a.now)
        ≡ reference_pixels template corners }
    ensures region { result ≡ true
        → region_pixels template (two_pixels template a.now) ≡ region_pixels template corners }
{
    match template {
        RefinementTemplate::Template0 => lies_at(a[0], -1, -1) && lies_at(a[1], -1, -1),
        RefinementTemplate::Template1 => true,
    }
}

/// The context of the decision that begins a row under typical prediction (T.88, 6.3.5.6).
fn row_context(template: RefinementTemplate) -> u32
    ensures value { result ≡ refinement_row_context template }
    ensures small { result < 2 ^ refinement_bits template }
{
    match template {
        RefinementTemplate::Template0 => 0x0010,
        RefinementTemplate::Template1 => 0x0008,
    }
}

/// With typical prediction, the number of the context of the decision that begins a row.
pub fn typical_context(template: RefinementTemplate, typical: bool) -> Option<u32>
    ensures value { result ≡ (if typical then Some (refinement_row_context template) else None) }
    ensures small { IfSome result (λ k. k < 2 ^ refinement_bits template) }
{
    if typical {
        return Some(row_context(template));
    }
    None
}
