//! The templates of generic regions (T.88, 6.2.5.3), by their neighbours.
ghost use Rattle.std.specs.Prelude.{◌≡◌, [], ◌∷◌, false};
ghost use Rattle.jbig2_region.specs.GenericSteps.{read_pixels};
ghost use Rattle.jbig2_region.specs.inner.Layouts.{FitsAdaptives, fixed_neighbours, is_nominal_layout, IsLayout, layout_count, layout_loads, layout_pixels, neighbours_of, nominal_neighbours};
ghost use Rattle.jbig2_region.specs.Templates.{adaptive, adaptive_pixel_count, context_bits, is_nominal, lies_at, template_pixels};
ghost use Rattle.jbig2_region.specs.inner.PixelArrays.{four_pixels};

use crate::template::neighbours::{Neighbours, Stretch};
use crate::template::{AdaptiveTemplatePixel, Template, lies_at};

/// The adaptive pixels, by the neighbours between which their bits come: after those on the left,
/// after those above, and last.
#[derive(Clone, Copy, Drop)]
pub struct Adaptives<'a> {
    pub first: &'a [AdaptiveTemplatePixel],
    pub middle: &'a [AdaptiveTemplatePixel],
    pub last: &'a [AdaptiveTemplatePixel],
}

/// A template: neighbours, and adaptive pixels. If these are nominal, they are neighbours too.
#[derive(Clone, Copy, Drop)]
pub struct Layout<'a> {
    pub neighbours: Neighbours,
    pub adaptive: Option<Adaptives<'a>>,
}

#[inline(always)]
fn neighbours_of(
    left: u32,
    above_reach: u32,
    above_count: u32,
    top_reach: u32,
    top_count: u32,
) -> Neighbours
    ensures { result ≡ neighbours_of left above_reach above_count top_reach top_count }
{
    Neighbours {
        left,
        above: Stretch {
            reach: above_reach,
            count: above_count,
        },
        top: Stretch {
            reach: top_reach,
            count: top_count,
        },
    }
}

/// The pixels that lie side by side in a template whose adaptive pixels are nominal.
#[inline(always)]
pub fn nominal_neighbours(template: Template) -> Neighbours
    ensures { result ≡ nominal_neighbours template }
{
    match template {
        Template::Template0 => neighbours_of(4, 3, 7, 2, 5),
        Template::Template1 => neighbours_of(3, 3, 6, 2, 4),
        Template::Template2 => neighbours_of(2, 2, 5, 1, 3),
        Template::Template3 => neighbours_of(4, 2, 6, 0, 0),
    }
}

/// The pixels that lie side by side in a template, without its adaptive pixels.
pub fn fixed_neighbours(template: Template) -> Neighbours
    ensures { result ≡ fixed_neighbours template }
{
    match template {
        Template::Template0 => neighbours_of(4, 2, 5, 1, 3),
        Template::Template1 => neighbours_of(3, 2, 5, 2, 4),
        Template::Template2 => neighbours_of(2, 1, 4, 1, 3),
        Template::Template3 => neighbours_of(4, 1, 5, 0, 0),
    }
}

fn lies_with(pixel: AdaptiveTemplatePixel, other: AdaptiveTemplatePixel) -> bool
    ensures { result ≡ lies_at pixel other.x other.y }
{
    lies_at(pixel, other.x, other.y)
}

/// Whether the adaptive pixels lie where the standard has them by default (Figures 3 to 6).
fn is_nominal(template: Template, a: &[AdaptiveTemplatePixel; 4]) -> bool
    ensures { result ≡ is_nominal template a.now }
{
    let [first, second, third, fourth] = template.nominal_pixels();
    match template {
        Template::Template0 => {
            lies_with(a[0], first)
                && (lies_with(a[1], second) && (lies_with(a[2], third) && lies_with(a[3], fourth)))
        }
        _ => lies_with(a[0], first),
    }
}

/// The adaptive pixels of template 0, by the neighbours between which they come.
fn four_adaptives(a: &[AdaptiveTemplatePixel; 4]) -> Adaptives<'_>
    ensures first { result.first.now ≡ adaptive a.now 0 ∷ [] }
    ensures middle { result.middle.now ≡ adaptive a.now 1 ∷ adaptive a.now 2 ∷ [] }
    ensures last { result.last.now ≡ adaptive a.now 3 ∷ [] }
{
    Adaptives {
        first: &a[..1],
        middle: &a[1..3],
        last: &a[3..],
    }
}

/// The adaptive pixel of the other templates.
fn one_adaptive(a: &[AdaptiveTemplatePixel; 4]) -> Adaptives<'_>
    ensures first { result.first.now ≡ adaptive a.now 0 ∷ [] }
    ensures middle { result.middle.now ≡ [] }
    ensures last { result.last.now ≡ [] }
{
    Adaptives {
        first: &a[..1],
        middle: &[],
        last: &[],
    }
}

pub fn adaptives_of(template: Template, a: &[AdaptiveTemplatePixel; 4]) -> Adaptives<'_>
    ensures { FitsAdaptives template a.now result }
{
    match template {
        Template::Template0 => four_adaptives(a),
        Template::Template1 => one_adaptive(a),
        Template::Template2 => one_adaptive(a),
        Template::Template3 => one_adaptive(a),
    }
}

/// The template with adaptive pixels that are read one by one.
#[tactic(auto, using(crate::proofs::UsedPixels::same_pixels))]
pub fn read_layout(template: Template, a: &[AdaptiveTemplatePixel; 4]) -> Layout<'_>
    ensures pixels { layout_pixels result
        ≡ template_pixels false template (four_pixels template a.now) }
    ensures fits { IsLayout result.neighbours result.adaptive }
    ensures count { layout_count result.neighbours result.adaptive ≡ context_bits template }
    ensures nominal { is_nominal_layout result.adaptive ≡ false }
    ensures loads { layout_loads result.adaptive
        ≡ adaptive_pixel_count false false template }
{
    Layout {
        neighbours: fixed_neighbours(template),
        adaptive: Some(adaptives_of(template, a)),
    }
}

/// The template with these adaptive pixels.
#[tactic(auto, using(crate::proofs::UsedPixels::same_pixels, crate::proofs::UsedPixels::same_nominal))]
pub fn layout_of(template: Template, a: &[AdaptiveTemplatePixel; 4]) -> Layout<'_>
    ensures pixels { layout_pixels result
        ≡ template_pixels false template (four_pixels template a.now) }
    ensures fits { IsLayout result.neighbours result.adaptive }
    ensures count { layout_count result.neighbours result.adaptive ≡ context_bits template }
    ensures nominal { is_nominal_layout result.adaptive
        ≡ is_nominal template (four_pixels template a.now) }
    ensures loads { layout_loads result.adaptive
        ≡ read_pixels template (four_pixels template a.now) }
{
    if is_nominal(template, a) {
        return Layout {
            neighbours: nominal_neighbours(template),
            adaptive: None,
        };
    }
    read_layout(template, a)
}
