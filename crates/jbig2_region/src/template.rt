//! The templates of generic regions (T.88, 6.2.5.3) and of refinements (6.3.5.3), and their adaptive
//! pixels.
ghost use Rattle.std.specs.Prelude.{◌≡◌, ◌%◌, ◌^◌, ◌<◌, pos};
ghost use Rattle.jbig2_region.specs.RefinementTemplates.{refinement_bits, refinement_template_of};
ghost use Rattle.jbig2_region.specs.Templates.{template_of, context_bits, lies_at, nominal_adaptive_pixels, row_context};
ghost use Rattle.jbig2_region.specs.inner.PixelArrays.{pixel_array, four_pixels};

pub(crate) mod adaptive;
pub(crate) mod generic;
pub(crate) mod layouts;
pub(crate) mod neighbours;
pub(crate) mod pixels;
pub(crate) mod refinement;

pub use layouts::nominal_neighbours;
pub use neighbours::{Neighbours, Stretch};

/// Which pixels a context is made from.
#[derive(Clone, Copy, Debug, PartialEq, Eq)]
pub enum Template {
    Template0,
    Template1,
    Template2,
    Template3,
}

impl Template {
    /// The template whose number is in the low two bits of `value`.
    pub fn from_byte(value: u8) -> Template
        ensures { result ≡ template_of (value % 4) }
    {
        match value % 4 {
            0 => Template::Template0,
            1 => Template::Template1,
            2 => Template::Template2,
            _ => Template::Template3,
        }
    }

    /// How many pixels a context is made from.
    pub fn context_bits(self) -> u32
        ensures { result ≡ context_bits self }
    {
        match self {
            Template::Template0 => 16,
            Template::Template1 => 13,
            Template::Template2 | Template::Template3 => 10,
        }
    }

    /// The context of the decision that begins a row under typical prediction (T.88, 6.2.5.7).
    pub fn row_context(self) -> u16
        ensures value { result ≡ row_context self }
        ensures small { result < 2 ^ context_bits self }
    {
        match self {
            Template::Template0 => 0x9B25,
            Template::Template1 => 0x0795,
            Template::Template2 => 0x00E5,
            Template::Template3 => 0x0195,
        }
    }

    /// The adaptive pixels where the standard has them by default (T.88, 6.2.5.4), and (0, 0) for those that the
    /// template does not have.
    pub fn nominal_pixels(self) -> [AdaptiveTemplatePixel; 4]
        ensures all { result ≡ pixel_array 4 (nominal_adaptive_pixels self) }
        ensures used { four_pixels self result ≡ nominal_adaptive_pixels self }
    {
        let unused = AdaptiveTemplatePixel { x: 0, y: 0 };
        let near = AdaptiveTemplatePixel { x: 2, y: -1 };
        let far = AdaptiveTemplatePixel { x: 3, y: -1 };
        let second = AdaptiveTemplatePixel { x: -3, y: -1 };
        let third = AdaptiveTemplatePixel { x: 2, y: -2 };
        let fourth = AdaptiveTemplatePixel { x: -2, y: -2 };
        match self {
            Template::Template0 => [far, second, third, fourth],
            Template::Template1 => [far, unused, unused, unused],
            Template::Template2 | Template::Template3 => [near, unused, unused, unused],
        }
    }
}

/// Which pixels of the reference and of the region a refinement's context is made from.
#[derive(Clone, Copy, Debug, PartialEq, Eq)]
pub enum RefinementTemplate {
    Template0,
    Template1,
}

impl RefinementTemplate {
    /// The template whose number is the low bit of `value`.
    pub fn from_byte(value: u8) -> RefinementTemplate
        ensures { result ≡ refinement_template_of (value % 2) }
    {
        match value % 2 {
            0 => RefinementTemplate::Template0,
            _ => RefinementTemplate::Template1,
        }
    }

    /// How many pixels a context is made from.
    pub fn context_bits(self) -> u32
        ensures { result ≡ refinement_bits self }
    {
        match self {
            RefinementTemplate::Template0 => 13,
            RefinementTemplate::Template1 => 10,
        }
    }
}

/// A template's pixel, by its place relative to the pixel that is decoded: the columns to the right
/// and the rows down. The default is the place of that pixel itself.
#[derive(Clone, Copy, Debug, PartialEq, Eq)]
pub struct AdaptiveTemplatePixel {
    pub x: i16,
    pub y: i16,
}

impl Default for AdaptiveTemplatePixel {
    ghost is_default = { λ place. place ≡ record { x = pos 0; y = pos 0 } };

    fn default() -> AdaptiveTemplatePixel {
        pixel(0, 0)
    }
}

pub(crate) const fn pixel(x: i16, y: i16) -> AdaptiveTemplatePixel
    ensures { result ≡ record { x = x; y = y } }
{
    AdaptiveTemplatePixel { x, y }
}

/// Whether a pixel has this place.
pub(crate) fn lies_at(pixel: AdaptiveTemplatePixel, x: i16, y: i16) -> bool
    ensures { result ≡ lies_at pixel x y }
{
    pixel.x == x && pixel.y == y
}

/// The adaptive pixels of a generic region, A1 first.
#[derive(Clone, Copy, Debug)]
pub enum GenericTemplatePixels {
    /// Four, at template 0. The other templates use only the first.
    Regular([AdaptiveTemplatePixel; 4]),
    /// Twelve, at the extended template 0.
    Extended([AdaptiveTemplatePixel; 12]),
}
