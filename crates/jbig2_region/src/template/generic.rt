//! Parts of the templates of generic regions (T.88, 6.2.5.3): the pixels of the extended one, and
//! the contexts of the decisions that begin rows (6.2.5.7).
ghost use Rattle.std.specs.Prelude.{◌≡◌, ◌^◌, ◌<◌, if◌then◌else◌, take, true, Some, None, IfSome};
ghost use Rattle.jbig2_region.specs.Templates.{context_bits, row_context, template_pixels};
ghost use Rattle.jbig2_region.specs.declared.template.Template.TheVariants.{Template0};

use crate::template::{AdaptiveTemplatePixel, Template, pixel};

/// The pixels of the extended template 0.
#[tactic(auto, using(crate::proofs::UsedPixels::same_twelve))]
pub fn extended_template_0(a: &[AdaptiveTemplatePixel; 12]) -> [AdaptiveTemplatePixel; 16]
    ensures { result ≡ template_pixels true Template0 (take 12 a.now) }
{
    [
        pixel(-1, 0),
        a[0],
        a[6],
        a[7],
        a[9],
        a[5],
        pixel(1, -1),
        pixel(0, -1),
        pixel(-1, -1),
        a[2],
        a[11],
        a[8],
        a[4],
        a[1],
        a[3],
        a[10],
    ]
}

/// The context of the decision that begins a row with typical prediction, else None.
pub fn typical_context(template: Template, typical: bool) -> Option<u32>
    ensures value { result ≡ (if typical then Some (row_context template) else None) }
    ensures small { IfSome result (λ k. k < 2 ^ context_bits template) }
{
    if typical {
        return Some(u32::from(template.row_context()));
    }
    None
}
