//! Reads the adaptive pixels of templates from segments (T.88, 7.4.6.3 and 7.4.7.3).
ghost use Rattle.std.specs.Prelude.{◌≡◌, ◌≤◌, false, [], ◌∷◌, length, IfOk, OnOk, ℕ};
ghost use Rattle.jbig2_base.specs.Results.{Returns};
ghost use Rattle.jbig2_base.specs.Fields.{Parses};
ghost use Rattle.jbig2_region.specs.RefinementTemplates.{refinement_pixels_at};
ghost use Rattle.jbig2_region.specs.inner.PixelArrays.{two_pixels, IsFilled, pixel_array, four_pixels, is_extended, pixels_view};
ghost use Rattle.jbig2_region.specs.Templates.{FitsTemplate, adaptive_pixel_at, adaptive_pixel_count, adaptive_pixels_at, free_pixel_at, is_earlier, takes_extended};
ghost use Rattle.jbig2_base.specs.Causes.{HasCause};
ghost use Rattle.jbig2_region.specs.Causes.{BreaksPixels, BreaksRefinementPixels};
ghost use Rattle.jbig2_region.specs.declared.template.RefinementTemplate.{RefinementTemplate};

use crate::template::{AdaptiveTemplatePixel, GenericTemplatePixels, RefinementTemplate, Template};
use jbig2_base::error::{Result, TemplateError};
use jbig2_base::field::i8_field;
use jbig2_base::reader::Reader;

/// Reads a pixel that may lie anywhere.
#[tactic(auto, unfolding(crate::specs::Templates::free_pixel_at))]
fn parse_free_pixel(reader: &mut Reader<'_>) -> Result<AdaptiveTemplatePixel>
    ensures value { Returns (λ pixel. (pixel, reader.new.bytes)) result
        (free_pixel_at reader.old.bytes) }
    ensures shorter { OnOk result (length reader.new.bytes ≤ length reader.old.bytes) }
{
    let x = i16::from(i8_field(reader)?);
    let y = i16::from(i8_field(reader)?);
    Ok(AdaptiveTemplatePixel { x, y })
}

/// Whether a pixel at this place, relative to the pixel that is decoded, is decoded before it.
fn is_earlier(pixel: AdaptiveTemplatePixel) -> bool
    ensures { result ≡ is_earlier pixel }
{
    pixel.y < 0 || (pixel.y <= 0 && pixel.x < 0)
}

/// Reads a pixel, which must come before the one that is decoded.
#[tactic(auto, unfolding(crate::specs::Templates::adaptive_pixel_at))]
fn parse_adaptive_template_pixel(reader: &mut Reader<'_>) -> Result<AdaptiveTemplatePixel>
    ensures value { Returns (λ pixel. (pixel, reader.new.bytes)) result
        (adaptive_pixel_at reader.old.bytes) }
    ensures shorter { OnOk result (length reader.new.bytes ≤ length reader.old.bytes) }
{
    let pixel = parse_free_pixel(reader)?;
    if !is_earlier(pixel) {
        return Err(TemplateError::InvalidAtPixel.into());
    }
    Ok(pixel)
}

fn parse_four(reader: &mut Reader<'_>) -> Result<[AdaptiveTemplatePixel; 4]>
    ensures value { Returns (λ pixels. (pixels, reader.new.bytes)) result
        (adaptive_pixels_at 4 reader.old.bytes) }
    ensures shorter { OnOk result (length reader.new.bytes ≤ length reader.old.bytes) }
{
    let first = parse_adaptive_template_pixel(reader)?;
    let second = parse_adaptive_template_pixel(reader)?;
    let third = parse_adaptive_template_pixel(reader)?;
    let fourth = parse_adaptive_template_pixel(reader)?;
    Ok([first, second, third, fourth])
}

fn parse_twelve(reader: &mut Reader<'_>) -> Result<[AdaptiveTemplatePixel; 12]>
    ensures value { Returns (λ pixels. (pixels, reader.new.bytes)) result
        (adaptive_pixels_at 12 reader.old.bytes) }
    ensures shorter { OnOk result (length reader.new.bytes ≤ length reader.old.bytes) }
{
    let [a1, a2, a3, a4] = parse_four(reader)?;
    let [a5, a6, a7, a8] = parse_four(reader)?;
    let [a9, a10, a11, a12] = parse_four(reader)?;
    Ok([a1, a2, a3, a4, a5, a6, a7, a8, a9, a10, a11, a12])
}

/// Four pixels, of which only the first is used.
fn first_alone(first: AdaptiveTemplatePixel) -> [AdaptiveTemplatePixel; 4]
    ensures { result ≡ pixel_array 4 (first ∷ []) }
{
    let unused = AdaptiveTemplatePixel { x: 0, y: 0 };
    [first, unused, unused, unused]
}

/// Reads the adaptive pixels of a template that is not extended, at the reader's place (T.88,
/// 7.4.6.3). Templates 1 to 3 have only the first; the other three are then at (0, 0) and not used.
///
/// Returns `ParseError::UnexpectedEof` if there are too few bytes, or `TemplateError::InvalidAtPixel`
/// if a pixel does not come before the one that is decoded. An error leaves the reader where it was.
/// Takes no memory.
pub fn parse_adaptive_template_pixels(
    reader: &mut Reader<'_>,
    template: Template,
) -> Result<[AdaptiveTemplatePixel; 4]>
    ensures parses { Parses reader.old reader.new result (four_pixels template)
        (adaptive_pixels_at (adaptive_pixel_count false false template) reader.old.bytes) }
    ensures unused { IfOk result (λ pixels. pixels ≡ pixel_array 4 (four_pixels template pixels)) }
{
    let mut ahead = reader.duplicate();
    let pixels = match template {
        Template::Template0 => parse_four(&mut ahead)?,
        _ => first_alone(parse_adaptive_template_pixel(&mut ahead)?),
    };
    *reader = Reader::new(ahead.tail());
    Ok(pixels)
}

/// Reads all adaptive pixels of a generic region: none with MMR, twelve with extended template 0.
#[tactic(auto, using(crate::proofs::PixelCauses::template_pixels_cause))]
pub fn parse_generic_template_pixels(
    reader: &mut Reader<'_>,
    mmr: bool,
    extended: bool,
    template: Template,
) -> Result<GenericTemplatePixels>
    ensures value { let count = adaptive_pixel_count mmr extended template in
        Returns (λ pixels. (pixels_view mmr template pixels, reader.new.bytes)) result
        (adaptive_pixels_at count reader.old.bytes) }
    ensures extended { let taken = takes_extended mmr extended template in
        IfOk result (λ pixels. is_extended pixels ≡ taken) }
    ensures causes { let count = adaptive_pixel_count mmr extended template in
        HasCause result (BreaksPixels count 0 reader.old.bytes) }
    ensures shorter { OnOk result (length reader.new.bytes ≤ length reader.old.bytes) }
    ensures unused { IfOk result (λ pixels. IsFilled pixels (pixels_view mmr template pixels)) }
    ensures fits { IfOk result (λ pixels. FitsTemplate (is_extended pixels) template) }
{
    if mmr {
        let unused = AdaptiveTemplatePixel { x: 0, y: 0 };
        return Ok(GenericTemplatePixels::Regular(first_alone(unused)));
    }
    if extended && template == Template::Template0 {
        return Ok(GenericTemplatePixels::Extended(parse_twelve(reader)?));
    }
    Ok(GenericTemplatePixels::Regular(parse_adaptive_template_pixels(reader, template)?))
}

/// Reads the two adaptive pixels at the reader's place (T.88, 7.4.7.3). They may lie anywhere. At
/// template 1 nothing is read, and they are at (0, 0) and not used.
///
/// Returns `ParseError::UnexpectedEof` if there are too few bytes. An error leaves the reader where it
/// was. Takes no memory.
#[tactic(auto, using(crate::proofs::PixelCauses::refinement_pixels_cause), unfolding(crate::specs::RefinementTemplates::refinement_pixels_at))]
pub fn parse_template_pixels(
    reader: &mut Reader<'_>,
    template: RefinementTemplate,
) -> Result<[AdaptiveTemplatePixel; 2]>
    ensures parses { Parses reader.old reader.new result (two_pixels template)
        (refinement_pixels_at template reader.old.bytes) }
    ensures unused { IfOk result (λ pixels. pixels ≡ pixel_array 2 (two_pixels template pixels)) }
    ensures causes { HasCause result (BreaksRefinementPixels template reader.old.bytes) }
{
    match template {
        RefinementTemplate::Template0 => {
            let mut ahead = reader.duplicate();
            let first = parse_free_pixel(&mut ahead)?;
            let second = parse_free_pixel(&mut ahead)?;
            *reader = Reader::new(ahead.tail());
            Ok([first, second])
        }
        RefinementTemplate::Template1 => {
            *reader = Reader::new(reader.tail());
            let unused = AdaptiveTemplatePixel { x: 0, y: 0 };
            Ok([unused, unused])
        }
    }
}
