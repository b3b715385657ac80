//! The segments of a page, and the header of a file, as bytes (T.88, 7.2, 7.4.6, 7.4.8 and D.4).
ghost use Rattle.std.specs.Prelude.{◌≡◌, ◌+◌, ◌*◌, ◌^◌, ◌<◌, ◌++◌, false, length, OnOk};
ghost use Rattle.std.specs.List.{flat_map};
ghost use Rattle.jbig2_inverses.specs.FileWriter.{file_header_bytes};
ghost use Rattle.jbig2_inverses.specs.GenericSegmentWriter.{adaptive_bytes, template_number};
ghost use Rattle.jbig2_page_inverse.specs.PageFile.{file_header};
ghost use Rattle.jbig2_region.specs.Templates.{nominal_adaptive_pixels};
ghost use Rattle.jbig2_writer.specs.Written.{adaptive_of, is_mmr, template_of, typical_of};
ghost use Rattle.jbig2_writer.specs.inner.Segments.{page_information, region_data, segment_of};
ghost use Rattle.jbig2_base.specs.Bits.{bit_number};

use crate::settings::{RegionCoding, WriteSettings};
use jbig2_region::template::Template;
use std::alloc::{AllocError, Allocator};

/// Adds a segment of this number and type (7.3), of this page, which refers to no other.
pub fn push_segment<A: Allocator>(
    bytes: &mut Vec<u8, A>,
    number: u32,
    kind: u8,
    page: u32,
    segment_data: &[u8],
) -> Result<(), AllocError>
    requires kind { kind < 64 }
    requires short { length segment_data.now < 2 ^ 32 }
    ensures { OnOk result
        (bytes.new.items ≡ bytes.old.items ++ segment_of number kind page segment_data.now) }
{
    bytes.extend_from_slice(&number.to_be_bytes())?;
    bytes.extend_from_slice(&[kind + 64, 0])?;
    bytes.extend_from_slice(&page.to_be_bytes())?;
    bytes.extend_from_slice(&(segment_data.len() as u32).to_be_bytes())?;
    bytes.extend_from_slice(segment_data)?;
    Ok(())
}

/// Adds the data of page information: a lossless page of this size and resolution, which begins white.
pub fn push_information<A: Allocator>(
    bytes: &mut Vec<u8, A>,
    width: u32,
    height: u32,
    x_resolution: u32,
    y_resolution: u32,
) -> Result<(), AllocError>
    ensures { OnOk result (bytes.new.items
        ≡ bytes.old.items ++ page_information width height x_resolution y_resolution) }
{
    bytes.extend_from_slice(&width.to_be_bytes())?;
    bytes.extend_from_slice(&height.to_be_bytes())?;
    bytes.extend_from_slice(&x_resolution.to_be_bytes())?;
    bytes.extend_from_slice(&y_resolution.to_be_bytes())?;
    bytes.extend_from_slice(&[1, 0, 0])?;
    Ok(())
}

/// The number of a template (GBTEMPLATE).
fn template_number(template: Template) -> u8
    ensures value { result ≡ template_number template }
    ensures small { result < 4 }
{
    match template {
        Template::Template0 => 0,
        Template::Template1 => 1,
        Template::Template2 => 2,
        Template::Template3 => 3,
    }
}

/// The nominal adaptive pixels, each by its columns to the right and its rows down in two's complement (7.4.6.3).
fn adaptive_bytes(template: Template) -> &'static [u8]
    ensures { result.now ≡ flat_map adaptive_bytes (nominal_adaptive_pixels template) }
{
    match template {
        Template::Template0 => &[0x03, 0xFF, 0xFD, 0xFF, 0x02, 0xFE, 0xFE, 0xFE],
        Template::Template1 => &[0x03, 0xFF],
        Template::Template2 | Template::Template3 => &[0x02, 0xFF],
    }
}

/// The adaptive pixels of a region: MMR data have none.
fn adaptive_bytes_of(coding: RegionCoding) -> &'static [u8]
    ensures { result.now ≡ flat_map adaptive_bytes (adaptive_of coding) }
{
    match coding {
        RegionCoding::Arithmetic(arithmetic) => adaptive_bytes(arithmetic.template),
        RegionCoding::Mmr => &[],
    }
}

/// The flags of a generic region (7.4.6.2).
fn region_flags(coding: RegionCoding) -> u8
    ensures { result ≡ bit_number (is_mmr coding) + 2 * template_number (template_of coding)
        + 8 * bit_number (typical_of coding) }
{
    match coding {
        RegionCoding::Arithmetic(arithmetic) => {
            let typical = if arithmetic.typical { 8 } else { 0 };
            2 * template_number(arithmetic.template) + typical
        }
        RegionCoding::Mmr => 1,
    }
}

/// Adds the data of a generic region of this size at the page's corner, to be combined by OR.
pub fn push_region<A: Allocator>(
    bytes: &mut Vec<u8, A>,
    width: u32,
    height: u32,
    settings: &WriteSettings,
    coded: &[u8],
) -> Result<(), AllocError>
    ensures { OnOk result
        (bytes.new.items ≡ bytes.old.items ++ region_data settings.now width height coded.now) }
{
    bytes.extend_from_slice(&width.to_be_bytes())?;
    bytes.extend_from_slice(&height.to_be_bytes())?;
    bytes.extend_from_slice(&[0, 0, 0, 0, 0, 0, 0, 0, 0])?;
    bytes.push(region_flags(settings.coding))?;
    bytes.extend_from_slice(adaptive_bytes_of(settings.coding))?;
    bytes.extend_from_slice(coded)?;
    Ok(())
}

/// Adds the header of a file of one page, in sequential organisation (D.4).
pub fn push_file_header<A: Allocator>(bytes: &mut Vec<u8, A>) -> Result<(), AllocError>
    ensures { OnOk result
        (bytes.new.items ≡ bytes.old.items ++ file_header_bytes (file_header false)) }
{
    bytes.extend_from_slice(&[
        0x97, 0x4A, 0x42, 0x32, 0x0D, 0x0A, 0x1A, 0x0A, 1, 0, 0, 0, 1,
    ])?;
    Ok(())
}
