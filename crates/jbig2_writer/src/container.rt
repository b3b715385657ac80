//! The bytes of a page, embedded (T.88, D.3) or in a file (D.1).
ghost use Rattle.std.specs.Prelude.{◌≡◌, ◌+◌, ◌^◌, ◌<◌, ◌++◌, length, IfOk, OnOk};
ghost use Rattle.jbig2_inverses.specs.SegmentWriter.{number_or_0};
ghost use Rattle.jbig2_writer.specs.inner.Segments.{FitsResolution, file_of, container_bytes, segments_of};

use crate::segments::{push_file_header, push_information, push_region, push_segment};
use crate::settings::{Container, WriteSettings};
use std::alloc::{AllocError, Allocator};

/// The type of page information (7.3).
const PAGE_INFORMATION: u8 = 48;

/// The type of an immediate generic region (7.3).
const IMMEDIATE_GENERIC_REGION: u8 = 38;

/// The type of an end of page (7.3).
const END_OF_PAGE: u8 = 49;

/// The type of an end of file (7.3).
const END_OF_FILE: u8 = 51;

/// The number that states a resolution: 0 where it is unknown (7.4.8.3).
fn resolution_number(resolution: Option<u32>) -> u32
    ensures value { result ≡ number_or_0 resolution }
{
    resolution.unwrap_or(0)
}

/// Adds the two segments of a page of this size, whose region has these coded bytes.
fn push_page<A: Allocator + Clone>(
    bytes: &mut Vec<u8, A>,
    alloc: A,
    width: u32,
    height: u32,
    settings: &WriteSettings,
    coded: &[u8],
) -> Result<(), AllocError>
    requires { length coded.now + 26 < 2 ^ 32 }
    ensures bytes { OnOk result (bytes.new.items
        ≡ bytes.old.items ++ segments_of settings.now width height coded.now) }
    ensures resolution { OnOk result (FitsResolution settings.now) }
{
    let x_resolution = resolution_number(settings.x_resolution);
    let y_resolution = resolution_number(settings.y_resolution);
    let mut information = Vec::new(alloc.clone()?);
    push_information(&mut information, width, height, x_resolution, y_resolution)?;
    let mut region = Vec::new(alloc);
    push_region(&mut region, width, height, settings, coded)?;
    push_segment(bytes, 0, PAGE_INFORMATION, 1, &information)?;
    push_segment(bytes, 1, IMMEDIATE_GENERIC_REGION, 1, &region)?;
    Ok(())
}

/// Adds a file of a page of this size, whose region has these coded bytes.
fn push_file<A: Allocator + Clone>(
    bytes: &mut Vec<u8, A>,
    alloc: A,
    width: u32,
    height: u32,
    settings: &WriteSettings,
    coded: &[u8],
) -> Result<(), AllocError>
    requires { length coded.now + 26 < 2 ^ 32 }
    ensures bytes { OnOk result (bytes.new.items
        ≡ bytes.old.items ++ file_of settings.now width height coded.now) }
    ensures resolution { OnOk result (FitsResolution settings.now) }
{
    push_file_header(bytes)?;
    push_page(bytes, alloc, width, height, settings, coded)?;
    push_segment(bytes, 2, END_OF_PAGE, 1, &[])?;
    push_segment(bytes, 3, END_OF_FILE, 0, &[])?;
    Ok(())
}

/// The bytes of a page of this size, embedded or in a file, whose region has these coded bytes.
pub fn bytes_of_page<A: Allocator + Clone>(
    alloc: A,
    width: u32,
    height: u32,
    settings: &WriteSettings,
    coded: &[u8],
) -> Result<Vec<u8, A>, AllocError>
    requires { length coded.now + 26 < 2 ^ 32 }
    ensures bytes { IfOk result (λ v. v.items
        ≡ container_bytes settings.now.container settings.now width height coded.now) }
    ensures resolution { IfOk result (λ _. FitsResolution settings.now) }
{
    let mut bytes = Vec::new(alloc.clone()?);
    match settings.container {
        Container::EmbeddedPage => push_page(&mut bytes, alloc, width, height, settings, coded)?,
        Container::File => push_file(&mut bytes, alloc, width, height, settings, coded)?,
    }
    Ok(bytes)
}
