//! How a viewer calls the library.
ghost use Rattle.jbig2_base.specs.Results.{Gives};
ghost use Rattle.jbig2_page.specs.Image.{image_of_page};
ghost use Rattle.jbig2_callers.specs.Callers.{image_at};

use hayro_jbig2::{DecodeError, DecodeSettings, File, FormatError, Page, Result};
use std::alloc::Allocator;

const LENIENT: DecodeSettings = DecodeSettings { strict: false };

/// A viewer: a byte for each pixel of the page at an index of a file, rows from the top, 0 for black
/// and 255 for white.
pub fn image_at<A: Allocator + Clone>(alloc: A, bytes: &[u8], index: usize) -> Result<Vec<u8, A>>
    ensures { Gives (λ image. image.items) result (image_at bytes.now index) }
{
    let file = File::new(alloc.clone()?, bytes, &LENIENT)?;
    match file.page(index) {
        Some(page) => image_of(alloc, &page),
        None => Err(DecodeError::Format(FormatError::MissingPageInfo)),
    }
}

fn image_of<A: Allocator + Clone>(alloc: A, page: &Page<'_, A>) -> Result<Vec<u8, A>>
    ensures { Gives (λ image. image.items) result (image_of_page page.now) }
{
    let size = page.width() as usize * page.height() as usize;
    let mut image = vec![in alloc; 0; size]?;
    page.read_image(&mut image)?;
    Ok(image)
}
