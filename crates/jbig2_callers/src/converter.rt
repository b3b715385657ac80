//! How a converter that has a reader calls the library.
ghost use Rattle.std.specs.Prelude.{IfSome};
ghost use Rattle.jbig2_callers.specs.Callers.{ShowsFirstPage};

use hayro_jbig2::{Jbig2Decoder, Jbig2Error};
use std::alloc::Allocator;
use std::io::Read;

/// A page as a viewer shows it.
#[derive(Drop)]
pub struct Picture<A: Allocator> {
    pub width: u32,
    pub height: u32,
    /// A byte for each pixel, rows from the top, 0 for black and 255 for white.
    pub pixels: Vec<u8, A>,
}

/// A converter: the first page of what a reader gives.
pub fn first_picture<A: Allocator + Clone, R: Read + Drop>(
    alloc: A,
    reader: R,
) -> std::result::Result<Picture<A>, Jbig2Error>
    ensures { IfSome (R.remaining reader)
        (λ bytes. ShowsFirstPage (λ picture. ((picture.width, picture.height), picture.pixels.items)) bytes
        result) }
{
    let decoder = Jbig2Decoder::new(alloc.clone()?, reader)?;
    let (width, height) = decoder.dimensions();
    let mut pixels = vec![in alloc; 0; width as usize * height as usize]?;
    decoder.read_image(&mut pixels)?;
    Ok(Picture {
        width,
        height,
        pixels,
    })
}
