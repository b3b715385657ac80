//! The two forms in which a page is written as bytes.

/// How a page is written as bytes, rows from the top.
#[derive(Clone, Copy, Debug)]
pub enum Form {
    /// A byte for each pixel: 0 for black and 255 for white.
    Image,
    /// A bit for each pixel, 1 for black, the leftmost pixel in the highest bit of its byte. A row takes
    /// `width.div_ceil(8)` bytes, and the bits after the width are 0, as in PBM, TIFF and PDF.
    Packed,
}
