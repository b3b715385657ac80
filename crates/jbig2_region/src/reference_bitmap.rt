//! What a refinement refines (T.88, 6.3).
use jbig2_base::bitmap::Bitmap;
use std::alloc::Allocator;

/// The reference of a refinement: a bitmap whose top left pixel lies `dx` columns to the right of the
/// region's and `dy` rows below it.
#[derive(Drop)]
pub struct ReferenceBitmap<'a, B: Allocator> {
    pub bitmap: &'a Bitmap<B>,
    pub dx: i32,
    pub dy: i32,
}
