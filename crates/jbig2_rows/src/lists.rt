//! Lists that are encoded and read back.
use crate::coder::is_read_back;
use crate::generator::Generator;
use hayro_jbig2::Result;
use std::alloc::Allocator;

/// The number of lists. List N has N entries.
const LISTS: usize = 1000;

/// The first of the lists up to `LISTS` that is not read back from the bytes that the encoder gives. The only error is
/// `DecodeError::OutOfMemory`.
pub fn first_that_differs<A: Allocator + Clone>(alloc: &A) -> Result<Option<usize>> {
    let mut generator = Generator::new();
    for count in 1..=LISTS {
        let list = generator.list(alloc.clone()?, count)?;
        if !is_read_back(alloc, &list)? {
            return Ok(Some(count));
        }
    }
    Ok(None)
}
