//! Bytes that several tests read.
use hayro_jbig2::{DecodeError, Result};
use jbig2_rows::spelling;
use std::alloc::Global;

/// Row 16's first file: a white page of 8 by 1, and its end.
pub const FILE: &str = "H 01 00000001 P 00000001 31 00 01 00000000";

/// The bytes that a text means.
pub fn bytes_of(alloc: Global, text: &str) -> Result<Vec<u8>> {
    match spelling::bytes_of(&alloc, text)? {
        Some(bytes) => Ok(bytes),
        None => Err(DecodeError::Unsupported),
    }
}
