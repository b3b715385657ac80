//! Tests files and pages at the limits of what a run must accept.
use crate::bytes::bytes_of;
use crate::commands::ends_so;
use hayro_jbig2::{DecodeError, Jbig2Decoder, Jbig2Error};
use std::alloc::Global;
use std::io::Cursor;

/// A file above 1 MiB: a white page of 65535 by 1, and a comment of 1,179,648 bytes.
const LONG: &str = "H 01 00000001 P@11=0000FFFF 00000001 3E 00 01 00120000 20000000 00*1179644 \
    00000002 31 00 01 00000000";

/// Words, the bytes, and what is printed and reported: a comment that refers 1,000,001 times to a page information
/// segment, a halftone grid of 5000 columns, and more instances than 32 for each byte of the data, in either coding.
const LARGE: &[(&[&str], &str, (u8, &[u8], &[u8]))] = &[
    (
        &["--strict", "embedded", "page"],
        "P 00000001 3E E00F4241 00*125001 00*1000001 01 00000004 20000000",
        (0, WHITE, b""),
    ),
    (
        &["--strict", "embedded", "page"],
        "P D T@30=00001388",
        (0, BLACK, b""),
    ),
    (
        &["--strict", "embedded", "page"],
        "P S X@33=000005A1",
        (1, b"", TOO_MANY_INSTANCES),
    ),
    (
        &["--strict", "embedded", "page"],
        "P S 0000000206200101 0000001B 00000008 00000001 00*9 0010 00000361 00*4",
        (1, b"", TOO_MANY_INSTANCES),
    ),
    (
        &["embedded", "page"],
        "P S 0000000206200101 0000001B 00000008 00000001 00*9 0010 00000361 00*4",
        (0, WHITE, b""),
    ),
];

const WHITE: &[u8] = b"push_pixel_chunk false 1\nnext_line\n";

const BLACK: &[u8] = b"push_pixel_chunk true 1\nnext_line\n";

const TOO_MANY_INSTANCES: &[u8] = b"error: too many symbol instances\n";

#[test]
fn large_pages_end_as_they_must(rt: HostRuntime) {
    for (words, text, expected) in LARGE {
        assert!(rt; ends_so(rt.alloc(), words, text, *expected), "{text}");
    }
}

#[test]
fn a_file_above_1_mib_is_read(rt: HostRuntime) {
    let pages = (0u8, b"1 65535 1\n".as_slice(), b"".as_slice());
    assert!(rt; ends_so(rt.alloc(), &["--strict", "pages", "file"], LONG, pages));
}

/// Draws the page of `LONG` from a reader. Returns whether it has its size and is white.
fn is_drawn_white(alloc: Global) -> std::result::Result<bool, Jbig2Error> {
    let bytes = bytes_of(alloc, LONG).map_err(Jbig2Error::Decode)?;
    let decoder = Jbig2Decoder::new(alloc, Cursor::new(bytes.as_slice()))?;
    if decoder.dimensions() != (65535, 1) {
        return Ok(false);
    }
    let mut image = Vec::new(alloc);
    if image.resize(65535, 7).is_err() {
        return Err(Jbig2Error::Decode(DecodeError::OutOfMemory));
    }
    decoder.read_image(&mut image)?;
    Ok(image.iter().all(|byte| *byte == 255))
}

/// At most one request for memory is refused in a run of this test.
#[test]
fn a_page_of_65535_columns_is_drawn_over_a_reader(rt: HostRuntime) {
    let drawn = is_drawn_white(rt.alloc()).or_else(|_| is_drawn_white(rt.alloc()));
    assert!(rt; matches!(drawn, Ok(true)));
}
