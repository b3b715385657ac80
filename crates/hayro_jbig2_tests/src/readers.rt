//! Tests decoders that take their input from a reader.
use crate::bytes::{FILE, bytes_of};
use crate::streams::Slow;
use hayro_jbig2::{DecodeError, Jbig2Decoder, Jbig2Error, Result};
use std::alloc::Global;
use std::io;
use std::io::ErrorKind;

const WHITE_IMAGE: [u8; 8] = [255; 8];

/// The content of a buffer before it is written.
const BEFORE: [u8; 8] = [7; 8];

/// Draws the first page, which must have 8 by 1 pixels. Returns whether it has that size.
fn draw_first_page(
    alloc: Global,
    reader: Slow<'_>,
    image: &mut [u8; 8],
) -> std::result::Result<bool, Jbig2Error> {
    let decoder = Jbig2Decoder::new(alloc, reader)?;
    if decoder.dimensions() != (8, 1) {
        return Ok(false);
    }
    decoder.read_image(image)?;
    Ok(true)
}

/// Whether the decoder returns the error of a reader of this patience, or draws the page. The file has 54 bytes, so the
/// 110th read comes to the end.
fn slow_reader_holds(
    alloc: Global,
    bytes: &[u8],
    patience: usize,
    fault: ErrorKind,
) -> Result<bool> {
    let mut image = BEFORE;
    match draw_first_page(alloc, Slow::new(bytes, patience, fault), &mut image) {
        Ok(sized) => Ok(110 <= patience && sized && image == WHITE_IMAGE),
        Err(Jbig2Error::Io(error)) => {
            Ok(patience < 110 && error.kind() == fault && image == BEFORE)
        }
        Err(Jbig2Error::Decode(error)) => Err(error),
    }
}

/// The first patience of a reader that gives a wrong result, if there is one.
fn first_wrong_patience(alloc: Global) -> Result<Option<usize>> {
    let bytes = bytes_of(alloc, FILE)?;
    for patience in 0..112 {
        for fault in [ErrorKind::OutOfMemory, ErrorKind::UnexpectedEof] {
            if !slow_reader_holds(alloc, &bytes, patience, fault)? {
                return Ok(Some(patience));
            }
        }
    }
    Ok(None)
}

#[test]
fn a_failing_reader_is_reported_and_a_slow_one_changes_nothing(rt: HostRuntime) {
    let mut wrong = first_wrong_patience(rt.alloc());
    if wrong == Err(DecodeError::OutOfMemory) {
        wrong = first_wrong_patience(rt.alloc());
    }
    assert!(rt; wrong == Ok(None));
}

/// Errors of a reader and of the decoder are printed with their own texts.
#[test]
fn errors_over_a_reader_have_the_texts_of_their_cause(rt: HostRuntime) {
    let decode = Jbig2Error::from(DecodeError::Unsupported);
    if let Ok(text) = decode.to_string(rt.alloc()) {
        assert!(rt; text.as_str() == "unsupported feature");
    }
    let fault = io::Error::from(ErrorKind::TimedOut);
    let (Ok(expected), Ok(text)) = (
        fault.to_string(rt.alloc()),
        Jbig2Error::Io(fault).to_string(rt.alloc()),
    ) else {
        return;
    };
    assert!(rt; text.as_str() == expected.as_str());
}
