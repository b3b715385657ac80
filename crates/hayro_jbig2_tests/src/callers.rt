//! Tests the callers with small pages.
use crate::bytes::{FILE, bytes_of};
use hayro_jbig2::{DecodeError, DecoderContext, FormatError, HuffmanError, Jbig2Error, Result};
use jbig2_callers::converter::first_picture;
use jbig2_callers::pdf_reader::decode_stream;
use jbig2_callers::viewer::image_at;
use jbig2_rows::call::WHITE;
use jbig2_rows::watcher::Watcher;
use std::alloc::Global;
use std::io::Cursor;

const IMAGE: [u8; 8] = [255; 8];

/// A custom table as globals contain it.
const TABLE: &str = "00000000 35 00 00 0000000B 70 00*7 01 8F20";

/// A custom table with too many codes.
const NO_CODE: &str = "00000000 35 00 00 0000000B 70 00*7 01 1000";

/// Whether a white page is drawn with these globals, or its error is this one and nothing is drawn.
fn stream_holds(
    alloc: Global,
    globals: Option<&[u8]>,
    stream: &[u8],
    expected: &Result<()>,
) -> Result<bool> {
    let mut context = DecoderContext::new(alloc)?;
    let mut watcher = Watcher::new(WHITE);
    let answer = decode_stream(alloc, stream, globals, &mut watcher, &mut context);
    if answer == Err(DecodeError::OutOfMemory) {
        return Err(DecodeError::OutOfMemory);
    }
    let shown = watcher.is_satisfied() || answer.is_err() && !watcher.has_taken();
    Ok(answer == *expected && shown)
}

/// Whether that is so without globals, and with each kind of globals.
fn streams_hold(alloc: Global) -> Result<[bool; 3]> {
    let stream = bytes_of(alloc, "P")?;
    let table = bytes_of(alloc, TABLE)?;
    let no_code = bytes_of(alloc, NO_CODE)?;
    let refused = Err(DecodeError::Huffman(HuffmanError::InvalidCode));
    Ok([
        stream_holds(alloc, None, &stream, &Ok(()))?,
        stream_holds(alloc, Some(&table), &stream, &Ok(()))?,
        stream_holds(alloc, Some(&no_code), &stream, &refused)?,
    ])
}

#[test]
fn a_stream_is_decoded_with_its_globals(rt: HostRuntime) {
    let mut hold = streams_hold(rt.alloc());
    if hold == Err(DecodeError::OutOfMemory) {
        hold = streams_hold(rt.alloc());
    }
    assert!(rt; hold == Ok([true, true, true]));
}

/// Whether the page of a file is shown, and a second page is reported as missing.
fn images_hold(alloc: Global) -> Result<bool> {
    let bytes = bytes_of(alloc, FILE)?;
    let image = image_at(alloc, &bytes, 0)?;
    match image_at(alloc, &bytes, 1) {
        Ok(_) => Ok(false),
        Err(DecodeError::OutOfMemory) => Err(DecodeError::OutOfMemory),
        Err(error) => {
            let missing = DecodeError::Format(FormatError::MissingPageInfo);
            Ok(image.as_slice() == IMAGE.as_slice() && error == missing)
        }
    }
}

#[test]
fn pages_of_a_file_are_shown(rt: HostRuntime) {
    let mut hold = images_hold(rt.alloc());
    if hold == Err(DecodeError::OutOfMemory) {
        hold = images_hold(rt.alloc());
    }
    assert!(rt; hold == Ok(true));
}

/// Whether the first page of a reader is shown.
fn picture_holds(alloc: Global) -> Result<bool> {
    let bytes = bytes_of(alloc, FILE)?;
    match first_picture(alloc, Cursor::new(bytes)) {
        Ok(picture) => {
            let size = (picture.width, picture.height);
            Ok(size == (8, 1) && picture.pixels.as_slice() == IMAGE.as_slice())
        }
        Err(Jbig2Error::Io(_)) => Ok(false),
        Err(Jbig2Error::Decode(error)) => Err(error),
    }
}

#[test]
fn a_reader_is_converted(rt: HostRuntime) {
    let mut holds = picture_holds(rt.alloc());
    if holds == Err(DecodeError::OutOfMemory) {
        holds = picture_holds(rt.alloc());
    }
    assert!(rt; holds == Ok(true));
}
