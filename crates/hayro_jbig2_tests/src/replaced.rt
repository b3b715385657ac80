//! Tests row R13.6: some bytes of the rows' pages are replaced.
use crate::bytes::bytes_of;
use hayro_jbig2::{DecodeError, DecodeSettings, DecoderContext, Page, Result};
use jbig2_rows::watcher::Watcher;
use std::alloc::Global;

/// The pages of rows 7, 10, 11 and 13.
const PAGES: [&str; 4] = [
    "P G",
    "P 00000001260001 00000018 00000008 00000001 00*9 01 26A280080080",
    "P S X",
    "P D T@8=00000028 26A8",
];

/// The values that replace a byte.
const VALUES: [u8; 4] = [0x00, 0x7F, 0x80, 0xFF];

/// Whether a page is drawn, or else refused before any call.
fn is_drawn_or_silent(
    alloc: Global,
    bytes: &[u8],
    strict: bool,
    context: &mut DecoderContext<Global>,
) -> Result<bool> {
    let mut watcher = Watcher::new(&[]);
    let decoded = match Page::new_embedded(alloc, bytes, None, &DecodeSettings { strict }) {
        Ok(page) => page.decode_with(&mut watcher, context),
        Err(error) => Err(error),
    };
    match decoded {
        Err(DecodeError::OutOfMemory) => Err(DecodeError::OutOfMemory),
        Err(_) => Ok(!watcher.has_taken()),
        Ok(()) => Ok(true),
    }
}

/// The first place of a page where a replaced byte leads to calls before a refusal, if there is one.
fn first_that_is_drawn(
    alloc: Global,
    page: &str,
    context: &mut DecoderContext<Global>,
) -> Result<Option<usize>> {
    let mut bytes = bytes_of(alloc, page)?;
    for place in 0..bytes.len() {
        let byte = bytes[place];
        for value in VALUES {
            bytes[place] = value;
            for strict in [true, false] {
                if !is_drawn_or_silent(alloc, &bytes, strict, context)? {
                    return Ok(Some(place));
                }
            }
        }
        bytes[place] = byte;
    }
    Ok(None)
}

#[test]
fn a_page_with_a_byte_replaced_is_drawn_or_refused_before_any_call(rt: HostRuntime) {
    let Ok(mut context) = DecoderContext::new(rt.alloc()) else {
        return;
    };
    for page in PAGES {
        let place = first_that_is_drawn(rt.alloc(), page, &mut context);
        assert!(rt;
            place == Ok(None) || place == Err(DecodeError::OutOfMemory),
            "{page}"
        );
    }
}
