//! Checks the result of drawing a page.
use crate::answer::{Answer, refused_as};
use crate::call::{Call, WHITE};
use crate::spelling::bytes_of;
use crate::watcher::Watcher;
use hayro_jbig2::{
    DecodeError, DecodeSettings, DecoderContext, HuffmanError, Page, ParseError, RegionError,
    Result,
};
use std::alloc::Allocator;

/// Row 5's page.
const WHITE_PAGE: Answer = Answer::Calls(WHITE);

/// Whether row 5's page is drawn white in this context. The only error is
/// `DecodeError::OutOfMemory`.
pub fn white_holds<A: Allocator + Clone>(
    alloc: &A,
    context: &mut DecoderContext<A>,
) -> Result<bool> {
    let Some(bytes) = bytes_of(alloc, "P")? else {
        return Ok(false);
    };
    page_holds(alloc, &bytes, true, &WHITE_PAGE, context)
}

/// Whether an embedded page has this result. The only error is `DecodeError::OutOfMemory`, only where no call was made.
pub fn page_holds<A: Allocator + Clone>(
    alloc: &A,
    bytes: &[u8],
    strict: bool,
    answer: &Answer,
    context: &mut DecoderContext<A>,
) -> Result<bool> {
    let page = match Page::new_embedded(alloc.clone()?, bytes, None, &DecodeSettings { strict }) {
        Ok(page) => page,
        Err(error) => return refused_as(
            error,
            match answer {
                Answer::Refused(expected) => Some(expected),
                _ => None,
            },
        ),
    };
    let drawn = drawing_holds(&page, answer, context)?;
    if strict || !matches!(answer, Answer::Calls(_)) {
        return Ok(drawn);
    }
    // Where lenient reading draws a page, salvage draws the same.
    Ok(drawn && salvages(alloc, bytes, answer, context)?)
}

/// Whether an embedded page has this result in salvage.
fn salvages<A: Allocator + Clone>(
    alloc: &A,
    bytes: &[u8],
    answer: &Answer,
    context: &mut DecoderContext<A>,
) -> Result<bool> {
    let page = match Page::salvaged_embedded(alloc.clone()?, bytes, None) {
        Ok(page) => page,
        Err(error) => return refused_as(error, None),
    };
    drawing_holds(&page, answer, context)
}

/// Whether decoding a page has this result, also where a Decoder refuses any one of its calls. The
/// only error is `DecodeError::OutOfMemory`, and only where no call was made.
pub fn drawing_holds<A: Allocator + Clone>(
    page: &Page<'_, A>,
    answer: &Answer,
    context: &mut DecoderContext<A>,
) -> Result<bool> {
    let calls = match answer {
        Answer::Calls(calls) => *calls,
        _ => &[],
    };
    let mut watcher = Watcher::new(calls);
    match page.decode_with(&mut watcher, context) {
        Ok(()) => {
            let drawn = matches!(answer, Answer::Calls(_)) && watcher.is_satisfied();
            Ok(drawn && refusals_hold(page, calls, context)?)
        }
        Err(_) if watcher.has_taken() => Ok(false),
        Err(error) => refused_as(
            error,
            match answer {
                Answer::Undrawn(expected) => Some(expected),
                _ => None,
            },
        ),
    }
}

/// The error that this call is refused with: four errors in turn.
fn refusal_of(call: usize) -> DecodeError {
    match call % 4 {
        0 => DecodeError::Unsupported,
        1 => DecodeError::Parse(ParseError::UnexpectedEof),
        2 => DecodeError::Huffman(HuffmanError::InvalidCode),
        _ => DecodeError::Region(RegionError::InvalidDimension),
    }
}

/// Checks a Decoder that refuses one call, for each call in turn: it has taken the calls before that one, gets no
/// further call, and its own error is returned.
fn refusals_hold<A: Allocator + Clone>(
    page: &Page<'_, A>,
    calls: &[Call],
    context: &mut DecoderContext<A>,
) -> Result<bool> {
    for taken in 0..calls.len() {
        let mut watcher = Watcher::with_patience(&calls[..taken], taken, refusal_of(taken));
        let decoded = page.decode_with(&mut watcher, context);
        if decoded == Err(DecodeError::OutOfMemory) && !watcher.has_taken() {
            return Err(DecodeError::OutOfMemory);
        }
        let refused_once = decoded == Err(refusal_of(taken)) && watcher.refusals() == 1;
        if !refused_once || !watcher.is_satisfied() {
            return Ok(false);
        }
    }
    Ok(true)
}
