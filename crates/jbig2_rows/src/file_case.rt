//! The cases of files, of globals, and of decoders over a reader.
use crate::answer::{Answer, Modes, refused_as};
use crate::drawing::drawing_holds;
use crate::errors::TOO_EARLY;
use crate::spelling::bytes_of;
use hayro_jbig2::{
    DecodeError, DecodeSettings, DecoderContext, File, Globals, Jbig2Decoder, Jbig2Error, Result,
    WorkLimit,
};
use std::alloc::Allocator;
use std::io::Cursor;

/// The expected result of a page of a file.
pub struct FilePage {
    pub number: u32,
    pub dimensions: (u32, u32),
    pub answer: Answer,
}

/// One case of a file. `spelling::bytes_of` reads its bytes.
pub enum FileCase {
    /// `File::new` returns this error.
    Refused(Modes, &'static str, DecodeError),
    /// The pages of a file.
    Pages(Modes, &'static str, &'static [FilePage]),
    /// Each beginning of a file, except the one of this length, ends too early.
    CutOff { bytes: &'static str, but: usize },
    /// `Globals::new` returns this error.
    NoGlobals(&'static str, DecodeError),
    /// `Jbig2Decoder::new` returns this error.
    NoFirstPage(&'static str, DecodeError),
}

impl FileCase {
    fn bytes(&self) -> &'static str {
        match self {
            FileCase::Refused(_, bytes, _)
            | FileCase::Pages(_, bytes, _)
            | FileCase::CutOff { bytes, but: _ }
            | FileCase::NoGlobals(bytes, _)
            | FileCase::NoFirstPage(bytes, _) => bytes,
        }
    }
}

/// Whether a case holds. The only error is `DecodeError::OutOfMemory`.
pub fn file_holds<A: Allocator + Clone>(
    alloc: &A,
    case: &FileCase,
    context: &mut DecoderContext<A>,
) -> Result<bool> {
    let Some(bytes) = bytes_of(alloc, case.bytes())? else {
        return Ok(false);
    };
    if let FileCase::NoFirstPage(_, error) = case {
        return no_first_page_holds(alloc, &bytes, error);
    }
    for strict in [true, false] {
        if !mode_holds(alloc, case, &bytes, strict, context)? {
            return Ok(false);
        }
    }
    Ok(true)
}

/// Whether a case holds in one mode. A case for other modes only does.
fn mode_holds<A: Allocator + Clone>(
    alloc: &A,
    case: &FileCase,
    bytes: &[u8],
    strict: bool,
    context: &mut DecoderContext<A>,
) -> Result<bool> {
    match case {
        FileCase::Refused(modes, _, error) if modes.has(strict) => {
            refusal_holds(alloc, bytes, strict, error)
        }
        FileCase::Pages(modes, _, pages) if modes.has(strict) => {
            pages_hold(alloc, bytes, strict, pages, context)
        }
        FileCase::CutOff { bytes: _, but } => cuts_hold(alloc, bytes, strict, *but),
        FileCase::NoGlobals(_, error) => no_globals_hold(alloc, bytes, strict, error),
        _ => Ok(true),
    }
}

fn no_first_page_holds<A: Allocator + Clone>(
    alloc: &A,
    bytes: &[u8],
    error: &DecodeError,
) -> Result<bool> {
    match Jbig2Decoder::new(alloc.clone()?, Cursor::new(bytes)) {
        Ok(_) | Err(Jbig2Error::Io(_)) => Ok(false),
        Err(Jbig2Error::Decode(refusal)) => refused_as(refusal, Some(error)),
    }
}

fn refusal_holds<A: Allocator + Clone>(
    alloc: &A,
    bytes: &[u8],
    strict: bool,
    error: &DecodeError,
) -> Result<bool> {
    match File::new(alloc.clone()?, bytes, &DecodeSettings { strict }) {
        Ok(_) => Ok(false),
        Err(refusal) => refused_as(refusal, Some(error)),
    }
}

fn no_globals_hold<A: Allocator + Clone>(
    alloc: &A,
    bytes: &[u8],
    strict: bool,
    error: &DecodeError,
) -> Result<bool> {
    match Globals::new(alloc.clone()?, bytes, &DecodeSettings { strict }) {
        Ok(_) => Ok(false),
        Err(refusal) => refused_as(refusal, Some(error)),
    }
}

fn cuts_hold<A: Allocator + Clone>(
    alloc: &A,
    bytes: &[u8],
    strict: bool,
    but: usize,
) -> Result<bool> {
    for length in 0..bytes.len() {
        if length != but && !refusal_holds(alloc, &bytes[..length], strict, &TOO_EARLY)? {
            return Ok(false);
        }
    }
    Ok(true)
}

fn pages_hold<A: Allocator + Clone>(
    alloc: &A,
    bytes: &[u8],
    strict: bool,
    expected: &[FilePage],
    context: &mut DecoderContext<A>,
) -> Result<bool> {
    let file = match File::new(alloc.clone()?, bytes, &DecodeSettings { strict }) {
        Ok(file) => file,
        Err(error) => return refused_as(error, None),
    };
    if strict || !are_drawn(expected) {
        return all_pages_hold(&file, expected, context);
    }
    // Where lenient reading gives a file, salvage gives the same.
    let salvaged = match File::salvaged(alloc.clone()?, bytes, &mut WorkLimit::new(None)) {
        Ok(file) => file,
        Err(error) => return refused_as(error, None),
    };
    let whole = salvaged.cut_off().is_none() && salvaged.left_out().is_empty();
    Ok(
        whole
            && all_pages_hold(&file, expected, context)?
            && all_pages_hold(&salvaged, expected, context)?,
    )
}

/// Whether all of the pages are drawn.
fn are_drawn(expected: &[FilePage]) -> bool {
    expected
        .iter()
        .all(|page| matches!(page.answer, Answer::Calls(_)))
}

/// Whether a file has these pages.
pub fn all_pages_hold<A: Allocator + Clone>(
    file: &File<'_, A>,
    expected: &[FilePage],
    context: &mut DecoderContext<A>,
) -> Result<bool> {
    if file.page_count() != expected.len() || file.page(expected.len()).is_some() {
        return Ok(false);
    }
    for (page, expected) in file.pages().zip(expected) {
        let known = page.number() == expected.number && page.dimensions() == expected.dimensions;
        if !known || !drawing_holds(&page, &expected.answer, context)? {
            return Ok(false);
        }
    }
    Ok(true)
}
