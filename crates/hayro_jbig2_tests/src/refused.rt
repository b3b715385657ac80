//! Tests that a context holds no page after an error.
use crate::bytes::bytes_of;
use hayro_jbig2::{
    DecodeError, DecodeSettings, DecoderContext, File, HuffmanError, Page, ParseError, RegionError,
    Result,
};
use jbig2_rows::watcher::Watcher;
use std::alloc::Global;

/// A page with a region, and one after it whose operator is unknown. Lenient reading passes over that one.
const DRAWN: &str = "P G8 G8@3=05@27=05";

/// A file whose pages share a dictionary that fails.
const BROKEN_FILE: &str = "H 01 00000001 P S@6=00@11=0009 00000002 31 00 01 00000000";

const LENIENT: DecodeSettings = DecodeSettings { strict: false };

const STRICT: DecodeSettings = DecodeSettings { strict: true };

/// How a call on a context is refused.
#[derive(Clone, Copy, Debug)]
enum Refused {
    /// A region of the page fails after another one was drawn, in strict reading.
    Region,
    /// What the pages of the file share fails before anything is drawn.
    Shared,
    /// The limit of work ends the drawing after this many units.
    Work(u64),
    /// The limit ends `decode_with`.
    DecodingWork(u64),
    /// The Decoder refuses a call after the page was drawn.
    Decoder,
}

const ALL: &[Refused] = &[
    Refused::Region,
    Refused::Shared,
    Refused::Work(0),
    Refused::Work(1_300),
    Refused::DecodingWork(0),
    Refused::DecodingWork(1_300),
    Refused::Decoder,
];

/// The error of each.
fn error_of(refused: Refused) -> DecodeError {
    match refused {
        Refused::Region => DecodeError::Region(RegionError::InvalidCombinationOperator),
        Refused::Shared => DecodeError::Huffman(HuffmanError::InvalidSelection),
        Refused::Decoder => DecodeError::Parse(ParseError::UnexpectedEof),
        Refused::Work(_) | Refused::DecodingWork(_) => DecodeError::OutOfMemory,
    }
}

/// Draws a page.
fn draw(
    alloc: Global,
    text: &str,
    settings: &DecodeSettings,
    context: &mut DecoderContext<Global>,
) -> Result<()> {
    let bytes = bytes_of(alloc, text)?;
    let page = Page::new_embedded(alloc, &bytes, None, settings)?;
    page.draw_in(context)
}

/// Makes the calls of a page on a Decoder that refuses the first one.
fn decode(alloc: Global, context: &mut DecoderContext<Global>) -> Result<()> {
    let bytes = bytes_of(alloc, DRAWN)?;
    let page = Page::new_embedded(alloc, &bytes, None, &LENIENT)?;
    let mut watcher = Watcher::with_patience(&[], 0, error_of(Refused::Decoder));
    page.decode_with(&mut watcher, context)
}

/// Draws the first page of a file.
fn draw_first(alloc: Global, text: &str, context: &mut DecoderContext<Global>) -> Result<()> {
    let bytes = bytes_of(alloc, text)?;
    let file = File::new(alloc, &bytes, &LENIENT)?;
    match file.page(0) {
        Some(page) => page.draw_in(context),
        None => Err(DecodeError::Unsupported),
    }
}

/// Makes a call on a context that is refused so.
fn refuse(alloc: Global, refused: Refused, context: &mut DecoderContext<Global>) -> Result<()> {
    match refused {
        Refused::Region => draw(alloc, DRAWN, &STRICT, context),
        Refused::Shared => draw_first(alloc, BROKEN_FILE, context),
        Refused::Work(units) => {
            context.set_work_limit(Some(units));
            draw(alloc, DRAWN, &LENIENT, context)
        }
        Refused::DecodingWork(units) => {
            context.set_work_limit(Some(units));
            decode(alloc, context)
        }
        Refused::Decoder => decode(alloc, context),
    }
}

/// Whether a context holds no page.
fn holds_no_page(context: &DecoderContext<Global>) -> bool {
    let is_empty = context.drawn_page().size() == 0;
    is_empty && !context.is_complete() && context.passed_over().count == 0
}

/// Whether a context holds the page that is drawn first.
fn holds_page(context: &DecoderContext<Global>) -> bool {
    context.drawn_page().size() == 1 && context.passed_over().count == 1
}

/// Whether a context that holds a page holds none after a call is refused, and then draws the page again.
fn is_forgotten(alloc: Global, refused: Refused) -> Result<bool> {
    let mut context = DecoderContext::new(alloc)?;
    let is_new = holds_no_page(&context);
    draw(alloc, DRAWN, &LENIENT, &mut context)?;
    let is_drawn = holds_page(&context);
    let answer = refuse(alloc, refused, &mut context);
    if answer == Err(DecodeError::OutOfMemory) && context.work_left() != Some(0) {
        return Err(DecodeError::OutOfMemory);
    }
    let is_forgotten = answer == Err(error_of(refused)) && holds_no_page(&context);
    context.set_work_limit(None);
    draw(alloc, DRAWN, &LENIENT, &mut context)?;
    Ok(is_new && is_drawn && is_forgotten && holds_page(&context))
}

#[test]
fn a_context_holds_no_page_after_an_error(rt: HostRuntime) {
    for refused in ALL {
        let answer = is_forgotten(rt.alloc(), *refused).or_else(|_| is_forgotten(
            rt.alloc(),
            *refused,
        ));
        assert!(rt; answer == Ok(true), "{refused:?}");
    }
}

/// Whether a context forgets its page, and keeps its limit, of which nothing is taken then.
fn forgets(alloc: Global) -> Result<bool> {
    let mut context = DecoderContext::new(alloc)?;
    context.set_work_limit(Some(1 << 20));
    draw(alloc, DRAWN, &LENIENT, &mut context)?;
    let is_drawn = holds_page(&context) && context.work_left() != Some(1 << 20);
    context.forget_page();
    Ok(is_drawn && holds_no_page(&context) && context.work_left() == Some(1 << 20))
}

#[test]
fn a_context_forgets_its_page(rt: HostRuntime) {
    let answer = forgets(rt.alloc()).or_else(|_| forgets(rt.alloc()));
    assert!(rt; answer == Ok(true));
}
