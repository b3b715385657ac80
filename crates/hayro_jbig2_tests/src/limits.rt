//! Tests the limit of work.
ghost use Rattle.std.specs.Prelude.{◌≡◌};

use crate::bytes::{FILE, bytes_of};
use crate::sizes::WhiteRows;
use hayro_jbig2::{
    DecodeError, DecodeSettings, DecoderContext, Globals, Jbig2Decoder, Jbig2Error, Page, Result,
    WorkLimit,
};
use jbig2_permit::Permit;
use jbig2_steps::Work;
use std::alloc::Global;
use std::io::Cursor;
use std::marker::Brand;
use std::sync::ledger::{Blank, Ledger};

/// Pages with a generic region, symbols and text, patterns and a halftone, and without a region.
const PAGES: &[&str] = &["P G8", "P S X", "P D T", "P"];

/// Pages that salvage draws: a dictionary fails in them, or a region that refers to one.
const DAMAGED: &[&str] = &["P S@11=0009 X", "P S@11=0009 S X", "P S@11=0009 G8@3=02"];

/// Globals whose decoding takes work: a symbol dictionary.
const GLOBALS: &str = "S";

/// Globals of which salvage keeps the second dictionary.
const DAMAGED_GLOBALS: &str = "S@11=0009 S@3=02";

const LENIENT: DecodeSettings = DecodeSettings { strict: false };

/// How much of a limit is left after a page is drawn.
fn left_of(
    page: &Page<'_, Global>,
    work: u64,
    context: &mut DecoderContext<Global>,
) -> (Result<()>, Option<u64>) {
    context.set_work_limit(Some(work));
    let drawn = page.draw_in(context);
    (drawn, context.work_left())
}

/// The packed rows that a context holds.
fn rows_of(alloc: Global, context: &DecoderContext<Global>) -> Result<Vec<u8>> {
    let drawn = context.drawn_page();
    let mut rows = Vec::new(alloc);
    rows.resize(drawn.size(), 0)?;
    drawn.read_at(0, &mut rows);
    Ok(rows)
}

/// Whether the packed rows that a context holds are these.
fn shows(alloc: Global, rows: &[u8], context: &DecoderContext<Global>) -> Result<bool> {
    Ok(rows_of(alloc, context)?.as_slice() == rows)
}

/// The work that a page takes.
fn work_of(page: &Page<'_, Global>, context: &mut DecoderContext<Global>) -> u64 {
    let most: u64 = 1 << 40;
    let (_, left) = left_of(page, most, context);
    most.saturating_sub(left.unwrap_or(0))
}

/// Whether a page is refused within this limit, as when memory runs out, and nothing of the limit is left.
fn is_refused(page: &Page<'_, Global>, work: u64, context: &mut DecoderContext<Global>) -> bool {
    left_of(page, work, context) == (Err(DecodeError::OutOfMemory), Some(0))
}

/// Whether a page takes all of this limit.
fn takes_all(page: &Page<'_, Global>, work: u64, context: &mut DecoderContext<Global>) -> bool {
    left_of(page, work, context) == (Ok(()), Some(0))
}

/// Whether a page shows these rows within the work that it takes, and is refused within each smaller limit.
fn limits_hold(
    alloc: Global,
    page: &Page<'_, Global>,
    rows: &[u8],
    context: &mut DecoderContext<Global>,
) -> Result<bool> {
    let taken = work_of(page, context);
    for work in 0..taken {
        if !is_refused(page, work, context) {
            return Ok(false);
        }
    }
    Ok(takes_all(page, taken, context) && shows(alloc, rows, context)?)
}

/// Whether a page shows these rows without a limit.
fn is_drawn_without(
    alloc: Global,
    page: &Page<'_, Global>,
    rows: &[u8],
    context: &mut DecoderContext<Global>,
) -> Result<bool> {
    context.set_work_limit(None);
    page.draw_in(context)?;
    Ok(context.work_left().is_none() && shows(alloc, rows, context)?)
}

/// Whether a page is drawn within the work that it takes and within any greater limit, and refused within a smaller
/// limit, as when memory runs out. What is left must be right each time, and the context must then draw the page
/// without a limit.
fn holds_in(
    alloc: Global,
    page: &Page<'_, Global>,
    context: &mut DecoderContext<Global>,
) -> Result<bool> {
    page.draw_in(context)?;
    let is_unlimited = context.work_left().is_none();
    let rows = rows_of(alloc, context)?;
    let holds = is_unlimited && limits_hold(alloc, page, &rows, context)?;
    Ok(holds && is_drawn_without(alloc, page, &rows, context)?)
}

/// Whether that is so in a context of its own.
fn page_holds(alloc: Global, page: &Page<'_, Global>) -> Result<bool> {
    let mut context = DecoderContext::new(alloc)?;
    holds_in(alloc, page, &mut context)
}

fn lenient_holds(alloc: Global, text: &str) -> Result<bool> {
    let bytes = bytes_of(alloc, text)?;
    let page = Page::new_embedded(alloc, &bytes, None, &LENIENT)?;
    page_holds(alloc, &page)
}

fn salvage_holds(alloc: Global, text: &str) -> Result<bool> {
    let bytes = bytes_of(alloc, text)?;
    let page = Page::salvaged_embedded(alloc, &bytes, None)?;
    page_holds(alloc, &page)
}

#[test]
fn pages_are_drawn_within_what_they_take_and_no_less(rt: HostRuntime) {
    for text in PAGES {
        let holds = lenient_holds(rt.alloc(), text).or_else(|_| lenient_holds(rt.alloc(), text));
        assert!(rt; holds == Ok(true), "{text}");
    }
    for text in DAMAGED {
        let holds = salvage_holds(rt.alloc(), text).or_else(|_| salvage_holds(rt.alloc(), text));
        assert!(rt; holds == Ok(true), "{text}");
    }
}

/// Whether salvaging damaged globals fails within all limits below some number above 2048, and succeeds from there on.
fn salvaged_globals_hold(alloc: Global) -> Result<bool> {
    let bytes = bytes_of(alloc, DAMAGED_GLOBALS)?;
    let mut are_decoded = false;
    for work in 0..16_000 {
        if are_decoded && work <= 2_048 {
            return Ok(false);
        }
        match Globals::salvaged(alloc, &bytes, &mut WorkLimit::new(Some(work))) {
            Ok(globals) if globals.passed_over().count == 1 => are_decoded = true,
            Err(DecodeError::OutOfMemory) if !are_decoded => {}
            _ => return Ok(false),
        }
    }
    Ok(are_decoded)
}

/// Whether decoding globals fails within all limits below some number above 1024, and succeeds from there on.
fn globals_hold(alloc: Global) -> Result<bool> {
    let bytes = bytes_of(alloc, GLOBALS)?;
    let mut are_decoded = false;
    for work in 0..8_000 {
        if are_decoded && work <= 1_024 {
            return Ok(false);
        }
        match Globals::new_within(alloc, &bytes, &LENIENT, &mut WorkLimit::new(Some(work))) {
            Ok(_) => are_decoded = true,
            Err(DecodeError::OutOfMemory) if !are_decoded => {}
            Err(_) => return Ok(false),
        }
    }
    Ok(are_decoded)
}

#[test]
fn globals_are_decoded_within_a_limit(rt: HostRuntime) {
    let holds = globals_hold(rt.alloc()).or_else(|_| globals_hold(rt.alloc()));
    assert!(rt; holds == Ok(true));
    let holds = salvaged_globals_hold(rt.alloc()).or_else(|_| salvaged_globals_hold(rt.alloc()));
    assert!(rt; holds == Ok(true));
}

/// Whether a decoder reads a page of 8 by 1 pixels within this limit, and it is white.
fn is_white_within(
    alloc: Global,
    bytes: &[u8],
    work: u64,
) -> std::result::Result<bool, Jbig2Error> {
    let mut limit = WorkLimit::new(Some(work));
    let decoder = Jbig2Decoder::new_within(alloc, Cursor::new(bytes), &mut limit)?;
    if decoder.dimensions() != (8, 1) {
        return Ok(false);
    }
    let mut image = [7; 8];
    decoder.read_image(&mut image)?;
    Ok(image == [255; 8])
}

/// Whether reading a decoder's page fails within all limits below some number, and succeeds from
/// there on.
fn reader_holds(alloc: Global) -> Result<bool> {
    let bytes = bytes_of(alloc, FILE)?;
    let mut is_read = false;
    for work in 0..4_000 {
        match is_white_within(alloc, &bytes, work) {
            Ok(true) => is_read = true,
            Err(Jbig2Error::Decode(DecodeError::OutOfMemory)) if !is_read => {}
            _ => return Ok(false),
        }
    }
    Ok(is_read)
}

#[test]
fn a_reader_is_decoded_within_a_limit(rt: HostRuntime) {
    let holds = reader_holds(rt.alloc()).or_else(|_| reader_holds(rt.alloc()));
    assert!(rt; holds == Ok(true));
}

/// How many units are left after a white page of 8 by 1 pixels: after it is drawn, then after it is read, and then after
/// its calls are made.
fn left_after_each<L: Ledger>(
    page: &Page<'_, Global>,
    context: &mut DecoderContext<Global>,
    work: &mut Work<L>,
) -> Result<[u64; 3]> {
    if page.dimensions() != (8, 1) {
        return Err(DecodeError::Unsupported);
    }
    page.draw_within(context, work)?;
    let drawn = work.left;
    let mut image = [7; 8];
    page.read_within(&mut image, work)?;
    let read = work.left;
    let mut rows = WhiteRows::new(8);
    page.decode_within(&mut rows, context, work)?;
    if image != [255; 8] || !rows.is_white(1) {
        return Err(DecodeError::Unsupported);
    }
    Ok([drawn, read, work.left])
}

/// How many of these units are left after each of the three.
fn left_by_page<L: Ledger>(alloc: Global, units: u64, blank: Blank) -> Result<[u64; 3]>
    requires name { blank.name ≡ L.name }
    requires parts { blank.parts ≡ L.parts }
    requires enough { blank.parts ≡ 7 }
{
    let bytes = bytes_of(alloc, "P")?;
    let page = Page::new_embedded(alloc, &bytes, None, &LENIENT)?;
    let mut context = DecoderContext::new(alloc)?;
    let mut work: Work<L> = Work::within(Permit::grant(), blank, units);
    left_after_each(&page, &mut context, &mut work)
}

/// The same for 10,000 units.
fn left_of_10_000(alloc: Global) -> Result<[u64; 3]> {
    left_by_page::<Brand>(alloc, 10_000, Blank::new(7))
}

/// A segment takes 1024 units, and a page two bitmaps of 128 units (`docs/FORMAT.md` 12.6).
#[test]
fn pages_take_units_of_a_counter(rt: HostRuntime) {
    let mut left = left_of_10_000(rt.alloc());
    if left == Err(DecodeError::OutOfMemory) {
        left = left_of_10_000(rt.alloc());
    }
    assert!(rt; left == Ok([8_720, 7_440, 6_160]));
}

/// How many units are left after a white page of 8 by 1 pixels is written as bytes, and then as packed rows.
fn left_after_images(page: &Page<'_, Global>, limit: &mut WorkLimit) -> Result<[Option<u64>; 2]> {
    if page.dimensions() != (8, 1) {
        return Err(DecodeError::Unsupported);
    }
    let mut image = [7; 8];
    page.read_image_within(&mut image, limit)?;
    let read = limit.left();
    let mut rows = [7; 1];
    page.read_packed_within(&mut rows, limit)?;
    if image != [255; 8] || rows != [0] {
        return Err(DecodeError::Unsupported);
    }
    Ok([read, limit.left()])
}

/// How many of 10,000 units are left after both.
fn left_by_images(alloc: Global) -> Result<[Option<u64>; 2]> {
    let bytes = bytes_of(alloc, "P")?;
    let page = Page::new_embedded(alloc, &bytes, None, &LENIENT)?;
    left_after_images(&page, &mut WorkLimit::new(Some(10_000)))
}

#[test]
fn images_take_units_of_a_limit(rt: HostRuntime) {
    let mut left = left_by_images(rt.alloc());
    if left == Err(DecodeError::OutOfMemory) {
        left = left_by_images(rt.alloc());
    }
    assert!(rt; left == Ok([Some(8_720), Some(7_440)]));
    assert!(rt; WorkLimit::new(None).left().is_none());
}
