//! Tests row R12.1: pages, regions and dictionaries of many sizes.
ghost use Rattle.std.specs.Prelude.{◌≡◌};

use crate::bytes::bytes_of;
use hayro_jbig2::{DecodeError, DecodeSettings, Decoder, DecoderContext, Page, Result};
use jbig2_rows::answer::Answer;
use jbig2_rows::call::WHITE;
use jbig2_rows::drawing::page_holds;
use jbig2_rows::watcher::Watcher;
use std::alloc::Global;

const SIDES: [u32; 6] = [1, 9, 64, 1000, 4096, 65535];

const STRICT: DecodeSettings = DecodeSettings { strict: true };

const MOST_PIXELS: u64 = 1 << 24;

/// The number of symbols of a dictionary, that number in codes of table B.1, and how many export runs of no symbols
/// come before the one that exports all.
const DICTIONARIES: &[(u32, &str, u32)] = &[
    (1000, "1100000001011011000", 1),
    (65536, "1101111111011110000", 1),
    (1048576, "11100000000000011101111111011110000", 1),
    (1000, "1100000001011011000", 65537),
];

/// Takes white rows that long chunks and single pixels draw.
#[derive(Drop)]
pub struct WhiteRows {
    width: u32,
    column: u32,
    rows: u32,
    differs: bool,
}

impl WhiteRows {
    /// No row so far; rows have this width.
    pub fn new(width: u32) -> WhiteRows {
        WhiteRows {
            width,
            column: 0,
            rows: 0,
            differs: false,
        }
    }

    /// Whether there are this many rows, and all are white.
    pub fn is_white(&self, height: u32) -> bool {
        !self.differs && self.rows == height
    }

    fn take(&mut self, black: bool, from: u32, count: u32) {
        self.differs = self.differs || black || self.column != from;
        self.column = self.column.saturating_add(count);
    }
}

impl Decoder for WhiteRows {
    // It refuses no call.
    ghost conduct = { record {
      Picture = Unit {0};
      picture = λ _. tt;
      step = λ p _. p;
      refuses = λ _ _ _. ⊥;
      refusals = λ _. 0;
    } };

    fn push_pixel(&mut self, black: bool) -> Result<()> {
        self.take(black, self.column.max(self.width & !7), 1);
        Ok(())
    }

    fn push_pixel_chunk(&mut self, black: bool, chunk_count: u32) -> Result<()> {
        self.take(black, 0, chunk_count.saturating_mul(8));
        Ok(())
    }

    fn next_line(&mut self) -> Result<()> {
        self.differs = self.differs || self.column != self.width;
        self.column = 0;
        self.rows = self.rows.saturating_add(1);
        Ok(())
    }
}

/// Writes a number over the four bytes from a place on.
fn write_number(bytes: &mut [u8], place: usize, number: u32) {
    for (offset, value) in number.to_be_bytes().iter().enumerate() {
        if let Some(byte) = bytes.get_mut(place.saturating_add(offset)) {
            *byte = *value;
        }
    }
}

/// Whether a page of this size, with nothing drawn on it, is white.
fn is_drawn_white(
    page: &Page<'_, Global>,
    width: u32,
    height: u32,
    context: &mut DecoderContext<Global>,
) -> Result<bool> {
    let mut rows = WhiteRows::new(width);
    page.decode_with(&mut rows, context)?;
    Ok(rows.is_white(height) && page.dimensions() == (width, height))
}

/// Whether such a page of this size is drawn white, and also a page with a region of its size.
fn size_holds(
    bytes: &mut [u8],
    width: u32,
    height: u32,
    context: &mut DecoderContext<Global>,
    alloc: Global,
) -> Result<bool> {
    for segment in [0, 30] {
        write_number(bytes, segment + 11, width);
        write_number(bytes, segment + 15, height);
    }
    let untouched = bytes.get(..30).unwrap_or(&[]);
    let page = Page::new_embedded(alloc, untouched, None, &STRICT)?;
    let holds = is_drawn_white(&page, width, height, context)?;
    let page = Page::new_embedded(alloc, bytes, None, &STRICT)?;
    page.decode_with(&mut Watcher::new(&[]), context)?;
    Ok(holds)
}

/// Appends binary digits as bytes; zeros fill up the last byte.
fn push_digits(bytes: &mut Vec<u8>, digits: &[u8]) -> Result<()> {
    for eight in digits.chunks(8) {
        let mut byte = 0;
        let mut place = 0x80u8;
        for digit in eight {
            if *digit == b'1' {
                byte |= place;
            }
            place >>= 1;
        }
        bytes.push(byte)?;
    }
    Ok(())
}

/// Appends the height class of a dictionary of `count` symbols of 1 by 1, which lie side by side.
fn push_class(alloc: Global, data: &mut Vec<u8>, count: u32) -> Result<()> {
    let mut class = Vec::from_slice(alloc, b"010")?;
    for _ in 1..count {
        class.push(b'0')?;
    }
    class.extend_from_slice(b"11111100000")?;
    push_digits(data, &class)?;
    for _ in 0..count.div_ceil(8) {
        data.push(0xFF)?;
    }
    Ok(())
}

/// Appends runs of no symbols, and the run that exports all.
fn push_export(alloc: Global, data: &mut Vec<u8>, export: &str, empty: u32) -> Result<()> {
    let mut runs = Vec::new(alloc);
    for _ in 0..empty {
        runs.extend_from_slice(b"00000")?;
    }
    runs.extend_from_slice(export.as_bytes())?;
    push_digits(data, &runs)
}

/// The data of a dictionary of `count` black symbols of 1 by 1 in one height class.
fn dictionary(alloc: Global, count: u32, export: &str, empty: u32) -> Result<Vec<u8>> {
    let mut data = Vec::from_slice(alloc, &[0, 1])?;
    data.extend_from_slice(&count.to_be_bytes())?;
    data.extend_from_slice(&count.to_be_bytes())?;
    push_class(alloc, &mut data, count)?;
    push_export(alloc, &mut data, export, empty)?;
    Ok(data)
}

/// A page, and such a dictionary.
fn page_with_dictionary(alloc: Global, count: u32, export: &str, empty: u32) -> Result<Vec<u8>> {
    let mut bytes = bytes_of(alloc, "P 0000000100000100000000")?;
    let data = dictionary(alloc, count, export, empty)?;
    write_number(&mut bytes, 37, u32::try_from(data.len()).unwrap_or(0));
    bytes.extend_from_slice(&data)?;
    Ok(bytes)
}

/// Whether the page of these bytes is drawn white.
fn is_white(alloc: Global, bytes: &[u8], context: &mut DecoderContext<Global>) -> Result<bool> {
    page_holds(&alloc, bytes, true, &Answer::Calls(WHITE), context)
}

/// Whether the page after each dictionary is white.
fn dictionaries_hold_in(alloc: Global, context: &mut DecoderContext<Global>) -> Result<bool> {
    for (count, export, empty) in DICTIONARIES {
        let bytes = page_with_dictionary(alloc, *count, export, *empty)?;
        if !is_white(alloc, &bytes, context)? {
            return Ok(false);
        }
    }
    Ok(true)
}

/// Whether that is so in a context of its own.
fn dictionaries_hold(alloc: Global) -> Result<bool> {
    let mut context = DecoderContext::new(alloc)?;
    dictionaries_hold_in(alloc, &mut context)
}

/// The first size in which these bytes are not drawn, if there is one.
fn first_wrong_size_in(
    alloc: Global,
    bytes: &mut [u8],
    context: &mut DecoderContext<Global>,
) -> Result<Option<(u32, u32)>> {
    for width in SIDES {
        for height in SIDES {
            let small = u64::from(width) * u64::from(height) <= MOST_PIXELS;
            if small && !size_holds(bytes, width, height, context, alloc)? {
                return Ok(Some((width, height)));
            }
        }
    }
    Ok(None)
}

/// The same, in a context of its own.
fn first_wrong_size(alloc: Global) -> Result<Option<(u32, u32)>> {
    let mut bytes = bytes_of(alloc, "P G8")?;
    let mut context = DecoderContext::new(alloc)?;
    first_wrong_size_in(alloc, &mut bytes, &mut context)
}

#[test]
fn pages_and_regions_of_each_size_are_drawn(rt: HostRuntime) {
    let mut wrong = first_wrong_size(rt.alloc());
    if wrong == Err(DecodeError::OutOfMemory) {
        wrong = first_wrong_size(rt.alloc());
    }
    assert!(rt; wrong == Ok(None));
}

#[test]
fn long_dictionaries_are_read(rt: HostRuntime) {
    let mut holds = dictionaries_hold(rt.alloc());
    if holds == Err(DecodeError::OutOfMemory) {
        holds = dictionaries_hold(rt.alloc());
    }
    assert!(rt; holds == Ok(true));
}
