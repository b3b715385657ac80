//! The cases of the rows, and how each one is run.
use crate::answer::{Answer, Modes, refused_as};
use crate::coder::{CoderCase, coder_holds};
use crate::combination::stays_white;
use crate::drawing::{drawing_holds, page_holds, white_holds};
use crate::file_case::{FileCase, file_holds};
use crate::mmr::{MmrCase, mmr_holds};
use crate::patterns::wide_patterns_hold;
use crate::salvage::{SalvageCase, salvage_holds};
use crate::spelling::bytes_of;
use crate::table::{TableCase, table_holds};
use hayro_jbig2::parts::reader::Reader;
use hayro_jbig2::parts::segment::{SegmentType, parse_segment_header};
use hayro_jbig2::{DecodeError, DecodeSettings, DecoderContext, Globals, Page, Result};
use std::alloc::Allocator;
use std::io;
use std::io::Write;
use std::marker::Brand;
use std::sync::ledger::Blank;

/// A row of the table: its name, and all its cases.
pub struct Row {
    pub name: &'static str,
    pub cases: &'static [Case],
}

/// The fields of a segment header.
pub struct Header {
    pub segment_number: u32,
    pub segment_type: SegmentType,
    pub retain_flag: bool,
    pub referred_to_segments: &'static [u32],
    pub page_association: u32,
    pub data_length: Option<u32>,
}

/// One case. `spelling::bytes_of` reads its bytes.
pub enum Case {
    /// The result of an embedded page in these modes.
    Page(Modes, &'static str, Answer),
    /// The result of an embedded page in strict mode, and in lenient mode.
    ByMode(&'static str, Answer, Answer),
    /// The result in these modes of each beginning of an embedded page, for each length from the first to the second
    /// number of bytes.
    Beginnings(Modes, &'static str, (usize, usize), Answer),
    /// The result of drawing an embedded page with globals, in both modes.
    Shared {
        globals: &'static str,
        bytes: &'static str,
        answer: Answer,
    },
    /// The number, the width and the height of an embedded page.
    Size {
        bytes: &'static str,
        number: u32,
        width: u32,
        height: u32,
    },
    /// The fields that `parse_segment_header` reads in strict mode.
    Header {
        bytes: &'static str,
        header: Header,
    },
    /// A black bitmap, combined by Or at this place, leaves a white bitmap of 8 by 8 white.
    StaysWhite(i32, i32),
    /// The arithmetic coder.
    Coder(CoderCase),
    /// Tables of prefix codes.
    Table(TableCase),
    /// MMR data.
    Mmr(MmrCase),
    /// Files.
    File(FileCase),
    /// Salvage.
    Salvage(SalvageCase),
    /// Two patterns of 200 by 1, which the arithmetic encoder codes, are decoded.
    WidePatterns,
}

/// Whether every case of a row holds. After each one, row 5's page must be drawn in the same context. The only error is
/// `DecodeError::OutOfMemory`.
pub fn row_holds<A: Allocator + Clone>(
    alloc: &A,
    row: &Row,
    context: &mut DecoderContext<A>,
) -> Result<bool> {
    for case in row.cases {
        let holds = case_holds(alloc, case, context)?;
        if !holds || !white_holds(alloc, context)? {
            return Ok(false);
        }
    }
    Ok(true)
}

/// Whether a row holds. If memory ran out, row 5's page must be drawn in the same context, and then the row must hold.
pub fn row_serves_on<A: Allocator + Clone>(
    alloc: &A,
    row: &Row,
    context: &mut DecoderContext<A>,
) -> Result<bool> {
    let holds = row_holds(alloc, row, context);
    if holds != Err(DecodeError::OutOfMemory) {
        return holds;
    }
    if !white_holds(alloc, context)? {
        return Ok(false);
    }
    row_holds(alloc, row, context)
}

/// Prints whether a row holds.
pub(crate) fn print_row<O: Write>(row: &Row, holds: bool, out: &mut O) -> io::Result<()> {
    let verdict = if holds { "ok" } else { "differs" };
    writeln!(out, "row {} {verdict}", row.name)
}

fn case_holds<A: Allocator + Clone>(
    alloc: &A,
    case: &Case,
    context: &mut DecoderContext<A>,
) -> Result<bool> {
    match case {
        Case::Page(modes, bytes, answer) => answer_holds(alloc, *modes, bytes, answer, context),
        Case::ByMode(bytes, strict, lenient) => {
            answers_hold(alloc, bytes, strict, lenient, context)
        }
        Case::Beginnings(modes, bytes, lengths, answer) => {
            beginnings_hold(alloc, *modes, bytes, *lengths, answer, context)
        }
        Case::Shared {
            globals,
            bytes,
            answer,
        } => shared_holds(alloc, globals, bytes, answer, context),
        Case::Size {
            bytes,
            number,
            width,
            height,
        } => size_holds(alloc, bytes, *number, *width, *height),
        Case::Header { bytes, header } => header_holds(alloc, bytes, header),
        Case::Coder(case) => coder_holds(alloc, case),
        Case::Table(case) => table_holds(alloc, case),
        Case::Mmr(case) => mmr_holds(alloc, case),
        Case::File(case) => file_holds(alloc, case, context),
        Case::Salvage(case) => salvage_holds(alloc, case, context),
        Case::StaysWhite(x, y) => stays_white(alloc, *x, *y),
        Case::WidePatterns => wide_patterns_hold::<A, Brand>(alloc, Blank::new(7)),
    }
}

/// Whether the embedded page in this text has this result in these modes.
fn answer_holds<A: Allocator + Clone>(
    alloc: &A,
    modes: Modes,
    bytes: &str,
    answer: &Answer,
    context: &mut DecoderContext<A>,
) -> Result<bool> {
    let Some(bytes) = bytes_of(alloc, bytes)? else {
        return Ok(false);
    };
    modes_hold(alloc, modes, &bytes, answer, context)
}

/// Whether the embedded page in this text has these results. Row 5's page is drawn between the two.
fn answers_hold<A: Allocator + Clone>(
    alloc: &A,
    bytes: &str,
    strict: &Answer,
    lenient: &Answer,
    context: &mut DecoderContext<A>,
) -> Result<bool> {
    Ok(
        answer_holds(alloc, Modes::Strict, bytes, strict, context)?
            && white_holds(alloc, context)?
            && answer_holds(alloc, Modes::Lenient, bytes, lenient, context)?,
    )
}

fn modes_hold<A: Allocator + Clone>(
    alloc: &A,
    modes: Modes,
    bytes: &[u8],
    answer: &Answer,
    context: &mut DecoderContext<A>,
) -> Result<bool> {
    for strict in [true, false] {
        if modes.has(strict) && !page_holds(alloc, bytes, strict, answer, context)? {
            return Ok(false);
        }
    }
    Ok(true)
}

/// Whether each beginning of these lengths, also the last one, has this result in these modes.
fn beginnings_hold<A: Allocator + Clone>(
    alloc: &A,
    modes: Modes,
    bytes: &str,
    lengths: (usize, usize),
    answer: &Answer,
    context: &mut DecoderContext<A>,
) -> Result<bool> {
    let Some(bytes) = bytes_of(alloc, bytes)? else {
        return Ok(false);
    };
    for length in lengths.0..=lengths.1 {
        let Some(beginning) = bytes.get(..length) else {
            return Ok(false);
        };
        if !modes_hold(alloc, modes, beginning, answer, context)? {
            return Ok(false);
        }
    }
    Ok(true)
}

/// Whether drawing the embedded page in this text has this result with these globals.
fn shared_holds<A: Allocator + Clone>(
    alloc: &A,
    globals: &str,
    bytes: &str,
    answer: &Answer,
    context: &mut DecoderContext<A>,
) -> Result<bool> {
    let globals = bytes_of(alloc, globals)?;
    let bytes = bytes_of(alloc, bytes)?;
    let (Some(globals), Some(bytes)) = (globals, bytes) else {
        return Ok(false);
    };
    for strict in [true, false] {
        let settings = DecodeSettings { strict };
        let globals = match Globals::new(alloc.clone()?, &globals, &settings) {
            Ok(globals) => globals,
            Err(error) => return refused_as(error, None),
        };
        let page = match Page::new_embedded(alloc.clone()?, &bytes, Some(&globals), &settings) {
            Ok(page) => page,
            Err(error) => return refused_as(error, None),
        };
        if !drawing_holds(&page, answer, context)? {
            return Ok(false);
        }
    }
    Ok(true)
}

/// Whether the embedded page in this text has this number and size.
fn size_holds<A: Allocator + Clone>(
    alloc: &A,
    bytes: &str,
    number: u32,
    width: u32,
    height: u32,
) -> Result<bool> {
    let Some(bytes) = bytes_of(alloc, bytes)? else {
        return Ok(false);
    };
    let page = match Page::new_embedded(
        alloc.clone()?,
        &bytes,
        None,
        &DecodeSettings { strict: true },
    ) {
        Ok(page) => page,
        Err(error) => return refused_as(error, None),
    };
    let sized = page.width() == width && page.height() == height;
    Ok(sized && page.number() == number && page.dimensions() == (width, height))
}

/// Whether the segment header in this text has these fields.
fn header_holds<A: Allocator + Clone>(alloc: &A, bytes: &str, expected: &Header) -> Result<bool> {
    let Some(bytes) = bytes_of(alloc, bytes)? else {
        return Ok(false);
    };
    let mut reader = Reader::new(&bytes);
    let header = match parse_segment_header(alloc.clone()?, &mut reader, true) {
        Ok(header) => header,
        Err(error) => return refused_as(error, None),
    };
    Ok(
        header.segment_number == expected.segment_number
            && header.segment_type == expected.segment_type
            && header.retain_flag == expected.retain_flag
            && header.referred_to_segments.as_slice() == expected.referred_to_segments
            && header.page_association == expected.page_association
            && header.data_length == expected.data_length
            && reader.at_end(),
    )
}
