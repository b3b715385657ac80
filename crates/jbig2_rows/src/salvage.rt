//! The cases of salvage.
use crate::answer::{Answer, refused_as};
use crate::drawing::drawing_holds;
use crate::file_case::{FilePage, all_pages_hold};
use crate::spelling::bytes_of;
use hayro_jbig2::{
    CutOff, DecodeError, DecoderContext, File, Globals, Page, PassedOver, Result, WorkLimit,
};
use std::alloc::Allocator;

/// One case of salvage. `spelling::bytes_of` reads its bytes.
pub enum SalvageCase {
    /// The result of an embedded page with globals, and what each of them reports.
    Page {
        globals: &'static str,
        bytes: &'static str,
        answer: Answer,
        globals_report: Report,
        report: Report,
    },
    /// The pages of a file.
    File {
        bytes: &'static str,
        pages: &'static [FilePage],
        left_out: &'static [DecodeError],
        /// What was passed over of the segments of no page, and what ended the file's list.
        report: Report,
    },
}

/// What salvage reports about what it left out.
pub struct Report {
    /// How many segments were passed over.
    pub passed_over: usize,
    /// The number, if it is known, and the error of the first.
    pub first: Option<(Option<u32>, DecodeError)>,
    /// The same of the segment at which the list ended early.
    pub cut_off: Option<(Option<u32>, DecodeError)>,
}

/// Nothing was left out.
pub const NOTHING: Report = Report {
    passed_over: 0,
    first: None,
    cut_off: None,
};

/// Whether a case holds. The only error is `DecodeError::OutOfMemory`.
pub fn salvage_holds<A: Allocator + Clone>(
    alloc: &A,
    case: &SalvageCase,
    context: &mut DecoderContext<A>,
) -> Result<bool> {
    match case {
        SalvageCase::Page {
            globals,
            bytes,
            answer,
            globals_report,
            report,
        } => {
            let globals = bytes_of(alloc, globals)?;
            let bytes = bytes_of(alloc, bytes)?;
            let (Some(globals), Some(bytes)) = (globals, bytes) else {
                return Ok(false);
            };
            let globals = match Globals::salvaged(
                alloc.clone()?,
                &globals,
                &mut WorkLimit::new(None),
            ) {
                Ok(globals) => globals,
                Err(error) => return refused_as(error, None),
            };
            let known = is_reported(globals_report, globals.passed_over(), globals.cut_off());
            Ok(known && page_holds(alloc, &bytes, Some(&globals), answer, report, context)?)
        }
        SalvageCase::File {
            bytes,
            pages,
            left_out,
            report,
        } => {
            let Some(bytes) = bytes_of(alloc, bytes)? else {
                return Ok(false);
            };
            file_holds(alloc, &bytes, pages, left_out, report, context)
        }
    }
}

fn is_reported(report: &Report, passed_over: &PassedOver, cut_off: Option<&CutOff>) -> bool {
    let first = match (&report.first, &passed_over.first) {
        (Some((number, error)), Some(first)) => {
            *number == first.segment_number && *error == first.error
        }
        (None, None) => true,
        _ => false,
    };
    let known = match (&report.cut_off, cut_off) {
        (Some((number, error)), Some(cut_off)) => {
            *number == cut_off.segment_number && *error == cut_off.error
        }
        (None, None) => true,
        _ => false,
    };
    first && known && report.passed_over == passed_over.count
}

fn page_holds<A: Allocator + Clone>(
    alloc: &A,
    bytes: &[u8],
    globals: Option<&Globals<A>>,
    answer: &Answer,
    report: &Report,
    context: &mut DecoderContext<A>,
) -> Result<bool> {
    let page = match Page::salvaged_embedded(alloc.clone()?, bytes, globals) {
        Ok(page) => page,
        Err(error) => return refused_as(
            error,
            match answer {
                Answer::Refused(expected) => Some(expected),
                _ => None,
            },
        ),
    };
    if !drawing_holds(&page, answer, context)? {
        return Ok(false);
    }
    // A Decoder's refusals have left no page in the context.
    match page.draw_in(context) {
        Ok(()) => Ok(is_reported(report, context.passed_over(), page.cut_off())),
        Err(error) => refused_as(
            error,
            match answer {
                Answer::Undrawn(expected) => Some(expected),
                _ => None,
            },
        ),
    }
}

fn file_holds<A: Allocator + Clone>(
    alloc: &A,
    bytes: &[u8],
    pages: &[FilePage],
    left_out: &[DecodeError],
    report: &Report,
    context: &mut DecoderContext<A>,
) -> Result<bool> {
    let file = match File::salvaged(alloc.clone()?, bytes, &mut WorkLimit::new(None)) {
        Ok(file) => file,
        Err(error) => return refused_as(error, None),
    };
    let shared = match file.shared() {
        Ok(globals) => is_reported(report, globals.passed_over(), file.cut_off()),
        Err(_) => false,
    };
    let known = shared && file.left_out() == left_out;
    Ok(known && all_pages_hold(&file, pages, context)?)
}
