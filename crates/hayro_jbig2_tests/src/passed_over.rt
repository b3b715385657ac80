//! Tests what lenient reading passes over: regions that fail, a segment that is cut off, and what refers to something
//! that isn't there.
use crate::bytes::bytes_of;
use hayro_jbig2::{
    DecodeError, DecodeSettings, DecoderContext, Page, ParseError, PassedOver, PassedSegment,
    RegionError, Result, SegmentError,
};
use std::alloc::Global;

/// A page of 8 by 1 with two regions whose operators are unknown (numbers 5 and 6) before one that is drawn.
const TWO_FAULTS: &str = "P G8@3=05@27=05 G8@3=06@27=06 G8@3=07";

/// The same page without faults.
const NO_FAULT: &str = "P G8";

const NOTHING: PassedOver = PassedOver {
    count: 0,
    first: None,
};

const TWO: PassedOver = PassedOver {
    count: 2,
    first: Some(PassedSegment {
        segment_number: Some(5),
        error: DecodeError::Region(RegionError::InvalidCombinationOperator),
    }),
};

/// The same page, where the bytes end in the data of segment 9, and where they end in the number of a segment.
const CUT_OFF: &str = "P G8 00000009 26 00 01 00000012 0000";

const CUT_IN_NUMBER: &str = "P G8 0000";

const CUT: PassedOver = PassedOver {
    count: 1,
    first: Some(PassedSegment {
        segment_number: Some(9),
        error: DecodeError::Parse(ParseError::UnexpectedEof),
    }),
};

const CUT_EARLY: PassedOver = PassedOver {
    count: 1,
    first: Some(PassedSegment {
        segment_number: None,
        error: DecodeError::Parse(ParseError::UnexpectedEof),
    }),
};

/// The same page with a text region whose dictionary isn't there, and which has no instance.
const NO_DICTIONARY: &str = "P G8 X@3=03@36=00";

const LACKS: PassedOver = PassedOver {
    count: 1,
    first: Some(PassedSegment {
        segment_number: Some(3),
        error: DecodeError::Segment(SegmentError::InvalidReference),
    }),
};

/// Pages that show the same, whether reading is strict, and what is passed over.
const PAGES: &[(&str, bool, PassedOver)] = &[
    (NO_FAULT, false, NOTHING),
    (TWO_FAULTS, false, TWO),
    (CUT_OFF, false, CUT),
    (CUT_IN_NUMBER, false, CUT_EARLY),
    (NO_DICTIONARY, false, LACKS),
    (NO_FAULT, true, NOTHING),
];

/// The packed row of a page that a context draws.
fn draw_row(
    alloc: Global,
    text: &str,
    strict: bool,
    context: &mut DecoderContext<Global>,
) -> Result<[u8; 1]> {
    let bytes = bytes_of(alloc, text)?;
    let page = Page::new_embedded(alloc, &bytes, None, &DecodeSettings { strict })?;
    page.draw_in(context)?;
    let mut row = [0];
    let drawn = context.drawn_page();
    if drawn.size() == 1 {
        drawn.read_at(0, &mut row);
    }
    Ok(row)
}

/// Whether a context reports what was passed over in the page drawn last, and not in a page before it.
fn holds_in(alloc: Global, context: &mut DecoderContext<Global>) -> Result<bool> {
    let whole = draw_row(alloc, NO_FAULT, true, context)?;
    for (text, strict, passed_over) in PAGES {
        let row = draw_row(alloc, text, *strict, context)?;
        let is_complete = passed_over.count == 0;
        if row != whole
            || context.passed_over() != passed_over
            || context.is_complete() != is_complete
        {
            return Ok(false);
        }
    }
    Ok(true)
}

/// Whether that is so for a context of its own.
fn holds(alloc: Global) -> Result<bool> {
    let mut context = DecoderContext::new(alloc)?;
    holds_in(alloc, &mut context)
}

#[test]
fn a_context_tells_what_was_passed_over(rt: HostRuntime) {
    let mut answer = holds(rt.alloc());
    if answer == Err(DecodeError::OutOfMemory) {
        answer = holds(rt.alloc());
    }
    assert!(rt; answer == Ok(true));
}
