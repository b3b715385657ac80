//! The rows R9, and the cases of files in other rows.
use crate::answer::Answer::{Calls, Undrawn};
use crate::answer::Modes::{Both, Lenient, Strict};
use crate::call::{DOT, WHITE};
use crate::case::Case::File;
use crate::case::{Case, Row};
use crate::errors::{INVALID_REFERENCE, INVALID_SELECTION, NO_PAGE, PAGE_COUNT, TOO_EARLY};
use crate::file_case::FileCase::{CutOff, NoFirstPage, NoGlobals, Pages, Refused};
use crate::file_case::FilePage;
use hayro_jbig2::{DecodeError, FormatError, SegmentError};

const ONE_PAGE: &[FilePage] = &[FilePage {
    number: 1,
    dimensions: (8, 1),
    answer: Calls(WHITE),
}];

/// Headers of a page, its end and an end of file, and then the page's data.
const HEADERS_FIRST: &str = "H 00 00000001 00000000 30 00 01 00000013 00000001 31 00 01 00000000 \
    00000002 33 00 00 00000000 00000008 00000001 00*11";

pub const ROW_1: &[Case] = &[
    File(Refused(Both, "", TOO_EARLY)),
    File(Refused(
        Both,
        "00*8",
        DecodeError::Format(FormatError::InvalidHeader),
    )),
    File(Refused(Both, "H 11", DecodeError::Format(FormatError::ReservedBits))),
    File(Pages(Both, "H 03", &[])),
];

pub const ROW_2: &[Case] = &[
    File(Refused(Strict, "H 01 00000001", PAGE_COUNT)),
    File(Pages(Lenient, "H 01 00000001", &[])),
];

pub const ROW_3: &[Case] = &[
    File(NoGlobals(
        "00000001 30 A0",
        DecodeError::Segment(SegmentError::InvalidReferredCount),
    )),
    File(NoGlobals("00000002 00 20 02", INVALID_REFERENCE)),
];

pub const ROW_16: &[Case] = &[
    File(Pages(
        Strict,
        "H 01 00000001 P 00000001 31 00 01 00000000",
        ONE_PAGE,
    )),
    File(Refused(
        Strict,
        "H 01 00000001 P",
        DecodeError::Format(FormatError::InvalidEndOfPage),
    )),
    File(Pages(Strict, HEADERS_FIRST, ONE_PAGE)),
];

/// The rows R9.
const ROWS_9: &[Row] = &[
    Row {
        name: "R9.1",
        cases: &[File(Pages(
            Both,
            "H 03 P S@6=00@11=0009 00000002 31 00 01 00000000",
            &[FilePage {
                number: 1,
                dimensions: (8, 1),
                answer: Undrawn(INVALID_SELECTION),
            }],
        ))],
    },
    Row {
        name: "R9.2",
        cases: &[
            Case::Shared {
                globals: "S",
                bytes: "P X",
                answer: Calls(DOT),
            },
            Case::Shared {
                globals: "S@23=00",
                bytes: "P S X",
                answer: Calls(DOT),
            },
        ],
    },
    Row {
        name: "R9.4",
        cases: &[File(NoFirstPage("H 03", NO_PAGE))],
    },
];

/// The rows R13.
const ROWS_13: &[Row] = &[Row {
    name: "R13.5",
    cases: &[
        File(CutOff {
            bytes: HEADERS_FIRST,
            but: 13,
        }),
        File(Refused(Strict, "H 00 00000001", PAGE_COUNT)),
        File(Pages(Lenient, "H 00 00000001", &[])),
    ],
}];

pub fn rows_9() -> &'static [Row] {
    ROWS_9
}

pub fn rows_13() -> &'static [Row] {
    ROWS_13
}
