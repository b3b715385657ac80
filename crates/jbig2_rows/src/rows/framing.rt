//! The rows R1.
use crate::answer::Answer::{Calls, Refused, Undrawn};
use crate::answer::Modes::Both;
use crate::call::{WHITE, WHITE_TWICE};
use crate::case::Case::{ByMode, Page};
use crate::case::{Case, Row};
use crate::errors::TOO_EARLY;
use crate::salvage::{NOTHING, Report, SalvageCase};
use hayro_jbig2::{DecodeError, SegmentError};

const UNKNOWN_TYPE: DecodeError = DecodeError::Segment(SegmentError::UnknownType);

/// Segment 1 has an error that is forgiven: an extension that must be understood.
const ONE_EXTENSION: Report = Report {
    passed_over: 1,
    first: Some((Some(1), DecodeError::Unsupported)),
    cut_off: None,
};

/// It is an extension that is too short.
const ONE_SHORT: Report = Report {
    passed_over: 1,
    first: Some((Some(1), TOO_EARLY)),
    cut_off: None,
};

/// Its type is not listed.
const ONE_UNKNOWN: Report = Report {
    passed_over: 1,
    first: Some((Some(1), UNKNOWN_TYPE)),
    cut_off: None,
};

const ROWS: &[Row] = &[
    Row {
        name: "R1.1",
        cases: &[
            ByMode(
                "P 00000001 3E 00 01 00000004 80000000",
                Undrawn(DecodeError::Unsupported),
                Calls(WHITE),
            ),
            ByMode(
                "P 00000001 3E 00 01 00000003 800000",
                Undrawn(TOO_EARLY),
                Calls(WHITE),
            ),
            ByMode(
                "P 00000001 3F 00 01 00000000",
                Refused(UNKNOWN_TYPE),
                Calls(WHITE),
            ),
            // What is forgiven counts, of a page and of globals.
            Case::Salvage(SalvageCase::Page {
                globals: "",
                bytes: "P 00000001 3E 00 01 00000004 80000000",
                answer: Calls(WHITE),
                globals_report: NOTHING,
                report: ONE_EXTENSION,
            }),
            Case::Salvage(SalvageCase::Page {
                globals: "",
                bytes: "P 00000001 3E 00 01 00000003 800000",
                answer: Calls(WHITE),
                globals_report: NOTHING,
                report: ONE_SHORT,
            }),
            Case::Salvage(SalvageCase::Page {
                globals: "",
                bytes: "P 00000001 3F 00 01 00000000",
                answer: Calls(WHITE),
                globals_report: NOTHING,
                report: ONE_UNKNOWN,
            }),
            Case::Salvage(SalvageCase::Page {
                globals: "00000001 3E 00 00 00000004 80000000",
                bytes: "P",
                answer: Calls(WHITE),
                globals_report: ONE_EXTENSION,
                report: NOTHING,
            }),
        ],
    },
    Row {
        name: "R1.2",
        cases: &[Page(
            Both,
            "P@0=00000005@15=FFFFFFFF 00000001 32 00 01 00000004 00000001",
            Calls(WHITE_TWICE),
        )],
    },
];

pub fn rows() -> &'static [Row] {
    ROWS
}
