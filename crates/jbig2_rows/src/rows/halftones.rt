//! The rows R7 and R15: pattern dictionaries and halftone regions.
use crate::answer::Answer::{Calls, Undrawn};
use crate::answer::Modes::Both;
use crate::call::{BLACK, Call, DOT, INK, LINE, PAPER, WHITE};
use crate::case::Case::{ByMode, Page};
use crate::case::{Case, Row};
use crate::errors::{TOO_EARLY, TOO_LARGE};
use crate::salvage::{NOTHING, Report, SalvageCase};
use hayro_jbig2::{DecodeError, RegionError, SegmentError};

const NO_PATTERN: DecodeError = DecodeError::Region(RegionError::GrayScaleOutOfRange);

/// One row of three patterns of two pixels, and two white pixels.
const FOUR_CELLS: &[Call] = &[INK, PAPER, INK, INK, PAPER, INK, PAPER, PAPER, LINE];

/// The rows R7.
const ROWS_7: &[Row] = &[
    Row {
        name: "R7.1",
        cases: &[
            Page(
                Both,
                "P 00000001 10 00 01 00000007 01 08 01 FFFFFFFF",
                Undrawn(TOO_LARGE),
            ),
            Page(
                Both,
                "P 00000001 10 00 01 00000007 01 00 01 FFFFFFFF",
                Undrawn(TOO_EARLY),
            ),
        ],
    },
    Row {
        name: "R7.2",
        cases: &[ByMode(
            "P T@8=00000028 26A8",
            Undrawn(DecodeError::Segment(SegmentError::MissingPatternDictionary)),
            Calls(WHITE),
        )],
    },
    Row {
        name: "R7.3",
        cases: &[
            Page(Both, "P D T@8=00000028@38=00000800 26A8", Calls(WHITE)),
            Page(
                Both,
                "P D T@8=00000028@29=09@38=00000800 26A8",
                Calls(WHITE),
            ),
            Page(
                Both,
                "P 00000001100001 0000000A 01020100000003 3191F0 0000000216200101 00000029 00000006 00000001 00*9 08 00000004 00000001 FFFFFEC0 00000000 0200 0000 DDFFAC",
                Calls(FOUR_CELLS),
            ),
            Page(
                Both,
                "P 00000001100001 00000007 00010100000002 T@8=0000002A 26A826A8",
                Calls(DOT),
            ),
            ByMode(
                "P 00000001100001 00000007 00010100000002 T@8=00000029 26A880",
                Undrawn(NO_PATTERN),
                Calls(DOT),
            ),
            // The value without a pattern counts.
            Case::Salvage(SalvageCase::Page {
                globals: "",
                bytes: "P 00000001100001 00000007 00010100000002 T@8=00000029 26A880",
                answer: Calls(DOT),
                globals_report: NOTHING,
                report: Report {
                    passed_over: 1,
                    first: Some((Some(2), NO_PATTERN)),
                    cut_off: None,
                },
            }),
            Page(
                Both,
                "P 00000001100001 00000007 00010100000001 T@8=0000002A 26A826A8",
                Calls(DOT),
            ),
        ],
    },
];

/// The rows R15.
const ROWS_15: &[Row] = &[
    Row {
        name: "R15.1",
        cases: &[Page(Both, "P D T", Calls(BLACK))],
    },
    Row {
        name: "R15.2",
        cases: &[Page(Both, "P D T@29=00", Calls(BLACK))],
    },
];

pub fn rows_7() -> &'static [Row] {
    ROWS_7
}

pub fn rows_15() -> &'static [Row] {
    ROWS_15
}
