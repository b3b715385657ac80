//! The rows R6: refinements.
use crate::answer::Answer::{Calls, Undrawn};
use crate::answer::Modes::Both;
use crate::call::{BLACK, Call, INK, LINE, PAPER, WHITE};
use crate::case::Case::{ByMode, Page};
use crate::case::Row;
use crate::errors::{INVALID_REFERENCE, INVALID_SIZE};
use hayro_jbig2::{DecodeError, OverflowError};

/// One row of seven black pixels and a white one.
const SEVEN_BLACK: &[Call] = &[INK, INK, INK, INK, INK, INK, INK, PAPER, LINE];

const ROWS: &[Row] = &[
    Row {
        name: "R6.1",
        cases: &[
            Page(
                Both,
                "P 000000012A0001 00000012 00000008 00000001 00*9 01",
                Calls(BLACK),
            ),
            Page(
                Both,
                "P 000000012A0001 00000012 00000008 00000001 00*9 03",
                Calls(WHITE),
            ),
        ],
    },
    Row {
        name: "R6.2",
        cases: &[
            Page(
                Both,
                "P G8@4=24 000000022A200101 00000012 00000008 00000001 00*9 01",
                Calls(SEVEN_BLACK),
            ),
            ByMode(
                "P G8@4=24 000000022A200101 00000012 00000009 00000001 00*9 01",
                Undrawn(INVALID_SIZE),
                Calls(WHITE),
            ),
            ByMode(
                "P 000000022A200101 00000012 00000008 00000001 00*9 01",
                Undrawn(INVALID_REFERENCE),
                Calls(BLACK),
            ),
        ],
    },
    Row {
        name: "R6.3",
        cases: &[
            ByMode(
                "P 000000012A0001 00000012 00000008 00000001 80000000 00*5 01",
                Undrawn(DecodeError::Overflow(OverflowError::ReferenceOffset)),
                Calls(WHITE),
            ),
            ByMode(
                "P 00000001280001 00000012 00000008 00000001 00*9 01",
                Undrawn(INVALID_REFERENCE),
                Calls(WHITE),
            ),
        ],
    },
];

pub fn rows() -> &'static [Row] {
    ROWS
}
