//! The rows R2 and R11: regions on the page.
use crate::answer::Answer::{Calls, Undrawn};
use crate::answer::Modes::Both;
use crate::call::{BLACK, Call, DOT, INK, LINE, PAPER, WHITE};
use crate::case::Case::{ByMode, Page};
use crate::case::Row;
use hayro_jbig2::{DecodeError, RegionError, TemplateError};

/// One row of a white pixel and seven black ones.
const WHITE_DOT: &[Call] = &[PAPER, INK, INK, INK, INK, INK, INK, INK, LINE];

const NO_OPERATOR: DecodeError = DecodeError::Region(RegionError::InvalidCombinationOperator);

/// The rows R2.
const ROWS_2: &[Row] = &[
    Row {
        name: "R2.1",
        cases: &[
            Page(Both, "P G@27=00", Calls(DOT)),
            Page(Both, "P@27=04 G@27=00", Calls(BLACK)),
            Page(Both, "P G@27=01", Calls(WHITE)),
            Page(Both, "P@27=04 G@27=01", Calls(BLACK)),
            Page(Both, "P G@27=02", Calls(DOT)),
            Page(Both, "P@27=04 G@27=02", Calls(WHITE_DOT)),
            Page(Both, "P G@27=03", Calls(WHITE)),
            Page(Both, "P@27=04 G@27=03", Calls(BLACK)),
            Page(Both, "P G@27=04", Calls(DOT)),
            Page(Both, "P@27=04 G@27=04", Calls(BLACK)),
            ByMode("P G@27=05", Undrawn(NO_OPERATOR), Calls(WHITE)),
            ByMode("P@27=04 G@27=05", Undrawn(NO_OPERATOR), Calls(BLACK)),
            ByMode("P G@27=08", Undrawn(DecodeError::Unsupported), Calls(WHITE)),
            ByMode(
                "P@27=04 G@27=08",
                Undrawn(DecodeError::Unsupported),
                Calls(BLACK),
            ),
        ],
    },
    Row {
        name: "R2.2",
        cases: &[Page(Both, "P G8", Calls(BLACK))],
    },
    Row {
        name: "R2.3",
        cases: &[
            Page(Both, "P@0=00000005 G", Calls(DOT)),
            Page(
                Both,
                "P 00000001 31 00 01 00000000 G@0=00000002",
                Calls(WHITE),
            ),
        ],
    },
    Row {
        name: "R2.4",
        cases: &[ByMode(
            "P G@29=0000",
            Undrawn(DecodeError::Template(TemplateError::InvalidAtPixel)),
            Calls(WHITE),
        )],
    },
];

/// The rows R11.
const ROWS_11: &[Row] = &[Row {
    name: "R11.1",
    cases: &[
        Page(Both, "P@27=04 G8@27=0008", Calls(BLACK)),
        Page(Both, "P@27=04 G8@27=0108", Calls(WHITE)),
        Page(Both, "P@27=04 G8@27=0208", Calls(BLACK)),
        Page(Both, "P@27=04 G8@27=0308", Calls(WHITE)),
        Page(Both, "P@27=04 G8@27=0408", Calls(WHITE)),
    ],
}];

pub fn rows_2() -> &'static [Row] {
    ROWS_2
}

pub fn rows_11() -> &'static [Row] {
    ROWS_11
}
