//! The rows R3: generic regions.
use crate::answer::Answer::{Calls, Refused, Undrawn};
use crate::answer::Modes::Both;
use crate::call::{BLACK, Call, INK, LINE, PAPER, WHITE};
use crate::case::Case::{ByMode, Page};
use crate::case::Row;
use crate::errors::INVALID_SIZE;
use hayro_jbig2::{DecodeError, SegmentError};

/// One row of black pixels with two white ones among them.
const FAR_PIXEL: &[Call] = &[INK, INK, INK, INK, INK, PAPER, INK, PAPER, LINE];

const UNKNOWN_LENGTH: DecodeError = DecodeError::Segment(SegmentError::InvalidUnknownLength);

const ROWS: &[Row] = &[
    Row {
        name: "R3.1",
        cases: &[
            Page(
                Both,
                "P 00000001260001 00000014 00000008 00000001 00*9 02 03FF",
                Calls(BLACK),
            ),
            Page(
                Both,
                "P 00000001260001 00000014 00000008 00000001 00*9 04 02FF",
                Calls(BLACK),
            ),
            Page(
                Both,
                "P 00000001260001 00000014 00000008 00000001 00*9 06 02FF",
                Calls(BLACK),
            ),
            Page(Both, "P G8@29=FB00", Calls(FAR_PIXEL)),
            Page(
                Both,
                "P 00000001260001 0000002A 00000008 00000001 00*9 10 FE0000FEFEFFFFFE01FE02FFFD00FC0002FE03FFFEFEFDFF",
                Calls(BLACK),
            ),
        ],
    },
    Row {
        name: "R3.2",
        cases: &[Page(Both, "P G8@28=08", Calls(WHITE))],
    },
    Row {
        name: "R3.3",
        cases: &[
            Page(Both, "P G8@7=FFFFFFFF FFAC 00000001", Calls(BLACK)),
            ByMode(
                "P G8@7=FFFFFFFF FFAC 00000002",
                Undrawn(INVALID_SIZE),
                Calls(WHITE),
            ),
            Page(Both, "P G8@7=FFFFFFFF FFAC 00000000", Calls(WHITE)),
            Page(
                Both,
                "P G8@7=FFFFFFFF FFAC 000000",
                Refused(DecodeError::Segment(SegmentError::MissingEndMarker)),
            ),
            ByMode(
                "P G8@4=27@7=FFFFFFFF FFAC 00000001",
                Refused(UNKNOWN_LENGTH),
                Calls(BLACK),
            ),
            ByMode(
                "P G8@4=24@7=FFFFFFFF FFAC 00000001",
                Refused(UNKNOWN_LENGTH),
                Calls(WHITE),
            ),
        ],
    },
];

pub fn rows() -> &'static [Row] {
    ROWS
}
