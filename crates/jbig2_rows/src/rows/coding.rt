//! The rows R5 and R14.
use crate::case::{Case, Row};
use crate::coder::CoderCase;
use crate::errors::{INVALID_CODE, TOO_EARLY};
use crate::table::{Source, TableCase};

/// The decisions of T.88, H.2, eight for each byte.
pub const DECISIONS: &[u8] = &[
    0x00, 0x02, 0x00, 0x51, 0x00, 0x00, 0x00, 0xC0, 0x03, 0x52, 0x87, 0x2A, 0xAA, 0xAA, 0xAA, 0xAA,
    0x82, 0xC0, 0x20, 0x00, 0xFC, 0xD7, 0x9E, 0xF6, 0xBF, 0x7F, 0xED, 0x90, 0x4F, 0x46, 0xA3, 0xBF,
];

/// The bytes that code these decisions.
pub const CODED: &str = "84C73BFC E1A14304 02200000 410DBB86 F4317FFF 88FF3747 1ADB6ADF FFAC";

/// The rows R5.
const TABLES: &[Row] = &[
    Row {
        name: "R5.1",
        cases: &[
            Case::Table(TableCase::Refused {
                source: Source::Uniform(3, 1),
                error: INVALID_CODE,
            }),
            Case::Table(TableCase::Decoded {
                source: Source::Uniform(2, 1),
                bytes: "01",
                from: 7,
                answer: Ok(Some(1)),
            }),
            Case::Table(TableCase::Decoded {
                source: Source::Nothing,
                bytes: "00",
                from: 7,
                answer: Err(INVALID_CODE),
            }),
            Case::Table(TableCase::Decoded {
                source: Source::Nothing,
                bytes: "01",
                from: 7,
                answer: Err(INVALID_CODE),
            }),
            Case::Table(TableCase::Decoded {
                source: Source::Nothing,
                bytes: "",
                from: 0,
                answer: Err(TOO_EARLY),
            }),
        ],
    },
    Row {
        name: "R5.2",
        cases: &[
            Case::Table(TableCase::Left {
                bytes: "00*9 C0",
                bits: 6,
            }),
            Case::Table(TableCase::Decoded {
                source: Source::Custom("00*9 C0"),
                bytes: "00 00*4",
                from: 7,
                answer: Ok(Some(-1)),
            }),
            Case::Table(TableCase::Decoded {
                source: Source::Custom("00*9 C0"),
                bytes: "01 00*4",
                from: 7,
                answer: Ok(Some(0)),
            }),
            Case::Table(TableCase::Decoded {
                source: Source::Custom("00*9 C0"),
                bytes: "01 80 00*3",
                from: 7,
                answer: Err(INVALID_CODE),
            }),
        ],
    },
    Row {
        name: "R5.3",
        cases: &[
            Case::Table(TableCase::Refused {
                source: Source::Custom("70 00*7 01 1000"),
                error: INVALID_CODE,
            }),
            Case::Table(TableCase::Refused {
                source: Source::Custom("70 00*7 01 0F80"),
                error: INVALID_CODE,
            }),
            Case::Table(TableCase::Decoded {
                source: Source::Custom("70 00*7 01 8F20"),
                bytes: "01 00*4",
                from: 7,
                answer: Ok(Some(1)),
            }),
        ],
    },
];

/// The rows R14.
const LISTS: &[Row] = &[
    Row {
        name: "R14.1",
        cases: &[
            Case::Coder(CoderCase::Decoded {
                bytes: "FF7FFFAC",
                list: &[],
            }),
            Case::Coder(CoderCase::Decoded {
                bytes: "7FFFAC",
                list: &[(0, false)],
            }),
            Case::Coder(CoderCase::Decoded {
                bytes: "FF7FFFAC",
                list: &[(0, true)],
            }),
        ],
    },
    Row {
        name: "R14.2",
        cases: &[Case::Coder(CoderCase::ReadBack {
            decisions: DECISIONS,
            bytes: CODED,
        })],
    },
];

pub fn tables() -> &'static [Row] {
    TABLES
}

pub fn lists() -> &'static [Row] {
    LISTS
}
