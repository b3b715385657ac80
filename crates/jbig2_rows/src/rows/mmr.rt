//! The rows R4: MMR data.
use crate::answer::Modes::{Both, Lenient, Strict};
use crate::case::Case::Mmr;
use crate::case::Row;
use crate::errors::INVALID_MMR;
use crate::mmr::{ExpectedRows, MmrCase};

const ROWS: &[Row] = &[
    Row {
        name: "R4.1",
        cases: &[Mmr(MmrCase {
            modes: Both,
            width: 8,
            height: 1,
            bytes: "80",
            answer: Ok(ExpectedRows {
                used: 1,
                rows: &[0],
            }),
        })],
    },
    Row {
        name: "R4.2",
        cases: &[Mmr(MmrCase {
            modes: Both,
            width: 8,
            height: 1,
            bytes: "26A280",
            answer: Ok(ExpectedRows {
                used: 3,
                rows: &[0xFF],
            }),
        })],
    },
    Row {
        name: "R4.3",
        cases: &[Mmr(MmrCase {
            modes: Both,
            width: 8,
            height: 2,
            bytes: "26A2E0",
            answer: Ok(ExpectedRows {
                used: 3,
                rows: &[0xFF, 0xFF],
            }),
        })],
    },
    Row {
        name: "R4.4",
        cases: &[
            Mmr(MmrCase {
                modes: Strict,
                width: 8,
                height: 2,
                bytes: "26A280080080",
                answer: Err(INVALID_MMR),
            }),
            Mmr(MmrCase {
                modes: Lenient,
                width: 8,
                height: 2,
                bytes: "26A280080080",
                answer: Ok(ExpectedRows {
                    used: 6,
                    rows: &[0xFF, 0],
                }),
            }),
        ],
    },
    Row {
        name: "R4.5",
        cases: &[Mmr(MmrCase {
            modes: Both,
            width: 8,
            height: 1,
            bytes: "50",
            answer: Ok(ExpectedRows {
                used: 1,
                rows: &[0x01],
            }),
        })],
    },
    Row {
        name: "R4.6",
        cases: &[Mmr(MmrCase {
            modes: Both,
            width: 8,
            height: 1,
            bytes: "4A",
            answer: Ok(ExpectedRows {
                used: 1,
                rows: &[0],
            }),
        })],
    },
    Row {
        name: "R4.7",
        cases: &[
            Mmr(MmrCase {
                modes: Strict,
                width: 8,
                height: 1,
                bytes: "4100",
                answer: Err(INVALID_MMR),
            }),
            Mmr(MmrCase {
                modes: Lenient,
                width: 8,
                height: 1,
                bytes: "4100",
                answer: Ok(ExpectedRows {
                    used: 2,
                    rows: &[0],
                }),
            }),
        ],
    },
    Row {
        name: "R4.8",
        cases: &[
            Mmr(MmrCase {
                modes: Strict,
                width: 8,
                height: 1,
                bytes: "",
                answer: Err(INVALID_MMR),
            }),
            Mmr(MmrCase {
                modes: Lenient,
                width: 8,
                height: 1,
                bytes: "",
                answer: Ok(ExpectedRows {
                    used: 0,
                    rows: &[0],
                }),
            }),
        ],
    },
    Row {
        name: "R4.9",
        cases: &[Mmr(MmrCase {
            modes: Both,
            width: 0,
            height: 5,
            bytes: "FF",
            answer: Ok(ExpectedRows {
                used: 0,
                rows: &[0, 0, 0, 0, 0],
            }),
        })],
    },
];

pub fn rows() -> &'static [Row] {
    ROWS
}
