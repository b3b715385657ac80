//! The rows of symbol dictionaries and text regions.
use crate::answer::Answer::{Calls, Refused, Undrawn};
use crate::answer::Modes::{Both, Lenient, Strict};
use crate::call::{DOT, WHITE};
use crate::case::Case::{Beginnings, ByMode, Page};
use crate::case::{Case, Row};
use crate::coder::CoderCase;
use crate::errors::{INVALID_SELECTION, NO_PAGE, TOO_EARLY};
use crate::salvage::{NOTHING, Report, SalvageCase};
use hayro_jbig2::{DecodeError, HuffmanError, OverflowError, SymbolError};

const TOO_MANY: DecodeError = DecodeError::Symbol(SymbolError::TooManyInstances);

const INVALID: DecodeError = DecodeError::Symbol(SymbolError::Invalid);

const NO_SYMBOL: DecodeError = DecodeError::Symbol(SymbolError::OutOfRange);

pub const ROW_11: &[Case] = &[Page(Both, "P S X", Calls(DOT))];

pub const ROW_12: &[Case] = &[
    ByMode("P S X@33=00000002", Undrawn(TOO_EARLY), Calls(WHITE)),
    Page(Both, "P", Calls(WHITE)),
];

pub const ROW_17: &[Case] = &[Page(Both, "P S@7=000A000E@24=0000 00*655359", Undrawn(INVALID))];

/// The decisions of a symbol dictionary of one black symbol of 1 by 1. The contexts of heights, widths and runs begin
/// at 1024, 1536 and 2048.
const DICTIONARY: &[(u16, bool)] = &[
    // The height of the class.
    (1025, false),
    (1026, false),
    (1028, false),
    (1032, true),
    // The width of the symbol.
    (1537, false),
    (1538, false),
    (1540, false),
    (1544, true),
    // The pixel.
    (0, true),
    // The end of the class.
    (1537, true),
    (1539, false),
    (1542, false),
    (1548, false),
    // A run of 0 symbols that are not exported, and a run of 1 that is.
    (2049, false),
    (2050, false),
    (2052, false),
    (2056, false),
    (2049, false),
    (2050, false),
    (2052, false),
    (2056, true),
];

/// The decisions of a text region of one instance. The contexts of first places begin at 512, of distances at 1024.
const TEXT: &[(u16, bool)] = &[
    // The place where the strips begin, and the place of the first strip.
    (1, false),
    (2, false),
    (4, false),
    (8, false),
    (1, false),
    (2, false),
    (4, false),
    (8, false),
    // The first instance.
    (513, false),
    (514, false),
    (516, false),
    (520, false),
    // The end of the strip.
    (1025, true),
    (1027, false),
    (1030, false),
    (1036, false),
];

/// The rows R8.
const ROWS_8: &[Row] = &[
    Row {
        name: "R8.1",
        cases: &[
            Page(Both, "P S@11=0101", Undrawn(INVALID)),
            Page(Both, "P S@11=0009", Undrawn(INVALID_SELECTION)),
            Page(
                Both,
                "P S@11=000D",
                Undrawn(DecodeError::Huffman(HuffmanError::MissingTables)),
            ),
            Page(
                Both,
                "P S@13=00000002",
                Undrawn(DecodeError::Symbol(SymbolError::NoSymbols)),
            ),
            Page(
                Both,
                "P S@17=00100001",
                Undrawn(DecodeError::Overflow(OverflowError::SymbolCount)),
            ),
        ],
    },
    Row {
        name: "R8.2",
        cases: &[
            Page(
                Both,
                "P S@23=00 000000020020010100 00000E 1003 00000001 00000001 4100FC21 X@0=00000003@6=02",
                Calls(DOT),
            ),
            Page(
                Both,
                "P S@23=00 000000020020010100 00000E 1003 00000001 00000001 4180FC21 X@0=00000003@6=02",
                Undrawn(NO_SYMBOL),
            ),
            Page(
                Both,
                "P S@23=00 000000020020010100 00000E 1003 00000001 00000001 4000FC21 X@0=00000003@6=02",
                Undrawn(INVALID),
            ),
            Page(
                Both,
                "P S@23=00 X@8=0000002F@29=8013@56=08 0040",
                Calls(DOT),
            ),
            Page(
                Both,
                "P S@23=00 0000000206200101 0000001E 00000008 00000001 00*9 8012 00000001 A96CB7EBDFFFAC",
                Calls(DOT),
            ),
        ],
    },
    Row {
        name: "R8.3",
        cases: &[
            ByMode("P S X@33=000005A1", Undrawn(TOO_MANY), Calls(WHITE)),
            ByMode("P S X@33=000005A0", Undrawn(TOO_EARLY), Calls(WHITE)),
        ],
    },
    Row {
        name: "R8.4",
        cases: &[
            ByMode("P S X@55=0000", Undrawn(TOO_MANY), Calls(DOT)),
            // The number after the last instance counts.
            Case::Salvage(SalvageCase::Page {
                globals: "",
                bytes: "P S X@55=0000",
                answer: Calls(DOT),
                globals_report: NOTHING,
                report: Report {
                    passed_over: 1,
                    first: Some((Some(2), TOO_MANY)),
                    cut_off: None,
                },
            }),
        ],
    },
    Row {
        name: "R8.5",
        cases: &[Page(
            Lenient,
            "P S G@0=00000002@29=0000 X@0=00000003@33=00000002",
            Calls(WHITE),
        )],
    },
    Row {
        name: "R8.6",
        cases: &[
            Case::Coder(CoderCase::Encoded {
                list: DICTIONARY,
                bytes: "93FC7FFFAC",
            }),
            Page(
                Both,
                "P 00000001000001 00000011 0800 02FF 00000001 00000001 93FC7FFFAC X",
                Calls(DOT),
            ),
            Case::Coder(CoderCase::Encoded {
                list: TEXT,
                bytes: "A943FFAC",
            }),
            Page(
                Both,
                "P S 0000000206200101 0000001B 00000008 00000001 00*9 0010 00000001 A943FFAC",
                Calls(DOT),
            ),
            // Without a dictionary there is no symbol. It is not drawn, and counts.
            ByMode(
                "P 00000002060001 0000001B 00000008 00000001 00*9 0010 00000001 A943FFAC",
                Undrawn(NO_SYMBOL),
                Calls(WHITE),
            ),
            Case::Salvage(SalvageCase::Page {
                globals: "",
                bytes: "P 00000002060001 0000001B 00000008 00000001 00*9 0010 00000001 A943FFAC",
                answer: Calls(WHITE),
                globals_report: NOTHING,
                report: Report {
                    passed_over: 1,
                    first: Some((Some(2), NO_SYMBOL)),
                    cut_off: None,
                },
            }),
        ],
    },
];

/// The rows R13, except those of files.
const ROWS_13: &[Row] = &[
    Row {
        name: "R13.1",
        cases: &[
            Page(
                Both,
                "P 00000001000001 0020000C 0001 00000001 00000001 7E00*1048577",
                Undrawn(INVALID),
            ),
            Page(
                Both,
                "P 00000001000001 0020000A 0001 00000001 00000001 7E00*1048576",
                Undrawn(TOO_EARLY),
            ),
        ],
    },
    Row {
        name: "R13.2",
        cases: &[Page(Both, "P S@7=000A000D@24=0000 00*655358", Undrawn(TOO_EARLY))],
    },
    Row {
        name: "R13.3",
        cases: &[
            Page(Both, "P S S@23=00 X", Calls(DOT)),
            Page(Both, "P S@23=00 S X", Calls(WHITE)),
        ],
    },
    Row {
        name: "R13.4",
        cases: &[
            Beginnings(Strict, "P S X", (0, 0), Refused(NO_PAGE)),
            Beginnings(Strict, "P S X", (1, 29), Refused(TOO_EARLY)),
            Beginnings(Strict, "P S X", (30, 30), Calls(WHITE)),
            Beginnings(Strict, "P S X", (31, 55), Refused(TOO_EARLY)),
            Beginnings(Strict, "P S X", (56, 56), Calls(WHITE)),
            Beginnings(Strict, "P S X", (57, 112), Refused(TOO_EARLY)),
            Beginnings(Lenient, "P S X", (0, 29), Refused(NO_PAGE)),
            Beginnings(Lenient, "P S X", (30, 112), Calls(WHITE)),
            Beginnings(Both, "P S X", (113, 113), Calls(DOT)),
        ],
    },
];

/// The rows R16.
const ROWS_16: &[Row] = &[
    Row {
        name: "R16.1",
        cases: &[Page(Lenient, "P S X@33=00000002 X@0=00000003", Calls(DOT))],
    },
    Row {
        name: "R16.2",
        cases: &[Page(Lenient, "P S X@28=04@33=00000002", Calls(WHITE))],
    },
];

pub fn rows_8() -> &'static [Row] {
    ROWS_8
}

pub fn rows_13() -> &'static [Row] {
    ROWS_13
}

pub fn rows_16() -> &'static [Row] {
    ROWS_16
}
