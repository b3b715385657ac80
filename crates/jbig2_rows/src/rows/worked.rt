//! The rows 1 to 19.
use crate::answer::Answer::{Calls, Refused, Undrawn};
use crate::answer::Modes::Both;
use crate::call::{BLACK, Call, DOT, LINE, PAPER, WHITE, WHITE_TWICE};
use crate::case::Case::{ByMode, Page};
use crate::case::{Case, Header, Row};
use crate::coder::{CoderCase, Reading};
use crate::errors::{INVALID_MMR, TOO_EARLY, TOO_LARGE};
use crate::rows::coding::{CODED, DECISIONS};
use crate::rows::{files, symbols};
use crate::salvage::{NOTHING, Report, SalvageCase};
use crate::table::TableCase;
use hayro_jbig2::parts::segment::SegmentType;
use hayro_jbig2::{DecodeError, FormatError};

/// 8191 times eight white pixels.
const MANY: Call = Call::Chunk(false, 8191);

/// One row of 65535 white pixels.
const WIDEST: &[Call] = &[MANY, PAPER, PAPER, PAPER, PAPER, PAPER, PAPER, PAPER, LINE];

/// Segment 1 has MMR data with a fault.
const ONE_FAULT: Report = Report {
    passed_over: 1,
    first: Some((Some(1), INVALID_MMR)),
    cut_off: None,
};

const ROWS: &[Row] = &[
    Row {
        name: "1",
        cases: files::ROW_1,
    },
    Row {
        name: "2",
        cases: files::ROW_2,
    },
    Row {
        name: "3",
        cases: files::ROW_3,
    },
    Row {
        name: "4",
        cases: &[
            Case::Header {
                bytes: "00000020 86 6B 021E05 04 00000010",
                header: Header {
                    segment_number: 32,
                    segment_type: SegmentType::ImmediateTextRegion,
                    retain_flag: false,
                    referred_to_segments: &[2, 30, 5],
                    page_association: 4,
                    data_length: Some(16),
                },
            },
            Case::Header {
                bytes: "00000234 40 E0000009 02FD 0100 0002 001E 0005 0200 0201 0202 0203 0204 00000401 00000020",
                header: Header {
                    segment_number: 564,
                    segment_type: SegmentType::SymbolDictionary,
                    retain_flag: true,
                    referred_to_segments: &[256, 2, 30, 5, 512, 513, 514, 515, 516],
                    page_association: 1025,
                    data_length: Some(32),
                },
            },
        ],
    },
    Row {
        name: "5",
        cases: &[
            Case::Size {
                bytes: "P",
                number: 1,
                width: 8,
                height: 1,
            },
            Page(Both, "P", Calls(WHITE)),
            Page(Both, "P@27=04", Calls(BLACK)),
            Page(
                Both,
                "P@11=00000009",
                Calls(&[Call::Chunk(false, 1), PAPER, LINE]),
            ),
            Page(Both, "P@11=0000FFFF", Calls(WIDEST)),
            Page(Both, "P@11=00010000", Refused(TOO_LARGE)),
            Page(
                Both,
                "P@11=00000000",
                Refused(DecodeError::Format(FormatError::EmptyPage)),
            ),
        ],
    },
    Row {
        name: "6",
        cases: &[
            Page(
                Both,
                "P@15=FFFFFFFF",
                Refused(DecodeError::Format(FormatError::UnknownPageHeight)),
            ),
            Page(
                Both,
                "P@15=FFFFFFFF 00000001 32 00 01 00000004 00000001",
                Calls(WHITE_TWICE),
            ),
        ],
    },
    Row {
        name: "7",
        cases: &[
            Page(Both, "P G", Calls(DOT)),
            Page(Both, "P G@19=FFFFFFFF", Calls(WHITE)),
        ],
    },
    Row {
        name: "8",
        cases: &[
            // After the first decision A is A7FC. One quiet decision at row 1 would leave 73FB; taken, it
            // is the likely symbol 1, and A is E7F6. At row 2 each quiet decision takes 1801.
            Case::Coder(CoderCase::Readings {
                bytes: "",
                readings: &[
                    Reading::Decision(1),
                    Reading::Run(1, false),
                    Reading::Decision(1),
                    Reading::Run(5, false),
                    Reading::Run(4, true),
                ],
            }),
            Case::Coder(CoderCase::Readings {
                bytes: CODED,
                readings: &[Reading::Decisions(DECISIONS)],
            }),
        ],
    },
    Row {
        name: "9",
        cases: &[
            Case::Coder(CoderCase::Encoded {
                list: &[],
                bytes: "FF7FFFAC",
            }),
            Case::Coder(CoderCase::Encoded {
                list: &[(0, false)],
                bytes: "7FFFAC",
            }),
            Case::Coder(CoderCase::Encoded {
                list: &[(0, true)],
                bytes: "FF7FFFAC",
            }),
        ],
    },
    Row {
        name: "10",
        cases: &[
            Page(
                Both,
                "P 00000001260001 00000018 00000008 00000001 00*9 01 26A280080080",
                Calls(BLACK),
            ),
            ByMode(
                "P 00000001260001 00000013 00000008 00000001 00*9 01 26",
                Undrawn(INVALID_MMR),
                Calls(WHITE),
            ),
            // The fault counts, also of an intermediate region.
            Case::Salvage(SalvageCase::Page {
                globals: "",
                bytes: "P 00000001260001 00000013 00000008 00000001 00*9 01 26",
                answer: Calls(WHITE),
                globals_report: NOTHING,
                report: ONE_FAULT,
            }),
            Case::Salvage(SalvageCase::Page {
                globals: "",
                bytes: "P 00000001240001 00000013 00000008 00000001 00*9 01 26",
                answer: Calls(WHITE),
                globals_report: NOTHING,
                report: ONE_FAULT,
            }),
        ],
    },
    Row {
        name: "11",
        cases: symbols::ROW_11,
    },
    Row {
        name: "12",
        cases: symbols::ROW_12,
    },
    Row {
        name: "13",
        cases: &[Page(Both, "P D T@8=00000028 26A8", Calls(BLACK))],
    },
    Row {
        name: "14",
        cases: &[ByMode("P 00000001 26", Refused(TOO_EARLY), Calls(WHITE))],
    },
    Row {
        name: "15",
        cases: &[
            Case::Table(TableCase::StandardA {
                bytes: "05",
                from: 3,
                answer: Ok(Some(5)),
            }),
            Case::Table(TableCase::StandardA {
                bytes: "0203",
                from: 6,
                answer: Ok(Some(19)),
            }),
        ],
    },
    Row {
        name: "16",
        cases: files::ROW_16,
    },
    Row {
        name: "17",
        cases: symbols::ROW_17,
    },
    Row {
        name: "18",
        cases: &[
            Case::StaysWhite(2147483646, 0),
            Case::StaysWhite(0, 2147483646),
        ],
    },
    Row {
        name: "19",
        cases: &[Case::WidePatterns],
    },
];

pub fn rows() -> &'static [Row] {
    ROWS
}
