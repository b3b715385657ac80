//! The rows R17, of salvage.
use crate::answer::Answer::{Calls, Refused};
use crate::call::{BLACK, Call, DOT, INK, LINE, PAPER, WHITE};
use crate::case::{Case, Row};
use crate::errors::{
    INVALID_CODE, INVALID_OPERATOR, INVALID_REFERENCE, INVALID_SELECTION, NO_HEIGHT, NO_PAGE,
    TOO_EARLY, TOO_LARGE,
};
use crate::file_case::FilePage;
use crate::salvage::{NOTHING, Report, SalvageCase};
use hayro_jbig2::{DecodeError, FormatError, SegmentError};

/// A row of eight white pixels, and then one of a black pixel and seven white ones.
const WHITE_DOT: &[Call] = &[
    Call::Chunk(false, 1),
    LINE,
    INK,
    PAPER,
    PAPER,
    PAPER,
    PAPER,
    PAPER,
    PAPER,
    PAPER,
    LINE,
];

/// The same rows in the other order.
const DOT_WHITE: &[Call] = &[
    INK,
    PAPER,
    PAPER,
    PAPER,
    PAPER,
    PAPER,
    PAPER,
    PAPER,
    LINE,
    Call::Chunk(false, 1),
    LINE,
];

/// A row of some black pixels, and three white rows.
const FIRST_OF_FOUR: &[Call] = &[
    INK,
    PAPER,
    INK,
    PAPER,
    PAPER,
    INK,
    PAPER,
    INK,
    LINE,
    Call::Chunk(false, 1),
    LINE,
    Call::Chunk(false, 1),
    LINE,
    Call::Chunk(false, 1),
    LINE,
];

/// A row of some black pixels, and a black row.
const REFINED_FIRST: &[Call] = &[
    PAPER,
    INK,
    INK,
    INK,
    PAPER,
    INK,
    PAPER,
    PAPER,
    LINE,
    Call::Chunk(true, 1),
    LINE,
];

/// A row of a black pixel and seven white ones, and a black row.
const DOT_BLACK: &[Call] = &[
    INK,
    PAPER,
    PAPER,
    PAPER,
    PAPER,
    PAPER,
    PAPER,
    PAPER,
    LINE,
    Call::Chunk(true, 1),
    LINE,
];

const ONE_PAGE: &[FilePage] = &[FilePage {
    number: 1,
    dimensions: (8, 1),
    answer: Calls(WHITE),
}];

/// A header whose bytes are all 32.
const BAD_HEADER: Option<(Option<u32>, DecodeError)> = Some((Some(0x2020_2020), INVALID_REFERENCE));

/// The list of the segments of globals or of a file that ends at this header.
const BAD_REFERENCE: Report = Report {
    passed_over: 0,
    first: None,
    cut_off: BAD_HEADER,
};

/// The same of a page, which counts the segment.
const PAGE_BAD_REFERENCE: Report = Report {
    passed_over: 1,
    first: BAD_HEADER,
    cut_off: BAD_HEADER,
};

/// A list in random access whose bytes end in the data of segment 1.
const CUT_OFF: Report = Report {
    passed_over: 0,
    first: None,
    cut_off: Some((Some(1), TOO_EARLY)),
};

/// The same of a file in sequence.
const PART: Option<(Option<u32>, DecodeError)> = Some((Some(1), TOO_EARLY));

/// The same of a page, which counts the segment.
const PAGE_PART: Report = Report {
    passed_over: 1,
    first: PART,
    cut_off: PART,
};

/// The same of segment 2.
const PAGE_LACKS_2: Report = Report {
    passed_over: 1,
    first: Some((Some(2), TOO_EARLY)),
    cut_off: Some((Some(2), TOO_EARLY)),
};

/// Segment 2 has no end marker.
const NO_MARKER: Option<(Option<u32>, DecodeError)> = Some((
    Some(2),
    DecodeError::Segment(SegmentError::MissingEndMarker),
));

/// The dictionary with number 1 was passed over. It asks for a table that it does not refer to.
const ONE_PASSED: Report = Report {
    passed_over: 1,
    first: Some((Some(1), INVALID_SELECTION)),
    cut_off: None,
};

/// A region that needs this dictionary was passed over too.
const TWO_PASSED: Report = Report {
    passed_over: 2,
    first: Some((Some(1), INVALID_SELECTION)),
    cut_off: None,
};

/// The rows R17.
const ROWS: &[Row] = &[
    Row {
        name: "R17.1",
        cases: &[
            Case::Salvage(SalvageCase::Page {
                globals: "",
                bytes: "P G 20*16",
                answer: Calls(DOT),
                globals_report: NOTHING,
                report: PAGE_BAD_REFERENCE,
            }),
            Case::Salvage(SalvageCase::Page {
                globals: "",
                bytes: "P G G8@3=02@7=FFFFFFFF",
                answer: Calls(DOT),
                globals_report: NOTHING,
                report: Report {
                    passed_over: 1,
                    first: NO_MARKER,
                    cut_off: NO_MARKER,
                },
            }),
            Case::Salvage(SalvageCase::Page {
                globals: "",
                bytes: "P G 00000002 26",
                answer: Calls(DOT),
                globals_report: NOTHING,
                report: PAGE_LACKS_2,
            }),
            // Only the first row of the region is whole.
            Case::Salvage(SalvageCase::Page {
                globals: "",
                bytes: "P@15=00000004 00000001 26 00 01 00000020 00000008 00000004 00*9 00 03FFFDFF02FEFEFE \
                    BE3C87",
                answer: Calls(FIRST_OF_FOUR),
                globals_report: NOTHING,
                report: PAGE_PART,
            }),
            // Only the first row of the refinement is whole. Below it the page shows.
            Case::Salvage(SalvageCase::Page {
                globals: "",
                bytes: "P@15=00000002@27=04 00000001 2A 00 01 00000020 00000008 00000002 00*8 04 01 0E71E0",
                answer: Calls(REFINED_FIRST),
                globals_report: NOTHING,
                report: PAGE_PART,
            }),
            // Only the first row of MMR data is whole.
            Case::Salvage(SalvageCase::Page {
                globals: "",
                bytes: "P@15=00000002@27=04 00000001 26 00 01 00000020 00000008 00000002 00*8 04 01 26AB",
                answer: Calls(DOT_BLACK),
                globals_report: NOTHING,
                report: PAGE_PART,
            }),
            // Nothing can be drawn of a text region whose dictionary isn't there. It counts once.
            Case::Salvage(SalvageCase::Page {
                globals: "",
                bytes: "P 00000002 06 20 01 01 00000020 00000008 00000001 00*9 0000",
                answer: Calls(WHITE),
                globals_report: NOTHING,
                report: PAGE_LACKS_2,
            }),
        ],
    },
    Row {
        name: "R17.2",
        cases: &[
            Case::Salvage(SalvageCase::Page {
                globals: "",
                bytes: "P S@11=0009 G@3=02",
                answer: Calls(DOT),
                globals_report: NOTHING,
                report: ONE_PASSED,
            }),
            Case::Salvage(SalvageCase::Page {
                globals: "",
                bytes: "P S@11=0009 X",
                answer: Calls(WHITE),
                globals_report: NOTHING,
                report: TWO_PASSED,
            }),
            Case::Salvage(SalvageCase::Page {
                globals: "",
                bytes: "P S@11=0009 S X",
                answer: Calls(DOT),
                globals_report: NOTHING,
                report: ONE_PASSED,
            }),
            Case::Salvage(SalvageCase::Page {
                globals: "",
                bytes: "P 00000001 10 00 01 00000007 01 00 01 00000000 T G@3=03",
                answer: Calls(DOT),
                globals_report: NOTHING,
                report: Report {
                    passed_over: 2,
                    first: Some((Some(1), TOO_EARLY)),
                    cut_off: None,
                },
            }),
            Case::Salvage(SalvageCase::Page {
                globals: "",
                bytes: "P 00000001 35 00 01 0000000B 70 00*7 01 1000 G@3=02",
                answer: Calls(DOT),
                globals_report: NOTHING,
                report: Report {
                    passed_over: 1,
                    first: Some((Some(1), INVALID_CODE)),
                    cut_off: None,
                },
            }),
            Case::Salvage(SalvageCase::Page {
                globals: "",
                bytes: "P G8@4=24@27=05 00000002 2A 20 01 01 00000012 00000008 00000001 00*9 01",
                answer: Calls(BLACK),
                globals_report: NOTHING,
                // The region is left out, and the refinement lacks it.
                report: Report {
                    passed_over: 2,
                    first: Some((Some(1), INVALID_OPERATOR)),
                    cut_off: None,
                },
            }),
        ],
    },
    Row {
        name: "R17.3",
        cases: &[
            Case::Salvage(SalvageCase::Page {
                globals: "S@11=0009 S@3=02",
                bytes: "P X@3=03@6=02",
                answer: Calls(DOT),
                globals_report: ONE_PASSED,
                report: NOTHING,
            }),
            Case::Salvage(SalvageCase::Page {
                globals: "S 20*16",
                bytes: "P X",
                answer: Calls(DOT),
                globals_report: BAD_REFERENCE,
                report: NOTHING,
            }),
            Case::Salvage(SalvageCase::Page {
                globals: "20*16",
                bytes: "P G",
                answer: Calls(DOT),
                globals_report: BAD_REFERENCE,
                report: NOTHING,
            }),
        ],
    },
    Row {
        name: "R17.4",
        cases: &[
            Case::Salvage(SalvageCase::Page {
                globals: "",
                bytes: "P@15=FFFFFFFF G",
                answer: Calls(DOT),
                globals_report: NOTHING,
                report: NOTHING,
            }),
            Case::Salvage(SalvageCase::Page {
                globals: "",
                bytes: "P@15=FFFFFFFF G@23=00000001 G8@3=02@23=FFFFFFFF G8@3=03@15=00010000 G8@3=04@23=00000005@27=05",
                answer: Calls(WHITE_DOT),
                globals_report: NOTHING,
                report: Report {
                    passed_over: 2,
                    first: Some((Some(3), TOO_LARGE)),
                    cut_off: None,
                },
            }),
            Case::Salvage(SalvageCase::Page {
                globals: "",
                bytes: "P@15=FFFFFFFF 00000001 32 00 01 00000004 00000001 G@3=02",
                answer: Calls(DOT_WHITE),
                globals_report: NOTHING,
                report: NOTHING,
            }),
            // The region has the number of its rows after its data.
            Case::Salvage(SalvageCase::Page {
                globals: "",
                bytes: "P@15=FFFFFFFF G8@7=FFFFFFFF@15=FFFFFFFF FFAC 00000001",
                answer: Calls(BLACK),
                globals_report: NOTHING,
                report: NOTHING,
            }),
            Case::Salvage(SalvageCase::Page {
                globals: "",
                bytes: "P@15=FFFFFFFF G@23=FFFFFFFF",
                answer: Refused(NO_HEIGHT),
                globals_report: NOTHING,
                report: NOTHING,
            }),
            Case::Salvage(SalvageCase::Page {
                globals: "",
                bytes: "P@15=FFFFFFFF G@4=24",
                answer: Refused(NO_HEIGHT),
                globals_report: NOTHING,
                report: NOTHING,
            }),
        ],
    },
    Row {
        name: "R17.5",
        cases: &[
            Case::Salvage(SalvageCase::File {
                bytes: "H 01 00000007 P 00000001 31 00 02 00000000 P@3=02@6=03@11=00000000",
                pages: ONE_PAGE,
                left_out: &[NO_PAGE, DecodeError::Format(FormatError::EmptyPage)],
                report: NOTHING,
            }),
            Case::Salvage(SalvageCase::File {
                bytes: "H 03 P S@6=00@11=0009 00000002 31 00 01 00000000",
                pages: ONE_PAGE,
                left_out: &[],
                report: ONE_PASSED,
            }),
            Case::Salvage(SalvageCase::File {
                bytes: "H 01 00000001 P 20*16",
                pages: ONE_PAGE,
                left_out: &[],
                report: BAD_REFERENCE,
            }),
            // Only the first row of the region is whole.
            Case::Salvage(SalvageCase::File {
                bytes: "H 01 00000001 P@15=00000004 00000001 26 00 01 00000020 00000008 00000004 00*9 00 \
                    03FFFDFF02FEFEFE BE3C87",
                pages: &[FilePage {
                    number: 1,
                    dimensions: (8, 4),
                    answer: Calls(FIRST_OF_FOUR),
                }],
                left_out: &[],
                report: CUT_OFF,
            }),
        ],
    },
    Row {
        name: "R17.6",
        cases: &[
            // Some data of page 2 is missing.
            Case::Salvage(SalvageCase::File {
                bytes: "H 00 00000002 00000000 30 00 01 00000013 00000001 30 00 02 00000013 \
                    00000002 33 00 00 00000000 00000008 00000001 00*11 00000008 00000001 00*10",
                pages: ONE_PAGE,
                left_out: &[],
                report: CUT_OFF,
            }),
            // A header is refused, and the data begins there.
            Case::Salvage(SalvageCase::File {
                bytes: "H 00 00000001 00000000 30 00 01 00000013 00000008 00A00001 00*11",
                pages: &[],
                left_out: &[TOO_LARGE],
                report: Report {
                    passed_over: 0,
                    first: None,
                    cut_off: Some((
                        Some(8),
                        DecodeError::Segment(SegmentError::InvalidReferredCount),
                    )),
                },
            }),
        ],
    },
];

pub fn rows() -> &'static [Row] {
    ROWS
}
