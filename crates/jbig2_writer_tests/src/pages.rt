//! Tests the writer on small pictures. The expected bytes are those of another encoder.
ghost use Rattle.std.specs.Prelude.{◌≡◌};

use jbig2_base::bitmap::Bitmap;
use jbig2_permit::Permit;
use jbig2_region::template::Template;
use jbig2_steps::Steps;
use jbig2_writer::{
    ArithmeticCoding, Container, RegionCoding, WriteError, WriteSettings, write_packed, write_page,
};
use std::alloc::Global;
use std::marker::Brand;
use std::sync::ledger::{Blank, Ledger};

/// The rows of a bitmap from the top: `#` is black, any other character white.
type Picture = &'static [&'static str];

/// A letter that goes below the line: its rows repeat.
const P: Picture = &[
    "####.", "#...#", "#...#", "#...#", "####.", "#....", "#....", "#....",
];

/// Rows that all differ.
const SLOPE: Picture = &["#.......", ".#......", "..#.....", "#..#..#."];

/// Rows of more than one word, two of them alike.
const WIDE: Picture = &[
    "......................................................................",
    "#################################..............................#######",
    "#################################..............................#######",
    "......................................................................",
];

/// One black pixel.
const DOT: Picture = &["#"];

/// What comes before a page in a file: identification, flags, and the number of pages.
const FILE_HEADER: [u8; 13] = [
    0x97, 0x4A, 0x42, 0x32, 0x0D, 0x0A, 0x1A, 0x0A, 1, 0, 0, 0, 1,
];

/// What comes after it: an end of page and an end of file.
const ENDS: [u8; 28] = [
    0, 0, 0, 2, 0x71, 0, 0, 0, 0, 1, 0, 0, 0, 0, 0, 0, 0, 3, 0x73, 0, 0, 0, 0, 0, 0, 0, 0, 0,
];

/// A picture, also as packed rows, how it is written, and the embedded page.
struct Case {
    settings: WriteSettings,
    picture: Picture,
    rows: &'static [u8],
    page: &'static [u8],
}

static CASES: [Case; 5] = [
    Case {
        settings: WriteSettings {
            container: Container::EmbeddedPage,
            coding: RegionCoding::Arithmetic(ArithmeticCoding {
                template: Template::Template0,
                typical: true,
            }),
            x_resolution: Some(11811),
            y_resolution: Some(5906),
        },
        picture: P,
        rows: &[0xF0, 0x88, 0x88, 0x88, 0xF0, 0x80, 0x80, 0x80],
        page: &[
            0, 0, 0, 0, 0x70, 0, 0, 0, 0, 1, 0, 0, 0, 0x13, 0, 0, 0, 5, 0, 0, 0, 8, 0, 0, 0x2E,
            0x23, 0, 0, 0x17, 0x12, 1, 0, 0, 0, 0, 0, 1, 0x66, 0, 0, 0, 0, 1, 0, 0, 0, 0x20, 0, 0,
            0, 5, 0, 0, 0, 8, 0, 0, 0, 0, 0, 0, 0, 0, 0, 8, 3, 0xFF, 0xFD, 0xFF, 2, 0xFE, 0xFE,
            0xFE, 8, 0x2E, 4, 0xD7, 0xFF, 0xAC,
        ],
    },
    Case {
        settings: WriteSettings {
            container: Container::EmbeddedPage,
            coding: RegionCoding::Arithmetic(ArithmeticCoding {
                template: Template::Template1,
                typical: false,
            }),
            x_resolution: None,
            y_resolution: None,
        },
        picture: SLOPE,
        rows: &[0x80, 0x40, 0x20, 0x92],
        page: &[
            0, 0, 0, 0, 0x70, 0, 0, 0, 0, 1, 0, 0, 0, 0x13, 0, 0, 0, 8, 0, 0, 0, 4, 0, 0, 0, 0, 0,
            0, 0, 0, 1, 0, 0, 0, 0, 0, 1, 0x66, 0, 0, 0, 0, 1, 0, 0, 0, 0x1A, 0, 0, 0, 8, 0, 0, 0,
            4, 0, 0, 0, 0, 0, 0, 0, 0, 0, 2, 3, 0xFF, 0xCD, 0x82, 0x44, 0x6F, 0xFF, 0xAC,
        ],
    },
    Case {
        settings: WriteSettings {
            container: Container::EmbeddedPage,
            coding: RegionCoding::Arithmetic(ArithmeticCoding {
                template: Template::Template2,
                typical: true,
            }),
            x_resolution: None,
            y_resolution: None,
        },
        picture: WIDE,
        rows: &[
            0, 0, 0, 0, 0, 0, 0, 0, 0, 0xFF, 0xFF, 0xFF, 0xFF, 0x80, 0, 0, 1, 0xFC, 0xFF, 0xFF,
            0xFF, 0xFF, 0x80, 0, 0, 1, 0xFC, 0, 0, 0, 0, 0, 0, 0, 0, 0,
        ],
        page: &[
            0, 0, 0, 0, 0x70, 0, 0, 0, 0, 1, 0, 0, 0, 0x13, 0, 0, 0, 0x46, 0, 0, 0, 4, 0, 0, 0, 0,
            0, 0, 0, 0, 1, 0, 0, 0, 0, 0, 1, 0x66, 0, 0, 0, 0, 1, 0, 0, 0, 0x1C, 0, 0, 0, 0x46, 0,
            0, 0, 4, 0, 0, 0, 0, 0, 0, 0, 0, 0, 0x0C, 2, 0xFF, 0xCA, 0xB2, 0x34, 0xC7, 0xEE, 0xC3,
            0xFF, 0xAC,
        ],
    },
    Case {
        settings: WriteSettings {
            container: Container::EmbeddedPage,
            coding: RegionCoding::Arithmetic(ArithmeticCoding {
                template: Template::Template3,
                typical: false,
            }),
            x_resolution: Some(0),
            y_resolution: None,
        },
        picture: DOT,
        rows: &[0x80],
        page: &[
            0, 0, 0, 0, 0x70, 0, 0, 0, 0, 1, 0, 0, 0, 0x13, 0, 0, 0, 1, 0, 0, 0, 1, 0, 0, 0, 0, 0,
            0, 0, 0, 1, 0, 0, 0, 0, 0, 1, 0x66, 0, 0, 0, 0, 1, 0, 0, 0, 0x18, 0, 0, 0, 1, 0, 0, 0,
            1, 0, 0, 0, 0, 0, 0, 0, 0, 0, 6, 2, 0xFF, 0xFF, 0x7F, 0xFF, 0xAC,
        ],
    },
    Case {
        settings: WriteSettings {
            container: Container::EmbeddedPage,
            coding: RegionCoding::Mmr,
            x_resolution: None,
            y_resolution: None,
        },
        picture: DOT,
        rows: &[0x80],
        page: &[
            0, 0, 0, 0, 0x70, 0, 0, 0, 0, 1, 0, 0, 0, 0x13, 0, 0, 0, 1, 0, 0, 0, 1, 0, 0, 0, 0, 0,
            0, 0, 0, 1, 0, 0, 0, 0, 0, 1, 0x66, 0, 0, 0, 0, 1, 0, 0, 0, 0x16, 0, 0, 0, 1, 0, 0, 0,
            1, 0, 0, 0, 0, 0, 0, 0, 0, 0, 1, 0x50, 1, 0, 0x10,
        ],
    },
];

/// A bitmap that shows a picture.
fn bitmap_of<L: Ledger>(
    alloc: Global,
    picture: Picture,
    steps: &mut Steps<L>,
) -> Result<Bitmap<Global>, WriteError> {
    let width = picture.first().map_or(0, |row| row.len());
    let width = u32::try_from(width).unwrap_or(0);
    let height = u32::try_from(picture.len()).unwrap_or(0);
    let mut bitmap = Bitmap::new(alloc, width, height, steps).map_err(|_| WriteError::OutOfMemory)?;
    for (y, row) in (0..height).zip(picture) {
        for (x, pixel) in (0..width).zip(row.bytes()) {
            bitmap.set_pixel(x, y, pixel == b'#', steps);
        }
    }
    Ok(bitmap)
}

/// A page in a file.
fn file_of(alloc: Global, page: &[u8]) -> Result<Vec<u8>, WriteError> {
    let mut file = Vec::new(alloc);
    file.extend_from_slice(&FILE_HEADER)?;
    file.extend_from_slice(page)?;
    file.extend_from_slice(&ENDS)?;
    Ok(file)
}

/// The same settings for a file.
fn in_file(settings: &WriteSettings) -> WriteSettings {
    let mut settings = *settings;
    settings.container = Container::File;
    settings
}

/// Whether the page and the file that are written of a bitmap are the expected ones.
fn is_written<L: Ledger>(
    alloc: Global,
    case: &Case,
    steps: &mut Steps<L>,
) -> Result<bool, WriteError> {
    let bitmap = bitmap_of(alloc, case.picture, steps)?;
    let page = write_page(alloc, &bitmap, &case.settings, steps)?;
    let file = write_page(alloc, &bitmap, &in_file(&case.settings), steps)?;
    let expected = file_of(alloc, case.page)?;
    Ok(page.as_slice() == case.page && file.as_slice() == expected.as_slice())
}

/// Whether those that are written of packed rows are the expected ones.
fn is_written_of_rows<L: Ledger>(
    alloc: Global,
    case: &Case,
    steps: &mut Steps<L>,
) -> Result<bool, WriteError> {
    let bitmap = bitmap_of(alloc, case.picture, steps)?;
    let width = bitmap.width();
    let height = bitmap.height();
    if case.rows.len() as u64 != u64::from(width.div_ceil(8)) * u64::from(height) {
        return Ok(false);
    }
    let page = write_packed(alloc, case.rows, width, height, &case.settings, steps)?;
    let file = write_packed(
        alloc,
        case.rows,
        width,
        height,
        &in_file(&case.settings),
        steps,
    )?;
    let expected = file_of(alloc, case.page)?;
    Ok(page.as_slice() == case.page && file.as_slice() == expected.as_slice())
}

/// The index of the first case whose page is not the expected one, or else the number of cases.
fn first_that_differs<L: Ledger>(alloc: Global, blank: Blank) -> Result<usize, WriteError>
    requires name { blank.name ≡ L.name }
    requires parts { blank.parts ≡ L.parts }
    requires enough { blank.parts ≡ 7 }
{
    let mut steps: Steps<L> = Steps::new(Permit::grant(), blank);
    for (index, case) in CASES.iter().enumerate() {
        if !(is_written(alloc, case, &mut steps)? && is_written_of_rows(alloc, case, &mut steps)?) {
            return Ok(index);
        }
    }
    Ok(CASES.len())
}

#[test]
fn pages_are_those_of_another_encoder(rt: HostRuntime) {
    let mut index = first_that_differs::<Brand>(rt.alloc(), Blank::new(7));
    if index == Err(WriteError::OutOfMemory) {
        index = first_that_differs::<Brand>(rt.alloc(), Blank::new(7));
    }
    assert!(rt; index == Ok(CASES.len()));
}
