//! Tests the writing of MMR data on small pictures. The expected bytes are those of another encoder.
ghost use Rattle.std.specs.Prelude.{◌≡◌};

use jbig2_base::bitmap::Bitmap;
use jbig2_mmr_writer::coded_mmr;
use jbig2_permit::Permit;
use jbig2_steps::Steps;
use std::alloc::{AllocError, Global};
use std::marker::Brand;
use std::sync::ledger::{Blank, Ledger};

/// A picture by the spans of black pixels of its rows, and its MMR data.
struct Case {
    width: u32,
    spans: &'static [&'static [(u32, u32)]],
    end_of_block: bool,
    bytes: &'static [u8],
}

static CASES: [Case; 5] = [
    // A letter: its rows repeat.
    Case {
        width: 5,
        spans: &[
            &[(0, 4)],
            &[(0, 1), (4, 5)],
            &[(0, 1), (4, 5)],
            &[(0, 1), (4, 5)],
            &[(0, 4)],
            &[(0, 1)],
            &[(0, 1)],
            &[(0, 1)],
        ],
        end_of_block: false,
        bytes: &[0x26, 0xAF, 4, 0xBF, 0xF0, 0x78, 0x2F, 0xE0],
    },
    // Rows that all differ.
    Case {
        width: 8,
        spans: &[&[(0, 1)], &[(1, 2)], &[(2, 3)], &[(0, 1), (3, 4), (6, 7)]],
        end_of_block: true,
        bytes: &[
            0x26, 0xAA, 0xCA, 0xE6, 0x56, 4, 0x13, 0x29, 0xD4, 0, 0x40, 4,
        ],
    },
    // One black pixel.
    Case {
        width: 1,
        spans: &[&[(0, 1)]],
        end_of_block: true,
        bytes: &[0x50, 1, 0, 0x10],
    },
    // Rows whose runs end under longer ones: pass modes.
    Case {
        width: 24,
        spans: &[
            &[(2, 4), (6, 8), (10, 12), (14, 16), (18, 20), (22, 24)],
            &[],
            &[(0, 1), (3, 6), (12, 17), (20, 24)],
            &[(16, 17)],
        ],
        end_of_block: false,
        bytes: &[
            0x2F, 0x97, 0xCB, 0xE5, 0xF2, 0xF8, 0x51, 0x11, 0x11, 0x0C, 0x9A, 0xA2, 0xF1, 0xE3,
            0x30, 0xC4, 0x49, 0xD1, 0xF0, 0xDC,
        ],
    },
    // Runs of more than 2560 pixels, and of words of one colour.
    Case {
        width: 5300,
        spans: &[&[(2560, 5290)], &[(64, 2624)], &[(0, 5300)], &[(100, 163)]],
        end_of_block: true,
        bytes: &[
            0x20, 0x3E, 0x6A, 3, 0xE1, 0x90, 0x1B, 0x53, 0xB3, 0x50, 0x1F, 0x0D, 0xE4, 0xD4, 7,
            0xC0, 0x7C, 0x32, 0, 0x90, 0xEC, 0x54, 0x19, 0xE0, 2, 0, 0x20,
        ],
    },
];

/// The bitmap of a case.
fn bitmap_of<L: Ledger>(
    alloc: Global,
    case: &Case,
    steps: &mut Steps<L>,
) -> Result<Bitmap<Global>, AllocError> {
    let height = u32::try_from(case.spans.len()).unwrap_or(0);
    let mut bitmap = Bitmap::new(alloc, case.width, height, steps).map_err(|_| AllocError)?;
    for (y, spans) in (0..height).zip(case.spans) {
        for (from, to) in spans.iter() {
            for x in *from..*to {
                bitmap.set_pixel(x, y, true, steps);
            }
        }
    }
    Ok(bitmap)
}

/// The index of the first case whose data is not the expected one, or else the number of cases.
fn first_that_differs<L: Ledger>(alloc: Global, blank: Blank) -> Result<usize, AllocError>
    requires name { blank.name ≡ L.name }
    requires parts { blank.parts ≡ L.parts }
    requires enough { blank.parts ≡ 7 }
{
    let mut steps: Steps<L> = Steps::new(Permit::grant(), blank);
    for (index, case) in CASES.iter().enumerate() {
        let bitmap = bitmap_of(alloc, case, &mut steps)?;
        if bitmap.width() > 65535 {
            return Ok(index);
        }
        let data = coded_mmr(alloc, &bitmap, case.end_of_block, &mut steps)?;
        if data.as_slice() != case.bytes {
            return Ok(index);
        }
    }
    Ok(CASES.len())
}

#[test]
fn mmr_data_is_that_of_another_encoder(rt: HostRuntime) {
    let mut index = first_that_differs::<Brand>(rt.alloc(), Blank::new(7));
    if index == Err(AllocError) {
        index = first_that_differs::<Brand>(rt.alloc(), Blank::new(7));
    }
    assert!(rt; index == Ok(CASES.len()));
}
