//! Tests gray planes, and the patterns and halftone regions of the example of T.88, H.1.
ghost use Rattle.std.specs.Prelude.{◌≡◌};

mod planes;

use crate::pictures::{Picture, shows};
use jbig2_base::error::{DecodeError, Result};
use jbig2_base::reader::Reader;
use jbig2_halftone::pattern::PatternDictionary;
use jbig2_halftone::{halftone, pattern};
use jbig2_permit::Permit;
use jbig2_steps::Steps;
use std::alloc::Global;
use std::marker::Brand;
use std::sync::ledger::{Blank, Ledger};

/// The data of two segments: a pattern dictionary, and a halftone region that refers to it.
struct Case {
    patterns: &'static [u8],
    region: &'static [u8],
}

/// By MMR, and by the arithmetic coder.
const CASES: &[Case] = &[
    Case {
        patterns: &[
            1, 4, 4, 0, 0, 0, 0x0F, 0x20, 0xD1, 0x84, 0x61, 0x18, 0x45, 0xF2, 0xF9, 0x7C, 0x8F,
            0x11, 0xC3, 0x9E, 0x45, 0xF2, 0xF9, 0x7D, 0x42, 0x85, 0x0A, 0xAA, 0x84, 0x62, 0x2F,
            0xEE, 0xEC, 0x44, 0x62, 0x22, 0x35, 0x2A, 0x0A, 0x83, 0xB9, 0xDC, 0xEE, 0x77, 0x80,
        ],
        region: &[
            0, 0, 0, 0x20, 0, 0, 0, 0x24, 0, 0, 0, 0x10, 0, 0, 0, 0x0F, 0, 1, 0, 0, 0, 8, 0, 0, 0,
            9, 0, 0, 0, 0, 0, 0, 0, 0, 4, 0, 0, 0, 0xAA, 0xAA, 0xAA, 0xAA, 0x80, 8, 0, 0x80, 0x36,
            0xD5, 0x55, 0x6B, 0x5A, 0xD4, 0, 0x40, 4, 0x2E, 0xE9, 0x52, 0xD2, 0xD2, 0xD2, 0x8A,
            0xA5, 0x4A, 0, 0x20, 2, 0x23, 0xE0, 0x95, 0x24, 0xB4, 0x92, 0x8A, 0x4A, 0x92, 0x54,
            0x92, 0xD2, 0x4A, 0x29, 0x2A, 0x49, 0x40, 4, 0, 0x40,
        ],
    },
    Case {
        patterns: &[
            6, 4, 4, 0, 0, 0, 0x0F, 0x90, 0x71, 0x6B, 0x6D, 0x99, 0xA7, 0xAA, 0x49, 0x7D, 0xF2,
            0xE5, 0x48, 0x1F, 0xDC, 0x68, 0xBC, 0x6E, 0x40, 0xBB, 0xFF, 0xAC,
        ],
        region: &[
            0, 0, 0, 0x20, 0, 0, 0, 0x24, 0, 0, 0, 0x10, 0, 0, 0, 0x0F, 0, 2, 0, 0, 0, 8, 0, 0, 0,
            9, 0, 0, 0, 0, 0, 0, 0, 0, 4, 0, 0, 0, 0x87, 0xCB, 0x82, 0x1E, 0x66, 0xA4, 0x14, 0xEB,
            0x3C, 0x4A, 0x15, 0xFA, 0xCC, 0xD6, 0xF3, 0xB1, 0x6F, 0x4C, 0xED, 0xBF, 0xA7, 0xBF,
            0xFF, 0xAC,
        ],
    },
];

/// What both regions show: shades of gray that become darker to the right and down.
const SHADES: Picture = &[
    "......................#...#...#.",
    "......#..##..##..##..##.###.###.",
    "..............#..##..##..##..##.",
    ".............................#..",
    "..................#...#...#...#.",
    "..#..##..##..##..##.###.###.###.",
    "..........#..##..##..##..##..###",
    ".........................#...#..",
    "..............#...#...#...#..##.",
    ".##..##..##..##.###.###.###.###.",
    "......#..##..##..##..##..#######",
    ".....................#...#...#..",
    "..........#...#...#...#..##..##.",
    ".##..##..##.###.###.###.###.###.",
    "..#..##..##..##..##..###########",
    ".................#...#...#...##.",
    "......#...#...#...#..##..##..##.",
    ".##..##.###.###.###.###.###.####",
    ".##..##..##..##..###############",
    ".............#...#...#...##..##.",
    "..#...#...#...#..##..##..##.###.",
    ".##.###.###.###.###.###.########",
    ".##..##..##..###################",
    ".........#...#...#...##..##..##.",
    "..#...#...#..##..##..##.###.####",
    "###.###.###.###.###.############",
    ".##..##..#######################",
    ".....#...#...#...##..##..##..##.",
    "..#...#..##..##..##.###.########",
    "###.###.###.###.################",
    ".##..###########################",
    ".#...#...#...##..##..##..##..###",
    "..#..##..##..##.###.############",
    "###.###.###.####################",
    ".###############################",
    ".#...#...##..##..##..##..#######",
];

/// Decodes the patterns in a dictionary's data.
fn patterns_of<L: Ledger>(
    alloc: Global,
    data: &[u8],
    steps: &mut Steps<L>,
) -> Result<PatternDictionary<Global>> {
    let header = pattern::parse(&mut Reader::new(data), true)?;
    let mut contexts = Vec::new(alloc);
    pattern::decode(alloc, &header, &mut contexts, steps)
}

/// Whether a region's data shows the shades with these patterns.
fn shows_shades<L: Ledger>(
    alloc: Global,
    data: &[u8],
    patterns: &PatternDictionary<Global>,
    steps: &mut Steps<L>,
) -> Result<bool> {
    let header = halftone::parse(&mut Reader::new(data), true)?;
    let mut contexts = Vec::new(alloc);
    let region = halftone::decode(alloc, &header, patterns, &mut contexts, steps)?;
    Ok(shows(&region.bitmap, SHADES, steps))
}

/// The index of the first case that does not show the shades, or else the number of cases.
fn first_that_differs<L: Ledger>(alloc: Global, blank: Blank) -> Result<usize>
    requires name { blank.name ≡ L.name }
    requires parts { blank.parts ≡ L.parts }
    requires enough { blank.parts ≡ 7 }
{
    let mut steps: Steps<L> = Steps::new(Permit::grant(), blank);
    for (index, case) in CASES.iter().enumerate() {
        let patterns = patterns_of(alloc, case.patterns, &mut steps)?;
        if !shows_shades(alloc, case.region, &patterns, &mut steps)? {
            return Ok(index);
        }
    }
    Ok(CASES.len())
}

#[test]
fn halftones_of_the_example(rt: HostRuntime) {
    let mut index = first_that_differs::<Brand>(rt.alloc(), Blank::new(7));
    if index == Err(DecodeError::OutOfMemory) {
        index = first_that_differs::<Brand>(rt.alloc(), Blank::new(7));
    }
    assert!(rt; index == Ok(CASES.len()));
}
