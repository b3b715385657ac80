//! Tests runs of every length: codes them with the code tables and reads them back.
ghost use Rattle.std.specs.Prelude.{◌≡◌};

use jbig2_base::bitmap::Bitmap;
use jbig2_base::error::{DecodeError, Result};
use jbig2_mmr::mmr::decode;
use jbig2_permit::Permit;
use jbig2_steps::Steps;
use std::alloc::Global;
use std::marker::Brand;
use std::sync::ledger::{Blank, Ledger};

/// The code of the horizontal mode (T.6, table 1): the number in its bits, and how many bits there are.
const HORIZONTAL: (u16, u8) = (1, 3);

/// The codes of white runs (T.6, tables 2 and 3): of 0 to 63, and of 64 to 1728 by 64.
const WHITE_RUNS: [(u16, u8); 91] = [
    (0x35, 8),
    (0x7, 6),
    (0x7, 4),
    (0x8, 4),
    (0xB, 4),
    (0xC, 4),
    (0xE, 4),
    (0xF, 4),
    (0x13, 5),
    (0x14, 5),
    (0x7, 5),
    (0x8, 5),
    (0x8, 6),
    (0x3, 6),
    (0x34, 6),
    (0x35, 6),
    (0x2A, 6),
    (0x2B, 6),
    (0x27, 7),
    (0xC, 7),
    (0x8, 7),
    (0x17, 7),
    (0x3, 7),
    (0x4, 7),
    (0x28, 7),
    (0x2B, 7),
    (0x13, 7),
    (0x24, 7),
    (0x18, 7),
    (0x2, 8),
    (0x3, 8),
    (0x1A, 8),
    (0x1B, 8),
    (0x12, 8),
    (0x13, 8),
    (0x14, 8),
    (0x15, 8),
    (0x16, 8),
    (0x17, 8),
    (0x28, 8),
    (0x29, 8),
    (0x2A, 8),
    (0x2B, 8),
    (0x2C, 8),
    (0x2D, 8),
    (0x4, 8),
    (0x5, 8),
    (0xA, 8),
    (0xB, 8),
    (0x52, 8),
    (0x53, 8),
    (0x54, 8),
    (0x55, 8),
    (0x24, 8),
    (0x25, 8),
    (0x58, 8),
    (0x59, 8),
    (0x5A, 8),
    (0x5B, 8),
    (0x4A, 8),
    (0x4B, 8),
    (0x32, 8),
    (0x33, 8),
    (0x34, 8),
    (0x1B, 5),
    (0x12, 5),
    (0x17, 6),
    (0x37, 7),
    (0x36, 8),
    (0x37, 8),
    (0x64, 8),
    (0x65, 8),
    (0x68, 8),
    (0x67, 8),
    (0xCC, 9),
    (0xCD, 9),
    (0xD2, 9),
    (0xD3, 9),
    (0xD4, 9),
    (0xD5, 9),
    (0xD6, 9),
    (0xD7, 9),
    (0xD8, 9),
    (0xD9, 9),
    (0xDA, 9),
    (0xDB, 9),
    (0x98, 9),
    (0x99, 9),
    (0x9A, 9),
    (0x18, 6),
    (0x9B, 9),
];

/// The same for black runs.
const BLACK_RUNS: [(u16, u8); 91] = [
    (0x37, 10),
    (0x2, 3),
    (0x3, 2),
    (0x2, 2),
    (0x3, 3),
    (0x3, 4),
    (0x2, 4),
    (0x3, 5),
    (0x5, 6),
    (0x4, 6),
    (0x4, 7),
    (0x5, 7),
    (0x7, 7),
    (0x4, 8),
    (0x7, 8),
    (0x18, 9),
    (0x17, 10),
    (0x18, 10),
    (0x8, 10),
    (0x67, 11),
    (0x68, 11),
    (0x6C, 11),
    (0x37, 11),
    (0x28, 11),
    (0x17, 11),
    (0x18, 11),
    (0xCA, 12),
    (0xCB, 12),
    (0xCC, 12),
    (0xCD, 12),
    (0x68, 12),
    (0x69, 12),
    (0x6A, 12),
    (0x6B, 12),
    (0xD2, 12),
    (0xD3, 12),
    (0xD4, 12),
    (0xD5, 12),
    (0xD6, 12),
    (0xD7, 12),
    (0x6C, 12),
    (0x6D, 12),
    (0xDA, 12),
    (0xDB, 12),
    (0x54, 12),
    (0x55, 12),
    (0x56, 12),
    (0x57, 12),
    (0x64, 12),
    (0x65, 12),
    (0x52, 12),
    (0x53, 12),
    (0x24, 12),
    (0x37, 12),
    (0x38, 12),
    (0x27, 12),
    (0x28, 12),
    (0x58, 12),
    (0x59, 12),
    (0x2B, 12),
    (0x2C, 12),
    (0x5A, 12),
    (0x66, 12),
    (0x67, 12),
    (0xF, 10),
    (0xC8, 12),
    (0xC9, 12),
    (0x5B, 12),
    (0x33, 12),
    (0x34, 12),
    (0x35, 12),
    (0x6C, 13),
    (0x6D, 13),
    (0x4A, 13),
    (0x4B, 13),
    (0x4C, 13),
    (0x4D, 13),
    (0x72, 13),
    (0x73, 13),
    (0x74, 13),
    (0x75, 13),
    (0x76, 13),
    (0x77, 13),
    (0x52, 13),
    (0x53, 13),
    (0x54, 13),
    (0x55, 13),
    (0x5A, 13),
    (0x5B, 13),
    (0x64, 13),
    (0x65, 13),
];

/// The codes of runs of either colour: of 1792 to 2560 by 64.
const LONG_RUNS: [(u16, u8); 13] = [
    (0x8, 11),
    (0xC, 11),
    (0xD, 11),
    (0x12, 12),
    (0x13, 12),
    (0x14, 12),
    (0x15, 12),
    (0x16, 12),
    (0x17, 12),
    (0x1C, 12),
    (0x1D, 12),
    (0x1E, 12),
    (0x1F, 12),
];

/// The longest run that one code means.
const LONGEST: u32 = 2560;

/// The code of a run of at most 63 pixels, or of a multiple of 64.
fn code_of(black: bool, length: usize) -> Option<&'static (u16, u8)> {
    let codes = if black { &BLACK_RUNS } else { &WHITE_RUNS };
    if length < 64 {
        return codes.get(length);
    }
    let place = 63 + length / 64;
    codes.get(place).or(LONG_RUNS.get(place.saturating_sub(91)))
}

/// Appends the bits of a code.
fn push_code(bits: &mut Vec<bool>, code: Option<&(u16, u8)>) -> Result<()> {
    if let Some((number, size)) = code {
        for place in (0..16u8).rev() {
            if place < *size {
                bits.push((number >> place) % 2 == 1)?;
            }
        }
    }
    Ok(())
}

/// Appends the codes of a run: the longest ones, then one for the rest if it is at least 64, and then the last one.
fn push_run(bits: &mut Vec<bool>, black: bool, length: u32) -> Result<()> {
    for _ in 0..length / LONGEST {
        push_code(bits, code_of(black, LONGEST as usize))?;
    }
    let rest = (length % LONGEST) as usize;
    if rest >= 64 {
        push_code(bits, code_of(black, rest - rest % 64))?;
    }
    push_code(bits, code_of(black, rest % 64))
}

/// Appends the codes of a row with a white run and then a black one.
fn push_row(bits: &mut Vec<bool>, white: u32, black: u32) -> Result<()> {
    push_code(bits, Some(&HORIZONTAL))?;
    push_run(bits, false, white)?;
    push_run(bits, true, black)
}

/// Eight bits for each byte, the first in the highest bit, and zeros after the last.
fn bytes_of(alloc: Global, bits: &[bool]) -> Result<Vec<u8>> {
    let mut bytes = Vec::new(alloc);
    for group in bits.chunks(8) {
        let mut byte = 0u8;
        for place in 0..8 {
            byte = (byte << 1) | u8::from(group.get(place) == Some(&true));
        }
        bytes.push(byte)?;
    }
    Ok(bytes)
}

/// Codes rows of two runs: a white one of each length, and a black one up to the width.
fn code_rows(alloc: Global, width: u32, whites: &[u32]) -> Result<Vec<u8>> {
    let mut bits = Vec::new(alloc);
    for white in whites {
        push_row(&mut bits, *white, width.saturating_sub(*white))?;
    }
    bytes_of(alloc, &bits)
}

/// Of 64 pixels from column `x` on, those from `first` on; the first pixel is the highest bit.
fn pixels_from(first: u32, x: u32) -> u64 {
    u64::MAX.checked_shr(first.saturating_sub(x)).unwrap_or(0)
}

/// Whether a bitmap has these rows.
fn are_rows<L: Ledger>(bitmap: &Bitmap<Global>, whites: &[u32], steps: &mut Steps<L>) -> bool {
    let width = bitmap.width();
    for (y, white) in (0..bitmap.height()).zip(whites) {
        for x in (0..width).step_by(64) {
            let black = pixels_from(*white, x) & !pixels_from(width, x);
            if bitmap.load_pixels(x, y, 64, steps) != black {
                return false;
            }
        }
    }
    true
}

/// Whether all of the bytes are read as these rows.
fn are_read_as<L: Ledger>(
    alloc: Global,
    blank: Blank,
    width: u32,
    bytes: &[u8],
    whites: &[u32],
) -> Result<bool>
    requires name { blank.name ≡ L.name }
    requires parts { blank.parts ≡ L.parts }
    requires enough { blank.parts ≡ 7 }
{
    let mut steps = Steps::<L>::new(Permit::grant(), blank);
    let height = u32::try_from(whites.len()).unwrap_or(0);
    let mut bitmap = Bitmap::new(alloc, width, height, &mut steps)?;
    let byte_count = decode(&mut bitmap, bytes, true, &mut steps)?;
    Ok(byte_count == bytes.len() && are_rows(&bitmap, whites, &mut steps))
}

/// Whether rows of these white runs are read back.
fn are_read_back(alloc: Global, width: u32, whites: &[u32]) -> Result<bool> {
    let bytes = code_rows(alloc, width, whites)?;
    are_read_as::<Brand>(alloc, Blank::new(7), width, &bytes, whites)
}

/// The lengths from 0 to this one.
fn lengths(alloc: Global, last: u32) -> Result<Vec<u32>> {
    let mut lengths = Vec::new(alloc);
    for length in 0..=last {
        lengths.push(length)?;
    }
    Ok(lengths)
}

/// Whether rows with every white run from 0 to 5183, and every black one, are read back; and also a white run and a
/// black one of the greatest width.
fn runs_hold(alloc: Global) -> Result<bool> {
    let whites = lengths(alloc, 5183)?;
    Ok(are_read_back(alloc, 5183, &whites)? && are_read_back(alloc, 65535, &[65535, 0])?)
}

#[test]
fn runs_are_read_back(rt: HostRuntime) {
    let mut hold = runs_hold(rt.alloc());
    if hold == Err(DecodeError::OutOfMemory) {
        hold = runs_hold(rt.alloc());
    }
    assert!(rt; hold == Ok(true));
}
