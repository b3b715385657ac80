//! Bitmaps as pictures, among them the symbols and the text of the example of T.88, H.1.
use jbig2_base::bitmap::Bitmap;
use jbig2_base::error::Result;
use jbig2_steps::Steps;
use std::alloc::Global;
use std::sync::ledger::Ledger;

/// The rows of a bitmap from the top: `#` is black, any other character white.
pub type Picture = &'static [&'static str];

/// A letter that goes below the line.
pub const P: Picture = &[
    "####.", "#...#", "#...#", "#...#", "####.", "#....", "#....", "#....",
];

pub const C: Picture = &[".####.", "#....#", "#.....", "#.....", "#....#", ".####."];

pub const A: Picture = &[".####.", ".....#", ".#####", "#....#", "#....#", ".#####"];

/// `A` and `C` as one symbol.
pub const A_AND_C: Picture = &[
    ".####....####.",
    ".....#..#....#",
    ".#####..#.....",
    "#....#..#.....",
    "#....#..#....#",
    ".#####...####.",
];

/// The word that each page of the example shows.
pub const WORD: Picture = &[
    ".####....####...####....####....####.",
    "#....#.......#..#...#.......#..#....#",
    "#........#####..#...#...#####..#.....",
    "#.......#....#..#...#..#....#..#.....",
    "#....#..#....#..####...#....#..#....#",
    ".####....#####..#.......#####...####.",
    "................#....................",
    "................#....................",
];

/// A bitmap that shows a picture.
pub fn bitmap_of<L: Ledger>(
    alloc: Global,
    picture: Picture,
    steps: &mut Steps<L>,
) -> Result<Bitmap<Global>> {
    let width = picture.first().map_or(0, |row| row.len());
    let width = u32::try_from(width).unwrap_or(0);
    let height = u32::try_from(picture.len()).unwrap_or(0);
    let mut bitmap = Bitmap::new(alloc, width, height, steps)?;
    for (y, row) in (0..height).zip(picture) {
        for (x, pixel) in (0..width).zip(row.bytes()) {
            bitmap.set_pixel(x, y, pixel == b'#', steps);
        }
    }
    Ok(bitmap)
}

/// Whether a row of a bitmap is as in a picture.
fn shows_row<L: Ledger>(bitmap: &Bitmap<Global>, y: u32, row: &str, steps: &mut Steps<L>) -> bool {
    if u32::try_from(row.len()) != Ok(bitmap.width()) {
        return false;
    }
    for (x, pixel) in (0..bitmap.width()).zip(row.bytes()) {
        if (bitmap.get_pixel(x, y, steps) == 1) != (pixel == b'#') {
            return false;
        }
    }
    true
}

/// Whether a bitmap shows exactly this picture, with no further row or column.
pub fn shows<L: Ledger>(bitmap: &Bitmap<Global>, picture: Picture, steps: &mut Steps<L>) -> bool {
    if u32::try_from(picture.len()) != Ok(bitmap.height()) {
        return false;
    }
    for (y, row) in (0..bitmap.height()).zip(picture) {
        if !shows_row(bitmap, y, row, steps) {
            return false;
        }
    }
    true
}
