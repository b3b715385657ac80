//! The calls that draw a bitmap on a `Decoder`.
ghost use Rattle.std.specs.Prelude.{◌≡◌, ◌+◌, ◌-◌, ◌*◌, ◌/◌, ◌<◌, ◌≤◌, drop, take};
ghost use Rattle.jbig2_base.specs.Grid.{Grid};
ghost use Rattle.jbig2_page.specs.Calls.{row_of_grid, singles, line_calls, calls_of, IsCountable, Sends};
ghost use Rattle.jbig2_page.specs.inner.RunViews.{bytes_of_run, run_of, IsColourOf, IsRunAt};
ghost use Rattle.jbig2_steps.specs.Work.{CountsBeside, paid_words, sum_of_counts, price_of_bitmap};

use crate::page::decoder::Decoder;
use crate::row_places::pixel_of;
use jbig2_base::bitmap::Bitmap;
use jbig2_base::bitmap::colour::find_colour;
use jbig2_base::error::Result;
use jbig2_steps::Steps;
use std::alloc::Allocator;
use std::sync::ledger::Ledger;

/// The colour of the eight pixels of row `y` from column `x` on, if all have the same.
fn byte_colour<A: Allocator, L: Ledger>(
    bitmap: &Bitmap<A>,
    x: u32,
    y: u32,
    steps: &mut Steps<L>,
) -> Option<bool>
    requires { x + 8 ≤ bitmap.now.width }
    ensures colour { IsColourOf (take 8 (drop x (row_of_grid bitmap.now y))) result }
    ensures steps { sum_of_counts steps.new ≡ sum_of_counts steps.old + 1 }
{
    let pixels = bitmap.load_pixels(x, y, 8, steps);
    if pixels == 0xFF {
        return Some(true);
    }
    if pixels == 0 {
        return Some(false);
    }
    None
}

/// How many of the whole bytes of row `y` from column `x` on have this colour, one after the other.
fn run<A: Allocator, L: Ledger>(
    bitmap: &Bitmap<A>,
    x: u32,
    y: u32,
    black: bool,
    steps: &mut Steps<L>,
) -> u32
    requires { x ≤ bitmap.now.width }
    ensures value { result
        ≡ run_of ((bitmap.now.width - x) / 8) black (drop x (row_of_grid bitmap.now y)) }
    ensures within { result ≤ (bitmap.now.width - x) / 8 }
    ensures steps { sum_of_counts steps.new ≤ sum_of_counts steps.old + result + 1 }
{
    let width = bitmap.width();
    let end = find_colour(bitmap, y, x, width, !black, steps);
    (end - x) / 8
}

/// The run of whole bytes of one colour at column `x` of row `y`: its colour, and its number of
/// bytes. `None` if the byte there has both colours.
fn run_at<A: Allocator, L: Ledger>(
    bitmap: &Bitmap<A>,
    x: u32,
    y: u32,
    steps: &mut Steps<L>,
) -> Option<(bool, u32)>
    requires { x + 8 ≤ bitmap.now.width }
    ensures run { IsRunAt ((bitmap.now.width - x) / 8) (drop x (row_of_grid bitmap.now y)) result }
    ensures steps { sum_of_counts steps.new ≤ sum_of_counts steps.old + bytes_of_run result + 2 }
{
    match byte_colour(bitmap, x, y, steps) {
        Some(black) => Some((black, run(bitmap, x, y, black, steps))),
        None => None,
    }
}

/// Pushes the pixels of row `y` from column `x` up to column `end`, at most 64 of them, one by one.
fn push_pixels<A: Allocator, D: Decoder, L: Ledger>(
    bitmap: &Bitmap<A>,
    x: u32,
    end: u32,
    y: u32,
    decoder: &mut D,
    steps: &mut Steps<L>,
) -> Result<()>
    requires order { x ≤ end }
    requires few { end - x ≤ 64 }
    requires inside { end ≤ bitmap.now.width }
    requires countable { IsCountable D.conduct decoder.old }
    ensures calls { Sends D.conduct (singles (take (end - x) (drop x (row_of_grid bitmap.now y)))) result
        decoder.old decoder.new }
    ensures steps { sum_of_counts steps.new ≡ sum_of_counts steps.old + 1 }
{
    let count = (end - x).max(1);
    let pixels = bitmap.load_pixels(x, y, count, steps);
    for column in x..end {
        let black = pixel_of(pixels, x + (count - 1) - column);
        match decoder.push_pixel(black) {
            Ok(()) => {}
            Err(error) => return Err(error),
        }
    }
    Ok(())
}

/// Makes the calls that draw one row.
fn push_row<A: Allocator, D: Decoder, L: Ledger>(
    bitmap: &Bitmap<A>,
    y: u32,
    decoder: &mut D,
    steps: &mut Steps<L>,
) -> Result<()>
    requires { IsCountable D.conduct decoder.old }
    ensures calls { Sends D.conduct (line_calls bitmap.now y) result decoder.old decoder.new }
    ensures steps { sum_of_counts steps.new ≤ sum_of_counts steps.old + bitmap.now.width + 1 }
{
    let width = bitmap.width();
    let mut x = 0;
    while width - x >= 8 {
        if let Some((black, count)) = run_at(bitmap, x, y, steps) {
            match decoder.push_pixel_chunk(black, count) {
                Ok(()) => {}
                Err(error) => return Err(error),
            }
            x += 8 * count;
            continue;
        }
        match push_pixels(bitmap, x, x + 8, y, decoder, steps) {
            Ok(()) => {}
            Err(error) => return Err(error),
        }
        x += 8;
    }
    match push_pixels(bitmap, x, width, y, decoder, steps) {
        Ok(()) => {}
        Err(error) => return Err(error),
    }
    decoder.next_line()
}

/// Makes the calls that draw a bitmap.
pub(crate) fn push_bitmap<A: Allocator, D: Decoder, L: Ledger>(
    bitmap: &Bitmap<A>,
    decoder: &mut D,
    steps: &mut Steps<L>,
) -> Result<()>
    requires { IsCountable D.conduct decoder.old }
    ensures calls { Sends D.conduct (calls_of bitmap.now) result decoder.old decoder.new }
    ensures paid { let page = bitmap.now in
        CountsBeside (paid_words page.width page.height)
        (price_of_bitmap page.width page.height) steps.old steps.new }
{
    for y in 0..bitmap.height() {
        match push_row(bitmap, y, decoder, steps) {
            Ok(()) => {}
            Err(error) => return Err(error),
        }
    }
    Ok(())
}
