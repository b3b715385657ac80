//! Writes one row, mode by mode (T.6, 2.2).
ghost use Rattle.std.specs.Prelude.{◌≡◌, ℕ, ◌+◌, ◌-◌, ◌*◌, ◌/◌, ◌<◌, ◌≤◌, ◌++◌, IfOk, OnErr, OnOk, true};
ghost use Rattle.jbig2_base.specs.Grid.{max_side};
ghost use Rattle.jbig2_inverses.specs.MmrRowWriter.{row_bits};
ghost use Rattle.jbig2_mmr.specs.T6.{row_start};
ghost use Rattle.jbig2_mmr.specs.inner.T6Reading.{row_above, pixels_of_row};
ghost use Rattle.jbig2_mmr_writer.specs.inner.Places.{AddsMode, IsPlace, head_of, horizontal_code, next_code};

use crate::bits::BitWriter;
use crate::changes::{Place, find_b1, find_b2};
use crate::codes::{HORIZONTAL, PASS, push_run, vertical_entry};
use jbig2_base::bitmap::Bitmap;
use jbig2_base::bitmap::colour::find_colour;
use jbig2_steps::Steps;
use std::alloc::{AllocError, Allocator};
use std::sync::ledger::Ledger;

/// The row above row `y`. Above row 0 it is a row outside, which is white.
fn reference_row<B: Allocator>(bitmap: &Bitmap<B>, y: u32) -> u32
    ensures { (x : ℕ) → pixels_of_row bitmap.now result x ≡ row_above bitmap.now y x }
{
    if y == 0 { bitmap.height() } else { y - 1 }
}

/// The state at the beginning of row `y`.
fn first_place<B: Allocator, L: Ledger>(bitmap: &Bitmap<B>, y: u32, steps: &mut Steps<L>) -> Place
    ensures place { IsPlace bitmap.now y result }
    ensures head { head_of result ≡ row_start }
    ensures steps { steps.new ≡ record steps.old { loads = steps.new.loads } }
    ensures loads { steps.new.loads ≤ steps.old.loads + (1 + result.a1) }
{
    let a1 = find_colour(bitmap, y, 0, bitmap.width(), true, steps);
    Place {
        a0: 0,
        past_start: false,
        black: false,
        a1,
    }
}

/// The state at column `a0` of row `y`, from which on the colour is `black`, after a mode.
fn place_at<B: Allocator, L: Ledger>(
    bitmap: &Bitmap<B>,
    y: u32,
    a0: u32,
    black: bool,
    steps: &mut Steps<L>,
) -> Place
    requires { a0 ≤ bitmap.now.width }
    ensures place { IsPlace bitmap.now y result }
    ensures head { head_of result ≡ record { a0 = a0; past_start = true; black = black } }
    ensures steps { steps.new ≡ record steps.old { loads = steps.new.loads } }
    ensures loads { steps.new.loads ≤ steps.old.loads + (1 + (result.a1 - a0) / 64) }
{
    let a1 = find_colour(bitmap, y, a0, bitmap.width(), !black, steps);
    Place {
        a0,
        past_start: true,
        black,
        a1,
    }
}

/// Adds the horizontal mode: the runs up to a1 and up to a2. a0 moves to a2.
fn push_horizontal<A: Allocator, B: Allocator, L: Ledger>(
    writer: &mut BitWriter<A>,
    bitmap: &Bitmap<B>,
    y: u32,
    place: Place,
    steps: &mut Steps<L>,
) -> Result<Place, AllocError>
    requires { IsPlace bitmap.now y place }
    ensures mode { IfOk result (λ next.
        AddsMode bitmap.now y (horizontal_code bitmap.now y place) writer.old writer.new next) }
    ensures steps { steps.new ≡ record steps.old { loads = steps.new.loads } }
    ensures loads { IfOk result (λ next.
        steps.new.loads + 2 * place.a1 ≤ steps.old.loads + (2 + next.a0 + next.a1)) }
    ensures refused { OnErr result
        (steps.new.loads + place.a1 ≤ steps.old.loads + (1 + bitmap.now.width)) }
{
    let a2 = find_colour(bitmap, y, place.a1, bitmap.width(), place.black, steps);
    writer.push_entry(HORIZONTAL)?;
    push_run(writer, place.black, place.a1 - place.a0)?;
    push_run(writer, !place.black, a2 - place.a1)?;
    Ok(place_at(bitmap, y, a2, place.black, steps))
}

/// Adds the next mode of row `y`, whose row above is row `above`, and returns the state after it. b1 and b2 are searched
/// only as far as they tell which mode it is.
fn push_mode<A: Allocator, B: Allocator, L: Ledger>(
    writer: &mut BitWriter<A>,
    bitmap: &Bitmap<B>,
    y: u32,
    above: u32,
    place: Place,
    steps: &mut Steps<L>,
) -> Result<Place, AllocError>
    requires columns { bitmap.now.width ≤ max_side }
    requires column { place.a0 < bitmap.now.width }
    requires place { IsPlace bitmap.now y place }
    ensures mode { IfOk result (λ next.
        AddsMode bitmap.now y (next_code bitmap.now y above place) writer.old writer.new next) }
    ensures steps { steps.new ≡ record steps.old { loads = steps.new.loads } }
    ensures loads { IfOk result (λ next. steps.new.loads + (place.a0 + place.a1)
        ≤ steps.old.loads + (5 + next.a0 + next.a1)) }
    ensures refused { OnErr result (steps.new.loads + (place.a0 + place.a1)
        ≤ steps.old.loads + (5 + 2 * bitmap.now.width)) }
{
    let a1 = place.a1;
    let to = bitmap.width().min(a1 + 4);
    let b1 = find_b1(bitmap, above, place, to, steps);
    let b2 = find_b2(bitmap, above, b1, a1, place.black, steps);
    if b2 < a1 {
        writer.push_entry(PASS)?;
        return Ok(Place {
            a0: b2,
            past_start: true,
            black: place.black,
            a1,
        });
    }
    if a1.abs_diff(b1) <= 3 {
        writer.push_entry(vertical_entry(a1, b1))?;
        return Ok(place_at(bitmap, y, a1, !place.black, steps));
    }
    push_horizontal(writer, bitmap, y, place, steps)
}

/// Adds row `y`. Its reference row is the one above it.
///
/// Fails if memory is refused. Then bits are lost. The steps count loads, at most seven for each pixel of the row and
/// seven more.
pub fn push_row<A: Allocator, B: Allocator, L: Ledger>(
    writer: &mut BitWriter<A>,
    bitmap: &Bitmap<B>,
    y: u32,
    steps: &mut Steps<L>,
) -> Result<(), AllocError>
    requires { bitmap.now.width ≤ max_side }
    ensures row { OnOk result (writer.new
        ≡ writer.old ++ row_bits bitmap.now.width (row_above bitmap.now y) (pixels_of_row bitmap.now y)) }
    ensures steps { steps.new ≡ record steps.old { loads = steps.new.loads } }
    ensures loads { steps.new.loads ≤ steps.old.loads + 7 * (bitmap.now.width + 1) }
{
    let width = bitmap.width();
    let above = reference_row(bitmap, y);
    let mut place = first_place(bitmap, y, steps);
    // No mode but the first leaves a0 where it is.
    for _ in 0..width + 1 {
        if place.a0 >= width {
            return Ok(());
        }
        place = push_mode(writer, bitmap, y, above, place, steps)?;
    }
    Ok(())
}
