//! Reads one row, mode by mode (T.6, 2.2).
ghost use Rattle.std.specs.Prelude.{◌≡◌, ℕ, ◌+◌, ◌-◌, ◌*◌, ◌/◌, ◌<◌, ◌≤◌, List, length, IfSome, Some, not, true, false, nat_le, if◌then◌else◌, ◌≢◌};
ghost use Rattle.jbig2_base.specs.Bits.{bit};
ghost use Rattle.jbig2_base.specs.Counts.{KeepsLanes, words_loaded};
ghost use Rattle.jbig2_base.specs.Grid.{IsTable, pixel_at};
ghost use Rattle.jbig2_mmr.specs.T6.{b1_of, after_pass, after_vertical, after_runs, next_step, row};
ghost use Rattle.jbig2_mmr.specs.inner.T6Calls.{IsWordOf, ReadStep, ReadRow, head_of};
ghost use Rattle.jbig2_mmr.specs.inner.T6Reading.{row_above, pixels_of_row, IsWithinThree};
ghost use Rattle.jbig2_mmr.specs.inner.T6Steps.{bits_taken, turn_loads, words_after};
ghost use Rattle.jbig2_mmr.specs.Steps.{MovesWithin};

use crate::mmr::bits::CodeReader;
use crate::mmr::change::{RowWord, find_change};
use crate::mmr::codes::Mode;
use crate::mmr::span::fill_span;
use jbig2_base::bitmap::Bitmap;
use jbig2_steps::Steps;
use std::alloc::Allocator;
use std::sync::ledger::Ledger;

/// The state of a row: the place `a0`, and the colour from there on.
#[derive(Clone, Copy)]
pub struct Place {
    a0: u32,
    past_start: bool,
    black: bool,
}

/// A mode's result: the colour stays up to `turn`, then the other one comes up to a0 of `next`.
#[derive(Clone, Copy)]
pub struct Turn {
    turn: u32,
    next: Place,
}

/// Reads row `y`, which is white before. Its reference row is the one above it. Returns false at a
/// fault, which leaves the row white.
pub fn read_row<A: Allocator, L: Ledger>(
    bitmap: &mut Bitmap<A>,
    y: u32,
    reader: &mut CodeReader,
    steps: &mut Steps<L>,
) -> bool
    requires row { y < bitmap.old.height }
    requires white { (x : ℕ) → pixel_at bitmap.old x y ≡ false }
    ensures value { ReadRow (row bitmap.old.width (row_above bitmap.old y) reader.old.left) result
        bitmap.old bitmap.new y reader.new.left }
    ensures bytes { reader.new.bytes ≡ reader.old.bytes }
    ensures lanes { KeepsLanes steps.old steps.new }
    ensures shorter { result ≡ true → length reader.new.left ≤ length reader.old.left }
    ensures work { 0 < bitmap.old.width → MovesWithin (3 * ((bitmap.old.width + 63) / 64
        + bits_taken result (length reader.old.left) (length reader.new.left)))
        steps.old steps.new }
{
    let width = bitmap.width();
    let above = reference_row(bitmap, y);
    let mut word = RowWord::load(bitmap, above, 0, steps);
    let mut place = Place {
        a0: 0,
        past_start: false,
        black: false,
    };
    while place.a0 < width {
        word = word.at(bitmap, above, place.a0, steps);
        match read_turn(bitmap, above, word, reader, place, steps) {
            Some(turn) => {
                if place.black {
                    fill_span(bitmap, y, place.a0, turn.turn, true, steps);
                } else {
                    fill_span(bitmap, y, turn.turn, turn.next.a0, true, steps);
                }
                place = Place {
                    a0: turn.next.a0,
                    past_start: true,
                    black: turn.next.black,
                };
            }
            None => {
                fill_span(bitmap, y, 0, width, false, steps);
                return false;
            }
        }
    }
    true
}

/// The row above row `y`. Above row 0 it is a row outside, which is white.
fn reference_row<A: Allocator>(bitmap: &Bitmap<A>, y: u32) -> u32
    requires { y < bitmap.now.height }
    ensures value { (x : ℕ) → pixels_of_row bitmap.now result x ≡ row_above bitmap.now y x }
    ensures apart { result ≢ y }
{
    if y == 0 { bitmap.height() } else { y - 1 }
}

/// Reads a mode; None at a fault. `word` is the word of row `above` with the pixel above a0.
#[inline(always)]
fn read_turn<A: Allocator, L: Ledger>(
    bitmap: &Bitmap<A>,
    above: u32,
    word: RowWord,
    reader: &mut CodeReader,
    place: Place,
    steps: &mut Steps<L>,
) -> Option<Turn>
    requires column { place.a0 < bitmap.now.width }
    requires first { place.past_start ≡ false → place.a0 ≡ 0 }
    requires word { IsWordOf (pixels_of_row bitmap.now above) word }
    requires index { word.index ≡ place.a0 / 64 }
    ensures value { ReadStep bitmap.now.width (head_of place)
        (next_step bitmap.now.width (pixels_of_row bitmap.now above) (head_of place) reader.old.left)
        result reader.new.left }
    ensures bytes { reader.new.bytes ≡ reader.old.bytes }
    ensures shorter { IfSome result (λ _. length reader.new.left < length reader.old.left) }
    ensures lanes { KeepsLanes steps.old steps.new }
    ensures work { MovesWithin (turn_loads bitmap.now.width place.a0 result) steps.old steps.new }
{
    match reader.read_mode()? {
        Mode::Pass => Some(pass(bitmap, above, word, place, steps)),
        Mode::Horizontal => horizontal(reader, place, bitmap.width()),
        Mode::Vertical(distance) => vertical(bitmap, above, word, place, distance, steps),
    }
}

/// The pass mode: a0 moves to the place below b2, the next change after b1, to the other colour.
#[inline(always)]
fn pass<A: Allocator, L: Ledger>(
    bitmap: &Bitmap<A>,
    above: u32,
    word: RowWord,
    place: Place,
    steps: &mut Steps<L>,
) -> Turn
    requires column { place.a0 < bitmap.now.width }
    requires first { place.past_start ≡ false → place.a0 ≡ 0 }
    requires word { IsWordOf (pixels_of_row bitmap.now above) word }
    requires index { word.index ≡ place.a0 / 64 }
    ensures value { (bits : List ℕ) → ReadStep bitmap.now.width (head_of place)
        (after_pass bitmap.now.width (pixels_of_row bitmap.now above) (head_of place) bits) (Some result)
        bits }
    ensures lanes { KeepsLanes steps.old steps.new }
    ensures work { MovesWithin (turn_loads bitmap.now.width place.a0 (Some result)) steps.old
        steps.new }
{
    let b1 = find_b1(bitmap, above, word, place, steps);
    if b1 >= bitmap.width() {
        return pass_turn(b1, place.black);
    }
    let at_b1 = Place {
        a0: b1,
        past_start: true,
        black: !place.black,
    };
    let word = word.at(bitmap, above, b1, steps);
    pass_turn(find_b1(bitmap, above, word, at_b1, steps), place.black)
}

/// The result of a pass mode, in which the colour stays up to b2.
#[inline(always)]
fn pass_turn(b2: u32, black: bool) -> Turn
    ensures { result ≡ record {
      turn = b2;
      next = record { a0 = b2; past_start = true; black = black };
    } }
{
    Turn {
        turn: b2,
        next: Place {
            a0: b2,
            past_start: true,
            black,
        },
    }
}

/// The horizontal mode: two runs.
#[inline(always)]
fn horizontal(reader: &mut CodeReader, place: Place, width: u32) -> Option<Turn>
    requires { place.a0 < width }
    ensures value { ReadStep width (head_of place)
        (after_runs width (head_of place) reader.old.left) result reader.new.left }
    ensures bytes { reader.new.bytes ≡ reader.old.bytes }
    ensures shorter { IfSome result (λ _. length reader.new.left ≤ length reader.old.left) }
{
    let turn = place.a0 + reader.read_run(place.black, width - place.a0)?;
    let a0 = turn + reader.read_run(!place.black, width - turn)?;
    Some(Turn {
        turn,
        next: Place {
            a0,
            past_start: true,
            black: place.black,
        },
    })
}

/// A vertical mode: a1 is b1 plus `distance`. None if it is left of a0 or past the width.
#[inline(always)]
fn vertical<A: Allocator, L: Ledger>(
    bitmap: &Bitmap<A>,
    above: u32,
    word: RowWord,
    place: Place,
    distance: i32,
    steps: &mut Steps<L>,
) -> Option<Turn>
    requires column { place.a0 < bitmap.now.width }
    requires first { place.past_start ≡ false → place.a0 ≡ 0 }
    requires word { IsWordOf (pixels_of_row bitmap.now above) word }
    requires index { word.index ≡ place.a0 / 64 }
    ensures value { (bits : List ℕ) → ReadStep bitmap.now.width (head_of place)
        (after_vertical bitmap.now.width (pixels_of_row bitmap.now above) (head_of place) distance bits)
        result bits }
    ensures lanes { KeepsLanes steps.old steps.new }
    ensures work { IsWithinThree distance
        → MovesWithin (turn_loads bitmap.now.width place.a0 result) steps.old steps.new }
{
    let width = bitmap.width();
    let b1 = find_b1(bitmap, above, word, place, steps);
    let sum = i64::from(b1) + i64::from(distance);
    if sum < i64::from(place.a0) || sum > i64::from(width) {
        return None;
    }
    let a1 = sum as u32;
    Some(Turn {
        turn: a1,
        next: Place {
            a0: a1,
            past_start: true,
            black: !place.black,
        },
    })
}

/// b1: the first pixel of the reference row right of a0 that does not have the colour of a0, but
/// whose left neighbour has it. `word` is the word of that row above a0.
#[inline(always)]
fn find_b1<A: Allocator, L: Ledger>(
    bitmap: &Bitmap<A>,
    above: u32,
    word: RowWord,
    place: Place,
    steps: &mut Steps<L>,
) -> u32
    requires column { place.a0 < bitmap.now.width }
    requires first { place.past_start ≡ false → place.a0 ≡ 0 }
    requires word { IsWordOf (pixels_of_row bitmap.now above) word }
    requires index { word.index ≡ place.a0 / 64 }
    ensures value { result ≡ b1_of bitmap.now.width (pixels_of_row bitmap.now above) (head_of place) }
    ensures within { result ≤ bitmap.now.width }
    ensures forward { place.a0 ≤ result }
    ensures colour { result < bitmap.now.width → pixels_of_row bitmap.now above result ≡ not place.black }
    ensures lanes { KeepsLanes steps.old steps.new }
    ensures steps { steps.new
        ≡ words_loaded (words_after bitmap.now.width place.a0 result) steps.old }
{
    let changes = word.changes(place.black) & right_of(place);
    if changes != 0 {
        return 64 * word.index + changes.leading_zeros();
    }
    find_change(
        bitmap,
        above,
        word.index + 1,
        word.pixels,
        place.black,
        steps,
    )
}

/// The bits of a0's word where b1 may lie: those right of a0, or all before the first mode.
#[inline(always)]
fn right_of(place: Place) -> u64
    requires { place.past_start ≡ false → place.a0 ≡ 0 }
    ensures { (k : ℕ) → k < 64 → bit result (63 - k) ≡
        nat_le (if place.past_start then place.a0 + 1 else 0) (64 * (place.a0 / 64) + k) }
{
    let right = u64::MAX >> (place.a0 % 64);
    if place.past_start { right >> 1 } else { right }
}
