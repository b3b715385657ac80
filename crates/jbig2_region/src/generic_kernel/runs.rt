//! Finds runs of likely symbols in rows of a template without adaptive pixels.
ghost use Rattle.std.specs.Prelude.{◌≡◌, ◌==◌, ℕ, ◌+◌, ◌-◌, ◌*◌, ◌/◌, ◌%◌, ◌^◌, ◌<◌, ◌≤◌, false, true, max, min, nat_lt, length, slice_index_or, if◌then◌else◌};
ghost use Rattle.jbig2_base.specs.Grid.{Grid, same_colour};
ghost use Rattle.jbig2_coder.specs.Coder.{fresh};
ghost use Rattle.jbig2_coder.specs.QeTable.{qe_row};
ghost use Rattle.jbig2_region.specs.inner.RegionStates.{HasDecoded, region_state};
ghost use Rattle.jbig2_region.specs.inner.LongRuns.{is_run_for};
ghost use Rattle.jbig2_region.specs.inner.Neighbours.{IsNear, is_field, neighbour_count, neighbours_stay, nominal_pixels, stretch_stays, stretches_stay};
ghost use Rattle.jbig2_region.specs.Raster.{Region};
ghost use Rattle.jbig2_region.specs.Steps.{all_of, is_run_of};
ghost use Rattle.jbig2_region.specs.inner.Windows.{IsLeft, ShowsRun};

use crate::generic_kernel::windows::{WideWindows, Windows};
use crate::template::neighbours::{Neighbours, Stretch};
use jbig2_coder::arithmetic_decoder::{ArithmeticDecoder, ArithmeticDecoderContext};
use jbig2_steps::Steps;
use std::sync::ledger::Ledger;

/// A word whose bits all have one colour.
#[inline(always)]
fn all_bits(black: bool) -> u64
    ensures { result ≡ (if black then 2 ^ 64 - 1 else 0) }
{
    if black {
        return u64::MAX;
    }
    0
}

/// The pixels of a stretch that do not have a colour. Bit 55 is the first of those that only the
/// next columns see, and pixels right of it are in lower bits. The result is below 2^(56 - m)
/// exactly if the stretch has only this colour, seen from the window's column and each of the next
/// `m` columns.
#[inline(always)]
fn unlike_stretch(stretch: Stretch, black: bool, window: u64) -> u64
    requires reach { stretch.reach ≤ 3 }
    requires count { stretch.count ≤ 7 }
    ensures { (m : ℕ) → m ≤ 32 →
        stretch_stays stretch m black window ≡ nat_lt result (2 ^ (56 - m)) }
{
    if stretch.count == 0 {
        return 0;
    }
    let unlike = window ^ all_bits(black);
    (unlike << (9 + stretch.reach - stretch.count)) >> (8 - stretch.count)
}

/// The pixels of both stretches that do not have a colour, each in its stretch's place.
#[inline(always)]
fn unlike_stretches(neighbours: Neighbours, black: bool, windows: Windows) -> u64
    requires near { IsNear neighbours }
    ensures { (m : ℕ) → m ≤ 32 →
        stretches_stay neighbours m black windows ≡ nat_lt result (2 ^ (56 - m)) }
{
    let above = unlike_stretch(neighbours.above, black, windows.above);
    let top = unlike_stretch(neighbours.top, black, windows.top);
    above | top
}

/// The pixels of a stretch that the next byte sees and that lack a colour, the rightmost in bit 0.
#[inline(always)]
fn unlike_near(stretch: Stretch, black: bool, window: u64) -> u32
    requires reach { stretch.reach ≤ 3 }
    requires count { stretch.count ≤ 7 }
    ensures { stretch_stays stretch 8 black window ≡ (result == 0) }
{
    if stretch.count == 0 {
        return 0;
    }
    let pixels = stretch.count + 8;
    let seen = ((window >> (47 - stretch.reach)) % (1 << pixels)) as u32;
    let all = if black { (1 << pixels) - 1 } else { 0 };
    seen ^ all
}

/// The pixels on the left that do not have a colour.
#[inline(always)]
fn unlike_left(count: u32, black: bool, left: u32) -> u32
    requires { count ≤ 4 }
    ensures { is_field left 0 count black ≡ (result == 0) }
{
    let all = if black { (1 << count) - 1 } else { 0 };
    (left % (1 << count)) ^ all
}

/// How many of the next bytes stay in one context: none, one, or all eight if `most` is eight.
#[inline(always)]
fn staying_bytes(
    neighbours: Neighbours,
    black: bool,
    left: u32,
    windows: WideWindows,
    most: u32,
) -> u32
    requires near { IsNear neighbours }
    requires some { 1 ≤ most }
    requires few { most ≤ 8 }
    ensures most { result ≤ most }
    ensures none { result ≡ 0 → neighbours_stay neighbours 8 black left windows.first ≡ false }
    ensures stay { 1 ≤ result → neighbours_stay neighbours (8 * min result 4) black left
        windows.first ≡ true }
    ensures eight { 5 ≤ result → (result ≡ 8) ×
        (neighbours_stay neighbours 32 black left windows.second ≡ true) }
{
    let above = unlike_near(neighbours.above, black, windows.first.above);
    let top = unlike_near(neighbours.top, black, windows.first.top);
    let beside = unlike_left(neighbours.left, black, left);
    // One test of all parts of the context: a jump between two of them would be hard to predict.
    if above | top | beside != 0 {
        return 0;
    }
    if most == 8 {
        let first = unlike_stretches(neighbours, black, windows.first);
        let second = unlike_stretches(neighbours, black, windows.second);
        if (first | second) >> 24 == 0 {
            return 8;
        }
    }
    1
}

/// The number of the context whose pixels all have one colour, of `count` contexts.
#[inline(always)]
fn uniform_context(black: bool, count: usize) -> usize
    requires { 1 ≤ count }
    ensures value { result ≡ (if black then count - 1 else 0) }
    ensures inside { result < count }
{
    if black {
        return count - 1;
    }
    0
}

#[inline(always)]
fn same_colour(black: bool, other: bool) -> bool
    ensures { result ≡ same_colour black other }
{
    if black {
        return other;
    }
    !other
}

/// Takes bytes of the next `most`, from the first on, that are one run of `black`, but no more than
/// are tested at once. It takes none only if the first is no such run.
#[inline(always)]
pub fn take_runs<L: Ledger>(
    neighbours: Neighbours,
    black: bool,
    left: u32,
    windows: WideWindows,
    most: u32,
    decoder: &mut ArithmeticDecoder<'_>,
    contexts: &[ArithmeticDecoderContext],
    steps: &mut Steps<L>,
) -> u32
    requires near { IsNear neighbours }
    requires contexts { length contexts.now ≡ 2 ^ neighbour_count neighbours }
    requires some { 1 ≤ most }
    requires few { most ≤ 8 }
    ensures most { result ≤ most }
    ensures none { (w h x y : ℕ) (r : Region) (grid : Grid) → length r.pixels ≡ y * w + x →
        x + 8 * most < w → y < h → ShowsRun grid x y most windows → IsLeft grid x y left →
        HasDecoded w h decoder.old.bytes r (region_state grid decoder.old contexts.now) →
        result ≡ 0 → is_run_of (nominal_pixels neighbours) w h decoder.old.bytes r black ≡ false }
    ensures run { (w h x y : ℕ) (r : Region) (grid : Grid) → length r.pixels ≡ y * w + x →
        x + 8 * most < w → y < h → ShowsRun grid x y most windows → IsLeft grid x y left →
        HasDecoded w h decoder.old.bytes r (region_state grid decoder.old contexts.now) →
        1 ≤ result →
        is_run_for (nominal_pixels neighbours) w h decoder.old.bytes r black (8 * result) ≡ true }
    ensures coder { decoder.new ≡
        record decoder.old {
          registers = record decoder.old.registers {
            a =
                decoder.old.registers.a - 8 * result *
                (qe_row (slice_index_or contexts.now (all_of (nominal_pixels neighbours) black)
                fresh).row).qe;
          };
        } }
    ensures run_tests { steps.new.run_tests ≤ steps.old.run_tests + max result 1 }
    ensures steps { steps.new ≡ record steps.old { run_tests = steps.new.run_tests } }
{
    let staying = staying_bytes(neighbours, black, left, windows, most);
    if staying == 0 {
        return 0;
    }
    let number = uniform_context(black, contexts.len());
    let context = contexts[number];
    if !same_colour(black, context.likely_symbol()) {
        return 0;
    }
    decoder.decode_mps_runs(&context, 8, staying, steps)
}
