//! Decodes rows of the templates with nominal adaptive pixels, eight bytes at a time. Each template has a loop of its
//! own, in which the places of its pixels are constants.
ghost use Rattle.std.specs.Prelude.{◌≡◌, ◌%◌, ◌+◌, ◌*◌, ◌^◌, ◌<◌, ◌≤◌, length};
ghost use Rattle.jbig2_region.specs.Templates.{template_of};
ghost use Rattle.jbig2_region.specs.inner.Layouts.{nominal_neighbours};
ghost use Rattle.jbig2_region.specs.inner.NominalRows.{DecodesRow, FitsRow};
ghost use Rattle.jbig2_region.specs.inner.RegionStates.{counted_region, decoder_state};
ghost use Rattle.jbig2_base.specs.Counts.{KeepsLanes};
ghost use Rattle.jbig2_region.specs.inner.Neighbours.{IsNear, neighbour_count};
ghost use Rattle.jbig2_region.specs.inner.PushedPixels.{CountsGroup, PushesGroup};

use crate::generic_kernel::bytes::{PushedBytes, push_bytes, push_pixels};
use crate::generic_kernel::constant_templates::by_template;
use crate::generic_kernel::windows::{WideWindows, Windows};
use crate::generic_kernel::words::{last_windows, windows_between, words_after, words_at};
use crate::template::Template;
use crate::template::layouts::nominal_neighbours;
use crate::template::neighbours::Neighbours;
use jbig2_base::bitmap::Bitmap;
use jbig2_coder::arithmetic_decoder::{ArithmeticDecoder, ArithmeticDecoderContext};
use jbig2_steps::Steps;
use std::alloc::Allocator;
use std::sync::ledger::Ledger;

/// For how many bytes a run is tested at byte `done` of a group of this many bytes: all eight of a
/// whole group at its start, else one. To count how many of a few bytes stay costs more than it
/// saves.
#[inline(always)]
fn most_bytes(done: u32, bytes: u32) -> u32
    requires some { done < bytes }
    requires few { bytes ≤ 8 }
    ensures some { 1 ≤ result }
    ensures within { done + result ≤ bytes }
    ensures later { 1 ≤ done → done % 4 + result ≤ 4 }
{
    if done == 0 && bytes == 8 {
        return 8;
    }
    1
}

/// `pixels` with these bytes after them.
#[inline(always)]
fn join(pixels: u64, after: PushedBytes) -> u64
    requires few { after.bytes ≤ 8 }
    requires fits { pixels * 2 ^ (8 * after.bytes) + after.pixels < 2 ^ 64 }
    ensures { result ≡ pixels * 2 ^ (8 * after.bytes) + after.pixels }
{
    if after.bytes == 8 {
        return after.pixels;
    }
    (pixels << (8 * after.bytes)) + after.pixels
}

/// Decodes the next `bytes` bytes of a row, at most eight and none of them its last, from the
/// windows' column on. Returns their pixels, the first in the highest of the lowest 8 * `bytes` bits.
#[inline(always)]
fn push_group<L: Ledger>(
    neighbours: Neighbours,
    bytes: u32,
    left: u32,
    windows: WideWindows,
    decoder: &mut ArithmeticDecoder<'_>,
    contexts: &mut [ArithmeticDecoderContext],
    steps: &mut Steps<L>,
) -> u64
    requires near { IsNear neighbours }
    requires contexts { length contexts.old ≡ 2 ^ neighbour_count neighbours }
    requires few { bytes ≤ 8 }
    requires small { left < 16 }
    ensures pixels { PushesGroup neighbours bytes left windows bytes result
        (decoder_state decoder.old contexts.old) (decoder_state decoder.new contexts.new) }
    ensures decisions { CountsGroup neighbours bytes left windows bytes
        (decoder_state decoder.old contexts.old) steps.old.decisions steps.new.decisions }
    ensures bytes { decoder.new.bytes ≡ decoder.old.bytes }
    ensures contexts { length contexts.new ≡ length contexts.old }
    ensures run_tests { steps.new.run_tests ≤ steps.old.run_tests + bytes }
    ensures loads { steps.new.loads ≡ steps.old.loads }
    ensures words { steps.new.words ≡ steps.old.words }
    ensures lanes { KeepsLanes steps.old steps.new }
{
    let mut pixels = 0;
    let mut beside = left;
    let mut done = 0;
    let mut shown = windows;
    while done < bytes {
        let most = most_bytes(done, bytes);
        let taken = push_bytes(neighbours, most, beside, shown, decoder, contexts, steps);
        pixels = join(pixels, taken);
        beside = (taken.pixels % 16) as u32;
        done += taken.bytes;
        shown = shown.moved_on(windows, taken.bytes, done, bytes);
    }
    pixels
}

/// Decodes row `y`, whose rows above are decoded.
#[inline(always)]
fn decode_row_by_bytes<A: Allocator, L: Ledger>(
    neighbours: Neighbours,
    bitmap: &mut Bitmap<A>,
    y: u32,
    decoder: &mut ArithmeticDecoder<'_>,
    contexts: &mut [ArithmeticDecoderContext],
    steps: &mut Steps<L>,
)
    requires { FitsRow neighbours y bitmap.old contexts.old }
    ensures { DecodesRow neighbours y
        (counted_region bitmap.old decoder.old contexts.old steps.old)
        (counted_region bitmap.new decoder.new contexts.new steps.new) }
{
    let width = bitmap.width();
    let whole = (width - 1) / 8;
    let mut left = 0;
    let mut before = Windows { above: 0, top: 0 };
    let mut here = words_at(bitmap, 0, y, steps);
    for group in 0..whole.div_ceil(8) {
        let x = 64 * group;
        let bytes = (whole - 8 * group).min(8);
        let after = words_after(bitmap, x, y, steps);
        let windows = windows_between(before, here, after);
        let pixels = push_group(neighbours, bytes, left, windows, decoder, contexts, steps);
        bitmap.store_pixels(x, y, 8 * bytes, pixels, steps);
        left = (pixels % 16) as u32;
        before = here;
        here = after;
    }
    let x = 8 * whole;
    let windows = last_windows(before, here, whole);
    let last = push_pixels(
        neighbours,
        width - x,
        left,
        windows,
        decoder,
        contexts,
        steps,
    );
    bitmap.store_pixels(x, y, width - x, last, steps);
}

/// Decodes row `y`, whose rows above are decoded, by the template with the number `TEMPLATE`.
#[inline(never)]
fn decode_constant_row<A: Allocator, L: Ledger, const TEMPLATE: u8>(
    neighbours: Neighbours,
    bitmap: &mut Bitmap<A>,
    y: u32,
    decoder: &mut ArithmeticDecoder<'_>,
    contexts: &mut [ArithmeticDecoderContext],
    steps: &mut Steps<L>,
)
    requires same { neighbours ≡ nominal_neighbours (template_of (TEMPLATE % 4)) }
    requires fits { FitsRow neighbours y bitmap.old contexts.old }
    ensures { DecodesRow neighbours y
        (counted_region bitmap.old decoder.old contexts.old steps.old)
        (counted_region bitmap.new decoder.new contexts.new steps.new) }
{
    let constant = nominal_neighbours(Template::from_byte(TEMPLATE));
    decode_row_by_bytes(constant, bitmap, y, decoder, contexts, steps);
}

/// Decodes row `y`, whose rows above are decoded.
pub fn decode_nominal_row<A: Allocator, L: Ledger>(
    neighbours: Neighbours,
    bitmap: &mut Bitmap<A>,
    y: u32,
    decoder: &mut ArithmeticDecoder<'_>,
    contexts: &mut [ArithmeticDecoderContext],
    steps: &mut Steps<L>,
)
    requires { FitsRow neighbours y bitmap.old contexts.old }
    ensures { DecodesRow neighbours y
        (counted_region bitmap.old decoder.old contexts.old steps.old)
        (counted_region bitmap.new decoder.new contexts.new steps.new) }
{
    by_template!(
        neighbours,
        decode_constant_row(neighbours, bitmap, y, decoder, contexts, steps)
    );
    decode_row_by_bytes(neighbours, bitmap, y, decoder, contexts, steps);
}
