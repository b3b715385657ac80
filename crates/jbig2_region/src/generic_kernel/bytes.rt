//! Decodes pixels of a row and whole bytes of it, where a template has no adaptive pixels: a byte as a run of likely
//! symbols, or else pixel by pixel.
//!
//! The register, where a is the reach in row y - 1, and t the reach in row y - 2:
//!
//! ```text
//! bit     63 ... 56  55    ...  47  ...  40     39 ... 32  31    ...  23  ...  16     15 ... 0
//! row                y-2                                   y-1
//! column  0          x-8+t      x+t      x+7+t  0          x-8+a      x+a      x+7+a  0
//! ```
//!
//! A context takes the bits from 23 up and from 47 up. Each doubling moves both one column on.
ghost use Rattle.std.specs.Prelude.{◌≡◌, ◌+◌, ◌-◌, ◌*◌, ◌^◌, ◌<◌, ◌≤◌, length, if◌then◌else◌};
ghost use Rattle.jbig2_base.specs.Counts.{KeepsLanes};
ghost use Rattle.jbig2_region.specs.inner.Neighbours.{IsNear, neighbour_count, cut_of, register_of};
ghost use Rattle.jbig2_region.specs.inner.PushedPixels.{CountsBytes, PushesBytes, PushesPixels};
ghost use Rattle.jbig2_region.specs.inner.RegionStates.{decoder_state};

use crate::generic_kernel::runs::take_runs;
use crate::generic_kernel::windows::{WideWindows, Windows};
use crate::template::neighbours::Neighbours;
use jbig2_coder::arithmetic_decoder::{ArithmeticDecoder, ArithmeticDecoderContext};
use jbig2_steps::Steps;
use std::sync::ledger::Ledger;

/// A remainder by this leaves the lowest sixteen bits.
const SIXTEEN: u64 = 1 << 16;

/// A product with this moves pixels of row y - 1 to bit 16, their place in the register.
const ABOVE: u64 = 1 << 16;

/// The same for row y - 2: bit 40.
const TOP: u64 = 1 << 40;

/// A product with this moves a context's pixels of row y - 1 to bit 23, their place in the register.
const TAKEN_ABOVE: u64 = 1 << 23;

/// The same for row y - 2: bit 47.
const TAKEN_TOP: u64 = 1 << 47;

/// A factor that moves pixels of row y - 1 from bit 23 to bit 48.
const GATHER_ABOVE: u64 = 1 << 25;

/// A factor that moves pixels of row y - 2 from bit 47 to bit 48.
const GATHER_TOP: u64 = 1 << 1;

impl Neighbours {
    /// The pixels of the two stretches in the windows, in one number. It moves on by doubling:
    /// after up to seven pixels, `context` finds the next pixel's context in it.
    #[inline(always)]
    fn register(self, windows: Windows) -> u64
        requires near { IsNear self }
        ensures value { result ≡ register_of self windows }
        ensures bound { result < 2 ^ 56 }
    {
        let above = (windows.above >> (48 - self.above.reach)) % SIXTEEN;
        let top = (windows.top >> (48 - self.top.reach)) % SIXTEEN;
        above * ABOVE + top * TOP
    }

    /// The number of the context. `register` has the two stretches, and the lowest bits of `beside`
    /// are the pixels on the left. One product brings the stretches side by side, from bit 48 on. The
    /// pixels on the left are added after it, so that the product waits for none of their decisions.
    #[inline(always)]
    fn context(self, register: u64, beside: u32) -> u32
        requires near { IsNear self }
        ensures value { result ≡ cut_of self register beside }
        ensures bound { result < 2 ^ neighbour_count self }
    {
        let above = (register >> 23) % (1 << self.above.count);
        let top = (register >> 47) % (1 << self.top.count);
        let fields = above * TAKEN_ABOVE + top * TAKEN_TOP;
        let places = (GATHER_ABOVE << self.left) + (GATHER_TOP << (self.left + self.above.count));
        let stretches = (fields.wrapping_mul(places) >> 48) as u32;
        stretches + beside % (1 << self.left)
    }
}

/// `count` bits of one colour.
#[inline(always)]
fn uniform(black: bool, count: u32) -> u64
    requires { count ≤ 64 }
    ensures value { result ≡ (if black then 2 ^ count - 1 else 0) }
    ensures bound { result < 2 ^ count }
{
    if black && count > 0 {
        return u64::MAX >> (64 - count);
    }
    0
}

/// Decodes the next `count` pixels, at most a byte, from the windows' column on. The first is the
/// highest of the lowest `count` bits.
#[inline(always)]
pub fn push_pixels<L: Ledger>(
    neighbours: Neighbours,
    count: u32,
    left: u32,
    windows: Windows,
    decoder: &mut ArithmeticDecoder<'_>,
    contexts: &mut [ArithmeticDecoderContext],
    steps: &mut Steps<L>,
) -> u64
    requires near { IsNear neighbours }
    requires contexts { length contexts.old ≡ 2 ^ neighbour_count neighbours }
    requires byte { count ≤ 8 }
    requires small { left < 16 }
    ensures pixels { PushesPixels neighbours count left windows count result
        (decoder_state decoder.old contexts.old) (decoder_state decoder.new contexts.new) }
    ensures bound { result < 2 ^ count }
    ensures bytes { decoder.new.bytes ≡ decoder.old.bytes }
    ensures contexts { length contexts.new ≡ length contexts.old }
    ensures steps { steps.new ≡
        record steps.old { decisions = steps.old.decisions + count } }
{
    let mut register = neighbours.register(windows);
    let mut beside = left;
    let mut context = neighbours.context(register, beside);
    for _ in 0..count {
        let symbol = decoder.decode(&mut contexts[context as usize], steps);
        register *= 2;
        beside *= 2;
        let higher = neighbours.context(register, beside);
        context = higher + symbol;
        beside += symbol;
    }
    u64::from(beside) % (1 << count)
}

/// Decoded whole bytes of a row: how many, and their pixels, the first in the highest of the lowest
/// 8 * `bytes` bits.
#[derive(Clone, Copy)]
pub struct PushedBytes {
    pub bytes: u32,
    pub pixels: u64,
}

/// Decodes the next bytes of a row, none of them its last, from the windows' column on: a run of at
/// most `most` bytes, or else one byte pixel by pixel.
#[inline(always)]
pub fn push_bytes<L: Ledger>(
    neighbours: Neighbours,
    most: u32,
    left: u32,
    windows: WideWindows,
    decoder: &mut ArithmeticDecoder<'_>,
    contexts: &mut [ArithmeticDecoderContext],
    steps: &mut Steps<L>,
) -> PushedBytes
    requires near { IsNear neighbours }
    requires contexts { length contexts.old ≡ 2 ^ neighbour_count neighbours }
    requires some { 1 ≤ most }
    requires few { most ≤ 8 }
    requires small { left < 16 }
    ensures some { 1 ≤ result.bytes }
    ensures most { result.bytes ≤ most }
    ensures pixels { PushesBytes neighbours most left windows result.bytes result.pixels
        (decoder_state decoder.old contexts.old) (decoder_state decoder.new contexts.new) }
    ensures decisions { CountsBytes neighbours most left windows result.bytes
        (decoder_state decoder.old contexts.old) steps.old.decisions steps.new.decisions }
    ensures bound { result.pixels < 2 ^ (8 * result.bytes) }
    ensures bytes { decoder.new.bytes ≡ decoder.old.bytes }
    ensures contexts { length contexts.new ≡ length contexts.old }
    ensures run_tests { steps.new.run_tests ≤ steps.old.run_tests + result.bytes }
    ensures loads { steps.new.loads ≡ steps.old.loads }
    ensures words { steps.new.words ≡ steps.old.words }
    ensures lanes { KeepsLanes steps.old steps.new }
{
    let black = left % 2 == 1;
    let bytes = take_runs(
        neighbours, black, left, windows, most, decoder, contexts, steps,
    );
    if bytes > 0 {
        let pixels = uniform(black, 8 * bytes);
        return PushedBytes { bytes, pixels };
    }
    let pixels = push_pixels(neighbours, 8, left, windows.first, decoder, contexts, steps);
    PushedBytes { bytes: 1, pixels }
}
