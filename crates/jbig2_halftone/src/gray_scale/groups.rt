//! The next values of eight pixels in lanes, and of one pixel. Each call counts its steps.
ghost use Rattle.std.specs.Prelude.{◌≡◌, ℕ, ◌+◌, ◌-◌, ◌^◌, ◌<◌, length, slice_index};
ghost use Rattle.std.specs.List.{All};
ghost use Rattle.jbig2_base.specs.Bits.{bit, bit_number};
ghost use Rattle.jbig2_halftone.specs.inner.NextValues.{next_value};

use jbig2_steps::Steps;
use std::simd::prelude::*;
use std::sync::ledger::Ledger;

/// The number of pixels in a group of lanes.
pub const LANES: u32 = 8;

/// Eight pixels as lanes of 0 and 1. The first pixel is the byte's highest bit.
#[inline(always)]
fn spread(byte: u32) -> u32x8
    ensures lanes { length result ≡ 8 }
    ensures value { (k : ℕ) → k < 8 → slice_index result k ≡ bit_number (bit byte (7 - k)) }
{
    let places = u32x8::from_array([128, 64, 32, 16, 8, 4, 2, 1]);
    let black = (u32x8::splat(byte) & places).simd_ne(u32x8::splat(0));
    black.select(u32x8::splat(1), u32x8::splat(0))
}

/// The next values of eight pixels. Counts one group.
#[inline(always)]
pub fn next_group<L: Ledger>(byte: u32, values: u32x8, steps: &mut Steps<L>) -> u32x8
    requires lanes { length values ≡ 8 }
    requires small { All (λ v. v < 2 ^ 31) values }
    ensures lanes { length result ≡ 8 }
    ensures value { (k : ℕ) → k < 8 → slice_index result k ≡
        next_value (slice_index values k) (bit byte (7 - k)) }
    ensures steps { steps.new ≡ record steps.old { groups = steps.old.groups + 1 } }
{
    steps.group();
    values + values + (spread(byte) ^ (values & u32x8::splat(1)))
}

/// The next value of one pixel. Counts one pixel outside of lanes.
#[inline(always)]
pub fn next_pixel<L: Ledger>(black: bool, value: u32, steps: &mut Steps<L>) -> u32
    requires { value < 2 ^ 31 }
    ensures value { result ≡ next_value value black }
    ensures steps { steps.new ≡ record steps.old { pixels = steps.old.pixels + 1 } }
{
    steps.pixel();
    let turned = value % 2 == 1;
    2 * value + u32::from(black != turned)
}
