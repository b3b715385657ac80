//! Writes a page as an image with a byte for each pixel.
ghost use Rattle.std.specs.Prelude.{◌≡◌, ◌+◌, ◌-◌, ◌*◌, ◌<◌, ◌≤◌, length};
ghost use Rattle.jbig2_base.specs.Grid.{max_side};
ghost use Rattle.jbig2_base.specs.Bits.{bit};
ghost use Rattle.jbig2_page.specs.Image.{image_of, shade};
ghost use Rattle.jbig2_page.specs.inner.BufferBytes.{Fills};
ghost use Rattle.jbig2_steps.specs.Work.{CountsBeside, paid_words, price_of_bitmap};

use crate::row_places::{next_place, pixel_of};
use jbig2_base::bitmap::Bitmap;
use jbig2_framing::page_info::InitialPage;
use jbig2_steps::Steps;
use std::alloc::Allocator;
use std::sync::ledger::Ledger;

/// The byte of a pixel: 0 for black and 255 for white.
#[inline(always)]
fn shade(black: bool) -> u8
    ensures { result ≡ shade black }
{
    if black { 0 } else { 255 }
}

/// Puts a byte for each of the highest `count` bits of a word at a place of `buf`.
#[inline(always)]
fn put_shades(buf: &mut [u8], place: usize, count: usize, word: u64)
    requires few { count ≤ 64 }
    requires inside { place + count ≤ length buf.old }
    ensures { Fills (λ i. shade (bit word (63 - i))) place count buf.old buf.new }
{
    for i in 0..count {
        buf[place + i] = shade(pixel_of(word, 63 - i as u32));
    }
}

/// Writes a byte for each pixel of a page of this size, rows from the top: 0 for black, 255 for
/// white.
#[tactic(auto, unfolding(crate::specs::Image::image_of))]
pub(crate) fn write_image<A: Allocator, L: Ledger>(
    bitmap: &Bitmap<A>,
    initial_page: &InitialPage,
    buf: &mut [u8],
    steps: &mut Steps<L>,
)
    requires width { initial_page.now.width ≤ max_side }
    requires height { initial_page.now.height ≤ max_side }
    requires sized { length buf.old ≡ initial_page.now.width * initial_page.now.height }
    ensures value { buf.new ≡ image_of initial_page.now.width initial_page.now.height bitmap.now }
    ensures paid { let page = initial_page.now in
        CountsBeside (paid_words page.width page.height)
        (price_of_bitmap page.width page.height) steps.old steps.new }
{
    let width = initial_page.width as usize;
    let (mut place, mut x, mut y) = (0, 0, 0);
    while place < buf.len() {
        let word = bitmap.load_pixels(x as u32, y, 64, steps);
        let count = (width - x).min(buf.len() - place).min(64);
        put_shades(buf, place, count, word);
        place += count;
        (x, y) = next_place(x + count, y, width);
    }
}
