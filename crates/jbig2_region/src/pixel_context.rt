//! The context of a pixel: the number that the pixels of a template make (T.88, 6.2.5.3 and 6.3.5.3).
ghost use Rattle.std.specs.Prelude.{◌≡◌, ◌+◌, ◌*◌, ◌^◌, ◌<◌, ◌≤◌, length, pos, ◌+ℤ◌};
ghost use Rattle.jbig2_base.specs.Grid.{pixel};
ghost use Rattle.jbig2_base.specs.Bits.{bit_number};
ghost use Rattle.jbig2_region.specs.Generic.{context_at};

use crate::raster::pixel_at;
use crate::template::AdaptiveTemplatePixel;
use jbig2_base::bitmap::Bitmap;
use jbig2_steps::Steps;
use std::alloc::Allocator;
use std::sync::ledger::Ledger;

/// The template's pixel at `place`, seen from column `x` of row `y`.
#[inline(always)]
fn pixel_near<A: Allocator, L: Ledger>(
    bitmap: &Bitmap<A>,
    x: u32,
    y: u32,
    place: AdaptiveTemplatePixel,
    steps: &mut Steps<L>,
) -> u8
    requires column { x < 65536 }
    requires row { y < 65536 }
    ensures value { result ≡ bit_number (pixel bitmap.now (pos x +ℤ place.x) (pos y +ℤ place.y)) }
    ensures steps { steps.new ≡ record steps.old { loads = steps.old.loads + 1 } }
{
    pixel_at(
        bitmap,
        x as i32 + i32::from(place.x),
        y as i32 + i32::from(place.y),
        steps,
    )
}

/// The number of the context at column `x` of row `y`.
#[inline(always)]
pub fn context_at<A: Allocator, L: Ledger>(
    pixels: &[AdaptiveTemplatePixel],
    bitmap: &Bitmap<A>,
    x: u32,
    y: u32,
    steps: &mut Steps<L>,
) -> u32
    requires few { length pixels.now ≤ 16 }
    requires column { x < 65536 }
    requires row { y < 65536 }
    ensures value { result ≡ context_at pixels.now bitmap.now x y }
    ensures small { result < 2 ^ length pixels.now }
    ensures steps { steps.new ≡ record steps.old { loads = steps.old.loads + length pixels.now } }
{
    let mut context = 0;
    let mut left = pixels.len();
    while left > 0 {
        left -= 1;
        context = 2 * context + u32::from(pixel_near(bitmap, x, y, pixels[left], steps));
    }
    context
}
