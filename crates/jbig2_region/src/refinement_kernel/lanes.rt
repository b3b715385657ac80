//! The windows of a refinement side by side in one number, from which one product makes a context.
//!
//! The lanes from offset k on, where the windows begin one column left of column c in their row
//! (c is x in the region, x - dx in the reference):
//!
//! ```text
//! bit     63 ... 60  59     ...  45      44     ...  30      29     ...  15      14     ...  0
//! lane               region              above               here                below
//! column  0          c+k-1  ...  c+k+13  c+k-1  ...  c+k+13  c+k-1  ...  c+k+13  c+k-1  ...  c+k+13
//! ```
//!
//! A context takes each lane's three highest bits: columns c + k - 1 to c + k + 1. Each doubling
//! moves all lanes one column on.
ghost use Rattle.std.specs.Prelude.{◌≡◌, ℕ, ◌+◌, ◌*◌, ◌/◌, ◌%◌, ◌^◌, ◌<◌, ◌≤◌};
ghost use Rattle.jbig2_region.specs.RefinementTemplates.{refinement_bits};
ghost use Rattle.jbig2_region.specs.inner.RefinementLanes.{Lanes, nine_in, region_in};
ghost use Rattle.jbig2_region.specs.inner.RefinementWindows.{context_made};

use crate::refinement_kernel::windows::RefinementWindows;
use crate::template::RefinementTemplate;

/// A product with this moves fifteen pixels to the lane `here`, which begins at bit 15.
const HERE: u64 = 1 << 15;

/// The same for the lane `above`: bit 30.
const ABOVE: u64 = 1 << 30;

/// The same for the lane `region`: bit 45.
const REGION: u64 = 1 << 45;

/// A product with this moves a context's three pixels to their place in the lane `below`: bit 12.
const THREE_BELOW: u64 = 1 << 12;

/// The same for the lane `here`: bit 27.
const THREE_HERE: u64 = 1 << 27;

/// The same for the lane `above`: bit 42.
const THREE_ABOVE: u64 = 1 << 42;

/// The same for the lane `region`: bit 57.
const THREE_REGION: u64 = 1 << 57;

/// The same for the middle one of the three pixels in the lane `above`: bit 43.
const MIDDLE_ABOVE: u64 = 1 << 43;

/// A factor that moves the pixels below, here, above and in the region to bits 51, 54, 57 and 61.
const GATHER_0: u64 = (1 << 39) + (1 << 27) + (1 << 15) + (1 << 4);

/// The same at template 1, with one pixel above: to bits 51, 53, 56 and 58.
const GATHER_1: u64 = (1 << 39) + (1 << 26) + (1 << 13) + (1 << 1);

/// Fifteen pixels of each window, from the one `offset` right of its first on. The row below is in the
/// lowest bits, and the region in the highest. Lanes move on by doubling: after up to twelve pixels,
/// `lanes_context` finds the next pixel's context in them.
#[inline(always)]
pub fn lanes_at(windows: RefinementWindows, offset: u32) -> u64
    requires offset { offset ≤ 32 }
    ensures { Lanes windows offset 12 result }
{
    let below = (windows.below << offset) >> 49;
    let here = (windows.here << offset) >> 49;
    let above = (windows.above << offset) >> 49;
    let region = (windows.region << offset) >> 49;
    below + here * HERE + above * ABOVE + region * REGION
}

/// The context at template 0 from four times three pixels. The product brings them side by side,
/// from bit 51 on.
#[inline(always)]
fn gathered_0(below: u64, here: u64, above: u64, region: u64) -> u32
    requires below { below < 8 }
    requires here { here < 8 }
    requires above { above < 8 }
    requires region { region < 8 }
    ensures { result ≡ below + here * 8 + above * 64 + region * 1024 }
{
    let low = below * THREE_BELOW + here * THREE_HERE;
    let fields = low + above * THREE_ABOVE + region * THREE_REGION;
    (fields.wrapping_mul(GATHER_0) >> 51) as u32
}

/// The same at template 1, which uses only some of the pixels.
#[inline(always)]
fn gathered_1(below: u64, here: u64, above: u64, region: u64) -> u32
    requires below { below < 8 }
    requires here { here < 8 }
    requires above { above < 8 }
    requires region { region < 8 }
    ensures { result ≡ below % 4 + here * 4 + above / 2 % 2 * 32 + region * 128 }
{
    let low = below % 4 * THREE_BELOW + here * THREE_HERE;
    let fields = low + above / 2 % 2 * MIDDLE_ABOVE + region * THREE_REGION;
    (fields.wrapping_mul(GATHER_1) >> 51) as u32
}

/// The number of the context that lanes make with `left`, the pixel on the left.
#[inline(always)]
pub fn lanes_context(template: RefinementTemplate, lanes: u64, left: u32) -> u32
    requires left { left < 2 }
    ensures value { result ≡ context_made template (nine_in lanes) (left + region_in lanes * 2) }
    ensures bound { result < 2 ^ refinement_bits template }
{
    let below = (lanes >> 12) % 8;
    let here = (lanes >> 27) % 8;
    let above = (lanes >> 42) % 8;
    let region = (lanes >> 57) % 8;
    match template {
        RefinementTemplate::Template0 => gathered_0(below, here, above, region) + left * 512,
        RefinementTemplate::Template1 => gathered_1(below, here, above, region) + left * 64,
    }
}
