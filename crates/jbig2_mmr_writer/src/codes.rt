//! The codes of T.6, and the runs and modes that they stand for.
//!
//! An entry is 16 times the number that the bits of a code word make, plus its size in bits.
ghost use Rattle.std.specs.Prelude.{◌≡◌, ◌+◌, ◌-◌, ◌*◌, ◌/◌, ◌%◌, ◌^◌, ◌<◌, ◌≤◌, ◌++◌, nat_le, if◌then◌else◌, OnOk};
ghost use Rattle.jbig2_inverses.specs.MmrRowWriter.{mode_word, run_bits, run_word};
ghost use Rattle.jbig2_mmr.specs.T6Codes.{vertical_left, vertical_right};
ghost use Rattle.jbig2_mmr_writer.specs.inner.Entries.{word_of_entry};

use crate::bits::BitWriter;
use std::alloc::{AllocError, Allocator};

/// The code of the pass mode (table 1).
pub const PASS: u16 = 20;

/// The code of the horizontal mode.
pub const HORIZONTAL: u16 = 19;

/// The codes of the vertical modes, by how far right of b1 a1 is.
static RIGHT: [u16; 4] = [17, 51, 54, 55];

/// The codes of the vertical modes, by how far left of b1 a1 is.
static LEFT: [u16; 4] = [17, 35, 38, 39];

/// The white terminating codes, by the length of the run.
static WHITE_ENDS: [u16; 64] = [
    856, 118, 116, 132, 180, 196, 228, 244, 309, 325, 117, 133, 134, 54, 838, 854, 678, 694, 631,
    199, 135, 375, 55, 71, 647, 695, 311, 583, 391, 40, 56, 424, 440, 296, 312, 328, 344, 360, 376,
    648, 664, 680, 696, 712, 728, 72, 88, 168, 184, 1320, 1336, 1352, 1368, 584, 600, 1416, 1432,
    1448, 1464, 1192, 1208, 808, 824, 840,
];

/// The white make-up codes, of runs of 64, 128 and so on to 2560.
static WHITE_PARTS: [u16; 40] = [
    437, 293, 374, 887, 872, 888, 1608, 1624, 1672, 1656, 3273, 3289, 3369, 3385, 3401, 3417, 3433,
    3449, 3465, 3481, 3497, 3513, 2441, 2457, 2473, 390, 2489, 139, 203, 219, 300, 316, 332, 348,
    364, 380, 460, 476, 492, 508,
];

/// The black terminating codes, by the length of the run.
static BLACK_ENDS: [u16; 64] = [
    890, 35, 50, 34, 51, 52, 36, 53, 86, 70, 71, 87, 119, 72, 120, 393, 378, 394, 138, 1659, 1675,
    1739, 891, 651, 379, 395, 3244, 3260, 3276, 3292, 1676, 1692, 1708, 1724, 3372, 3388, 3404,
    3420, 3436, 3452, 1740, 1756, 3500, 3516, 1356, 1372, 1388, 1404, 1612, 1628, 1324, 1340, 588,
    892, 908, 636, 652, 1420, 1436, 700, 716, 1452, 1644, 1660,
];

/// The black make-up codes, of runs of 64, 128 and so on to 2560.
static BLACK_PARTS: [u16; 40] = [
    250, 3212, 3228, 1468, 828, 844, 860, 1741, 1757, 1197, 1213, 1229, 1245, 1837, 1853, 1869,
    1885, 1901, 1917, 1325, 1341, 1357, 1373, 1453, 1469, 1613, 1629, 139, 203, 219, 300, 316, 332,
    348, 364, 380, 460, 476, 492, 508,
];

/// The code of the vertical mode of these two places.
#[inline(always)]
pub fn vertical_entry(a1: u32, b1: u32) -> u16
    requires right { a1 ≤ b1 + 3 }
    requires left { b1 ≤ a1 + 3 }
    ensures value { word_of_entry result ≡ mode_word
        (if nat_le b1 a1 then vertical_right (a1 - b1) else vertical_left (b1 - a1)) }
    ensures small { result / 16 < 2 ^ (result % 16) }
{
    if b1 <= a1 {
        RIGHT[(a1 - b1) as usize]
    } else {
        LEFT[(b1 - a1) as usize]
    }
}

/// The terminating code of a run that is shorter than 64.
#[inline(always)]
fn end_entry(black: bool, run: u32) -> u16
    requires { run < 64 }
    ensures value { word_of_entry result ≡ run_word black run }
    ensures small { result / 16 < 2 ^ (result % 16) }
{
    if black {
        BLACK_ENDS[run as usize]
    } else {
        WHITE_ENDS[run as usize]
    }
}

/// The make-up code of a run of this many times 64.
#[inline(always)]
fn part_entry(black: bool, times: u32) -> u16
    requires some { 1 ≤ times }
    requires few { times ≤ 40 }
    ensures value { word_of_entry result ≡ run_word black (times * 64) }
    ensures small { result / 16 < 2 ^ (result % 16) }
{
    if black {
        BLACK_PARTS[(times - 1) as usize]
    } else {
        WHITE_PARTS[(times - 1) as usize]
    }
}

/// Adds the codes of a run.
///
/// Fails if memory is refused. Then bits are lost.
pub fn push_run<A: Allocator>(
    writer: &mut BitWriter<A>,
    black: bool,
    run: u32,
) -> Result<(), AllocError>
    ensures { OnOk result (writer.new ≡ writer.old ++ run_bits black run) }
{
    for _ in 0..run / 2560 {
        writer.push_entry(part_entry(black, 40))?;
    }
    let left = run % 2560;
    if left < 64 {
        return writer.push_entry(end_entry(black, left));
    }
    writer.push_entry(part_entry(black, left / 64))?;
    writer.push_entry(end_entry(black, left % 64))
}
