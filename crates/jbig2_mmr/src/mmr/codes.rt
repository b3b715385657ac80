//! The codes of T.6.
//!
//! The next bits are the index into a table of runs. An entry is 16 times the run of the code at their
//! front, plus the size of that code in bits. It is 0 if there is no code at their front.
ghost use Rattle.std.specs.Prelude.{◌≡◌, ◌^◌, ◌<◌, []};
ghost use Rattle.jbig2_mmr.specs.T6.{runs_of};
ghost use Rattle.jbig2_mmr.specs.inner.T6Reading.{entry_of, code_at, spell};

mod black;
pub mod modes;
mod white;

use crate::mmr::codes::black::black_entry;
use crate::mmr::codes::white::white_entry;

/// A coding mode (T.6, 2.2.2).
#[derive(Clone, Copy)]
pub enum Mode {
    /// a0 moves to the place below b2.
    Pass,
    /// Two runs.
    Horizontal,
    /// a1 lies this many pixels right of b1, -3 to 3.
    Vertical(i32),
}

/// The entry of the run code that begins these 24 bits.
#[inline(always)]
pub fn run_entry(black: bool, bits: u32) -> u16
    requires { bits < 2 ^ 24 }
    ensures { result ≡ entry_of (code_at (runs_of black) (spell 24 bits [])) }
{
    if black {
        black_entry(bits)
    } else {
        white_entry(bits)
    }
}
