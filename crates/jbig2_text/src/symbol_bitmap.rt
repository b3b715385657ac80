//! A white bitmap for a symbol that is decoded: of a text region's instance, or of a symbol dictionary.
ghost use Rattle.std.specs.Prelude.{◌≡◌, ◌+◌, ◌*◌, ◌≤◌, ◌⊎◌, false, IfErr, IfOk};
ghost use Rattle.jbig2_base.specs.Results.{Gives};
ghost use Rattle.jbig2_base.specs.Grid.{blank, blank_or_overflow, max_side};
ghost use Rattle.jbig2_base.specs.declared.error.DecodeError.TheVariants.{OutOfMemory};
ghost use Rattle.jbig2_steps.specs.Work.{Paid, paid_words, price_of_bitmap, budget};

use jbig2_base::bitmap::{Bitmap, check_sides};
use jbig2_base::error::Result;
use jbig2_steps::Work;
use std::alloc::Allocator;
use std::sync::ledger::Ledger;

/// A white bitmap for a symbol. The size is checked first, so that a refused size takes no work. The price is
/// taken before the words of the bitmap are counted.
pub fn new_symbol<A: Allocator, L: Ledger>(
    alloc: A,
    width: u32,
    height: u32,
    work: &mut Work<L>,
) -> Result<Bitmap<A>>
    ensures value { Gives (λ b. b) result (blank_or_overflow width height false) }
    ensures width { IfOk result (λ b. b.width ≡ width) }
    ensures height { IfOk result (λ b. b.height ≡ height) }
    ensures columns { IfOk result (λ b. b.width ≤ max_side) }
    ensures rows { IfOk result (λ b. b.height ≤ max_side) }
    ensures white { IfOk result (λ b. b ≡ blank b.width b.height false) }
    ensures paid { Paid work.old work.new }
    ensures taken { IfOk result (λ b. budget work.new + 32 * price_of_bitmap b.width b.height
        ≤ budget work.old + paid_words b.width b.height) }
    ensures untaken { IfErr result (λ e. (e ≡ OutOfMemory) ⊎ (budget work.new ≡ budget work.old)) }
{
    check_sides(width, height)?;
    work.pay_bitmap(width, height)?;
    Bitmap::new(alloc, width, height, &mut work.steps)
}
