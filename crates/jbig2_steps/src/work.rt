//! The units of work that are left, with the counts that they pay for.
ghost use Rattle.std.specs.Prelude.{◌≡◌, ◌+◌, ◌-◌, ◌*◌, ◌^◌, ◌≤◌, IfOk, OnErr};
ghost use Rattle.jbig2_steps.specs.Counts.{no_steps};
ghost use Rattle.jbig2_steps.specs.Work.{price_of_bitmap, budget};

use crate::{Steps, prices};
use jbig2_permit::Permit;
use std::alloc::AllocError;
use std::sync::ledger::{Blank, Ledger};

/// The counts so far, and how many units of work are left. Kernels get only the counts, so they take no unit. A
/// call without enough units is refused like a call without enough memory.
#[derive(Drop)]
pub struct Work<L: Ledger> {
    /// The counts so far.
    pub steps: Steps<L>,
    /// How many units are left: 0 after a refusal.
    pub left: u64,
}

/// The units for a bitmap of this size: its pixels, with each row rounded up to words of 64 columns, at least one,
/// and 64 more.
pub fn price_of_bitmap(width: u32, height: u32) -> u64
    ensures { result ≡ price_of_bitmap width height }
{
    let row = u64::from(width.div_ceil(64).max(1)) * prices::BITMAP_WORD;
    row * u64::from(height) + prices::BITMAP
}

impl<L: Ledger> Work<L> {
    /// All counts are 0, for the ledger that `blank` opens, and `u64::MAX` units are left.
    pub fn new(permit: Permit, blank: Blank) -> Work<L>
        requires name { blank.name ≡ L.name }
        requires parts { blank.parts ≡ L.parts }
        requires enough { blank.parts ≡ 7 }
        ensures steps { result.steps ≡ no_steps }
        ensures left { result.left ≡ 2 ^ 64 - 1 }
    {
        Work::within(permit, blank, u64::MAX)
    }

    /// All counts are 0, for the ledger that `blank` opens, and `units` of work are left.
    pub fn within(permit: Permit, blank: Blank, units: u64) -> Work<L>
        requires name { blank.name ≡ L.name }
        requires parts { blank.parts ≡ L.parts }
        requires enough { blank.parts ≡ 7 }
        ensures steps { result.steps ≡ no_steps }
        ensures left { result.left ≡ units }
        ensures budget { budget result ≡ 32 * units }
    {
        Work {
            steps: Steps::new(permit, blank),
            left: units,
        }
    }

    /// Leaves no unit, because a call asks for more than are left.
    fn refuse(&mut self) -> AllocError
        ensures steps { self.new.steps ≡ self.old.steps }
        ensures none_left { self.new.left ≡ 0 }
        ensures paid { budget self.new ≤ budget self.old }
    {
        self.left = 0;
        AllocError
    }

    /// Takes `units` of work before the work is done. If fewer are left, none is left from then on, and the call is
    /// refused as if memory had run out.
    pub fn pay(&mut self, units: u64) -> Result<(), AllocError>
        ensures steps { self.new.steps ≡ self.old.steps }
        ensures left { IfOk result (λ _. self.new.left + units ≡ self.old.left) }
        ensures none_left { OnErr result (self.new.left ≡ 0) }
        ensures paid { budget self.new ≤ budget self.old }
        ensures taken { IfOk result (λ _. budget self.new + 32 * units ≡ budget self.old) }
    {
        match self.left.checked_sub(units) {
            Some(left) => {
                self.left = left;
                Ok(())
            }
            None => Err(self.refuse()),
        }
    }

    /// Takes the units for a bitmap of this size, before the work on it.
    pub fn pay_bitmap(&mut self, width: u32, height: u32) -> Result<(), AllocError>
        ensures steps { self.new.steps ≡ self.old.steps }
        ensures none_left { OnErr result (self.new.left ≡ 0) }
        ensures paid { budget self.new ≤ budget self.old }
        ensures taken { IfOk result
            (λ _. budget self.new + 32 * price_of_bitmap width height ≡ budget self.old) }
        ensures least { IfOk result (λ _. budget self.new + 2048 ≤ budget self.old) }
    {
        self.pay(price_of_bitmap(width, height))
    }

    /// Takes the units for `count` bitmaps of this size, before the work on them.
    pub fn pay_bitmaps(&mut self, count: u64, width: u32, height: u32) -> Result<(), AllocError>
        ensures steps { self.new.steps ≡ self.old.steps }
        ensures none_left { OnErr result (self.new.left ≡ 0) }
        ensures paid { budget self.new ≤ budget self.old }
        ensures taken { IfOk result
            (λ _. budget self.new + 32 * (price_of_bitmap width height * count) ≡ budget self.old) }
    {
        match price_of_bitmap(width, height).checked_mul(count) {
            Some(units) => self.pay(units),
            None => Err(self.refuse()),
        }
    }
}
