//! Tests counts of steps, and units of work that are taken before the work is done.
ghost use Rattle.std.specs.Prelude.{◌≡◌};

use jbig2_permit::Permit;
use jbig2_steps::work::price_of_bitmap;
use jbig2_steps::{Steps, Work};
use std::marker::Brand;
use std::sync::ledger::{Blank, Ledger};

/// Takes a step of each kind. Steps are counted only in proofs.
fn each_step<L: Ledger>(blank: Blank)
    requires name { blank.name ≡ L.name }
    requires parts { blank.parts ≡ L.parts }
    requires enough { blank.parts ≡ 7 }
{
    let mut steps: Steps<L> = Steps::new(Permit::grant(), blank);
    steps.load();
    steps.word();
    steps.copy(2);
    steps.decision();
    steps.run_test();
    steps.group();
    steps.pixel();
    steps.clear(3);
}

/// The units that are left of this many, after payments that are accepted and after one that is refused.
fn units_left<L: Ledger>(blank: Blank, units: u64) -> [u64; 5]
    requires name { blank.name ≡ L.name }
    requires parts { blank.parts ≡ L.parts }
    requires enough { blank.parts ≡ 7 }
{
    let mut work: Work<L> = Work::within(Permit::grant(), blank, units);
    let mut left = [work.left; 5];
    if work.pay(300).is_ok() {
        left[1] = work.left;
    }
    if work.pay_bitmap(65, 3).is_ok() {
        left[2] = work.left;
    }
    if work.pay_bitmaps(2, 1, 0).is_ok() {
        left[3] = work.left;
    }
    if work.pay(125).is_err() {
        left[4] = work.left;
    }
    left
}

/// Whether no limit was set.
fn is_unlimited<L: Ledger>(blank: Blank) -> bool
    requires name { blank.name ≡ L.name }
    requires parts { blank.parts ≡ L.parts }
    requires enough { blank.parts ≡ 7 }
{
    let work: Work<L> = Work::new(Permit::grant(), blank);
    work.left == u64::MAX
}

#[test]
fn steps_are_counted(rt: HostRuntime) {
    each_step::<Brand>(Blank::new(7));
    assert!(rt; is_unlimited::<Brand>(Blank::new(7)));
}

/// Prices of `docs/FORMAT.md`, 12.6: a row of 65 columns costs two words of 64, a row of none or one column costs one
/// word, and each bitmap costs 64 units more.
#[test]
fn work_is_paid_for(rt: HostRuntime) {
    let prices = [
        price_of_bitmap(65, 3),
        price_of_bitmap(0, 5),
        price_of_bitmap(64, 0),
    ];
    assert!(rt; prices == [448, 384, 64]);
    let left = units_left::<Brand>(Blank::new(7), 1000);
    assert!(rt; left == [1000, 700, 252, 124, 0]);
}
