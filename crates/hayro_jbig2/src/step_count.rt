//! A number of steps that only clauses see. Its type names no ledger, so the contract of a call that makes its own
//! counter can say how many steps were counted.
ghost use Rattle.std.specs.Prelude.{◌≡◌, ◌+◌, ℕ};
ghost use Rattle.jbig2_steps.specs.Work.{sum_of_counts};
ghost use base.Fml.{ftrue};

use jbig2_steps::Steps;
use std::marker::{Model, PhantomData};
use std::snapshot::Snapshot;
use std::sync::ledger::Ledger;

/// What can be measured by a number.
trait Measure {
    ghost measure: { Self → ℕ };
}

impl Measure for () {
    ghost measure = { λ _. 0 };
}

impl<L: Ledger> Measure for Steps<L> {
    ghost measure = { λ steps. sum_of_counts steps };
}

/// A number of steps, and steps that are counted after it.
#[derive(Drop)]
struct Sum<'s, L: Ledger> {
    before: &'s StepCount,
    steps: &'s Steps<L>,
}

impl<'s, L: Ledger> Measure for Sum<'s, L> {
    ghost measure = { λ sum. sum.before.now + sum_of_counts sum.steps.now };
}

/// A number. Nothing else is in it.
struct Tally {
    marker: PhantomData<()>,
    ghost amount: { ℕ },
}

impl Model for Tally {
    ghost also_owns = { λ _. ftrue };
}

impl Tally {
    /// The measure of what `x` points to.
    fn of<T: Measure>(x: &T) -> Tally
        ensures { result.amount ≡ T.measure x.now }
    {
        let _ = x;
        Tally {
            marker: PhantomData,
        }
    }
}

impl Drop for Tally {
    fn drop(self) {
        let Tally { marker: _ } = self;
    }
}

/// How many steps were counted. Its value is that number.
#[derive(Drop)]
pub(crate) struct StepCount {
    tally: Snapshot<Tally>,
}

impl Model for StepCount {
    ghost Value = { ℕ };

    ghost view = { λ c. c.tally.value.amount };
}

impl StepCount {
    /// No step.
    pub(crate) fn nothing() -> StepCount
        ensures { result ≡ 0 }
    {
        StepCount {
            tally: Snapshot::of(&Tally::of(&())),
        }
    }

    /// What these steps add up to.
    pub(crate) fn of<L: Ledger>(steps: &Steps<L>) -> StepCount
        ensures { result ≡ sum_of_counts steps.now }
    {
        StepCount {
            tally: Snapshot::of(&Tally::of(steps)),
        }
    }

    /// Adds these steps.
    pub(crate) fn add<L: Ledger>(&mut self, steps: &Steps<L>)
        ensures { self.new ≡ self.old + sum_of_counts steps.now }
    {
        let sum = Sum {
            before: self,
            steps,
        };
        let tally = Snapshot::of(&Tally::of(&sum));
        *self = StepCount { tally };
    }
}
