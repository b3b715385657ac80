//! `WorkLimit`: how many units of work the calls that take it may spend together.
ghost use Rattle.std.specs.Prelude.{◌≡◌};
ghost use Rattle.jbig2_base.specs.Counts.{no_steps};
ghost use Rattle.hayro_jbig2.specs.WorkLimit.{after_call, units_left, units_of, limit_of};

use crate::step_count::StepCount;
use jbig2_permit::Permit;
use jbig2_steps::Work;
use std::marker::Model;
use std::sync::ledger::{Blank, Ledger};

/// How many units of work some calls may take together. Each call takes what it needs. Where more are needed than are
/// left, the call returns `DecodeError::OutOfMemory` before it does that work.
#[derive(Drop)]
pub struct WorkLimit {
    units: Option<u64>,
    left: u64,
    counted: StepCount,
}

impl Model for WorkLimit {
    ghost use Rattle.hayro_jbig2.specs.WorkLimit.{Limit};

    ghost Value = { Limit };

    ghost view = { λ limit. record {
      units = limit.units;
      left = limit.left;
      steps = limit.counted;
    } };
}

/// A counter that may take as many units as `limit` has, or 2^64 - 1 units if it is `None`.
pub(crate) fn work_within<L: Ledger>(limit: Option<u64>, blank: Blank) -> Work<L>
    requires name { blank.name ≡ L.name }
    requires parts { blank.parts ≡ L.parts }
    requires enough { blank.parts ≡ 7 }
    ensures steps { result.steps ≡ no_steps }
    ensures left { result.left ≡ units_of limit }
{
    Work::within(Permit::grant(), blank, limit.unwrap_or(u64::MAX))
}

impl WorkLimit {
    /// A limit of this many units; `None` means no limit.
    pub fn new(units: Option<u64>) -> WorkLimit
        ensures { result ≡ limit_of units }
    {
        WorkLimit {
            units,
            left: units.unwrap_or(u64::MAX),
            counted: StepCount::nothing(),
        }
    }

    /// How many units are left; `None` means that there is no limit. It is 0 after a call that was refused because
    /// work ran out. So a caller can see whether work or memory ran out.
    pub fn left(&self) -> Option<u64>
        ensures { result ≡ units_left self.now }
    {
        self.units.map(|_| self.left)
    }

    /// A counter that may take the units that are left.
    pub(crate) fn counter<L: Ledger>(&self, blank: Blank) -> Work<L>
        requires name { blank.name ≡ L.name }
        requires parts { blank.parts ≡ L.parts }
        requires enough { blank.parts ≡ 7 }
        ensures steps { result.steps ≡ no_steps }
        ensures left { result.left ≡ self.now.left }
    {
        work_within(Some(self.left), blank)
    }

    /// Records what a counter of `counter` has left, and what it has counted.
    pub(crate) fn end<L: Ledger>(&mut self, work: &Work<L>)
        ensures { self.new ≡ after_call work.now self.old }
    {
        self.left = work.left;
        self.counted.add(&work.steps);
    }
}
