//! Counts of what the kernels do, without a byte at run time. A counter needs a permit, which kernels can't make.
//! `Work` is a counter together with the units of work that are left.
#![tactic(auto)]

pub mod prices;
pub mod work;

pub use crate::work::Work;
use jbig2_permit::Permit;
use std::marker::Model;
use std::sync::ledger::{Blank, Book, Ledger, Share};

/// The counts so far. Each field of the value is one count, and only the calls below add to it. The
/// counts belong to the ledger `L` and exist only for the proofs.
#[derive(Drop)]
pub struct Steps<L: Ledger> {
    book: Book<L>,
    loads: Share<L>,
    words: Share<L>,
    decisions: Share<L>,
    run_tests: Share<L>,
    groups: Share<L>,
    pixels: Share<L>,
    cleared: Share<L>,
}

impl<L: Ledger> Model for Steps<L> {
    ghost use Rattle.std.specs.Prelude.{◌<◌};
    ghost use Rattle.jbig2_steps.specs.Counts.{Counts};

    ghost Value = { Counts };

    ghost view = { λ s. record {
      loads = s.loads.amount;
      words = s.words.amount;
      decisions = s.decisions.amount;
      run_tests = s.run_tests.amount;
      groups = s.groups.amount;
      pixels = s.pixels.amount;
      cleared = s.cleared.amount;
    } };

    ghost invariant = { λ s. (0 < s.loads.parts) × (0 < s.words.parts) × (0 < s.decisions.parts)
        × (0 < s.run_tests.parts) × (0 < s.groups.parts) × (0 < s.pixels.parts)
        × (0 < s.cleared.parts) };
}

impl<L: Ledger> Steps<L> {
    ghost use Rattle.std.specs.Prelude.{◌≡◌, ◌+◌};
    ghost use Rattle.jbig2_steps.specs.Counts.{Counts, no_steps, words_copied, words_cleared};

    /// A counter with all counts at 0, for the ledger that `blank` opens.
    pub fn new(_permit: Permit, blank: Blank) -> Steps<L>
        requires name { blank.name ≡ L.name }
        requires parts { blank.parts ≡ L.parts }
        requires enough { blank.parts ≡ 7 }
        ensures { result ≡ no_steps }
    {
        let (book, mut loads) = blank.open::<L>();
        let words = loads.split_off(1, 0);
        let decisions = loads.split_off(1, 0);
        let run_tests = loads.split_off(1, 0);
        let groups = loads.split_off(1, 0);
        let pixels = loads.split_off(1, 0);
        let cleared = loads.split_off(1, 0);
        Steps {
            book,
            loads,
            words,
            decisions,
            run_tests,
            groups,
            pixels,
            cleared,
        }
    }

    /// Counts one load of up to 64 neighbouring pixels of a row.
    pub fn load(&mut self)
        ensures { self.new ≡ record self.old { loads = self.old.loads + 1 } }
    {
        self.book.add(&mut self.loads, 1);
    }

    /// Counts one written word.
    pub fn word(&mut self)
        ensures { self.new ≡ record self.old { words = self.old.words + 1 } }
    {
        self.book.add(&mut self.words, 1);
    }

    /// Counts this many words as loaded and written.
    pub fn copy(&mut self, words: u64)
        ensures { self.new ≡ words_copied words self.old }
    {
        self.book.add(&mut self.loads, words);
        self.book.add(&mut self.words, words);
    }

    /// Counts one decision of the arithmetic coder.
    pub fn decision(&mut self)
        ensures { self.new ≡ record self.old { decisions = self.old.decisions + 1 } }
    {
        self.book.add(&mut self.decisions, 1);
    }

    /// Counts one test for a run of likely symbols.
    pub fn run_test(&mut self)
        ensures { self.new ≡ record self.old { run_tests = self.old.run_tests + 1 } }
    {
        self.book.add(&mut self.run_tests, 1);
    }

    /// Counts one group of eight lanes.
    pub fn group(&mut self)
        ensures { self.new ≡ record self.old { groups = self.old.groups + 1 } }
    {
        self.book.add(&mut self.groups, 1);
    }

    /// Counts one pixel outside the lanes.
    pub fn pixel(&mut self)
        ensures { self.new ≡ record self.old { pixels = self.old.pixels + 1 } }
    {
        self.book.add(&mut self.pixels, 1);
    }
    /// Counts this many words that a new or a changed bitmap begins with.
    pub fn clear(&mut self, words: u64)
        ensures { self.new ≡ words_cleared words self.old }
    {
        self.book.add(&mut self.cleared, words);
    }
}
