//! Reads the numbers of a text region, in either coding (T.88, 6.4.6 to 6.4.11).
ghost use Rattle.std.specs.Prelude.{◌≡◌, ◌*◌, ◌≤◌, false};
ghost use Rattle.jbig2_base.specs.Results.{Returns};
ghost use Rattle.jbig2_base.specs.Grid.{blank, max_side};
ghost use Rattle.jbig2_region.specs.inner.ReferenceViews.{reference_view};
ghost use Rattle.jbig2_steps.specs.Work.{PaidBeside, PaidBut, paid_words, price_of_bitmap};
ghost use Rattle.jbig2_coder.specs.Integers.{number_steps};
ghost use Rattle.jbig2_text.specs.Text.{Readings};

use crate::refining::Refining;
use jbig2_base::bitmap::Bitmap;
use jbig2_base::error::Result;
use jbig2_region::reference_bitmap::ReferenceBitmap;
use jbig2_steps::Work;
use std::alloc::Allocator;
use std::sync::ledger::Ledger;

/// Reads the numbers of a text region, one after the other. The caller has already taken the work of
/// a number, or of the bitmap that is refined.
pub trait ReadInstances {
    ghost State: { Type 0 };

    ghost state: { Self → State };

    ghost readings: { Readings State };

    /// Reads a difference of T, in strips.
    fn delta_t<L: Ledger>(&mut self, work: &mut Work<L>) -> Result<i32>
        ensures value { Returns (λ n. (n, state self.new)) result
            (readings.delta_t (state self.old)) }
        ensures paid { PaidBut (number_steps 1) work.old work.new };

    /// Reads the difference of S between the first instances of two strips.
    fn first_s<L: Ledger>(&mut self, work: &mut Work<L>) -> Result<i32>
        ensures value { Returns (λ n. (n, state self.new)) result
            (readings.first_s (state self.old)) }
        ensures paid { PaidBut (number_steps 1) work.old work.new };

    /// Reads a difference of S in a strip, or `None` at its end.
    fn delta_s<L: Ledger>(&mut self, work: &mut Work<L>) -> Result<Option<i32>>
        ensures value { result ≡ readings.delta_s (state self.old) }
        ensures state { state self.new ≡ readings.after_delta_s (state self.old) }
        ensures paid { PaidBut (number_steps 1) work.old work.new };

    /// Reads T in a strip of 2 to the power of `log` rows.
    fn t_bits<L: Ledger>(&mut self, log: u8, work: &mut Work<L>) -> Result<i32>
        requires { log ≤ 3 }
        ensures value { let meant = readings.t_bits log (state self.old) in
            Returns (λ n. (n, state self.new)) result meant }
        ensures paid { PaidBut (number_steps 1) work.old work.new };

    /// Reads the id of a symbol.
    fn id<L: Ledger>(&mut self, work: &mut Work<L>) -> Result<i64>
        ensures value { Returns (λ n. (n, state self.new)) result (readings.id (state self.old)) }
        ensures paid { PaidBut (number_steps 1) work.old work.new };

    /// Reads whether the symbol is refined.
    fn is_refined<L: Ledger>(&mut self, work: &mut Work<L>) -> Result<bool>
        ensures value { let meant = readings.is_refined (state self.old) in
            Returns (λ b. (b, state self.new)) result meant }
        ensures paid { PaidBut (number_steps 1) work.old work.new };

    /// Reads how much wider a refined symbol is.
    fn width_delta<L: Ledger>(&mut self, work: &mut Work<L>) -> Result<i32>
        ensures value { let meant = readings.width_delta (state self.old) in
            Returns (λ n. (n, state self.new)) result meant }
        ensures paid { PaidBut (number_steps 1) work.old work.new };

    /// Reads how much higher a refined symbol is.
    fn height_delta<L: Ledger>(&mut self, work: &mut Work<L>) -> Result<i32>
        ensures value { let meant = readings.height_delta (state self.old) in
            Returns (λ n. (n, state self.new)) result meant }
        ensures paid { PaidBut (number_steps 1) work.old work.new };

    /// Reads how far a refined symbol is moved to the right.
    fn x_delta<L: Ledger>(&mut self, work: &mut Work<L>) -> Result<i32>
        ensures value { Returns (λ n. (n, state self.new)) result
            (readings.x_delta (state self.old)) }
        ensures paid { PaidBut (number_steps 1) work.old work.new };

    /// Reads how far a refined symbol is moved down.
    fn y_delta<L: Ledger>(&mut self, work: &mut Work<L>) -> Result<i32>
        ensures value { Returns (λ n. (n, state self.new)) result
            (readings.y_delta (state self.old)) }
        ensures paid { PaidBut (number_steps 1) work.old work.new };

    /// Refines `reference` into a white bitmap. The contexts go on from their state.
    fn refine<A: Allocator, L: Ledger>(
        &mut self,
        reference: &ReferenceBitmap<'_, A>,
        refining: &mut Refining<A>,
        bitmap: &mut Bitmap<A>,
        work: &mut Work<L>,
    ) -> Result<()>
        requires columns { bitmap.old.width ≤ max_side }
        requires rows { bitmap.old.height ≤ max_side }
        requires white { bitmap.old ≡ blank bitmap.old.width bitmap.old.height false }
        ensures value { let width = bitmap.old.width in
            let height = bitmap.old.height in
            let from = reference_view reference.now in
            let meant = readings.refined from width height refining.old (state self.old) in
            Returns (λ _. (bitmap.new, refining.new, state self.new)) result meant }
        ensures paid { PaidBeside (paid_words bitmap.old.width bitmap.old.height)
            (32 * price_of_bitmap bitmap.old.width bitmap.old.height) work.old work.new };

    /// Whether what was read so far lies within the data.
    fn is_within_data(&self) -> bool
        ensures { result ≡ readings.is_within (state self.now) };
}
