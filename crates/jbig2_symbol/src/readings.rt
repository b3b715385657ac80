//! Reads the symbols of a dictionary, in either coding (T.88, 6.5.5 to 6.5.10).
ghost use Rattle.std.specs.Prelude.{◌+◌, ◌*◌, ◌≤◌, length, OnOk};
ghost use Rattle.jbig2_base.specs.Results.{Returns, Gives};
ghost use Rattle.jbig2_steps.specs.Work.{PaidBut};
ghost use Rattle.jbig2_coder.specs.Integers.{number_steps};
ghost use Rattle.jbig2_symbol.specs.ClassCauses.{ClassCauses, SymbolCauses};
ghost use Rattle.jbig2_symbol.specs.SymbolReading.{ClassReadings, SymbolReadings};
ghost use Rattle.jbig2_symbol.specs.inner.ClassWork.{HasRoomForSymbols, PaidButClass, PaysClass};
ghost use Rattle.jbig2_symbol.specs.inner.SymbolViews.{input_view};
ghost use Rattle.jbig2_symbol.specs.inner.FunctionResults.{concat};

use crate::input::SymbolInput;
use jbig2_base::bitmap::Bitmap;
use jbig2_base::error::Result;
use jbig2_steps::Work;
use std::alloc::Allocator;
use std::sync::ledger::Ledger;

/// The size of a symbol.
#[derive(Clone, Copy, Debug)]
pub struct SymbolSize {
    pub width: u32,
    pub height: u32,
}

/// A height class that is read next.
#[derive(Clone, Copy, Debug)]
pub struct HeightClass {
    pub height: u32,
    /// How many classes without a symbol came before it.
    pub empty: u32,
}

/// Reads the symbols of a height class one by one. The caller has already paid for five numbers for
/// each symbol.
pub trait ReadSymbols<A: Allocator + Clone> {
    ghost State: { Type 0 };

    ghost state: { Self → State };

    ghost readings: { SymbolReadings State };

    ghost causes: { SymbolCauses State };

    /// Reads a symbol's difference in width. Out of band ends a height class (T.88, 6.5.7).
    fn width_difference<L: Ledger>(
        &mut self,
        input: &SymbolInput<'_, A>,
        work: &mut Work<L>,
    ) -> Result<Option<i32>>
        ensures value { let d = input_view input.now in
            let meant = readings.width_difference d (state self.old) in
            Returns (λ value. (value, state self.new)) result meant }
        ensures paid { PaidBut (number_steps 1) work.old work.new };

    /// Reads the bitmap of a symbol, after these new symbols (T.88, 6.5.8). It takes the allocator
    /// of the contexts.
    fn symbol_bitmap<L: Ledger>(
        &mut self,
        input: &SymbolInput<'_, A>,
        new: &[Bitmap<A>],
        size: SymbolSize,
        work: &mut Work<L>,
    ) -> Result<Bitmap<A>>
        ensures value { let d = input_view input.now in
            let before = state self.old in
            let meant = readings.symbol_bitmap d new.now size.width size.height before in
            Gives (λ symbol. (symbol, state self.new)) result meant }
        ensures paid { PaidBut (number_steps 4) work.old work.new };
}

/// Reads a dictionary, one height class after the other, and what it exports. The caller has
/// already taken the work of five numbers for each symbol, and of one more number for each call.
pub trait ReadClasses<A: Allocator + Clone> {
    ghost State: { Type 0 };

    ghost state: { Self → State };

    ghost readings: { ClassReadings State };

    ghost causes: { ClassCauses State };

    /// Reads a height class's difference in height, or out of band (T.88, 6.5.6).
    fn height_difference<L: Ledger>(
        &mut self,
        input: &SymbolInput<'_, A>,
        work: &mut Work<L>,
    ) -> Result<Option<i32>>
        ensures value { let d = input_view input.now in
            let meant = readings.height_difference d (state self.old) in
            Returns (λ value. (value, state self.new)) result meant }
        ensures paid { PaidBut (number_steps 1) work.old work.new };

    /// Reads a class, and adds its symbols to `bitmaps` (T.88, 6.5.5, step 4).
    fn class_of_height<L: Ledger>(
        &mut self,
        input: &SymbolInput<'_, A>,
        class: HeightClass,
        bitmaps: &mut Vec<Bitmap<A>, A>,
        work: &mut Work<L>,
    ) -> Result<()>
        requires room { HasRoomForSymbols input.now bitmaps.old.items }
        ensures value { let d = input_view input.now in
            let before = bitmaps.old.items in
            let s = state self.old in
            let read = readings.class_of_height d class.height class.empty before s in
            Gives (λ _. (bitmaps.new.items, state self.new)) result (concat before read) }
        ensures paid { PaidButClass input.now bitmaps.old.items 1 work.old work.new }
        ensures exact { let before = bitmaps.old.items in
            OnOk result (PaysClass input.now before bitmaps.new.items 1 work.old work.new) };

    /// Reads a run of symbols, all exported or all not, or out of band (T.88, 6.5.10).
    fn export_run<L: Ledger>(
        &mut self,
        input: &SymbolInput<'_, A>,
        work: &mut Work<L>,
    ) -> Result<Option<i32>>
        ensures value { let meant = readings.export_run (input_view input.now) (state self.old) in
            Returns (λ value. (value, state self.new)) result meant }
        ensures paid { PaidBut (number_steps 1) work.old work.new };
}
