//! The widths of the symbols of a height class (T.88, 6.5.5, step 4 c).
ghost use Rattle.std.specs.Prelude.{◌≡◌, ◌+◌, ◌*◌, ◌≤◌, pos, ◌+ℤ◌, length, IfOk, sum};
ghost use Rattle.jbig2_base.specs.Results.{Returns, Gives};
ghost use Rattle.jbig2_base.specs.Causes.{HasCause};
ghost use Rattle.jbig2_steps.specs.Work.{PaidBut};
ghost use Rattle.jbig2_coder.specs.Integers.{number_steps};
ghost use Rattle.jbig2_symbol.specs.ClassCauses.{BreaksNextWidth, SymbolsHaveCauses};
ghost use Rattle.jbig2_symbol.specs.HeightClasses.{next_width, size_in_word, width_by, widths_from};
ghost use Rattle.jbig2_symbol.specs.inner.SymbolViews.{input_view};
ghost use Rattle.jbig2_symbol.specs.inner.FunctionResults.{IsNextWidth, with_total};

use crate::input::SymbolInput;
use crate::readings::ReadSymbols;
use jbig2_base::error::{OverflowError, Result, SymbolError};
use jbig2_steps::Work;
use std::alloc::Allocator;
use std::sync::ledger::Ledger;

/// The widths of a class's symbols.
#[derive(Drop)]
pub struct ClassWidths<A: Allocator> {
    pub each: Vec<u32, A>,
    /// The sum of the widths.
    pub total: u32,
    ghost summed: { total ≡ sum each.items },
}

/// The sum of a size and a difference.
pub fn next_size(size: u32, difference: i32) -> Result<u32>
    ensures { Returns (λ s. s) result (size_in_word (pos size +ℤ difference)) }
{
    let moved = i64::from(size) + i64::from(difference);
    if moved < 0 || moved > 0xFFFF_FFFF {
        return Err(OverflowError::BitmapDimension.into());
    }
    Ok(moved as u32)
}

/// The sum of two sizes.
fn size_sum(size: u32, other: u32) -> Result<u32>
    ensures value { Returns (λ s. s) result (size_in_word (pos size +ℤ pos other)) }
    ensures exact { IfOk result (λ s. s ≡ size + other) }
{
    match size.checked_add(other) {
        Some(sum) => Ok(sum),
        None => Err(OverflowError::BitmapDimension.into()),
    }
}

/// The state of reading the widths of a height class.
#[derive(Drop)]
pub struct RunningWidths {
    /// How many more symbols may come.
    left: u32,
    /// The last width (SYMWIDTH).
    width: u32,
    /// The sum of all widths so far (TOTWIDTH).
    total: u32,
}

impl RunningWidths {
    /// Begins a class of at most `room` symbols.
    pub fn new(room: u32) -> Self
        ensures { (result.left ≡ room) × (result.width ≡ 0) × (result.total ≡ 0) }
    {
        RunningWidths {
            left: room,
            width: 0,
            total: 0,
        }
    }

    /// Adds a difference to the last width, and returns the next one. `None` ends the class.
    fn move_by(&mut self, difference: Option<i32>) -> Result<Option<u32>>
        ensures value { let before = self.old in
            let meant = width_by before.left before.width before.total difference in
            Returns (λ next. with_total self.new.total next) result meant }
        ensures next_width { IfOk result (λ next. IsNextWidth self.old next self.new) }
    {
        let Some(difference) = difference else {
            return Ok(None);
        };
        if self.left == 0 {
            return Err(SymbolError::TooManySymbols.into());
        }
        let width = next_size(self.width, difference)?;
        self.total = size_sum(self.total, width)?;
        self.width = width;
        self.left -= 1;
        Ok(Some(width))
    }

    /// Reads the next width of the class; `None` ends it.
    #[tactic(auto, unfolding(crate::specs::HeightClasses::next_width))]
    pub fn read_next<R: ReadSymbols<A>, A: Allocator + Clone, L: Ledger>(
        &mut self,
        input: &SymbolInput<'_, A>,
        readings: &mut R,
        work: &mut Work<L>,
    ) -> Result<Option<u32>>
        ensures value { let d = input_view input.now in
            let before = self.old in
            let state = R.state readings.old in
            let meant = next_width R.readings d before.left before.width before.total state in
            let total = self.new.total in
            Returns (λ next. (with_total total next, R.state readings.new)) result meant }
        ensures causes { let d = input_view input.now in
            let before = self.old in
            let state = R.state readings.old in
            let breaks = BreaksNextWidth R.causes R.readings d in
            SymbolsHaveCauses R.readings R.causes
            → HasCause result (breaks before.left before.width before.total state) }
        ensures next_width { IfOk result (λ next. IsNextWidth self.old next self.new) }
        ensures paid { PaidBut (number_steps 1) work.old work.new }
    {
        let difference = readings.width_difference(input, work)?;
        self.move_by(difference)
    }
}

/// Reads the widths of a class up to out of band. At most `room` of them may come.
pub fn read_widths<R: ReadSymbols<A>, A: Allocator + Clone, L: Ledger>(
    alloc: A,
    input: &SymbolInput<'_, A>,
    room: u32,
    readings: &mut R,
    work: &mut Work<L>,
) -> Result<ClassWidths<A>>
    ensures value { let d = input_view input.now in
        let meant = widths_from R.readings d room 0 0 (R.state readings.old) in
        Gives (λ widths. (widths.each.items, R.state readings.new)) result meant }
    ensures few { IfOk result (λ widths. length widths.each.items ≤ room) }
    ensures paid { PaidBut (number_steps (room + 1)) work.old work.new }
    ensures exact { IfOk result
        (λ widths. PaidBut (number_steps (length widths.each.items + 1)) work.old work.new) }
{
    let mut each = Vec::new(alloc);
    let mut widths = RunningWidths::new(room);
    loop {
        let width = match widths.read_next(input, readings, work) {
            Ok(Some(width)) => width,
            Ok(None) => {
                return Ok(ClassWidths {
                    each,
                    total: widths.total,
                })
            }
            Err(error) => return Err(error),
        };
        each.push(width)?;
    }
}
