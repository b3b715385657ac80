//! The height classes of a symbol dictionary (T.88, 6.5.5).
ghost use Rattle.std.specs.Prelude.{◌≡◌, ◌+◌, ◌*◌, ◌<◌, ◌≤◌, length, OnOk};
ghost use Rattle.jbig2_base.specs.Results.{Returns, Gives};
ghost use Rattle.jbig2_base.specs.Causes.{HasCause, HasCauseOrNoMemory};
ghost use Rattle.jbig2_steps.specs.Work.{PaidBut};
ghost use Rattle.jbig2_coder.specs.Integers.{number_steps};
ghost use Rattle.jbig2_symbol.specs.ClassCauses.{BreaksEmptyClass, BreaksHeightClass, ClassesHaveCauses};
ghost use Rattle.jbig2_symbol.specs.HeightClasses.{drawn_class, empty_class, height_class, new_symbols, symbols_from};
ghost use Rattle.jbig2_symbol.specs.inner.ClassWork.{HasRoomForSymbols, PaidButClass, PaysClass};
ghost use Rattle.jbig2_symbol.specs.inner.SymbolViews.{input_view};
ghost use Rattle.jbig2_symbol.specs.inner.FunctionResults.{class_after, concat, room_after};

use crate::input::SymbolInput;
use crate::readings::{HeightClass, ReadClasses, ReadSymbols, SymbolSize};
use crate::widths::{RunningWidths, next_size};
use jbig2_base::bitmap::Bitmap;
use jbig2_base::error::{Result, SymbolError};
use jbig2_steps::{Work, prices};
use std::alloc::Allocator;
use std::sync::ledger::Ledger;

/// The most height classes without a symbol.
const MAX_EMPTY: u32 = 1 << 20;

/// The new symbols of a dictionary so far.
#[derive(Drop)]
struct NewSymbols<A: Allocator> {
    bitmaps: Vec<Bitmap<A>, A>,
    /// The height of the last class.
    height: u32,
    /// How many classes had no symbol.
    empty: u32,
}

/// Refuses a class without a symbol, where too many such classes came before.
#[tactic(auto, using(crate::proofs::ClassCauses::empty_class_cause))]
pub fn check_class(symbols: usize, empty: u32) -> Result<()>
    ensures value { Returns (λ few. few) result (empty_class symbols empty) }
    ensures causes { HasCause result (BreaksEmptyClass symbols empty) }
{
    if symbols == 0 && empty >= MAX_EMPTY {
        return Err(SymbolError::Invalid.into());
    }
    Ok(())
}

/// Reads the symbols of a class, each with a bitmap of its own, and adds them to `bitmaps`.
fn read_symbols<R: ReadSymbols<A>, A: Allocator + Clone, L: Ledger>(
    input: &SymbolInput<'_, A>,
    height: u32,
    bitmaps: &mut Vec<Bitmap<A>, A>,
    readings: &mut R,
    work: &mut Work<L>,
) -> Result<()>
    requires room { HasRoomForSymbols input.now bitmaps.old.items }
    ensures value { let d = input_view input.now in
        let before = bitmaps.old.items in
        let state = R.state readings.old in
        let read = symbols_from R.readings d (room_after d before) height 0 0 before state in
        Gives (λ _. (bitmaps.new.items, R.state readings.new)) result (concat before read) }
    ensures paid { PaidButClass input.now bitmaps.old.items 1 work.old work.new }
    ensures exact { let before = bitmaps.old.items in
        OnOk result (PaysClass input.now before bitmaps.new.items 1 work.old work.new) }
{
    let room = input.header.num_new_symbols - bitmaps.len() as u32;
    let mut widths = RunningWidths::new(room);
    loop {
        let width = match widths.read_next(input, readings, work) {
            Ok(Some(width)) => width,
            Ok(None) => return Ok(()),
            Err(error) => return Err(error),
        };
        let size = SymbolSize { width, height };
        let symbol = match readings.symbol_bitmap(input, bitmaps, size, work) {
            Ok(symbol) => symbol,
            Err(error) => return Err(error),
        };
        bitmaps.push(symbol)?;
    }
}

/// Reads such a class, and adds its symbols to `bitmaps`.
#[tactic(auto, unfolding(crate::specs::HeightClasses::drawn_class))]
pub fn read_drawn_class<R: ReadSymbols<A>, A: Allocator + Clone, L: Ledger>(
    input: &SymbolInput<'_, A>,
    class: HeightClass,
    bitmaps: &mut Vec<Bitmap<A>, A>,
    readings: &mut R,
    work: &mut Work<L>,
) -> Result<()>
    requires room { HasRoomForSymbols input.now bitmaps.old.items }
    ensures value { let d = input_view input.now in
        let before = bitmaps.old.items in
        let state = R.state readings.old in
        let read = drawn_class R.readings d class.height class.empty before state in
        Gives (λ _. (bitmaps.new.items, R.state readings.new)) result (concat before read) }
    ensures paid { PaidButClass input.now bitmaps.old.items 1 work.old work.new }
    ensures exact { let before = bitmaps.old.items in
        OnOk result (PaysClass input.now before bitmaps.new.items 1 work.old work.new) }
{
    let before = bitmaps.len();
    read_symbols(input, class.height, bitmaps, readings, work)?;
    check_class(bitmaps.len() - before, class.empty)
}

/// Reads one more height class.
#[tactic(auto, unfolding(crate::specs::HeightClasses::height_class))]
fn read_height_class<R: ReadClasses<A>, A: Allocator + Clone, L: Ledger>(
    input: &SymbolInput<'_, A>,
    symbols: &mut NewSymbols<A>,
    readings: &mut R,
    work: &mut Work<L>,
) -> Result<()>
    requires room { HasRoomForSymbols input.now symbols.old.bitmaps.items }
    requires few { symbols.old.empty < 4294967295 }
    ensures value { let d = input_view input.now in
        let before = symbols.old in
        let new = before.bitmaps.items in
        let state = R.state readings.old in
        let class = height_class R.readings d before.height before.empty new state in
        let meant = class_after new before.empty class in
        let all = symbols.new in
        let left = R.state readings.new in
        Gives (λ _. (all.bitmaps.items, (all.height, (all.empty, left)))) result meant }
    ensures causes { let d = input_view input.now in
        let before = symbols.old in
        let new = before.bitmaps.items in
        let state = R.state readings.old in
        let breaks = BreaksHeightClass R.causes R.readings d in
        ClassesHaveCauses R.readings R.causes
        → HasCauseOrNoMemory result (breaks before.height before.empty new state) }
    ensures few { OnOk result (symbols.new.empty ≤ symbols.old.empty + 1) }
    ensures paid { PaidButClass input.now symbols.old.bitmaps.items 0 work.old work.new }
    ensures exact { let before = symbols.old.bitmaps.items in
        let after = symbols.new.bitmaps.items in
        OnOk result (PaysClass input.now before after 0 work.old work.new) }
{
    work.pay(prices::HEIGHT_CLASS)?;
    let Some(difference) = readings.height_difference(input, work)? else {
        return Err(SymbolError::UnexpectedOob.into());
    };
    let height = next_size(symbols.height, difference)?;
    let before = symbols.bitmaps.len();
    let empty = symbols.empty;
    let class = HeightClass { height, empty };
    match readings.class_of_height(input, class, &mut symbols.bitmaps, work) {
        Ok(()) => {}
        Err(error) => return Err(error),
    }
    symbols.height = height;
    symbols.empty += u32::from(symbols.bitmaps.len() == before);
    Ok(())
}

/// Reads the new symbols of a dictionary (T.88, 6.5.5).
pub fn read_new_symbols<R: ReadClasses<A>, A: Allocator + Clone, L: Ledger>(
    alloc: A,
    input: &SymbolInput<'_, A>,
    readings: &mut R,
    work: &mut Work<L>,
) -> Result<Vec<Bitmap<A>, A>>
    ensures value { let state = R.state readings.old in
        let meant = new_symbols R.readings (input_view input.now) state in
        Gives (λ symbols. (symbols.items, R.state readings.new)) result meant }
    ensures paid { let most = input.now.header.now.num_new_symbols in
        PaidBut (number_steps (5 * most)) work.old work.new }
{
    let mut symbols = NewSymbols {
        bitmaps: Vec::new(alloc),
        height: 0,
        empty: 0,
    };
    // Each class has a symbol or is one of those that may be empty, so there are no more classes.
    for _ in 0..input.header.num_new_symbols + MAX_EMPTY {
        if symbols.bitmaps.len() >= input.header.num_new_symbols as usize {
            break;
        }
        match read_height_class(input, &mut symbols, readings, work) {
            Ok(()) => {}
            Err(error) => return Err(error),
        }
    }
    Ok(symbols.bitmaps)
}
