//! The symbols that a dictionary exports (T.88, 6.5.10).
ghost use Rattle.std.specs.Prelude.{◌≡◌, ◌+◌, ◌*◌, ◌^◌, ◌<◌, ◌≤◌, ◌++◌, IfOk, length, sum, take, drop, slice_index_or, false, Ok};
ghost use Rattle.jbig2_base.specs.Results.{Returns, Gives};
ghost use Rattle.jbig2_base.specs.Grid.{blank};
ghost use Rattle.jbig2_base.specs.Causes.{HasCauseOrNoMemory};
ghost use Rattle.jbig2_steps.specs.Work.{Paid, PaidBut};
ghost use Rattle.jbig2_coder.specs.Integers.{number_steps};
ghost use Rattle.jbig2_symbol.specs.SymbolHeader.{max_new_symbols};
ghost use Rattle.jbig2_symbol.specs.ClassCauses.{BreaksExports, ClassesHaveCauses};
ghost use Rattle.jbig2_symbol.specs.Symbols.{export_runs, exported_grids, exports, next_run};
ghost use Rattle.jbig2_symbol.specs.inner.JoinedRuns.{joined_runs};
ghost use Rattle.jbig2_symbol.specs.inner.SymbolViews.{all_symbols, input_view};
ghost use Rattle.jbig2_symbol.specs.HeightClasses.{max_empty};

use crate::input::SymbolInput;
use crate::readings::ReadClasses;
use jbig2_base::bitmap::Bitmap;
use jbig2_base::error::{HuffmanError, Result, SymbolError};
use jbig2_steps::{Work, prices};
use std::alloc::Allocator;
use std::sync::ledger::Ledger;

/// The most runs of length 0.
const MAX_EMPTY: u32 = 1 << 20;

/// Reads a run, where `left` symbols are not covered yet and `empty` runs of length 0 came before.
#[tactic(auto, unfolding(crate::specs::Symbols::next_run))]
fn read_run<R: ReadClasses<A>, A: Allocator + Clone, L: Ledger>(
    input: &SymbolInput<'_, A>,
    empty: u32,
    left: u64,
    readings: &mut R,
    work: &mut Work<L>,
) -> Result<u32>
    ensures value { let d = input_view input.now in
        let meant = next_run R.readings d empty left (R.state readings.old) in
        Returns (λ run. (run, R.state readings.new)) result meant }
    ensures within { IfOk result (λ run. run ≤ left) }
    ensures few { IfOk result (λ run. run ≡ 0 → empty < max_empty) }
    ensures paid { PaidBut (number_steps 1) work.old work.new }
{
    let Some(number) = readings.export_run(input, work)? else {
        return Err(HuffmanError::UnexpectedOob.into());
    };
    if number < 0 {
        return Err(HuffmanError::InvalidCode.into());
    }
    let run = number as u32;
    if run == 0 && empty >= MAX_EMPTY {
        return Err(SymbolError::Invalid.into());
    }
    if run as u64 > left {
        return Err(SymbolError::OutOfRange.into());
    }
    Ok(run)
}

/// Reads the runs, until they cover `count` symbols. The runs before and after an empty one are
/// joined, so there are hardly more than there are symbols.
pub fn read_runs<R: ReadClasses<A>, M: Allocator, A: Allocator + Clone, L: Ledger>(
    alloc: M,
    input: &SymbolInput<'_, A>,
    count: u64,
    readings: &mut R,
    work: &mut Work<L>,
) -> Result<Vec<u64, M>>
    requires { count ≤ 2 ^ 63 + max_new_symbols }
    ensures value { let d = input_view input.now in
        let meant = joined_runs (export_runs R.readings d count (R.state readings.old)) in
        Gives (λ runs. (runs.items, R.state readings.new)) result meant }
    ensures whole { IfOk result (λ runs. sum runs.items ≡ count) }
    ensures small { IfOk result (λ runs. length runs.items ≤ count + 1) }
    ensures paid { Paid work.old work.new }
{
    let mut runs = Vec::new(alloc);
    if count == 0 {
        return Ok(runs);
    }
    let mut last = 0;
    // Whether the run that is read next belongs to the last one: an empty run came between.
    let mut joins = true;
    let mut left = count;
    let mut empty = 0;
    // Each run covers a symbol or is one of those that may be empty, so there are no more runs.
    for _ in 0..count + u64::from(MAX_EMPTY) {
        if left == 0 {
            break;
        }
        work.pay(prices::EXPORT_RUN)?;
        let run = match read_run(input, empty, left, readings, work) {
            Ok(run) => run,
            Err(error) => return Err(error),
        };
        if joins {
            last += run as u64;
            joins = false;
        } else if run == 0 {
            joins = true;
        } else {
            runs.push(last)?;
            last = run as u64;
        }
        left -= run as u64;
        empty += u32::from(run == 0);
    }
    runs.push(last)?;
    Ok(runs)
}

/// A copy of a symbol.
fn duplicate<A: Allocator, S: Allocator, L: Ledger>(
    alloc: A,
    symbol: &Bitmap<S>,
    work: &mut Work<L>,
) -> Result<Bitmap<A>>
    ensures value { Gives (λ copy. copy) result (Ok symbol.now) }
    ensures paid { Paid work.old work.new }
{
    work.pay_bitmap(symbol.width(), symbol.height())?;
    symbol.duplicate(alloc, &mut work.steps)
}

/// A copy of a symbol, by its number: first the symbols that are referred to, then the new ones.
fn duplicate_symbol<A: Allocator, S: Allocator, L: Ledger>(
    alloc: A,
    symbols: &[&Bitmap<S>],
    new: &[Bitmap<A>],
    index: usize,
    work: &mut Work<L>,
) -> Result<Bitmap<A>>
    requires { index < length symbols.now + length new.now }
    ensures value { let all = all_symbols symbols.now new.now in
        let meant = Ok (slice_index_or all index (blank 0 0 false)) in
        Gives (λ symbol. symbol) result meant }
    ensures paid { Paid work.old work.new }
{
    if index < symbols.len() {
        return duplicate(alloc, symbols[index], work);
    }
    duplicate(alloc, &new[index - symbols.len()], work)
}

/// Adds copies of `count` symbols, from number `first` on, to those that are exported so far.
fn push_symbols<A: Allocator + Clone, S: Allocator, L: Ledger>(
    symbols: &[&Bitmap<S>],
    new: &[Bitmap<A>],
    first: usize,
    count: usize,
    exported: &mut Vec<Bitmap<A>, A>,
    work: &mut Work<L>,
) -> Result<()>
    requires { first + count ≤ length symbols.now + length new.now }
    ensures value { let all = all_symbols symbols.now new.now in
        let meant = Ok (exported.old.items ++ take count (drop first all)) in
        Gives (λ _. exported.new.items) result meant }
    ensures paid { Paid work.old work.new }
{
    for k in 0..count {
        let alloc = Vec::allocator(exported).clone()?;
        exported.push(duplicate_symbol(alloc, symbols, new, first + k, work)?)?;
    }
    Ok(())
}

/// The symbols that the runs export: of those that are referred to, and then the new ones.
pub fn export_symbols<A: Allocator + Clone, S: Allocator, L: Ledger>(
    alloc: A,
    runs: &[u64],
    symbols: &[&Bitmap<S>],
    new: &[Bitmap<A>],
    work: &mut Work<L>,
) -> Result<Vec<Bitmap<A>, A>>
    requires { sum runs.now ≡ length symbols.now + length new.now }
    ensures value { let meant = Ok (exported_grids runs.now (all_symbols symbols.now new.now)) in
        Gives (λ symbols. symbols.items) result meant }
    ensures paid { Paid work.old work.new }
{
    let mut exported = Vec::new(alloc);
    let mut first = 0;
    for (k, run) in runs.iter().enumerate() {
        let count = *run as usize;
        if k % 2 == 1 {
            match push_symbols(symbols, new, first, count, &mut exported, work) {
                Ok(()) => {}
                Err(error) => return Err(error),
            }
        }
        first += count;
    }
    Ok(exported)
}

/// Does the same, but moves the new symbols where exactly these are exported, instead of copying
/// them.
fn take_exports<A: Allocator + Clone, S: Allocator, L: Ledger>(
    alloc: A,
    runs: &[u64],
    symbols: &[&Bitmap<S>],
    new: Vec<Bitmap<A>, A>,
    work: &mut Work<L>,
) -> Result<Vec<Bitmap<A>, A>>
    requires { sum runs.now ≡ length symbols.now + length new.items }
    ensures value { let meant = Ok (exported_grids runs.now (all_symbols symbols.now new.items)) in
        Gives (λ symbols. symbols.items) result meant }
    ensures paid { Paid work.old work.new }
{
    if runs.len() == 2 && runs[0] as usize == symbols.len() {
        return Ok(new);
    }
    export_symbols(alloc, runs, symbols, &new, work)
}

/// Reads which symbols a dictionary exports, of those that it refers to and then the new ones. It
/// copies those that it can't move.
///
/// Returns the errors of `read_runs`; `SymbolError::NoSymbols` where their number is not the
/// header's; `OutOfMemory` where there is no memory for them.
pub fn read_exports<R: ReadClasses<A>, A: Allocator + Clone, L: Ledger>(
    alloc: A,
    input: &SymbolInput<'_, A>,
    new: Vec<Bitmap<A>, A>,
    readings: &mut R,
    work: &mut Work<L>,
) -> Result<Vec<Bitmap<A>, A>>
    ensures value { let d = input_view input.now in
        let all = all_symbols input.now.symbols.now new.items in
        let meant = exports R.readings d all (R.state readings.old) in
        Gives (λ symbols. (symbols.items, R.state readings.new)) result meant }
    ensures causes { let d = input_view input.now in
        let all = all_symbols input.now.symbols.now new.items in
        let s = R.state readings.old in
        ClassesHaveCauses R.readings R.causes
        → HasCauseOrNoMemory result (BreaksExports R.causes R.readings d all s) }
    ensures paid { Paid work.old work.new }
{
    let count = input.symbols.len() as u64 + new.len() as u64;
    let runs = read_runs(alloc.clone()?, input, count, readings, work)?;
    let exported = take_exports(alloc, &runs, input.symbols, new, work)?;
    if exported.len() != input.header.num_exported_symbols as usize {
        return Err(SymbolError::NoSymbols.into());
    }
    Ok(exported)
}
