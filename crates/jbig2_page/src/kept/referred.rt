//! Collects the symbols and tables that a symbol dictionary or a text region refers to (T.88, 7.3.1).
ghost use Rattle.std.specs.Prelude.{◌≡◌, ◌≤◌, ◌+◌, ◌*◌, ◌++◌, length, map, Ok, OnOk, IfErr, IfOk};
ghost use Rattle.jbig2_base.specs.Results.{Gives};
ghost use Rattle.jbig2_base.specs.Causes.{HasCauseOrNoMemory};
ghost use Rattle.jbig2_page.specs.Causes.{BreaksReferred};
ghost use Rattle.jbig2_page.specs.Names.{with_dictionary, with_table, with_number, with_numbers, referred_by};
ghost use Rattle.jbig2_page.specs.inner.KeptViews.{found_value, kept_symbols_view};
ghost use Rattle.jbig2_page.specs.inner.RegionPrices.{PaysForSymbols};
ghost use Rattle.jbig2_steps.specs.Work.{Paid};

use crate::kept::names::Lookup;
use jbig2_base::bitmap::Bitmap;
use jbig2_base::error::{DecodeError, OverflowError, Result, SegmentError};
use jbig2_coder::huffman_table::HuffmanTable;
use jbig2_steps::{Work, prices};
use jbig2_symbol::{RetainedContexts, SymbolDictionary};
use std::alloc::Allocator;
use std::marker::Model;
use std::sync::ledger::Ledger;

/// The most symbols that a segment may refer to.
const MAX_SYMBOLS: usize = 1 << 20;

/// The symbols and the custom tables that a segment refers to, and the contexts that the last of
/// its dictionaries kept, if any.
pub(crate) struct ReferredSegments<'a, A: Allocator> {
    pub(crate) symbols: Vec<&'a Bitmap<A>, A>,
    pub(crate) tables: Vec<&'a HuffmanTable<A>, A>,
    pub(crate) retained_contexts: Option<&'a RetainedContexts<A>>,
}

impl<A: Allocator> Drop for ReferredSegments<'_, A> {
    fn drop(self) {
        let ReferredSegments {
            symbols: _,
            tables: _,
            retained_contexts: _,
        } = self;
    }
}

impl<'a, A: Allocator> Model for ReferredSegments<'a, A> {
    ghost use Rattle.std.specs.Prelude.{◌≤◌, length, map};
    ghost use Rattle.jbig2_page.specs.Names.{ReferredValues};
    ghost use Rattle.jbig2_symbol.specs.SymbolHeader.{max_new_symbols};
    ghost use Rattle.jbig2_symbol.specs.inner.SymbolViews.{kept_view};

    ghost Value = { ReferredValues };

    ghost view = { λ r. record {
      symbols = map (λ b. b.now) r.symbols.items;
      codes = map (λ t. t.now) r.tables.items;
      kept = kept_view r.retained_contexts;
    } };

    ghost invariant = { λ r. length r.symbols.items ≤ max_new_symbols };
}

fn push_symbols<'a, A: Allocator>(
    symbols: &mut Vec<&'a Bitmap<A>, A>,
    bitmaps: &'a [Bitmap<A>],
) -> Result<()>
    ensures items { OnOk result
        (map (λ b. b.now) symbols.new.items ≡ map (λ b. b.now) symbols.old.items ++ bitmaps.now) }
    ensures within { length symbols.new.items ≤ length symbols.old.items + length bitmaps.now }
    ensures memory { IfErr result (λ e. e ≡ DecodeError.OutOfMemory) }
{
    for bitmap in bitmaps {
        symbols.push(bitmap)?;
    }
    Ok(())
}

impl<'a, A: Allocator> ReferredSegments<'a, A> {
    /// Adds the symbols of a dictionary, and takes their work first.
    fn add_dictionary<L: Ledger>(
        &mut self,
        dictionary: &'a SymbolDictionary<A>,
        work: &mut Work<L>,
    ) -> Result<()>
        ensures value { Gives (λ _. self.new) result
            (with_dictionary (kept_symbols_view dictionary.now) self.old) }
        ensures paid { Paid work.old work.new }
        ensures taken { OnOk result
            (PaysForSymbols (length self.old.symbols) (length self.new.symbols) work.old work.new) }
    {
        let count = dictionary.exported_symbols.len();
        if count > MAX_SYMBOLS - self.symbols.len() {
            return Err(OverflowError::SymbolCount.into());
        }
        work.pay(count as u64 * prices::REFERRED_SYMBOL)?;
        push_symbols(&mut self.symbols, &dictionary.exported_symbols)?;
        self.retained_contexts = dictionary.retained_contexts.as_ref();
        Ok(())
    }

    /// Adds a custom table. `None` is refused by strict reading, and else adds nothing.
    fn add_table(&mut self, strict: bool, table: Option<&'a HuffmanTable<A>>) -> Result<()>
        ensures { Gives (λ _. self.new) result
            (with_table strict (found_value (λ code. code) table.entry) self.old) }
    {
        match table {
            Some(table) => {
                self.tables.push(table)?;
                Ok(())
            }
            None if strict => Err(SegmentError::InvalidReference.into()),
            None => Ok(()),
        }
    }

    /// Adds what one number names: a symbol dictionary, or else a table.
    fn add_number<L: Ledger>(
        &mut self,
        lookup: &Lookup<'a, A>,
        number: u32,
        work: &mut Work<L>,
    ) -> Result<()>
        ensures value { Gives (λ _. self.new) result
            (with_number lookup.now.strict lookup.now.own.now lookup.now.globals.now number
            self.old) }
        ensures paid { Paid work.old work.new }
        ensures taken { OnOk result
            (PaysForSymbols (length self.old.symbols) (length self.new.symbols) work.old work.new) }
    {
        if let Some(dictionary) = lookup.symbols(number) {
            return self.add_dictionary(dictionary, work);
        }
        self.add_table(lookup.strict, lookup.table(number))
    }
}

/// What a segment refers to: each number names a symbol dictionary, or else a custom table. The work of symbols is
/// taken before they are listed.
///
/// Returns `OverflowError::SymbolCount` for more than 2^20 symbols together. Strict reading refuses
/// a number that names neither.
#[tactic(auto, using(crate::proofs::SegmentCauses::referred_cause))]
pub(crate) fn gather_referred<'a, A: Allocator + Clone, L: Ledger>(
    alloc: A,
    lookup: &Lookup<'a, A>,
    numbers: &[u32],
    work: &mut Work<L>,
) -> Result<ReferredSegments<'a, A>>
    ensures value { Gives (λ referred. referred) result
        (referred_by lookup.now.strict lookup.now.own.now lookup.now.globals.now numbers.now) }
    ensures causes { HasCauseOrNoMemory result (BreaksReferred lookup.now.strict lookup.now.own.now
        lookup.now.globals.now numbers.now) }
    ensures paid { Paid work.old work.new }
    ensures taken { IfOk result
        (λ referred. PaysForSymbols 0 (length referred.symbols) work.old work.new) }
{
    let mut referred = ReferredSegments {
        symbols: Vec::new(alloc.clone()?),
        tables: Vec::new(alloc),
        retained_contexts: None,
    };
    for number in numbers {
        match referred.add_number(lookup, *number, work) {
            Ok(()) => {}
            Err(error) => return Err(error),
        }
    }
    Ok(referred)
}
