//! Decodes a symbol dictionary, with the coding that its header says (T.88, 6.5).
ghost use Rattle.std.specs.Prelude.{◌≡◌, ◌*◌, ◌≤◌, length, map};
ghost use Rattle.jbig2_base.specs.Results.{Gives};
ghost use Rattle.jbig2_steps.specs.Work.{PaidBut};
ghost use Rattle.jbig2_text.specs.Text.{max_symbols};
ghost use Rattle.jbig2_coder.specs.Integers.{number_steps};
ghost use Rattle.jbig2_symbol.specs.SymbolHeader.{max_new_symbols};
ghost use Rattle.jbig2_symbol.specs.inner.HeaderViews.{contexts_view, header_view};
ghost use Rattle.jbig2_coder.specs.inner.TableViews.{customs_view};
ghost use Rattle.jbig2_symbol.specs.inner.SymbolViews.{dictionary_view, input_view, kept_view};
ghost use Rattle.jbig2_symbol.specs.Symbols.{dictionary_from, dictionary_of, symbols_decoded, symbols_exported};

use crate::aggregates::id_codes;
use crate::classes::read_new_symbols;
use crate::coded::CodedSymbols;
use crate::contexts::{WorkingContexts, first_contexts};
use crate::dictionary::{RetainedContexts, SymbolDictionary};
use crate::exports::read_exports;
use crate::header::SymbolDictionaryHeader;
use crate::input::SymbolInput;
use crate::prefixed::PrefixedSymbols;
use crate::readings::ReadClasses;
use crate::tables::symbol_tables;
use jbig2_base::bitmap::Bitmap;
use jbig2_base::error::Result;
use jbig2_coder::huffman_table::{HuffmanTable, StandardHuffmanTables};
use jbig2_steps::Work;
use std::alloc::Allocator;
use std::sync::ledger::Ledger;

/// Reads the new symbols of a dictionary, and gives those that it exports.
fn decode_by<R: ReadClasses<A>, A: Allocator + Clone, L: Ledger>(
    alloc: A,
    input: &SymbolInput<'_, A>,
    readings: &mut R,
    work: &mut Work<L>,
) -> Result<Vec<Bitmap<A>, A>>
    ensures value { let d = input_view input.now in
        let meant = symbols_exported R.readings d (R.state readings.old) in
        Gives (λ symbols. (symbols.items, R.state readings.new)) result meant }
    ensures paid { let most = input.now.header.now.num_new_symbols in
        PaidBut (number_steps (5 * most)) work.old work.new }
{
    let new = read_new_symbols(alloc.clone()?, input, readings, work)?;
    read_exports(alloc, input, new, readings, work)
}

/// A dictionary of these symbols, which keeps its contexts if its header says so.
fn dictionary_of<A: Allocator>(
    header: &SymbolDictionaryHeader<'_>,
    exported_symbols: Vec<Bitmap<A>, A>,
    contexts: WorkingContexts<A>,
) -> SymbolDictionary<A>
    ensures { let h = header_view header.now in
        dictionary_view result ≡ dictionary_of h exported_symbols.items contexts }
{
    if header.flags.bitmap_context_retained {
        return SymbolDictionary {
            exported_symbols,
            retained_contexts: Some(contexts.into_retained()),
        };
    }
    SymbolDictionary {
        exported_symbols,
        retained_contexts: None,
    }
}

/// Decodes a dictionary, with its tables and its first contexts.
fn decode_with<A: Allocator + Clone, L: Ledger>(
    alloc: A,
    input: &SymbolInput<'_, A>,
    contexts: RetainedContexts<A>,
    work: &mut Work<L>,
) -> Result<SymbolDictionary<A>>
    ensures value { let meant = dictionary_from (input_view input.now) (contexts_view contexts) in
        Gives (λ d. dictionary_view d) result meant }
    ensures paid { let most = input.now.header.now.num_new_symbols in
        PaidBut (number_steps (5 * most)) work.old work.new }
{
    if input.header.flags.use_huffman {
        let mut readings = PrefixedSymbols::new(input, contexts);
        let exported = decode_by(alloc, input, &mut readings, work)?;
        return Ok(dictionary_of(input.header, exported, readings.contexts));
    }
    let mut readings = CodedSymbols::new(alloc.clone()?, input, contexts)?;
    let exported = decode_by(alloc, input, &mut readings, work)?;
    Ok(dictionary_of(input.header, exported, readings.contexts))
}

/// Decodes a symbol dictionary (T.88, 6.5). It refers to these symbols, at most 2^21, to these
/// custom tables, and to the contexts that another dictionary kept. The caller has already taken
/// the work of five numbers for each new symbol.
///
/// Returns the errors of `first_contexts`, then those of `symbol_tables`, `read_new_symbols` and
/// `read_exports`; `OutOfMemory`.
#[tactic(auto, unfolding(crate::specs::Symbols::symbols_decoded))]
pub fn decode<A: Allocator + Clone, L: Ledger>(
    alloc: A,
    header: &SymbolDictionaryHeader<'_>,
    symbols: &[&Bitmap<A>],
    referred_tables: &[&HuffmanTable<A>],
    standard_tables: &StandardHuffmanTables<A>,
    retained_contexts: Option<&RetainedContexts<A>>,
    work: &mut Work<L>,
) -> Result<SymbolDictionary<A>>
    requires few { length symbols.now ≤ max_symbols }
    requires fresh { header.now.num_new_symbols ≤ max_new_symbols }
    ensures value { let h = header_view header.now in
        let grids = map (λ b. b.now) symbols.now in
        let referred = customs_view referred_tables.now in
        let meant = symbols_decoded h grids referred (kept_view retained_contexts.entry) in
        Gives (λ d. dictionary_view d) result meant }
    ensures paid { let most = header.now.num_new_symbols in
        PaidBut (number_steps (5 * most)) work.old work.new }
{
    let contexts = first_contexts(alloc.clone()?, &header.flags, retained_contexts)?;
    let tables = symbol_tables(&header.flags, standard_tables, referred_tables)?;
    let ids = id_codes(alloc.clone()?, header, symbols.len())?;
    let input = SymbolInput {
        header,
        symbols,
        tables: &tables,
        ids: &ids,
        standard: standard_tables,
    };
    decode_with(alloc, &input, contexts, work)
}
