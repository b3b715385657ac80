//! Segments that draw nothing and keep something for later ones (T.88, 7.4.2, 7.4.4 and 7.4.13), of
//! a page or of its globals. Only salvage passes over one that fails.
ghost use Rattle.std.specs.Prelude.{◌≡◌, ◌+◌, ◌*◌, ◌⊎◌, IfErr, IfOk};
ghost use Rattle.jbig2_base.specs.Results.{Gives};
ghost use Rattle.jbig2_framing.specs.inner.SegmentViews.{segment_view};
ghost use Rattle.jbig2_page.specs.Names.{symbol_dictionary_at, with_symbols, pattern_dictionary_at, with_patterns, with_code, Names};
ghost use Rattle.jbig2_page.specs.inner.KeptViews.{patterns_view, kept_symbols_view};
ghost use Rattle.jbig2_steps.specs.Work.{Paid, budget};
ghost use Rattle.jbig2_halftone.specs.Steps.{price_of_patterns};
ghost use Rattle.jbig2_halftone.specs.inner.PatternHeaderViews.{header_view};

use crate::kept::names::{KeptNames, Lookup};
use crate::kept::referred::gather_referred;
use crate::workspace::{MOST_CONTEXTS, Workspace};
use jbig2_base::error::{DecodeError, Result};
use jbig2_base::reader::Reader;
use jbig2_coder::huffman_table::HuffmanTable;
use jbig2_framing::segment::Segment;
use jbig2_halftone::pattern::{self, PatternDictionary, PatternDictionaryHeader};
use jbig2_steps::{Work, prices};
use jbig2_symbol::SymbolDictionary;
use std::alloc::Allocator;
use std::sync::ledger::Ledger;

/// Decodes a symbol dictionary (T.88, 7.4.2), after what it refers to.
#[tactic(auto, unfolding(crate::specs::Names::symbol_dictionary_at))]
fn decode_symbols<A: Allocator + Clone, L: Ledger>(
    lookup: &Lookup<'_, A>,
    segment: &Segment<'_, A>,
    workspace: &Workspace<A>,
    work: &mut Work<L>,
) -> Result<SymbolDictionary<A>>
    ensures value { Gives (λ d. kept_symbols_view d) result
        (symbol_dictionary_at lookup.now.strict lookup.now.own.now lookup.now.globals.now
        (segment_view segment.now)) }
    ensures paid { Paid work.old work.new }
{
    let numbers = &segment.header.referred_to_segments;
    let referred = gather_referred(workspace.alloc.clone()?, lookup, numbers, work)?;
    let mut reader = Reader::new(segment.bytes);
    let header = jbig2_symbol::parse(&mut reader, lookup.strict)?;
    work.pay(u64::from(header.num_new_symbols) * prices::NEW_SYMBOL)?;
    jbig2_symbol::decode(
        workspace.alloc.clone()?,
        &header,
        &referred.symbols,
        &referred.tables,
        &workspace.standard_tables,
        referred.retained_contexts,
        work,
    )
}

/// Takes the work of patterns: of their collective bitmap, of each one that is cut out of it, and of the coded bytes.
fn pay_patterns<L: Ledger>(header: &PatternDictionaryHeader<'_>, work: &mut Work<L>) -> Result<()>
    ensures memory { IfErr result (λ e. e ≡ DecodeError.OutOfMemory) }
    ensures paid { Paid work.old work.new }
    ensures taken { let price = price_of_patterns (header_view header.now) in
        IfOk result (λ _. budget work.new + 32 * price ≡ budget work.old) }
{
    let count = u64::from(header.num_patterns) + 1;
    let (width, height) = (
        u32::from(header.pattern_width),
        u32::from(header.pattern_height),
    );
    work.pay_bitmaps(2 * count, width, height)?;
    work.pay(header.bytes.len() as u64)?;
    Ok(())
}

/// Decodes a pattern dictionary (T.88, 7.4.4).
#[tactic(auto, unfolding(crate::specs::Names::pattern_dictionary_at))]
fn decode_patterns<A: Allocator + Clone, L: Ledger>(
    strict: bool,
    bytes: &[u8],
    workspace: &mut Workspace<A>,
    work: &mut Work<L>,
) -> Result<PatternDictionary<A>>
    ensures value { Gives (λ d. patterns_view d) result (pattern_dictionary_at strict bytes.now) }
    ensures paid { Paid work.old work.new }
{
    let mut reader = Reader::new(bytes);
    let header = pattern::parse(&mut reader, strict)?;
    pay_patterns(&header, work)?;
    let alloc = workspace.alloc.clone()?;
    let dictionary = pattern::decode(alloc, &header, &mut workspace.contexts, &mut work.steps);
    workspace.contexts.truncate(MOST_CONTEXTS);
    dictionary
}

/// Keeps a symbol dictionary, which may refer to what `names` and `globals` keep.
#[tactic(auto, unfolding(crate::specs::Names::with_symbols))]
pub(crate) fn keep_symbols<A: Allocator + Clone, L: Ledger>(
    names: &mut KeptNames<A>,
    strict: bool,
    globals: &KeptNames<A>,
    segment: &Segment<'_, A>,
    workspace: &Workspace<A>,
    work: &mut Work<L>,
) -> Result<()>
    ensures value { Gives (λ _. names.new) result
        (with_symbols strict globals.now (segment_view segment.now) names.old) }
    ensures unchanged { IfErr result
        (λ e. (e ≡ DecodeError.OutOfMemory) ⊎ (names.new ≡ names.old)) }
    ensures paid { Paid work.old work.new }
{
    let lookup = Lookup {
        strict,
        own: names,
        globals,
    };
    let dictionary = decode_symbols(&lookup, segment, workspace, work)?;
    names.store_symbols(segment.header.segment_number, dictionary)
}

/// Keeps a pattern dictionary.
#[tactic(auto, unfolding(crate::specs::Names::with_patterns))]
pub(crate) fn keep_patterns<A: Allocator + Clone, L: Ledger>(
    names: &mut KeptNames<A>,
    strict: bool,
    segment: &Segment<'_, A>,
    workspace: &mut Workspace<A>,
    work: &mut Work<L>,
) -> Result<()>
    ensures value { Gives (λ _. names.new) result
        (with_patterns strict (segment_view segment.now) names.old) }
    ensures unchanged { IfErr result
        (λ e. (e ≡ DecodeError.OutOfMemory) ⊎ (names.new ≡ names.old)) }
    ensures paid { Paid work.old work.new }
{
    let dictionary = decode_patterns(strict, segment.bytes, workspace, work)?;
    names.store_patterns(segment.header.segment_number, dictionary)
}

/// Keeps a custom table (T.88, 7.4.13 and B.2).
#[tactic(auto, unfolding(crate::specs::Names::with_code))]
pub(crate) fn keep_table<A: Allocator + Clone>(
    names: &mut KeptNames<A>,
    segment: &Segment<'_, A>,
    workspace: &Workspace<A>,
) -> Result<()>
    ensures value { Gives (λ _. names.new) result (with_code (segment_view segment.now) names.old) }
    ensures unchanged { IfErr result
        (λ e. (e ≡ DecodeError.OutOfMemory) ⊎ (names.new ≡ names.old)) }
{
    let mut reader = Reader::new(segment.bytes);
    let table = HuffmanTable::read_custom(workspace.alloc.clone()?, &mut reader)?;
    names.store_table(segment.header.segment_number, table)
}
