//! The tables of prefix codes of a symbol dictionary (T.88, 7.4.2.1.6), and of its aggregate symbols (6.5.8.2).
ghost use Rattle.std.specs.Prelude.{◌≡◌};
ghost use Rattle.jbig2_base.specs.Results.{Returns};
ghost use Rattle.jbig2_coder.specs.inner.TableViews.{customs_view};
ghost use Rattle.jbig2_text.specs.inner.TextViews as texts;
ghost use Rattle.jbig2_symbol.specs.SymbolBitmaps.{aggregate_tables};
ghost use Rattle.jbig2_symbol.specs.SymbolReading.{symbol_tables, table_for};
ghost use Rattle.jbig2_symbol.specs.inner.SymbolViews.{tables_view};
ghost use Rattle.jbig2_base.specs.Causes.{HasCause};
ghost use Rattle.jbig2_symbol.specs.Causes.{BreaksTables};
ghost use Rattle.jbig2_symbol.specs.declared.header.SymbolDictionaryFlags.{SymbolDictionaryFlags};

use crate::header::{HuffmanTableSelection, SymbolDictionaryFlags};
use jbig2_base::error::Result;
use jbig2_coder::huffman_table::{HuffmanTable, StandardHuffmanTables};
use jbig2_coder::table_selection::next_custom;
use jbig2_text::TextRegionHuffmanTables;
use std::alloc::Allocator;

/// The tables of prefix codes of a dictionary, named for what they read.
#[derive(Drop)]
pub struct SymbolTables<'a, A: Allocator> {
    pub heights: &'a HuffmanTable<A>,
    pub widths: &'a HuffmanTable<A>,
    pub sizes: &'a HuffmanTable<A>,
    pub counts: &'a HuffmanTable<A>,
    pub runs: &'a HuffmanTable<A>,
}

/// The table that a selection names, and the custom tables still left.
#[tactic(auto, unfolding(crate::specs::SymbolReading::table_for))]
fn table_for<'a, A: Allocator>(
    standard: &'a StandardHuffmanTables<A>,
    selection: HuffmanTableSelection,
    customs: &'a [&'a HuffmanTable<A>],
) -> Result<(&'a HuffmanTable<A>, &'a [&'a HuffmanTable<A>])>
    ensures { let meant = table_for selection (customs_view customs.now) in
        Returns (λ t. (t.0.now, customs_view t.1.now)) result meant }
{
    match selection {
        HuffmanTableSelection::TableB1 => Ok((standard.table_a(), customs)),
        HuffmanTableSelection::TableB2 => Ok((standard.table_b(), customs)),
        HuffmanTableSelection::TableB3 => Ok((standard.table_c(), customs)),
        HuffmanTableSelection::TableB4 => Ok((standard.table_d(), customs)),
        HuffmanTableSelection::TableB5 => Ok((standard.table_e(), customs)),
        HuffmanTableSelection::UserSupplied => next_custom(customs),
    }
}

/// The tables of a dictionary. It takes the custom ones that it refers to in their order.
///
/// Returns `HuffmanError::MissingTables` where it refers to too few, also without prefix codes.
#[tactic(auto, unfolding(crate::specs::SymbolReading::symbol_tables))]
pub fn symbol_tables<'a, A: Allocator>(
    flags: &SymbolDictionaryFlags,
    standard: &'a StandardHuffmanTables<A>,
    referred: &'a [&'a HuffmanTable<A>],
) -> Result<SymbolTables<'a, A>>
    ensures value { let meant = symbol_tables flags.now (customs_view referred.now) in
        Returns (λ tables. tables_view tables) result meant }
    ensures causes { HasCause result (BreaksTables flags.now (customs_view referred.now)) }
{
    let (heights, customs) = table_for(standard, flags.delta_height_table, referred)?;
    let (widths, customs) = table_for(standard, flags.delta_width_table, customs)?;
    let (sizes, customs) = table_for(standard, flags.collective_bitmap_size_table, customs)?;
    let (counts, _) = table_for(standard, flags.aggregate_instance_table, customs)?;
    Ok(SymbolTables {
        heights,
        widths,
        sizes,
        counts,
        runs: standard.table_a(),
    })
}

/// The tables of an aggregate symbol's instances (T.88, Table 17).
pub fn aggregate_tables<'a, A: Allocator>(
    standard: &'a StandardHuffmanTables<A>,
) -> TextRegionHuffmanTables<'a, A>
    ensures { texts.tables_view result ≡ aggregate_tables }
{
    TextRegionHuffmanTables {
        first_s: standard.table_f(),
        delta_s: standard.table_h(),
        delta_t: standard.table_k(),
        refinement_width: standard.table_o(),
        refinement_height: standard.table_o(),
        refinement_x: standard.table_o(),
        refinement_y: standard.table_o(),
        refinement_size: standard.table_a(),
    }
}
