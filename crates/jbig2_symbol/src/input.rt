//! What is needed to decode a symbol dictionary (T.88, 6.5).
ghost use Rattle.std.specs.Prelude.{◌≤◌, length};
ghost use Rattle.jbig2_text.specs.Text.{max_symbols};
ghost use Rattle.jbig2_symbol.specs.SymbolHeader.{max_new_symbols};

use crate::header::SymbolDictionaryHeader;
use crate::tables::SymbolTables;
use jbig2_base::bitmap::Bitmap;
use jbig2_coder::huffman_table::{HuffmanTable, StandardHuffmanTables};
use std::alloc::Allocator;

/// What is needed to decode a dictionary, besides the state of its reading.
#[derive(Drop)]
pub struct SymbolInput<'a, A: Allocator> {
    pub header: &'a SymbolDictionaryHeader<'a>,
    /// The symbols of the dictionaries that are referred to.
    pub symbols: &'a [&'a Bitmap<A>],
    pub tables: &'a SymbolTables<'a, A>,
    /// The codes of the ids in symbols that are aggregated from others.
    pub ids: &'a HuffmanTable<A>,
    pub standard: &'a StandardHuffmanTables<A>,
    ghost few: { length symbols.now ≤ max_symbols },
    ghost fresh: { header.now.num_new_symbols ≤ max_new_symbols },
}
