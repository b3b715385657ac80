//! What is needed to read and place the instances of a text region (T.88, Table 9).

use crate::header::TextRegionFlags;
use crate::symbol_list::SymbolList;
use std::alloc::Allocator;

/// The flags, the symbols, and how many instances there are.
#[derive(Drop)]
pub struct TextParams<'a, A: Allocator> {
    pub flags: TextRegionFlags,
    pub symbols: SymbolList<'a, A>,
    pub num_instances: u32,
    /// The number of bytes in the segment's data.
    pub data_len: usize,
    /// Whether ids without a symbol and a strip that does not end are refused.
    pub strict: bool,
}
