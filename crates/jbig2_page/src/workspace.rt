//! The tables and the memory that each segment of a page is decoded with.
ghost use Rattle.std.specs.Prelude.{◌≡◌, ◌≤◌, IfErr, vec_len};

use jbig2_base::error::{DecodeError, Result};
use jbig2_coder::arithmetic_decoder::ArithmeticDecoderContext;
use jbig2_coder::huffman_table::StandardHuffmanTables;
use std::alloc::Allocator;

/// The most contexts that are kept for the next segment: the number of the largest template.
pub(crate) const MOST_CONTEXTS: usize = 65536;

/// The standard tables, and memory for the contexts of the arithmetic coder. A segment's result
/// does not depend on contexts from an earlier one. At most `MOST_CONTEXTS` of them are kept.
#[derive(Drop)]
pub(crate) struct Workspace<A: Allocator> {
    pub(crate) alloc: A,
    pub(crate) standard_tables: StandardHuffmanTables<A>,
    pub(crate) contexts: Vec<ArithmeticDecoderContext, A>,
    ghost bounded: { vec_len contexts ≤ 65536 },
}

impl<A: Allocator + Clone> Workspace<A> {
    pub(crate) fn new(alloc: A) -> Result<Workspace<A>>
        ensures { IfErr result (λ e. e ≡ DecodeError.OutOfMemory) }
    {
        Ok(Workspace {
            standard_tables: StandardHuffmanTables::new(alloc.clone()?)?,
            contexts: Vec::new(alloc.clone()?),
            alloc,
        })
    }
}
