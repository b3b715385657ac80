//! A decoded symbol dictionary: its symbols, and what it keeps for another one.
ghost use Rattle.std.specs.Prelude.{◌≡◌, ◌^◌, length};
ghost use Rattle.jbig2_region.specs.RefinementTemplates.{refinement_bits};
ghost use Rattle.jbig2_region.specs.Templates.{context_bits};

use jbig2_base::bitmap::Bitmap;
use jbig2_coder::arithmetic_decoder::ArithmeticDecoderContext;
use jbig2_region::template::{RefinementTemplate, Template};
use std::alloc::Allocator;

/// What the contexts of a dictionary's bitmaps have learned (T.88, 7.4.2.2).
#[derive(Drop)]
pub struct RetainedContexts<A: Allocator> {
    pub template: Template,
    pub refinement_template: RefinementTemplate,
    pub generic_region: Vec<ArithmeticDecoderContext, A>,
    pub refinement_region: Vec<ArithmeticDecoderContext, A>,
    ghost generic: { length generic_region.items ≡ 2 ^ context_bits template },
    ghost refined: { length refinement_region.items ≡ 2 ^ refinement_bits refinement_template },
}

/// The symbols that a dictionary exports, and the contexts that it keeps for another one.
#[derive(Drop)]
pub struct SymbolDictionary<A: Allocator> {
    pub exported_symbols: Vec<Bitmap<A>, A>,
    pub retained_contexts: Option<RetainedContexts<A>>,
}
