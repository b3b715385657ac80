//! Symbol dictionaries, custom tables and pattern dictionaries, to which later segments may refer
//! by their numbers (T.88, 7.3).
ghost use Rattle.std.specs.Prelude.{◌≡◌, Ok};
ghost use Rattle.jbig2_base.specs.Results.{Gives};
ghost use Rattle.jbig2_page.specs.Names.{kept_of, kept_under, no_names};
ghost use Rattle.jbig2_framing.specs.inner.SegmentViews.{segment_view};
ghost use Rattle.jbig2_page.specs.SegmentPrices.{capped, names_count};
ghost use Rattle.jbig2_page.specs.Regions.{patterns_for};
ghost use Rattle.jbig2_page.specs.inner.KeptViews.{found_value, patterns_view, kept_values, kept_symbols_view};

use crate::kept::{Kept, kept_of};
use jbig2_base::error::Result;
use jbig2_coder::huffman_table::HuffmanTable;
use jbig2_framing::segment::{Segment, SegmentType};
use jbig2_halftone::pattern::PatternDictionary;
use jbig2_symbol::SymbolDictionary;
use std::alloc::Allocator;
use std::marker::Model;

/// What segments keep for later ones, each kind in the order of the segments.
pub(crate) struct KeptNames<A: Allocator> {
    symbols: Vec<Kept<SymbolDictionary<A>>, A>,
    tables: Vec<Kept<HuffmanTable<A>>, A>,
    patterns: Vec<Kept<PatternDictionary<A>>, A>,
}

impl<A: Allocator> Drop for KeptNames<A> {
    fn drop(self) {
        let KeptNames {
            symbols: _,
            tables: _,
            patterns: _,
        } = self;
    }
}

impl<A: Allocator> Model for KeptNames<A> {
    ghost use Rattle.jbig2_page.specs.Names.{Names};
    ghost use Rattle.jbig2_page.specs.inner.KeptViews.{patterns_view, kept_values, kept_symbols_view};

    ghost Value = { Names };

    ghost view = { λ n. record {
      symbols = kept_values kept_symbols_view n.symbols.items;
      codes = n.tables.items;
      patterns = kept_values patterns_view n.patterns.items;
    } };
}

impl<A: Allocator + Clone> KeptNames<A> {
    pub(crate) fn new(alloc: A) -> Result<KeptNames<A>>
        ensures { Gives (λ names. names) result (Ok no_names) }
    {
        Ok(KeptNames {
            symbols: Vec::new(alloc.clone()?),
            tables: Vec::new(alloc.clone()?),
            patterns: Vec::new(alloc),
        })
    }
}

impl<A: Allocator> KeptNames<A> {
    /// How many values are kept.
    pub(crate) fn count(&self) -> usize
        ensures { result ≡ capped (names_count self.now) }
    {
        self.symbols
            .len()
            .saturating_add(self.tables.len())
            .saturating_add(self.patterns.len())
    }

    pub(crate) fn clear(&mut self)
        ensures { self.new ≡ no_names }
    {
        self.symbols.clear();
        self.tables.clear();
        self.patterns.clear();
    }

    pub(crate) fn store_symbols(
        &mut self,
        segment_number: u32,
        value: SymbolDictionary<A>,
    ) -> Result<()>
        ensures { Gives (λ _. self.new) result
            (Ok (record self.old {
              symbols = kept_under segment_number (kept_symbols_view value) self.old.symbols;
            })) }
    {
        self.symbols.push(Kept {
            segment_number,
            value,
        })?;
        Ok(())
    }

    pub(crate) fn store_table(&mut self, segment_number: u32, value: HuffmanTable<A>) -> Result<()>
        ensures { Gives (λ _. self.new) result
            (Ok (record self.old { codes = kept_under segment_number value self.old.codes })) }
    {
        self.tables.push(Kept {
            segment_number,
            value,
        })?;
        Ok(())
    }

    pub(crate) fn store_patterns(
        &mut self,
        segment_number: u32,
        value: PatternDictionary<A>,
    ) -> Result<()>
        ensures { Gives (λ _. self.new) result
            (Ok (record self.old {
              patterns = kept_under segment_number (patterns_view value) self.old.patterns;
            })) }
    {
        self.patterns.push(Kept {
            segment_number,
            value,
        })?;
        Ok(())
    }

    fn symbols(&self) -> &[Kept<SymbolDictionary<A>>]
        ensures { kept_values kept_symbols_view result.now ≡ self.now.symbols }
    {
        &self.symbols
    }

    fn tables(&self) -> &[Kept<HuffmanTable<A>>]
        ensures { result.now ≡ self.now.codes }
    {
        &self.tables
    }

    fn patterns(&self) -> &[Kept<PatternDictionary<A>>]
        ensures { kept_values patterns_view result.now ≡ self.now.patterns }
    {
        &self.patterns
    }
}

/// Where a number is looked up: first in the page's own names, then in those of the globals.
#[derive(Drop)]
pub(crate) struct Lookup<'a, A: Allocator> {
    /// Whether a number that names nothing is refused.
    pub(crate) strict: bool,
    pub(crate) own: &'a KeptNames<A>,
    pub(crate) globals: &'a KeptNames<A>,
}

impl<'a, A: Allocator> Lookup<'a, A> {
    pub(crate) fn symbols(&self, number: u32) -> Option<&'a SymbolDictionary<A>>
        ensures { found_value kept_symbols_view result
            ≡ kept_of number self.now.own.now.symbols self.now.globals.now.symbols }
    {
        let own = self.own.symbols();
        let globals = self.globals.symbols();
        kept_of(own, globals, number)
    }

    pub(crate) fn table(&self, number: u32) -> Option<&'a HuffmanTable<A>>
        ensures { found_value (λ code. code) result
            ≡ kept_of number self.now.own.now.codes self.now.globals.now.codes }
    {
        let own = self.own.tables();
        let globals = self.globals.tables();
        kept_of(own, globals, number)
    }

    pub(crate) fn patterns(&self, number: u32) -> Option<&'a PatternDictionary<A>>
        ensures { found_value patterns_view result
            ≡ kept_of number self.now.own.now.patterns self.now.globals.now.patterns }
    {
        let own = self.own.patterns();
        let globals = self.globals.patterns();
        kept_of(own, globals, number)
    }
}
