//! Symbol dictionaries that are coded by prefix codes (T.88, 6.5).
ghost use Rattle.std.specs.Prelude.{◌≡◌, ◌+◌, ◌*◌, ◌<◌, ◌≤◌, length, OnOk};
ghost use Rattle.jbig2_base.specs.Grid.{max_side};
ghost use Rattle.jbig2_base.specs.Results.{Returns, Gives};
ghost use Rattle.jbig2_base.specs.Bits.{Place};
ghost use Rattle.jbig2_text.specs.TextCoding.{by_prefix_codes};
ghost use Rattle.jbig2_text.specs.inner.TextViews as texts;
ghost use Rattle.jbig2_steps.specs.Work.{Paid, PaidBut};
ghost use Rattle.jbig2_coder.specs.Integers.{number_steps};
ghost use Rattle.jbig2_symbol.specs.Causes.{BreaksCollectiveBitmap, BreaksPrefixedAggregate};
ghost use Rattle.jbig2_symbol.specs.SymbolBitmaps.{by_instances, collective_bitmap, plain_id, prefixed_aggregate, prefixed_instances};
ghost use Rattle.jbig2_symbol.specs.SymbolCoding.{collective_class, prefix_codes_start};
ghost use Rattle.jbig2_symbol.specs.SymbolReading.{SymbolState, by_table};
ghost use Rattle.jbig2_symbol.specs.inner.ClassWork.{HasRoomForSymbols, PaidButClass, PaysClass};
ghost use Rattle.jbig2_symbol.specs.inner.HeaderViews.{contexts_view};
ghost use Rattle.jbig2_symbol.specs.inner.SymbolViews.{input_view, prefixed_view};
ghost use Rattle.jbig2_symbol.specs.inner.FunctionResults.{concat, size_of_rows, tall_class};
ghost use Rattle.jbig2_symbol.specs.ClassCauses.{BreaksTallClass};
ghost use Rattle.jbig2_base.specs.Causes.{HasCauseOrNoMemory};

use crate::aggregates::{aggregate_params, id_bits, instance_count, put_together, refine_alone};
use crate::classes::{check_class, read_drawn_class};
use crate::collective::{check_rows, cut_symbols, read_rows};
use crate::contexts::WorkingContexts;
use crate::dictionary::RetainedContexts;
use crate::input::SymbolInput;
use crate::readings::{HeightClass, ReadClasses, ReadSymbols, SymbolSize};
use crate::tables::aggregate_tables;
use crate::widths::read_widths;
use jbig2_base::bitmap::{Bitmap, MAX_DIMENSION};
use jbig2_base::error::{HuffmanError, OverflowError, ParseError, Result};
use jbig2_base::field::bits_field;
use jbig2_base::reader::Reader;
use jbig2_coder::huffman_table::HuffmanTable;
use jbig2_steps::Work;
use jbig2_text::{PrefixedReadings, Refining, TextParams};
use std::alloc::Allocator;
use std::sync::ledger::Ledger;

/// Reads a symbol by prefix codes. A single instance has an id of this many bits.
fn read_by_instances<A: Allocator + Clone, L: Ledger>(
    readings: &mut PrefixedReadings<'_, '_, A>,
    refining: &mut Refining<A>,
    id_bits: u8,
    params: &TextParams<'_, A>,
    size: SymbolSize,
    work: &mut Work<L>,
) -> Result<Bitmap<A>>
    requires bits { id_bits ≤ 32 }
    requires strips { params.now.flags.log_strip_size ≤ 3 }
    ensures value { let state = texts.prefixed_view readings.old in
        let p = texts.params_view params.now in
        let read = by_instances by_prefix_codes (plain_id id_bits) p in
        let meant = read size.width size.height refining.old state in
        Gives (λ g. (g, refining.new, texts.prefixed_view readings.new)) result meant }
    ensures paid { PaidBut (number_steps 2) work.old work.new }
{
    if params.num_instances != 1 {
        return put_together(readings, refining, params, size, work);
    }
    let end = ParseError::UnexpectedEof.into();
    let id = i64::from(bits_field(&mut readings.reader, id_bits, end)?);
    refine_alone(readings, refining, &params.symbols, id, size, work)
}

/// The place in the bits, and the contexts of bitmaps, which stay as they are, and of refinements.
#[derive(Drop)]
pub struct PrefixedSymbols<'a, A: Allocator> {
    reader: Reader<'a>,
    pub(crate) contexts: WorkingContexts<A>,
}

impl<'a, A: Allocator + Clone> PrefixedSymbols<'a, A> {
    /// The start of a dictionary's bytes, with these contexts for its bitmaps.
    pub fn new(input: &SymbolInput<'a, A>, contexts: RetainedContexts<A>) -> PrefixedSymbols<'a, A>
        ensures { let meant = prefix_codes_start (input_view input.now) (contexts_view contexts) in
            prefixed_view result ≡ meant }
    {
        PrefixedSymbols {
            reader: Reader::new(input.header.bytes),
            contexts: WorkingContexts::new(input.header, contexts),
        }
    }

    /// A number with a code of this table, or out of band.
    fn number(&mut self, table: &HuffmanTable<A>) -> Result<Option<i32>>
        ensures { let meant = by_table table.now (prefixed_view self.old) in
            Returns (λ value. (value, prefixed_view self.new)) result meant }
    {
        table.decode(&mut self.reader)
    }

    /// Reads a symbol of this many instances.
    fn read_instances<L: Ledger>(
        &mut self,
        input: &SymbolInput<'_, A>,
        params: &TextParams<'_, A>,
        size: SymbolSize,
        work: &mut Work<L>,
    ) -> Result<Bitmap<A>>
        requires strips { params.now.flags.log_strip_size ≤ 3 }
        ensures value { let d = input_view input.now in
            let p = texts.params_view params.now in
            let meant = prefixed_instances d p size.width size.height (prefixed_view self.old) in
            Gives (λ symbol. (symbol, prefixed_view self.new)) result meant }
        ensures paid { PaidBut (number_steps 2) work.old work.new }
    {
        let bits = id_bits(input.header, input.symbols.len()).max(1) as u8;
        let mut readings = PrefixedReadings {
            reader: self.reader.duplicate(),
            tables: aggregate_tables(input.standard),
            ids: input.ids,
        };
        let refining = &mut self.contexts.refining;
        match read_by_instances(&mut readings, refining, bits, params, size, work) {
            Ok(symbol) => {
                self.reader = readings.reader;
                Ok(symbol)
            }
            Err(error) => Err(error),
        }
    }

    /// Reads a symbol that is refined from another one or aggregated from several (T.88, 6.5.8.2).
    #[tactic(auto, unfolding(crate::specs::SymbolBitmaps::prefixed_aggregate, crate::specs::SymbolBitmaps::instance_count))]
    fn read_aggregate<L: Ledger>(
        &mut self,
        input: &SymbolInput<'_, A>,
        new: &[Bitmap<A>],
        size: SymbolSize,
        work: &mut Work<L>,
    ) -> Result<Bitmap<A>>
        ensures value { let d = input_view input.now in
            let state = prefixed_view self.old in
            let meant = prefixed_aggregate d new.now size.width size.height state in
            Gives (λ symbol. (symbol, prefixed_view self.new)) result meant }
        ensures causes { let d = input_view input.now in
            let state = prefixed_view self.old in
            HasCauseOrNoMemory result
            (BreaksPrefixedAggregate d new.now size.width size.height state) }
        ensures paid { PaidBut (number_steps 2) work.old work.new }
    {
        let count = instance_count(self.number(input.tables.counts)?)?;
        let params = aggregate_params(input, new, count);
        self.read_instances(input, &params, size, work)
    }

    /// Reads the number of bytes of a collective bitmap, from the next whole byte on (T.88, 6.5.9).
    fn read_size(&mut self, input: &SymbolInput<'_, A>) -> Result<usize>
        ensures value { let d = input_view input.now in
            let meant = size_of_rows d (prefixed_view self.old) in
            Returns (λ size. (size, prefixed_view self.new)) result meant }
    {
        let Some(size) = self.number(input.tables.sizes)? else {
            return Err(HuffmanError::UnexpectedOob.into());
        };
        if size < 0 {
            return Err(OverflowError::BitmapDimension.into());
        }
        self.reader.align();
        Ok(size as usize)
    }

    /// Reads the collective bitmap of a height class (T.88, 6.5.9).
    #[tactic(auto, unfolding(crate::specs::SymbolBitmaps::collective_bitmap))]
    fn read_collective<L: Ledger>(
        &mut self,
        alloc: A,
        input: &SymbolInput<'_, A>,
        width: u32,
        height: u32,
        work: &mut Work<L>,
    ) -> Result<Bitmap<A>>
        ensures value { let d = input_view input.now in
            let meant = collective_bitmap d width height (prefixed_view self.old) in
            Gives (λ bitmap. (bitmap, prefixed_view self.new)) result meant }
        ensures causes { let d = input_view input.now in
            let state = prefixed_view self.old in
            HasCauseOrNoMemory result (BreaksCollectiveBitmap d width height state) }
        ensures paid { Paid work.old work.new }
    {
        let size = self.read_size(input)?;
        read_rows(
            alloc,
            input.header.strict,
            size,
            SymbolSize { width, height },
            &mut self.reader,
            work,
        )
    }

    /// Refuses a height class that is too high for a symbol. The error is that of its collective
    /// bitmap, if it has one, or else that of the first symbol (T.88, 6.5.9). The bitmap is made
    /// only where strict mode has to decode MMR data.
    #[tactic(auto, unfolding(crate::specs::SymbolBitmaps::collective_bitmap))]
    fn refuse_tall_class<L: Ledger>(
        &mut self,
        alloc: A,
        input: &SymbolInput<'_, A>,
        width: u32,
        height: u32,
        work: &mut Work<L>,
    ) -> Result<()>
        requires { max_side < height }
        ensures value { let d = input_view input.now in
            let meant = tall_class d width height (prefixed_view self.old) in
            Gives (λ _. tt) result meant }
        ensures causes { let d = input_view input.now in
            let state = prefixed_view self.old in
            HasCauseOrNoMemory result (BreaksTallClass d width height state) }
        ensures paid { Paid work.old work.new }
    {
        let size = self.read_size(input)?;
        check_rows(
            alloc,
            input.header.strict,
            size,
            SymbolSize { width, height },
            &mut self.reader,
            work,
        )?;
        Err(OverflowError::BitmapDimension.into())
    }

    /// Cuts the symbols of a class out of its collective bitmap, and adds them to `bitmaps`.
    #[tactic(auto, unfolding(crate::specs::SymbolCoding::collective_class))]
    fn read_collective_class<L: Ledger>(
        &mut self,
        input: &SymbolInput<'_, A>,
        class: HeightClass,
        bitmaps: &mut Vec<Bitmap<A>, A>,
        work: &mut Work<L>,
    ) -> Result<()>
        requires { HasRoomForSymbols input.now bitmaps.old.items }
        ensures value { let d = input_view input.now in
            let before = bitmaps.old.items in
            let state = prefixed_view self.old in
            let read = collective_class d class.height class.empty before state in
            Gives (λ _. (bitmaps.new.items, prefixed_view self.new)) result (concat before read) }
        ensures paid { PaidButClass input.now bitmaps.old.items 1 work.old work.new }
        ensures exact { let before = bitmaps.old.items in
            OnOk result (PaysClass input.now before bitmaps.new.items 1 work.old work.new) }
    {
        let alloc = Vec::allocator(bitmaps).clone()?;
        let room = input.header.num_new_symbols - bitmaps.len() as u32;
        let widths = read_widths(alloc.clone()?, input, room, self, work)?;
        check_class(widths.each.len(), class.empty)?;
        let height = class.height;
        let total = widths.total;
        if height > MAX_DIMENSION && !widths.each.is_empty() {
            return self.refuse_tall_class(alloc, input, total, height, work);
        }
        let collective = self.read_collective(alloc.clone()?, input, total, height, work)?;
        cut_symbols(alloc, &collective, height, &widths.each, bitmaps, work)
    }
}

impl<A: Allocator + Clone> ReadSymbols<A> for PrefixedSymbols<'_, A> {
    ghost use Rattle.jbig2_base.specs.Bits.{Place};
    ghost use Rattle.jbig2_symbol.specs.ClassCauses.{prefixed_symbol_causes};
    ghost use Rattle.jbig2_symbol.specs.SymbolCoding.{symbols_by_prefix_codes};
    ghost use Rattle.jbig2_symbol.specs.SymbolReading.{SymbolState};
    ghost use Rattle.jbig2_symbol.specs.inner.SymbolViews.{prefixed_view};

    ghost State = { SymbolState Place };

    ghost state = { λ r. prefixed_view r };

    ghost readings = { symbols_by_prefix_codes };

    ghost causes = { prefixed_symbol_causes };

    fn width_difference<L: Ledger>(
        &mut self,
        input: &SymbolInput<'_, A>,
        _work: &mut Work<L>,
    ) -> Result<Option<i32>> {
        self.number(input.tables.widths)
    }

    fn symbol_bitmap<L: Ledger>(
        &mut self,
        input: &SymbolInput<'_, A>,
        new: &[Bitmap<A>],
        size: SymbolSize,
        work: &mut Work<L>,
    ) -> Result<Bitmap<A>> {
        self.read_aggregate(input, new, size, work)
    }
}

impl<A: Allocator + Clone> ReadClasses<A> for PrefixedSymbols<'_, A> {
    ghost use Rattle.jbig2_base.specs.Bits.{Place};
    ghost use Rattle.jbig2_symbol.specs.ClassCauses.{prefixed_class_causes};
    ghost use Rattle.jbig2_symbol.specs.SymbolCoding.{classes_by_prefix_codes};
    ghost use Rattle.jbig2_symbol.specs.SymbolReading.{SymbolState};
    ghost use Rattle.jbig2_symbol.specs.inner.SymbolViews.{prefixed_view};

    ghost State = { SymbolState Place };

    ghost state = { λ r. prefixed_view r };

    ghost readings = { classes_by_prefix_codes };

    ghost causes = { prefixed_class_causes };

    fn height_difference<L: Ledger>(
        &mut self,
        input: &SymbolInput<'_, A>,
        _work: &mut Work<L>,
    ) -> Result<Option<i32>> {
        self.number(input.tables.heights)
    }

    fn class_of_height<L: Ledger>(
        &mut self,
        input: &SymbolInput<'_, A>,
        class: HeightClass,
        bitmaps: &mut Vec<Bitmap<A>, A>,
        work: &mut Work<L>,
    ) -> Result<()> {
        if input.header.flags.use_refagg {
            return read_drawn_class(input, class, bitmaps, self, work);
        }
        self.read_collective_class(input, class, bitmaps, work)
    }

    fn export_run<L: Ledger>(
        &mut self,
        input: &SymbolInput<'_, A>,
        _work: &mut Work<L>,
    ) -> Result<Option<i32>> {
        self.number(input.tables.runs)
    }
}
