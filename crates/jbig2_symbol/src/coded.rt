//! Symbol dictionaries that are coded by the arithmetic coder (T.88, 6.5).
ghost use Rattle.std.specs.Prelude.{◌≡◌, ◌*◌, ◌≤◌, length, Ok};
ghost use Rattle.jbig2_base.specs.Results.{Returns, Gives};
ghost use Rattle.jbig2_text.specs.TextCoding.{CodedState};
ghost use Rattle.jbig2_text.specs.inner.TextViews.{params_view};
ghost use Rattle.jbig2_steps.specs.Work.{Paid, PaidBut};
ghost use Rattle.jbig2_coder.specs.Integers.{number_steps};
ghost use Rattle.jbig2_symbol.specs.SymbolBitmaps.{coded_aggregate, coded_instances, coded_symbol};
ghost use Rattle.jbig2_symbol.specs.Causes.{BreaksCodedAggregate};
ghost use Rattle.jbig2_symbol.specs.SymbolCoding.{coded_bitmap, coder_start};
ghost use Rattle.jbig2_symbol.specs.inner.HeaderViews.{contexts_view, header_view};
ghost use Rattle.jbig2_symbol.specs.SymbolReading.{SymbolState, by_procedure};
ghost use Rattle.jbig2_symbol.specs.inner.SymbolViews.{coded_view, input_view};
ghost use Rattle.jbig2_base.specs.Causes.{HasCauseOrNoMemory};

use crate::aggregates::{aggregate_params, instance_count, put_together, refine_alone, state_bits};
use crate::classes::read_drawn_class;
use crate::contexts::WorkingContexts;
use crate::dictionary::RetainedContexts;
use crate::header::SymbolDictionaryHeader;
use crate::input::SymbolInput;
use crate::readings::{HeightClass, ReadClasses, ReadSymbols, SymbolSize};
use jbig2_base::bitmap::Bitmap;
use jbig2_base::error::Result;
use jbig2_coder::integer_procedures::IntegerProcedure;
use jbig2_region::generic::decode_coded;
use jbig2_region::template::GenericTemplatePixels;
use jbig2_steps::Work;
use jbig2_text::{CodedReadings, TextParams, new_symbol};
use std::alloc::Allocator;
use std::sync::ledger::Ledger;

/// The coder with its integer procedures and ids, and the contexts of bitmaps and refinements.
#[derive(Drop)]
pub struct CodedSymbols<'a, A: Allocator> {
    coded: CodedReadings<'a, A>,
    pub(crate) contexts: WorkingContexts<A>,
}

impl<'a, A: Allocator + Clone> CodedSymbols<'a, A> {
    /// The coder at the start of a dictionary's bytes, with these contexts for its bitmaps.
    pub fn new(
        alloc: A,
        input: &SymbolInput<'a, A>,
        contexts: RetainedContexts<A>,
    ) -> Result<CodedSymbols<'a, A>>
        ensures { let meant = Ok (coder_start (input_view input.now) (contexts_view contexts)) in
            Gives (λ readings. coded_view readings) result meant }
    {
        let bits = state_bits(input.header, input.symbols.len());
        let coded = CodedReadings::new(alloc, input.header.bytes, bits)?;
        Ok(CodedSymbols {
            coded,
            contexts: WorkingContexts::new(input.header, contexts),
        })
    }
}

impl<A: Allocator + Clone> CodedSymbols<'_, A> {
    /// A number of an integer procedure, or out of band.
    fn number<L: Ledger>(
        &mut self,
        procedure: IntegerProcedure,
        work: &mut Work<L>,
    ) -> Result<Option<i32>>
        ensures value { let meant = by_procedure procedure (coded_view self.old) in
            Returns (λ value. (value, coded_view self.new)) result meant }
        ensures paid { PaidBut (number_steps 1) work.old work.new }
    {
        Ok(self.coded.next_integer(procedure, work))
    }

    /// Decodes the bitmap of a symbol that is coded by itself. It goes on with the dictionary's
    /// contexts (T.88, 6.5.8.1).
    #[tactic(auto, unfolding(crate::specs::SymbolBitmaps::coded_symbol))]
    fn decode_symbol<L: Ledger>(
        &mut self,
        header: &SymbolDictionaryHeader<'_>,
        size: SymbolSize,
        work: &mut Work<L>,
    ) -> Result<Bitmap<A>>
        ensures value { let h = header_view header.now in
            let meant = coded_symbol h size.width size.height (coded_view self.old) in
            Gives (λ symbol. (symbol, coded_view self.new)) result meant }
        ensures paid { Paid work.old work.new }
    {
        let alloc = self.contexts.refining.allocator().clone()?;
        let mut bitmap = new_symbol(alloc, size.width, size.height, work)?;
        decode_coded(
            self.contexts.template,
            false,
            &GenericTemplatePixels::Regular(header.symbol_pixels()),
            &mut bitmap,
            &mut self.coded.decoder,
            &mut self.contexts.generic,
            &mut work.steps,
        );
        Ok(bitmap)
    }

    /// Reads a symbol of this many instances.
    fn read_instances<L: Ledger>(
        &mut self,
        params: &TextParams<'_, A>,
        size: SymbolSize,
        work: &mut Work<L>,
    ) -> Result<Bitmap<A>>
        requires { params.now.flags.log_strip_size ≤ 3 }
        ensures value { let p = params_view params.now in
            let meant = coded_instances p size.width size.height (coded_view self.old) in
            Gives (λ symbol. (symbol, coded_view self.new)) result meant }
        ensures paid { PaidBut (number_steps 3) work.old work.new }
    {
        let readings = &mut self.coded;
        let refining = &mut self.contexts.refining;
        if params.num_instances != 1 {
            return put_together(readings, refining, params, size, work);
        }
        let id = readings.next_id(work);
        refine_alone(readings, refining, &params.symbols, id, size, work)
    }

    /// Reads a symbol that is refined from another one or aggregated from several (T.88, 6.5.8.2).
    #[tactic(auto, unfolding(crate::specs::SymbolBitmaps::coded_aggregate, crate::specs::SymbolBitmaps::instance_count))]
    fn read_aggregate<L: Ledger>(
        &mut self,
        input: &SymbolInput<'_, A>,
        new: &[Bitmap<A>],
        size: SymbolSize,
        work: &mut Work<L>,
    ) -> Result<Bitmap<A>>
        ensures value { let d = input_view input.now in
            let meant = coded_aggregate d new.now size.width size.height (coded_view self.old) in
            Gives (λ symbol. (symbol, coded_view self.new)) result meant }
        ensures causes { let d = input_view input.now in
            HasCauseOrNoMemory result
            (BreaksCodedAggregate d new.now size.width size.height (coded_view self.old)) }
        ensures paid { PaidBut (number_steps 4) work.old work.new }
    {
        let count = instance_count(self.number(IntegerProcedure::Iaai, work)?)?;
        let params = aggregate_params(input, new, count);
        self.read_instances(&params, size, work)
    }
}

impl<A: Allocator + Clone> ReadSymbols<A> for CodedSymbols<'_, A> {
    ghost use Rattle.jbig2_text.specs.TextCoding.{CodedState};
    ghost use Rattle.jbig2_symbol.specs.ClassCauses.{coded_symbol_causes};
    ghost use Rattle.jbig2_symbol.specs.SymbolCoding.{symbols_by_coder};
    ghost use Rattle.jbig2_symbol.specs.SymbolReading.{SymbolState};
    ghost use Rattle.jbig2_symbol.specs.inner.SymbolViews.{coded_view};

    ghost State = { SymbolState CodedState };

    ghost state = { λ r. coded_view r };

    ghost readings = { symbols_by_coder };

    ghost causes = { coded_symbol_causes };

    fn width_difference<L: Ledger>(
        &mut self,
        _input: &SymbolInput<'_, A>,
        work: &mut Work<L>,
    ) -> Result<Option<i32>> {
        self.number(IntegerProcedure::Iadw, work)
    }

    #[tactic(auto, unfolding(crate::specs::SymbolCoding::coded_bitmap))]
    fn symbol_bitmap<L: Ledger>(
        &mut self,
        input: &SymbolInput<'_, A>,
        new: &[Bitmap<A>],
        size: SymbolSize,
        work: &mut Work<L>,
    ) -> Result<Bitmap<A>> {
        if input.header.flags.use_refagg {
            return self.read_aggregate(input, new, size, work);
        }
        self.decode_symbol(input.header, size, work)
    }
}

impl<A: Allocator + Clone> ReadClasses<A> for CodedSymbols<'_, A> {
    ghost use Rattle.jbig2_text.specs.TextCoding.{CodedState};
    ghost use Rattle.jbig2_symbol.specs.ClassCauses.{coded_class_causes};
    ghost use Rattle.jbig2_symbol.specs.SymbolCoding.{classes_by_coder};
    ghost use Rattle.jbig2_symbol.specs.SymbolReading.{SymbolState};
    ghost use Rattle.jbig2_symbol.specs.inner.SymbolViews.{coded_view};

    ghost State = { SymbolState CodedState };

    ghost state = { λ r. coded_view r };

    ghost readings = { classes_by_coder };

    ghost causes = { coded_class_causes };

    fn height_difference<L: Ledger>(
        &mut self,
        _input: &SymbolInput<'_, A>,
        work: &mut Work<L>,
    ) -> Result<Option<i32>> {
        self.number(IntegerProcedure::Iadh, work)
    }

    fn class_of_height<L: Ledger>(
        &mut self,
        input: &SymbolInput<'_, A>,
        class: HeightClass,
        bitmaps: &mut Vec<Bitmap<A>, A>,
        work: &mut Work<L>,
    ) -> Result<()> {
        read_drawn_class(input, class, bitmaps, self, work)
    }

    fn export_run<L: Ledger>(
        &mut self,
        _input: &SymbolInput<'_, A>,
        work: &mut Work<L>,
    ) -> Result<Option<i32>> {
        self.number(IntegerProcedure::Iaex, work)
    }
}
