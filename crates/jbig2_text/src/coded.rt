//! Reads the numbers of a text region by the arithmetic coder (T.88, 6.4.6 to 6.4.11).
ghost use Rattle.std.specs.Prelude.{◌≡◌, ◌≤◌, Ok};
ghost use Rattle.jbig2_base.specs.Results.{Returns, Gives};
ghost use Rattle.jbig2_steps.specs.Work.{PaidBut};
ghost use Rattle.jbig2_coder.specs.Integers.{number_steps, in_band};
ghost use Rattle.jbig2_text.specs.TextCoding.{number_by_coder, coded_start, next_id, next_integer};
ghost use Rattle.jbig2_text.specs.inner.TextViews.{coded_view};

use crate::readings::ReadInstances;
use crate::refining::Refining;
use jbig2_base::bitmap::Bitmap;
use jbig2_base::error::{DecodeError, Result, SymbolError};
use jbig2_coder::arithmetic_decoder::ArithmeticDecoder;
use jbig2_coder::integer_procedures::{IntegerProcedure, IntegerProcedures};
use jbig2_coder::symbol_id_decoder::SymbolIdDecoder;
use jbig2_region::reference_bitmap::ReferenceBitmap;
use jbig2_steps::Work;
use std::alloc::Allocator;
use std::sync::ledger::Ledger;

/// The coder, and what the contexts of the integer procedures and of the symbols' ids have learned
/// (T.88, Annex A). Text regions and symbol dictionaries use it.
#[derive(Drop)]
pub struct CodedReadings<'a, A: Allocator> {
    pub decoder: ArithmeticDecoder<'a>,
    pub procedures: IntegerProcedures<A>,
    pub ids: SymbolIdDecoder<A>,
}

impl<'a, A: Allocator + Clone> CodedReadings<'a, A> {
    /// A coder at the start of `bytes`, with fresh contexts and ids of `code_length` bits (up to
    /// 30).
    ///
    /// # Errors
    /// `OutOfMemory` where there is no memory for the contexts.
    #[tactic(auto, unfolding(crate::specs::TextCoding::coded_start))]
    pub fn new(alloc: A, bytes: &'a [u8], code_length: u32) -> Result<CodedReadings<'a, A>>
        requires { code_length ≤ 30 }
        ensures { Gives (λ r. coded_view r) result (Ok (coded_start bytes.now code_length)) }
    {
        let procedures = IntegerProcedures::new(alloc.clone()?)?;
        let ids = SymbolIdDecoder::new(alloc, code_length)?;
        Ok(CodedReadings {
            decoder: ArithmeticDecoder::new(bytes),
            procedures,
            ids,
        })
    }
}

/// A number; out of band is an error.
fn in_band(number: Option<i32>) -> Result<i32>
    ensures { Returns (λ n. n) result
        (in_band (DecodeError.Symbol SymbolError.UnexpectedOob) number) }
{
    number.ok_or(DecodeError::Symbol(SymbolError::UnexpectedOob))
}

impl<A: Allocator> CodedReadings<'_, A> {
    /// The next integer of a procedure, or `None` where it is out of band.
    pub fn next_integer<L: Ledger>(
        &mut self,
        procedure: IntegerProcedure,
        work: &mut Work<L>,
    ) -> Option<i32>
        ensures value { (result, coded_view self.new)
            ≡ next_integer procedure (coded_view self.old) }
        ensures paid { PaidBut (number_steps 1) work.old work.new }
    {
        self.procedures
            .ask(procedure, &mut self.decoder, &mut work.steps)
    }

    /// The next integer of a procedure.
    ///
    /// # Errors
    /// `SymbolError::UnexpectedOob` where it is out of band.
    pub fn number<L: Ledger>(
        &mut self,
        procedure: IntegerProcedure,
        work: &mut Work<L>,
    ) -> Result<i32>
        ensures value { let meant = number_by_coder procedure (coded_view self.old) in
            Returns (λ n. (n, coded_view self.new)) result meant }
        ensures paid { PaidBut (number_steps 1) work.old work.new }
    {
        in_band(self.next_integer(procedure, work))
    }

    /// The next id of a symbol.
    pub fn next_id<L: Ledger>(&mut self, work: &mut Work<L>) -> i64
        ensures value { (result, coded_view self.new) ≡ next_id (coded_view self.old) }
        ensures paid { PaidBut (number_steps 1) work.old work.new }
    {
        i64::from(self.ids.decode(&mut self.decoder, &mut work.steps))
    }
}

impl<A: Allocator> ReadInstances for CodedReadings<'_, A> {
    ghost use Rattle.jbig2_text.specs.TextCoding.{CodedState, by_coder};
    ghost use Rattle.jbig2_text.specs.inner.TextViews.{coded_view};

    ghost State = { CodedState };

    ghost state = { λ r. coded_view r };

    ghost readings = { by_coder };

    fn delta_t<L: Ledger>(&mut self, work: &mut Work<L>) -> Result<i32> {
        self.number(IntegerProcedure::Iadt, work)
    }

    fn first_s<L: Ledger>(&mut self, work: &mut Work<L>) -> Result<i32> {
        self.number(IntegerProcedure::Iafs, work)
    }

    fn delta_s<L: Ledger>(&mut self, work: &mut Work<L>) -> Result<Option<i32>> {
        Ok(self.next_integer(IntegerProcedure::Iads, work))
    }

    fn t_bits<L: Ledger>(&mut self, _log: u8, work: &mut Work<L>) -> Result<i32> {
        self.number(IntegerProcedure::Iait, work)
    }

    fn id<L: Ledger>(&mut self, work: &mut Work<L>) -> Result<i64> {
        Ok(self.next_id(work))
    }

    fn is_refined<L: Ledger>(&mut self, work: &mut Work<L>) -> Result<bool> {
        let flag = self.number(IntegerProcedure::Iari, work)?;
        Ok(flag.unsigned_abs() % 256 != 0)
    }

    fn width_delta<L: Ledger>(&mut self, work: &mut Work<L>) -> Result<i32> {
        self.number(IntegerProcedure::Iardw, work)
    }

    fn height_delta<L: Ledger>(&mut self, work: &mut Work<L>) -> Result<i32> {
        self.number(IntegerProcedure::Iardh, work)
    }

    fn x_delta<L: Ledger>(&mut self, work: &mut Work<L>) -> Result<i32> {
        self.number(IntegerProcedure::Iardx, work)
    }

    fn y_delta<L: Ledger>(&mut self, work: &mut Work<L>) -> Result<i32> {
        self.number(IntegerProcedure::Iardy, work)
    }

    fn refine<B: Allocator, L: Ledger>(
        &mut self,
        reference: &ReferenceBitmap<'_, B>,
        refining: &mut Refining<B>,
        bitmap: &mut Bitmap<B>,
        work: &mut Work<L>,
    ) -> Result<()> {
        refining.refine(reference, bitmap, &mut self.decoder, work);
        Ok(())
    }

    fn is_within_data(&self) -> bool {
        self.decoder.is_within_data()
    }
}
