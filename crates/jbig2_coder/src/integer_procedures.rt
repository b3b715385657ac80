//! The integer procedures of text regions and symbol dictionaries, which share a coder (T.88, A.2).

ghost use Rattle.std.specs.Prelude.{◌≡◌, ◌+◌, ◌<◌, length, Ok};
ghost use Rattle.jbig2_base.specs.Results.{Gives};
ghost use Rattle.jbig2_coder.specs.Integers.{integer_by, asked_integer, fresh_procedures, index_of};

use crate::arithmetic_decoder::ArithmeticDecoder;
use crate::integer_decoder::IntegerDecoder;
use jbig2_base::error::Result;
use jbig2_steps::Steps;
use std::alloc::Allocator;
use std::marker::Model;
use std::sync::ledger::Ledger;

/// The number of procedures.
const PROCEDURES: usize = 13;

/// The meaning of an integer (T.88, 6.4 and 6.5).
#[derive(Clone, Copy, Debug, PartialEq, Eq)]
pub enum IntegerProcedure {
    /// The number of instances of an aggregate symbol.
    Iaai,
    /// The difference in height of two height classes.
    Iadh,
    /// The difference in S of two instances of a strip.
    Iads,
    /// The difference in T of two strips.
    Iadt,
    /// The difference in width of two symbols.
    Iadw,
    /// A run of symbols that are exported, or are not.
    Iaex,
    /// The difference in S of the first instances of two strips.
    Iafs,
    /// T in a strip.
    Iait,
    /// How much higher a refined symbol is.
    Iardh,
    /// How much wider a refined symbol is.
    Iardw,
    /// How far a refined symbol lies to the right.
    Iardx,
    /// How far down a refined symbol lies.
    Iardy,
    /// Whether a symbol is refined.
    Iari,
}

impl IntegerProcedure {
    /// The procedure's number, from 0 on.
    fn index(self) -> usize
        ensures index { result ≡ index_of self }
        ensures below { result < 13 }
    {
        self as usize
    }
}

/// The contexts of each procedure.
#[derive(Drop)]
pub struct IntegerProcedures<A: Allocator> {
    decoders: Vec<IntegerDecoder<A>, A>,
}

impl<A: Allocator> Model for IntegerProcedures<A> {
    ghost use Rattle.std.specs.Prelude.{◌≡◌, length};
    ghost use Rattle.jbig2_coder.specs.Integers.{Procedures};

    ghost Value = { Procedures };

    ghost view = { λ s. s.decoders.items };

    ghost invariant = { λ s. length s.decoders.items ≡ 13 };
}

impl<A: Allocator + Clone> IntegerProcedures<A> {
    /// Procedures with fresh contexts.
    ///
    /// # Errors
    /// `OutOfMemory` if there is no memory for the contexts.
    pub fn new(alloc: A) -> Result<IntegerProcedures<A>>
        ensures { Gives (λ procedures. procedures) result (Ok fresh_procedures) }
    {
        let mut decoders = Vec::new(alloc.clone()?);
        for _ in 0..PROCEDURES {
            decoders.push(IntegerDecoder::new(alloc.clone()?)?)?;
        }
        Ok(IntegerProcedures { decoders })
    }
}

impl<A: Allocator> IntegerProcedures<A> {
    /// The next integer of a procedure, or `None` if it is out of band.
    #[tactic(auto, unfolding(crate::specs::Integers::integer_by))]
    pub fn ask<L: Ledger>(
        &mut self,
        procedure: IntegerProcedure,
        decoder: &mut ArithmeticDecoder<'_>,
        steps: &mut Steps<L>,
    ) -> Option<i32>
        ensures value { result ≡ (integer_by procedure decoder.old self.old).value }
        ensures coder { decoder.new ≡ (integer_by procedure decoder.old self.old).coder }
        ensures procedures { self.new ≡ (integer_by procedure decoder.old self.old).procedures }
        ensures steps { let count = length
            (asked_integer procedure decoder.old self.old).reading.bits in
            steps.new ≡ record steps.old { decisions = steps.old.decisions + count } }
    {
        self.decoders[procedure.index()].decode(decoder, steps)
    }
}
