//! Reads symbol ids that are coded with the arithmetic coder (T.88, A.3).

ghost use Rattle.std.specs.Prelude.{◌≡◌, ◌+◌, ◌^◌, ◌<◌, ◌≤◌, length, replicate, Ok};
ghost use Rattle.jbig2_base.specs.Results.{Gives};
ghost use Rattle.jbig2_coder.specs.Coder.{fresh};
ghost use Rattle.jbig2_coder.specs.Integers.{Ids, id};
ghost use Rattle.jbig2_base.specs.Bits.{value_of_bits};

use crate::arithmetic_decoder::{ArithmeticDecoder, ArithmeticDecoderContext};
use jbig2_base::error::Result;
use jbig2_steps::Steps;
use std::alloc::Allocator;
use std::marker::Model;
use std::sync::ledger::Ledger;

/// Reads symbol ids of one code length, and keeps their contexts.
#[derive(Drop)]
pub struct SymbolIdDecoder<A: Allocator> {
    contexts: Vec<ArithmeticDecoderContext, A>,
    code_len: u32,
}

impl<A: Allocator> Model for SymbolIdDecoder<A> {
    ghost use Rattle.std.specs.Prelude.{◌≡◌, ◌^◌, ◌≤◌, length};
    ghost use Rattle.jbig2_coder.specs.Integers.{Ids};

    ghost Value = { Ids };

    ghost view = { λ s. record { code_len = s.code_len; contexts = s.contexts.items } };

    ghost invariant = { λ s. (s.code_len ≤ 30) × (length s.contexts.items ≡ 2 ^ s.code_len) };
}

impl<A: Allocator> SymbolIdDecoder<A> {
    /// A decoder of ids of `code_len` bits, with fresh contexts.
    ///
    /// # Errors
    /// `OutOfMemory` if there is no memory for the contexts.
    pub fn new(alloc: A, code_len: u32) -> Result<SymbolIdDecoder<A>>
        requires { code_len ≤ 30 }
        ensures { Gives (λ ids. ids) result
            (Ok (record { code_len = code_len; contexts = replicate (2 ^ code_len) fresh })) }
    {
        let contexts = vec![in alloc; ArithmeticDecoderContext::new(); 1 << code_len]?;
        Ok(SymbolIdDecoder { contexts, code_len })
    }

    /// The next id.
    pub fn decode<L: Ledger>(
        &mut self,
        decoder: &mut ArithmeticDecoder<'_>,
        steps: &mut Steps<L>,
    ) -> u32
        ensures value { result
            ≡ value_of_bits (id decoder.old.bytes decoder.old.registers self.old).bits }
        ensures below { result < 2 ^ self.old.code_len }
        ensures coder { decoder.new ≡ record decoder.old {
          registers = (id decoder.old.bytes decoder.old.registers self.old).registers;
        } }
        ensures contexts { self.new ≡ record self.old {
          contexts = (id decoder.old.bytes decoder.old.registers self.old).contexts;
        } }
        ensures steps { steps.new
            ≡ record steps.old { decisions = steps.old.decisions + self.old.code_len } }
        ensures few { self.old.code_len ≤ 30 }
    {
        read_id(self.code_len, &mut self.contexts, decoder, steps)
    }
}

// An id of `code_len` bits.
fn read_id<L: Ledger>(
    code_len: u32,
    contexts: &mut [ArithmeticDecoderContext],
    decoder: &mut ArithmeticDecoder<'_>,
    steps: &mut Steps<L>,
) -> u32
    requires few { code_len ≤ 30 }
    requires size { length contexts.old ≡ 2 ^ code_len }
    ensures value { result ≡ value_of_bits
        (id decoder.old.bytes decoder.old.registers
        (record { code_len = code_len; contexts = contexts.old })).bits }
    ensures below { result < 2 ^ code_len }
    ensures coder { decoder.new ≡ record decoder.old {
      registers = (id decoder.old.bytes
          decoder.old.registers
          (record { code_len = code_len; contexts = contexts.old })).registers;
    } }
    ensures contexts { contexts.new
        ≡ (id decoder.old.bytes decoder.old.registers
        (record { code_len = code_len; contexts = contexts.old })).contexts }
    ensures steps { steps.new ≡ record steps.old { decisions = steps.old.decisions + code_len } }
{
    let mut prev = 1;
    for _ in 0..code_len {
        let bit = decoder.decode(&mut contexts[prev as usize], steps);
        prev = 2 * prev + bit;
    }
    prev - (1 << code_len)
}
